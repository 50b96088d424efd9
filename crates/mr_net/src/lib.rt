//! Commands over sockets: `serve`, `exchange` and `bridge`. No clause says what a socket gives and takes; tests try it.
//! It stands on `mr_web`, `mr_peer`, `mr_sql` and `mr_words`; `mr` stands above. README.md says what is proved.
#![tactic(auto)]

mod bridging;
mod connecting;
mod connections;
mod databases;
mod exchanging;
mod hosts;
mod laws;
mod printing;
mod serving;
mod taking;
mod timed;
mod ways;

pub use bridging::bridge;
pub use exchanging::exchange;
pub use laws::asking_law;
pub use mr_peer::{
    position_ask, position_take, pull, pull_ask, pull_take, push, push_ask, push_take,
};
pub use mr_web::{WebFault, serve_one};
pub use serving::serve;
