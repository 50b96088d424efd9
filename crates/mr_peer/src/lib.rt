//! The client's half of exchanges over HTTP, over any reader and writer: what a peer is asked or handed, and its replies.
//! It stands on `mr_service`, `mr_wire` and `mr_http`; `mr_net` stands above. README.md has lines of use, and what is proved.
#![tactic(auto)]

mod asking;
mod laws;
mod positions;
mod pulls;
mod pushes;
mod replies;
mod requests;
mod rounds;
mod took;

pub use laws::reply_law;
pub use mr_http::WebFault;
pub use positions::{position_ask, position_take};
pub use pulls::{pull_ask, pull_take};
pub use pushes::{push_ask, push_take};
pub use rounds::{pull, push};
