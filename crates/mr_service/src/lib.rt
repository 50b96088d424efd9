//! Commands to one replica, and its replies, over any keeper of its tables; lists of commands; worlds of replicas.
//! It stands on `mr_store`, `mr_part` and `mr_wire`; scripts, HTTP and the program stand above. README.md has lines of use, and what is proved.
#![tactic(auto)]

mod calendars;
mod change;
mod changing;
mod commands;
mod log_lines;
mod members;
mod outcomes;
mod questions;
mod replies;
mod runs;
mod services;
mod steps;
mod texts;
mod turns;
mod words;
mod world_batches;
mod world_steps;
mod worlds;

pub use commands::{CalendarPart, Command, Local, SlotWords, Submission};
pub use replies::{LogLine, Outcome, Reply, ShownBooking};
pub use runs::{run, run_over_lists};
pub use services::Service;
pub use steps::{Step, StepReply};
pub use texts::{refusal_text, reply_text, sheet_text};
pub use worlds::World;
