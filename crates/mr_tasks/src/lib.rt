//! What the program `rooms` does without a socket: one task of the replica in a database, and rehearsal scripts.
//! It stands on `mr_words`, `mr_sql` and `mr_service`; the command lines of `mr` stand above. README.md has lines of use, and what is proved.
#![tactic(auto)]

mod asking;
pub mod databases;
pub mod files;
mod lines;
mod rehearsal;
mod run;
mod script;
mod tasks;
mod words;

pub use run::rehearse;
pub use script::{ScriptFault, read_script, scripts_are_read_one_way};
