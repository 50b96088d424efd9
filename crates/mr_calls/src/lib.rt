//! What the program's commands ask of databases, as calls of offices: so the laws of `mr_offices` hold of them.
//! It stands on `mr_net`, `mr_tasks` and `mr_branches`; no path of the program uses it. README.md says what is proved.
#![tactic(auto)]

pub mod databases;
pub mod laws;
pub mod tasks;
