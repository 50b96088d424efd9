//! What one end of an exchange over HTTP writes, the other reads, wherever the line between them is cut.
//! It stands on `mr_peer` and `mr_web`, the two ends. README.md says what is where.
#![tactic(auto)]

pub mod laws;
