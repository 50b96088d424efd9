//! Offices over any keepers, and the world for which their databases stand: the laws of `mr_offices` hold of what the program does.
//! It stands on `mr_service`, `mr_ends` and `mr_offices`; no path of the program uses it. README.md has lines of use, and what is proved.
#![tactic(auto)]

pub mod laws;
pub mod offices;
pub mod pulling;
