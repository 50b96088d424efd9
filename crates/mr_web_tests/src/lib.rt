//! Tests of what no command of the program reaches in the service and the ways to it; `uses` shows how other programs call the crates. README.md says which
//! file has what; nothing stands on this crate.
#![tactic(auto)]

#[cfg(test)]
mod asking_tests;
#[cfg(test)]
mod commands;
#[cfg(test)]
mod connections;
#[cfg(test)]
mod head_tests;
#[cfg(test)]
mod running_tests;
#[cfg(test)]
mod same;
#[cfg(test)]
mod serving_tests;
#[cfg(test)]
mod uses;
#[cfg(test)]
mod without_desk;
#[cfg(test)]
mod without_memory_tests;
#[cfg(test)]
mod words_tests;
