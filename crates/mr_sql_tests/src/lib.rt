//! Tests of whole replicas over each keeper, with replies worked by hand, and the headline over SQLite in memory (`run_in_memory`). README.md says which
//! file has what; nothing stands on this crate.
#![tactic(auto)]

#[cfg(test)]
mod acts;
#[cfg(test)]
mod branch_tests;
#[cfg(test)]
mod crash_tests;
#[cfg(test)]
mod disks;
#[cfg(test)]
mod fault_tests;
#[cfg(test)]
mod first_files;
#[cfg(test)]
mod firsts;
mod in_memory;
#[cfg(test)]
mod in_memory_tests;
#[cfg(test)]
mod layouts;
#[cfg(test)]
mod memory_tests;
#[cfg(test)]
mod moving_tests;
#[cfg(test)]
mod now_and_then;
#[cfg(test)]
mod now_and_then_tests;
#[cfg(test)]
mod offices;
#[cfg(test)]
mod on_disks;
#[cfg(test)]
mod opening;
#[cfg(test)]
mod part_tests;
#[cfg(test)]
mod reads;
#[cfg(test)]
mod receiving_tests;
#[cfg(test)]
mod same_text;
#[cfg(test)]
mod script_tests;
#[cfg(test)]
mod scripts;
#[cfg(test)]
mod stops;
#[cfg(test)]
mod without_desk;

pub use in_memory::run_in_memory;
