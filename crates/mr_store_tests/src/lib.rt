//! Tests of the crates from `mr_base` to `mr_store`. README.md says which file has what; nothing stands on this crate.
#![tactic(auto)]

#[cfg(test)]
mod builders;
#[cfg(test)]
mod cached;
#[cfg(test)]
mod calendar_tests;
#[cfg(test)]
mod calls;
#[cfg(test)]
mod cancels;
#[cfg(test)]
mod changes;
#[cfg(test)]
mod copies;
#[cfg(test)]
mod desks;
#[cfg(test)]
mod early;
#[cfg(test)]
mod full;
#[cfg(test)]
mod hostile_tests;
#[cfg(test)]
mod keepers;
#[cfg(test)]
mod many;
#[cfg(test)]
mod parts;
#[cfg(test)]
mod places;
#[cfg(test)]
mod plain;
#[cfg(test)]
mod reading_tests;
#[cfg(test)]
mod row_tests;
#[cfg(test)]
mod rows;
#[cfg(test)]
mod same;
#[cfg(test)]
mod shown;
#[cfg(test)]
mod tables;
#[cfg(test)]
mod value_tests;
