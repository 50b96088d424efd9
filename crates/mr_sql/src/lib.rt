//! A keeper of a replica's tables in a SQL database: tables are made, or found and taken or refused; a change is one transaction.
//! It stands on `mr_store`, `mr_rows`, `mr_first`, `mr_disk` and the kit's `sqlite`; programs stand above it. README.md has lines of use, and what is
//! proved.
#![tactic(auto)]

mod adopt;
mod again;
mod answers;
mod create;
mod create_first;
mod faults;
mod files;
mod first;
mod first_keeper;
mod load;
mod numbers;
mod our_tables;
mod questions;
mod schema_number;
mod schemas;
mod shut;
mod sql_keeper;

pub use files::{CopyKeeper, FileKeeper, NotCopied};
pub use first_keeper::{FirstKeeper, first_memory_is_honest};
pub use sql_keeper::{SqlKeeper, memory_is_honest};
