//! Tables of the first schema in a SQL database, and how they move up to the second, in one transaction (src/moving.rt), if their rows agree.
//! It stands on `mr_rows` and `mr_audit`; `mr_sql`, whose keepers have such databases, stands above it. README.md says which definitions
//! contracts cite, and what is proved.
#![tactic(auto)]

mod cells;
mod clearing;
pub mod creating;
mod first_rows;
pub mod found;
mod logs;
pub mod moved_tables;
pub mod moving;
pub mod pairs;
pub mod puts;
mod rows;
mod tables;

pub use rows::{FirstUndoRow, WriteRow};
pub use tables::First;
