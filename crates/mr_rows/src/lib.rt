//! Rows of a replica's tables in a SQL database: how they are read, put and taken away, by statements under our schema.
//! It stands on `mr_tables` and the kit's `sqlite`; `mr_first` and `mr_sql` stand above it. README.md says which definitions contracts cite, and what is
//! proved.
#![tactic(auto)]

ghost use Rattle.mr_rows.specs.TableLimits.{LimitsAreKept, HeldRowsAreOurs};

mod actions;
pub mod all_tables;
pub mod asked_rows;
mod cancel_rows;
pub mod cells;
pub mod changes;
pub mod choices;
pub mod columns;
pub mod found;
mod idle;
mod log_rows;
pub mod meta_row;
pub mod meta_table;
pub mod numbers;
mod order;
mod params_of;
pub mod puts;
pub mod queries;
mod slot_rows;
mod stored_rows;
mod table_rows;

pub use idle::Idle;
pub use stored_rows::{OurRow, RowTexts, StoredRow, put_row, read_all, read_row, test_row};

/// The rows of a replica's tables are within the limits for which each row is tested, so that none is refused.
pub fn limits_law()
    ensures { LimitsAreKept }
{}

/// The rows that a keeper holds for a replica are rows as the readers want them, and `meta` has one. So reading them fails
/// only if the store does, or if memory runs out.
pub fn rows_law()
    ensures { HeldRowsAreOurs }
{}
