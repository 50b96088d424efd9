//! Questions about a room, answered from the trees of a copy of a database file, without SQL: it tests each row once, and reads those that an answer needs.
//! It stands on `mr_rows`, which knows a row's cells, on `mr_store`, whose trait `Keeper` it meets, and on the kit's `sqlite_store`, which
//! tests the pages. README.md says which definitions contracts cite, and what is proved.
#![tactic(auto)]

ghost use Rattle.mr_trees.specs.TreeTables.{HeldTablesAreShown};

mod entries;
mod heads;
mod opening;
mod places;
mod questions;
mod rows;
mod scans;
mod schema;
mod testing;
mod tree_keeper;
mod troubles;

pub use opening::CopyOfTrees;
pub use questions::query;
pub use tree_keeper::TreeKeeper;
pub use troubles::Trouble;

/// Where trees hold a replica's tables, these are the tables that a scan shows.
pub fn tables_law()
    ensures { HeldTablesAreShown }
{}
