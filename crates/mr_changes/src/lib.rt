//! A change of a replica's tables, made in the trees of a database without SQL: rows are found by the index of their key, put and taken away with
//! their entries, and committed at once. It stands on `mr_rows`, which knows a row's cells, and on the kit's `sqlite_exec`, whose writes keep indexes
//! up to date. README.md says which definitions contracts cite, and what is proved.
#![tactic(auto)]

mod changes;
mod finds;
mod key_indexes;
mod making;
mod meta;
mod placed;
mod tree_shapes;
mod writes;

pub use changes::apply;
pub use tree_shapes::has_trees;
