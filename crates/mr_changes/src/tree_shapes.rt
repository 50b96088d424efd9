ghost use Rattle.std.specs.Prelude.{◌≡◌, ◌+◌, ◌≤◌, IsTrue};
ghost use Rattle.sqlite_value.specs.Keys.{plain};
ghost use Rattle.mr_changes.specs.Indexed.{HasTrees};

use sqlite_trees::store::{Shape, Store};
use sqlite_value::keys::Order;

/// Whether this tree is a table, and the next one the index of its key.
fn is_table<S: Store>(store: &S, tree: u32) -> bool
    requires { tree ≤ 100 }
    ensures { IsTrue result → ((S.Store.view store.now).shape tree ≡ Shape.Table) × ((S.Store.view store.now).shape (tree + 1) ≡ Shape.Index plain) }
{
    store.shape(tree) == Shape::Table && store.shape(tree + 1) == Shape::Index(Order::PLAIN)
}

/// Whether the store has our tables, an index of each, and no other index. Nothing is read.
#[tactic(auto, using(crate::proofs::IndexLemmas::trees_of))]
pub fn has_trees<S: Store>(store: &S) -> bool
    ensures { IsTrue result → HasTrees (S.Store.view store.now).shape }
{
    store.tree_count() <= 20
        && is_table(store, 0)
        && is_table(store, 2)
        && is_table(store, 4)
        && is_table(store, 6)
        && is_table(store, 8)
        && is_table(store, 10)
        && is_table(store, 12)
        && is_table(store, 14)
        && is_table(store, 16)
        && is_table(store, 18)
}
