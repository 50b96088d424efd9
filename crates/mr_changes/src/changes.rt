ghost use Rattle.std.specs.Prelude.{◌≡◌, ◌⊎◌, OnOk, OnErr, IsTrue};
ghost use Rattle.sqlite_trees.specs.Tree.{Trees};
ghost use Rattle.sqlite_trees.specs.View.{IsClean};
ghost use Rattle.mr_tables.specs.Change.{changed};
ghost use Rattle.mr_rows.specs.Database.{AreHeld, tables_in};
ghost use Rattle.mr_changes.specs.Fit.{IsFit, IsViewKept};
ghost use Rattle.mr_changes.specs.Steps.{IsStoreStep, Makes, SettlesOn, StaysAsKept};

use crate::making::{make_rows, put_heads};
use mr_tables::Change;
use sqlite_exec::work::Workspace;
use sqlite_trees::error::StoreError;
use sqlite_trees::store::Store;
use std::alloc::Global;

/// Makes the whole change within the transaction.
fn make<S: Store>(
    store: &mut S,
    work: &mut Workspace,
    alloc: Global,
    change: &Change,
) -> Result<(), StoreError>
    requires fit { IsClean (S.Store.view store.old) → IsFit (S.Store.view store.old) }
    ensures made { OnOk result (IsClean (S.Store.view store.new) → Makes (S.Store.view store.old) (S.Store.view store.new) (changed change.now (tables_in (S.Store.view store.old).trees))) }
    ensures step { IsStoreStep S.Store store.old store.new }
{
    make_rows(store, work, alloc, change)?;
    put_heads(store, work, alloc, change)
}

/// One transaction: it makes the whole change, or none of it. A failure leaves the store as it was, unless it shuts it.
pub fn apply<S: Store>(store: &mut S, alloc: Global, change: &Change) -> Result<(), StoreError>
    requires kept { IsClean (S.Store.view store.old) → IsTrue (S.Store.view store.old).is_open → IsViewKept (S.Store.view store.old) }
    ensures clean { IsClean (S.Store.view store.new) → IsClean (S.Store.view store.old) }
    ensures opens { IsClean (S.Store.view store.new) → IsTrue (S.Store.view store.new).is_open → IsTrue (S.Store.view store.old).is_open }
    ensures answered { IsClean (S.Store.view store.new) → OnOk result (IsTrue (S.Store.view store.old).is_open) }
    ensures lasts { IsClean (S.Store.view store.new) → OnOk result (IsTrue (S.Store.view store.new).is_open) }
    ensures applied { IsClean (S.Store.view store.new) → OnOk result (SettlesOn (S.Store.view store.new) (changed change.now (tables_in (S.Store.view store.old).trees))) }
    ensures refused { IsClean (S.Store.view store.new) → IsTrue (S.Store.view store.new).is_open → OnErr result (StaysAsKept (S.Store.view store.old) (S.Store.view store.new)) }
    ensures crash { IsClean (S.Store.view store.new) → (db : Trees) → S.Store.recovers store.new db → S.Store.recovers store.old db
        ⊎ (IsTrue (S.Store.view store.old).is_open × AreHeld db × (tables_in db ≡ changed change.now (tables_in (S.Store.view store.old).trees))) }
{
    if store.is_broken() {
        return Err(StoreError::Broken);
    }
    let mut work = Workspace::new(alloc);
    match make(store, &mut work, alloc, change) {
        Ok(()) => store.commit(),
        Err(error) => {
            store.rollback();
            Err(error)
        }
    }
}
