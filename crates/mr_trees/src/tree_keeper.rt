ghost use Rattle.std.specs.Prelude.{◌≡◌, ◌<◌, IsTrue};
ghost use Rattle.sqlite_trees.specs.View.{IsClean};
ghost use Rattle.mr_store.specs.KeeperCalls.{failures_for};
ghost use Rattle.mr_trees.specs.Scanned.{IsCalm};
ghost use Rattle.mr_trees.specs.Opened.{IsNewTree};

use crate::questions;
use crate::troubles::Trouble;
use mr_part::{Part, Scope};
use mr_replica::Desk;
use mr_store::{Answer, Fault, Keeper, Question};
use mr_tables::{Change, Tables};
use sqlite_trees::error::StoreError;
use sqlite_trees::store::Store;
use std::alloc::Global;
use std::marker::Model;

/// A keeper for questions about rooms, whose tables lie in trees. Contracts see it as its store and the number of calls that have answered that
/// the store failed. What no question about a room asks for, parts, all rows or a change, it answers as a failure of the store.
#[derive(Drop)]
pub struct TreeKeeper<S: Store> {
    store: S,
    failures: u64,
    alloc: Global,
}

impl<S: Store> Model for TreeKeeper<S> {
    ghost use Rattle.std.specs.Prelude.{ℕ, IsTrue};
    ghost use Rattle.std.specs.Coded.{coded×, coded_ℕ};
    ghost use Rattle.sqlite_trees.specs.View.{IsClean};
    ghost use Rattle.mr_trees.specs.Scanned.{IsCalm};

    ghost Value = { S × ℕ };

    ghost coded = { coded× S.code coded_ℕ };

    ghost view = { λ k. (k.store, k.failures) };

    ghost invariant = { λ k. IsClean (S.Store.view k.store) → IsTrue (S.Store.view k.store).is_open → IsCalm (S.Store.view k.store) };
}

/// The fault that a trouble is, counted if it isn't that memory ran out. A count that is full is reported as out of memory.
fn fault_of(failures: &mut u64, trouble: Trouble) -> Fault
    ensures counted { failures.new ≡ failures_for result failures.old }
    ensures memory { trouble ≡ Trouble.OutOfMemory → result ≡ Fault.OutOfMemory }
    ensures rows { trouble ≡ Trouble.Rows → failures.old < 18_446_744_073_709_551_615 → result ≡ Fault.Store }
{
    match trouble {
        Trouble::OutOfMemory => Fault::OutOfMemory,
        Trouble::Store(StoreError::OutOfMemory) => Fault::OutOfMemory,
        Trouble::Store(_) => Fault::counted(failures),
        Trouble::Rows => Fault::counted(failures),
    }
}

impl<S: Store> TreeKeeper<S> {
    /// The keeper of this store, of which no call has failed.
    pub(crate) fn opened(alloc: Global, store: S) -> TreeKeeper<S>
        requires open { IsClean (S.Store.view store) → IsTrue (S.Store.view store).is_open }
        requires calm { IsClean (S.Store.view store) → IsCalm (S.Store.view store) }
        ensures is { result ≡ (store, 0) }
        ensures new { IsNewTree S.Store result }
    {
        TreeKeeper {
            store,
            failures: 0,
            alloc,
        }
    }
}

impl<S: Store> Keeper for TreeKeeper<S> {
    ghost use Rattle.std.specs.Prelude.{◌≡◌, IsTrue};
    ghost use Rattle.sqlite_trees.specs.Tree.{Trees};
    ghost use Rattle.sqlite_trees.specs.View.{IsClean};
    ghost use Rattle.mr_trees.specs.TreeTables.{tables_shown};

    ghost tables = { λ k. tables_shown (S.Store.view k.0).trees };

    ghost failures = { λ k. k.1 };

    ghost is_clean = { λ k. IsClean (S.Store.view k.0) };

    ghost is_open = { λ k. IsTrue (S.Store.view k.0).is_open };

    ghost may_leave = { λ k t. (trees : Trees) × S.Store.recovers k.0 trees × (t ≡ tables_shown trees) };

    ghost never_fails = { ⊥ };

    fn load(&mut self) -> Result<Desk, Fault> {
        Err(Fault::counted(&mut self.failures))
    }

    fn load_part(&mut self, _scope: &Scope<'_>) -> Result<Part, Fault> {
        Err(Fault::counted(&mut self.failures))
    }

    fn query(&mut self, question: &Question<'_>) -> Result<Answer, Fault> {
        match questions::query(&mut self.store, self.alloc, question) {
            Ok(answer) => Ok(answer),
            Err(trouble) => Err(fault_of(&mut self.failures, trouble)),
        }
    }

    fn read(&mut self) -> Result<Tables, Fault> {
        Err(Fault::counted(&mut self.failures))
    }

    fn apply(&mut self, _change: &Change) -> Result<(), Fault> {
        Err(Fault::counted(&mut self.failures))
    }
}
