ghost use Rattle.std.specs.Prelude.{◌≡◌, filter, map, IfOk, IfErr, OnOk, OnErr};
ghost use Rattle.sqlite_disk.specs.Disk.{MoreFaults};
ghost use Rattle.sqlite_trees.specs.View.{IsClean, IsQuiet, KeepsCommitted};
ghost use Rattle.sqlite_exec.specs.Calls.{OnlyReads};
ghost use Rattle.mr_rows.specs.Shown.{AreOurRows};
ghost use Rattle.mr_trees.specs.Trouble.{IsCause};
ghost use Rattle.mr_trees.specs.Scanned.{picks};

use crate::rows::{Picked, TreeRow, take_one};
use crate::troubles::Trouble;
use sqlite_trees::store::{Direction, Store};
use sqlite_value::row::Row;
use std::alloc::Global;

/// The picked rows of a table, in the order of the tree.
pub(crate) fn scan<R: TreeRow, S: Store>(
    store: &mut S,
    alloc: Global,
    picked: Picked<'_>,
) -> Result<Vec<R>, Trouble>
    ensures ok { IfOk result (λ rows. IsClean (S.Store.view store.new)
        → rows.items ≡ map R.StoredRow.form.row_in (filter (picks picked.entry) ((S.Store.view store.old).trees R.StoredRow.form.table.tree))) }
    ensures same { OnOk result (IsClean (S.Store.view store.new) → OnlyReads (S.Store.view store.old) (S.Store.view store.new)) }
    ensures err { OnErr result (IsClean (S.Store.view store.new) → KeepsCommitted (S.Store.view store.old) (S.Store.view store.new)) }
    ensures cause { IfErr result (λ e. IsClean (S.Store.view store.new)
        → IsCause (S.Store.view store.old) (MoreFaults (S.Store.faults store.old) (S.Store.faults store.new)) (¬ AreOurRows (S.Store.view store.old).trees) e) }
    ensures quiet { IsQuiet S.Store.view S.Store.faults S.Store.recovers S.Store.is_shielded store.old store.new }
{
    let mut row = Row::new(alloc);
    store.seek(0, R::tree(), &row, Direction::Forward)?;
    let mut out = Vec::new(alloc);
    'rows: for _ in 0..u64::MAX {
        if !store.next(0, &mut row)? {
            return Ok(out);
        }
        take_one(alloc, &row, picked, &mut out)?;
    }
    // No sound store has this many entries.
    Err(Trouble::OutOfMemory)
}
