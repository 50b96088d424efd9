ghost use Rattle.std.specs.Prelude.{◌≡◌, false, ◌+◌, ◌-◌, ℤ, ◌<ℤ◌, length, IfOk, IfSome, OnOk, OnErr};
ghost use Rattle.std.specs.declared.cmp.Ordering.TheVariants.{Less};
ghost use Rattle.sqlite_value.specs.declared.value.Value.TheVariants.{Int};
ghost use Rattle.sqlite_value.specs.Keys.{plain};
ghost use Rattle.sqlite_value.specs.Order.{Row as Cells, column, value_cmp};
ghost use Rattle.sqlite_trees.specs.Tree.{from_key, rowid, IsTable};
ghost use Rattle.sqlite_trees.specs.View.{IsClean, IsQuiet, KeepsCommitted};
ghost use Rattle.sqlite_trees.specs.declared.store.Shape.TheVariants.{Index};
ghost use Rattle.sqlite_rules.specs.Lists.{Has};
ghost use Rattle.sqlite_exec.specs.Calls.{OnlyReads};
ghost use Rattle.mr_changes.specs.Fit.{IsFit};
ghost use Rattle.mr_changes.specs.Found.{HasKey, IsAlone, IsRowidOf, IsPlaceFor, FindsEntry};

use crate::placed::PlacedRow;
use sqlite_exec::write;
use sqlite_trees::error::StoreError;
use sqlite_trees::store::{Direction, Store};
use sqlite_value::keys::Order;
use sqlite_value::row::Row;
use sqlite_value::value::ValueRef;
use std::alloc::Global;

/// The first entry that isn't below the key, if it has the key.
fn find_entry<S: Store>(
    store: &mut S,
    index: u32,
    key: &Row,
    entry: &mut Row,
) -> Result<bool, StoreError>
    requires index { IsClean (S.Store.view store.old) → (S.Store.view store.old).shape index ≡ Index plain }
    ensures ok { IfOk result (λ found. IsClean (S.Store.view store.new) → FindsEntry key.now (from_key plain key.now ((S.Store.view store.old).trees index)) entry.new found) }
    ensures reads { OnOk result (IsClean (S.Store.view store.new) → OnlyReads (S.Store.view store.old) (S.Store.view store.new)) }
    ensures err { OnErr result (IsClean (S.Store.view store.new) → KeepsCommitted (S.Store.view store.old) (S.Store.view store.new)) }
    ensures quiet { IsQuiet S.Store.view S.Store.faults S.Store.recovers S.Store.is_shielded store.old store.new }
{
    store.seek(0, index, key, Direction::Forward)?;
    Ok(store.next(0, entry)? && entry.cmp_prefix(Order::PLAIN, key).is_eq())
}

/// The rowid behind an entry's key.
fn rowid_in(entry: &Row) -> Option<i64>
    ensures { IfSome result (λ id. column entry.now (length entry.now - 1) ≡ Int id) }
{
    match entry.get(entry.len().saturating_sub(1)) {
        ValueRef::Int(id) => Some(id),
        _ => None,
    }
}

/// The rowid of the row with the key, by its index.
pub(crate) fn find<R: PlacedRow, S: Store>(
    store: &mut S,
    key: &Row,
    entry: &mut Row,
) -> Result<Option<i64>, StoreError>
    requires fit { IsClean (S.Store.view store.old) → IsFit (S.Store.view store.old) }
    ensures found { IfOk result (λ at. IsClean (S.Store.view store.new) → IsAlone (HasKey R.key_at key.now) ((S.Store.view store.old).trees R.StoredRow.form.table.tree)
        → IsRowidOf (HasKey R.key_at key.now) ((S.Store.view store.old).trees R.StoredRow.form.table.tree) at) }
    ensures reads { OnOk result (IsClean (S.Store.view store.new) → OnlyReads (S.Store.view store.old) (S.Store.view store.new)) }
    ensures err { OnErr result (IsClean (S.Store.view store.new) → KeepsCommitted (S.Store.view store.old) (S.Store.view store.new)) }
    ensures quiet { IsQuiet S.Store.view S.Store.faults S.Store.recovers S.Store.is_shielded store.old store.new }
{
    if !find_entry(store, R::table() + 1, key, entry)? {
        return Ok(None);
    }
    match rowid_in(entry) {
        Some(id) => Ok(Some(id)),
        None => Err(StoreError::Corrupt),
    }
}

/// The number behind the row's rowid, if there is one.
fn after(row: &Row) -> Option<i64>
    ensures { IfSome result (λ n. (m : ℤ) × (column row.now 0 ≡ Int m) × (m <ℤ n)) }
{
    match row.get(0) {
        ValueRef::Int(id) => id.checked_add(1),
        _ => None,
    }
}

/// A rowid above all that the table has.
fn next_id<S: Store>(store: &mut S, table: u32, row: &mut Row) -> Result<i64, StoreError>
    ensures above { IfOk result (λ id. IsClean (S.Store.view store.new) → IsTable ((S.Store.view store.old).trees table)
        → (r : Cells) → Has ((S.Store.view store.old).trees table) r → value_cmp (rowid r) (Int id) ≡ Less) }
    ensures reads { OnOk result (IsClean (S.Store.view store.new) → OnlyReads (S.Store.view store.old) (S.Store.view store.new)) }
    ensures err { OnErr result (IsClean (S.Store.view store.new) → KeepsCommitted (S.Store.view store.old) (S.Store.view store.new)) }
    ensures quiet { IsQuiet S.Store.view S.Store.faults S.Store.recovers S.Store.is_shielded store.old store.new }
{
    if !write::last(store, table, row)? {
        return Ok(1);
    }
    match after(row) {
        Some(id) => Ok(id),
        None => Err(StoreError::Full),
    }
}

/// The rowid of the row with this row's key, or one above all where none has it.
pub(crate) fn place_of<R: PlacedRow, S: Store>(
    store: &mut S,
    alloc: Global,
    row: &R,
) -> Result<i64, StoreError>
    requires fit { IsClean (S.Store.view store.old) → IsFit (S.Store.view store.old) }
    ensures place { IfOk result (λ id. IsClean (S.Store.view store.new)
        → IsPlaceFor R.StoredRow.form (R.StoredRow.form.key row.now) ((S.Store.view store.old).trees R.StoredRow.form.table.tree) id) }
    ensures reads { OnOk result (IsClean (S.Store.view store.new) → OnlyReads (S.Store.view store.old) (S.Store.view store.new)) }
    ensures err { OnErr result (IsClean (S.Store.view store.new) → KeepsCommitted (S.Store.view store.old) (S.Store.view store.new)) }
    ensures quiet { IsQuiet S.Store.view S.Store.faults S.Store.recovers S.Store.is_shielded store.old store.new }
{
    let mut key = Row::new(alloc);
    row.put_key(&mut key)?;
    let mut entry = Row::new(alloc);
    match find::<R, S>(store, &key, &mut entry)? {
        Some(id) => Ok(id),
        None => next_id(store, R::table(), &mut entry),
    }
}
