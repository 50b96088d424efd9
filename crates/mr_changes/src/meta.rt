ghost use Rattle.std.specs.Prelude.{◌≡◌, ◌∷◌, pos, IfOk, OnOk, OnErr};
ghost use Rattle.sqlite_value.specs.declared.value.Value.TheVariants.{Int};
ghost use Rattle.sqlite_trees.specs.View.{IsClean, IsQuiet, KeepsCommitted};
ghost use Rattle.sqlite_exec.specs.Calls.{OnlyReads};
ghost use Rattle.mr_rows.specs.Form.{meta_form};
ghost use Rattle.mr_rows.specs.RowCells.{meta_cells_of};
ghost use Rattle.mr_rows.specs.Database.{tables_in};
ghost use Rattle.mr_rows.specs.ChangeParts.{put_meta as with_meta};
ghost use Rattle.mr_changes.specs.Fit.{IsFit};
ghost use Rattle.mr_changes.specs.Found.{IsPlaceFor};
ghost use Rattle.mr_changes.specs.Steps.{IsStoreStep, Makes};

use crate::key_indexes::indexes;
use mr_tables::MetaRow;
use sqlite_exec::work::Workspace;
use sqlite_exec::write;
use sqlite_trees::error::StoreError;
use sqlite_trees::store::Store;
use sqlite_value::row::Row;
use sqlite_value::value::ValueRef;
use std::alloc::Global;

/// The rowid of the row of `meta`, or 1 where there is none.
fn place_of_meta<S: Store>(store: &mut S, row: &mut Row) -> Result<i64, StoreError>
    requires fit { IsClean (S.Store.view store.old) → IsFit (S.Store.view store.old) }
    ensures place { IfOk result (λ id. IsClean (S.Store.view store.new) → IsPlaceFor meta_form 1 ((S.Store.view store.old).trees 0) id) }
    ensures reads { OnOk result (IsClean (S.Store.view store.new) → OnlyReads (S.Store.view store.old) (S.Store.view store.new)) }
    ensures err { OnErr result (IsClean (S.Store.view store.new) → KeepsCommitted (S.Store.view store.old) (S.Store.view store.new)) }
    ensures quiet { IsQuiet S.Store.view S.Store.faults S.Store.recovers S.Store.is_shielded store.old store.new }
{
    if !write::last(store, 0, row)? {
        return Ok(1);
    }
    match row.get(0) {
        ValueRef::Int(id) => Ok(id),
        _ => Err(StoreError::Corrupt),
    }
}

/// The number, if a column has room for it.
fn whole(number: u64) -> Result<i64, StoreError>
    ensures { IfOk result (λ n. n ≡ pos number) }
{
    match i64::try_from(number) {
        Ok(n) => Ok(n),
        Err(_) => Err(StoreError::Unstorable),
    }
}

/// The row of `meta` of the second schema, at this rowid.
fn make_meta(alloc: Global, meta: &MetaRow, id: i64) -> Result<Row, StoreError>
    ensures { IfOk result (λ row. row ≡ Int id ∷ meta_cells_of 2 meta.now) }
{
    let commits = whole(meta.commits)?;
    let dropped = whole(meta.dropped)?;
    let clock = whole(meta.clock)?;
    let mut row = Row::new(alloc);
    row.push(ValueRef::Int(id))?;
    row.push(ValueRef::Int(1))?;
    row.push(ValueRef::Int(2))?;
    row.push(ValueRef::Int(i64::from(meta.server.number())))?;
    row.push(ValueRef::Int(i64::from(meta.primary.number())))?;
    row.push(ValueRef::Int(commits))?;
    row.push(ValueRef::Int(dropped))?;
    row.push(ValueRef::Int(clock))?;
    Ok(row)
}

/// Puts the row of `meta`.
pub(crate) fn put_meta<S: Store>(
    store: &mut S,
    work: &mut Workspace,
    alloc: Global,
    meta: &MetaRow,
) -> Result<(), StoreError>
    requires fit { IsClean (S.Store.view store.old) → IsFit (S.Store.view store.old) }
    ensures put { OnOk result (IsClean (S.Store.view store.new)
        → Makes (S.Store.view store.old) (S.Store.view store.new) (with_meta meta.now (tables_in (S.Store.view store.old).trees))) }
    ensures step { IsStoreStep S.Store store.old store.new }
{
    let mut last = Row::new(alloc);
    let id = place_of_meta(store, &mut last)?;
    let row = make_meta(alloc, meta, id)?;
    write::put(store, work, indexes(), 0, &row)
}
