//! Whether the numbers of a replica, the rows of `meta` and `vector`, agree: they are tested before any question is answered.

ghost use Rattle.std.specs.Prelude.{◌≡◌, [], ◌∷◌, map, IfOk, OnOk, IsTrue};
ghost use Rattle.sqlite_trees.specs.View.{IsClean, IsQuiet};
ghost use Rattle.sqlite_exec.specs.Calls.{OnlyReads};
ghost use Rattle.mr_rows.specs.RowCells.{meta_in, meta_cells_of};
ghost use Rattle.mr_rows.specs.RowLimits.{is_meta_row};
ghost use Rattle.mr_rows.specs.Form.{meta_form};
ghost use Rattle.mr_rows.specs.Shown.{columns_from, IsStoredAs, AreStoredAs};
ghost use Rattle.mr_trees.specs.Heads.{do_heads_agree as do_heads_agree_in};

use crate::rows::Picked;
use crate::scans::scan;
use crate::troubles::{Trouble, of_cells};
use mr_base::GREATEST_TIME;
use mr_rows::cells::{has_number, read_commit, read_number, read_server};
use mr_tables::numbers::do_numbers_agree;
use mr_tables::{MetaRow, Tables, VectorRow};
use sqlite::Error;
use sqlite_exec::work::FromRow;
use sqlite_trees::store::{Direction, Store};
use sqlite_value::row::Row;
use std::alloc::Global;

/// The row of `meta`, with the rowid in front, under the second schema.
fn meta_behind_id(row: &sqlite::Row) -> Result<MetaRow, Error>
    ensures row { IfOk result (λ meta. meta ≡ meta_in row.now) }
    ensures cells { IfOk result (λ meta. meta_cells_of 2 meta ≡ columns_from 1 7 row.now) }
    ensures within { IfOk result (λ meta. IsTrue (is_meta_row meta)) }
{
    if !has_number(row, 1, 1, 1) || !has_number(row, 2, 2, 2) {
        return Err(Error::IntegralValueOutOfRange(1));
    }
    let server = read_server(row, 3)?;
    let primary = read_server(row, 4)?;
    let commits = read_commit(row, 5)?;
    let dropped = read_commit(row, 6)?;
    let clock = read_number(row, 7, 0, GREATEST_TIME)?;
    Ok(MetaRow {
        server,
        primary,
        commits,
        dropped,
        clock,
    })
}

fn read_meta(alloc: Global, row: &Row) -> Result<MetaRow, Trouble>
    ensures row { IfOk result (λ meta. meta ≡ meta_in row.now) }
    ensures stored { OnOk result (IsStoredAs meta_form row.now) }
{
    let copy = match <sqlite::Row as FromRow>::from_row(alloc, row) {
        Ok(copy) => copy,
        Err(_) => return Err(Trouble::OutOfMemory),
    };
    match meta_behind_id(&copy) {
        Ok(meta) => Ok(meta),
        Err(error) => Err(of_cells(error)),
    }
}

/// The row of `meta`, if there is one and no other.
fn only_meta<S: Store>(store: &mut S, alloc: Global) -> Result<MetaRow, Trouble>
    ensures ok { IfOk result (λ meta. IsClean (S.Store.view store.new) → map meta_in ((S.Store.view store.old).trees 0) ≡ meta ∷ []) }
    ensures stored { OnOk result (IsClean (S.Store.view store.new) → AreStoredAs meta_form (S.Store.view store.old).trees) }
    ensures same { OnOk result (IsClean (S.Store.view store.new) → OnlyReads (S.Store.view store.old) (S.Store.view store.new)) }
    ensures quiet { IsQuiet S.Store.view S.Store.faults S.Store.recovers S.Store.is_shielded store.old store.new }
{
    let mut row = Row::new(alloc);
    store.seek(0, 0, &row, Direction::Forward)?;
    if !store.next(0, &mut row)? {
        return Err(Trouble::Rows);
    }
    let meta = read_meta(alloc, &row)?;
    if store.next(0, &mut row)? {
        return Err(Trouble::Rows);
    }
    Ok(meta)
}

/// Tables with these rows of `meta` and `vector`, and no others.
fn bare_tables(alloc: Global, meta: MetaRow, vector: Vec<VectorRow>) -> Tables
    ensures meta { result.meta ≡ meta }
    ensures vector { result.vector ≡ vector.items }
{
    Tables {
        meta,
        room: Vec::new(alloc),
        vector,
        log: Vec::new(alloc),
        booking: Vec::new(alloc),
        errorlog: Vec::new(alloc),
        cancelled: Vec::new(alloc),
        cancels: Vec::new(alloc),
    }
}

/// Whether the rows of `meta` and `vector` agree with each other.
pub(crate) fn do_heads_agree<S: Store>(store: &mut S, alloc: Global) -> Result<bool, Trouble>
    ensures agree { IfOk result (λ b. IsClean (S.Store.view store.new)
        → b ≡ do_heads_agree_in (S.Store.view store.old).trees) }
    ensures stored { OnOk result (IsClean (S.Store.view store.new) → AreStoredAs meta_form (S.Store.view store.old).trees) }
    ensures same { OnOk result (IsClean (S.Store.view store.new) → OnlyReads (S.Store.view store.old) (S.Store.view store.new)) }
    ensures quiet { IsQuiet S.Store.view S.Store.faults S.Store.recovers S.Store.is_shielded store.old store.new }
{
    let meta = only_meta(store, alloc)?;
    let vector = scan(store, alloc, Picked::All)?;
    Ok(do_numbers_agree(&bare_tables(alloc, meta, vector)))
}
