ghost use Rattle.std.specs.Prelude.{◌≡◌, ◌≤◌, List, length, map, filter, take, OnOk, IfOk, IfErr};
ghost use Rattle.mr_model.specs.Scopes.{is_tentative, row_before, put_row, by_stamp};
ghost use Rattle.mr_model.specs.Queries.{log_id};
ghost use Rattle.mr_part.specs.declared.kept_rows.KeptRow.{KeptRow as KeptRowOfWrite};
ghost use Rattle.mr_part.specs.RowTests.{log_row_of, AreWritesWithin, stamp_place, IsIdSetOf};

use crate::kept_rows::{KeptRow, kept_row};
use crate::touched::IdSet;
use mr_base::Refusal;
use mr_tables::LogRow;
use std::alloc::Global;
use std::collections::BTreeSet;

/// The writes of these rows.
pub(crate) fn writes_of(alloc: Global, rows: &[&LogRow]) -> Result<Vec<KeptRow>, Refusal>
    ensures writes { (xs : List KeptRowOfWrite) → AreWritesWithin xs → map (λ row. row.now) rows.now ≡ map log_row_of xs
        → IfOk result (λ writes. writes.items ≡ xs) }
    ensures only { (xs : List KeptRowOfWrite) → AreWritesWithin xs → map (λ row. row.now) rows.now ≡ map log_row_of xs
        → IfErr result (λ e. e ≡ Refusal.OutOfMemory) }
{
    let mut writes = Vec::new(alloc);
    for row in rows {
        writes.push(kept_row(alloc, row)?)?;
    }
    Ok(writes)
}

/// The ids of these rows as a set.
pub(crate) fn ids_of(alloc: Global, rows: &[&LogRow]) -> Result<IdSet, Refusal>
    ensures ids { IfOk result (λ ids. IsIdSetOf ids (map log_id (map (λ row. row.now) rows.now))) }
    ensures only { IfErr result (λ e. e ≡ Refusal.OutOfMemory) }
{
    let mut ids = BTreeSet::new(alloc);
    for row in rows {
        ids.insert(row.id())?;
    }
    Ok(ids)
}

/// The first `count` rows without a commit number, in the order of stamps. Of two with one stamp the later one of the list comes first.
/// It goes from the last row to the first: rows of one server rise in the list, so each is put near the front.
pub fn first_rows<'a>(
    alloc: Global,
    rows: &'a [LogRow],
    count: usize,
) -> Result<Vec<&'a LogRow>, Refusal>
    ensures rows { IfOk result (λ first. map (λ row. row.now) first.items ≡ take count (by_stamp (filter is_tentative rows.now))) }
    ensures only { IfErr result (λ e. e ≡ Refusal.OutOfMemory) }
{
    let mut first = Vec::new(alloc);
    for k in 0..rows.len() {
        let row = &rows[rows.len() - 1 - k];
        if is_tentative(row) {
            put_row(&mut first, row)?;
            first.truncate(count);
        }
    }
    Ok(first)
}

/// Puts a row at its place in the order of stamps.
fn put_row<'a>(rows: &mut Vec<&'a LogRow>, row: &'a LogRow) -> Result<(), Refusal>
    ensures rows { OnOk result (map (λ row. row.now) rows.new.items ≡ put_row row.now (map (λ row. row.now) rows.old.items)) }
    ensures only { IfErr result (λ e. e ≡ Refusal.OutOfMemory) }
{
    let place = place_in(rows, row);
    rows.insert(place, row)?;
    Ok(())
}

/// How many of the rows the row does not stand before, up to the first that it does.
fn place_in(rows: &[&LogRow], row: &LogRow) -> usize
    ensures place { result ≡ stamp_place row.now (map (λ row. row.now) rows.now) }
    ensures inside { result ≤ length rows.now }
{
    for (k, other) in rows.iter().enumerate() {
        if is_before(row, other) {
            return k;
        }
    }
    rows.len()
}

fn is_before(row: &LogRow, other: &LogRow) -> bool
    ensures { result ≡ row_before row.now other.now }
{
    row.time < other.time || (row.time == other.time && row.server < other.server)
}

fn is_tentative(row: &LogRow) -> bool
    ensures { result ≡ is_tentative row.now }
{
    row.seq == 0
}
