ghost use Rattle.std.specs.Prelude.{◌≡◌, ◌<◌, true, false, length, IfSome, OnOk, IfOk, [], ◌∷◌, drop, List};
ghost use Rattle.mr_model.specs.Dropped.{Has};
ghost use Rattle.mr_model.specs.Queries.{log_id};
ghost use Rattle.mr_model.specs.Tables.{LogRow as RowOfLog};
ghost use Rattle.mr_model.specs.Writes.{id_of};
ghost use Rattle.mr_part.specs.KeptRows.{run_place};
ghost use Rattle.mr_part.specs.declared.kept_rows.KeptRow.{KeptRow as KeptRowOfWrite};
ghost use Rattle.mr_part.specs.Sets.{has_id};
ghost use Rattle.mr_tables.specs.Change.{id_before, put, put_all, rows_without};
ghost use Rattle.mr_tables.specs.TableOrders.{InOrder};
ghost use Rattle.mr_replica.specs.SharedLog.{run_before, AreKeptInRunOrder, AreTold, IsSharedLog, IsTold};

use crate::indexed::Indexed;
use mr_base::{Refusal, WriteId};
use mr_part::kept_rows::{KeptRow, RunPlace, kept_row, sort_rows};
use mr_tables::{Change, LogRow};
use std::alloc::Global;
use std::collections::BTreeSet;
use std::rc::Rc;

/// All kept writes of these rows in the order of execution, if none of them is out of the limits, no two have one place, and memory takes
/// them.
pub(crate) fn shared_log(alloc: Global, table: &Indexed<LogRow>) -> Option<Rc<Vec<KeptRow>>>
    ensures { IfSome result (λ log. IsSharedLog table.now.rows log.value.items) }
{
    match all_in_order(alloc, table) {
        Ok(rows) => shared(alloc, rows),
        Err(_) => None,
    }
}

/// The log of the rows before the change, as it is after it. There is none any more if the change takes rows away or moves one past another,
/// if a row is out of the limits, without memory, and if somebody else still has the log.
pub(crate) fn log_after(
    alloc: Global,
    log: Option<Rc<Vec<KeptRow>>>,
    table: &Indexed<LogRow>,
    change: &Change,
) -> Option<Rc<Vec<KeptRow>>>
    ensures { IfSome log (λ log. IsSharedLog table.now.rows log.value.items)
        → IfSome result (λ log. IsSharedLog (put_all id_before log_id change.now.log (rows_without log_id change.now.dropped table.now.rows)) log.value.items) }
{
    let Some(log) = log else {
        return None;
    };
    if !drops_none(change) {
        return None;
    }
    match Rc::try_unwrap(log) {
        Ok(rows) => shared_with(alloc, rows, table, &change.log),
        Err(_) => None,
    }
}

/// Whether the change takes no row out of the log.
fn drops_none(change: &Change) -> bool
    ensures { result ≡ true → change.now.dropped ≡ [] }
{
    change.dropped.is_empty()
}

/// These rows, which are those of the table, with what others tell.
fn shared_with(
    alloc: Global,
    rows: Vec<KeptRow>,
    table: &Indexed<LogRow>,
    news: &[LogRow],
) -> Option<Rc<Vec<KeptRow>>>
    ensures { IsSharedLog table.now.rows rows.items → IfSome result (λ log. IsSharedLog (put_all id_before log_id news.now table.now.rows) log.value.items) }
{
    let mut rows = rows;
    match put_each(alloc, &mut rows, table, news) {
        Ok(()) => shared(alloc, rows),
        Err(_) => None,
    }
}

/// These rows, if memory takes them.
fn shared(alloc: Global, rows: Vec<KeptRow>) -> Option<Rc<Vec<KeptRow>>>
    ensures { IfSome result (λ log. log.value.items ≡ rows.items) }
{
    Rc::new(alloc, rows).ok()
}

/// What all rows of the table tell, in the order of execution.
fn all_in_order(alloc: Global, table: &Indexed<LogRow>) -> Result<Vec<KeptRow>, Refusal>
    ensures { IfOk result (λ rows. IsSharedLog table.now.rows rows.items) }
{
    let logs = table.copies()?;
    let mut rows = told_rows(alloc, &logs)?;
    sort_rows(&mut rows);
    if !are_in_run_order(&rows) {
        return Err(Refusal::Store);
    }
    Ok(rows)
}

/// What each of these rows tells, in their order.
fn told_rows(alloc: Global, logs: &[LogRow]) -> Result<Vec<KeptRow>, Refusal>
    ensures { IfOk result (λ rows. AreTold logs.now rows.items) }
{
    let mut rows = Vec::new(alloc);
    for log in logs {
        let row = kept_row(alloc, log)?;
        rows.push(row)?;
    }
    Ok(rows)
}

/// Whether each row stands before the next one in the order of execution.
fn are_in_run_order(rows: &[KeptRow]) -> bool
    ensures { result ≡ true → AreKeptInRunOrder rows.now }
{
    rows.is_sorted_by(|row, next| runs_before(row, next))
}

fn runs_before(row: &KeptRow, other: &KeptRow) -> bool
    ensures { result ≡ run_before (run_place row.now) (run_place other.now) }
{
    place_of(row).cmp(&place_of(other)).is_lt()
}

/// Its place in the order of execution.
fn place_of(row: &KeptRow) -> RunPlace
    ensures { result ≡ run_place row.now }
{
    let stamp = row.write.stamp;
    RunPlace {
        is_tentative: row.seq == 0,
        seq: row.seq,
        time: stamp.time,
        server: stamp.server,
    }
}

/// Whether the row stands behind all of these.
fn is_behind(rows: &[KeptRow], row: &KeptRow) -> bool
    ensures { AreKeptInRunOrder rows.now → result ≡ true → (x : KeptRowOfWrite) → Has x rows.now → run_before (run_place x) (run_place row.now) ≡ true }
{
    match rows.last() {
        Some(last) => runs_before(last, row),
        None => true,
    }
}

/// Whether the row stands before all of these.
fn is_in_front(rows: &[KeptRow], row: &KeptRow) -> bool
    ensures { AreKeptInRunOrder rows.now → result ≡ true → (x : KeptRowOfWrite) → Has x rows.now → run_before (run_place row.now) (run_place x) ≡ true }
{
    match rows.first() {
        Some(first) => runs_before(row, first),
        None => true,
    }
}

/// Puts what these rows tell among those of the table. Refused if one of them would pass another.
fn put_each(
    alloc: Global,
    rows: &mut Vec<KeptRow>,
    table: &Indexed<LogRow>,
    news: &[LogRow],
) -> Result<(), Refusal>
    ensures { IsSharedLog table.now.rows rows.old.items → OnOk result (IsSharedLog (put_all id_before log_id news.now table.now.rows) rows.new.items) }
{
    let mut put = BTreeSet::new(alloc);
    for log in news {
        let id = log.id();
        let is_new = is_new(table, &put, id);
        let row = kept_row(alloc, log)?;
        put_one(rows, row, is_new)?;
        put.insert(id)?;
    }
    Ok(())
}

/// Whether no row of the table has this id, and it is none of these.
fn is_new(table: &Indexed<LogRow>, ids: &BTreeSet<WriteId>, id: WriteId) -> bool
    ensures absent { result ≡ true → (row : RowOfLog) → Has row table.now.rows → log_id row ≡ id → ⊥ }
    ensures unput { result ≡ true → has_id ids.now id ≡ false }
    ensures order { InOrder id_before log_id table.now.rows }
{
    table.get(id).is_none() && !ids.contains(&id)
}

/// Puts a row, in the place of the one that its write had before. Refused if it would pass another.
fn put_one(rows: &mut Vec<KeptRow>, row: KeptRow, is_new: bool) -> Result<(), Refusal>
    ensures { (log : List RowOfLog) (told : RowOfLog) → InOrder id_before log_id log → IsSharedLog log rows.old.items → IsTold told row
        → (is_new ≡ true → (one : RowOfLog) → Has one log → log_id one ≡ log_id told → ⊥)
        → OnOk result (IsSharedLog (put id_before log_id told log) rows.new.items) }
{
    let at = rows.partition_point(|other| runs_before(other, &row));
    let (before, behind) = rows.split_at(at);
    if is_first(behind, row.id()) {
        return put_in_place(rows, at, row);
    }
    if !is_new || !is_behind(before, &row) || !is_in_front(behind, &row) {
        return Err(Refusal::Store);
    }
    rows.insert(at, row)?;
    Ok(())
}

/// Whether the first of these rows is that of the write with this id.
fn is_first(rows: &[KeptRow], id: WriteId) -> bool
    ensures { result ≡ true → (x : KeptRowOfWrite) × (rest : List KeptRowOfWrite) × (rows.now ≡ x ∷ rest) × (id_of x.write ≡ id) }
{
    match rows.first() {
        Some(row) => row.id() == id,
        None => false,
    }
}

/// Puts a row in the place of the one there, which is of the same write. Refused if it would pass another.
fn put_in_place(rows: &mut Vec<KeptRow>, at: usize, row: KeptRow) -> Result<(), Refusal>
    requires { at < length rows.old.items }
    ensures { (log : List RowOfLog) (told : RowOfLog) (old : KeptRowOfWrite) (rest : List KeptRowOfWrite) → InOrder id_before log_id log → IsSharedLog log rows.old.items → IsTold told row
        → drop at rows.old.items ≡ old ∷ rest → id_of old.write ≡ log_id told → OnOk result (IsSharedLog (put id_before log_id told log) rows.new.items) }
{
    let (before, _) = rows.split_at(at);
    let (_, behind) = rows.split_at(at + 1);
    if !is_behind(before, &row) || !is_in_front(behind, &row) {
        return Err(Refusal::Store);
    }
    rows[at] = row;
    Ok(())
}
