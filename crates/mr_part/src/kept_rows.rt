ghost use Rattle.std.specs.Prelude.{◌≡◌, ◌≢◌, ◌⊎◌, ℕ, true, Ok, IfOk, IfErr, IsTrue, map};
ghost use Rattle.std.specs.List.Sorted.{IsPermutation, IsSortedByKey};
ghost use Rattle.std.specs.Vec.{vec_len};
ghost use Rattle.mr_model.specs.Writes.{Write as WriteOfRoom, id_of, is_write};
ghost use Rattle.mr_model.specs.Replay.{Place as PlaceOfWrite};
ghost use Rattle.mr_model.specs.Replica.{Replica, IsReplica};
ghost use Rattle.mr_model.specs.Tables.{kept, log_row, log_row_with};
ghost use Rattle.mr_base.specs.Answers.{OrOutOfMemory};
ghost use Rattle.mr_replay.specs.Places.{place_seen};
ghost use Rattle.mr_base.specs.Actions.{action_of};
ghost use Rattle.mr_tables.specs.Cells.{action_cells};
ghost use Rattle.mr_part.specs.WithoutChoices.{without_choices, kept_without_choices, is_of_cells, is_of_row};
ghost use Rattle.mr_part.specs.KeptRows.{kept_row_with, kept_row as kept_row_of, row_writes, row_undos, run_place, run_cmp};

use mr_base::{Action, Refusal, ServerId, Write, WriteId};
use mr_replay::{Place, UndoRow};
use mr_tables::reading::write_of;
use mr_tables::{ActionCells, LogRow};
use std::alloc::Global;

/// A kept write as `log` tells it. `seq` is its commit number, 0 if it is tentative. One that a batch brings has no place until it is
/// executed, and is held as logged.
#[derive(Drop)]
pub struct KeptRow {
    pub write: Write,
    pub undo: UndoRow,
    pub seq: u64,
}

/// Where a kept write stands in the order of execution.
#[derive(Clone, Copy, PartialEq, Eq, PartialOrd, Ord)]
pub struct RunPlace {
    pub is_tentative: bool,
    pub seq: u64,
    pub time: u64,
    pub server: ServerId,
}

impl KeptRow {
    /// The id of its write.
    pub fn id(&self) -> WriteId
        ensures { result ≡ id_of self.now.write }
    {
        let write = &self.write;
        write.stamp.id()
    }

    /// An equal row.
    pub(crate) fn copy(&self, alloc: Global) -> Result<KeptRow, Refusal>
        ensures copy { IfOk result (λ copy. copy ≡ self.now) }
        ensures only { IfErr result (λ e. e ≡ Refusal.OutOfMemory) }
    {
        Ok(KeptRow {
            write: self.write.copy(alloc)?,
            undo: self.undo,
            seq: self.seq,
        })
    }

    /// Its place in the order of execution.
    pub(crate) fn place(&self) -> RunPlace
        ensures { result ≡ run_place self.now }
    {
        let stamp = self.write.stamp;
        RunPlace {
            is_tentative: self.seq == 0,
            seq: self.seq,
            time: stamp.time,
            server: stamp.server,
        }
    }
}

/// Puts the rows into the order of execution.
pub fn sort_rows(rows: &mut Vec<KeptRow>)
    ensures moved { IsPermutation rows.old.items rows.new.items }
    ensures len { vec_len rows.new ≡ vec_len rows.old }
    ensures sorted { IsSortedByKey run_place run_cmp rows.new.items }
{
    rows.sort_unstable_by_key(|row| row.place());
}

/// The kept writes of the rows of `log`, in the order of these. Refused if a row is that of no write.
pub fn kept_rows(alloc: Global, logs: &[LogRow]) -> Result<Vec<KeptRow>, Refusal>
    ensures rows { (a : Replica) → IsReplica a → logs.now ≡ map (log_row a) (kept a) → IfOk result (λ rows. rows.items ≡ map (kept_row_of a) (kept a)) }
    ensures only { (a : Replica) → IsReplica a → logs.now ≡ map (log_row a) (kept a) → IfErr result (λ e. e ≡ Refusal.OutOfMemory) }
    ensures told { IfOk result (λ rows. map kept_without_choices rows.items ≡ map without_choices logs.now) }
{
    let mut rows = Vec::new(alloc);
    for log in logs {
        match kept_row(alloc, log) {
            Ok(row) => rows.push(row)?,
            Err(refusal) => return Err(refusal),
        }
    }
    Ok(rows)
}

/// The kept write of a row of `log`. Refused if it is that of no write.
pub fn kept_row(alloc: Global, log: &LogRow) -> Result<KeptRow, Refusal>
    ensures read { (w : WriteOfRoom) (place : PlaceOfWrite) (seq : ℕ) → IsTrue (is_write w) → log.now ≡ log_row_with w place seq
        → OrOutOfMemory result (Ok (kept_row_with w seq place)) }
    ensures told { IfOk result (λ row. kept_without_choices row ≡ without_choices log.now) }
{
    match write_of(alloc, log) {
        Ok(write) => kept_of(write, log),
        Err(refusal) => Err(refusal),
    }
}

/// The kept write of a row of `log` that was read as this write. All columns but the choices are compared.
fn kept_of(write: Write, log: &LogRow) -> Result<KeptRow, Refusal>
    ensures kept { is_of_row write log.now ≡ true → result ≡ Ok (kept_row_with write log.now.seq log.now.place) }
    ensures told { IfOk result (λ row. kept_without_choices row ≡ without_choices log.now) }
{
    if !is_of_row(&write, log) {
        return Err(Refusal::Store);
    }
    Ok(kept_with(write, log.place, log.seq))
}

/// Whether the write is that of the row but for the choices.
fn is_of_row(write: &Write, log: &LogRow) -> bool
    ensures { result ≡ is_of_row write.now log.now }
{
    let stamp = write.stamp;
    stamp.id() == log.id()
        && stamp.time == log.time
        && write.room.as_str() == log.room.as_str()
        && is_of_cells(&write.action, &log.action)
}

/// Whether the action is that of the cells but for the choices.
fn is_of_cells(action: &Action, cells: &ActionCells) -> bool
    ensures { result ≡ is_of_cells (action_of action.now) (action_cells cells.now) }
{
    match (action, cells) {
        (Action::Books(meeting), ActionCells::OfMeeting(cells)) => {
            meeting.length == cells.length && meeting.title.as_str() == cells.title.as_str()
        }
        (Action::Cancels(target), ActionCells::OfCancel(other)) => *target == *other,
        _ => false,
    }
}

/// The row of a write that has this place.
pub(crate) fn kept_with(write: Write, place: Place, seq: u64) -> KeptRow
    ensures { result ≡ kept_row_with write seq (place_seen place) }
{
    let undo = UndoRow::of(&write, place);
    KeptRow { write, undo, seq }
}

/// Copies of the writes of rows.
pub fn copied_writes(alloc: Global, rows: &[KeptRow]) -> Result<Vec<Write>, Refusal>
    ensures writes { IfOk result (λ writes. writes.items ≡ row_writes rows.now) }
    ensures only { IfErr result (λ e. e ≡ Refusal.OutOfMemory) }
{
    let mut writes = Vec::new(alloc);
    for row in rows {
        writes.push(row.write.copy(alloc)?)?;
    }
    Ok(writes)
}

/// What undoes the writes of rows.
pub fn undo_rows(alloc: Global, rows: &[KeptRow]) -> Result<Vec<UndoRow>, Refusal>
    ensures rows { IfOk result (λ undo. undo.items ≡ row_undos rows.now) }
    ensures only { IfErr result (λ e. e ≡ Refusal.OutOfMemory) }
{
    let mut undo = Vec::new(alloc);
    for row in rows {
        undo.push(row.undo)?;
    }
    Ok(undo)
}

/// The ids of the writes of rows.
pub fn row_ids(alloc: Global, rows: &[KeptRow]) -> Result<Vec<WriteId>, Refusal>
    ensures ids { IfOk result (λ ids. ids.items ≡ map id_of (row_writes rows.now)) }
    ensures only { IfErr result (λ e. e ≡ Refusal.OutOfMemory) }
{
    let mut ids = Vec::new(alloc);
    for row in rows {
        ids.push(row.id())?;
    }
    Ok(ids)
}

/// What a refusal of a row's part is reported as: the store's, or out of memory.
pub fn of_store(refusal: Refusal) -> Refusal
    ensures memory { refusal ≡ Refusal.OutOfMemory → result ≡ Refusal.OutOfMemory }
    ensures store { refusal ≢ Refusal.OutOfMemory → result ≡ Refusal.Store }
    ensures cause { (result ≡ Refusal.OutOfMemory) ⊎ (result ≡ Refusal.Store) }
{
    match refusal {
        Refusal::OutOfMemory => Refusal::OutOfMemory,
        _ => Refusal::Store,
    }
}
