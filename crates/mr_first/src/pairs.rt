ghost use Rattle.std.specs.Prelude.{◌≡◌, ◌≢◌, [], ◌∷◌, ◌++◌, IfOk, IfErr, OnOk, IsTrue, false};
ghost use Rattle.sqlite_trees.specs.Tree.{Trees};
ghost use Rattle.mr_model.specs.First.{moved_row, moved_log};
ghost use Rattle.mr_first.specs.Forms.{write_id, undo_id};
ghost use Rattle.mr_first.specs.FirstDatabase.{first_in};
ghost use Rattle.mr_first.specs.MovedUp.{ArePaired, LogsOfReplicasArePaired};

use crate::rows::{FirstUndoRow, WriteRow};
use mr_base::Refusal;
use mr_tables::{ActionCells, LogRow};
use sqlite::{Error, ErrorCode};
use std::alloc::Global;

/// Whether both rows are those of one write.
fn are_of_one(row: &WriteRow, undo: &FirstUndoRow) -> bool
    ensures same { IsTrue result → write_id row.now ≡ undo_id undo.now }
    ensures other { result ≡ false → write_id row.now ≢ undo_id undo.now }
{
    row.id() == undo.id()
}

/// The row of the one log that takes the place of both.
fn joined(alloc: Global, row: &WriteRow, undo: &FirstUndoRow) -> Result<LogRow, Refusal>
    ensures joined { IfOk result (λ joined. joined ≡ moved_row row.now undo.now) }
    ensures memory { IfErr result (λ e. e ≡ Refusal.OutOfMemory) }
{
    let room = row.room.copy(alloc)?;
    let meeting = row.meeting.copy(alloc)?;
    Ok(LogRow {
        server: row.server,
        n: row.n,
        time: row.time,
        room,
        action: ActionCells::OfMeeting(meeting),
        place: undo.place,
        seq: row.seq,
    })
}

/// Puts the row that takes the place of both behind those that are there. Rows of two writes are refused.
fn push_pair(
    alloc: Global,
    row: &WriteRow,
    undo: &FirstUndoRow,
    out: &mut Vec<LogRow>,
) -> Result<(), Error>
    ensures paired { OnOk result (write_id row.now ≡ undo_id undo.now) }
    ensures pushed { OnOk result (out.new.items ≡ out.old.items ++ moved_row row.now undo.now ∷ []) }
    ensures refused { IfErr result (λ e. e ≢ Error.SqliteFailure ErrorCode.OutOfMemory → write_id row.now ≢ undo_id undo.now) }
{
    if !are_of_one(row, undo) {
        return Err(Error::InvalidQuery);
    }
    match joined(alloc, row, undo) {
        Ok(joined) => Ok(out.push(joined)?),
        Err(_) => Err(Error::SqliteFailure(ErrorCode::OutOfMemory)),
    }
}

/// The rows of the log, of those of `write_log` and `undo`, which both stand in the order of their ids. A row of either that has no
/// partner in the other is refused, and nothing else but for memory.
pub fn moved_rows(
    alloc: Global,
    writes: &[WriteRow],
    undo: &[FirstUndoRow],
) -> Result<Vec<LogRow>, Error>
    ensures paired { OnOk result (ArePaired writes.now undo.now) }
    ensures moved { IfOk result (λ rows. (trees : Trees) → undo.now ≡ (first_in trees).undo → rows.items ≡ moved_log writes.now undo.now) }
    ensures refused { IfErr result (λ e. e ≢ Error.SqliteFailure ErrorCode.OutOfMemory → ArePaired writes.now undo.now → ⊥) }
{
    if writes.len() != undo.len() {
        return Err(Error::InvalidQuery);
    }
    let mut out = Vec::new(alloc);
    'at: for at in 0..writes.len() {
        push_pair(alloc, &writes[at], &undo[at], &mut out)?;
    }
    Ok(out)
}

/// The logs of tables that stand for a replica are never refused as unpaired.
pub fn pairing_law()
    ensures paired { LogsOfReplicasArePaired }
{}
