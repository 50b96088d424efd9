ghost use Rattle.std.specs.Prelude.{◌≡◌, [], ◌∷◌, ◌+◌, ◌<◌, ◌^◌, length, map, IfOk, IfErr};
ghost use Rattle.mr_model.specs.Writes.{id_of};
ghost use Rattle.mr_model.specs.Tables.{Tables};
ghost use Rattle.mr_tables.specs.Change.{changed};
ghost use Rattle.mr_tables.specs.Summary.{noted_commits};
ghost use Rattle.mr_tables.specs.Written.{meta_of, changed_tallies, forgotten, written};
ghost use Rattle.mr_part.specs.KeptRows.{row_writes};

use crate::kept_rows::{KeptRow, row_ids};
use mr_base::{Refusal, RoomName, Write, WriteId};
use mr_replay::UndoRow;
use mr_tables::Change;
use mr_tables::summary::Summary;
use mr_tables::vector::changed_tallies;
use mr_tables::written::{empty, written};
use std::alloc::Global;

/// Leaves the tables as they are that have these numbers.
pub fn no_change(alloc: Global, summary: &Summary) -> Change
    ensures { (t : Tables) → t.meta ≡ meta_of summary.now → changed result t ≡ t }
{
    empty(alloc, summary, Vec::new(alloc), Vec::new(alloc))
}

/// Puts a room more.
pub fn room_change(alloc: Global, summary: &Summary, room: &RoomName) -> Result<Change, Refusal>
    ensures change { IfOk result (λ change. change ≡ written (meta_of summary.now) (room.now ∷ []) [] summary.now.commits 1 [] [] []) }
    ensures only { IfErr result (λ e. e ≡ Refusal.OutOfMemory) }
{
    let mut rooms = Vec::new(alloc);
    rooms.push(room.copy(alloc)?)?;
    written(alloc, summary, rooms, Vec::new(alloc), 1, &[], &[], &[])
}

/// Takes these rows out of the log.
pub fn forgotten(alloc: Global, summary: &Summary, rows: &[KeptRow]) -> Result<Change, Refusal>
    ensures change { IfOk result (λ change. change ≡ forgotten (meta_of summary.now) (map id_of (row_writes rows.now))) }
    ensures only { IfErr result (λ e. e ≡ Refusal.OutOfMemory) }
{
    let dropped = row_ids(alloc, rows)?;
    let mut change = empty(alloc, summary, Vec::new(alloc), Vec::new(alloc));
    change.dropped = dropped;
    Ok(change)
}

/// The numbers after the commits of these writes, and what these change in the tables: each has its undo row and the cancel that
/// took it back.
pub fn after_commits(
    alloc: Global,
    summary: &Summary,
    writes: &[Write],
    rows: &[UndoRow],
    bys: &[Option<WriteId>],
) -> Result<(Summary, Change), Refusal>
    requires { (length writes.now ≡ length rows.now) × (length writes.now ≡ length bys.now) }
    ensures numbers { IfOk result (λ done. done.0 ≡ noted_commits summary.now (map id_of writes.now)) }
    ensures change { IfOk result (λ done. summary.now.commits + 1 + length writes.now < 2 ^ 64
        → done.1 ≡ written (meta_of done.0) [] (changed_tallies summary.now.tallies done.0.tallies) done.0.commits (summary.now.commits + 1) writes.now rows.now bys.now) }
    ensures only { IfErr result (λ e. e ≡ Refusal.OutOfMemory) }
{
    let mut numbers = *summary;
    numbers.note_commits(writes);
    let vector = changed_tallies(alloc, summary, &numbers)?;
    let first = summary.commits.saturating_add(1);
    let rooms = Vec::new(alloc);
    let change = written(alloc, &numbers, rooms, vector, first, writes, rows, bys)?;
    Ok((numbers, change))
}
