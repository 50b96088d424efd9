ghost use Rattle.std.specs.Prelude.{◌≡◌, ◌++◌, Some, [], map, option_map, OnOk, IfOk, IfErr};
ghost use Rattle.std.specs.List.{cons_option};
ghost use Rattle.std.specs.Option.{option_copied};
ghost use Rattle.mr_model.specs.Dropped.{Has};
ghost use Rattle.mr_model.specs.Writes.{Write as WriteOfRoom};
ghost use Rattle.mr_replay.specs.Bookings.{if_taken};
ghost use Rattle.mr_replay.specs.Holds.{if_of};
ghost use Rattle.mr_replay.specs.Rows.{Rows};
ghost use Rattle.mr_tables.specs.Cells.{place_row_of};
ghost use Rattle.mr_part.specs.Placing.{RowEnds};
ghost use Rattle.mr_part.specs.Targets.{aimed_at, taken_by, same_by, row_if_moved, target_if_moved, moved_targets};

use crate::calls::placing::{canceller_on, place_row_on};
use mr_base::{Action, Refusal, RoomName, Write, WriteId};
use mr_replay::{Overlay, Row, SeenBoard};
use mr_tables::PlaceRow;
use mr_tables::summary::Summary;
use std::alloc::Global;

/// For each of these writes, the cancel that took back what the write cancels, as the board tells it.
pub fn takers(
    alloc: Global,
    board: &SeenBoard,
    writes: &[Write],
) -> Result<Vec<Option<WriteId>>, Refusal>
    ensures takers { IfOk result (λ takers. takers.items ≡ map (taken_by board.now) writes.now) }
    ensures only { IfErr result (λ e. e ≡ Refusal.OutOfMemory) }
{
    let mut takers = Vec::new(alloc);
    for write in writes {
        takers.push(taker(board, write))?;
    }
    Ok(takers)
}

/// The cancel that took back what the write cancels.
fn taker(board: &SeenBoard, write: &Write) -> Option<WriteId>
    ensures { result ≡ taken_by board.now write.now }
{
    let Action::Cancels(target) = &write.action else {
        return None;
    };
    match if_of(board.row(*target), &write.room) {
        Some(row) => canceller_on(&row.trace),
        None => None,
    }
}

/// The row, if it is of this room.
fn if_of<'a>(row: Option<&'a Row>, room: &RoomName) -> Option<&'a Row>
    ensures { option_copied result ≡ if_of room.now (option_copied row.entry) }
{
    match row {
        Some(row) => { if row.room == *room { Some(row) } else { None } }
        None => None,
    }
}

/// The rows of the bookings that these writes cancel, as the board tells them, if what takes them back isn't what it was: another cancel,
/// or one and before none, or none any more.
pub fn moved_targets(
    alloc: Global,
    summary: &Summary,
    board: &Overlay,
    writes: &[Write],
    was: &[Option<WriteId>],
) -> Result<Vec<PlaceRow>, Refusal>
    ensures rows { (old : Rows) → ((w : WriteOfRoom) → Has w writes.now → RowEnds (if_taken (aimed_at board.now w.room w.action))) → was.now ≡ map (taken_by old) writes.now
        → IfOk result (λ rows. map place_row_of rows.items ≡ moved_targets summary.now.tallies old board.now writes.now) }
    ensures only { IfErr result (λ e. e ≡ Refusal.OutOfMemory) }
{
    let mut rows = Vec::new(alloc);
    let count = writes.len().min(was.len());
    for k in 0..count {
        push_if_moved(&mut rows, alloc, summary, board, &writes[k], was[k])?;
    }
    Ok(rows)
}

/// Adds the row of the booking that the write cancels, if what takes it back has changed.
fn push_if_moved(
    rows: &mut Vec<PlaceRow>,
    alloc: Global,
    summary: &Summary,
    board: &Overlay,
    write: &Write,
    was: Option<WriteId>,
) -> Result<(), Refusal>
    ensures rows { RowEnds (if_taken (aimed_at board.now write.now.room write.now.action))
        → OnOk result (map place_row_of rows.new.items ≡ map place_row_of rows.old.items ++ target_if_moved summary.now.tallies was board.now write.now.room write.now.action) }
    ensures only { IfErr result (λ e. e ≡ Refusal.OutOfMemory) }
{
    let Action::Cancels(target) = &write.action else {
        return Ok(());
    };
    let Some(row) = if_of(board.row(*target), &write.room) else {
        return Ok(());
    };
    if let Some(place) = row_if_moved(alloc, summary, *target, row, was)? {
        rows.push(place)?;
    }
    Ok(())
}

/// The row of a booking, if what takes it back has changed.
fn row_if_moved(
    alloc: Global,
    summary: &Summary,
    target: WriteId,
    row: &Row,
    was: Option<WriteId>,
) -> Result<Option<PlaceRow>, Refusal>
    ensures row { IfOk result (λ place. RowEnds (if_taken (Some row.now)) → cons_option (option_map place_row_of place) [] ≡ row_if_moved summary.now.tallies was target (Some row.now)) }
    ensures only { IfErr result (λ e. e ≡ Refusal.OutOfMemory) }
{
    if !row.trace.is_taken() || is_same(was, canceller_on(&row.trace)) {
        return Ok(None);
    }
    place_row_on(alloc, summary, target, row)
}

fn is_same(cancel: Option<WriteId>, other: Option<WriteId>) -> bool
    ensures { result ≡ same_by cancel other }
{
    match (cancel, other) {
        (Some(id), Some(same)) => id == same,
        (None, None) => true,
        _ => false,
    }
}
