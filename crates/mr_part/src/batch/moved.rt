ghost use Rattle.std.specs.Prelude.{◌≡◌, List, length, IfOk, IfErr};
ghost use Rattle.mr_model.specs.Replica.{Replica};
ghost use Rattle.mr_model.specs.Exchange.{Item};
ghost use Rattle.mr_model.specs.Tables.{tables_of};
ghost use Rattle.mr_tables.specs.Change.{changed};
ghost use Rattle.mr_part.specs.PartMoves.{MovesPart};

use crate::batch::changed::changed_of;
use crate::batch::movable::Undoable;
use crate::batch::targets::{moved_targets, takers};
use crate::calls::placing::{put_places, rewritten};
use mr_base::{Refusal, RoomName};
use mr_replay::{Overlay, SeenBoard, UndoRow};
use mr_tables::Change;
use mr_tables::summary::Summary;
use std::alloc::Global;

/// What a batch changes in the tables. It leads from the old numbers to these, and brings these rooms. The board has the bookings that it
/// needs: over it, the executions in `undone` are undone and the writes that are executed anew are executed, new commits first. A
/// write that keeps its place and its number isn't put; a booking that they cancel is, if what takes it back has changed.
pub(crate) fn moved(
    alloc: Global,
    old: &Summary,
    board: SeenBoard,
    numbers: &Summary,
    rooms: Vec<RoomName>,
    undone: &[UndoRow],
    anew: Undoable,
) -> Result<Change, Refusal>
    requires { length anew.writes.items ≡ length anew.undo.items }
    ensures turns { (items : List Item) (a b : Replica) → MovesPart old.now board items a b numbers.now rooms.items undone.now anew.writes.items anew.undo.items
        → IfOk result (λ change. changed change (tables_of a) ≡ tables_of b) }
    ensures only { IfErr result (λ e. e ≡ Refusal.OutOfMemory) }
{
    let Undoable { writes, undo: was } = anew;
    let by = takers(alloc, &board, &writes)?;
    let mut board = Overlay::over(board);
    let undo = board.replay(undone, &writes)?;
    let targets = moved_targets(alloc, numbers, &board, &writes, &by)?;
    let news = numbers.commits.saturating_sub(old.commits);
    let changed = changed_of(alloc, old, news, writes, &was, &undo)?;
    let mut change = rewritten(
        alloc,
        old,
        numbers,
        rooms,
        &board,
        &changed.writes,
        &changed.undo,
    )?;
    put_places(&mut change, targets)?;
    Ok(change)
}
