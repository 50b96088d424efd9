// A board by itself: bookings of rooms, executed and undone, with no replica around them. For a program that keeps writes, and their order,
// in another way.

ghost use Rattle.std.specs.Prelude.{◌≡◌, IfOk, OnOk, OnErr};
ghost use Rattle.mr_model.specs.Writes.{id_of};
ghost use Rattle.mr_replay.specs.Rows.{undo_row_of};
ghost use Rattle.mr_replay.specs.Holds.{HaveDistinctIds, IsNew, Holds};

use mr_base::{Alternatives, Day, Refusal, Request, ServerId, Slot, Stamp, Write, WriteId};
use mr_replay::{Board, UndoRow, board_law};
use std::alloc::Global;

/// A new board on which these writes are executed in this order. It holds their replay: each room has what executing its own writes from
/// an empty calendar gives. The clause `holds` of `redo_from` leads from a board that holds a list to one that holds a longer list, in
/// which no id stands twice; a new board holds the empty list.
pub(crate) fn board_of(alloc: Global, writes: &[Write]) -> Result<Board, Refusal>
    ensures { HaveDistinctIds writes.now → IfOk result (λ board. Holds writes.now board) }
{
    let mut board = Board::new(alloc);
    board.redo_from(writes)?;
    Ok(board)
}

/// Executes the write and undoes that; the answer has the place that it had. Between the two calls a caller may look at the board as it
/// would be. Afterwards it is as before, if the write's id is new to it: that is the law `exact` of boards. A law is a function without
/// code: a call of it hands its clauses to the proof of its caller.
pub(crate) fn tried(board: &mut Board, write: &Write) -> Result<UndoRow, Refusal>
    ensures row { IfOk result (λ row. row ≡ undo_row_of board.old write.now) }
    ensures same { IsNew board.old (id_of write.now) → OnOk result (board.new ≡ board.old) }
    ensures refused { OnErr result (board.new ≡ board.old) }
{
    board_law();
    let row = board.execute(write)?;
    board.undo(row);
    Ok(row)
}

/// What comes of a request for 13:30, if 14:00 is taken: it would be logged as an error, since it has no alternatives.
pub(crate) fn board_told(alloc: Global) -> Result<Vec<u8>, Refusal> {
    let mut board = board_of_one(alloc)?;
    let write = request(alloc, 2, 810)?;
    try_told(alloc, &mut board, &write)
}

/// The board with a request for 14:00.
fn board_of_one(alloc: Global) -> Result<Board, Refusal> {
    let write = request(alloc, 1, 840)?;
    let writes = vec![in alloc; write]?;
    board_of(alloc, writes.as_slice())
}

/// Where the write would go, whether its room is free on Monday at 13:30, and how many rows the board has then.
fn try_told(alloc: Global, board: &mut Board, write: &Write) -> Result<Vec<u8>, Refusal> {
    let row = tried(board, write)?;
    let is_free = board.check(&write.room, monday_at(810)?, 60);
    let (id, place, rows) = (row.id, row.place, board.len());
    let told = format!(in alloc; "{id} {place:?}\nfree: {is_free}\nrows: {rows}\n")?;
    Ok(told.into_bytes())
}

/// The first write of this server: a request for an hour of oak on Monday, from this minute of the day on.
fn request(alloc: Global, server: u32, start: u32) -> Result<Write, Refusal> {
    let (stamp, wish) = (first_stamp(server)?, monday_at(start)?);
    let alternatives = Alternatives::from_vec(Vec::new(alloc));
    let request = Request::of_words(alloc, "oak", "Review", 60, wish, alternatives)?;
    Ok(Write::of_request(stamp, request))
}

/// The stamp of a server's first write.
fn first_stamp(server: u32) -> Result<Stamp, Refusal> {
    let server = ServerId::new(server).ok_or(Refusal::NotAReplica)?;
    let id = WriteId::new(server, 1).ok_or(Refusal::CountExhausted)?;
    Stamp::new(id, 1).ok_or(Refusal::ClockExhausted)
}

fn monday_at(start: u32) -> Result<Slot, Refusal> {
    Slot::new(Day::read("1995-12-18")?, start)
}
