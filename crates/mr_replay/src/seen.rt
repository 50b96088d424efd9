ghost use Rattle.std.specs.Prelude.{◌≡◌, length};
ghost use Rattle.std.specs.List.Sorted.{IsStrictlySortedBy};
ghost use Rattle.std.specs.Map.{keys_of};
ghost use Rattle.std.specs.Option.{option_copied};
ghost use Rattle.mr_model.specs.Replay.{is_free};
ghost use Rattle.mr_base.specs.Ids.{id_cmp};
ghost use Rattle.mr_replay.specs.Places.{place_seen};
ghost use Rattle.mr_replay.specs.Rows.{row_at, bookings_of, place_by_rows};
ghost use Rattle.mr_replay.specs.Hidden.{shown};
ghost use Rattle.mr_replay.specs.Seen.{is_in_rooms, seen_in};

use crate::rows::Hidden;
use crate::{Board, Place, Row};
use mr_base::{RoomName, Slot, Write, WriteId};
use std::alloc::Global;
use std::collections::{BTreeMap, BTreeSet};
use std::marker::Model;
use std::rc::Rc;

/// A board that is only read: one of its own, all of which is seen, or one that is shared, of which the bookings of some rooms are
/// seen, those that stand and those that a cancel took back. Sharing copies no row.
#[derive(Drop)]
pub struct SeenBoard {
    seen: Seen,
}

/// What is seen of which board.
#[derive(Drop)]
enum Seen {
    All(Board),
    InRooms(Rc<Board>, BTreeSet<RoomName>),
}

impl Model for SeenBoard {
    ghost use Rattle.std.specs.Prelude.{List};
    ghost use Rattle.mr_model.specs.Writes.{Id};
    ghost use Rattle.mr_replay.specs.declared.rows.Row.{Row};

    ghost Value = { List (Id × Row) };

    ghost use Rattle.mr_replay.specs.Seen.{seen_rows};

    ghost view = { λ s. seen_rows s.seen };
}

impl SeenBoard {
    /// All of this board.
    pub fn all(board: Board) -> SeenBoard
        ensures { result ≡ board }
    {
        SeenBoard {
            seen: Seen::All(board),
        }
    }

    /// The bookings of these rooms, whatever else the board has.
    pub fn in_rooms(board: Rc<Board>, rooms: BTreeSet<RoomName>) -> SeenBoard
        ensures { result ≡ seen_in rooms board.value }
    {
        SeenBoard {
            seen: Seen::InRooms(board, rooms),
        }
    }

    /// The row of the write with this id, if it is seen.
    pub fn row(&self, id: WriteId) -> Option<&Row>
        ensures { option_copied result ≡ row_at self.now id }
    {
        match &self.seen {
            Seen::All(board) => board.row(id),
            Seen::InRooms(board, rooms) => row_in_rooms(board.as_ref(), rooms, id),
        }
    }

    /// Where the write would go by the bookings that are seen. A booking: to its first choice that is free in its room, else into the
    /// error log. A cancel is done if its target is a booking of its room that stands, else void.
    pub fn merge(&self, write: &Write) -> Place
        ensures { place_seen result ≡ place_by_rows self.now write.now }
    {
        match &self.seen {
            Seen::All(board) => board.merge(write),
            Seen::InRooms(board, rooms) => merge_in_rooms(board.as_ref(), rooms, write),
        }
    }

    /// Whether no booking of the room that is seen and stands overlaps the slot, those of the hidden ids aside.
    pub(crate) fn check_but(
        &self,
        hidden: &Hidden,
        room: &RoomName,
        slot: Slot,
        length: u32,
    ) -> bool
        ensures { result ≡ is_free (bookings_of room.now (shown hidden.now self.now)) length slot }
    {
        match &self.seen {
            Seen::All(board) => board.check_but(hidden, room, slot, length),
            Seen::InRooms(board, rooms) => {
                check_in_rooms(board.as_ref(), rooms, hidden, room, slot, length)
            }
        }
    }

    /// The allocator of the board.
    pub(crate) fn alloc(&self) -> Global {
        match &self.seen {
            Seen::All(board) => board.alloc,
            Seen::InRooms(board, _) => board.as_ref().alloc,
        }
    }

    /// How many rows are seen. If the board is shared, each of its rows is looked at.
    pub fn len(&self) -> usize
        ensures { result ≡ length self.now }
    {
        match &self.seen {
            Seen::All(board) => board.len(),
            Seen::InRooms(board, rooms) => count_in_rooms(board.as_ref(), rooms),
        }
    }

    /// For the prover alone: the rows stand in the order of their ids.
    pub(crate) fn is_in_order(&self)
        ensures { IsStrictlySortedBy id_cmp (keys_of self.now) }
    {
        match &self.seen {
            Seen::All(board) => board.is_in_order(),
            Seen::InRooms(board, _) => board.as_ref().is_in_order(),
        }
    }
}

/// Whether the row is a booking of one of these rooms that took its slot.
fn is_in_rooms(rooms: &BTreeSet<RoomName>, row: &Row) -> bool
    ensures { result ≡ is_in_rooms rooms.now row.now }
{
    row.trace.is_taken() && rooms.contains(&row.room)
}

/// The row of this id, if it is a booking of one of these rooms.
fn row_in_rooms<'b>(board: &'b Board, rooms: &BTreeSet<RoomName>, id: WriteId) -> Option<&'b Row>
    ensures { option_copied result ≡ row_at (seen_in rooms.now board.now) id }
{
    board.is_in_order();
    match board.row(id) {
        Some(row) => {
            if is_in_rooms(rooms, row) {
                Some(row)
            } else {
                None
            }
        }
        None => None,
    }
}

/// Where the write goes by the bookings of these rooms.
fn merge_in_rooms(board: &Board, rooms: &BTreeSet<RoomName>, write: &Write) -> Place
    ensures { place_seen result ≡ place_by_rows (seen_in rooms.now board.now) write.now }
{
    if rooms.contains(&write.room) {
        return board.merge(write);
    }
    Board::new(board.alloc).merge(write)
}

/// Whether no booking of the room that stands overlaps the slot, if the room is one of these: of another none is seen.
fn check_in_rooms(
    board: &Board,
    rooms: &BTreeSet<RoomName>,
    hidden: &Hidden,
    room: &RoomName,
    slot: Slot,
    length: u32,
) -> bool
    ensures { result ≡ is_free (bookings_of room.now (shown hidden.now (seen_in rooms.now board.now))) length slot }
{
    !rooms.contains(room) || board.check_but(hidden, room, slot, length)
}

/// How many bookings the board has of these rooms.
fn count_in_rooms(board: &Board, rooms: &BTreeSet<RoomName>) -> usize
    ensures { result ≡ length (seen_in rooms.now board.now) }
{
    let mut count = 0;
    for row in board.rows.values() {
        if is_in_rooms(rooms, row) {
            count += 1;
        }
    }
    count
}
