ghost use Rattle.std.specs.Prelude.{◌≡◌};
ghost use Rattle.std.specs.List.Sorted.{IsStrictlySortedBy};
ghost use Rattle.std.specs.Map.{keys_of};
ghost use Rattle.std.specs.Option.{option_copied};
ghost use Rattle.mr_model.specs.Replay.{is_free, is_booked, first_free};
ghost use Rattle.mr_model.specs.Writes.{choices_of};
ghost use Rattle.mr_base.specs.Ids.{id_cmp};
ghost use Rattle.mr_replay.specs.Places.{place_seen};
ghost use Rattle.mr_replay.specs.Rows.{Rows as RowsSeen, row_at, bookings_of, place_by_rows};

use crate::{Place, Row};
use mr_base::{Action, Meeting, RoomName, Slot, Write, WriteId};

/// Rows among which a write finds its place: those of a board, or of what lies over one.
pub(crate) trait Bookings {
    ghost rows: { Self → RowsSeen };

    /// The row of the write with this id.
    fn row(&self, id: WriteId) -> Option<&Row>
        ensures { option_copied result ≡ row_at (rows self.now) id };

    /// Whether no booking of the room that stands overlaps the slot with this length in minutes.
    fn is_free(&self, room: &RoomName, slot: Slot, length: u32) -> bool
        ensures { result ≡ is_free (bookings_of room.now (rows self.now)) length slot };

    /// For the prover alone: the rows stand in the order of their ids.
    fn is_in_order(&self)
        ensures { IsStrictlySortedBy id_cmp (keys_of (rows self.now)) };
}

/// Whether a booking of the room with this id stands.
fn is_booked<B: Bookings>(board: &B, room: &RoomName, id: WriteId) -> bool
    ensures { result ≡ is_booked id (bookings_of room.now (B.rows board.now)) }
{
    board.is_in_order();
    match board.row(id) {
        Some(row) => row.is_booking_of(room),
        None => false,
    }
}

/// The first choice of the meeting that is free in the room; else the error log.
fn first_free<B: Bookings>(board: &B, room: &RoomName, meeting: &Meeting) -> Place
    ensures { place_seen result ≡ first_free (bookings_of room.now (B.rows board.now)) meeting.now.length 0 (choices_of meeting.now) }
{
    if board.is_free(room, meeting.wish, meeting.length) {
        return Place::Taken(0);
    }
    let mut k = 0;
    for slot in meeting.alternatives.as_slice() {
        k += 1;
        if board.is_free(room, *slot, meeting.length) {
            return Place::Taken(k);
        }
    }
    Place::Logged
}

/// Where the write goes. A booking: to its first choice that is free in its room, else into the error log. A cancel is done if its
/// target is a booking of its room that stands, else void.
pub(crate) fn place_among<B: Bookings>(board: &B, write: &Write) -> Place
    ensures { place_seen result ≡ place_by_rows (B.rows board.now) write.now }
{
    match &write.action {
        Action::Books(meeting) => first_free(board, &write.room, meeting),
        Action::Cancels(target) => {
            if is_booked(board, &write.room, *target) {
                Place::Done
            } else {
                Place::Void
            }
        }
    }
}
