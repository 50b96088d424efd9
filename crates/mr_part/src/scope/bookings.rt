ghost use Rattle.std.specs.Prelude.{◌≡◌, List, [], Option, Some, None};
ghost use Rattle.mr_model.specs.Texts.{Text};
ghost use Rattle.mr_model.specs.Writes.{Id};
ghost use Rattle.mr_part.specs.RowTests.{is_target, has_booking, has_error, has_cancelled, IsIdSetOf, IsBookingTest};
ghost use Rattle.mr_part.specs.Sets.{IsSetOf};

use crate::room_sets::RoomSet;
use crate::touched::IdSet;
use mr_base::WriteId;
use mr_tables::{BookingRow, CancelledRow, ErrorRow};
use std::alloc::Global;
use std::collections::BTreeSet;

/// Which bookings are in scope. It is made once, so that each row is asked at the cost of a logarithm.
#[derive(Drop)]
pub(crate) struct BookingTest {
    /// Those of these rooms, and those there that a cancel took back.
    pub rooms: RoomSet,
    /// That of this id, whatever became of it.
    pub target: Option<WriteId>,
    /// Those of these ids that a cancel took back.
    pub taken: IdSet,
}

impl BookingTest {
    /// No booking.
    pub(crate) fn nothing(alloc: Global) -> BookingTest
        ensures { IsBookingTest result [] None [] }
    {
        BookingTest {
            rooms: BTreeSet::new(alloc),
            target: None,
            taken: BTreeSet::new(alloc),
        }
    }

    pub(crate) fn in_rooms(alloc: Global, rooms: RoomSet) -> BookingTest
        ensures { (names : List Text) → IsSetOf rooms names → IsBookingTest result names None [] }
    {
        BookingTest {
            rooms,
            target: None,
            taken: BTreeSet::new(alloc),
        }
    }

    pub(crate) fn of_target(alloc: Global, target: WriteId) -> BookingTest
        ensures { IsBookingTest result [] (Some target) [] }
    {
        BookingTest {
            rooms: BTreeSet::new(alloc),
            target: Some(target),
            taken: BTreeSet::new(alloc),
        }
    }

    pub(crate) fn of_taken(alloc: Global, taken: IdSet) -> BookingTest
        ensures { (ids : List Id) → IsIdSetOf taken ids → IsBookingTest result [] None ids }
    {
        BookingTest {
            rooms: BTreeSet::new(alloc),
            target: None,
            taken,
        }
    }

    /// Whether a row of `booking` is in scope.
    pub(crate) fn has_booking(&self, row: &BookingRow) -> bool
        ensures { result ≡ has_booking self.now row.now }
    {
        self.rooms.contains(&row.room) || is_target(self.target, row.id())
    }

    /// Whether a row of `errorlog` is in scope.
    pub(crate) fn has_error(&self, row: &ErrorRow) -> bool
        ensures { result ≡ has_error self.now row.now }
    {
        is_target(self.target, row.id())
    }

    /// Whether a row of `cancelled` is in scope.
    pub(crate) fn has_cancelled(&self, row: &CancelledRow) -> bool
        ensures { result ≡ has_cancelled self.now row.now }
    {
        let id = row.id();
        self.rooms.contains(&row.booking.room)
            || is_target(self.target, id)
            || self.taken.contains(&id)
    }
}

fn is_target(target: Option<WriteId>, id: WriteId) -> bool
    ensures { result ≡ is_target target id }
{
    match target {
        Some(target) => id == target,
        None => false,
    }
}
