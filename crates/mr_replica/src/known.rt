ghost use Rattle.std.specs.Prelude.{◌≡◌, ◌<◌, ◌≤◌, bytes_eq, Some, IfSome};
ghost use Rattle.std.specs.List.{list_any};
ghost use Rattle.mr_agree.specs.Agreeing.{vector_in};
ghost use Rattle.mr_replica.specs.Dues.{has_booking_id, own_count, IsExhausted};

use crate::Memory;
use mr_base::{GREATEST_COUNT, GREATEST_TIME, Refusal, RoomName, ServerId, WriteId};
use mr_tables::rooms::is_known;
use mr_tables::{MetaRow, VectorRow};

/// What a desk looks up before it makes a part, so that a refusal that is due takes no memory.
impl Memory {
    /// The numbers.
    pub(crate) fn meta(&self) -> MetaRow
        ensures { result ≡ self.now.meta }
    {
        self.meta
    }

    /// Why the own server has no next write, if the clock or its count is at the end.
    pub(crate) fn exhausted(&self) -> Option<Refusal>
        ensures clock { 999_999_999_999 ≤ self.now.meta.clock → result ≡ Some Refusal.ClockExhausted }
        ensures count { self.now.meta.clock < 999_999_999_999 → 999_999_999 ≤ own_count self.now → result ≡ Some Refusal.CountExhausted }
        ensures due { IfSome result (IsExhausted self.now) }
    {
        if self.meta.clock >= GREATEST_TIME {
            return Some(Refusal::ClockExhausted);
        }
        if count_in(&self.vector, self.meta.server) >= GREATEST_COUNT {
            return Some(Refusal::CountExhausted);
        }
        None
    }

    /// Whether the room is known.
    pub(crate) fn knows(&self, room: &RoomName) -> bool
        ensures { result ≡ list_any (bytes_eq room.now) self.now.room }
    {
        is_known(&self.room, room)
    }

    /// Whether a booking of the room has this id, be it booked, logged or cancelled.
    pub(crate) fn has_booking(&self, room: &RoomName, id: WriteId) -> bool
        ensures { result ≡ has_booking_id room.now id self.now }
    {
        let writes = &self.writes;
        writes.booking.get_in(id, room).is_some()
            || writes.errorlog.get_in(id, room).is_some()
            || writes.cancelled.get_in(id, room).is_some()
    }
}

/// The count in the row of this server, if it has one.
fn count_in(rows: &[VectorRow], server: ServerId) -> u32
    ensures { result ≡ (vector_in rows.now server).count }
{
    for row in rows {
        if row.server == server {
            return row.count;
        }
    }
    0
}
