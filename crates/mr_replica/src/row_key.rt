ghost use Rattle.std.specs.Prelude.{◌≡◌, refl};
ghost use Rattle.mr_model.specs.Queries.{error_id, cancelled_id, cancel_id};
ghost use Rattle.mr_model.specs.Writes.{Id};
ghost use Rattle.mr_replica.specs.declared.row_key.RowKey.{RowKey as Key};
ghost use Rattle.mr_replica.specs.RowKeys.{blank, booking_key, row_end_key, is_between, log_end, log_key, number_end, room_key, stamp_end, tail_end};

use mr_base::{Day, RoomName, ServerId, WriteId};
use mr_part::tail::Tail;
use mr_replay::padded;
use mr_tables::{BookingRow, CancelRow, CancelledRow, ErrorRow, IdRow, LogRow};

/// Where a row stands by its second key: a booking by room, day, start and id, a committed row of the log by its number and id, a
/// tentative one, behind all of these, by room, stamp and id, and the others by room and id. The room's name is filled up with zeros.
#[derive(Clone, Copy, Debug, PartialEq, Eq, PartialOrd, Ord)]
pub(crate) struct RowKey {
    /// 1 for a row, and 3 for a tentative one of the log. Ends of ranges have 0 in front of all of them, 2 and 4 behind.
    pub edge: u8,
    pub room: [u8; 16],
    /// 1 for a row; 0 in front of those of the room, and 2 behind them.
    pub room_edge: u8,
    /// The year of a booking, the number of a committed row of the log, or the time of a tentative one.
    pub number: u64,
    /// Of a booking, or the server of a tentative row of the log.
    pub month: u8,
    pub day: u8,
    /// 1 for a row; 0 in front of those of the day, number or stamp, and 2 behind them.
    pub day_edge: u8,
    pub start: u32,
    pub id: WriteId,
}

impl RowKey {
    /// Whether it stands from the first of these to the last.
    pub(crate) fn is_between(&self, first: &RowKey, last: &RowKey) -> bool
        ensures { result ≡ is_between first.now last.now self.now }
    {
        first.cmp(self).is_le() && !last.cmp(self).is_lt()
    }
}

/// A row that is found by its second key, too.
pub(crate) trait KeyedRow: IdRow {
    ghost second_key: { Self → Key };

    fn second_key(&self) -> RowKey
        ensures { result ≡ second_key self.now };

    // the key has the row's id
    ghost has_id: { (row : Self) → Key.id (second_key row) ≡ Self.id row };
}

impl KeyedRow for LogRow {
    ghost second_key = { log_key };

    ghost has_id = { λ row. refl };

    fn second_key(&self) -> RowKey {
        let key = if self.seq == 0 {
            stamp_end(1, &self.room, self.time, self.server)
        } else {
            number_end(1, self.seq)
        };
        RowKey {
            id: self.id(),
            ..key
        }
    }
}

impl KeyedRow for BookingRow {
    ghost second_key = { booking_key };

    ghost has_id = { λ row. refl };

    fn second_key(&self) -> RowKey {
        RowKey {
            number: self.day.year() as u64,
            month: self.day.month(),
            day: self.day.day(),
            start: self.start,
            ..room_key(&self.room, self.id())
        }
    }
}

impl KeyedRow for ErrorRow {
    ghost second_key = { λ row. room_key row.room (error_id row) };

    ghost has_id = { λ row. refl };

    fn second_key(&self) -> RowKey {
        room_key(&self.room, self.id())
    }
}

impl KeyedRow for CancelledRow {
    ghost second_key = { λ row. room_key row.room (cancelled_id row) };

    ghost has_id = { λ row. refl };

    fn second_key(&self) -> RowKey {
        room_key(&self.booking.room, self.id())
    }
}

impl KeyedRow for CancelRow {
    ghost second_key = { λ row. room_key row.room (cancel_id row) };

    ghost has_id = { λ row. refl };

    fn second_key(&self) -> RowKey {
        room_key(&self.room, self.id())
    }
}

/// The key of the row with this id, which is found by its room.
fn room_key(room: &RoomName, id: WriteId) -> RowKey
    ensures { result ≡ room_key room.now id }
{
    RowKey {
        id,
        ..blank(padded(room))
    }
}

/// The key in front of the room's rows of a day, or of all days, if the edge is 0, and the one behind them if it is 2.
pub(crate) fn end_key(edge: u8, room: &RoomName, day: &Option<Day>) -> RowKey
    ensures { result ≡ row_end_key edge room.now day.now }
{
    let all = blank(padded(room));
    match day {
        Some(day) => RowKey {
            number: day.year() as u64,
            month: day.month(),
            day: day.day(),
            day_edge: edge,
            ..all
        },
        None => RowKey {
            room_edge: edge,
            ..all
        },
    }
}

/// The key in front of all rows of the log, of the tentative ones, and behind all, if the edge is 0, 2, and 4.
pub(crate) fn log_end(edge: u8) -> RowKey
    ensures { result ≡ log_end edge }
{
    RowKey {
        edge,
        ..blank([0; 16])
    }
}

/// The key in front of the committed rows of the log of this number, if the edge is 0, and the one behind them if it is 2.
pub(crate) fn number_end(edge: u8, number: u64) -> RowKey
    ensures { result ≡ number_end edge number }
{
    RowKey {
        number,
        day_edge: edge,
        ..blank([0; 16])
    }
}

/// The key in front of the room's tentative rows of the log with this stamp, if the edge is 0.
fn stamp_end(edge: u8, room: &RoomName, time: u64, server: ServerId) -> RowKey
    ensures { result ≡ stamp_end edge room.now time server }
{
    RowKey {
        edge: 3,
        number: time,
        month: server.number() as u8,
        day_edge: edge,
        ..blank(padded(room))
    }
}

/// The key in front of the room's tentative rows of the log that are in this tail of a batch. If none is, it is behind all of them.
pub(crate) fn tail_end(room: &RoomName, tail: &Tail) -> RowKey
    ensures { result ≡ tail_end room.now tail.now }
{
    let room_edge = match tail {
        Tail::Everything => 0,
        Tail::From(time, server) => return stamp_end(0, room, *time, *server),
        Tail::Nothing => 2,
    };
    RowKey {
        edge: 3,
        room_edge,
        ..blank(padded(room))
    }
}

/// A key of no row, with this room.
fn blank(room: [u8; 16]) -> RowKey
    ensures { result ≡ blank room }
{
    RowKey {
        edge: 1,
        room,
        room_edge: 1,
        number: 0,
        month: 0,
        day: 0,
        day_edge: 1,
        start: 0,
        id: WriteId {
            server: ServerId::new(1).unwrap(),
            n: 1,
        },
    }
}
