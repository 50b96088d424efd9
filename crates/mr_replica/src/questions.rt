use mr_base::{Day, RoomName, WriteId};
use mr_tables::{BookingRow, CancelRow, CancelledRow, ErrorRow, PlaceRow};

/// What a keeper is asked about its rooms.
#[derive(Clone, Copy, Debug)]
pub enum Question<'a> {
    /// The known rooms.
    Rooms,
    /// The bookings of a room, of a day or of all days.
    Bookings(&'a RoomName, Option<Day>),
    /// The row of the write with this id, if it is of that room.
    PlaceOf(&'a RoomName, WriteId),
    /// The error log's rows of a room.
    Errors(&'a RoomName),
    /// The rows of a room's bookings that a cancel took back.
    Cancelled(&'a RoomName),
    /// The rows of a room's cancels.
    Cancels(&'a RoomName),
}

/// The rows that answer a question: those of the variant that has the question's name.
#[derive(Debug, Drop)]
pub enum Answer {
    /// Rooms, in any order.
    Rooms(Vec<RoomName>),
    /// Bookings, by day, start, server and count.
    Bookings(Vec<BookingRow>),
    /// The row of the write, if there is one.
    PlaceOf(Option<PlaceRow>),
    /// Rows of the error log, in any order.
    Errors(Vec<ErrorRow>),
    /// Rows of bookings that a cancel took back, in any order.
    Cancelled(Vec<CancelledRow>),
    /// Rows of cancels, in any order.
    Cancels(Vec<CancelRow>),
}
