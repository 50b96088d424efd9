use crate::commands::CalendarPart;
use mr_base::{Batch, Day, Position, Refusal, RoomName, WriteId};
use mr_tables::{BookingRow, CancelRow, ErrorRow};

/// What a replica replies to a command.
#[derive(Debug, Drop)]
pub enum Reply {
    /// The room was added.
    RoomAdded,
    /// What became of a request or a cancel.
    Outcome(Outcome),
    /// How many writes and commits of a batch were new.
    Took {
        writes: u64,
        commits: u64,
    },
    /// How many writes were committed.
    Committed(u64),
    /// How many commits are dropped now.
    Dropped(u64),
    /// How far the replica's knowledge goes.
    Position(Position),
    /// What another replica lacks.
    Batch(Batch),
    /// The bookings of a room on a day, by rising start.
    Sheet {
        room: RoomName,
        day: Day,
        rows: Vec<BookingRow>,
    },
    /// The bookings of a room, by rising day and start.
    Calendar {
        room: RoomName,
        part: CalendarPart,
        rows: Vec<BookingRow>,
    },
    /// The requests of a room that found no free slot, and its cancels that found nothing to take back, in the order of their
    /// execution.
    Errors {
        room: RoomName,
        lines: Vec<LogLine>,
    },
    /// The command was refused. It changed nothing, but behind 24 or 25 over a store on disk it may turn out to be done.
    Refused(Refusal),
}

/// An entry of an error log.
#[derive(Debug, Drop)]
pub enum LogLine {
    /// A request that found no free slot.
    Request(ErrorRow),
    /// A cancel that found nothing to take back.
    VoidCancel(CancelRow),
}

/// What became of a request, which was booked, or logged as an error because all its choices were taken, or booked and then taken
/// back by a cancel; or of a cancel.
#[derive(Clone, Copy, Debug)]
pub enum Outcome {
    /// It has the minutes of the day from `start` up to, not with, `stop`.
    Booked(ShownBooking),
    Logged {
        id: WriteId,
        is_committed: bool,
    },
    /// The cancel `by` took the booking back. Each of the two has its own mark.
    Cancelled {
        id: WriteId,
        is_committed: bool,
        by: WriteId,
        by_committed: bool,
    },
    /// It is a cancel, which took its target back.
    Cancels {
        id: WriteId,
        is_committed: bool,
        target: WriteId,
    },
    /// It is a cancel, which found nothing to take back.
    Void {
        id: WriteId,
        is_committed: bool,
        target: WriteId,
    },
}

/// The slot that a request has.
#[derive(Clone, Copy, Debug)]
pub struct ShownBooking {
    pub id: WriteId,
    pub is_committed: bool,
    pub day: Day,
    pub start: mr_base::TimeOfDay,
    pub stop: mr_base::TimeOfDay,
}
