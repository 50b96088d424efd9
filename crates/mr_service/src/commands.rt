use mr_base::LineCount;

/// A command to a replica.
#[derive(Debug, Drop)]
pub enum Command {
    /// A command of somebody at the replica itself.
    Local(Local),
    /// Takes the batch with this text, which another replica made.
    Receive(Vec<u8>),
}

/// A command of somebody at the replica itself. Its words are texts, which the replica reads.
#[derive(Debug, Drop)]
pub enum Local {
    /// Adds a room of this name.
    AddRoom(String),
    /// Books a room.
    Submit(Submission),
    /// Takes back the booking with this id, which is of the room.
    Cancel {
        room: String,
        id: String,
    },
    /// Commits the first tentative writes, that many at most, at the primary.
    Commit(u64),
    /// Drops the copies of the writes with commit numbers up to this one, at a replica that isn't the primary.
    Truncate(u64),
    /// Asks how far the replica's knowledge goes.
    Position,
    /// Asks for what a replica lacks that is at the position with this text, in that many lines at most.
    BatchFor {
        position: Vec<u8>,
        max_lines: LineCount,
    },
    /// Asks for the bookings of a room.
    Calendar {
        room: String,
        part: CalendarPart,
    },
    /// Asks for the bookings of a room on a day.
    Sheet {
        room: String,
        day: String,
    },
    /// Asks what became of the request or cancel with this id.
    Outcome {
        room: String,
        id: String,
    },
    /// Asks for the requests of a room that found no free slot, and its cancels that found nothing to take back.
    Errors {
        room: String,
    },
}

/// The bookings of all known requests, or of the committed ones alone.
#[derive(Clone, Copy, Debug, PartialEq, Eq)]
pub enum CalendarPart {
    Full,
    Committed,
}

/// A request for a room: the wished slot of that length, and the slots that would be taken in its place, in order.
#[derive(Debug, Drop)]
pub struct Submission {
    pub room: String,
    pub title: String,
    /// Minutes, in decimal.
    pub length: String,
    pub wish: SlotWords,
    pub alternatives: Vec<SlotWords>,
}

/// A day, `YYYY-MM-DD`, and the time of it, `HH:MM`, at which a slot begins.
#[derive(Debug, Drop)]
pub struct SlotWords {
    pub day: String,
    pub time: String,
}
