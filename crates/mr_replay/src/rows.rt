ghost use Rattle.std.specs.Prelude.{◌≡◌, IfOk, IfErr, None};
ghost use Rattle.mr_model.specs.Replay.{slot_at as slot_of};
ghost use Rattle.mr_base.specs.Actions.{action_of};
ghost use Rattle.mr_replay.specs.Bookings.{is_taken};
ghost use Rattle.mr_replay.specs.Places.{place_seen};
ghost use Rattle.mr_replay.specs.Rows.{is_standing, is_booking_of, is_trace_in_the_way, is_in_the_way, choice_at, trace_with, row_of, with_mark, without_mark, change, target_of, target_if_done, undo_row_at};

use mr_base::{Action, Meeting, Refusal, RoomName, Slot, Title, Write, WriteId, overlaps};
use std::alloc::{AllocError, Global};
use std::collections::{BTreeMap, BTreeSet};
use std::marker::Model;

/// The rows of a board, by the ids of their writes.
pub(crate) type Rows = BTreeMap<WriteId, Row>;

/// Ids whose rows don't count.
pub(crate) type Hidden = BTreeSet<WriteId>;

/// Where a write went. A booking: to the choice of this number, 0 being its wish and 1 its first alternative, or into the error
/// log. A cancel: it took its target back, or found nothing to take back.
#[derive(Clone, Copy, Debug, PartialEq, Eq)]
pub enum Place {
    Taken(u32),
    Logged,
    Done,
    Void,
}

/// What undoes one execution: the write's id, the place that the execution gave it, and its target, if it is a cancel.
#[derive(Clone, Copy, Debug, PartialEq, Eq)]
pub struct UndoRow {
    pub id: WriteId,
    pub place: Place,
    pub target: Option<WriteId>,
}

impl Model for UndoRow {
    ghost use Rattle.mr_replay.specs.Places.{UndoRow, place_seen, place_from};

    ghost Value = { UndoRow };

    ghost view = { λ u. record { id = u.id; place = place_seen u.place; target = u.target } };

    ghost inverse = { λ v. record { id = v.id; place = place_from v.place; target = v.target } };
}

impl UndoRow {
    /// The undo row of a write that went to this place.
    pub fn of(write: &Write, place: Place) -> UndoRow
        ensures { result ≡ undo_row_at write.now (place_seen place) }
    {
        UndoRow {
            id: write.stamp.id(),
            place,
            target: target_of(&write.action),
        }
    }

    /// The booking that the write took back: the target of a cancel that is done.
    pub(crate) fn taken_back(&self) -> Option<WriteId>
        ensures { result ≡ target_if_done self.now.place self.now.target }
    {
        match self.place {
            Place::Done => self.target,
            _ => None,
        }
    }
}

/// What a cancel would take back.
fn target_of(action: &Action) -> Option<WriteId>
    ensures { result ≡ target_of (action_of action.now) }
{
    match action {
        Action::Books(_) => None,
        Action::Cancels(target) => Some(*target),
    }
}

/// How a booking's row stands on the board.
#[derive(Clone, Copy, Debug, PartialEq, Eq)]
pub enum Standing {
    /// It has its slot.
    Booked,
    /// It had its slot, until the cancel of this id took it back.
    CancelledBy(WriteId),
    /// It found no free choice; its row's slot is its wish.
    InErrorLog,
}

/// What a write leaves on the board: of a booking the slot that it took, its length in minutes, its title and how it stands; of a
/// cancel that found nothing to take back its target. A cancel that is Done has no row; its id stands in its target's row.
#[derive(Clone, Debug, Drop)]
pub enum Trace {
    OfBooking {
        slot: Slot,
        length: u32,
        title: Title,
        standing: Standing,
    },
    OfCancel {
        target: WriteId,
    },
}

/// What a write leaves on the board, and the room.
#[derive(Clone, Debug, Drop)]
pub struct Row {
    pub room: RoomName,
    pub trace: Trace,
}

impl Row {
    /// The row of a write at its place; a cancel that is Done has none.
    pub(crate) fn of(alloc: Global, write: &Write, place: Place) -> Result<Option<Row>, Refusal>
        ensures row { IfOk result (λ row. row ≡ row_of write.now (place_seen place) None) }
        ensures only { IfErr result (λ e. e ≡ Refusal.OutOfMemory) }
    {
        let trace = match &write.action {
            Action::Books(meeting) => Trace::of(alloc, meeting, slot_at(write, place))?,
            Action::Cancels(target) => {
                if place == Place::Done {
                    return Ok(None);
                }
                Trace::OfCancel { target: *target }
            }
        };
        let room = write.room.copy(alloc)?;
        Ok(Some(Row { room, trace }))
    }

    /// An equal row.
    pub(crate) fn copy(&self, alloc: Global) -> Result<Row, Refusal>
        ensures row { IfOk result (λ row. row ≡ self.now) }
        ensures only { IfErr result (λ e. e ≡ Refusal.OutOfMemory) }
    {
        let trace = self.trace.copy(alloc)?;
        let room = self.room.copy(alloc)?;
        Ok(Row { room, trace })
    }

    /// Whether this is a booking of the room that stands.
    pub(crate) fn is_booking_of(&self, room: &RoomName) -> bool
        ensures { result ≡ is_booking_of room.now self.now }
    {
        self.trace.is_standing() && self.room == *room
    }

    /// Whether this is a booking of the room that stands and overlaps the slot.
    pub(crate) fn is_in_the_way(&self, room: &RoomName, slot: Slot, length: u32) -> bool
        ensures { result ≡ is_in_the_way room.now slot length self.now }
    {
        self.trace.is_in_the_way(slot, length) && self.room == *room
    }

    /// A booking that stands is taken back by this cancel.
    pub(crate) fn mark(&mut self, cancel: WriteId)
        ensures { self.new ≡ change (with_mark cancel) self.old }
    {
        if let Trace::OfBooking { standing, .. } = &mut self.trace {
            if *standing == Standing::Booked {
                *standing = Standing::CancelledBy(cancel);
            }
        }
    }

    /// A booking that this cancel took back stands again.
    pub(crate) fn unmark(&mut self, cancel: WriteId)
        ensures { self.new ≡ change (without_mark cancel) self.old }
    {
        if let Trace::OfBooking { standing, .. } = &mut self.trace {
            if *standing == Standing::CancelledBy(cancel) {
                *standing = Standing::Booked;
            }
        }
    }
}

impl Trace {
    /// The trace of a booking that took this slot, or none.
    fn of(alloc: Global, meeting: &Meeting, slot: Option<Slot>) -> Result<Trace, Refusal>
        ensures trace { IfOk result (λ trace. trace ≡ trace_with meeting.now slot None) }
        ensures only { IfErr result (λ e. e ≡ Refusal.OutOfMemory) }
    {
        let title = meeting.title.copy(alloc)?;
        let (slot, standing) = match slot {
            Some(slot) => (slot, Standing::Booked),
            None => (meeting.wish, Standing::InErrorLog),
        };
        Ok(Trace::OfBooking {
            slot,
            length: meeting.length,
            title,
            standing,
        })
    }

    fn copy(&self, alloc: Global) -> Result<Trace, Refusal>
        ensures trace { IfOk result (λ trace. trace ≡ self.now) }
        ensures only { IfErr result (λ e. e ≡ Refusal.OutOfMemory) }
    {
        match self {
            Trace::OfBooking {
                slot,
                length,
                title,
                standing,
            } => {
                let title = title.copy(alloc)?;
                Ok(Trace::OfBooking {
                    slot: *slot,
                    length: *length,
                    title,
                    standing: *standing,
                })
            }
            Trace::OfCancel { target } => Ok(Trace::OfCancel { target: *target }),
        }
    }

    /// Whether this is a booking that took its slot, be it taken back or not.
    pub fn is_taken(&self) -> bool
        ensures { result ≡ is_taken self.now }
    {
        match self {
            Trace::OfBooking { standing, .. } => *standing != Standing::InErrorLog,
            Trace::OfCancel { .. } => false,
        }
    }

    fn is_standing(&self) -> bool
        ensures { result ≡ is_standing self.now }
    {
        match self {
            Trace::OfBooking { standing, .. } => *standing == Standing::Booked,
            Trace::OfCancel { .. } => false,
        }
    }

    fn is_in_the_way(&self, slot: Slot, length: u32) -> bool
        ensures { result ≡ is_trace_in_the_way slot length self.now }
    {
        match self {
            Trace::OfBooking {
                slot: own,
                length: own_length,
                standing: Standing::Booked,
                ..
            } => overlaps(slot, *own, length, *own_length),
            _ => false,
        }
    }
}

/// The slot that the write has at its place.
pub(crate) fn slot_at(write: &Write, place: Place) -> Option<Slot>
    ensures { result ≡ slot_of write.now (place_seen place) }
{
    match &write.action {
        Action::Books(meeting) => choice_at(meeting, place),
        Action::Cancels(_) => None,
    }
}

/// The choice that the meeting has at its place.
fn choice_at(meeting: &Meeting, place: Place) -> Option<Slot>
    ensures { result ≡ choice_at meeting.now (place_seen place) }
{
    match place {
        Place::Taken(0) => Some(meeting.wish),
        Place::Taken(k) => meeting.alternatives.as_slice().get(k as usize - 1).copied(),
        _ => None,
    }
}
