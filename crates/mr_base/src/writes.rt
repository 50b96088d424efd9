ghost use Rattle.std.specs.Prelude.{◌≡◌, ◌↔◌, ◌&&◌, IsTrue, Ok};
ghost use Rattle.mr_model.specs.Writes.{Write as WriteOfRoom, Books, Cancels, is_write, same_write, stamp_before as is_before};
ghost use Rattle.mr_model.specs.Requests.{stamped};
ghost use Rattle.mr_model.specs.Exchange.{is_in_version};
ghost use Rattle.mr_base.specs.Answers.{OrOutOfMemory};
ghost use Rattle.mr_base.specs.Actions.{action_of};
ghost use Rattle.mr_base.specs.Limits.{limited};
ghost use Rattle.mr_base.specs.Versions.{version_of};

use crate::actions::{are_same, copy_of, is_first};
use crate::{
    Action, Alternatives, Refusal, Request, RoomName, Slot, Stamp, Title, Version, WriteId,
};
use std::alloc::Global;
use std::marker::Model;

/// A write: a booking or a cancel, with its stamp and its room.
#[derive(Debug, Drop)]
pub struct Write {
    pub stamp: Stamp,
    pub room: RoomName,
    pub action: Action,
}

impl Model for Write {
    ghost Value = { WriteOfRoom };

    ghost view = { λ w. record { stamp = w.stamp; room = w.room; action = action_of w.action } };

    ghost invariant = { λ w. IsTrue (is_write (record {
      stamp = w.stamp;
      room = w.room;
      action = action_of w.action;
    })) };
}

impl Write {
    /// The booking of that request, with that stamp.
    pub fn of_request(stamp: Stamp, request: Request) -> Write
        ensures { result ≡ stamped stamp request }
    {
        let Stamp { server, n, time } = stamp;
        let Request { room, meeting } = request;
        Write {
            stamp: Stamp { server, n, time },
            room,
            action: Action::Books(meeting),
        }
    }

    /// The booking, if the length and the choices are within the limits; else the smallest refusal that applies.
    pub fn new(
        stamp: Stamp,
        room: RoomName,
        title: Title,
        length: u32,
        wish: Slot,
        alternatives: Alternatives,
    ) -> Result<Write, Refusal>
        ensures { result ≡ limited length wish alternatives (record {
          stamp = stamp;
          room = room;
          action = Books (record { title = title; length = length; wish = wish; alternatives = alternatives });
        }) }
    {
        match Request::new(room, title, length, wish, alternatives) {
            Ok(request) => Ok(Write::of_request(stamp, request)),
            Err(refusal) => Err(refusal),
        }
    }

    /// The cancel of the booking with this id.
    pub fn cancel(stamp: Stamp, room: RoomName, target: WriteId) -> Write
        ensures { result ≡ record { stamp = stamp; room = room; action = Cancels target } }
    {
        // For the prover alone: the room is within its limits.
        room.as_str();
        let Stamp { server, n, time } = stamp;
        let _count = target.n;
        Write {
            stamp: Stamp { server, n, time },
            room,
            action: Action::Cancels(target),
        }
    }

    /// An equal write.
    pub fn copy(&self, alloc: Global) -> Result<Write, Refusal>
        ensures { OrOutOfMemory result (Ok self.now) }
    {
        let room = self.room.copy(alloc)?;
        let action = copy_of(&self.action, alloc)?;
        Ok(Write {
            stamp: self.stamp,
            room,
            action,
        })
    }

    /// Says to proofs that every write is within the limits. It does nothing.
    pub fn is_within_limits(&self)
        ensures { IsTrue (is_write self.now) }
    {
        let _stamp = self.stamp;
    }

    /// Whether this version of the exchange text can say it: the first can say bookings of at most 8 alternatives, the second
    /// every write.
    pub fn is_in_version(&self, version: Version) -> bool
        ensures { result ≡ is_in_version (version_of version) self.now }
    {
        match version {
            Version::First => is_first(&self.action),
            Version::Second => true,
        }
    }

    /// Whether the two are equal in all parts.
    pub fn is_same(&self, other: &Write) -> bool
        ensures test { result ≡ same_write self.now other.now }
        ensures meaning { IsTrue result ↔ (self.now ≡ other.now) }
    {
        have_same_parts(self, other)
    }
}

fn have_same_parts(a: &Write, b: &Write) -> bool
    ensures { result ≡ same_write a.now b.now }
{
    a.stamp == b.stamp && a.room.as_str() == b.room.as_str() && are_same(&a.action, &b.action)
}

/// Whether the first stands before the second in the order of stamps: by time, then by server.
pub fn stamp_before(a: &Write, b: &Write) -> bool
    ensures { result ≡ is_before a.now b.now }
{
    a.stamp.time < b.stamp.time || (a.stamp.time == b.stamp.time && a.stamp.server < b.stamp.server)
}
