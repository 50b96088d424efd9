ghost use Rattle.std.specs.Prelude.{◌≡◌, IsTrue, Err};
ghost use Rattle.mr_model.specs.Requests.{Request as RequestForRoom, is_request};
ghost use Rattle.mr_base.specs.Answers.{OrOutOfMemory};
ghost use Rattle.mr_base.specs.Limits.{limited, request_of};

use crate::meetings::{are_too_many, fits};
use crate::{Alternatives, Meeting, Refusal, RoomName, Slot, Title, is_room_text, is_title_text};
use std::alloc::Global;
use std::marker::Model;

/// A request: a booking without its stamp.
#[derive(Debug, Drop)]
pub struct Request {
    pub room: RoomName,
    pub meeting: Meeting,
}

impl Model for Request {
    ghost Value = { RequestForRoom };

    ghost view = { λ r. record { room = r.room; meeting = r.meeting } };

    ghost invariant = { λ r. IsTrue (is_request (record { room = r.room; meeting = r.meeting })) };
}

impl Request {
    /// The request, if the length and the choices are within the limits; else the smallest refusal that applies.
    pub fn new(
        room: RoomName,
        title: Title,
        length: u32,
        wish: Slot,
        alternatives: Alternatives,
    ) -> Result<Request, Refusal>
        ensures { result ≡ limited length wish alternatives (record {
          room = room;
          meeting = record { title = title; length = length; wish = wish; alternatives = alternatives };
        }) }
    {
        match Meeting::new(title, length, wish, alternatives) {
            Ok(meeting) => Ok(Request::of_meeting(room, meeting)),
            Err(refusal) => Err(refusal),
        }
    }

    /// The request for this meeting in the room.
    pub fn of_meeting(room: RoomName, meeting: Meeting) -> Request
        ensures { result ≡ record { room = room; meeting = meeting } }
    {
        // For the prover alone: all of these are within their limits.
        room.as_str();
        meeting.is_within_limits();
        Request { room, meeting }
    }

    /// The request with these words; else the smallest refusal that applies.
    pub fn of_words(
        alloc: Global,
        room: &str,
        title: &str,
        length: u32,
        wish: Slot,
        alternatives: Alternatives,
    ) -> Result<Request, Refusal>
        ensures value { OrOutOfMemory result (request_of room.now title.now length wish alternatives) }
        // A refusal that is due is returned without memory.
        ensures due { (e : Refusal) → request_of room.now title.now length wish alternatives ≡ Err e → result ≡ Err e }
    {
        if !fits(length, wish, alternatives.as_slice()) {
            return Err(Refusal::BadLength);
        }
        if !is_room_text(room.as_bytes()) {
            return Err(Refusal::BadRoomName);
        }
        if !is_title_text(title.as_bytes()) {
            return Err(Refusal::BadTitle);
        }
        if are_too_many(alternatives.as_slice()) {
            return Err(Refusal::TooManyAlternatives);
        }
        let room = RoomName::make(alloc, room)?;
        let title = Title::make(alloc, title)?;
        let meeting = Meeting {
            title,
            length,
            wish,
            alternatives,
        };
        Ok(Request { room, meeting })
    }
}
