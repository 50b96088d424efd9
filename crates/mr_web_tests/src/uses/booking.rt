// Booking at one replica, and listing a day. What is asked is in words, as somebody types them: the replica reads them, and refuses each
// that isn't within the limits by a name of its own.

ghost use Rattle.std.specs.Prelude.{◌≡◌, IfOk};
ghost use Rattle.mr_model.specs.Replica.{Replica};
ghost use Rattle.mr_model.specs.Replies.{reply_text as text_of};
ghost use Rattle.mr_model.specs.Step.{Ask, step};
ghost use Rattle.mr_model.specs.Tables.{Stands};
ghost use Rattle.mr_model.specs.View.{AskSheet, answer, view_of};
ghost use Rattle.mr_service.specs.Asked.{command_seen};

use crate::uses::asking::{ask, order, tell};
use mr_base::{Refusal, ServerId};
use mr_service::{Command, Local, Service, SlotWords, Submission, reply_text};
use mr_store::ListKeeper;
use std::alloc::{AllocError, Global};

/// A replica over lists, and so in memory alone, that knows a room. Over a database the keeper is another one, and the rest the same.
pub(crate) fn opened(alloc: Global, number: u32) -> Result<Service<ListKeeper>, Refusal> {
    let primary = ServerId::new(1).ok_or(Refusal::NotAReplica)?;
    let server = ServerId::new(number).ok_or(Refusal::NotAReplica)?;
    let room = String::from_str(alloc, "oak")?;
    let mut service = Service::new(alloc, ListKeeper::new(alloc, server, primary));
    order(&mut service, Command::Local(Local::AddRoom(room)))?;
    Ok(service)
}

/// The command that asks for oak on Monday, from a time on, for so many minutes. It names no alternatives, so that it is logged as an error
/// if its slot is taken.
pub(crate) fn booking(alloc: Global, time: &str, minutes: &str) -> Result<Command, AllocError> {
    let wish = monday_at(alloc, time)?;
    let room = String::from_str(alloc, "oak")?;
    let length = String::from_str(alloc, minutes)?;
    Ok(Command::Local(Local::Submit(Submission {
        room,
        title: String::from_str(alloc, "Review")?,
        length,
        wish,
        alternatives: Vec::new(alloc),
    })))
}

fn monday_at(alloc: Global, time: &str) -> Result<SlotWords, AllocError> {
    let day = String::from_str(alloc, "1995-12-18")?;
    let time = String::from_str(alloc, time)?;
    Ok(SlotWords { day, time })
}

/// The question for the sheet of a room on a day.
pub(crate) fn sheet(alloc: Global, room: &str, day: &str) -> Result<Command, AllocError>
    ensures { IfOk result (λ c. command_seen c ≡ Ask room.now (AskSheet day.now)) }
{
    let room = String::from_str(alloc, room)?;
    let day = String::from_str(alloc, day)?;
    Ok(Command::Local(Local::Sheet { room, day }))
}

/// Gives the replica a command, such as a booking, and answers the text of the room's sheet behind it: the one that the definitions give
/// for what the replica knows of the room once it took the command, whichever replica it was. An error is a refusal of either of
/// the two: a caller that has to know which asks in two calls, as below.
pub(crate) fn sheet_after(
    alloc: Global,
    service: &mut Service<ListKeeper>,
    command: &Command,
    room: &str,
    day: &str,
) -> Result<Vec<u8>, Refusal>
    ensures { (a : Replica) → Stands service.old.tables a
        → IfOk result (λ text. text.items ≡ text_of (answer room.now (view_of (step a (command_seen command.now)).replica room.now) (AskSheet day.now))) }
{
    ask(service, command)?;
    let question = sheet(alloc, room, day)?;
    let reply = ask(service, &question)?;
    reply_text(alloc, &reply)
}

/// Times and minutes: a request that is booked, one that finds its slot taken, and one that is too long for any day.
static WISHES: [(&str, &str); 3] = [("13:30", "60"), ("14:00", "30"), ("14:30", "1441")];

/// What a replica replies to these, and the sheet behind one more.
pub(crate) fn bookings_told(
    alloc: Global,
    service: &mut Service<ListKeeper>,
) -> Result<Vec<u8>, Refusal> {
    let mut told = Vec::new(alloc);
    wishes_told(alloc, service, &mut told)?;
    let sheet = last_sheet(alloc, service)?;
    told.extend_from_slice(sheet.as_slice())?;
    Ok(told)
}

fn wishes_told(
    alloc: Global,
    service: &mut Service<ListKeeper>,
    told: &mut Vec<u8>,
) -> Result<(), Refusal> {
    for (time, minutes) in &WISHES {
        tell(alloc, service, booking(alloc, time, minutes)?, told)?;
    }
    Ok(())
}

fn last_sheet(alloc: Global, service: &mut Service<ListKeeper>) -> Result<Vec<u8>, Refusal> {
    let last = booking(alloc, "16:00", "45")?;
    sheet_after(alloc, service, &last, "oak", "1995-12-18")
}
