// What the tests are made of: ids, requests, writes, batches and positions of small values. Each function makes one value, and has no
// clause, so that the proof of a test carries none of its parts.

use mr_base::{
    Alternatives, Batch, CommitNumber, Day, Ending, Header, Item, Position, Refusal, Request,
    RoomName, ServerId, Slot, Stamp, Title, Version, Write, WriteId,
};
use std::alloc::Global;

pub(crate) const MONDAY: &str = "1995-12-18";

pub(crate) const TUESDAY: &str = "1995-12-19";

/// A request for one day: its title, its length, the minute of its wish and those of its alternatives.
#[derive(Clone, Copy)]
pub(crate) struct Ask {
    pub title: &'static str,
    pub length: u32,
    pub wish: u32,
    pub others: &'static [u32],
}

/// A line of a batch, in oak on Monday: a booking with its server, its number and its time; a cancel with the same, and the server and the
/// number of what it cancels; or a commit with its number and the write's.
#[derive(Clone, Copy)]
pub(crate) enum Line {
    W(u32, u32, u64, Ask),
    X(u32, u32, u64, u32, u32),
    C(u64, u32, u32),
}

pub(crate) fn server(number: u32) -> Result<ServerId, Refusal> {
    ServerId::new(number).ok_or(Refusal::NotAReplica)
}

pub(crate) fn id(number: u32, n: u32) -> Result<WriteId, Refusal> {
    WriteId::new(server(number)?, n).ok_or(Refusal::NoSuchRequest)
}

pub(crate) fn stamp(number: u32, n: u32, time: u64) -> Result<Stamp, Refusal> {
    Stamp::new(id(number, n)?, time).ok_or(Refusal::ClockExhausted)
}

pub(crate) fn slot(day: &str, start: u32) -> Result<Slot, Refusal> {
    Slot::new(Day::read(day)?, start)
}

/// The slots of a day that start at these minutes.
pub(crate) fn slots(alloc: Global, day: &str, starts: &[u32]) -> Result<Alternatives, Refusal> {
    let mut slots = Vec::new(alloc);
    for start in starts {
        slots.push(slot(day, *start)?)?;
    }
    Ok(Alternatives::from_vec(slots))
}

pub(crate) fn names(alloc: Global, room: &str, title: &str) -> Result<(RoomName, Title), Refusal> {
    let room = RoomName::new(alloc, room)?;
    Ok((room, Title::new(alloc, title)?))
}

/// Puts what was made behind the others. In a loop over small values it leaves nothing that is dropped on a way out but the list.
pub(crate) fn add<T: Drop>(list: &mut Vec<T>, made: Result<T, Refusal>) -> Result<(), Refusal> {
    list.push(made?)?;
    Ok(())
}

/// The request for a room, on a day.
pub(crate) fn request(
    alloc: Global,
    (room, day): (&str, &str),
    ask: Ask,
) -> Result<Request, Refusal> {
    let wish = slot(day, ask.wish)?;
    let others = slots(alloc, day, ask.others)?;
    Request::of_words(alloc, room, ask.title, ask.length, wish, others)
}

/// The write of a request for a room, on a day.
pub(crate) fn booking(
    alloc: Global,
    stamp: Stamp,
    place: (&str, &str),
    ask: Ask,
) -> Result<Write, Refusal> {
    Ok(Write::of_request(stamp, request(alloc, place, ask)?))
}

/// The cancel for a room.
pub(crate) fn cancel(
    alloc: Global,
    stamp: Stamp,
    room: &str,
    target: WriteId,
) -> Result<Write, Refusal> {
    Ok(Write::cancel(stamp, RoomName::new(alloc, room)?, target))
}

fn commit(seq: u64, id: WriteId) -> Result<Item, Refusal> {
    match CommitNumber::new(seq) {
        Some(seq) => Ok(Item::C { seq, id }),
        None => Err(Refusal::NoSuchRequest),
    }
}

fn item(alloc: Global, line: Line) -> Result<Item, Refusal> {
    match line {
        Line::W(number, n, time, ask) => {
            let stamp = stamp(number, n, time)?;
            Ok(Item::W(booking(alloc, stamp, ("oak", MONDAY), ask)?))
        }
        Line::X(number, n, time, of, target) => {
            let (stamp, target) = (stamp(number, n, time)?, id(of, target)?);
            Ok(Item::W(cancel(alloc, stamp, "oak", target)?))
        }
        Line::C(seq, number, n) => commit(seq, id(number, n)?),
    }
}

fn items(alloc: Global, lines: &[Line]) -> Result<Vec<Item>, Refusal> {
    let mut items = Vec::new(alloc);
    for line in lines {
        add(&mut items, item(alloc, *line))?;
    }
    Ok(items)
}

pub(crate) fn header(from: u32, primary: u32) -> Result<Header, Refusal> {
    Ok(Header {
        from: server(from)?,
        primary: server(primary)?,
    })
}

/// The batch that this server made, for the replicas of this primary.
pub(crate) fn batch(
    alloc: Global,
    version: Version,
    (from, primary): (u32, u32),
    lines: &[Line],
    ending: Ending,
) -> Result<Batch, Refusal> {
    let header = header(from, primary)?;
    Batch::new(version, header, items(alloc, lines)?, ending)
}

fn counts(alloc: Global, of: &[(u32, u32)]) -> Result<Vec<(ServerId, u32)>, Refusal> {
    let mut counts = Vec::new(alloc);
    for (number, n) in of {
        counts.push((server(*number)?, *n))?;
    }
    Ok(counts)
}

/// The position of this server, whose primary is 1.
pub(crate) fn position(
    alloc: Global,
    version: Version,
    own: u32,
    commits: u64,
    of: &[(u32, u32)],
) -> Result<Position, Refusal> {
    let (own, primary) = (server(own)?, server(1)?);
    Position::new(version, own, primary, commits, counts(alloc, of)?).ok_or(Refusal::BadPosition)
}
