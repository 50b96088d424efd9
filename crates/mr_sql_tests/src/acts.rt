// What a replica is asked, as commands, and its replies, as texts.

use mr_base::{LineCount, Refusal};
use mr_service::{CalendarPart, Command, Local, Service, SlotWords, Submission, reply_text};
use mr_store::Keeper;
use std::alloc::{AllocError, Global};

pub(crate) const MONDAY: &str = "1995-12-18";

/// A command. If it names no room it is oak, and the day is Monday.
#[derive(Clone, Copy)]
pub(crate) enum Act {
    Room(&'static str),
    /// The length, the wish, the alternatives and the title.
    Book(&'static str, &'static str, &'static [&'static str], &'static str),
    /// The booking with this id is taken back.
    Cancel(&'static str),
    Commit(u64),
    Truncate(u64),
    Position,
    /// A batch for the position of this text, of so many lines at most.
    BatchFor(&'static str, u32),
    /// The batch of this text is received.
    Batch(&'static str),
    /// So many first bytes of it are received.
    Front(&'static str, usize),
    /// Fifty writes of elm and their commits are received.
    Elm,
    /// The same writes without the commits.
    TentativeElm,
    /// What the primary has is pulled over HTTP, where `branch_tests` asks it.
    Pull,
    Sheet,
    Calendar(CalendarPart),
    Outcome(&'static str),
    Errors,
}

fn text(alloc: Global, text: &str) -> Result<String, AllocError> {
    String::from_str(alloc, text)
}

fn on_monday(alloc: Global, time: &str) -> Result<SlotWords, AllocError> {
    let day = text(alloc, MONDAY)?;
    Ok(SlotWords {
        day,
        time: text(alloc, time)?,
    })
}

fn alternatives(alloc: Global, times: &[&str]) -> Result<Vec<SlotWords>, AllocError> {
    let mut slots = Vec::new(alloc);
    for time in times {
        slots.push(on_monday(alloc, time)?)?;
    }
    Ok(slots)
}

fn booking(
    alloc: Global,
    (length, wish, others, title): (&str, &str, &[&str], &str),
) -> Result<Local, AllocError> {
    let alternatives = alternatives(alloc, others)?;
    let wish = on_monday(alloc, wish)?;
    let room = text(alloc, "oak")?;
    let length = text(alloc, length)?;
    Ok(Local::Submit(Submission {
        room,
        title: text(alloc, title)?,
        length,
        wish,
        alternatives,
    }))
}

fn sheet(alloc: Global) -> Result<Local, AllocError> {
    let room = text(alloc, "oak")?;
    Ok(Local::Sheet {
        room,
        day: text(alloc, MONDAY)?,
    })
}

fn outcome(alloc: Global, id: &str) -> Result<Local, AllocError> {
    let room = text(alloc, "oak")?;
    Ok(Local::Outcome {
        room,
        id: text(alloc, id)?,
    })
}

fn calendar(alloc: Global, part: CalendarPart) -> Result<Local, AllocError> {
    let room = text(alloc, "oak")?;
    Ok(Local::Calendar { room, part })
}

fn cancel(alloc: Global, id: &str) -> Result<Local, AllocError> {
    let room = text(alloc, "oak")?;
    Ok(Local::Cancel {
        room,
        id: text(alloc, id)?,
    })
}

/// The command for what a replica lacks that is at this position.
pub(crate) fn batch_for(position: Vec<u8>, lines: u32) -> Result<Local, Refusal> {
    let max_lines = LineCount::new(lines).ok_or(Refusal::BadPosition)?;
    Ok(Local::BatchFor {
        position,
        max_lines,
    })
}

/// Fifty writes of elm for the same slot, each with its commit if there are commits.
fn elm(alloc: Global, has_commits: bool) -> Result<Vec<u8>, AllocError> {
    let mut batch = "mr1 3 1\n".as_bytes().to_vec(alloc)?;
    for i in 1..51 {
        let write = format!(in alloc; "W 3 {i} {i} elm 15 1995-12-18 09:00 0 Elm\n")?;
        batch.extend_from_slice(write.as_bytes())?;
        if has_commits {
            let commit = format!(in alloc; "C {i} 3 {i}\n")?;
            batch.extend_from_slice(commit.as_bytes())?;
        }
    }
    batch.extend_from_slice("E\n".as_bytes())?;
    Ok(batch)
}

/// The command of somebody at the replica; the position if it is none of these.
fn local(alloc: Global, act: Act) -> Result<Local, Refusal> {
    match act {
        Act::Room(name) => Ok(Local::AddRoom(text(alloc, name)?)),
        Act::Book(length, wish, others, title) => {
            Ok(booking(alloc, (length, wish, others, title))?)
        }
        Act::Cancel(id) => Ok(cancel(alloc, id)?),
        Act::Commit(count) => Ok(Local::Commit(count)),
        Act::Truncate(number) => Ok(Local::Truncate(number)),
        Act::BatchFor(position, lines) => batch_for(position.as_bytes().to_vec(alloc)?, lines),
        Act::Sheet => Ok(sheet(alloc)?),
        Act::Calendar(part) => Ok(calendar(alloc, part)?),
        Act::Outcome(id) => Ok(outcome(alloc, id)?),
        Act::Errors => Ok(Local::Errors {
            room: text(alloc, "oak")?,
        }),
        _ => Ok(Local::Position),
    }
}

pub(crate) fn command(alloc: Global, act: Act) -> Result<Command, Refusal> {
    match act {
        Act::Batch(batch) => Ok(Command::Receive(batch.as_bytes().to_vec(alloc)?)),
        Act::Front(batch, size) => {
            let front = batch.get(..size).unwrap_or(batch);
            Ok(Command::Receive(front.as_bytes().to_vec(alloc)?))
        }
        Act::Elm => Ok(Command::Receive(elm(alloc, true)?)),
        Act::TentativeElm => Ok(Command::Receive(elm(alloc, false)?)),
        _ => Ok(Command::Local(local(alloc, act)?)),
    }
}

/// The text of the reply to the command.
pub(crate) fn said<K: Keeper>(
    alloc: Global,
    service: &mut Service<K>,
    act: Act,
) -> Result<Vec<u8>, Refusal> {
    let command = command(alloc, act)?;
    reply_text(alloc, &service.ask(&command))
}

/// What can be seen of oak at a replica, and its position.
static SEEN: [Act; 5] = [
    Act::Sheet,
    Act::Calendar(CalendarPart::Full),
    Act::Calendar(CalendarPart::Committed),
    Act::Errors,
    Act::Position,
];

/// The replies to all questions about oak, and the position.
pub(crate) fn seen<K: Keeper>(alloc: Global, service: &mut Service<K>) -> Result<Vec<u8>, Refusal> {
    let mut texts = Vec::new(alloc);
    for act in &SEEN {
        let text = said(alloc, service, *act)?;
        texts.extend_from_slice(text.as_slice())?;
    }
    Ok(texts)
}
