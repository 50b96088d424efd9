//! The commands to a replica, read from the words behind the database, or behind the replica's number in a script.

ghost use Rattle.std.specs.Prelude.{◌≡◌, IfOk, MatchOption, Some, None, map};
ghost use Rattle.mr_service.specs.Asked.{local_of};
ghost use Rattle.mr_words.specs.CommandTable.{add_room_asked, booking_asked, cancel_asked, commit_asked, truncation_asked, position_asked, sheet_asked, calendar_asked, outcome_asked, errors_asked, in_row, shared_commands, commands};

use crate::names::{
    ADD_ROOM, BOOK, CALENDAR, CANCEL, COMMIT, ERRORS, OUTCOME, POSITION, SHEET, TRUNCATE,
};
use crate::words::{read_count, read_part, slots};
use mr_service::{Local, SlotWords, Submission};
use std::alloc::{AllocError, Global};

/// The command of the row of this name, if these words fit it.
pub(crate) fn command(
    alloc: Global,
    name: &str,
    words: &[&str],
) -> Result<Option<Local>, AllocError>
    ensures { IfOk result (λ found. MatchOption found (in_row commands name.now (map (λ w. w.now) words.now) ≡ None)
        (λ local. in_row commands name.now (map (λ w. w.now) words.now) ≡ Some (local_of local))) }
{
    match name {
        ADD_ROOM => add_room(alloc, words),
        BOOK => booking(alloc, words),
        _ => shared_command(alloc, name, words),
    }
}

/// The command of the row of this name, one whose words are the same in a command line and in a script, if these words fit it.
pub fn shared_command(
    alloc: Global,
    name: &str,
    words: &[&str],
) -> Result<Option<Local>, AllocError>
    ensures { IfOk result (λ found. MatchOption found (in_row shared_commands name.now (map (λ w. w.now) words.now) ≡ None)
        (λ local. in_row shared_commands name.now (map (λ w. w.now) words.now) ≡ Some (local_of local))) }
{
    match name {
        CANCEL => cancel(alloc, words),
        COMMIT => Ok(commit(words)),
        TRUNCATE => Ok(truncation(words)),
        POSITION => Ok(position(words)),
        SHEET => sheet(alloc, words),
        CALENDAR => calendar(alloc, words),
        OUTCOME => outcome(alloc, words),
        ERRORS => errors(alloc, words),
        _ => Ok(None),
    }
}

/// To add the room that these words name.
pub fn add_room(alloc: Global, words: &[&str]) -> Result<Option<Local>, AllocError>
    ensures { IfOk result (λ found. MatchOption found (add_room_asked (map (λ w. w.now) words.now) ≡ None)
        (λ local. add_room_asked (map (λ w. w.now) words.now) ≡ Some (local_of local))) }
{
    let [room] = words else {
        return Ok(None);
    };
    Ok(Some(Local::AddRoom(String::from_str(alloc, room)?)))
}

fn booking(alloc: Global, words: &[&str]) -> Result<Option<Local>, AllocError>
    ensures { IfOk result (λ found. MatchOption found (booking_asked (map (λ w. w.now) words.now) ≡ None)
        (λ local. booking_asked (map (λ w. w.now) words.now) ≡ Some (local_of local))) }
{
    let [room, length, day, time, title, alternatives @ ..] = words else {
        return Ok(None);
    };
    Ok(Some(Local::Submit(Submission {
        room: String::from_str(alloc, room)?,
        title: String::from_str(alloc, title)?,
        length: String::from_str(alloc, length)?,
        wish: SlotWords {
            day: String::from_str(alloc, day)?,
            time: String::from_str(alloc, time)?,
        },
        alternatives: slots(alloc, alternatives)?,
    })))
}

fn cancel(alloc: Global, words: &[&str]) -> Result<Option<Local>, AllocError>
    ensures { IfOk result (λ found. MatchOption found (cancel_asked (map (λ w. w.now) words.now) ≡ None)
        (λ local. cancel_asked (map (λ w. w.now) words.now) ≡ Some (local_of local))) }
{
    let [room, id] = words else {
        return Ok(None);
    };
    Ok(Some(Local::Cancel {
        room: String::from_str(alloc, room)?,
        id: String::from_str(alloc, id)?,
    }))
}

fn commit(words: &[&str]) -> Option<Local>
    ensures { MatchOption result (commit_asked (map (λ w. w.now) words.now) ≡ None)
        (λ local. commit_asked (map (λ w. w.now) words.now) ≡ Some (local_of local)) }
{
    let [count] = words else {
        return None;
    };
    let count = read_count(count)?;
    Some(Local::Commit(count))
}

fn truncation(words: &[&str]) -> Option<Local>
    ensures { MatchOption result (truncation_asked (map (λ w. w.now) words.now) ≡ None)
        (λ local. truncation_asked (map (λ w. w.now) words.now) ≡ Some (local_of local)) }
{
    let [count] = words else {
        return None;
    };
    let count = read_count(count)?;
    Some(Local::Truncate(count))
}

fn position(words: &[&str]) -> Option<Local>
    ensures { MatchOption result (position_asked (map (λ w. w.now) words.now) ≡ None)
        (λ local. position_asked (map (λ w. w.now) words.now) ≡ Some (local_of local)) }
{
    match words {
        [] => Some(Local::Position),
        _ => None,
    }
}

fn sheet(alloc: Global, words: &[&str]) -> Result<Option<Local>, AllocError>
    ensures { IfOk result (λ found. MatchOption found (sheet_asked (map (λ w. w.now) words.now) ≡ None)
        (λ local. sheet_asked (map (λ w. w.now) words.now) ≡ Some (local_of local))) }
{
    let [room, day] = words else {
        return Ok(None);
    };
    Ok(Some(Local::Sheet {
        room: String::from_str(alloc, room)?,
        day: String::from_str(alloc, day)?,
    }))
}

fn calendar(alloc: Global, words: &[&str]) -> Result<Option<Local>, AllocError>
    ensures { IfOk result (λ found. MatchOption found (calendar_asked (map (λ w. w.now) words.now) ≡ None)
        (λ local. calendar_asked (map (λ w. w.now) words.now) ≡ Some (local_of local))) }
{
    let [room, part] = words else {
        return Ok(None);
    };
    let Some(part) = read_part(part) else {
        return Ok(None);
    };
    let room = String::from_str(alloc, room)?;
    Ok(Some(Local::Calendar { room, part }))
}

fn outcome(alloc: Global, words: &[&str]) -> Result<Option<Local>, AllocError>
    ensures { IfOk result (λ found. MatchOption found (outcome_asked (map (λ w. w.now) words.now) ≡ None)
        (λ local. outcome_asked (map (λ w. w.now) words.now) ≡ Some (local_of local))) }
{
    let [room, id] = words else {
        return Ok(None);
    };
    Ok(Some(Local::Outcome {
        room: String::from_str(alloc, room)?,
        id: String::from_str(alloc, id)?,
    }))
}

fn errors(alloc: Global, words: &[&str]) -> Result<Option<Local>, AllocError>
    ensures { IfOk result (λ found. MatchOption found (errors_asked (map (λ w. w.now) words.now) ≡ None)
        (λ local. errors_asked (map (λ w. w.now) words.now) ≡ Some (local_of local))) }
{
    let [room] = words else {
        return Ok(None);
    };
    let room = String::from_str(alloc, room)?;
    Ok(Some(Local::Errors { room }))
}
