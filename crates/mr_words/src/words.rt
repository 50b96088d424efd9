//! Single words of a command line.

ghost use Rattle.std.specs.Prelude.{◌≡◌, IfOk, MatchOption, Some, None, map};
ghost use Rattle.mr_service.specs.Asked.{part_seen, words_of};
ghost use Rattle.mr_words.specs.CommandTable.{server_in, commit_number_in, line_count_in, port_in, connections_in, part_in, slot_in_word};

use mr_base::{GREATEST_COMMIT, GREATEST_SERVER, LineCount, MOST_LINES, ServerId, read_number};
use mr_service::{CalendarPart, SlotWords};
use std::alloc::{AllocError, Global};

/// The server with the number that the word writes.
pub fn read_server(word: &str) -> Option<ServerId>
    ensures { result ≡ server_in word.now }
{
    let number = read_number(word, 1, GREATEST_SERVER as u64)?;
    ServerId::new(number as u32)
}

/// How many writes to commit, or up to which commit to drop: from 0 to 999,999,999,999.
pub fn read_count(word: &str) -> Option<u64>
    ensures { result ≡ commit_number_in word.now }
{
    read_number(word, 0, GREATEST_COMMIT)
}

/// The number of lines that the word writes.
pub fn read_line_count(word: &str) -> Option<LineCount>
    ensures { result ≡ line_count_in word.now }
{
    let number = read_number(word, 1, MOST_LINES as u64)?;
    LineCount::new(number as u32)
}

/// The port with the number that the word writes.
pub(crate) fn read_port(word: &str) -> Option<u16>
    ensures { result ≡ port_in word.now }
{
    let number = read_number(word, 1, 65_535)?;
    Some(number as u16)
}

/// The number of connections that the word writes.
pub(crate) fn read_connections(word: &str) -> Option<u64>
    ensures { result ≡ connections_in word.now }
{
    read_number(word, 0, 999_999_999)
}

/// The part of a calendar that the word names.
pub(crate) fn read_part(word: &str) -> Option<CalendarPart>
    ensures { MatchOption result (part_in word.now ≡ None) (λ part. part_in word.now ≡ Some (part_seen part)) }
{
    match word {
        "full" => Some(CalendarPart::Full),
        "committed" => Some(CalendarPart::Committed),
        _ => None,
    }
}

/// The day before the first `T` of the word, and the time behind it. Without a `T` the time is empty.
fn slot(alloc: Global, word: &str) -> Result<SlotWords, AllocError>
    ensures { IfOk result (λ slot. words_of slot ≡ slot_in_word word.now) }
{
    let (day, time) = word.split_once('T').unwrap_or((word, ""));
    Ok(SlotWords {
        day: String::from_str(alloc, day)?,
        time: String::from_str(alloc, time)?,
    })
}

/// The slot of each word.
pub(crate) fn slots(alloc: Global, words: &[&str]) -> Result<Vec<SlotWords>, AllocError>
    ensures { IfOk result (λ slots. map words_of slots.items ≡ map slot_in_word (map (λ w. w.now) words.now)) }
{
    let mut slots = Vec::new(alloc);
    for word in words {
        slots.push(slot(alloc, word)?)?;
    }
    Ok(slots)
}
