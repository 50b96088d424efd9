ghost use Rattle.std.specs.Prelude.{◌≡◌, IsTrue, IfSome, option_map};
ghost use Rattle.mr_model.specs.Writes.{is_room_name};
ghost use Rattle.mr_model.specs.Exchange.{Second, read_header, read_body_line};
ghost use Rattle.mr_base.specs.Batches.{item_of};
ghost use Rattle.mr_base.specs.Versions.{version_of};
ghost use Rattle.mr_wire.specs.Fields.{booking_with, parse_booking, cancel_parts, parse_cancel, commit_of, heading_of, worded_line, bare_line, parse_line};
ghost use Rattle.mr_wire.specs.Lines.{line_seen, heading_seen};
ghost use Rattle.mr_wire.specs.LineAnswers.{GivesRead};

use crate::fault::LineFault;
use crate::fields::{choices_off, front_off, id_of, number_off};
use crate::versions::{batch_word, most_alternatives, servers_under};
use crate::words::first_word;
use mr_base::{
    Alternatives, CommitNumber, Ending, GREATEST_COMMIT, Header, Item, MINUTES_OF_A_DAY, RoomName,
    Slot, Stamp, Title, Version, Write, WriteId, is_title_text,
};
use std::alloc::Global;

/// The booking of these parts, if they are within the limits.
#[tactic(auto, unfolding(crate::specs::Fields::booking_with))]
fn booking_with(
    alloc: Global,
    stamp: Stamp,
    room: &str,
    length: u32,
    wish: Slot,
    alternatives: Alternatives,
    title: &str,
) -> Result<Write, LineFault>
    requires { IsTrue (is_room_name room.now) }
    ensures { GivesRead (λ w. w) result (booking_with stamp room.now length wish alternatives title.now) }
{
    if !is_title_text(title.as_bytes()) {
        return Err(LineFault::NotALine);
    }
    let room = RoomName::make(alloc, room)?;
    let title = Title::make(alloc, title)?;
    match Write::new(stamp, room, title, length, wish, alternatives) {
        Ok(write) => Ok(write),
        Err(_) => Err(LineFault::NotALine),
    }
}

/// The booking on a line, of which this stands behind the `W` and its space.
#[tactic(auto, using(std::proofs::lemmas::Bool::Decides::nat_tests), unfolding(crate::specs::Fields::parse_booking))]
fn booking_of(alloc: Global, version: Version, text: &str) -> Result<Write, LineFault>
    ensures { GivesRead (λ w. w) result (parse_booking (version_of version) text.now) }
{
    let Some((stamp, room, rest)) = front_off(text) else {
        return Err(LineFault::NotALine);
    };
    let Some((length, rest)) = number_off(rest, 1, MINUTES_OF_A_DAY as u64) else {
        return Err(LineFault::NotALine);
    };
    let most = most_alternatives(version);
    let ((wish, alternatives), title) = choices_off(alloc, most, rest)?;
    booking_with(alloc, stamp, room, length as u32, wish, alternatives, title)
}

/// The stamp, the room and the target of a cancel, of whose line this stands behind the `X` and its space.
#[tactic(auto, unfolding(crate::specs::Fields::cancel_parts))]
fn cancel_parts(text: &str) -> Option<(Stamp, &str, WriteId)>
    ensures value { option_map (λ x. (x.0, x.1.now, x.2)) result ≡ cancel_parts text.now }
    ensures named { IfSome result (λ x. IsTrue (is_room_name x.1.now)) }
{
    let Some((stamp, room, rest)) = front_off(text) else {
        return None;
    };
    let target = id_of(rest)?;
    Some((stamp, room, target))
}

/// The cancel on a line, of which this stands behind the `X` and its space. The first version has none.
fn cancel_of(alloc: Global, version: Version, text: &str) -> Result<Write, LineFault>
    ensures { GivesRead (λ w. w) result (parse_cancel (version_of version) text.now) }
{
    match version {
        Version::First => Err(LineFault::NotALine),
        Version::Second => cancel_on(alloc, text),
    }
}

fn cancel_on(alloc: Global, text: &str) -> Result<Write, LineFault>
    ensures { GivesRead (λ w. w) result (parse_cancel Second text.now) }
{
    let Some((stamp, room, target)) = cancel_parts(text) else {
        return Err(LineFault::NotALine);
    };
    let room = RoomName::make(alloc, room)?;
    Ok(Write::cancel(stamp, room, target))
}

/// The commit on a line, of which this stands behind the `C` and its space.
#[tactic(auto, using(std::proofs::lemmas::Bool::Decides::nat_tests), unfolding(crate::specs::Fields::commit_of))]
fn commit_of(text: &str) -> Option<Item>
    ensures { option_map item_of result ≡ commit_of text.now }
{
    let (seq, rest) = number_off(text, 1, GREATEST_COMMIT)?;
    let seq = CommitNumber::new(seq)?;
    let id = id_of(rest)?;
    Some(Item::C { seq, id })
}

#[tactic(auto, unfolding(crate::specs::Fields::heading_of))]
fn heading_of(text: &str) -> Option<(Version, Header)>
    ensures { heading_seen result ≡ heading_of text.now }
{
    let (first, second) = (batch_word(Version::First), batch_word(Version::Second));
    let (version, from, primary) = servers_under(text, first, second)?;
    Some((version, Header { from, primary }))
}

/// The version of a header line, and its header.
pub(crate) fn read_header(line: &[u8]) -> Option<(Version, Header)>
    ensures { heading_seen result ≡ read_header line.now }
{
    match str::from_utf8(line) {
        Ok(text) => heading_of(text),
        Err(_) => None,
    }
}

/// A line below the header.
#[derive(Debug, Drop)]
pub(crate) enum Line {
    Item(Item),
    Last(Ending),
}

#[tactic(auto, unfolding(crate::specs::Fields::worded_line))]
fn worded_line(alloc: Global, version: Version, word: &str, rest: &str) -> Result<Line, LineFault>
    ensures { GivesRead line_seen result (worded_line (version_of version) word.now rest.now) }
{
    if word == "W" {
        let write = booking_of(alloc, version, rest)?;
        return Ok(Line::Item(Item::W(write)));
    }
    if word == "X" {
        let write = cancel_of(alloc, version, rest)?;
        return Ok(Line::Item(Item::W(write)));
    }
    if word == "C" {
        return match commit_of(rest) {
            Some(commit) => Ok(Line::Item(commit)),
            None => Err(LineFault::NotALine),
        };
    }
    Err(LineFault::NotALine)
}

#[tactic(auto, unfolding(crate::specs::Fields::bare_line))]
fn bare_line(text: &str) -> Result<Line, LineFault>
    ensures { GivesRead line_seen result (bare_line text.now) }
{
    if text == "E" {
        return Ok(Line::Last(Ending::Complete));
    }
    if text == "M" {
        return Ok(Line::Last(Ending::More));
    }
    Err(LineFault::NotALine)
}

fn line_of(alloc: Global, version: Version, text: &str) -> Result<Line, LineFault>
    ensures { GivesRead line_seen result (parse_line (version_of version) text.now) }
{
    match first_word(text) {
        Some((word, rest)) => worded_line(alloc, version, word, rest),
        None => bare_line(text),
    }
}

/// A line below a header of this version: a booking, a cancel, a commit or a last line.
pub(crate) fn read_line(alloc: Global, version: Version, line: &[u8]) -> Result<Line, LineFault>
    ensures { GivesRead line_seen result (read_body_line (version_of version) line.now) }
{
    match str::from_utf8(line) {
        Ok(text) => line_of(alloc, version, text),
        Err(_) => Err(LineFault::NotALine),
    }
}
