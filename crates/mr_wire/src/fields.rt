ghost use Rattle.std.specs.Prelude.{◌≡◌, IsTrue, IfSome, option_map};
ghost use Rattle.std.specs.Str.{IsUtf8};
ghost use Rattle.mr_model.specs.Texts.{within};
ghost use Rattle.mr_model.specs.Calendar.{read_date, read_time};
ghost use Rattle.mr_model.specs.Writes.{is_room_name};
ghost use Rattle.mr_wire.specs.Fields.{number_off, stamp_off, front_off, slot_off, slots_off, choices_off, server_and, parse_id, behind_word};
ghost use Rattle.mr_wire.specs.LineAnswers.{GivesRead};

use crate::fault::LineFault;
use crate::words::first_word;
use mr_base::{
    Alternatives, Day, GREATEST_COUNT, GREATEST_SERVER, GREATEST_TIME, ServerId, Slot, Stamp,
    WriteId, is_room_text, read_minute, read_number,
};
use std::alloc::Global;

/// A number from `low` to `high` in front of a space, and what stands behind that.
#[tactic(auto, unfolding(crate::specs::Fields::number_off))]
pub fn number_off(text: &str, low: u64, high: u64) -> Option<(u64, &str)>
    ensures value { option_map (λ x. (x.0, x.1.now)) result ≡ number_off low high text.now }
    ensures in_range { IfSome result (λ x. IsTrue (within low high x.0)) }
{
    let (word, rest) = first_word(text)?;
    let number = read_number(word, low, high)?;
    Some((number, rest))
}

/// A server's number in front of a space.
#[tactic(auto, using(std::proofs::lemmas::Bool::Decides::nat_tests))]
pub(crate) fn server_off(text: &str) -> Option<(ServerId, &str)>
    ensures { option_map (λ x. (x.0, x.1.now)) result ≡ number_off 1 99 text.now }
{
    let (number, rest) = number_off(text, 1, GREATEST_SERVER as u64)?;
    let server = ServerId::new(number as u32)?;
    Some((server, rest))
}

/// A write's stamp, each of its three numbers in front of a space.
#[tactic(auto, using(std::proofs::lemmas::Bool::Decides::nat_tests), unfolding(crate::specs::Fields::stamp_off))]
pub(crate) fn stamp_off(text: &str) -> Option<(Stamp, &str)>
    ensures { option_map (λ x. (x.0, x.1.now)) result ≡ stamp_off text.now }
{
    let Some((server, rest)) = server_off(text) else {
        return None;
    };
    let (n, rest) = number_off(rest, 1, GREATEST_COUNT as u64)?;
    let (time, rest) = number_off(rest, 1, GREATEST_TIME)?;
    Some((
        Stamp {
            server,
            n: n as u32,
            time,
        },
        rest,
    ))
}

/// The stamp and the room of a write, behind the word of its line.
#[tactic(auto, unfolding(crate::specs::Fields::front_off))]
pub(crate) fn front_off(text: &str) -> Option<(Stamp, &str, &str)>
    ensures value { option_map (λ x. (x.0, x.1.now, x.2.now)) result ≡ front_off text.now }
    ensures named { IfSome result (λ x. IsTrue (is_room_name x.1.now)) }
{
    let Some((stamp, rest)) = stamp_off(text) else {
        return None;
    };
    let (room, rest) = first_word(rest)?;
    if !is_room_text(room.as_bytes()) {
        return None;
    }
    Some((stamp, room, rest))
}

fn day_of(word: &str) -> Option<Day>
    ensures { result ≡ read_date word.now }
{
    Day::read(word).ok()
}

fn minute_of(word: &str) -> Option<u32>
    ensures { result ≡ read_time word.now }
{
    read_minute(word).ok()
}

/// A slot: a day and a time, each in front of a space.
#[tactic(auto, unfolding(crate::specs::Fields::slot_off))]
pub(crate) fn slot_off(text: &str) -> Option<(Slot, &str)>
    ensures value { option_map (λ x. (x.0, x.1.now)) result ≡ slot_off text.now }
    ensures utf8 { IfSome result (λ x. IsUtf8 x.1.now) }
{
    let (word, rest) = first_word(text)?;
    let day = day_of(word)?;
    let (word, rest) = first_word(rest)?;
    let start = minute_of(word)?;
    Some((Slot { day, start }, rest))
}

/// So many slots.
pub(crate) fn slots_off(
    alloc: Global,
    count: u64,
    text: &str,
) -> Result<(Alternatives, &str), LineFault>
    ensures { GivesRead (λ x. (x.0, x.1.now)) result (slots_off count text.now) }
{
    let mut slots = Vec::new(alloc);
    let mut rest = text;
    for _ in 0..count {
        match slot_off(rest) {
            Some(taken) => {
                slots.push(taken.0)?;
                rest = taken.1;
            }
            None => return Err(LineFault::NotALine),
        }
    }
    Ok((Alternatives::from_vec(slots), rest))
}

/// The wish, the number of alternatives, of which there may be `most`, and the alternatives; the title stands behind them.
#[tactic(auto, unfolding(crate::specs::Fields::choices_off))]
pub(crate) fn choices_off(
    alloc: Global,
    most: u64,
    text: &str,
) -> Result<((Slot, Alternatives), &str), LineFault>
    ensures { GivesRead (λ x. (x.0, x.1.now)) result (choices_off most text.now) }
{
    let Some((wish, rest)) = slot_off(text) else {
        return Err(LineFault::NotALine);
    };
    let Some((count, rest)) = number_off(rest, 0, most) else {
        return Err(LineFault::NotALine);
    };
    let (alternatives, title) = slots_off(alloc, count, rest)?;
    Ok(((wish, alternatives), title))
}

/// A server in front of a space, and a number up to `high` that ends the line.
#[tactic(auto, unfolding(crate::specs::Fields::server_and))]
pub(crate) fn server_and(text: &str, high: u64) -> Option<(ServerId, u64)>
    ensures value { result ≡ server_and high text.now }
    ensures in_range { IfSome result (λ x. IsTrue (within 1 high x.1)) }
{
    let Some((server, rest)) = server_off(text) else {
        return None;
    };
    let number = read_number(rest, 1, high)?;
    Some((server, number))
}

/// The identity of a write that ends the line.
#[tactic(auto, using(std::proofs::lemmas::Bool::Decides::nat_tests), unfolding(crate::specs::Fields::parse_id))]
pub(crate) fn id_of(text: &str) -> Option<WriteId>
    ensures { result ≡ parse_id text.now }
{
    let (server, n) = server_and(text, GREATEST_COUNT as u64)?;
    Some(WriteId {
        server,
        n: n as u32,
    })
}

/// What stands behind the word and a space, if the text begins with these.
#[tactic(auto, unfolding(crate::specs::Fields::behind_word))]
pub fn behind_word<'a>(word: &str, text: &'a str) -> Option<&'a str>
    ensures { option_map (λ x. x.now) result ≡ behind_word word.now text.now }
{
    match first_word(text) {
        Some((first, rest)) if first == word => Some(rest),
        _ => None,
    }
}
