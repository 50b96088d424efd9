// Texts of numbers, ids and times that are read, and texts near them that aren't.

use crate::same::same;
use crate::shown::is_shown;
use mr_base::{Refusal, TimeOfDay, WriteId, read_minute, read_number};
use std::alloc::{AllocError, Global};
use std::process::Abort;

static NUMBERS: [(&str, u64, u64, Option<u64>); 14] = [
    ("0", 0, 9, Some(0)),
    ("9", 0, 9, Some(9)),
    ("10", 0, 9, None),
    ("0", 1, 99, None),
    ("1", 1, 99, Some(1)),
    ("99", 1, 99, Some(99)),
    ("100", 1, 99, None),
    ("5", 9, 1, None),
    ("999999999999", 1, 999_999_999_999, Some(999_999_999_999)),
    ("1000000000000", 1, 999_999_999_999, None),
    ("18446744073709551615", 0, u64::MAX, Some(u64::MAX)),
    ("18446744073709551616", 0, u64::MAX, None),
    ("18446744073709551617", 0, u64::MAX, None),
    ("99999999999999999999999999", 0, u64::MAX, None),
];

static NO_NUMBERS: [&str; 26] = [
    "", " ", "00", "01", "007", "+1", "-1", "-0", "+", "-", " 1", "1 ", "1 2", "1_000", "1,000",
    "1.0", "1e3", "0x10", "12a", "a12", "１", "١", "1\n", "1\0", "é", "²",
];

#[test]
fn numbers_are_read(rt: HostRuntime) {
    for (text, low, high, want) in &NUMBERS {
        same(&rt, &read_number(text, *low, *high), want, text);
    }
}

#[test]
fn what_is_no_number_is_not_read(rt: HostRuntime) {
    for text in &NO_NUMBERS {
        same(&rt, &read_number(text, 0, u64::MAX), &None, text);
    }
}

static IDS: [(&str, u32, u32); 4] = [
    ("1-1", 1, 1),
    ("7-10", 7, 10),
    ("42-123456789", 42, 123_456_789),
    ("99-999999999", 99, 999_999_999),
];

static NO_IDS: [&str; 31] = [
    "",
    "-",
    "1",
    "1-",
    "-1",
    "0-1",
    "100-1",
    "1-0",
    "1-1000000000",
    "01-1",
    "1-01",
    "1--1",
    "-1-1",
    "1-1-1",
    "1-1-",
    "+1-1",
    "1-+1",
    " 1-1",
    "1 -1",
    "1- 1",
    "1-1 ",
    "1_1",
    "1:1",
    "1\u{2013}1",
    "１-1",
    "1-１",
    "1-1\n",
    "a-1",
    "1-b",
    "18446744073709551617-1",
    "1-18446744073709551617",
];

// Whether the text is read as the id of this server and count, and is how the id is written.
fn is_id(alloc: Global, text: &str, server: u32, n: u32) -> Result<bool, Refusal> {
    let id = WriteId::read(text)?;
    Ok(is_shown(alloc, &id, text)? && id.server.number() == server && id.n == n)
}

#[test]
fn ids_are_read_and_written(rt: HostRuntime) {
    for (text, server, n) in &IDS {
        same(&rt, &is_id(rt.alloc(), text, *server, *n), &Ok(true), text);
    }
}

#[test]
fn what_is_no_id_is_not_read(rt: HostRuntime) {
    for text in &NO_IDS {
        let found = WriteId::read(text);
        same(&rt, &found, &Err(Refusal::NoSuchRequest), text);
    }
}

static NO_TIMES: [&str; 25] = [
    "", ":", "24:00", "23:60", "0:00", "00:0", "000:00", "00:000", "0000", "00-00", "00.00",
    "00:00 ", " 0:00", "00: 0", "+0:00", "-0:00", "00:+0", "0a:00", "00:a0", "é:00", "00:é", "０:0",
    "00：0", "12:5\0", "12:3\n",
];

/// An hour and a minute.
type Clock = (u32, u32);

fn text_of(alloc: Global, (hour, minute): Clock) -> Result<String, AllocError> {
    format!(in alloc; "{}{}:{}{}", hour / 10, hour % 10, minute / 10, minute % 10)
}

// What is read of the text of an hour and a minute, and whether that text is how the time is written, the end of the day
// standing for all that is past it.
fn minute_of(
    alloc: Global,
    clock: Clock,
    time: u32,
) -> Result<(Result<u32, Refusal>, bool), Refusal> {
    let text = text_of(alloc, clock)?;
    let is_shown = is_shown(alloc, &TimeOfDay::new(time.min(1440)), text.as_str())?;
    Ok((read_minute(text.as_str()), is_shown))
}

fn wanted((hour, minute): Clock, time: u32) -> (Result<u32, Refusal>, bool) {
    if hour < 24 && minute < 60 {
        (Ok(time), true)
    } else {
        (Err(Refusal::BadTime), hour == 24 && minute == 0)
    }
}

// Each minute that two digits write is read so.
fn check_hour(rt: &impl Abort, alloc: Global, hour: u32) {
    for minute in 0..100u32 {
        let (clock, time) = ((hour, minute), 60 * hour.min(99) + minute);
        same(
            rt,
            &minute_of(alloc, clock, time),
            &Ok(wanted(clock, time)),
            clock,
        );
    }
}

#[test]
fn times_are_read_and_written(rt: HostRuntime) {
    for hour in 0..100u32 {
        check_hour(&rt, rt.alloc(), hour);
    }
}

#[test]
fn what_is_no_time_is_not_read(rt: HostRuntime) {
    for text in &NO_TIMES {
        same(&rt, &read_minute(text), &Err(Refusal::BadTime), text);
    }
}
