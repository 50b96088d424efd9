// Readers and writers that fail, and what no socket brings. Heads and lengths are asked of the program (tests/http/heads, tests/hostile/peers.py).

use crate::connections::{Drip, check_front, writer_of};
use crate::same::same;
use httparse::Header;
use mr_http::{ReadFault, WebFault, body_length, fill_to, read_request_head, send};
use std::alloc::Global;
use std::process::Abort;

// A length with a space behind it, which no head gives: its fields end without one.
#[test]
fn a_length_is_of_figures_alone(rt: HostRuntime) {
    let fields = [Header {
        name: "Content-Length",
        value: b"1 ",
    }];
    same(&rt, &body_length(true, &fields), &None, "the length");
}

const MESSAGE: &[u8] = b"POST / HTTP/1.1\r\n\r\nbody";

fn read_whole(alloc: Global, left: usize) -> Result<usize, ReadFault> {
    let mut reader = Drip {
        bytes: MESSAGE,
        left,
    };
    let mut buffer = Vec::new(alloc);
    let start = read_request_head(&mut reader, &mut buffer)?.unwrap_or(0);
    fill_to(&mut reader, &mut buffer, start + 4)?;
    Ok(buffer.len())
}

// One byte a read is enough, and a read that fails is reported.
#[test]
fn drips(rt: HostRuntime) {
    let alloc = rt.alloc();
    let whole = MESSAGE.len();
    for left in 0..whole {
        same(&rt, &read_whole(alloc, left), &Err(ReadFault::Read), left);
    }
    same(&rt, &read_whole(alloc, whole), &Ok(whole), whole);
}

fn check_narrow(rt: &impl Abort, alloc: Global, room: usize) {
    let mut writer = writer_of(alloc, room);
    let sent = send(&mut writer, MESSAGE);
    check_front(rt, &writer, sent.err(), MESSAGE, room);
}

// A write that fails leaves a prefix.
#[test]
fn narrow_writers(rt: HostRuntime) {
    for room in 0..MESSAGE.len() {
        check_narrow(&rt, rt.alloc(), room);
    }
}

#[test]
fn faults_are_told(rt: HostRuntime) {
    let text = format!(in rt.alloc(); "{}", WebFault::Peer(404)).expect(&rt, "memory");
    same(&rt, &text.as_str(), &"the peer answered 404", "the text");
}
