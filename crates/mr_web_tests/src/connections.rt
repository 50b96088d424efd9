// Readers and writers that go a byte at a time, and fail when they are told to.

use crate::same::same;
use mr_http::WebFault;
use std::alloc::Global;
use std::io::{self, Read, Write};
use std::process::Abort;

/// Gives one byte a read, and fails once `left` reads are over.
#[derive(Drop)]
pub(crate) struct Drip<'a> {
    pub(crate) bytes: &'a [u8],
    pub(crate) left: usize,
}

impl Read for Drip<'_> {
    fn read(&mut self, buf: &mut [u8]) -> io::Result<usize> {
        if self.left == 0 {
            return Err(io::Error::from(io::ErrorKind::Other));
        }
        self.left -= 1;
        let most = buf.len().min(1);
        self.bytes.read(&mut buf[..most])
    }
}

/// Takes `room` bytes, one a write, and then fails.
#[derive(Drop)]
pub(crate) struct Narrow {
    pub(crate) taken: Vec<u8>,
    pub(crate) room: usize,
}

impl Write for Narrow {
    fn write(&mut self, buf: &[u8]) -> io::Result<usize> {
        if self.room == 0 {
            return Err(io::Error::from(io::ErrorKind::Other));
        }
        match buf.first() {
            None => Ok(0),
            Some(byte) => {
                self.room -= 1;
                self.taken.push(*byte)?;
                Ok(1)
            }
        }
    }

    fn flush(&mut self) -> io::Result<()> {
        Ok(())
    }
}

pub(crate) fn writer_of(alloc: Global, room: usize) -> Narrow {
    Narrow {
        taken: Vec::new(alloc),
        room,
    }
}

/// The writer failed, and has the prefix of the whole that it had room for.
pub(crate) fn check_front(
    rt: &impl Abort,
    writer: &Narrow,
    fault: Option<WebFault>,
    whole: &[u8],
    room: usize,
) {
    same(rt, &fault, &Some(WebFault::Write), room);
    same(rt, &Some(writer.taken.as_slice()), &whole.get(..room), room);
}
