//! A file as a question reads it: the database file itself, to which nothing is written, or a copy of its log.

ghost use Rattle.std.specs.Prelude.{◌≡◌, ◌<◌, ◌≤◌, ◌^◌, [], ◌∷◌, length, IfOk};
ghost use Rattle.sqlite_disk.specs.Events.{settled};

use crate::record::Record;
use sqlite_disk::{Calls, is_no_room};
use std::fs::File;
use std::io::{self, ErrorKind};
use std::os::unix::fs::FileExt;

const SETTLED: u64 = 0;

const MEASURED: u64 = 1;

const READ: u64 = 2;

const WRITTEN: u64 = 3;

const CUT: u64 = 4;

const FLUSHED: u64 = 5;

const TESTED: u64 = 6;

const MAX_OFFSET: usize = (1 << 63) - 1;

/// What is read.
#[derive(Drop)]
pub(crate) enum Source {
    /// A file that is open for reads alone. Each write is refused.
    File(File),
    /// Bytes in memory.
    Bytes(Vec<u8>),
}

/// The calls on a source, which are noted with their answers.
#[derive(Drop)]
pub struct Shared {
    source: Source,
    log: Record,
}

impl Shared {
    /// Of a source that nothing has written since it was synced.
    pub(crate) fn settled(source: Source, key: u64) -> Shared
        ensures { result.log.events ≡ settled key ∷ [] }
    {
        let mut log = Record::new();
        log.note(&[SETTLED, key, 0, 1], &[]);
        Shared { source, log }
    }
}

fn measure(source: &Source) -> io::Result<usize> {
    match source {
        Source::File(file) => Ok(file.metadata()?.len() as usize),
        Source::Bytes(bytes) => Ok(bytes.len()),
    }
}

/// As many bytes of these, from there on, as there are.
fn take(bytes: &[u8], at: usize, buf: &mut [u8]) -> usize
    ensures { result ≤ length buf.old }
{
    if at >= bytes.len() {
        return 0;
    }
    let n = buf.len().min(bytes.len() - at);
    buf[..n].copy_from_slice(&bytes[at..at + n]);
    n
}

fn read(source: &Source, at: usize, buf: &mut [u8]) -> io::Result<usize>
    ensures { IfOk result (λ n. (0 < n) × (n ≤ length buf.old) × (at < 2 ^ 63)) }
{
    if at > MAX_OFFSET {
        return Err(ErrorKind::InvalidInput.into());
    }
    let got = match source {
        Source::File(file) => file.read_at(buf, at as u64)?,
        Source::Bytes(bytes) => take(bytes, at, buf),
    };
    if got == 0 {
        Err(ErrorKind::UnexpectedEof.into())
    } else {
        Ok(got)
    }
}

/// Puts the bytes there, and zeros before them where there was nothing.
fn put(held: &mut Vec<u8>, at: usize, bytes: &[u8]) -> io::Result<()> {
    let Some(end) = at.checked_add(bytes.len()) else {
        return Err(ErrorKind::InvalidInput.into());
    };
    if end > held.len() {
        held.resize(end, 0)?;
    }
    held[at..end].copy_from_slice(bytes);
    Ok(())
}

fn write(source: &mut Source, at: usize, bytes: &[u8]) -> io::Result<usize>
    requires { 0 < length bytes.now }
    ensures { IfOk result (λ n. (0 < n) × (n ≤ length bytes.now) × (at < 2 ^ 63)) }
{
    match source {
        Source::Bytes(held) if at <= MAX_OFFSET => {
            put(held, at, bytes)?;
            Ok(bytes.len())
        }
        _ => Err(ErrorKind::PermissionDenied.into()),
    }
}

fn resize(source: &mut Source, len: usize) -> io::Result<()> {
    match source {
        Source::Bytes(held) => {
            held.resize(len, 0)?;
            Ok(())
        }
        Source::File(_) => Err(ErrorKind::PermissionDenied.into()),
    }
}

impl Calls for Shared {
    ghost history = { λ f. f.log.events };

    fn len(&mut self) -> io::Result<usize> {
        let answer = measure(&self.source);
        match answer {
            Ok(n) => self.log.note(&[MEASURED, n as u64, 0, 1], &[]),
            Err(_) => self.log.note(&[MEASURED, 0, 0, 0], &[]),
        }
        answer
    }

    fn read_some(&mut self, at: usize, buf: &mut [u8]) -> io::Result<usize> {
        let (at64, len) = (at as u64, buf.len() as u64);
        let answer = read(&self.source, at, buf);
        match answer {
            Ok(n) => self.log.note(&[READ, at64, len, 1], &buf[..n]),
            Err(_) => self.log.note(&[READ, at64, len, 0], &[]),
        }
        answer
    }

    fn read_under(&mut self, key: u64, want: u64, at: usize, buf: &mut [u8]) -> io::Result<usize> {
        let (at64, len) = (at as u64, buf.len() as u64);
        let answer = read(&self.source, at, buf);
        match answer {
            Ok(n) => self.log.note(&[TESTED, at64, len, 1, key, want], &buf[..n]),
            Err(_) => self.log.note(&[TESTED, at64, len, 0, key, want], &[]),
        }
        answer
    }

    fn write_some(&mut self, at: usize, bytes: &[u8]) -> io::Result<usize> {
        let answer = write(&mut self.source, at, bytes);
        match answer {
            Ok(n) => self.log.note(&[WRITTEN, at as u64, n as u64, 1], bytes),
            Err(error) => self.log.note(
                &[WRITTEN, at as u64, u64::from(is_no_room(&error)), 0],
                bytes,
            ),
        }
        answer
    }

    fn resize(&mut self, len: usize) -> io::Result<()> {
        let answer = resize(&mut self.source, len);
        match answer {
            Ok(()) => self.log.note(&[CUT, len as u64, 0, 1], &[]),
            Err(error) => self
                .log
                .note(&[CUT, len as u64, u64::from(is_no_room(&error)), 0], &[]),
        }
        answer
    }

    /// Nothing is written that would outlast the command.
    fn sync(&mut self) -> io::Result<()> {
        self.log.note(&[FLUSHED, 0, 0, 1], &[]);
        Ok(())
    }
}
