//! How long the other end of a connection is waited for.

ghost use Rattle.std.specs.Prelude.{◌≡◌, ◌-◌, ◌*◌, ◌<◌, ◌≤◌, None, IfOk, IfSome, OnOk};
ghost use Rattle.std.specs.Duration.{as_nanos};
ghost use Rattle.std.specs.Io.{ReadsAtMost, WritesAtMost};
ghost use Rattle.std.specs.Time.{instant_nanos};

use std::io::{self, ErrorKind, Read, Write};
use std::net::TcpStream;
use std::time::{Duration, Instant};

/// How many seconds a caller has in all to send a request, with what follows it, and how many to take the reply. So nobody who is
/// silent, or sends or takes a byte now and then, keeps the others waiting for long.
const PATIENCE_WITH_CALLERS: u64 = 10;

/// How many seconds a peer has in all to take a request, and how many to send its reply: it serves one connection after the other,
/// each for a while, and a reply is up to 1 MiB.
const PATIENCE_WITH_PEERS: u64 = 300;

/// How often a read or a write is tried that signals break off. Each time the program was stopped and went on is one of them.
const GREATEST_TRIES: u32 = 100_000;

/// One direction of a connection: all its reads together, or all its writes, have so many seconds, by the clock of this machine.
#[derive(Drop)]
pub(crate) struct Timed<'a> {
    rt: &'a HostRuntime,
    stream: &'a TcpStream,
    seconds: u64,
    /// When it was first waited for.
    since: Option<Instant>,
}

/// What is left of so many seconds that began then.
fn time_left(seconds: u64, since: Instant, now: Instant) -> Duration
    ensures { as_nanos result ≡ seconds * 1_000_000_000 - (instant_nanos now - instant_nanos since) }
{
    Duration::from_secs(seconds).saturating_sub(now.duration_since(since))
}

/// Whether a signal broke the call off. A socket whose waiting is limited doesn't go on by itself once a program that was stopped does.
fn is_interrupted(error: &io::Error) -> bool {
    error.kind() == ErrorKind::Interrupted
}

impl<'a> Timed<'a> {
    /// This connection of a caller, whose seconds begin with the first read or write.
    pub(crate) fn with_caller(rt: &'a HostRuntime, stream: &'a TcpStream) -> Timed<'a>
        ensures seconds { result.seconds ≡ 10 }
        ensures unbegun { result.since ≡ None }
    {
        Timed {
            rt,
            stream,
            seconds: PATIENCE_WITH_CALLERS,
            since: None,
        }
    }

    /// The same to a peer.
    pub(crate) fn with_peer(rt: &'a HostRuntime, stream: &'a TcpStream) -> Timed<'a>
        ensures seconds { result.seconds ≡ 300 }
        ensures unbegun { result.since ≡ None }
    {
        Timed {
            rt,
            stream,
            seconds: PATIENCE_WITH_PEERS,
            since: None,
        }
    }

    /// How long it may still be waited for. It fails if that time is over, or if the clock can't be read.
    fn left(&mut self) -> io::Result<Duration>
        ensures begun { IfSome self.old.since (λ since. OnOk result (self.new.since ≡ Some since)) }
        ensures same { self.new.seconds ≡ self.old.seconds }
        ensures within { IfOk result (λ left. 0 < as_nanos left × as_nanos left ≤ self.old.seconds * 1_000_000_000) }
    {
        let now = Instant::now(self.rt)?;
        let since = self.since.unwrap_or(now);
        self.since = Some(since);
        let left = time_left(self.seconds, since, now);
        if left.is_zero() {
            return Err(io::Error::from(ErrorKind::TimedOut));
        }
        Ok(left)
    }

    fn read_once(&mut self, buf: &mut [u8]) -> io::Result<usize>
        ensures { ReadsAtMost result buf.new }
    {
        let left = self.left()?;
        self.stream.set_read_timeout(Some(left))?;
        let mut stream = self.stream;
        stream.read(buf)
    }

    fn write_once(&mut self, buf: &[u8]) -> io::Result<usize>
        ensures { WritesAtMost result buf.now }
    {
        let left = self.left()?;
        self.stream.set_write_timeout(Some(left))?;
        let mut stream = self.stream;
        stream.write(buf)
    }
}

impl Read for Timed<'_> {
    fn read(&mut self, buf: &mut [u8]) -> io::Result<usize> {
        for _ in 0..GREATEST_TRIES {
            match self.read_once(buf) {
                Ok(count) => return Ok(count),
                Err(error) => {
                    if !is_interrupted(&error) {
                        return Err(error);
                    }
                }
            }
        }
        Err(io::Error::from(ErrorKind::TimedOut))
    }
}

impl Write for Timed<'_> {
    fn write(&mut self, buf: &[u8]) -> io::Result<usize> {
        for _ in 0..GREATEST_TRIES {
            match self.write_once(buf) {
                Ok(count) => return Ok(count),
                Err(error) => {
                    if !is_interrupted(&error) {
                        return Err(error);
                    }
                }
            }
        }
        Err(io::Error::from(ErrorKind::TimedOut))
    }

    fn flush(&mut self) -> io::Result<()> {
        Ok(())
    }
}
