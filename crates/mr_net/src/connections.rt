//! A connection to a served database, and how it ends.

ghost use Rattle.std.specs.Prelude.{◌≡◌, IfOk, OnErr};
ghost use Rattle.mr_net.specs.Connections.{IsConnection, IsServedOver};

use crate::timed::Timed;
use mr_service::Service;
use mr_store::Keeper;
use mr_web::serve_one;
use std::alloc::Global;
use std::io::{self, Read, Write};
use std::net::{Shutdown, TcpListener, TcpStream};

/// How often the rest of a request is read from, at most 4,096 bytes a time.
const GREATEST_REST: u32 = 512;

/// Serves the next connection, and answers the status of its reply, or None if it failed. It is an error if none can be taken.
pub(crate) fn serve_next<K: Keeper>(
    rt: &HostRuntime,
    alloc: Global,
    service: &mut Service<K>,
    listener: &TcpListener,
) -> io::Result<Option<u16>>
    ensures came { IfOk result (λ served. IsConnection K.Keeper service.old served service.new) }
    ensures unasked { OnErr result (service.new ≡ service.old) }
{
    let (stream, _) = listener.accept()?;
    let mut reader = Timed::with_caller(rt, &stream);
    let mut writer = Timed::with_caller(rt, &stream);
    let served = serve_over(alloc, service, &mut reader, &mut writer);
    if let Some(status) = served {
        end(&stream, &mut reader, status);
    }
    Ok(served)
}

/// Serves the one request of a connection, and answers the status of its reply, or None if that failed.
pub(crate) fn serve<K: Keeper>(
    rt: &HostRuntime,
    alloc: Global,
    service: &mut Service<K>,
    stream: &TcpStream,
) -> Option<u16>
    ensures { IsConnection K.Keeper service.old result service.new }
{
    let mut reader = Timed::with_caller(rt, stream);
    let mut writer = Timed::with_caller(rt, stream);
    serve_over(alloc, service, &mut reader, &mut writer)
}

/// Serves the one request of this reader, and answers the status of the reply that was written, or None if that failed.
fn serve_over<R: Read, W: Write, K: Keeper>(
    alloc: Global,
    service: &mut Service<K>,
    reader: &mut R,
    writer: &mut W,
) -> Option<u16>
    ensures { IsServedOver K.Keeper service.old (R.remaining reader.old) (W.contents writer.old) (W.contents writer.new) result service.new }
{
    serve_one(alloc, reader, writer, service).ok()
}

/// Ends a connection so that its reply arrives: a system that closes it while bytes wait unread, as those of a body that is too large,
/// takes back what it sent. They are waited for within what is left of the seconds for the request; and not at all behind a
/// whole request, if none has come.
fn end(stream: &TcpStream, reader: &mut Timed<'_>, status: u16) {
    if stream.shutdown(Shutdown::Write).is_err() {
        return;
    }
    if is_whole(status) && !has_more(stream) {
        return;
    }
    let mut rest = [0; 4096];
    for _ in 0..GREATEST_REST {
        match reader.read(&mut rest) {
            Ok(0) | Err(_) => return,
            Ok(_) => {}
        }
    }
}

/// Whether the request that is answered this status was read to its end, as each that the replica was asked.
fn is_whole(status: u16) -> bool {
    matches!(status, 200 | 409 | 503)
}

/// Whether bytes have come that weren't read.
fn has_more(stream: &TcpStream) -> bool {
    if stream.set_nonblocking(true).is_err() {
        return true;
    }
    let come = stream.peek(&mut [0]);
    stream.set_nonblocking(false).is_err() || come.is_ok_and(|count| count > 0)
}
