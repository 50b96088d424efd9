//! A database that is served over loopback.

ghost use Rattle.std.specs.Prelude.{◌≡◌, ◌⊎◌, IfOk};
ghost use Rattle.std.specs.String.{string_bytes};
ghost use Rattle.std.specs.Io.KnownBytes.{Appends};
ghost use Rattle.mr_model.specs.Texts.{line};
ghost use Rattle.mr_words.specs.CommandOutput.{no_memory_line};
ghost use Rattle.mr_net.specs.Connections.{ServesAt, TellsServed};
ghost use Rattle.mr_net.specs.Printed.{connection_text, serving_line, EndsServing, StopsWithText};

use crate::connections::serve_next;
use crate::databases::{released, remembered};
use crate::printing::say_no_network;
use mr_service::Service;
use mr_sql::SqlKeeper;
use mr_store::{Cached, Keeper};
use mr_words::{DONE, say, say_made, say_refusal};
use std::alloc::{AllocError, Global};
use std::io::Write;
use std::net::{Ipv4Addr, TcpListener};

/// Serves the database to that many connections at the port of this machine alone, one after the other, prints a line for each, and
/// answers the status: 0 if all were served or failed, 1 if the database is refused or there is no memory for a line, 3 if
/// the port can't be had, the next connection can't be taken or the writer fails.
pub fn serve<W: Write>(
    rt: &HostRuntime,
    alloc: Global,
    database: &str,
    port: u16,
    connections: u64,
    out: &mut W,
) -> u8
    ensures { EndsServing port connections (W.contents out.old) (W.contents out.new) result }
{
    match SqlKeeper::open_file(rt, database) {
        Ok(keeper) => {
            let (keeper, status) = serve_keeper(rt, alloc, keeper, port, connections, out);
            keeper.close();
            status
        }
        Err(refusal) => say_refusal(alloc, out, &refusal),
    }
}

/// Serves the replica of this keeper, and gives the keeper back with the status.
fn serve_keeper<K: Keeper, W: Write>(
    rt: &HostRuntime,
    alloc: Global,
    keeper: K,
    port: u16,
    connections: u64,
    out: &mut W,
) -> (K, u8)
    ensures serves { ServesAt ⟦<Cached<K> as Keeper>⟧ keeper result.0 port connections (W.contents out.old) (W.contents out.new) result.1 }
    ensures ends { EndsServing port connections (W.contents out.old) (W.contents out.new) result.1 }
{
    let mut service = remembered(alloc, keeper);
    let status = serve_at(rt, alloc, &mut service, port, connections, out);
    (released(service), status)
}

/// Serves the replica of this service to that many connections, and prints a line for each behind that of the port.
fn serve_at<K: Keeper, W: Write>(
    rt: &HostRuntime,
    alloc: Global,
    service: &mut Service<K>,
    port: u16,
    connections: u64,
    out: &mut W,
) -> u8
    ensures { ServesAt K.Keeper service.old service.new port connections (W.contents out.old) (W.contents out.new) result }
{
    let listener = match TcpListener::bind(rt, (Ipv4Addr::LOCALHOST, port)) {
        Ok(listener) => listener,
        Err(_) => return say_no_network(out),
    };
    let status = say_serving(alloc, out, port);
    if status != DONE {
        return status;
    }
    serve_all(rt, alloc, service, &listener, connections, out)
}

/// Prints at which port the database is served.
fn say_serving<W: Write>(alloc: Global, out: &mut W, port: u16) -> u8
    ensures { ((result ≡ 0) × Appends (W.contents out.old) (W.contents out.new) (serving_line port))
        ⊎ StopsWithText (λ text. text ≡ no_memory_line) (W.contents out.old) (W.contents out.new) result }
{
    say_made(out, serving_text(alloc, port), DONE)
}

fn serving_text(alloc: Global, port: u16) -> Result<String, AllocError>
    ensures { IfOk result (λ text. string_bytes text ≡ serving_line port) }
{
    format!(in alloc; "serving 127.0.0.1:{port}\n")
}

/// Serves that many connections, and prints a line for each. It ends where the next one can't be taken.
fn serve_all<K: Keeper, W: Write>(
    rt: &HostRuntime,
    alloc: Global,
    service: &mut Service<K>,
    listener: &TcpListener,
    connections: u64,
    out: &mut W,
) -> u8
    ensures { TellsServed K.Keeper service.old service.new connections (W.contents out.old) (W.contents out.new) result }
{
    for _ in 0..connections {
        let Ok(served) = serve_next(rt, alloc, service, listener) else {
            return say_no_network(out);
        };
        let status = say_served(alloc, out, served);
        if status != DONE {
            return status;
        }
    }
    DONE
}

/// Prints the status that a connection was answered, or that it failed.
fn say_served<W: Write>(alloc: Global, out: &mut W, served: Option<u16>) -> u8
    ensures { ((result ≡ 0) × Appends (W.contents out.old) (W.contents out.new) (line (connection_text served)))
        ⊎ StopsWithText (λ text. text ≡ no_memory_line) (W.contents out.old) (W.contents out.new) result }
{
    match served {
        Some(status) => say_made(out, status_text(alloc, status), DONE),
        None => say(out, "fault\n", DONE),
    }
}

fn status_text(alloc: Global, status: u16) -> Result<String, AllocError>
    ensures { IfOk result (λ text. string_bytes text ≡ line (connection_text (Some status))) }
{
    format!(in alloc; "{status}\n")
}
