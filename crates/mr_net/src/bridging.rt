//! The exchange of two databases of this machine, over one listener on loopback.

ghost use Rattle.std.specs.Prelude.{◌≡◌, IsTrue, Option};
ghost use Rattle.mr_model.specs.Texts.{Text};
ghost use Rattle.mr_model.specs.Serving.{Reaches};
ghost use Rattle.mr_model.specs.Step.{AskPosition};
ghost use Rattle.mr_words.specs.CommandOutput.{no_memory_line};
ghost use Rattle.mr_peer.specs.PeerAsking.{AsksPull, AsksPush, lacking};
ghost use Rattle.mr_peer.specs.Exchanged.{IsExchanged};
ghost use Rattle.mr_peer.specs.OnceAsked.{SendsBatch, SendsPosition};
ghost use Rattle.mr_peer.specs.PeerRequests.{is_host};
ghost use Rattle.mr_net.specs.Bridged.{TellsBridge};
ghost use Rattle.mr_net.specs.Printed.{EndsExchange, StopsWithText};
ghost use Rattle.mr_net.specs.ExchangeRounds.{IsServer, RunsBridged};
ghost use Rattle.mr_net.specs.declared.ways.Way.TheVariants.{Pull, Push};

use crate::connecting::connect;
use crate::connections::serve;
use crate::databases::{released, remembered};
use crate::hosts::Host;
use crate::printing::{exchange_with, say_no_network};
use crate::taking::{take_pull, take_push};
use crate::timed::Timed;
use crate::ways::{Peer, Round, Way};
use mr_base::{Ending, Position};
use mr_http::WebFault;
use mr_peer::{position_ask, position_take, pull_ask, push_ask};
use mr_service::Service;
use mr_sql::SqlKeeper;
use mr_store::{Cached, Keeper};
use mr_words::{NO_MEMORY, REFUSED, say, say_refusal};
use std::alloc::Global;
use std::io::Write;
use std::net::{Ipv4Addr, TcpListener, TcpStream};

/// The address of this machine alone.
const THIS_MACHINE: &str = "127.0.0.1";

/// How many others are sent away, at most, before one end of a connection is given up.
const STRANGERS: u32 = 1_000;

/// Another database of this machine: each request is asked, served and its reply taken in turn.
///
/// So nobody reads while the other end writes: what is written waits in the sockets. That is a batch and a head at most, 26,200 bytes in all
/// (`mr_peer::batch_size_law`, `given`), and loopback takes it at once: by default the end of a connection that is not read takes
/// 64 KiB or more, on Linux and on macOS.
#[derive(Drop)]
struct Neighbour<'a, C: Keeper, S: Keeper> {
    rt: &'a HostRuntime,
    alloc: Global,
    client: Service<C>,
    server: Service<S>,
    listener: TcpListener,
    port: u16,
    host: Host,
}

impl<C: Keeper, S: Keeper> Neighbour<'_, C, S> {
    fn connect(&self) -> Result<TcpStream, WebFault> {
        connect(self.rt, THIS_MACHINE, self.port)
    }

    /// Serves what this client asked. If serving fails, what the client then reads tells so.
    fn serve(&mut self, client: &TcpStream) -> Result<(), WebFault>
        ensures client { self.new.client ≡ self.old.client }
        ensures server { IsServer S.Keeper Pull self.old.server self.new.server }
    {
        let Some(stream) = other_end(&self.listener, client) else {
            return Err(WebFault::Read);
        };
        let _ = serve(self.rt, self.alloc, &mut self.server, &stream);
        Ok(())
    }

    /// What the server has.
    fn position(&mut self) -> Result<Position, WebFault>
        ensures client { self.new.client ≡ self.old.client }
        ensures server { IsServer S.Keeper Pull self.old.server self.new.server }
    {
        let stream = self.connect()?;
        let mut writer = Timed::with_peer(self.rt, &stream);
        position_ask(self.alloc, self.host.as_str(), &mut writer)?;
        self.serve(&stream)?;
        position_take(self.alloc, &mut Timed::with_peer(self.rt, &stream))
    }

    fn pull(&mut self) -> Result<Round, WebFault>
        ensures { RunsBridged C.Keeper S.Keeper Pull (self.old.client, self.old.server) result (self.new.client, self.new.server) }
    {
        let stream = self.connect()?;
        let mut writer = Timed::with_peer(self.rt, &stream);
        ask_pull(
            self.alloc,
            &mut self.client,
            self.host.as_str(),
            &mut writer,
        )?;
        self.serve(&stream)?;
        let mut reader = Timed::with_peer(self.rt, &stream);
        take_pull(self.alloc, &mut self.client, &mut reader)
    }

    fn push(&mut self) -> Result<Round, WebFault>
        ensures { RunsBridged C.Keeper S.Keeper Push (self.old.client, self.old.server) result (self.new.client, self.new.server) }
    {
        let position = self.position()?;
        let stream = self.connect()?;
        let host = self.host.as_str();
        let mut writer = Timed::with_peer(self.rt, &stream);
        let ending = ask_push(self.alloc, &mut self.client, &position, host, &mut writer)?;
        self.serve(&stream)?;
        take_push(self.alloc, ending, &mut Timed::with_peer(self.rt, &stream))
    }
}

/// Asks for what the client's replica lacks over this connection.
fn ask_pull<C: Keeper>(
    alloc: Global,
    client: &mut Service<C>,
    host: &str,
    writer: &mut Timed<'_>,
) -> Result<(), WebFault>
    requires { IsTrue (is_host host.now) }
    ensures { (held holds : Option Text)
        × IsExchanged C.Keeper client.old client.new result (AsksPull host.now held holds) (Reaches (C.tables client.old) AskPosition)
        × SendsPosition C.Keeper client.old client.new host.now held holds result }
{
    pull_ask(alloc, client, host, writer)
}

/// Hands over what a server at this position lacks, over this connection.
fn ask_push<C: Keeper>(
    alloc: Global,
    client: &mut Service<C>,
    position: &Position,
    host: &str,
    writer: &mut Timed<'_>,
) -> Result<Ending, WebFault>
    requires { IsTrue (is_host host.now) }
    ensures { (held holds : Option Text)
        × IsExchanged C.Keeper client.old client.new result (AsksPush position.now host.now held holds) (Reaches (C.tables client.old) (lacking position.now))
        × SendsBatch C.Keeper client.old client.new position.now host.now held holds result }
{
    push_ask(alloc, client, position, host, writer)
}

/// The other end of this connection. Whoever else connects meanwhile is sent away.
fn other_end(listener: &TcpListener, client: &TcpStream) -> Option<TcpStream> {
    let address = client.local_addr().ok()?;
    for _ in 0..STRANGERS {
        let (stream, from) = listener.accept().ok()?;
        if from == address {
            return Some(stream);
        }
    }
    None
}

impl<C: Keeper, S: Keeper> Peer for Neighbour<'_, C, S> {
    ghost use Rattle.mr_net.specs.ExchangeRounds.{RunsBridged};

    ghost runs = { λ way p result q. RunsBridged C.Keeper S.Keeper way (p.client, p.server) result (q.client, q.server) };

    fn round(&mut self, way: Way) -> Result<Round, WebFault> {
        match way {
            Way::Pull => self.pull(),
            Way::Push => self.push(),
        }
    }
}

/// Exchanges the databases, the first as the client, prints a line for each way, and answers the status: 0 if both went to their end, 1
/// if a database or the client's replica refused or the server answered another status than 200, 3 if the network or the
/// writer failed.
pub fn bridge<W: Write>(
    rt: &HostRuntime,
    alloc: Global,
    client: &str,
    server: &str,
    out: &mut W,
) -> u8
    ensures { EndsExchange (W.contents out.old) (W.contents out.new) result }
{
    match SqlKeeper::open_file(rt, client) {
        Ok(keeper) => {
            let (keeper, status) = bridge_to(rt, alloc, keeper, server, out);
            keeper.close();
            status
        }
        Err(refusal) => say_refusal(alloc, out, &refusal),
    }
}

/// Opens the other database, exchanges it with this client's, and gives the client's keeper back with the status.
fn bridge_to<C: Keeper, W: Write>(
    rt: &HostRuntime,
    alloc: Global,
    client: C,
    server: &str,
    out: &mut W,
) -> (C, u8)
    ensures { EndsExchange (W.contents out.old) (W.contents out.new) result.1 }
{
    match SqlKeeper::open_file(rt, server) {
        Ok(keeper) => {
            let (client, keeper, status) = bridge_keepers(rt, alloc, client, keeper, out);
            keeper.close();
            (client, status)
        }
        Err(refusal) => {
            let status = say_refusal(alloc, out, &refusal);
            (client, status)
        }
    }
}

/// Exchanges the replicas of these keepers, and gives both back with the status.
fn bridge_keepers<C: Keeper, S: Keeper, W: Write>(
    rt: &HostRuntime,
    alloc: Global,
    client: C,
    server: S,
    out: &mut W,
) -> (C, S, u8)
    ensures runs { TellsBridge ⟦<Cached<C> as Keeper>⟧ ⟦<Cached<S> as Keeper>⟧ (client, server) (result.0, result.1)
        (W.contents out.old) (W.contents out.new) result.2 }
    ensures ends { EndsExchange (W.contents out.old) (W.contents out.new) result.2 }
{
    let (client, server) = (remembered(alloc, client), remembered(alloc, server));
    let (client, server, status) = bridge_between(rt, alloc, client, server, out);
    (released(client), released(server), status)
}

/// Exchanges the replica of the client with that of the server, and gives both back with the status.
fn bridge_between<C: Keeper, S: Keeper, W: Write>(
    rt: &HostRuntime,
    alloc: Global,
    client: Service<C>,
    server: Service<S>,
    out: &mut W,
) -> (Service<C>, Service<S>, u8)
    ensures runs { TellsBridge C.Keeper S.Keeper (client, server) (result.0, result.1) (W.contents out.old) (W.contents out.new) result.2 }
    ensures ends { EndsExchange (W.contents out.old) (W.contents out.new) result.2 }
{
    let (listener, port, host) = match meeting_place(rt, alloc) {
        Ok(place) => place,
        Err(fault) => {
            let status = say_unmet(out, &fault);
            return (client, server, status);
        }
    };
    let mut peer = Neighbour {
        rt,
        alloc,
        client,
        server,
        listener,
        port,
        host,
    };
    let status = exchange_with(alloc, &mut peer, out);
    (peer.client, peer.server, status)
}

/// A listener at a free port of this machine alone, and how requests name that.
fn meeting_place(rt: &HostRuntime, alloc: Global) -> Result<(TcpListener, u16, Host), WebFault> {
    let Ok(listener) = TcpListener::bind(rt, (Ipv4Addr::LOCALHOST, 0)) else {
        return Err(WebFault::Read);
    };
    let Ok(address) = listener.local_addr() else {
        return Err(WebFault::Read);
    };
    let port = address.port();
    match Host::new(alloc, THIS_MACHINE, port) {
        Ok(Some(host)) => Ok((listener, port, host)),
        Ok(None) => Err(WebFault::Read),
        Err(_) => Err(WebFault::Memory),
    }
}

/// Prints why there is no place to meet.
fn say_unmet<W: Write>(out: &mut W, fault: &WebFault) -> u8
    ensures { StopsWithText (λ text. text ≡ no_memory_line) (W.contents out.old) (W.contents out.new) result }
{
    match fault {
        WebFault::Memory => say(out, NO_MEMORY, REFUSED),
        _ => say_no_network(out),
    }
}
