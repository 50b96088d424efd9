//! The exchange of a database with a peer at an address.

ghost use Rattle.std.specs.Prelude.{◌≡◌, ℕ, false, IfErr, IsTrue};
ghost use Rattle.mr_model.specs.Texts.{Text};
ghost use Rattle.mr_http.specs.declared.faults.WebFault.TheVariants.{Read as fault_read};
ghost use Rattle.mr_peer.specs.PeerRequests.{is_host};
ghost use Rattle.mr_net.specs.Hosts.{host_name, IsPeer};
ghost use Rattle.mr_net.specs.Printed.{EndsExchange, TellsBadAddress, TellsBoth};
ghost use Rattle.mr_net.specs.ExchangeRounds.{RunsRound};
ghost use Rattle.mr_net.specs.SentRequests.{PullsOver, PushesOver};
ghost use Rattle.mr_net.specs.declared.ways.Way.TheVariants.{Pull, Push};

use crate::connecting::connect;
use crate::databases::{released, remembered};
use crate::hosts::Host;
use crate::printing::exchange_with;
use crate::taking::{take_pull, take_push};
use crate::timed::Timed;
use crate::ways::{Peer, Round, Way};
use mr_base::{Ending, Position};
use mr_http::{WebFault, send};
use mr_peer::{position_ask, position_take, pull_ask, push_ask};
use mr_service::Service;
use mr_sql::SqlKeeper;
use mr_store::{Cached, Keeper};
use mr_words::{AddressFault, BAD_WORDS, NO_MEMORY, REFUSED, peer_address, say, say_refusal};
use std::alloc::Global;
use std::io::{Read, Write};
use std::net::TcpStream;

/// Where a peer is to be reached, and how requests name it.
#[derive(Drop)]
struct Address<'a> {
    name: &'a str,
    port: u16,
    host: Host,
}

/// A peer at an address, which is asked over one connection a request, and the replica that exchanges with it.
///
/// Each request is made whole before its connection is opened: if this replica refuses to make one, the peer isn't called, and it
/// doesn't wait while one is made.
#[derive(Drop)]
struct Remote<'a, K: Keeper> {
    rt: &'a HostRuntime,
    alloc: Global,
    service: Service<K>,
    address: &'a Address<'a>,
}

impl<K: Keeper> Remote<'_, K> {
    fn connect(&self) -> Result<TcpStream, WebFault>
        ensures { IfErr result (λ e. e ≡ fault_read) }
    {
        connect(self.rt, self.address.name, self.address.port)
    }

    /// What the peer has. Its connection has ended when this returns: the peer serves no other one before.
    fn position(&self) -> Result<Position, WebFault> {
        let mut request = Vec::new(self.alloc);
        position_ask(self.alloc, self.address.host.as_str(), &mut request)?;
        let stream = self.connect()?;
        send(&mut Timed::with_peer(self.rt, &stream), request.as_slice())?;
        position_take(self.alloc, &mut Timed::with_peer(self.rt, &stream))
    }

    fn pull(&mut self) -> Result<Round, WebFault>
        ensures { RunsRound K.Keeper Pull self.old.service result self.new.service }
    {
        let mut request = Vec::new(self.alloc);
        let host = self.address.host.as_str();
        pull_ask(self.alloc, &mut self.service, host, &mut request)?;
        let stream = self.connect()?;
        pull_over(
            self.alloc,
            &mut self.service,
            request.as_slice(),
            &mut Timed::with_peer(self.rt, &stream),
            &mut Timed::with_peer(self.rt, &stream),
        )
    }

    fn push(&mut self) -> Result<Round, WebFault>
        ensures { RunsRound K.Keeper Push self.old.service result self.new.service }
    {
        let position = self.position()?;
        let mut request = Vec::new(self.alloc);
        let host = self.address.host.as_str();
        let ending = push_ask(self.alloc, &mut self.service, &position, host, &mut request)?;
        let stream = self.connect()?;
        push_over(
            self.alloc,
            request.as_slice(),
            ending,
            &mut Timed::with_peer(self.rt, &stream),
            &mut Timed::with_peer(self.rt, &stream),
        )
    }
}

/// Sends the request of a pull over a connection, and takes the reply.
fn pull_over<K: Keeper, R: Read, W: Write>(
    alloc: Global,
    service: &mut Service<K>,
    request: &[u8],
    reader: &mut R,
    writer: &mut W,
) -> Result<Round, WebFault>
    ensures { PullsOver K.Keeper service.old service.new request.now (W.contents writer.old) (W.contents writer.new) (R.remaining reader.old) result }
{
    send(writer, request)?;
    take_pull(alloc, service, reader)
}

/// Sends the request of a push, whose batch ends so, over a connection, and takes the reply.
fn push_over<R: Read, W: Write>(
    alloc: Global,
    request: &[u8],
    ending: Ending,
    reader: &mut R,
    writer: &mut W,
) -> Result<Round, WebFault>
    ensures { PushesOver request.now ending (W.contents writer.old) (W.contents writer.new) (R.remaining reader.old) result }
{
    send(writer, request)?;
    take_push(alloc, ending, reader)
}

impl<K: Keeper> Peer for Remote<'_, K> {
    ghost use Rattle.mr_net.specs.ExchangeRounds.{RunsRound};

    // of the replica here alone: a socket tells nothing of what it gives
    ghost runs = { λ way p result q. RunsRound K.Keeper way p.service result q.service };

    fn round(&mut self, way: Way) -> Result<Round, WebFault> {
        match way {
            Way::Pull => self.pull(),
            Way::Push => self.push(),
        }
    }
}

/// Exchanges the database with the peer at the address, prints a line for each way, and answers the status: 0 if both went to their
/// end, 1 if the database, its replica or the peer refused, 2 if the address is none, 3 if the network or the writer failed.
pub fn exchange<W: Write>(
    rt: &HostRuntime,
    alloc: Global,
    database: &str,
    address: &str,
    out: &mut W,
) -> u8
    ensures asked { (host : Text) (port : ℕ) → IsPeer address.now host port → EndsExchange (W.contents out.old) (W.contents out.new) result }
    ensures bad { ((host : Text) (port : ℕ) → ¬ IsPeer address.now host port) → TellsBadAddress (W.contents out.old) (W.contents out.new) result }
{
    match peer_address(alloc, address) {
        Ok((name, port)) => exchange_at(rt, alloc, database, name.as_str(), port, out),
        Err(AddressFault::Bad) => say(out, "bad address\n", BAD_WORDS),
        Err(AddressFault::Memory) => say(out, NO_MEMORY, REFUSED),
    }
}

fn exchange_at<W: Write>(
    rt: &HostRuntime,
    alloc: Global,
    database: &str,
    name: &str,
    port: u16,
    out: &mut W,
) -> u8
    ensures named { IsTrue (is_host (host_name name.now port)) → EndsExchange (W.contents out.old) (W.contents out.new) result }
    ensures unnamed { is_host (host_name name.now port) ≡ false → TellsBadAddress (W.contents out.old) (W.contents out.new) result }
{
    match Host::new(alloc, name, port) {
        Ok(Some(host)) => exchange_from(rt, alloc, database, &Address { name, port, host }, out),
        Ok(None) => say(out, "bad address\n", BAD_WORDS),
        Err(_) => say(out, NO_MEMORY, REFUSED),
    }
}

fn exchange_from<W: Write>(
    rt: &HostRuntime,
    alloc: Global,
    database: &str,
    address: &Address<'_>,
    out: &mut W,
) -> u8
    ensures { EndsExchange (W.contents out.old) (W.contents out.new) result }
{
    match SqlKeeper::open_file(rt, database) {
        Ok(keeper) => {
            let (keeper, status) = exchange_keeper(rt, alloc, keeper, address, out);
            keeper.close();
            status
        }
        Err(refusal) => say_refusal(alloc, out, &refusal),
    }
}

/// Exchanges the replica of this keeper with the peer, and gives the keeper back with the status.
fn exchange_keeper<K: Keeper, W: Write>(
    rt: &HostRuntime,
    alloc: Global,
    keeper: K,
    address: &Address<'_>,
    out: &mut W,
) -> (K, u8)
    ensures runs { TellsBoth (RunsRound ⟦<Cached<K> as Keeper>⟧) keeper result.0 (W.contents out.old) (W.contents out.new) result.1 }
    ensures ends { EndsExchange (W.contents out.old) (W.contents out.new) result.1 }
{
    let service = remembered(alloc, keeper);
    let (service, status) = exchange_as(rt, alloc, service, address, out);
    (released(service), status)
}

/// Exchanges the replica of this service with the peer, and gives it back with the status.
fn exchange_as<K: Keeper, W: Write>(
    rt: &HostRuntime,
    alloc: Global,
    service: Service<K>,
    address: &Address<'_>,
    out: &mut W,
) -> (Service<K>, u8)
    ensures runs { TellsBoth (RunsRound K.Keeper) service result.0 (W.contents out.old) (W.contents out.new) result.1 }
    ensures ends { EndsExchange (W.contents out.old) (W.contents out.new) result.1 }
{
    let mut peer = Remote {
        rt,
        alloc,
        service,
        address,
    };
    let status = exchange_with(alloc, &mut peer, out);
    (peer.service, status)
}
