ghost use Rattle.std.specs.Prelude.{IsTrue};
ghost use Rattle.mr_model.specs.Serving.{Reaches};
ghost use Rattle.mr_peer.specs.PeerAsking.{lacking};
ghost use Rattle.mr_peer.specs.Exchanged.{IsExchanged};
ghost use Rattle.mr_peer.specs.PeerRequests.{is_host};
ghost use Rattle.mr_peer.specs.Rounds.{Pulls, PullsSome, Pushes, PushesSome};
ghost use Rattle.mr_peer.specs.ExchangeSteps.{ReachesByPull};

use crate::pulls::{pull_ask, pull_take};
use crate::pushes::{push_ask, push_take};
use mr_base::{Ending, Position};
use mr_http::WebFault;
use mr_service::Service;
use mr_store::Keeper;
use std::alloc::Global;
use std::io::{Read, Write};

/// Asks a peer for what this replica lacks, over one connection, and takes its reply: how many writes and commits were new, and how
/// the batch ended.
pub fn pull<K: Keeper, R: Read, W: Write>(
    alloc: Global,
    service: &mut Service<K>,
    host: &str,
    reader: &mut R,
    writer: &mut W,
) -> Result<(u64, u64, Ending), WebFault>
    requires { IsTrue (is_host host.now) }
    ensures exchanged { IsExchanged K.Keeper service.old service.new result
        (Pulls host.now (W.contents writer.old) (W.contents writer.new) (R.remaining reader.old)) (ReachesByPull (K.tables service.old)) }
    ensures tells { PullsSome host.now (W.contents writer.old) (W.contents writer.new) (R.remaining reader.old) result }
{
    pull_ask(alloc, service, host, writer)?;
    pull_take(alloc, service, reader)
}

/// Hands a peer that is at this position what it lacks, over one connection, and takes its reply: how many writes and commits were new
/// to it, and how the batch ended.
pub fn push<K: Keeper, R: Read, W: Write>(
    alloc: Global,
    service: &mut Service<K>,
    position: &Position,
    host: &str,
    reader: &mut R,
    writer: &mut W,
) -> Result<(u64, u64, Ending), WebFault>
    requires { IsTrue (is_host host.now) }
    ensures exchanged { IsExchanged K.Keeper service.old service.new result
        (Pushes position.now host.now (W.contents writer.old) (W.contents writer.new) (R.remaining reader.old))
        (Reaches (K.tables service.old) (lacking position.now)) }
    ensures tells { PushesSome host.now (W.contents writer.old) (W.contents writer.new) (R.remaining reader.old) result }
{
    let ending = push_ask(alloc, service, position, host, writer)?;
    let (writes, commits) = push_take(alloc, reader)?;
    Ok((writes, commits, ending))
}
