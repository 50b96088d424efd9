ghost use Rattle.std.specs.Prelude.{◌≡◌, [], IsTrue, IfErr, Ok, length};
ghost use Rattle.mr_model.specs.Serving.{Reaches};
ghost use Rattle.mr_model.specs.Step.{AskPosition};
ghost use Rattle.mr_http.specs.Reading.{OnceRead};
ghost use Rattle.mr_service.specs.Asked.{reply_of};
ghost use Rattle.mr_service.specs.Worlds.{IsPositionText};
ghost use Rattle.mr_peer.specs.PeerAsking.{AsksPull, HandsPosition, IsAskFault, ReadsOff};
ghost use Rattle.mr_peer.specs.Exchanged.{IsExchanged};
ghost use Rattle.mr_peer.specs.OnceAsked.{HandsPositionOnce, IsBodyOf, ReceivesOnce, SendsPosition, TellsBatch, TellsCounts};
ghost use Rattle.mr_peer.specs.ReplyRead.{ReadsOneReply};
ghost use Rattle.mr_peer.specs.PeerReplies as spec;
ghost use Rattle.mr_peer.specs.PeerRequests.{is_host};
ghost use Rattle.mr_peer.specs.Seen.{reply_seen, IsInside, counts_seen};
ghost use Rattle.mr_peer.specs.ExchangeSteps.{KeepsTables, TakesBody, TakesPulled};
ghost use Rattle.mr_peer.specs.PeerTaking.{EndsAsBatch, CountsTaken, Receives, TakesBodyOrFault, TellsTaken, TellsPulled, IsOwnFault, IsTakeFault};

use crate::asking::reply_to;
use crate::replies::{Replied, front_body, read_reply};
use crate::requests::ask_full;
use mr_base::{Ending, Refusal};
use mr_http::WebFault;
use mr_service::{Command, Local, Reply, Service};
use mr_store::Keeper;
use mr_wire::{read_batch, write_position};
use std::alloc::Global;
use std::io::{Read, Write};

/// Asks a peer for what this replica lacks, with its position, which is of the second version.
pub fn pull_ask<K: Keeper, W: Write>(
    alloc: Global,
    service: &mut Service<K>,
    host: &str,
    writer: &mut W,
) -> Result<(), WebFault>
    requires { IsTrue (is_host host.now) }
    ensures exchanged { IsExchanged K.Keeper service.old service.new result
        (AsksPull host.now (W.contents writer.old) (W.contents writer.new)) (Reaches (K.tables service.old) AskPosition) }
    ensures once { SendsPosition K.Keeper service.old service.new host.now (W.contents writer.old) (W.contents writer.new) result }
    ensures fault { IfErr result IsAskFault }
{
    let position = own_position(alloc, service)?;
    ask_full(
        alloc,
        "POST /pull HTTP/1.1",
        host,
        position.as_slice(),
        writer,
    )?;
    Ok(())
}

// The text of this replica's position.
fn own_position<K: Keeper>(alloc: Global, service: &mut Service<K>) -> Result<Vec<u8>, WebFault>
    ensures exchanged { IsExchanged K.Keeper service.old service.new result
        HandsPosition (Reaches (K.tables service.old) AskPosition) }
    ensures once { HandsPositionOnce K.Keeper service.old service.new result }
    ensures fault { IfErr result IsOwnFault }
{
    let reply = reply_to(service, Command::Local(Local::Position));
    position_in(alloc, &reply)
}

fn position_in(alloc: Global, reply: &Reply) -> Result<Vec<u8>, WebFault>
    ensures { ReadsOff (reply_of reply.now) (λ text. IsPositionText (reply_of reply.now) text.items) result }
{
    match reply {
        Reply::Position(position) => match write_position(alloc, position) {
            Ok(text) => Ok(text),
            Err(_) => Err(WebFault::Memory),
        },
        Reply::Refused(refusal) => Err(WebFault::Own(*refusal)),
        // No replica replies otherwise.
        _ => Err(WebFault::Memory),
    }
}

/// Takes the reply of a peer that was asked so: how many writes and commits of its batch were new, and how the batch ended. Whatever the
/// reader gives, at most one batch is taken.
pub fn pull_take<K: Keeper, R: Read>(
    alloc: Global,
    service: &mut Service<K>,
    reader: &mut R,
) -> Result<(u64, u64, Ending), WebFault>
    ensures exchanged { IsExchanged K.Keeper service.old service.new result
        (TakesPulled (R.remaining reader.old)) (TakesBody (K.tables service.old)) }
    ensures once { ReceivesOnce K.Keeper service.old service.new (IsBodyOf (R.remaining reader.old)) TellsBatch result }
    ensures tells { TellsPulled (R.remaining reader.old) result }
    ensures fault { IfErr result IsTakeFault }
    ensures leaves { IfErr result (KeepsTables K.Keeper service.old service.new) }
    ensures reads { OnceRead (ReadsOneReply (R.remaining reader.old) (R.remaining reader.new)) result }
{
    let mut buffer = Vec::new(alloc);
    take_reply(alloc, service, reader, &mut buffer)
}

fn take_reply<K: Keeper, R: Read>(
    alloc: Global,
    service: &mut Service<K>,
    reader: &mut R,
    buffer: &mut Vec<u8>,
) -> Result<(u64, u64, Ending), WebFault>
    requires { buffer.old.items ≡ [] }
    ensures exchanged { IsExchanged K.Keeper service.old service.new result
        (TakesPulled (R.remaining reader.old)) (TakesBody (K.tables service.old)) }
    ensures once { ReceivesOnce K.Keeper service.old service.new (IsBodyOf (R.remaining reader.old)) TellsBatch result }
    ensures tells { TellsPulled (R.remaining reader.old) result }
    ensures fault { IfErr result IsTakeFault }
    ensures leaves { IfErr result (KeepsTables K.Keeper service.old service.new) }
    ensures reads { OnceRead (ReadsOneReply (R.remaining reader.old) (R.remaining reader.new)) result }
{
    let replied = read_reply(reader, buffer)?;
    take_body(alloc, service, buffer.as_slice(), replied)
}

fn take_body<K: Keeper>(
    alloc: Global,
    service: &mut Service<K>,
    bytes: &[u8],
    replied: Option<Replied>,
) -> Result<(u64, u64, Ending), WebFault>
    requires { IsInside (length bytes.now) replied }
    ensures exchanged { IsExchanged K.Keeper service.old service.new result
        (TakesBodyOrFault (spec.front_body (reply_seen bytes.now replied))) (TakesBody (K.tables service.old)) }
    ensures once { ReceivesOnce K.Keeper service.old service.new (λ taken. spec.front_body (reply_seen bytes.now replied) ≡ Ok taken) TellsBatch result }
    ensures tells { TellsTaken (spec.front_body (reply_seen bytes.now replied)) result }
    ensures fault { IfErr result IsTakeFault }
    ensures leaves { IfErr result (KeepsTables K.Keeper service.old service.new) }
{
    let body = front_body(bytes, replied)?;
    take_batch(alloc, service, body)
}

fn take_batch<K: Keeper>(
    alloc: Global,
    service: &mut Service<K>,
    body: &[u8],
) -> Result<(u64, u64, Ending), WebFault>
    ensures exchanged { IsExchanged K.Keeper service.old service.new result
        (Receives body.now) (TakesBody (K.tables service.old)) }
    ensures once { ReceivesOnce K.Keeper service.old service.new (λ taken. taken ≡ body.now) TellsBatch result }
    ensures tells { TellsTaken (Ok body.now) result }
    ensures fault { IfErr result IsOwnFault }
    ensures leaves { IfErr result (KeepsTables K.Keeper service.old service.new) }
{
    let ending = ending_in(alloc, body)?;
    let (writes, commits) = receive(alloc, service, body)?;
    Ok((writes, commits, ending))
}

fn receive<K: Keeper>(
    alloc: Global,
    service: &mut Service<K>,
    body: &[u8],
) -> Result<(u64, u64), WebFault>
    ensures exchanged { IsExchanged K.Keeper service.old service.new result
        (CountsTaken body.now) (TakesBody (K.tables service.old)) }
    ensures once { ReceivesOnce K.Keeper service.old service.new (λ taken. taken ≡ body.now) TellsCounts result }
    ensures fault { IfErr result IsOwnFault }
    ensures leaves { IfErr result (KeepsTables K.Keeper service.old service.new) }
{
    let Ok(bytes) = Vec::from_slice(alloc, body) else {
        return Err(WebFault::Memory);
    };
    let reply = reply_to(service, Command::Receive(bytes));
    counts_in(&reply)
}

fn counts_in(reply: &Reply) -> Result<(u64, u64), WebFault>
    ensures { result ≡ counts_seen reply.now }
{
    match reply {
        Reply::Took { writes, commits } => Ok((*writes, *commits)),
        Reply::Refused(refusal) => Err(WebFault::Own(*refusal)),
        // No replica replies otherwise.
        _ => Err(WebFault::Memory),
    }
}

// The ending of the batch that the bytes read as; the refusal if they read as none.
fn ending_in(alloc: Global, bytes: &[u8]) -> Result<Ending, WebFault>
    ensures { EndsAsBatch bytes.now result }
{
    match read_batch(alloc, bytes) {
        Ok(batch) => Ok(batch.ending),
        Err(Refusal::OutOfMemory) => Err(WebFault::Memory),
        Err(refusal) => Err(WebFault::Own(refusal)),
    }
}
