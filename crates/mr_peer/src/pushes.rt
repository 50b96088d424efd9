ghost use Rattle.std.specs.Prelude.{◌≡◌, [], IsTrue, IfErr, length, ok_or};
ghost use Rattle.mr_model.specs.Http.{lines_over_http};
ghost use Rattle.mr_model.specs.Serving.{Reaches};
ghost use Rattle.mr_model.specs.Step.{BatchFor};
ghost use Rattle.mr_base.specs.Batches.{ending_seen};
ghost use Rattle.mr_http.specs.Reading.{OnceRead};
ghost use Rattle.mr_http.specs.declared.faults.WebFault.TheVariants.{BadReply};
ghost use Rattle.mr_service.specs.Asked.{command_seen, reply_of};
ghost use Rattle.mr_peer.specs.PeerAsking.{AsksPush, HandsBatch, IsAskFault, IsBatchWith, ReadsOff, lacking};
ghost use Rattle.mr_peer.specs.Exchanged.{IsExchanged};
ghost use Rattle.mr_peer.specs.OnceAsked.{HandsBatchOnce, SendsBatch};
ghost use Rattle.mr_peer.specs.ReplyRead.{ReadsOneReply};
ghost use Rattle.mr_peer.specs.PeerReplies.{told_took};
ghost use Rattle.mr_peer.specs.PeerRequests.{is_host};
ghost use Rattle.mr_peer.specs.Seen.{reply_seen, IsInside};
ghost use Rattle.mr_peer.specs.PeerTaking.{TellsAsRead, Says, IsOwnFault, IsReplyFault};
ghost use Rattle.mr_peer.specs.Took.{read_took};

use crate::asking::reply_to;
use crate::replies::{Replied, read_reply, whole_body};
use crate::requests::ask_full;
use crate::took::took_in;
use mr_base::{Ending, Position};
use mr_http::{WebFault, lines_over_http};
use mr_service::{Command, Local, Reply, Service};
use mr_store::Keeper;
use mr_wire::{write_batch, write_position};
use std::alloc::Global;
use std::io::{Read, Write};

/// Hands a peer that is at this position what it lacks, 64 lines at most, in the position's version, and answers how the batch ended. A
/// batch that the first version can't say is the fault `Own`, with the refusal `NeedsVersion2`.
pub fn push_ask<K: Keeper, W: Write>(
    alloc: Global,
    service: &mut Service<K>,
    position: &Position,
    host: &str,
    writer: &mut W,
) -> Result<Ending, WebFault>
    requires { IsTrue (is_host host.now) }
    ensures exchanged { IsExchanged K.Keeper service.old service.new result
        (AsksPush position.now host.now (W.contents writer.old) (W.contents writer.new)) (Reaches (K.tables service.old) (lacking position.now)) }
    ensures once { SendsBatch K.Keeper service.old service.new position.now host.now (W.contents writer.old) (W.contents writer.new) result }
    ensures fault { IfErr result IsAskFault }
{
    let (text, ending) = own_batch(alloc, service, position)?;
    ask_full(alloc, "POST /push HTTP/1.1", host, text.as_slice(), writer)?;
    Ok(ending)
}

// The text of this replica's batch for the position, and how it ends.
fn own_batch<K: Keeper>(
    alloc: Global,
    service: &mut Service<K>,
    position: &Position,
) -> Result<(Vec<u8>, Ending), WebFault>
    ensures exchanged { IsExchanged K.Keeper service.old service.new result
        (HandsBatch position.now) (Reaches (K.tables service.old) (lacking position.now)) }
    ensures once { HandsBatchOnce K.Keeper service.old service.new position.now result }
    ensures fault { IfErr result IsOwnFault }
{
    // For the prover alone: the position is within its limits.
    position.is_within_limits();
    let Ok(text) = write_position(alloc, position) else {
        return Err(WebFault::Memory);
    };
    let reply = reply_to(service, batch_for(text));
    batch_in(alloc, &reply)
}

// The command that asks for a batch.
fn batch_for(position: Vec<u8>) -> Command
    ensures { command_seen result ≡ BatchFor position.items lines_over_http }
{
    let max_lines = lines_over_http();
    Command::Local(Local::BatchFor {
        position,
        max_lines,
    })
}

fn batch_in(alloc: Global, reply: &Reply) -> Result<(Vec<u8>, Ending), WebFault>
    ensures { ReadsOff (reply_of reply.now) (λ x. IsBatchWith (reply_of reply.now) x.0.items (ending_seen x.1)) result }
{
    match reply {
        Reply::Batch(batch) => match write_batch(alloc, batch) {
            Ok(text) => Ok((text, batch.ending)),
            Err(_) => Err(WebFault::Memory),
        },
        Reply::Refused(refusal) => Err(WebFault::Own(*refusal)),
        // No replica replies otherwise.
        _ => Err(WebFault::Memory),
    }
}

/// Takes the reply of a peer that was handed a batch: how many writes and commits of it were new.
pub fn push_take<R: Read>(alloc: Global, reader: &mut R) -> Result<(u64, u64), WebFault>
    ensures tells { TellsAsRead told_took (R.remaining reader.old) result }
    ensures fault { IfErr result IsReplyFault }
    ensures reads { OnceRead (ReadsOneReply (R.remaining reader.old) (R.remaining reader.new)) result }
{
    let mut buffer = Vec::new(alloc);
    take_took(reader, &mut buffer)
}

fn take_took<R: Read>(reader: &mut R, buffer: &mut Vec<u8>) -> Result<(u64, u64), WebFault>
    requires { buffer.old.items ≡ [] }
    ensures tells { TellsAsRead told_took (R.remaining reader.old) result }
    ensures fault { IfErr result IsReplyFault }
    ensures reads { OnceRead (ReadsOneReply (R.remaining reader.old) (R.remaining reader.new)) result }
{
    let replied = read_reply(reader, buffer)?;
    took_of(buffer.as_slice(), replied)
}

fn took_of(bytes: &[u8], replied: Option<Replied>) -> Result<(u64, u64), WebFault>
    requires { IsInside (length bytes.now) replied }
    ensures { Says (told_took (reply_seen bytes.now replied)) result }
{
    let body = whole_body(bytes, replied)?;
    took_or_bad(body)
}

fn took_or_bad(body: &[u8]) -> Result<(u64, u64), WebFault>
    ensures { result ≡ ok_or (read_took body.now) BadReply }
{
    took_in(body).ok_or(WebFault::BadReply)
}
