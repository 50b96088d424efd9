ghost use Rattle.std.specs.Prelude.{◌≡◌, [], IsTrue, IfErr, length, ok_or};
ghost use Rattle.mr_model.specs.Positions as model;
ghost use Rattle.mr_http.specs.Reading.{OnceRead};
ghost use Rattle.mr_http.specs.declared.faults.WebFault.TheVariants.{BadReply};
ghost use Rattle.mr_peer.specs.PeerAsking.{Wrote, IsSendFault};
ghost use Rattle.mr_peer.specs.ReplyRead.{ReadsOneReply};
ghost use Rattle.mr_peer.specs.PeerReplies.{told_position};
ghost use Rattle.mr_peer.specs.PeerRequests.{is_host, position_request};
ghost use Rattle.mr_peer.specs.Seen.{reply_seen, IsInside, unread};
ghost use Rattle.mr_peer.specs.PeerTaking.{TellsAsRead, Says, IsReplyFault};

use crate::replies::{Replied, read_reply, whole_body};
use crate::requests::ask_bare;
use mr_base::{Position, Refusal};
use mr_http::WebFault;
use mr_wire::read_position;
use std::alloc::Global;
use std::io::{Read, Write};

/// Asks a peer for its position.
pub fn position_ask<W: Write>(alloc: Global, host: &str, writer: &mut W) -> Result<(), WebFault>
    requires { IsTrue (is_host host.now) }
    ensures wrote { Wrote (position_request host.now) (W.contents writer.old) (W.contents writer.new) result }
    ensures fault { IfErr result IsSendFault }
{
    ask_bare(alloc, "GET /position HTTP/1.1", host, writer)
}

/// Takes the reply of a peer that was asked for its position.
pub fn position_take<R: Read>(alloc: Global, reader: &mut R) -> Result<Position, WebFault>
    ensures tells { TellsAsRead told_position (R.remaining reader.old) result }
    ensures fault { IfErr result IsReplyFault }
    ensures reads { OnceRead (ReadsOneReply (R.remaining reader.old) (R.remaining reader.new)) result }
{
    let mut buffer = Vec::new(alloc);
    take_position(alloc, reader, &mut buffer)
}

fn take_position<R: Read>(
    alloc: Global,
    reader: &mut R,
    buffer: &mut Vec<u8>,
) -> Result<Position, WebFault>
    requires { buffer.old.items ≡ [] }
    ensures tells { TellsAsRead told_position (R.remaining reader.old) result }
    ensures fault { IfErr result IsReplyFault }
    ensures reads { OnceRead (ReadsOneReply (R.remaining reader.old) (R.remaining reader.new)) result }
{
    let replied = read_reply(reader, buffer)?;
    position_of(alloc, buffer.as_slice(), replied)
}

fn position_of(alloc: Global, bytes: &[u8], replied: Option<Replied>) -> Result<Position, WebFault>
    requires { IsInside (length bytes.now) replied }
    ensures { Says (told_position (reply_seen bytes.now replied)) result }
{
    let body = whole_body(bytes, replied)?;
    position_in(alloc, body)
}

fn position_in(alloc: Global, body: &[u8]) -> Result<Position, WebFault>
    ensures { Says (ok_or (model.read_position body.now) BadReply) result }
{
    match read_position(alloc, body) {
        Ok(position) => Ok(position),
        Err(refusal) => Err(unread(refusal)),
    }
}

// What is at fault with a body that is refused as a position.
fn unread(refusal: Refusal) -> WebFault
    ensures { result ≡ unread refusal }
{
    match refusal {
        Refusal::OutOfMemory => WebFault::Memory,
        _ => WebFault::BadReply,
    }
}
