ghost use Rattle.std.specs.Prelude.{◌≡◌, ◌≤◌, ℕ, List, [], length, vec_len, IfOk, IfSome, OnOk, option_map, true};
ghost use Rattle.httparse.specs.Grammar.{ResponseHead, ReadsResponse, status_code};
ghost use Rattle.mr_http.specs.HeaderFields.{header_fields};
ghost use Rattle.mr_http.specs.Inputs.{OfInput};
ghost use Rattle.mr_model.specs.Http as model;
ghost use Rattle.mr_peer.specs.ReplyRead.{ReadsOneReply};
ghost use Rattle.mr_peer.specs.PeerReplies.{IsReplied, reply_length, within_limit};
ghost use Rattle.mr_peer.specs.PeerReplies as spec;
ghost use Rattle.mr_peer.specs.Seen.{reply_seen, IsInside, reply_body_seen};

use httparse::{EMPTY_HEADER, Header, Response, Status};
use mr_http::{GREATEST_BODY, ReadFault, WebFault, body_length, fill_to, read_reply_head};
use std::io::Read;

/// A reply with the head that is demanded: its status, where its body begins among the bytes, and how long it is to be.
#[derive(Clone, Copy)]
pub(crate) struct Replied {
    status: u16,
    start: usize,
    length: usize,
}

/// Reads a reply to the end of its body or of the input; none if it hasn't the head that is demanded.
pub(crate) fn read_reply<R: Read>(
    reader: &mut R,
    buffer: &mut Vec<u8>,
) -> Result<Option<Replied>, ReadFault>
    requires { buffer.old.items ≡ [] }
    ensures replied { IfOk result (λ found. OfInput (R.remaining reader.old) (λ input. IsReplied input (reply_seen buffer.new.items found))) }
    ensures inside { IfOk result (IsInside (vec_len buffer.new)) }
    ensures reads { OnOk result (ReadsOneReply (R.remaining reader.old) (R.remaining reader.new)) }
{
    let Some(start) = read_reply_head(reader, buffer)? else {
        return Ok(None);
    };
    let Some((status, length)) = head_in(buffer.as_slice()) else {
        return Ok(None);
    };
    let length = length as usize;
    fill_to(reader, buffer, start + length)?;
    Ok(Some(Replied {
        status,
        start,
        length,
    }))
}

// The status of the head at the front of the bytes, and the length of the body; none if that isn't stated or beyond the limit.
fn head_in(bytes: &[u8]) -> Option<(u16, u64)>
    ensures head { (h : ResponseHead) → (rest : List ℕ) → ReadsResponse bytes.now h rest → length h.fields ≤ 64
        → result ≡ option_map (λ n. (status_code h, n)) (reply_length h) }
    ensures small { IfSome result (λ x. x.1 ≤ 1048576) }
{
    let mut headers = [EMPTY_HEADER; 64];
    let mut reply = Response::new(&mut headers);
    let Ok(Status::Complete(_)) = reply.parse(bytes) else {
        return None;
    };
    let status = reply.code?;
    with_length(status, reply.headers)
}

// The status, and the length that the fields state, if that is within the limit.
fn with_length(status: u16, fields: &[Header<'_>]) -> Option<(u16, u64)>
    ensures exact { result ≡ option_map (λ n. (status, n)) (within_limit (model.body_length true (header_fields fields.now))) }
    ensures small { IfSome result (λ x. x.1 ≤ 1048576) }
{
    let length = body_length(true, fields)?;
    if length > GREATEST_BODY {
        return None;
    }
    Some((status, length))
}

/// The whole body of a reply of status 200 among the bytes, or what is wrong with the reply.
pub(crate) fn whole_body(bytes: &[u8], replied: Option<Replied>) -> Result<&[u8], WebFault>
    requires { IsInside (length bytes.now) replied }
    ensures { reply_body_seen result ≡ spec.whole_body (reply_seen bytes.now replied) }
{
    let Some(reply) = replied else {
        return Err(WebFault::BadReply);
    };
    let rest = &bytes[reply.start..];
    if rest.len() < reply.length {
        return Err(WebFault::BadReply);
    }
    if reply.status == 200 {
        Ok(&rest[..reply.length])
    } else {
        Err(WebFault::Peer(reply.status))
    }
}

/// The same, but with status 200 a body may end early.
pub(crate) fn front_body(bytes: &[u8], replied: Option<Replied>) -> Result<&[u8], WebFault>
    requires { IsInside (length bytes.now) replied }
    ensures { reply_body_seen result ≡ spec.front_body (reply_seen bytes.now replied) }
{
    let Some(reply) = replied else {
        return Err(WebFault::BadReply);
    };
    let rest = &bytes[reply.start..];
    if reply.status == 200 {
        Ok(&rest[..rest.len().min(reply.length)])
    } else if rest.len() < reply.length {
        Err(WebFault::BadReply)
    } else {
        Err(WebFault::Peer(reply.status))
    }
}
