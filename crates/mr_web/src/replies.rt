ghost use Rattle.std.specs.Prelude.{◌≡◌, [], Bool, IfOk, string_bytes};
ghost use Rattle.mr_model.specs.Http as model;
ghost use Rattle.mr_model.specs.Refusals.{OutOfMemory, Store, number_of};
ghost use Rattle.mr_model.specs.Replies.{Refused, reply_text as text_of_reply};
ghost use Rattle.mr_base.specs.RefusalViews.{refusal_of};
ghost use Rattle.mr_service.specs.Asked.{reply_of};
ghost use Rattle.mr_web.specs.ReplyHeads.{head_text as text_of_head, status_line as line_of_status, length_line as line_of_length, kind_line as line_of_kind};
ghost use Rattle.mr_web.specs.Views.{IsAnswerOf, bytes_view, response_to};

use crate::json_texts::{outcome_json, refusal_json};
use crate::rejections::Rejection;
use mr_base::Refusal;
use mr_service::{Reply, reply_text};
use std::alloc::{AllocError, Global};

/// The bytes of a reply: made for it, or one of the texts that take no memory.
#[derive(Drop)]
pub(crate) enum Bytes {
    Made(Vec<u8>),
    Fixed(&'static [u8]),
}

impl Bytes {
    pub(crate) fn as_slice(&self) -> &[u8]
        ensures { result.now ≡ bytes_view self.now }
    {
        match self {
            Bytes::Made(bytes) => bytes.as_slice(),
            Bytes::Fixed(bytes) => bytes,
        }
    }
}

/// A reply's status, and all of its bytes.
#[derive(Drop)]
pub(crate) struct Answer {
    pub status: u16,
    pub bytes: Bytes,
}

fn bad_request_text() -> &'static [u8]
    ensures { result.now ≡ model.response_text model.bad_request }
{
    b"HTTP/1.1 400 Bad Request\r\nContent-Type: application/json\r\nContent-Length: 23\r\nConnection: close\r\n\r\n{\"error\":\"bad request\"}"
}

fn not_found_text() -> &'static [u8]
    ensures { result.now ≡ model.response_text model.not_found }
{
    b"HTTP/1.1 404 Not Found\r\nContent-Type: application/json\r\nContent-Length: 21\r\nConnection: close\r\n\r\n{\"error\":\"not found\"}"
}

fn get_allowed_text() -> &'static [u8]
    ensures { result.now ≡ model.response_text (model.not_allowed (model.method_name Bool.false)) }
{
    b"HTTP/1.1 405 Method Not Allowed\r\nContent-Type: application/json\r\nAllow: GET\r\nContent-Length: 30\r\nConnection: close\r\n\r\n{\"error\":\"method not allowed\"}"
}

fn post_allowed_text() -> &'static [u8]
    ensures { result.now ≡ model.response_text (model.not_allowed (model.method_name Bool.true)) }
{
    b"HTTP/1.1 405 Method Not Allowed\r\nContent-Type: application/json\r\nAllow: POST\r\nContent-Length: 30\r\nConnection: close\r\n\r\n{\"error\":\"method not allowed\"}"
}

fn too_large_text() -> &'static [u8]
    ensures { result.now ≡ model.response_text model.too_large }
{
    b"HTTP/1.1 413 Content Too Large\r\nContent-Type: application/json\r\nContent-Length: 21\r\nConnection: close\r\n\r\n{\"error\":\"too large\"}"
}

fn no_memory_text() -> &'static [u8]
    ensures { result.now ≡ model.response_text (model.response_of (Refused OutOfMemory)) }
{
    b"HTTP/1.1 503 Service Unavailable\r\nContent-Type: application/json\r\nContent-Length: 35\r\nConnection: close\r\n\r\n{\"name\":\"OutOfMemory\",\"refusal\":24}"
}

fn store_failed_text() -> &'static [u8]
    ensures { result.now ≡ model.response_text (model.response_of (Refused Store)) }
{
    b"HTTP/1.1 503 Service Unavailable\r\nContent-Type: application/json\r\nContent-Length: 29\r\nConnection: close\r\n\r\n{\"name\":\"Store\",\"refusal\":25}"
}

fn fixed(status: u16, bytes: &'static [u8]) -> Answer
    ensures bytes { bytes_view result.bytes ≡ bytes.now }
    ensures status { result.status ≡ status }
{
    Answer {
        status,
        bytes: Bytes::Fixed(bytes),
    }
}

/// The answer to a request that fails a check. It takes no memory.
pub(crate) fn answer_to_rejection(rejection: Rejection) -> Answer
    ensures { IsAnswerOf (response_to rejection) result }
{
    match rejection {
        Rejection::BadRequest => fixed(400, bad_request_text()),
        Rejection::NotFound => fixed(404, not_found_text()),
        Rejection::NotAllowed { takes_post: false } => fixed(405, get_allowed_text()),
        Rejection::NotAllowed { takes_post: true } => fixed(405, post_allowed_text()),
        Rejection::TooLarge => fixed(413, too_large_text()),
    }
}

fn reason_text(status: u16) -> &'static str
    ensures { result.now ≡ model.reason status }
{
    match status {
        200 => "OK",
        400 => "Bad Request",
        404 => "Not Found",
        405 => "Method Not Allowed",
        409 => "Conflict",
        413 => "Content Too Large",
        _ => "Service Unavailable",
    }
}

fn kind_line(is_json: bool) -> &'static str
    ensures { result.now ≡ line_of_kind is_json }
{
    if is_json {
        "Content-Type: application/json\r\n"
    } else {
        "Content-Type: text/plain\r\n"
    }
}

fn status_line(alloc: Global, status: u16) -> Result<String, AllocError>
    ensures { IfOk result (λ s. string_bytes s ≡ line_of_status status) }
{
    let reason = reason_text(status);
    format!(in alloc; "HTTP/1.1 {status} {reason}\r\n")
}

fn length_line(alloc: Global, length: usize) -> Result<String, AllocError>
    ensures { IfOk result (λ s. string_bytes s ≡ line_of_length length) }
{
    format!(in alloc; "Content-Length: {length}\r\n")
}

fn head_text(alloc: Global, status: u16, is_json: bool, length: usize) -> Result<String, AllocError>
    ensures { IfOk result (λ s. string_bytes s ≡ text_of_head status is_json length) }
{
    let mut text = status_line(alloc, status)?;
    text.push_str(kind_line(is_json))?;
    let line = length_line(alloc, length)?;
    text.push_str(line.as_str())?;
    text.push_str("Connection: close\r\n\r\n")?;
    Ok(text)
}

fn made(alloc: Global, status: u16, is_json: bool, body: &[u8]) -> Result<Answer, AllocError>
    ensures { IfOk result (IsAnswerOf (record { status = status; allowed = []; is_json = is_json; body = body.now })) }
{
    let head = head_text(alloc, status, is_json, body.len())?;
    let mut bytes = Vec::from_slice(alloc, head.as_bytes())?;
    bytes.extend_from_slice(body)?;
    Ok(Answer {
        status,
        bytes: Bytes::Made(bytes),
    })
}

fn status_of(refusal: &Refusal) -> u16
    ensures { result ≡ model.status_by_number (number_of (refusal_of refusal.now)) }
{
    match refusal.number() {
        1..=6 | 15 | 23 => 400,
        7 | 9 => 404,
        24..=26 => 503,
        _ => 409,
    }
}

fn told_refusal(alloc: Global, refusal: &Refusal) -> Result<Answer, AllocError>
    ensures { IfOk result (IsAnswerOf (model.response_of (Refused (refusal_of refusal.now)))) }
{
    let body = refusal_json(alloc, refusal)?;
    made(alloc, status_of(refusal), true, body.as_bytes())
}

fn answer_to_refusal(alloc: Global, refusal: &Refusal) -> Result<Answer, AllocError>
    ensures { IfOk result (IsAnswerOf (model.response_of (Refused (refusal_of refusal.now)))) }
{
    match refusal {
        Refusal::OutOfMemory => Ok(fixed(503, no_memory_text())),
        Refusal::Store => Ok(fixed(503, store_failed_text())),
        _ => told_refusal(alloc, refusal),
    }
}

fn told_text(alloc: Global, reply: &Reply) -> Result<Answer, AllocError>
    ensures { IfOk result (IsAnswerOf (model.text_response (text_of_reply (reply_of reply.now)))) }
{
    match reply_text(alloc, reply) {
        Ok(body) => made(alloc, 200, false, body.as_slice()),
        Err(_) => Err(AllocError),
    }
}

/// The answer for a reply of the replica.
pub(crate) fn answer_to_reply(alloc: Global, reply: &Reply) -> Result<Answer, AllocError>
    ensures { IfOk result (IsAnswerOf (model.response_of (reply_of reply.now))) }
{
    match reply {
        Reply::Outcome(outcome) => {
            let body = outcome_json(alloc, outcome)?;
            made(alloc, 200, true, body.as_bytes())
        }
        Reply::Refused(refusal) => answer_to_refusal(alloc, refusal),
        Reply::RoomAdded => told_text(alloc, reply),
        Reply::Took { .. } => told_text(alloc, reply),
        Reply::Committed(_) => told_text(alloc, reply),
        Reply::Dropped(_) => told_text(alloc, reply),
        Reply::Position(_) => told_text(alloc, reply),
        Reply::Batch(_) => told_text(alloc, reply),
        Reply::Sheet { .. } => told_text(alloc, reply),
        Reply::Calendar { .. } => told_text(alloc, reply),
        Reply::Errors { .. } => told_text(alloc, reply),
    }
}
