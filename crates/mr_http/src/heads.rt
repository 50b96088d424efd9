ghost use Rattle.std.specs.Prelude.{◌≡◌, ◌≤◌, [], length, IfOk, OnOk};
ghost use Rattle.std.specs.Io.KnownBytes.{Consumes};
ghost use Rattle.mr_http.specs.Heads.{FindsHead, FindsReplyHead};
ghost use Rattle.mr_http.specs.Looks.{LooksAt, Finds, Awaits};
ghost use Rattle.mr_http.specs.Reading.{AwaitsHead, AwaitsReplyHead, IsReadWhile};
ghost use Rattle.mr_http.specs.declared.heads.Kind.TheVariants.{Request, Reply};

use crate::faults::ReadFault;
use crate::pieces::read_piece;
use httparse::Status;
use httparse::spans::{EMPTY_HEADER_SPAN, parse_request, parse_response};
use std::io::Read;

const HEAD_LIMIT: usize = 8192;

const FIELD_LIMIT: usize = 64;

/// Whose head it is.
#[derive(Clone, Copy)]
enum Kind {
    Request,
    Reply,
}

/// What the bytes that came so far are.
#[derive(Clone, Copy)]
enum Look {
    /// This many of them are a head.
    Head(usize),
    /// They are no head, but more may come that make one.
    More,
    /// Whatever follows, there is no head.
    Never,
}

/// Reads until the head of a request is there, and answers how long it is; none if the input has none within the limits.
/// The buffer then has all that was read, which may go on behind the head: reads ask for at most 512 bytes, and for more only while a
/// head may still come.
pub fn read_request_head<R: Read>(
    reader: &mut R,
    buffer: &mut Vec<u8>,
) -> Result<Option<usize>, ReadFault>
    requires { buffer.old.items ≡ [] }
    ensures consumed { OnOk result (Consumes (R.remaining reader.old) (R.remaining reader.new) buffer.new.items) }
    ensures found { IfOk result (FindsHead (R.remaining reader.old) buffer.new.items) }
    ensures pieces { OnOk result (IsReadWhile AwaitsHead buffer.new.items) }
{
    read_head(Kind::Request, reader, buffer)
}

/// The same for the head of a reply.
pub fn read_reply_head<R: Read>(
    reader: &mut R,
    buffer: &mut Vec<u8>,
) -> Result<Option<usize>, ReadFault>
    requires { buffer.old.items ≡ [] }
    ensures consumed { OnOk result (Consumes (R.remaining reader.old) (R.remaining reader.new) buffer.new.items) }
    ensures found { IfOk result (FindsReplyHead (R.remaining reader.old) buffer.new.items) }
    ensures pieces { OnOk result (IsReadWhile AwaitsReplyHead buffer.new.items) }
{
    read_head(Kind::Reply, reader, buffer)
}

fn read_head<R: Read>(
    kind: Kind,
    reader: &mut R,
    buffer: &mut Vec<u8>,
) -> Result<Option<usize>, ReadFault>
    requires { buffer.old.items ≡ [] }
    ensures consumed { OnOk result (Consumes (R.remaining reader.old) (R.remaining reader.new) buffer.new.items) }
    ensures found { IfOk result (Finds kind (R.remaining reader.old) buffer.new.items) }
    ensures pieces { OnOk result (IsReadWhile (Awaits kind) buffer.new.items) }
{
    'reading: loop {
        match look_at(kind, buffer.as_slice()) {
            Look::Head(len) => return Ok(Some(len)),
            Look::Never => return Ok(None),
            Look::More => {}
        }
        let room = HEAD_LIMIT - buffer.len();
        if room == 0 {
            return Ok(None);
        }
        if read_piece(reader, buffer, room)? == 0 {
            return Ok(None);
        }
    }
}

fn look_at(kind: Kind, bytes: &[u8]) -> Look
    requires { length bytes.now ≤ 8192 }
    ensures { LooksAt kind bytes.now result }
{
    match kind {
        Kind::Request => look_at_request(bytes),
        Kind::Reply => look_at_reply(bytes),
    }
}

fn look_at_request(bytes: &[u8]) -> Look
    requires { length bytes.now ≤ 8192 }
    ensures { LooksAt Request bytes.now result }
{
    let mut headers = [EMPTY_HEADER_SPAN; FIELD_LIMIT];
    match parse_request(bytes, &mut headers) {
        Ok(Status::Complete(head)) if head.version == 1 => Look::Head(head.len),
        Ok(Status::Partial) => Look::More,
        _ => Look::Never,
    }
}

fn look_at_reply(bytes: &[u8]) -> Look
    requires { length bytes.now ≤ 8192 }
    ensures { LooksAt Reply bytes.now result }
{
    let mut headers = [EMPTY_HEADER_SPAN; FIELD_LIMIT];
    match parse_response(bytes, &mut headers) {
        Ok(Status::Complete(head)) if head.version == 1 => Look::Head(head.len),
        Ok(Status::Partial) => Look::More,
        _ => Look::Never,
    }
}
