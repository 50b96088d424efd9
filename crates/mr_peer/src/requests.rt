ghost use Rattle.std.specs.Prelude.{◌≡◌, IfOk, IfErr, string_bytes};
ghost use Rattle.mr_peer.specs.PeerAsking.{Wrote, IsSendFault};
ghost use Rattle.mr_peer.specs.PeerRequests.{bare_pieces, bare_request, full_head, full_pieces, full_request};

use mr_http::{WebFault, send};
use std::alloc::{AllocError, Global};
use std::fmt;
use std::io::Write;

/// Writes a request without a body, whose first line is given.
pub(crate) fn ask_bare<W: Write>(
    alloc: Global,
    line: &str,
    host: &str,
    writer: &mut W,
) -> Result<(), WebFault>
    ensures wrote { Wrote (bare_request line.now host.now) (W.contents writer.old) (W.contents writer.new) result }
    ensures fault { IfErr result IsSendFault }
{
    match bare_text(alloc, line, host) {
        Ok(text) => send(writer, text.as_bytes()),
        Err(_) => Err(WebFault::Memory),
    }
}

/// Writes a request with a body.
pub(crate) fn ask_full<W: Write>(
    alloc: Global,
    line: &str,
    host: &str,
    body: &[u8],
    writer: &mut W,
) -> Result<(), WebFault>
    ensures wrote { Wrote (full_request line.now host.now body.now) (W.contents writer.old) (W.contents writer.new) result }
    ensures fault { IfErr result IsSendFault }
{
    match full_text(alloc, line, host, body) {
        Ok(text) => send(writer, text.as_slice()),
        Err(_) => Err(WebFault::Memory),
    }
}

fn bare_text(alloc: Global, line: &str, host: &str) -> Result<String, AllocError>
    ensures { IfOk result (λ text. string_bytes text ≡ bare_request line.now host.now) }
{
    bare_pieces(alloc, line, host)
}

#[tactic(auto, unfolding(crate::specs::PeerRequests::bare_pieces))]
fn bare_pieces(alloc: Global, line: &str, host: &str) -> Result<String, AllocError>
    ensures { IfOk result (λ text. string_bytes text ≡ bare_pieces line.now host.now) }
{
    let mut text = String::new(alloc);
    write!(text, "{line}\r\nHost: {host}\r\nConnection: close\r\n\r\n")?;
    Ok(text)
}

fn full_text(alloc: Global, line: &str, host: &str, body: &[u8]) -> Result<Vec<u8>, AllocError>
    ensures { IfOk result (λ bytes. bytes.items ≡ full_request line.now host.now body.now) }
{
    let mut text = full_head(alloc, line, host, body.len())?.into_bytes();
    text.extend_from_slice(body)?;
    Ok(text)
}

// The head of a request with a body of this size.
fn full_head(alloc: Global, line: &str, host: &str, size: usize) -> Result<String, AllocError>
    ensures { IfOk result (λ text. string_bytes text ≡ full_head line.now host.now size) }
{
    full_pieces(alloc, line, host, size)
}

#[tactic(auto, unfolding(crate::specs::PeerRequests::full_pieces))]
fn full_pieces(alloc: Global, line: &str, host: &str, size: usize) -> Result<String, AllocError>
    ensures { IfOk result (λ text. string_bytes text ≡ full_pieces line.now host.now size) }
{
    let mut text = String::new(alloc);
    write!(
        text,
        "{line}\r\nHost: {host}\r\nContent-Length: {size}\r\nConnection: close\r\n\r\n"
    )?;
    Ok(text)
}
