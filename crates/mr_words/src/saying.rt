ghost use Rattle.std.specs.Prelude.{◌≡◌, ◌≢◌, ◌≤◌, ◌⊎◌, IfOk, IfErr};
ghost use Rattle.std.specs.String.{string_bytes};
ghost use Rattle.std.specs.Io.KnownBytes.{Appends};
ghost use Rattle.mr_base.specs.RefusalViews.{refusal_of};
ghost use Rattle.mr_service.specs.Asked.{reply_of};
ghost use Rattle.mr_model.specs.Refusals.{refusal_text};
ghost use Rattle.mr_model.specs.Texts.{line};
ghost use Rattle.mr_words.specs.CommandOutput.{no_memory_line, status_of, PrintsReply};

use mr_base::Refusal;
use mr_service::{Reply, refusal_text, reply_text};
use std::alloc::{AllocError, Global};
use std::io::Write;

/// All was done.
pub const DONE: u8 = 0;

/// A refusal, a bad line of a script, or a peer's status other than 200.
pub const REFUSED: u8 = 1;

/// The words are no command line, or one of them is no address.
pub const BAD_WORDS: u8 = 2;

/// A file can't be had, the network fails, or the output doesn't take a line.
pub const FAULT: u8 = 3;

/// The line of refusal 24, out of memory.
pub const NO_MEMORY: &str = "refused 24 OutOfMemory\n";

/// Prints the line and answers the status, or that of a fault if the writer does not take the line.
pub fn say<W: Write>(out: &mut W, line: &str, status: u8) -> u8
    requires { status ≤ 3 }
    ensures status { (result ≡ status) ⊎ (result ≡ 3) }
    ensures told { result ≢ 3 → Appends (W.contents out.old) (W.contents out.new) line.now }
{
    say_text(out, line.as_bytes(), status)
}

/// Prints the bytes and answers the status, or that of a fault if the writer does not take them.
pub fn say_text<W: Write>(out: &mut W, text: &[u8], status: u8) -> u8
    requires { status ≤ 3 }
    ensures status { (result ≡ status) ⊎ (result ≡ 3) }
    ensures told { result ≢ 3 → Appends (W.contents out.old) (W.contents out.new) text.now }
{
    match out.write_all(text) {
        Ok(()) => status,
        Err(_) => FAULT,
    }
}

/// Prints a line that was made and answers the status, or prints that there was no memory for the line.
pub fn say_made<W: Write>(out: &mut W, made: Result<String, AllocError>, status: u8) -> u8
    requires { status ≤ 3 }
    ensures made { IfOk made (λ text. ((result ≡ status) ⊎ (result ≡ 3))
        × (result ≢ 3 → Appends (W.contents out.old) (W.contents out.new) (string_bytes text))) }
    ensures memory { IfErr made (λ _. ((result ≡ 1) ⊎ (result ≡ 3))
        × (result ≢ 3 → Appends (W.contents out.old) (W.contents out.new) no_memory_line)) }
{
    match made {
        Ok(text) => say(out, text.as_str(), status),
        Err(_) => say(out, NO_MEMORY, REFUSED),
    }
}

/// Prints the refusal, or that there was no memory for its line, and answers 1; or 3 if the writer doesn't take it.
pub fn say_refusal<W: Write>(alloc: Global, out: &mut W, refusal: &Refusal) -> u8
    ensures status { (result ≡ 1) ⊎ (result ≡ 3) }
    ensures told { result ≡ 1 → Appends (W.contents out.old) (W.contents out.new) (line (refusal_text (refusal_of refusal.now)))
        ⊎ Appends (W.contents out.old) (W.contents out.new) no_memory_line }
{
    match refusal_text(alloc, refusal) {
        Ok(text) => say_text(out, text.as_slice(), REFUSED),
        Err(_) => say(out, NO_MEMORY, REFUSED),
    }
}

/// Prints the reply, and answers its status.
pub fn say_reply<W: Write>(alloc: Global, out: &mut W, reply: &Reply) -> u8
    ensures { PrintsReply (reply_of reply.now) (W.contents out.old) (W.contents out.new) result }
{
    match reply_text(alloc, reply) {
        Ok(text) => say_text(out, text.as_slice(), status_of(reply)),
        Err(_) => say(out, NO_MEMORY, REFUSED),
    }
}

/// The status of a reply that is printed.
fn status_of(reply: &Reply) -> u8
    ensures { result ≡ status_of (reply_of reply.now) }
{
    match reply {
        Reply::Refused(_) => REFUSED,
        _ => DONE,
    }
}
