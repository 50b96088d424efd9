//! What an exchange prints.

ghost use Rattle.std.specs.Prelude.{◌≡◌, ◌⊎◌, [], ◌∷◌, IfOk, codes, decimal};
ghost use Rattle.std.specs.String.{string_bytes};
ghost use Rattle.std.specs.Io.KnownBytes.{Appends};
ghost use Rattle.mr_model.specs.Texts.{line, words};
ghost use Rattle.mr_words.specs.CommandOutput.{no_memory_line};
ghost use Rattle.mr_net.specs.Printed.{way_line, peer_line, IsFaultLine, StopsWithText, TellsBoth, TellsWay};

use crate::ways::{Peer, Taken, Way, all_rounds};
use mr_http::WebFault;
use mr_words::{DONE, FAULT, NO_MEMORY, REFUSED, say, say_made, say_refusal};
use std::alloc::{AllocError, Global};
use std::io::Write;

/// Prints that the network failed.
pub(crate) fn say_no_network<W: Write>(out: &mut W) -> u8
    ensures { result ≡ 3 }
{
    say(out, "fault network\n", FAULT)
}

/// Prints why a way ended early.
fn say_fault<W: Write>(alloc: Global, out: &mut W, fault: &WebFault) -> u8
    ensures { StopsWithText (IsFaultLine fault.now) (W.contents out.old) (W.contents out.new) result }
{
    match fault {
        WebFault::Memory => say(out, NO_MEMORY, REFUSED),
        WebFault::Own(refusal) => say_refusal(alloc, out, refusal),
        WebFault::Peer(status) => say_answered(alloc, out, *status),
        WebFault::Read | WebFault::Write | WebFault::BadReply => say_no_network(out),
    }
}

/// Prints the status that the peer answered, which isn't 200.
fn say_answered<W: Write>(alloc: Global, out: &mut W, status: u16) -> u8
    ensures { StopsWithText (λ text. (text ≡ peer_line status) ⊎ (text ≡ no_memory_line)) (W.contents out.old) (W.contents out.new) result }
{
    say_made(out, peer_text(alloc, status), REFUSED)
}

fn peer_text(alloc: Global, status: u16) -> Result<String, AllocError>
    ensures { IfOk result (λ text. string_bytes text ≡ peer_line status) }
{
    format!(in alloc; "peer answered {status}\n")
}

/// Prints what a way brought.
fn say_taken<W: Write>(alloc: Global, out: &mut W, way: Way, taken: Taken) -> u8
    ensures { ((result ≡ 0) × Appends (W.contents out.old) (W.contents out.new) (way_line way taken))
        ⊎ StopsWithText (λ text. text ≡ no_memory_line) (W.contents out.old) (W.contents out.new) result }
{
    say_made(out, way_text(alloc, way, taken), DONE)
}

fn way_text(alloc: Global, way: Way, taken: Taken) -> Result<String, AllocError>
    ensures { IfOk result (λ text. string_bytes text ≡ way_line way taken) }
{
    match way {
        Way::Pull => pulled_text(alloc, taken.writes, taken.commits),
        Way::Push => pushed_text(alloc, taken.writes, taken.commits),
    }
}

fn pulled_text(alloc: Global, writes: u64, commits: u64) -> Result<String, AllocError>
    ensures { IfOk result (λ text. string_bytes text ≡ line
        (words (codes "pulled" ∷ decimal writes ∷ codes "writes" ∷ decimal commits ∷ codes "commits" ∷ []))) }
{
    let text = format!(in alloc; "pulled {writes} writes {commits} commits\n")?;
    Ok(text)
}

fn pushed_text(alloc: Global, writes: u64, commits: u64) -> Result<String, AllocError>
    ensures { IfOk result (λ text. string_bytes text ≡ line
        (words (codes "pushed" ∷ decimal writes ∷ codes "writes" ∷ decimal commits ∷ codes "commits" ∷ []))) }
{
    let text = format!(in alloc; "pushed {writes} writes {commits} commits\n")?;
    Ok(text)
}

/// Runs a way, and prints what it brought or why it ended early.
fn exchange_one_way<P: Peer, W: Write>(alloc: Global, peer: &mut P, way: Way, out: &mut W) -> u8
    ensures { TellsWay P.runs way peer.old peer.new (W.contents out.old) (W.contents out.new) result }
{
    match all_rounds(peer, way) {
        Ok(taken) => say_taken(alloc, out, way, taken),
        Err(fault) => say_fault(alloc, out, &fault),
    }
}

/// Exchanges both ways, and prints what each brought. A fault ends the exchange, and is printed in place of its way's line.
pub(crate) fn exchange_with<P: Peer, W: Write>(alloc: Global, peer: &mut P, out: &mut W) -> u8
    ensures { TellsBoth P.runs peer.old peer.new (W.contents out.old) (W.contents out.new) result }
{
    let status = exchange_one_way(alloc, peer, Way::Pull, out);
    if status != DONE {
        return status;
    }
    exchange_one_way(alloc, peer, Way::Push, out)
}
