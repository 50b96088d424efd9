//! Rehearsals of scripts, over any reader and writer.

ghost use Rattle.std.specs.Prelude.{◌≡◌, ◌⊎◌, ℕ, List, ◌++◌, map, take, flat_map};
ghost use Rattle.std.specs.Io.KnownBytes.{Appends};
ghost use Rattle.mr_service.specs.Stepping.{step_of, step_reply_of};
ghost use Rattle.mr_words.specs.CommandOutput.{no_memory_line};
ghost use Rattle.mr_tasks.specs.Rehearsed.{step_reply_text, Prints, Rehearses, StopsRehearsing, StopsIn, IsKnownInput, bad_line};

use crate::files::{read_limited, say_fault};
use crate::rehearsal::step_reply_text;
use crate::script::{ScriptFault, read_script};
use mr_service::{Step, StepReply, World};
use mr_words::{DONE, FAULT, NO_MEMORY, REFUSED, say};
use std::alloc::Global;
use std::io::{Read, Write};

/// Runs the script that the reader gives, prints each reply to the writer, and answers the status: 0 if it was
/// run, 1 if a line of it is not of the table or there is no memory, 3 if the reader fails or gives more than
/// 16 MiB, or if the writer does not take a line.
pub fn rehearse<R: Read, W: Write>(alloc: Global, reader: R, out: &mut W) -> u8
where
    R: Drop,
    ensures within { (result ≡ 0) ⊎ (result ≡ 1) ⊎ (result ≡ 3) }
    ensures done { result ≡ 0 → (bytes : List ℕ) × IsKnownInput (R.remaining reader) bytes × Rehearses bytes (W.contents out.old) (W.contents out.new) }
    ensures stopped { result ≡ 1 → (bytes : List ℕ) × IsKnownInput (R.remaining reader) bytes × StopsRehearsing bytes (W.contents out.old) (W.contents out.new) }
{
    match read_limited(alloc, reader) {
        Ok(bytes) => run_script(alloc, bytes.as_slice(), out),
        Err(fault) => say_fault(out, fault),
    }
}

/// Runs the script of these bytes.
fn run_script<W: Write>(alloc: Global, bytes: &[u8], out: &mut W) -> u8
    ensures within { (result ≡ 0) ⊎ (result ≡ 1) ⊎ (result ≡ 3) }
    ensures done { result ≡ 0 → Rehearses bytes.now (W.contents out.old) (W.contents out.new) }
    ensures stopped { result ≡ 1 → StopsRehearsing bytes.now (W.contents out.old) (W.contents out.new) }
{
    match read_script(alloc, bytes) {
        Err(ScriptFault::OutOfMemory) => say(out, NO_MEMORY, REFUSED),
        Err(ScriptFault::BadLine(number)) => say_bad_line(alloc, out, number),
        Ok(steps) => run(alloc, steps.as_slice(), out),
    }
}

/// Takes the steps in order in a new world, and prints each reply.
fn run<W: Write>(alloc: Global, steps: &[Step], out: &mut W) -> u8
    ensures within { (result ≡ 0) ⊎ (result ≡ 1) ⊎ (result ≡ 3) }
    ensures done { result ≡ 0 → (output : List ℕ) × Prints (map step_of steps.now) output × Appends (W.contents out.old) (W.contents out.new) output }
    ensures stopped { result ≡ 1 → Appends (W.contents out.old) (W.contents out.new) no_memory_line
        ⊎ StopsIn (map step_of steps.now) (W.contents out.old) (W.contents out.new) }
{
    let mut world = World::new(alloc);
    match world.run(steps) {
        Ok(replies) => print_all(alloc, replies.as_slice(), out),
        Err(_) => say(out, NO_MEMORY, REFUSED),
    }
}

/// Prints the replies, one after the other.
fn print_all<W: Write>(alloc: Global, replies: &[StepReply], out: &mut W) -> u8
    ensures within { (result ≡ 0) ⊎ (result ≡ 1) ⊎ (result ≡ 3) }
    ensures done { result ≡ 0 → Appends (W.contents out.old) (W.contents out.new) (flat_map step_reply_text (map step_reply_of replies.now)) }
    ensures stopped { result ≡ 1 → (number : ℕ)
        × Appends (W.contents out.old) (W.contents out.new) (flat_map step_reply_text (take number (map step_reply_of replies.now)) ++ no_memory_line) }
{
    for reply in replies {
        let Ok(text) = step_reply_text(alloc, reply) else {
            return say(out, NO_MEMORY, REFUSED);
        };
        match out.write_all(text.as_slice()) {
            Ok(()) => {}
            Err(_) => return FAULT,
        }
    }
    DONE
}

fn say_bad_line<W: Write>(alloc: Global, out: &mut W, number: u64) -> u8
    ensures within { (result ≡ 1) ⊎ (result ≡ 3) }
    ensures told { result ≡ 1 → Appends (W.contents out.old) (W.contents out.new) (bad_line number)
        ⊎ Appends (W.contents out.old) (W.contents out.new) no_memory_line }
{
    match format!(in alloc; "bad script line {number}\n") {
        Ok(line) => say(out, line.as_str(), REFUSED),
        Err(_) => say(out, NO_MEMORY, REFUSED),
    }
}
