//! Command lines.

ghost use Rattle.std.specs.Prelude.{◌≡◌, ◌≤◌, ◌⊎◌, true, map, Some, None};
ghost use Rattle.std.specs.String.{string_bytes};
ghost use Rattle.std.specs.Io.KnownBytes.{Appends};
ghost use Rattle.mr_words.specs.CommandTable.{Invoked, has_no_flag, invocation_of};
ghost use Rattle.mr_words.specs.InvocationRead.{asked_of};
ghost use Rattle.mr_words.specs.CommandOutput.{no_memory_line};
ghost use Rattle.mr_tasks.specs.Rehearsed.{bad_words_line};
ghost use Rattle.mr.specs.CommandLines.{EndsAs};
ghost use Rattle.mr_tasks.specs.Tasks.{EndsRehearsal};
ghost use Rattle.mr_tasks.specs.CommandEffects.{TellsFault};

use mr_net::{bridge, exchange, serve};
use mr_sql::{CopyKeeper, FileKeeper};
use mr_store::Keeper;
use mr_tasks::databases::{init, on_database};
use mr_tasks::files::{open_file, say_fault};
use mr_tasks::rehearse;
use mr_trees::CopyOfTrees;
use mr_words::{BAD_WORDS, Invocation, NO_MEMORY, REFUSED, WordFault, invocation, say};
use std::alloc::Global;
use std::io::Write;

/// Does what the words after the program's name ask for, prints to the writer and answers the status: 0 if it was
/// done; 1 if it was refused, a line of a script is bad or a peer answered another status than 200; 2 if the words are no command
/// line, or the address is none; 3 if a file can't be had, the network fails or the writer doesn't take a line.
pub fn command<W: Write>(rt: &HostRuntime, alloc: Global, words: &[String], out: &mut W) -> u8
    ensures within { result ≤ 3 }
    ensures asked { has_no_flag (map string_bytes words.now) ≡ true → (asked : Invoked) → invocation_of (map string_bytes words.now) ≡ Some asked
        → EndsAs ⟦<FileKeeper as Keeper>⟧ ⟦<CopyKeeper as Keeper>⟧ ⟦<CopyOfTrees as Keeper>⟧ asked (W.contents out.old) (W.contents out.new) result }
    ensures bad { has_no_flag (map string_bytes words.now) ≡ true → invocation_of (map string_bytes words.now) ≡ None
        → ((result ≡ 2) × Appends (W.contents out.old) (W.contents out.new) bad_words_line)
        ⊎ (((result ≡ 1) × Appends (W.contents out.old) (W.contents out.new) no_memory_line) ⊎ (result ≡ 3)) }
{
    match invocation(alloc, words) {
        Ok(asked) => perform(rt, alloc, asked, out),
        Err(fault) => say_word_fault(fault, out),
    }
}

/// Prints why there is no command line, and answers the status. If the words can't be had for lack of memory, that is a
/// refusal like any other.
pub fn say_word_fault<W: Write>(fault: WordFault, out: &mut W) -> u8
    ensures bad { fault ≡ WordFault.Bad → ((result ≡ 2) × Appends (W.contents out.old) (W.contents out.new) bad_words_line) ⊎ (result ≡ 3) }
    ensures memory { fault ≡ WordFault.Memory → TellsFault (W.contents out.old) (W.contents out.new) result }
{
    match fault {
        WordFault::Bad => say(out, "bad command line\n", BAD_WORDS),
        WordFault::Memory => say(out, NO_MEMORY, REFUSED),
    }
}

/// Does what was asked for.
fn perform<W: Write>(rt: &HostRuntime, alloc: Global, asked: Invocation, out: &mut W) -> u8
    ensures { EndsAs ⟦<FileKeeper as Keeper>⟧ ⟦<CopyKeeper as Keeper>⟧ ⟦<CopyOfTrees as Keeper>⟧ (asked_of asked) (W.contents out.old) (W.contents out.new) result }
{
    match asked {
        Invocation::Init {
            database,
            server,
            primary,
        } => init(rt, alloc, database.as_str(), server, primary, out),
        Invocation::Ask { database, task } => {
            on_database(rt, alloc, database.as_str(), task, out)
        }
        Invocation::Rehearse { script } => rehearse_file(rt, alloc, script.as_str(), out),
        Invocation::Serve {
            database,
            port,
            count,
        } => serve(rt, alloc, database.as_str(), port, count, out),
        Invocation::Exchange { database, url } => {
            exchange(rt, alloc, database.as_str(), url.as_str(), out)
        }
        Invocation::Bridge { database, other } => {
            bridge(rt, alloc, database.as_str(), other.as_str(), out)
        }
    }
}

/// Runs the script in a file.
fn rehearse_file<W: Write>(rt: &HostRuntime, alloc: Global, script: &str, out: &mut W) -> u8
    ensures { EndsRehearsal (W.contents out.old) (W.contents out.new) result }
{
    match open_file(rt, script) {
        Ok(file) => rehearse(alloc, file, out),
        Err(fault) => say_fault(out, fault),
    }
}
