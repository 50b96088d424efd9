//! What a command line asks for.

ghost use Rattle.std.specs.Prelude.{◌≡◌, true, MatchResult, None, Some, map};
ghost use Rattle.std.specs.String.{string_bytes};
ghost use Rattle.clap.specs.Words.{found_of, rows_of};
ghost use Rattle.clap.specs.declared.error.ErrorKind.TheVariants.{OutOfMemory};
ghost use Rattle.mr_words.specs.declared.invocations.WordFault.TheVariants.{Bad, Memory};
ghost use Rattle.mr_words.specs.CommandTable.{has_no_flag, in_row, invocation_of, table};
ghost use Rattle.mr_words.specs.CommandSpelling.{LinesReadBack};
ghost use Rattle.mr_words.specs.InvocationRead.{NamesRow, asked_of, words_in};

use crate::grammar::grammar;
use crate::rows::row;
use crate::{Invocation, WordFault};
use clap::ArgMatches;
use clap::error::ErrorKind;
use std::alloc::Global;

/// What the words after the program's name ask for. If one begins with a hyphen, `clap` may read it as a flag, and
/// the words are mostly `Bad`; so they are if help is asked for.
pub fn invocation(alloc: Global, words: &[String]) -> Result<Invocation, WordFault>
    ensures { has_no_flag (map string_bytes words.now) ≡ true → MatchResult result
        (λ i. invocation_of (map string_bytes words.now) ≡ Some (asked_of i))
        (λ fault. fault ≡ Bad → invocation_of (map string_bytes words.now) ≡ None) }
{
    let matches = parse(alloc, words)?;
    match matches.subcommand() {
        Some((name, inner)) => read_row(alloc, name, inner),
        None => Err(WordFault::Bad),
    }
}

/// A law of the definitions: whatever a command line may ask for has one that asks for it.
pub fn command_lines_read_back()
    ensures { LinesReadBack }
{}

/// The words as `clap` parts them.
fn parse<'a>(alloc: Global, words: &'a [String]) -> Result<ArgMatches<'a>, WordFault>
    ensures { has_no_flag (map string_bytes words.entry.now) ≡ true → MatchResult result (NamesRow (map string_bytes words.entry.now))
        (λ fault. fault ≡ Bad → invocation_of (map string_bytes words.entry.now) ≡ None) }
{
    match grammar(alloc)?.try_get_matches_from(words) {
        Ok(matches) => Ok(matches),
        Err(error) => Err(fault_of(error.kind())),
    }
}

fn fault_of(kind: ErrorKind) -> WordFault
    ensures memory { kind ≡ OutOfMemory → result ≡ Memory }
    ensures bad { ¬ (kind ≡ OutOfMemory) → result ≡ Bad }
{
    match kind {
        ErrorKind::OutOfMemory => WordFault::Memory,
        _ => WordFault::Bad,
    }
}

/// The row of this name, if the words among its matches fit it.
fn read_row(alloc: Global, name: &str, matches: &ArgMatches<'_>) -> Result<Invocation, WordFault>
    ensures { MatchResult result (λ i. in_row table name.now (words_in (rows_of (found_of matches.now))) ≡ Some (asked_of i))
        (λ fault. fault ≡ Bad → in_row table name.now (words_in (rows_of (found_of matches.now))) ≡ None) }
{
    let words = matches.get_strs("words").unwrap_or(&[]);
    match row(alloc, name, words)? {
        Some(invocation) => Ok(invocation),
        None => Err(WordFault::Bad),
    }
}
