ghost use Rattle.std.specs.Prelude.{◌≡◌, ◌==◌, ◌-◌, true, length, slice_index, option_map, ok_or, IfOk, Ok};
ghost use Rattle.mr_model.specs.Texts.{whole_lines};
ghost use Rattle.mr_model.specs.Refusals.{BadPosition};
ghost use Rattle.mr_model.specs.Positions.{Position as PositionOfReplica, is_position, position_text, read_position};
ghost use Rattle.mr_base.specs.Answers.{Gives};
ghost use Rattle.mr_base.specs.PositionCounts.{counts_of_pairs};
ghost use Rattle.mr_base.specs.Versions.{version_of};
ghost use Rattle.mr_wire.specs.Fields.{servers_of as servers_read, parse_commits as commits_read, parse_count as count_read, counts_until_end, no_more, with_counts, position_on};
ghost use Rattle.mr_wire.specs.LineAnswers.{GivesRead};

use crate::fault::LineFault;
use crate::fields::{behind_word, server_and};
use crate::versions::{position_word, servers_under};
use crate::words::first_line_of_text;
use mr_base::{GREATEST_COMMIT, GREATEST_COUNT, Position, Refusal, ServerId, Version, read_number};
use std::alloc::Global;

/// The position whose text the bytes are, all of them; `BadPosition` for anything else, a cut text too, unless memory runs out.
pub fn read_position(alloc: Global, bytes: &[u8]) -> Result<Position, Refusal>
    ensures exact { Gives result (ok_or (read_position bytes.now) BadPosition) }
    // What is read has these bytes as its text.
    ensures reads { IfOk result (λ p. bytes.now ≡ position_text p) }
    // The text of each position is read, unless memory runs out.
    ensures all_read { (p : PositionOfReplica) → is_position p ≡ true → bytes.now ≡ position_text p → Gives result (Ok p) }
{
    position_or_refusal(alloc, bytes)
}

fn position_or_refusal(alloc: Global, bytes: &[u8]) -> Result<Position, Refusal>
    ensures exact { Gives result (ok_or (read_position bytes.now) BadPosition) }
{
    match position_of(alloc, bytes) {
        Ok(position) => Ok(position),
        Err(LineFault::OutOfMemory) => Err(Refusal::OutOfMemory),
        Err(LineFault::NotALine) => Err(Refusal::BadPosition),
    }
}

fn position_of(alloc: Global, bytes: &[u8]) -> Result<Position, LineFault>
    ensures { GivesRead (λ p. p) result (read_position bytes.now) }
{
    let Ok(text) = str::from_utf8(bytes) else {
        return Err(LineFault::NotALine);
    };
    if ends_in_line(text) {
        position_of_lines(alloc, text)
    } else {
        Err(LineFault::NotALine)
    }
}

// Whether the last line is whole.
fn ends_in_line(text: &str) -> bool
    ensures { result ≡ (slice_index text.now (length text.now - 1) == 10) }
{
    text.ends_with('\n')
}

/// The position on the lines of a text.
#[tactic(auto, unfolding(crate::specs::Fields::position_on))]
fn position_of_lines(alloc: Global, text: &str) -> Result<Position, LineFault>
    ensures { GivesRead (λ p. p) result (position_on text.now) }
{
    let Some((servers, rest)) = first_line_of_text(text) else {
        return Err(LineFault::NotALine);
    };
    let Some((commits, rest)) = first_line_of_text(rest) else {
        return Err(LineFault::NotALine);
    };
    let Some((version, server, primary)) = servers_in(servers) else {
        return Err(LineFault::NotALine);
    };
    let Some(commits) = commits_in(commits) else {
        return Err(LineFault::NotALine);
    };
    let counts = counts_in(alloc, rest)?;
    match Position::new(version, server, primary, commits, counts) {
        Some(position) => Ok(position),
        None => Err(LineFault::NotALine),
    }
}

#[tactic(auto, unfolding(crate::specs::Fields::servers_of))]
fn servers_in(line: &str) -> Option<(Version, ServerId, ServerId)>
    ensures { option_map (λ x. (version_of x.0, x.1, x.2)) result ≡ servers_read line.now }
{
    servers_under(
        line,
        position_word(Version::First),
        position_word(Version::Second),
    )
}

#[tactic(auto, unfolding(crate::specs::Fields::parse_commits))]
fn commits_in(line: &str) -> Option<u64>
    ensures { result ≡ commits_read line.now }
{
    let rest = behind_word("K", line)?;
    read_number(rest, 0, GREATEST_COMMIT)
}

#[tactic(auto, using(std::proofs::lemmas::Bool::Decides::nat_tests), unfolding(crate::specs::Fields::parse_count))]
fn count_in(line: &str) -> Option<(ServerId, u32)>
    ensures { option_map (λ c. record { server = c.0; count = c.1 }) result ≡ count_read line.now }
{
    let rest = behind_word("V", line)?;
    let (server, count) = server_and(rest, GREATEST_COUNT as u64)?;
    Some((server, count as u32))
}

/// The counts on the lines up to the last, which is `E`.
fn counts_in(alloc: Global, text: &str) -> Result<Vec<(ServerId, u32)>, LineFault>
    ensures { GivesRead (λ v. counts_of_pairs v.items) result (counts_until_end (whole_lines text.now)) }
{
    let mut counts = Vec::new(alloc);
    let mut rest = text;
    while let Some((line, behind)) = first_line_of_text(rest) {
        if line == "E" {
            return if_last(counts, behind);
        }
        match count_in(line) {
            Some(count) => counts.push(count)?,
            None => return Err(LineFault::NotALine),
        }
        rest = behind;
    }
    Err(LineFault::NotALine)
}

/// The counts, if no line is left.
fn if_last(counts: Vec<(ServerId, u32)>, behind: &str) -> Result<Vec<(ServerId, u32)>, LineFault>
    ensures { GivesRead (λ v. counts_of_pairs v.items) result (with_counts (counts_of_pairs counts.items) (no_more (whole_lines behind.now))) }
{
    match first_line_of_text(behind) {
        None => Ok(counts),
        Some(_) => Err(LineFault::NotALine),
    }
}
