//! Reads the lines of a script.

ghost use Rattle.std.specs.Prelude.{◌≡◌, MatchOption, IfOk, Some, None, map};
ghost use Rattle.std.specs.List.{slice_split};
ghost use Rattle.mr_model.specs.Texts.{is_space};
ghost use Rattle.mr_service.specs.Asked.{local_of};
ghost use Rattle.mr_service.specs.Stepping.{step_of};
ghost use Rattle.mr_words.specs.CommandTable.{in_row};
ghost use Rattle.mr_tasks.specs.LineSteps.{book_step, replica_step, batch_step, deliver_step, script_commands, at_server, script_rows, row_step, step_in};

use crate::words::{Words, are_words, read_batch_number, read_length};
use mr_service::{Local, Step};
use mr_words::{BOOK, add_room, read_line_count, read_server, shared_command};
use std::alloc::{AllocError, Global};

/// The step that the line stands for, if it is of the table. A title may have spaces, so that the line of a booking is read word by word.
pub(crate) fn read_step(alloc: Global, line: &str) -> Result<Option<Step>, AllocError>
    ensures { IfOk result (λ found. MatchOption found (step_in line.now ≡ None) (λ step. step_in line.now ≡ Some (step_of step))) }
{
    let mut rest = Words::new(line);
    match rest.next() {
        Some(BOOK) => book(alloc, rest),
        Some(_) => other_step(alloc, line),
        None => Ok(None),
    }
}

fn book(alloc: Global, mut words: Words<'_>) -> Result<Option<Step>, AllocError>
    ensures { IfOk result (λ found. MatchOption found (book_step words.entry ≡ None) (λ step. book_step words.entry ≡ Some (step_of step))) }
{
    let Some(server) = words.server() else {
        return Ok(None);
    };
    match words.booking(alloc)? {
        Some(booking) => Ok(Some(Step::Do(server, Local::Submit(booking)))),
        None => Ok(None),
    }
}

/// The step of a line that is none of a booking. No row has a fifth word, so that no more are asked for.
fn other_step(alloc: Global, line: &str) -> Result<Option<Step>, AllocError>
    ensures { IfOk result (λ found. MatchOption found (row_step (slice_split is_space line.now) ≡ None)
        (λ step. row_step (slice_split is_space line.now) ≡ Some (step_of step))) }
{
    let words: Vec<&str> = line.split(' ').take(5).collect(alloc)?;
    row(alloc, words.as_slice())
}

/// The step of a line of these words.
fn row(alloc: Global, words: &[&str]) -> Result<Option<Step>, AllocError>
    ensures { IfOk result (λ found. MatchOption found (row_step (map (λ w. w.now) words.now) ≡ None)
        (λ step. row_step (map (λ w. w.now) words.now) ≡ Some (step_of step))) }
{
    let [name, rest @ ..] = words else {
        return Ok(None);
    };
    if rest.len() > 3 || !are_words(rest) {
        return Ok(None);
    }
    row_of(alloc, name, rest)
}

/// The step of the row of this name, if these words fit it.
fn row_of(alloc: Global, name: &str, words: &[&str]) -> Result<Option<Step>, AllocError>
    ensures { IfOk result (λ found. MatchOption found (in_row script_rows name.now (map (λ w. w.now) words.now) ≡ None)
        (λ step. in_row script_rows name.now (map (λ w. w.now) words.now) ≡ Some (step_of step))) }
{
    match name {
        "replica" => Ok(replica(words)),
        "batch" => Ok(batch(words)),
        "deliver" => Ok(deliver(words)),
        _ => at_server(alloc, name, words),
    }
}

fn replica(words: &[&str]) -> Option<Step>
    ensures { MatchOption result (replica_step (map (λ w. w.now) words.now) ≡ None)
        (λ step. replica_step (map (λ w. w.now) words.now) ≡ Some (step_of step)) }
{
    let [server] = words else {
        return None;
    };
    let server = read_server(server)?;
    Some(Step::Add(server))
}

fn batch(words: &[&str]) -> Option<Step>
    ensures { MatchOption result (batch_step (map (λ w. w.now) words.now) ≡ None)
        (λ step. batch_step (map (λ w. w.now) words.now) ≡ Some (step_of step)) }
{
    let [from, to, lines] = words else {
        return None;
    };
    let from = read_server(from)?;
    let to = read_server(to)?;
    let max_lines = read_line_count(lines)?;
    Some(Step::Make {
        from,
        to,
        max_lines,
    })
}

fn deliver(words: &[&str]) -> Option<Step>
    ensures { MatchOption result (deliver_step (map (λ w. w.now) words.now) ≡ None)
        (λ step. deliver_step (map (λ w. w.now) words.now) ≡ Some (step_of step)) }
{
    let [batch, to, bytes] = words else {
        return None;
    };
    let batch = read_batch_number(batch)?;
    let to = read_server(to)?;
    let bytes = read_length(bytes)?;
    Some(Step::Deliver { batch, to, bytes })
}

/// A replica's number, and a command to it.
fn at_server(alloc: Global, name: &str, words: &[&str]) -> Result<Option<Step>, AllocError>
    ensures { IfOk result (λ found. MatchOption found (at_server (in_row script_commands name.now) (map (λ w. w.now) words.now) ≡ None)
        (λ step. at_server (in_row script_commands name.now) (map (λ w. w.now) words.now) ≡ Some (step_of step))) }
{
    let [server, rest @ ..] = words else {
        return Ok(None);
    };
    let Some(server) = read_server(server) else {
        return Ok(None);
    };
    match named_command(alloc, name, rest)? {
        Some(local) => Ok(Some(Step::Do(server, local))),
        None => Ok(None),
    }
}

/// The command of the row of this name, if these words fit it.
fn named_command(alloc: Global, name: &str, words: &[&str]) -> Result<Option<Local>, AllocError>
    ensures { IfOk result (λ found. MatchOption found (in_row script_commands name.now (map (λ w. w.now) words.now) ≡ None)
        (λ local. in_row script_commands name.now (map (λ w. w.now) words.now) ≡ Some (local_of local))) }
{
    match name {
        "room" => add_room(alloc, words),
        _ => shared_command(alloc, name, words),
    }
}
