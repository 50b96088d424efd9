//! Reads a script whole.

ghost use Rattle.std.specs.Prelude.{◌≡◌, MatchOption, MatchResult, IfOk, Ok, map};
ghost use Rattle.mr_model.specs.World as model;
ghost use Rattle.mr_service.specs.Stepping.{step_of};
ghost use Rattle.mr_tasks.specs.RehearsalScript.{is_passed_over, is_printable, IsScriptLine, ReadsAsScript, ReadsOneWay};
ghost use Rattle.mr_tasks.specs.ScriptRead.{IsLineAs, IsFaultOf};

use crate::lines::read_step;
use mr_service::Step;
use std::alloc::{AllocError, AllocFailed, Global};

/// Why a script is not run.
#[derive(Clone, Copy, Debug, PartialEq, Eq)]
pub enum ScriptFault {
    /// The line of this number, counted from 1, is not of the table.
    BadLine(u64),
    OutOfMemory,
}

impl From<AllocError> for ScriptFault {
    ghost use Rattle.mr_tasks.specs.declared.script.ScriptFault.TheVariants.{OutOfMemory};

    ghost from_gives = { λ _ e. e ≡ OutOfMemory };

    fn from(_error: AllocError) -> ScriptFault {
        ScriptFault::OutOfMemory
    }
}

impl<T: Drop> From<AllocFailed<T>> for ScriptFault {
    ghost use Rattle.mr_tasks.specs.declared.script.ScriptFault.TheVariants.{OutOfMemory};

    ghost from_gives = { λ _ e. e ≡ OutOfMemory };

    fn from(_error: AllocFailed<T>) -> ScriptFault {
        ScriptFault::OutOfMemory
    }
}

/// The steps of a script's lines. Empty lines and those that begin with # are passed over; the first bad line refuses the whole script.
pub fn read_script(alloc: Global, bytes: &[u8]) -> Result<Vec<Step>, ScriptFault>
    ensures { MatchResult result (λ steps. ReadsAsScript bytes.now (Ok (map step_of steps.items))) (IsFaultOf bytes.now) }
{
    let mut steps = Vec::new(alloc);
    for (index, line) in bytes.split(|byte| *byte == b'\n').enumerate() {
        match line_of(alloc, line)? {
            ScriptLine::PassedOver => {}
            ScriptLine::Step(step) => steps.push(step)?,
            ScriptLine::Bad => return Err(ScriptFault::BadLine(index as u64 + 1)),
        }
    }
    Ok(steps)
}

/// A law of the definitions: a script stands for one list of steps, or has one first bad line.
pub fn scripts_are_read_one_way()
    ensures { ReadsOneWay }
{}

/// What a line of a script is.
#[derive(Drop)]
enum ScriptLine {
    PassedOver,
    Step(Step),
    Bad,
}

/// What the line is.
fn line_of(alloc: Global, line: &[u8]) -> Result<ScriptLine, AllocError>
    ensures { IfOk result (IsLineAs line.now) }
{
    if is_passed_over(line) {
        return Ok(ScriptLine::PassedOver);
    }
    match read_line(alloc, line)? {
        Some(step) => Ok(ScriptLine::Step(step)),
        None => Ok(ScriptLine::Bad),
    }
}

/// Whether the line is empty or begins with `#`.
fn is_passed_over(line: &[u8]) -> bool
    ensures { result ≡ is_passed_over line.now }
{
    match line {
        [] => true,
        [first, ..] => *first == b'#',
    }
}

/// Whether all bytes are from 0x20 to 0x7E.
fn is_plain(line: &[u8]) -> bool
    ensures { result ≡ is_printable line.now }
{
    line.iter().all(|byte| *byte >= b' ' && *byte <= b'~')
}

/// The step that the line stands for, if it is of the table.
fn read_line(alloc: Global, line: &[u8]) -> Result<Option<Step>, AllocError>
    ensures { IfOk result (λ found. MatchOption found ((step : model.Step) → ¬ IsScriptLine line.now step) (λ step. IsScriptLine line.now (step_of step))) }
{
    if !is_plain(line) {
        return Ok(None);
    }
    match str::from_utf8(line) {
        Ok(text) => read_step(alloc, text),
        Err(_) => Ok(None),
    }
}
