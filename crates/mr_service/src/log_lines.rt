//! The error log of a room, of its rows of `errorlog` and its cancels.

ghost use Rattle.std.specs.Prelude.{◌≡◌, ◌++◌, [], ◌∷◌, map, filter, not, IfOk, IfErr, OnOk};
ghost use Rattle.std.specs.List.Sorted.{IsPermutation, IsSortedByKey};
ghost use Rattle.mr_model.specs.Queries.{OfLogged, OfVoid};
ghost use Rattle.mr_service.specs.Asked.{log_line_seen};
ghost use Rattle.mr_service.specs.Questions.{lines_of, line_key, log_key_cmp};

use crate::replies::LogLine;
use mr_base::{Refusal, ServerId};
use mr_tables::{CancelRow, ErrorRow};
use std::alloc::Global;

impl LogLine {
    /// Lines come by these: committed ones first, by their number; then the others, by time and server.
    fn key(&self) -> (bool, u64, u64, ServerId)
        ensures { result ≡ line_key self.now }
    {
        match self {
            LogLine::Request(row) => (row.seq == 0, row.seq, row.time, row.server),
            LogLine::VoidCancel(row) => (row.seq == 0, row.seq, row.time, row.server),
        }
    }
}

/// The lines of a room's error log, in the order of the log: its error rows, and its cancels that took nothing back.
pub(crate) fn log_lines(
    alloc: Global,
    requests: Vec<ErrorRow>,
    cancels: Vec<CancelRow>,
) -> Result<Vec<LogLine>, Refusal>
    ensures same { IfOk result (λ lines. IsPermutation (lines_of requests.items cancels.items) (map log_line_seen lines.items)) }
    ensures order { IfOk result (λ lines. IsSortedByKey line_key log_key_cmp lines.items) }
    ensures only { IfErr result (λ e. e ≡ Refusal.OutOfMemory) }
{
    let mut lines = of_requests(alloc, requests)?;
    put_void(&mut lines, cancels)?;
    Ok(in_log_order(lines))
}

fn of_requests(alloc: Global, requests: Vec<ErrorRow>) -> Result<Vec<LogLine>, Refusal>
    ensures lines { IfOk result (λ lines. map log_line_seen lines.items ≡ map (λ row. OfLogged row) requests.items) }
    ensures only { IfErr result (λ e. e ≡ Refusal.OutOfMemory) }
{
    let mut lines = Vec::with_capacity(alloc, requests.len())?;
    for row in requests {
        lines.push(LogLine::Request(row))?;
    }
    Ok(lines)
}

/// Puts the cancels that took nothing back behind them.
fn put_void(lines: &mut Vec<LogLine>, cancels: Vec<CancelRow>) -> Result<(), Refusal>
    ensures lines { OnOk result
        (map log_line_seen lines.new.items ≡ map log_line_seen lines.old.items ++ map (λ row. OfVoid row) (filter (λ row. not row.done) cancels.items)) }
    ensures only { IfErr result (λ e. e ≡ Refusal.OutOfMemory) }
{
    for row in cancels {
        put_if_void(lines, row)?;
    }
    Ok(())
}

fn put_if_void(lines: &mut Vec<LogLine>, row: CancelRow) -> Result<(), Refusal>
    ensures lines { OnOk result
        (map log_line_seen lines.new.items ≡ map log_line_seen lines.old.items ++ map (λ row. OfVoid row) (filter (λ row. not row.done) (row ∷ []))) }
    ensures only { IfErr result (λ e. e ≡ Refusal.OutOfMemory) }
{
    if !row.done {
        lines.push(LogLine::VoidCancel(row))?;
    }
    Ok(())
}

fn in_log_order(mut lines: Vec<LogLine>) -> Vec<LogLine>
    ensures same { IsPermutation lines.items result.items }
    ensures order { IsSortedByKey line_key log_key_cmp result.items }
{
    lines.sort_unstable_by_key(|line| line.key());
    lines
}
