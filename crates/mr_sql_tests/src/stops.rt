// The disks of a replica stop at each call in turn while it is asked. Once they are opened again, it is the one before or the one after,
// and the one after if it had replied. The memory is ample.

use crate::acts::Act;
use crate::disks::{Bytes, NO_STOP, Stop, are_same, are_whole, bytes_of, disks};
use crate::first_files::{FIRST, SECOND, layout_of};
use crate::on_disks::{asked, seen_in};
use crate::same_text::{holds, is_text};
use sqlite_disk::Crash;
use std::alloc::Global;
use std::process::Abort;

/// What is found in the files once they are opened again.
#[derive(Clone, Copy)]
pub(crate) enum Found {
    /// What is seen of the replica before the command, and what is seen after it.
    Seen(&'static str, &'static str),
    /// The tables of the first schema before the command, those of the second after it, and this is seen of the replica both times.
    Moved(&'static str),
}

/// What is asked and its reply, and what is found then.
#[derive(Clone, Copy)]
pub(crate) struct Case {
    pub(crate) ask: (Act, &'static str),
    pub(crate) found: Found,
}

/// Whether all tables are those of one schema, and of the second if the replica had replied.
fn is_whole(rt: &impl Abort, alloc: Global, bytes: &Bytes, is_acknowledged: bool) -> bool {
    let layout = layout_of(rt, alloc, bytes);
    layout == Some(SECOND) || layout == Some(FIRST) && !is_acknowledged
}

/// The replica in files with these bytes is the one before or the one after, and the one after if it had replied.
fn check_found(rt: &impl Abort, alloc: Global, bytes: &Bytes, case: Case, is_acknowledged: bool) {
    let seen = seen_in(rt, alloc, disks(rt, alloc, bytes, NO_STOP));
    let is_found = match case.found {
        Found::Seen(before, after) => {
            is_text(&seen, after.as_bytes())
                || is_text(&seen, before.as_bytes()) && !is_acknowledged
        }
        Found::Moved(wanted) => {
            is_text(&seen, wanted.as_bytes()) && is_whole(rt, alloc, bytes, is_acknowledged)
        }
    };
    holds(rt, is_found, case.ask.1);
}

/// The disks stop so; with and without what was not synced the replica is the one before or after. Answers whether they have stopped, or
/// would at the next call.
fn is_stopped(rt: &impl Abort, alloc: Global, bytes: &Bytes, case: Case, stop: Stop) -> bool {
    let files = disks(rt, alloc, bytes, stop);
    let (is_acknowledged, mut files) = asked(rt, alloc, files, case.ask);
    let is_stopped = !are_whole(&mut files);
    let kept = bytes_of(rt, alloc, &files);
    check_found(rt, alloc, &kept, case, is_acknowledged);
    files.log.crash();
    files.db.crash();
    let synced = bytes_of(rt, alloc, &files);
    if !are_same(&kept, &synced) {
        check_found(rt, alloc, &synced, case, is_acknowledged);
    }
    is_stopped
}

fn stop_at(calls: u64, is_log: bool) -> Stop {
    if is_log {
        return Stop {
            log: calls,
            db: u64::MAX,
        };
    }
    Stop {
        log: u64::MAX,
        db: calls,
    }
}

/// More calls than a file is asked.
const MANY: u64 = 1000;

/// Lets a file stop after 0, 1, 2, .. calls, until it has all calls that it is asked and one more. Answers how often it stopped.
fn stops(rt: &impl Abort, alloc: Global, bytes: &Bytes, case: Case, is_log: bool) -> u64 {
    for calls in 0..MANY {
        if !is_stopped(rt, alloc, bytes, case, stop_at(calls, is_log)) {
            return calls.saturating_sub(1);
        }
    }
    holds(rt, false, "a file that stops at last");
    MANY
}

/// How often the log of files with these bytes stops, and how often the database does.
pub(crate) fn all_stops(rt: &impl Abort, alloc: Global, bytes: &Bytes, case: Case) -> (u64, u64) {
    let of_log = stops(rt, alloc, bytes, case, true);
    let of_database = stops(rt, alloc, bytes, case, false);
    holds(rt, of_log > 0 && of_database > 0, "stops");
    (of_log, of_database)
}
