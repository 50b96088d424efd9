ghost use Rattle.std.specs.Prelude.{◌≡◌, ◌||◌, not};
ghost use Rattle.std.specs.List.{list_all, list_any};
ghost use Rattle.mr_model.specs.Queries.{is_marked};
ghost use Rattle.mr_agree.specs.Agreeing.{is_taken_by, do_cancels_agree};
ghost use Rattle.mr_audit.specs.KeyOrders.{AreByRisingId};

use crate::id_rows::find;
use mr_tables::{CancelRow, CancelledRow, Tables};

/// Whether each booking that was taken back has the cancel that did so, and each cancel that is done has such a booking.
pub(crate) fn do_cancels_agree(tables: &Tables) -> bool
    requires { AreByRisingId tables.now }
    ensures { result ≡ do_cancels_agree tables.now }
{
    are_taken_back(&tables.cancelled, tables) && are_done(&tables.cancels, tables)
}

fn are_taken_back(rows: &[CancelledRow], tables: &Tables) -> bool
    requires { AreByRisingId tables.now }
    ensures { result ≡ list_all (λ row. list_any (λ c. is_taken_by c row) tables.now.cancels) rows.now }
{
    for row in rows {
        if !is_taken_back(tables, row) {
            return false;
        }
    }
    true
}

fn is_taken_back(tables: &Tables, row: &CancelledRow) -> bool
    requires { AreByRisingId tables.now }
    ensures { result ≡ list_any (λ c. is_taken_by c row.now) tables.now.cancels }
{
    match find(&tables.cancels, row.by) {
        Some(cancel) => is_taken_by(cancel, row),
        None => false,
    }
}

fn are_done(rows: &[CancelRow], tables: &Tables) -> bool
    requires { AreByRisingId tables.now }
    ensures { result ≡ list_all (λ c. not c.done || list_any (is_taken_by c) tables.now.cancelled) rows.now }
{
    for row in rows {
        if row.done && !is_done(tables, row) {
            return false;
        }
    }
    true
}

fn is_done(tables: &Tables, cancel: &CancelRow) -> bool
    requires { AreByRisingId tables.now }
    ensures { result ≡ list_any (is_taken_by cancel.now) tables.now.cancelled }
{
    match find(&tables.cancelled, cancel.target) {
        Some(row) => is_taken_by(cancel, row),
        None => false,
    }
}

fn is_taken_by(cancel: &CancelRow, row: &CancelledRow) -> bool
    ensures { result ≡ is_taken_by cancel.now row.now }
{
    let id = cancel.id() == row.by;
    let target = cancel.target == row.id();
    let room = cancel.room == row.booking.room;
    let mark = is_mark_kept(cancel.seq, row.booking.committed);
    id & cancel.done & target & room & mark
}

/// A cancel is not committed before its booking is.
fn is_mark_kept(seq: u64, committed: bool) -> bool
    ensures { result ≡ (not (is_marked seq) || committed) }
{
    seq == 0 || committed
}
