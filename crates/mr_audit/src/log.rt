ghost use Rattle.std.specs.Prelude.{◌≡◌, ◌<◌, ◌^◌, ◌||◌, not, map};
ghost use Rattle.std.specs.List.{list_all};
ghost use Rattle.mr_model.specs.Texts.{within};
ghost use Rattle.mr_model.specs.Queries.{log_id};
ghost use Rattle.mr_agree.specs.Agreeing.{same_mark, row_ids, is_first, is_last, next_id, is_in_log, does_log_agree, is_log_whole};
ghost use Rattle.mr_audit.specs.KeyOrders.{AreByRisingId};
ghost use Rattle.mr_audit.specs.SideBySide.{is_placed};

use crate::id_rows::{has, has_next};
use crate::known::{is_first, is_last, write_count};
use crate::note_rows::NoteRow;
use mr_base::WriteId;
use mr_tables::{IdRow, LogRow, Tables};

/// Whether as many writes are in no row of the log as are dropped.
pub(crate) fn is_log_whole(tables: &Tables) -> bool
    ensures { result ≡ is_log_whole tables.now }
{
    let kept = tables.log.len() as u128;
    let dropped = widened(tables.meta.dropped);
    kept + dropped == write_count(&tables.vector)
}

fn widened(number: u64) -> u128
    ensures value { result ≡ number }
    ensures small { result < 2 ^ 64 }
{
    u128::from(number)
}

/// Whether the log has, of the writes whose rows say if they are kept, those that are not dropped, and no other one (how many it has
/// `is_log_whole` tests).
pub(crate) fn does_log_agree(tables: &Tables) -> bool
    requires { AreByRisingId tables.now }
    ensures { result ≡ does_log_agree tables.now }
{
    let placed = are_placed(&tables.log, tables);
    let kept = are_all_committed_or_kept(tables);
    let next = have_next(&tables.log, tables);
    let errors = are_kept_or_dropped(&tables.errorlog, tables);
    let cancels = are_kept_or_dropped(&tables.cancels, tables);
    let undropped = are_undropped(&tables.log, tables);
    placed & kept & next & errors & cancels & undropped
}

fn is_in_log(tables: &Tables, id: WriteId) -> bool
    requires { AreByRisingId tables.now }
    ensures { result ≡ is_in_log tables.now id }
{
    has(&tables.log, id)
}

/// Whether a row tells what became of each write of these.
fn are_placed(rows: &[LogRow], tables: &Tables) -> bool
    requires { AreByRisingId tables.now }
    ensures { result ≡ list_all (λ id. is_placed id tables.now) (map log_id rows.now) }
{
    for row in rows {
        if !is_placed(tables, row.id()) {
            return false;
        }
    }
    true
}

fn is_placed(tables: &Tables, id: WriteId) -> bool
    requires { AreByRisingId tables.now }
    ensures { result ≡ is_placed id tables.now }
{
    has(&tables.booking, id)
        || (has(&tables.errorlog, id) || (has(&tables.cancelled, id) || has(&tables.cancels, id)))
}

fn are_all_committed_or_kept(tables: &Tables) -> bool
    requires { AreByRisingId tables.now }
    ensures { result ≡ list_all (λ id. is_first tables.now id || is_in_log tables.now id) (row_ids tables.now) }
{
    are_committed_or_kept(&tables.booking, tables)
        && (are_committed_or_kept(&tables.errorlog, tables)
            && (are_committed_or_kept(&tables.cancelled, tables)
                && are_committed_or_kept(&tables.cancels, tables)))
}

/// Whether each write of these is committed or in the log.
fn are_committed_or_kept<R: IdRow>(rows: &[R], tables: &Tables) -> bool
    requires { AreByRisingId tables.now }
    ensures { result ≡ list_all (λ id. is_first tables.now id || is_in_log tables.now id) (map R.id rows.now) }
{
    for row in rows {
        let id = row.write_id();
        if !(is_first(tables, id) || is_in_log(tables, id)) {
            return false;
        }
    }
    true
}

/// Whether the log has the next write of its server behind each of these, unless that is the last.
fn have_next(rows: &[LogRow], tables: &Tables) -> bool
    requires { AreByRisingId tables.now }
    ensures { result ≡ list_all (λ id. is_last tables.now id || is_in_log tables.now (next_id id)) (map log_id rows.now) }
{
    for row in rows {
        if !(is_last(tables, row.id()) || has_next(&tables.log, row.id())) {
            return false;
        }
    }
    true
}

/// Whether each of these writes is in the log exactly if its commit number isn't that of a dropped commit.
fn are_kept_or_dropped<R: NoteRow>(rows: &[R], tables: &Tables) -> bool
    requires { AreByRisingId tables.now }
    ensures { result ≡ list_all (λ row. same_mark (is_in_log tables.now (R.id row)) (not (within 1 tables.now.meta.dropped (R.note row).seq))) rows.now }
{
    for row in rows {
        if !is_kept_or_dropped(tables, row.write_id(), row.note().seq) {
            return false;
        }
    }
    true
}

fn is_kept_or_dropped(tables: &Tables, id: WriteId, seq: u64) -> bool
    requires { AreByRisingId tables.now }
    ensures { result ≡ same_mark (is_in_log tables.now id) (not (within 1 tables.now.meta.dropped seq)) }
{
    let kept = !is_dropped(tables, seq);
    if is_in_log(tables, id) { kept } else { !kept }
}

/// Whether a commit of this number is dropped.
fn is_dropped(tables: &Tables, seq: u64) -> bool
    ensures { result ≡ within 1 tables.now.meta.dropped seq }
{
    1 <= seq && seq <= tables.meta.dropped
}

fn are_undropped(rows: &[LogRow], tables: &Tables) -> bool
    ensures { result ≡ list_all (λ row. not (within 1 tables.now.meta.dropped row.seq)) rows.now }
{
    for row in rows {
        if is_dropped(tables, row.seq) {
            return false;
        }
    }
    true
}
