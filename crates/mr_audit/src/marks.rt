ghost use Rattle.std.specs.Prelude.{◌≡◌, ◌&&◌, nat_le};
ghost use Rattle.std.specs.List.{list_all};
ghost use Rattle.mr_model.specs.Queries.{is_marked};
ghost use Rattle.mr_audit.specs.Tallies.{is_first_of_server};
ghost use Rattle.mr_agree.specs.Agreeing.{same_mark, do_marks_agree};
ghost use Rattle.mr_audit.specs.Tallies.{TellTheVector};

use mr_base::WriteId;
use mr_tables::summary::Summary;
use mr_tables::{BookingRow, CancelRow, CancelledRow, ErrorRow, LogRow, Tables};

/// Whether a row has its mark, or its commit number, exactly if its write is committed, with these numbers of the servers.
pub fn do_marks_agree(tables: &Tables, summary: &Summary) -> bool
    ensures { TellTheVector tables.now.vector summary.now.tallies → result ≡ do_marks_agree tables.now }
{
    let commits = tables.meta.commits;
    are_bookings_marked(&tables.booking, summary)
        && are_cancelled_marked(&tables.cancelled, summary)
        && are_errors_numbered(&tables.errorlog, commits, summary)
        && are_cancels_numbered(&tables.cancels, commits, summary)
        && are_logs_numbered(&tables.log, commits, summary)
}

fn are_bookings_marked(rows: &[BookingRow], summary: &Summary) -> bool
    ensures { result ≡ list_all (λ row. same_mark row.committed (is_first_of_server summary.now.tallies row.server row.n)) rows.now }
{
    rows.iter()
        .all(|row| row.committed == is_first(row.id(), summary))
}

fn are_cancelled_marked(rows: &[CancelledRow], summary: &Summary) -> bool
    ensures { result ≡ list_all (λ row. same_mark row.committed (is_first_of_server summary.now.tallies row.server row.n)) rows.now }
{
    rows.iter()
        .all(|row| row.booking.committed == is_first(row.id(), summary))
}

fn are_errors_numbered(rows: &[ErrorRow], commits: u64, summary: &Summary) -> bool
    ensures { result ≡ list_all (λ row. same_mark (is_marked row.seq) (is_first_of_server summary.now.tallies row.server row.n) && nat_le row.seq commits) rows.now }
{
    rows.iter()
        .all(|row| is_numbered(row.id(), row.seq, commits, summary))
}

fn are_cancels_numbered(rows: &[CancelRow], commits: u64, summary: &Summary) -> bool
    ensures { result ≡ list_all (λ row. same_mark (is_marked row.seq) (is_first_of_server summary.now.tallies row.server row.n) && nat_le row.seq commits) rows.now }
{
    rows.iter()
        .all(|row| is_numbered(row.id(), row.seq, commits, summary))
}

fn are_logs_numbered(rows: &[LogRow], commits: u64, summary: &Summary) -> bool
    ensures { result ≡ list_all (λ row. same_mark (is_marked row.seq) (is_first_of_server summary.now.tallies row.server row.n) && nat_le row.seq commits) rows.now }
{
    rows.iter()
        .all(|row| is_numbered(row.id(), row.seq, commits, summary))
}

/// Whether a write has a commit number, at most that of the last commit, exactly if it is committed.
fn is_numbered(id: WriteId, seq: u64, commits: u64, summary: &Summary) -> bool
    ensures { result ≡ (same_mark (is_marked seq) (is_first_of_server summary.now.tallies id.server id.n) && nat_le seq commits) }
{
    (seq != 0) == is_first(id, summary) && seq <= commits
}

/// Whether the write is among the first of its server, which are the committed ones.
fn is_first(id: WriteId, summary: &Summary) -> bool
    ensures { result ≡ is_first_of_server summary.now.tallies id.server id.n }
{
    id.n <= summary.tally(id.server).committed
}
