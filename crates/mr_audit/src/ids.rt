ghost use Rattle.std.specs.Prelude.{◌≡◌, length, map};
ghost use Rattle.std.specs.List.{list_all};
ghost use Rattle.mr_tables.specs.Change.{id_before};
ghost use Rattle.mr_tables.specs.TableOrders.{InOrder};
ghost use Rattle.mr_agree.specs.Agreeing.{is_counted, row_ids, do_ids_agree};
ghost use Rattle.mr_audit.specs.KeyOrders.{AreByRisingId};
ghost use Rattle.mr_audit.specs.SideBySide.{are_apart, are_tables_apart};

use crate::id_rows::has;
use crate::known::{is_counted, write_count};
use mr_tables::{IdRow, Tables};

/// Whether each known write has one row of what became of it, and no other write has one.
pub(crate) fn do_ids_agree(tables: &Tables) -> bool
    requires { AreByRisingId tables.now }
    ensures { result ≡ do_ids_agree tables.now }
{
    let counted = are_all_counted(tables);
    let apart = are_tables_apart(tables);
    let whole = row_count(tables) == write_count(&tables.vector);
    counted & apart & whole
}

fn are_all_counted(tables: &Tables) -> bool
    ensures { result ≡ list_all (is_counted tables.now) (row_ids tables.now) }
{
    are_counted(&tables.booking, tables)
        && (are_counted(&tables.errorlog, tables)
            && (are_counted(&tables.cancelled, tables) && are_counted(&tables.cancels, tables)))
}

fn are_counted<R: IdRow>(rows: &[R], tables: &Tables) -> bool
    ensures { result ≡ list_all (is_counted tables.now) (map R.id rows.now) }
{
    for row in rows {
        if !is_counted(tables, row.write_id()) {
            return false;
        }
    }
    true
}

/// Whether no two of the four tables have a row of one write. Within one each row has another id.
fn are_tables_apart(tables: &Tables) -> bool
    requires { AreByRisingId tables.now }
    ensures { result ≡ are_tables_apart tables.now }
{
    let (booking, errorlog) = (&tables.booking, &tables.errorlog);
    let (cancelled, cancels) = (&tables.cancelled, &tables.cancels);
    (are_apart(booking, errorlog) && (are_apart(booking, cancelled) && are_apart(booking, cancels)))
        && ((are_apart(errorlog, cancelled) && are_apart(errorlog, cancels))
            && are_apart(cancelled, cancels))
}

fn are_apart<R: IdRow, S: IdRow>(rows: &[R], others: &[S]) -> bool
    requires { InOrder id_before S.id others.now }
    ensures { result ≡ are_apart (map R.id rows.now) (map S.id others.now) }
{
    for row in rows {
        if has(others, row.write_id()) {
            return false;
        }
    }
    true
}

fn row_count(tables: &Tables) -> u128
    ensures { result ≡ length (row_ids tables.now) }
{
    let booked = tables.booking.len() as u128;
    let erred = tables.errorlog.len() as u128;
    let cancelled = tables.cancelled.len() as u128;
    let cancels = tables.cancels.len() as u128;
    booked + (erred + (cancelled + cancels))
}
