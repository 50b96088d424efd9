//! The bookings of a committed calendar: the committed ones that stand, and those that stood until a cancel took them back that is not
//! committed.

ghost use Rattle.std.specs.Prelude.{◌≡◌, ◌||◌, ◌++◌, [], ◌∷◌, map, filter, IfOk, IfErr, OnOk};
ghost use Rattle.std.specs.List.Sorted.{IsPermutation, IsSortedBy};
ghost use Rattle.mr_model.specs.Tables.{as_booked};
ghost use Rattle.mr_model.specs.Writes.{Id};
ghost use Rattle.mr_part.specs.Sets.{has_id};
ghost use Rattle.mr_service.specs.Questions.{committed_rows, is_tentative_cancel, has_tentative, is_back};
ghost use Rattle.mr_store.specs.Picked.{booking_before};

use mr_base::Refusal;
use mr_part::touched::IdSet;
use mr_store::sort_bookings;
use mr_tables::{BookingRow, CancelRow, CancelledRow};
use std::alloc::Global;
use std::collections::BTreeSet;

/// The rows of a room's committed calendar, of all its bookings, those that a cancel took back, and the cancels, in the order of
/// a calendar.
pub(crate) fn committed_calendar(
    alloc: Global,
    bookings: Vec<BookingRow>,
    cancelled: Vec<CancelledRow>,
    cancels: &[CancelRow],
) -> Result<Vec<BookingRow>, Refusal>
    ensures same { IfOk result (λ shown. IsPermutation (committed_rows bookings.items cancelled.items cancels.now) shown.items) }
    ensures order { IfOk result (λ shown. IsSortedBy booking_before shown.items) }
    ensures only { IfErr result (λ e. e ≡ Refusal.OutOfMemory) }
{
    let tentative = tentative_cancels(alloc, cancels)?;
    let mut shown = committed_alone(bookings);
    put_back(&mut shown, cancelled, &tentative)?;
    sort_bookings(&mut shown)?;
    Ok(shown)
}

/// The ids of the cancels that are not committed.
fn tentative_cancels(alloc: Global, cancels: &[CancelRow]) -> Result<IdSet, Refusal>
    ensures ids { IfOk result (λ ids. (id : Id) → has_id ids id ≡ has_tentative id cancels.now) }
    ensures only { IfErr result (λ e. e ≡ Refusal.OutOfMemory) }
{
    let mut ids = BTreeSet::new(alloc);
    for row in cancels {
        add_if_tentative(&mut ids, row)?;
    }
    Ok(ids)
}

fn add_if_tentative(ids: &mut IdSet, row: &CancelRow) -> Result<(), Refusal>
    ensures ids { OnOk result ((id : Id) → has_id ids.new id ≡ (is_tentative_cancel id row.now || has_id ids.old id)) }
    ensures only { IfErr result (λ e. e ≡ Refusal.OutOfMemory) }
{
    if row.seq == 0 {
        ids.insert(row.id())?;
    }
    Ok(())
}

/// Those that are committed.
fn committed_alone(mut rows: Vec<BookingRow>) -> Vec<BookingRow>
    ensures { result.items ≡ filter (λ row. row.committed) rows.items }
{
    rows.retain(|row| row.committed);
    rows
}

/// Puts behind them the committed bookings that one of these cancels took back, as they were before.
fn put_back(
    shown: &mut Vec<BookingRow>,
    cancelled: Vec<CancelledRow>,
    tentative: &IdSet,
) -> Result<(), Refusal>
    ensures rows { OnOk result (shown.new.items ≡ shown.old.items ++ map as_booked (filter (is_back tentative.now) cancelled.items)) }
    ensures only { IfErr result (λ e. e ≡ Refusal.OutOfMemory) }
{
    for row in cancelled {
        put_if_back(shown, row, tentative)?;
    }
    Ok(())
}

fn put_if_back(
    shown: &mut Vec<BookingRow>,
    row: CancelledRow,
    tentative: &IdSet,
) -> Result<(), Refusal>
    ensures rows { OnOk result (shown.new.items ≡ shown.old.items ++ map as_booked (filter (is_back tentative.now) (row ∷ []))) }
    ensures only { IfErr result (λ e. e ≡ Refusal.OutOfMemory) }
{
    if row.booking.committed && tentative.contains(&row.by) {
        shown.push(row.booking)?;
    }
    Ok(())
}
