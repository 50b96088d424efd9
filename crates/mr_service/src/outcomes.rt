ghost use Rattle.std.specs.Prelude.{◌≡◌};
ghost use Rattle.mr_model.specs.Queries.{booked_outcome, logged_outcome, cancelled_outcome, cancel_outcome};
ghost use Rattle.mr_service.specs.Asked.{outcome_seen};

use crate::replies::{Outcome, ShownBooking};
use mr_base::TimeOfDay;
use mr_tables::{BookingRow, CancelRow, CancelledRow, ErrorRow};

/// What became of the request of a row of `booking`.
pub(crate) fn booked(row: &BookingRow) -> Outcome
    ensures { outcome_seen result ≡ booked_outcome row.now }
{
    Outcome::Booked(ShownBooking {
        id: row.id(),
        is_committed: row.committed,
        day: row.day,
        start: TimeOfDay::new(row.start),
        stop: TimeOfDay::new(row.stop),
    })
}

/// What became of the request of a row of `errorlog`.
pub(crate) fn logged(row: &ErrorRow) -> Outcome
    ensures { outcome_seen result ≡ logged_outcome row.now }
{
    Outcome::Logged {
        id: row.id(),
        is_committed: row.seq != 0,
    }
}

/// What became of the request of a row of `cancelled`, with the row of the cancel that took it back.
pub(crate) fn cancelled(row: &CancelledRow, by: &CancelRow) -> Outcome
    ensures { outcome_seen result ≡ cancelled_outcome row.now by.now }
{
    Outcome::Cancelled {
        id: row.id(),
        is_committed: row.booking.committed,
        by: by.id(),
        by_committed: by.seq != 0,
    }
}

/// What became of the cancel of a row of `cancels`.
pub(crate) fn cancel(row: &CancelRow) -> Outcome
    ensures { outcome_seen result ≡ cancel_outcome row.now }
{
    let (id, is_committed, target) = (row.id(), row.seq != 0, row.target);
    if row.done {
        Outcome::Cancels {
            id,
            is_committed,
            target,
        }
    } else {
        Outcome::Void {
            id,
            is_committed,
            target,
        }
    }
}
