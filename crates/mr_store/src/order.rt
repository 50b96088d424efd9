ghost use Rattle.std.specs.Prelude.{◌≡◌, OnOk};
ghost use Rattle.std.specs.List.Sorted.{IsPermutation, IsSortedBy};
ghost use Rattle.mr_replica.specs.Order.{booking_cmp};
ghost use Rattle.mr_replica.specs.Picked.{booking_before};

use mr_tables::BookingRow;
use std::alloc::AllocError;
use std::cmp::Ordering;

/// Sorts the rows by day, start, server and count. If there is no memory for it, they are the same rows in some order.
pub fn sort_bookings(rows: &mut Vec<BookingRow>) -> Result<(), AllocError>
    ensures same { IsPermutation rows.old.items rows.new.items }
    ensures sorted { OnOk result (IsSortedBy booking_before rows.new.items) }
{
    rows.sort_by(|a, b| compare(a, b))
}

fn compare(a: &BookingRow, b: &BookingRow) -> Ordering
    ensures { result ≡ booking_cmp a.now b.now }
{
    a.day
        .cmp(&b.day)
        .then(a.start.cmp(&b.start))
        .then(a.server.cmp(&b.server))
        .then(a.n.cmp(&b.n))
}
