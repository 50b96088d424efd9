ghost use Rattle.std.specs.Prelude.{◌≡◌};
ghost use Rattle.std.specs.List.{list_all};
ghost use Rattle.mr_agree.specs.Agreeing.{is_span, do_spans_agree};

use mr_base::{Day, MINUTES_OF_A_DAY};
use mr_tables::{BookingRow, CancelledRow, ErrorRow, Tables};

/// Whether each booking ends behind its start, by midnight of its day.
pub fn do_spans_agree(tables: &Tables) -> bool
    ensures { result ≡ do_spans_agree tables.now }
{
    are_bookings_spans(&tables.booking)
        && are_errors_spans(&tables.errorlog)
        && are_cancelled_spans(&tables.cancelled)
}

fn are_bookings_spans(rows: &[BookingRow]) -> bool
    ensures { result ≡ list_all (λ row. is_span (record { day = row.day; start = row.start }) row.stop) rows.now }
{
    rows.iter().all(|row| is_booking_span(row))
}

fn is_booking_span(row: &BookingRow) -> bool
    ensures { result ≡ is_span (record { day = row.now.day; start = row.now.start }) row.now.stop }
{
    is_span(row.day, row.start, row.stop)
}

fn are_errors_spans(rows: &[ErrorRow]) -> bool
    ensures { result ≡ list_all (λ row. is_span (record { day = row.day; start = row.start }) row.stop) rows.now }
{
    rows.iter().all(|row| is_error_span(row))
}

fn is_error_span(row: &ErrorRow) -> bool
    ensures { result ≡ is_span (record { day = row.now.day; start = row.now.start }) row.now.stop }
{
    is_span(row.day, row.start, row.stop)
}

fn are_cancelled_spans(rows: &[CancelledRow]) -> bool
    ensures { result ≡ list_all (λ row. is_span (record { day = row.day; start = row.start }) row.stop) rows.now }
{
    rows.iter().all(|row| is_cancelled_span(row))
}

fn is_cancelled_span(row: &CancelledRow) -> bool
    ensures { result ≡ is_span (record { day = row.now.day; start = row.now.start }) row.now.stop }
{
    is_booking_span(&row.booking)
}

fn is_span(day: Day, start: u32, stop: u32) -> bool
    ensures { result ≡ is_span (record { day = day; start = start }) stop }
{
    // For the prover alone: the day is within the calendar.
    day.is_within_calendar();
    start < MINUTES_OF_A_DAY && start < stop && stop <= MINUTES_OF_A_DAY
}
