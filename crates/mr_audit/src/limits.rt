ghost use Rattle.std.specs.Prelude.{◌≡◌, ◌&&◌};
ghost use Rattle.std.specs.List.{list_all};
ghost use Rattle.mr_model.specs.Writes.{is_id, is_time, is_room_name};
ghost use Rattle.mr_model.specs.Queries.{error_id, cancel_id, log_id};
ghost use Rattle.mr_agree.specs.Agreeing.{notes, do_limits_agree};

use mr_base::{GREATEST_COUNT, GREATEST_TIME, RoomName, ServerId, is_room_text};
use mr_tables::{CancelRow, ErrorRow, LogRow, Tables, VectorRow};

/// Whether servers, counts, times and the names of rooms are within their limits.
pub fn do_limits_agree(tables: &Tables) -> bool
    ensures { result ≡ do_limits_agree tables.now }
{
    // For the prover alone: servers are from 1 to 99.
    tables.meta.server.number();
    tables.meta.primary.number();
    let counts = are_counts_within(&tables.vector);
    let notes = are_notes_within(tables);
    let names = are_names_within(&tables.room);
    counts & notes & names
}

/// Whether the ids and times of the rows that have both are within their limits.
fn are_notes_within(tables: &Tables) -> bool
    ensures { result ≡ list_all (λ a. is_id a.id && is_time a.time) (notes tables.now) }
{
    let logs = are_logs_within(&tables.log);
    let errors = are_errors_within(&tables.errorlog);
    let cancels = are_cancels_within(&tables.cancels);
    logs & (errors & cancels)
}

fn are_counts_within(rows: &[VectorRow]) -> bool
    ensures { result ≡ list_all (λ row. is_id (record { server = row.server; n = row.count }) && is_time row.last_time) rows.now }
{
    rows.iter()
        .all(|row| is_within(row.server, row.count, row.last_time))
}

fn are_logs_within(rows: &[LogRow]) -> bool
    ensures { result ≡ list_all (λ row. is_id (log_id row) && is_time row.time) rows.now }
{
    rows.iter()
        .all(|row| is_within(row.server, row.n, row.time))
}

fn are_errors_within(rows: &[ErrorRow]) -> bool
    ensures { result ≡ list_all (λ row. is_id (error_id row) && is_time row.time) rows.now }
{
    rows.iter()
        .all(|row| is_within(row.server, row.n, row.time))
}

fn are_cancels_within(rows: &[CancelRow]) -> bool
    ensures { result ≡ list_all (λ row. is_id (cancel_id row) && is_time row.time) rows.now }
{
    rows.iter()
        .all(|row| is_within(row.server, row.n, row.time))
}

fn is_within(server: ServerId, n: u32, time: u64) -> bool
    ensures { result ≡ (is_id (record { server = server; n = n }) && is_time time) }
{
    // For the prover alone: a server is from 1 to 99.
    server.number();
    n >= 1 && n <= GREATEST_COUNT && time >= 1 && time <= GREATEST_TIME
}

fn are_names_within(rooms: &[RoomName]) -> bool
    ensures { result ≡ list_all is_room_name rooms.now }
{
    rooms
        .iter()
        .all(|room| is_room_text(room.as_str().as_bytes()))
}
