//! Questions about a room, answered from the rows that the keeper picks.

ghost use Rattle.std.specs.Prelude.{◌≡◌, ◌⊎◌, List, map, Err, IfOk, IfErr};
ghost use Rattle.std.specs.List.{list_any};
ghost use Rattle.std.specs.Str.{bytes_eq};
ghost use Rattle.mr_model.specs.Texts.{Text};
ghost use Rattle.mr_model.specs.Replies as replies;
ghost use Rattle.mr_model.specs.Step as model;
ghost use Rattle.mr_model.specs.Step.{IsOfMachine};
ghost use Rattle.mr_base.specs.RefusalViews.{refusal_of};
ghost use Rattle.mr_model.specs.Tables as rows;
ghost use Rattle.mr_model.specs.View.{AskSheet, AskCalendar, AskOutcome, AskErrors};
ghost use Rattle.mr_tables.specs.Cells.{place_row_of};
ghost use Rattle.mr_service.specs.Asked.{part_seen, log_line_seen, reply_in};
ghost use Rattle.mr_service.specs.Questions.{FindsRoom, ShowsCalendar, ShowsLines, TellsOutcomeOf, row_of_cancel};
ghost use Rattle.mr_service.specs.Served.{IsRead, IsServed};

use crate::calendars::committed_calendar;
use crate::commands::CalendarPart;
use crate::log_lines::log_lines;
use crate::outcomes::{booked, cancel, cancelled, logged};
use crate::replies::{LogLine, Outcome, Reply};
use mr_base::{Day, Refusal, RoomName, WriteId};
use mr_store::{Keeper, PlaceRow};
use mr_tables::{BookingRow, CancelRow, CancelledRow};
use std::alloc::Global;

/// The bookings of a room on a day.
pub(crate) fn sheet<K: Keeper>(
    keeper: &mut K,
    alloc: Global,
    room: &str,
    day: &str,
) -> Result<Reply, Refusal>
    ensures served { IsServed K.Keeper keeper.old keeper.new (model.Ask room.now (AskSheet day.now)) (reply_in result) }
{
    let day = Day::read(day)?;
    let room = known_room(keeper, alloc, room)?;
    let rows = keeper.bookings(&room, Some(day))?;
    Ok(Reply::Sheet { room, day, rows })
}

/// The bookings of a room, of all its writes or of the committed ones.
pub(crate) fn calendar<K: Keeper>(
    keeper: &mut K,
    alloc: Global,
    room: &str,
    part: CalendarPart,
) -> Result<Reply, Refusal>
    ensures served { IsServed K.Keeper keeper.old keeper.new (model.Ask room.now (AskCalendar (part_seen part))) (reply_in result) }
{
    let room = known_room(keeper, alloc, room)?;
    let rows = rows_of_part(keeper, alloc, &room, part)?;
    Ok(Reply::Calendar { room, part, rows })
}

/// What became of the request or cancel with this id, which is of the room.
pub(crate) fn outcome<K: Keeper>(
    keeper: &mut K,
    alloc: Global,
    room: &str,
    id: &str,
) -> Result<Reply, Refusal>
    ensures served { IsServed K.Keeper keeper.old keeper.new (model.Ask room.now (AskOutcome id.now)) (reply_in result) }
{
    let room = known_room(keeper, alloc, room)?;
    let id = WriteId::read(id)?;
    match keeper.place_of(&room, id)? {
        Some(place) => {
            let outcome = outcome_at(keeper, &room, &place)?;
            Ok(Reply::Outcome(outcome))
        }
        None => Err(Refusal::NoSuchRequest),
    }
}

/// The requests of a room that found no free slot, and its cancels that found nothing to take back.
pub(crate) fn errors<K: Keeper>(keeper: &mut K, alloc: Global, room: &str) -> Result<Reply, Refusal>
    ensures served { IsServed K.Keeper keeper.old keeper.new (model.Ask room.now AskErrors) (reply_in result) }
{
    let room = known_room(keeper, alloc, room)?;
    let lines = lines_in(keeper, alloc, &room)?;
    Ok(Reply::Errors { room, lines })
}

/// The room of this name, if the keeper knows it.
pub(crate) fn known_room<K: Keeper>(
    keeper: &mut K,
    alloc: Global,
    room: &str,
) -> Result<RoomName, Refusal>
    ensures read { IsRead K.Keeper keeper.old keeper.new result }
    ensures finds { K.is_clean keeper.new → K.is_open keeper.old → FindsRoom (K.tables keeper.old).room room.now result }
    ensures refuses { IfErr result (λ e. K.is_clean keeper.new → K.is_open keeper.old ⊎ ((rooms : List Text) → FindsRoom rooms room.now (Err e))) }
{
    let room = RoomName::new(alloc, room)?;
    let rooms = keeper.rooms()?;
    if is_among(&room, rooms.as_slice()) {
        Ok(room)
    } else {
        Err(Refusal::UnknownRoom)
    }
}

/// Whether the room is one of these.
fn is_among(room: &RoomName, rooms: &[RoomName]) -> bool
    ensures { result ≡ list_any (bytes_eq room.now) rooms.now }
{
    rooms.iter().any(|known| *room == *known)
}

// ---- calendars

/// The rows of a calendar of that part.
fn rows_of_part<K: Keeper>(
    keeper: &mut K,
    alloc: Global,
    room: &RoomName,
    part: CalendarPart,
) -> Result<Vec<BookingRow>, Refusal>
    ensures read { IsRead K.Keeper keeper.old keeper.new result }
    ensures shows { K.is_clean keeper.new → K.is_open keeper.old
        → IfOk result (λ rows. ShowsCalendar (part_seen part) room.now (K.tables keeper.old) rows.items) }
    ensures only { IfErr result (λ e. IsOfMachine (replies.Refused (refusal_of e))) }
{
    match part {
        CalendarPart::Full => rows_of_all(keeper, room),
        CalendarPart::Committed => rows_of_committed(keeper, alloc, room),
    }
}

fn rows_of_all<K: Keeper>(keeper: &mut K, room: &RoomName) -> Result<Vec<BookingRow>, Refusal>
    ensures read { IsRead K.Keeper keeper.old keeper.new result }
    ensures shows { K.is_clean keeper.new → K.is_open keeper.old → IfOk result (λ rows. ShowsCalendar replies.Full room.now (K.tables keeper.old) rows.items) }
    ensures only { IfErr result (λ e. IsOfMachine (replies.Refused (refusal_of e))) }
{
    let rows = keeper.bookings(room, None)?;
    Ok(rows)
}

fn rows_of_committed<K: Keeper>(
    keeper: &mut K,
    alloc: Global,
    room: &RoomName,
) -> Result<Vec<BookingRow>, Refusal>
    ensures read { IsRead K.Keeper keeper.old keeper.new result }
    ensures shows { K.is_clean keeper.new → K.is_open keeper.old
        → IfOk result (λ rows. ShowsCalendar replies.Committed room.now (K.tables keeper.old) rows.items) }
    ensures only { IfErr result (λ e. IsOfMachine (replies.Refused (refusal_of e))) }
{
    let bookings = keeper.bookings(room, None)?;
    let cancelled = keeper.cancelled(room)?;
    let cancels = keeper.cancels(room)?;
    committed_calendar(alloc, bookings, cancelled, cancels.as_slice())
}

// ---- outcomes

/// What the row of a write of the room tells of it; of a booking that was taken back with the row of the cancel, which is looked up.
fn outcome_at<K: Keeper>(
    keeper: &mut K,
    room: &RoomName,
    place: &PlaceRow,
) -> Result<Outcome, Refusal>
    ensures read { (K.is_clean keeper.old → K.is_open keeper.old) → IsRead K.Keeper keeper.old keeper.new result }
    ensures tells { K.is_clean keeper.new → K.is_open keeper.old → TellsOutcomeOf room.now (K.tables keeper.old) (place_row_of place.now) result }
{
    match place {
        PlaceRow::Booked(row) => Ok(booked(row)),
        PlaceRow::Logged(row) => Ok(logged(row)),
        PlaceRow::Cancel(row) => Ok(cancel(row)),
        PlaceRow::Cancelled(row) => outcome_of_cancelled(keeper, room, row),
    }
}

/// Looks up the row of the cancel. If there is none, which no replica's tables have, the request is refused as unknown.
fn outcome_of_cancelled<K: Keeper>(
    keeper: &mut K,
    room: &RoomName,
    row: &CancelledRow,
) -> Result<Outcome, Refusal>
    ensures read { IsRead K.Keeper keeper.old keeper.new result }
    ensures tells { K.is_clean keeper.new → K.is_open keeper.old → TellsOutcomeOf room.now (K.tables keeper.old) (rows.Cancelled row.now) result }
{
    let place = keeper.place_of(room, row.by)?;
    match cancel_in(place) {
        Some(by) => Ok(cancelled(row, &by)),
        None => Err(Refusal::NoSuchRequest),
    }
}

/// The row, if it is that of a cancel.
fn cancel_in(place: Option<PlaceRow>) -> Option<CancelRow>
    ensures { result ≡ row_of_cancel place }
{
    match place {
        Some(PlaceRow::Cancel(row)) => Some(row),
        _ => None,
    }
}

// ---- error logs

/// The lines of the error log of a room.
fn lines_in<K: Keeper>(
    keeper: &mut K,
    alloc: Global,
    room: &RoomName,
) -> Result<Vec<LogLine>, Refusal>
    ensures read { IsRead K.Keeper keeper.old keeper.new result }
    ensures shows { K.is_clean keeper.new → K.is_open keeper.old → IfOk result (λ lines. ShowsLines room.now (K.tables keeper.old) (map log_line_seen lines.items)) }
    ensures only { IfErr result (λ e. IsOfMachine (replies.Refused (refusal_of e))) }
{
    let requests = keeper.errors(room)?;
    let cancels = keeper.cancels(room)?;
    log_lines(alloc, requests, cancels)
}
