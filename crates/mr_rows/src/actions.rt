ghost use Rattle.std.specs.Prelude.{◌≡◌, ◌≢◌, ◌+◌, ◌≤◌, ◌&&◌, false, [], ◌∷◌, ◌++◌, pos, IfOk, IfErr, OnOk, IsTrue, refl};
ghost use Rattle.sqlite_value.specs.declared.value.Value.TheVariants.{Int};
ghost use Rattle.sqlite_value.specs.Order.{column};
ghost use Rattle.mr_replay.specs.Places.{place_seen};
ghost use Rattle.mr_rows.specs.RowCells.{nat_of, whole_of, place_in};
ghost use Rattle.mr_rows.specs.CellLimits.{is_number_cell, is_text, is_empty_text, is_place_cell, are_booking_cells, are_cancel_cells};
ghost use Rattle.mr_rows.specs.Shown.{columns_from};
ghost use Rattle.mr_rows.specs.Columns.{id_columns, meeting_columns, logged_columns};
ghost use Rattle.mr_rows.specs.ColumnLaws.{meeting_shown, logged_shown, logged_spelled};

use crate::cells::{has_id, has_number, has_title, read_id, read_number, read_place, read_title};
use crate::choices::{has_choices, read_choices};
use crate::columns::{Cells, put_cell};
use crate::numbers::PlaceNumber;
use mr_base::{MINUTES_OF_A_DAY, WriteId};
use mr_replay::Place;
use mr_tables::{ActionCells, MeetingCells};
use sqlite::types::{Value, ValueRef};
use sqlite::{Error, ErrorCode, Row};
use std::alloc::Global;
use std::marker::Model;

// A meeting stands in three columns: its length, its choices, which are of that length, and its title.

impl Cells for MeetingCells {
    ghost columns = { meeting_columns };

    fn width() -> usize {
        3
    }

    fn read(alloc: Global, row: &Row, at: usize) -> Result<MeetingCells, Error> {
        let length = read_number(row, at, 1, u64::from(MINUTES_OF_A_DAY))?;
        let choices = read_choices(row, at + 1, length as u32)?;
        let title = read_title(alloc, row, at + 1 + 1)?;
        Ok(MeetingCells {
            length: length as u32,
            choices,
            title,
        })
    }

    fn has(row: &Row, at: usize) -> bool {
        match read_number(row, at, 1, u64::from(MINUTES_OF_A_DAY)) {
            Ok(length) => { has_choices(row, at + 1, length as u32) && has_title(row, at + 1 + 1) }
            Err(_) => false,
        }
    }

    fn add(&self, alloc: Global, cells: &mut Vec<Value>) -> Result<(), Error> {
        put_cell(alloc, cells, self.length)?;
        put_cell(alloc, cells, self.choices.as_str())?;
        put_cell(alloc, cells, self.title.as_str())
    }

    ghost shown = { meeting_shown };

    ghost spelled = { λ x. (refl, refl) };
}

// What a row of `log` has of a write stands in seven: its kind, its meeting or its target, and its place.

/// Whether this column has the empty text.
fn has_empty(row: &Row, at: usize) -> bool
    ensures { result ≡ is_text is_empty_text (column row.now at) }
{
    match row.get_ref(at) {
        Ok(ValueRef::Text(text)) => text.is_empty(),
        _ => false,
    }
}

/// The place of a cancel or of a booking: a booking has a choice or is in the error log, a cancel is done or void.
fn read_place_of(row: &Row, at: usize, is_cancel: bool) -> Result<Place, Error>
    ensures place { IfOk result (λ place. place_seen place ≡ place_in (whole_of (column row.now at))) }
    ensures told { IfOk result (λ _. IsTrue (is_place_cell is_cancel (column row.now at))) }
    ensures refused { IfErr result (λ _. is_place_cell is_cancel (column row.now at) ≡ false) }
{
    let place = read_place(row, at)?;
    let fits = match place {
        Place::Taken(_) | Place::Logged => !is_cancel,
        Place::Done | Place::Void => is_cancel,
    };
    if !fits {
        return Err(Error::IntegralValueOutOfRange(at));
    }
    Ok(place)
}

/// Whether there is such a place.
fn has_place(row: &Row, at: usize, is_cancel: bool) -> bool
    ensures { result ≡ is_place_cell is_cancel (column row.now at) }
{
    read_place_of(row, at, is_cancel).is_ok()
}

/// Whether there is no target.
fn has_no_target(row: &Row, at: usize) -> bool
    requires { at ≤ 100 }
    ensures { result ≡ (is_number_cell 0 0 (column row.now at) && is_number_cell 0 0 (column row.now (at + 1))) }
{
    has_number(row, at, 0, 0) && has_number(row, at + 1, 0, 0)
}

/// Whether there is no meeting.
fn has_no_meeting(row: &Row, at: usize) -> bool
    requires { at ≤ 100 }
    ensures { result ≡ (is_number_cell 0 0 (column row.now at) && is_text is_empty_text (column row.now (at + 1)) && is_text is_empty_text (column row.now (at + 1 + 1))) }
{
    has_number(row, at, 0, 0) && has_empty(row, at + 1) && has_empty(row, at + 1 + 1)
}

/// The meeting and the place of a row whose kind is that of a booking.
fn read_booking(alloc: Global, row: &Row, at: usize) -> Result<(MeetingCells, Place), Error>
    requires { at ≤ 93 }
    ensures meeting { IfOk result (λ x. x.0 ≡ meeting_columns.value_in (columns_from (at + 1) 3 row.now)) }
    ensures place { IfOk result (λ x. place_seen x.1 ≡ place_in (whole_of (column (columns_from at 7 row.now) 6))) }
    ensures told { IfOk result (λ _. IsTrue (are_booking_cells (columns_from at 7 row.now))) }
    ensures refused { IfErr result (λ e. e ≢ Error.SqliteFailure ErrorCode.OutOfMemory → are_booking_cells (columns_from at 7 row.now) ≡ false) }
{
    let meeting = MeetingCells::read(alloc, row, at + 1)?;
    let target = at + 1 + 1 + 1 + 1;
    if !has_no_target(row, target) {
        return Err(Error::IntegralValueOutOfRange(target));
    }
    let place = read_place_of(row, target + 1 + 1, false)?;
    Ok((meeting, place))
}

/// Whether there are such a meeting and such a place.
fn has_booking(row: &Row, at: usize) -> bool
    requires { at ≤ 93 }
    ensures { result ≡ are_booking_cells (columns_from at 7 row.now) }
{
    let target = at + 1 + 1 + 1 + 1;
    MeetingCells::has(row, at + 1)
        && has_no_target(row, target)
        && has_place(row, target + 1 + 1, false)
}

/// The target and the place of a row that cancels.
fn read_cancel(row: &Row, at: usize) -> Result<(WriteId, Place), Error>
    requires { at ≤ 93 }
    ensures kind { IfOk result (λ _. nat_of (column row.now at) ≡ 1) }
    ensures target { IfOk result (λ x. x.0 ≡ id_columns.value_in (columns_from (at + 1 + 1 + 1 + 1) 2 row.now)) }
    ensures place { IfOk result (λ x. place_seen x.1 ≡ place_in (whole_of (column (columns_from at 7 row.now) 6))) }
    ensures told { IfOk result (λ _. IsTrue (are_cancel_cells (columns_from at 7 row.now))) }
    ensures refused { IfErr result (λ _. are_cancel_cells (columns_from at 7 row.now) ≡ false) }
{
    read_number(row, at, 1, 1)?;
    if !has_no_meeting(row, at + 1) {
        return Err(Error::IntegralValueOutOfRange(at));
    }
    let target = at + 1 + 1 + 1 + 1;
    let id = read_id(row, target)?;
    let place = read_place_of(row, target + 1 + 1, true)?;
    Ok((id, place))
}

/// Puts two numbers behind the cells that are there.
fn add_two(alloc: Global, cells: &mut Vec<Value>, first: u32, second: u32) -> Result<(), Error>
    ensures { OnOk result (cells.new.items ≡ cells.old.items ++ Int (pos first) ∷ Int (pos second) ∷ []) }
{
    put_cell(alloc, cells, first)?;
    put_cell(alloc, cells, second)
}

/// What a row of `log` has of a write, and its place.
#[derive(Drop)]
pub struct Logged {
    pub action: ActionCells,
    pub place: Place,
}

impl Model for Logged {
    ghost use Rattle.mr_model.specs.Replay as replay;
    ghost use Rattle.mr_model.specs.Tables as tables;
    ghost use Rattle.mr_replay.specs.Places.{place_seen};
    ghost use Rattle.mr_tables.specs.Cells.{action_cells};

    ghost Value = { tables.ActionCells × replay.Place };

    ghost view = { λ x. (action_cells x.action, place_seen x.place) };
}

impl Cells for Logged {
    ghost columns = { logged_columns };

    fn width() -> usize {
        7
    }

    fn read(alloc: Global, row: &Row, at: usize) -> Result<Logged, Error> {
        if has_number(row, at, 0, 0) {
            let (meeting, place) = read_booking(alloc, row, at)?;
            let action = ActionCells::OfMeeting(meeting);
            Ok(Logged { action, place })
        } else {
            let (target, place) = read_cancel(row, at)?;
            let action = ActionCells::OfCancel(target);
            Ok(Logged { action, place })
        }
    }

    fn has(row: &Row, at: usize) -> bool {
        if has_number(row, at, 0, 0) {
            has_booking(row, at)
        } else {
            read_cancel(row, at).is_ok()
        }
    }

    fn add(&self, alloc: Global, cells: &mut Vec<Value>) -> Result<(), Error> {
        match &self.action {
            ActionCells::OfMeeting(meeting) => {
                put_cell(alloc, cells, 0u32)?;
                meeting.add(alloc, cells)?;
                add_two(alloc, cells, 0, 0)?;
            }
            ActionCells::OfCancel(id) => {
                add_two(alloc, cells, 1, 0)?;
                put_cell(alloc, cells, "")?;
                put_cell(alloc, cells, "")?;
                id.add(alloc, cells)?;
            }
        }
        put_cell(alloc, cells, PlaceNumber { place: self.place })
    }

    ghost shown = { logged_shown };

    ghost spelled = { logged_spelled };
}
