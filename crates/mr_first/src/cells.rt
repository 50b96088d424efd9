ghost use Rattle.std.specs.Prelude.{◌≡◌, false, IfOk, IfErr, IsTrue, refl};
ghost use Rattle.sqlite_value.specs.Order.{column};
ghost use Rattle.mr_replay.specs.Places.{place_seen};
ghost use Rattle.mr_rows.specs.RowCells.{whole_of, place_in};
ghost use Rattle.mr_first.specs.FirstCells.{is_first_place_cell, first_place_columns};
ghost use Rattle.mr_first.specs.FirstMadeRows.{first_place_shown};

use mr_replay::Place;
use mr_rows::cells::read_place;
use mr_rows::columns::{Cells, put_cell};
use mr_rows::numbers::PlaceNumber;
use sqlite::types::Value;
use sqlite::{Error, Row};
use std::alloc::Global;
use std::marker::Model;

/// The place of a booking with at most eight alternatives in this column: the number of its choice, or -1 for the error log.
fn read_first_place(row: &Row, at: usize) -> Result<Place, Error>
    ensures place { IfOk result (λ place. place_seen place ≡ place_in (whole_of (column row.now at))) }
    ensures told { IfOk result (λ _. IsTrue (is_first_place_cell (column row.now at))) }
    ensures refused { IfErr result (λ _. is_first_place_cell (column row.now at) ≡ false) }
{
    let place = read_place(row, at)?;
    match place {
        Place::Taken(0..=8) | Place::Logged => Ok(place),
        _ => Err(Error::IntegralValueOutOfRange(at)),
    }
}

/// The place of a kept write.
#[derive(Drop)]
pub struct FirstPlace(pub Place);

impl Model for FirstPlace {
    ghost use Rattle.mr_model.specs.Replay as replay;
    ghost use Rattle.mr_replay.specs.Places.{place_seen};

    ghost Value = { replay.Place };

    ghost view = { λ x. place_seen x.0 };
}

impl Cells for FirstPlace {
    ghost columns = { first_place_columns };

    fn width() -> usize {
        1
    }

    fn read(_alloc: Global, row: &Row, at: usize) -> Result<FirstPlace, Error> {
        Ok(FirstPlace(read_first_place(row, at)?))
    }

    fn has(row: &Row, at: usize) -> bool {
        read_first_place(row, at).is_ok()
    }

    fn add(&self, alloc: Global, cells: &mut Vec<Value>) -> Result<(), Error> {
        put_cell(alloc, cells, PlaceNumber { place: self.0 })
    }

    ghost shown = { first_place_shown };

    ghost spelled = { λ x. (refl, refl) };
}
