ghost use Rattle.std.specs.Prelude.{◌≡◌, ◌<◌, ◌≤◌, ◌^◌, IfOk, IfErr, pos};
ghost use Rattle.sqlite_value.specs.declared.value.Value.TheVariants.{Int};
ghost use Rattle.mr_replay.specs.Places.{place_seen};
ghost use Rattle.mr_rows.specs.RowCells.{place_number};

use mr_replay::Place;
use sqlite::Error;
use sqlite::types::{ToSql, ValueRef};

/// A number that a column of the kind INTEGER has room for.
#[derive(Clone, Copy, Debug, PartialEq, Eq)]
pub struct Number {
    value: u64,
    ghost fits: { value < 2 ^ 63 },
}

impl Number {
    /// The number, if it fits. Those of replicas do; another is refused as out of the range of the column at this place.
    pub fn new(value: u64, at: usize) -> Result<Number, Error>
        ensures value { IfOk result (λ n. n.value ≡ value) }
        ensures refused { IfErr result (λ _. 2 ^ 63 ≤ value) }
    {
        if value > i64::MAX as u64 {
            return Err(Error::IntegralValueOutOfRange(at));
        }
        Ok(Number { value })
    }
}

impl<'a> ToSql<'a> for Number {
    ghost to_sql = { λ n. Int (pos n.value) };

    fn to_sql(self) -> ValueRef<'a> {
        ValueRef::Int(self.value as i64)
    }
}

/// A place as the number of its choice, -1 for the error log, -2 and -3 for a cancel that is done or void.
#[derive(Clone, Copy, Debug, PartialEq, Eq)]
pub struct PlaceNumber {
    pub place: Place,
}

impl<'a> ToSql<'a> for PlaceNumber {
    ghost to_sql = { λ p. Int (place_number (place_seen p.place)) };

    fn to_sql(self) -> ValueRef<'a> {
        match self.place {
            Place::Taken(choice) => ValueRef::Int(i64::from(choice)),
            Place::Logged => ValueRef::Int(-1),
            Place::Done => ValueRef::Int(-2),
            Place::Void => ValueRef::Int(-3),
        }
    }
}
