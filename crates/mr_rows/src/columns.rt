ghost use Rattle.std.specs.Prelude.{◌≡◌, ◌≢◌, ◌+◌, ◌≤◌, ℕ, false, [], ◌∷◌, ◌++◌, IfOk, IfErr, OnOk, IsTrue, refl};
ghost use Rattle.mr_model.specs.Writes.{greatest_count};
ghost use Rattle.mr_rows.specs.Shown.{columns_from};
ghost use Rattle.mr_rows.specs.Columns.{Columns, AreShown, AreSpelled, number_columns, mark_columns, name_columns, title_columns, day_columns, id_columns, span_columns, both};
ghost use Rattle.mr_rows.specs.ColumnLaws.{number_shown, mark_shown, name_shown, title_shown, day_shown, id_shown, span_shown, both_shown, both_spelled};

use crate::cells::{
    has_day, has_id, has_mark, has_name, has_number, has_server, has_title, read_day, read_id,
    read_mark, read_name, read_number, read_server, read_title,
};
use crate::numbers::Number;
use crate::puts::day_text;
use mr_base::{
    Day, GREATEST_COMMIT, GREATEST_COUNT, GREATEST_TIME, MINUTES_OF_A_DAY, RoomName, ServerId,
    Title, WriteId,
};
use sqlite::types::{ToSql, Value};
use sqlite::{Error, ErrorCode, Row};
use sqlite_schema::code::own_value;
use std::alloc::Global;
use std::marker::Model;

/// A value that stands in columns of a row, one beside the other.
pub trait Cells: Sized + Drop {
    ghost columns: { Columns Self };

    /// How many columns these are.
    fn width() -> usize
        requires { columns.width ≤ 100 }
        ensures { result ≡ columns.width };

    /// Reads the value in the columns from this one on.
    fn read(alloc: Global, row: &Row, at: usize) -> Result<Self, Error>
        requires { at + columns.width ≤ 100 }
        ensures value { IfOk result (λ x. x ≡ columns.value_in (columns_from at columns.width row.now)) }
        ensures told { IfOk result (λ _. IsTrue (columns.are (columns_from at columns.width row.now))) }
        ensures refused { IfErr result (λ e. e ≢ Error.SqliteFailure ErrorCode.OutOfMemory → columns.are (columns_from at columns.width row.now) ≡ false) };

    /// Whether the columns from this one on have such a value. Nothing is made of them.
    fn has(row: &Row, at: usize) -> bool
        requires { at + columns.width ≤ 100 }
        ensures { result ≡ columns.are (columns_from at columns.width row.now) };

    /// Puts its cells behind those that are there.
    fn add(&self, alloc: Global, cells: &mut Vec<Value>) -> Result<(), Error>
        ensures added { OnOk result (cells.new.items ≡ cells.old.items ++ columns.cells self.now) }
        ensures again { OnOk result (columns.value_in (columns.cells self.now) ≡ self.now) };

    ghost shown: { AreShown columns };

    ghost spelled: { AreSpelled columns };
}

/// Puts a value behind the cells that are there.
pub fn put_cell<'a, V: ToSql<'a>>(
    alloc: Global,
    cells: &mut Vec<Value>,
    value: V,
) -> Result<(), Error>
    ensures { OnOk result (cells.new.items ≡ cells.old.items ++ V.ToSql.to_sql value ∷ []) }
{
    Ok(cells.push(own_value(alloc, value.to_sql())?)?)
}

/// A number from `LOW` to `HIGH`. Another is refused when it is read; when it is put, only one from 2 to the 63rd on is.
#[derive(Drop)]
pub struct Within<const LOW: u64, const HIGH: u64>(pub u64);

/// The time of a write.
pub type Time = Within<1, GREATEST_TIME>;

/// The number of a commit, or how many there are; 0 if there is none.
pub type Commit = Within<0, GREATEST_COMMIT>;

impl<const LOW: u64, const HIGH: u64> Model for Within<LOW, HIGH> {
    ghost use Rattle.std.specs.Prelude.{ℕ};

    ghost Value = { ℕ };

    ghost view = { λ x. x.0 };
}

impl<const LOW: u64, const HIGH: u64> Cells for Within<LOW, HIGH> {
    ghost columns = { number_columns LOW HIGH };

    fn width() -> usize {
        1
    }

    fn read(_alloc: Global, row: &Row, at: usize) -> Result<Within<LOW, HIGH>, Error> {
        Ok(Within(read_number(row, at, LOW, HIGH)?))
    }

    fn has(row: &Row, at: usize) -> bool {
        has_number(row, at, LOW, HIGH)
    }

    fn add(&self, alloc: Global, cells: &mut Vec<Value>) -> Result<(), Error> {
        put_cell(alloc, cells, Number::new(self.0, cells.len())?)
    }

    ghost shown = { number_shown LOW HIGH };

    ghost spelled = { λ x. (refl, refl) };
}

/// A count of a server's writes, from `LOW` to 999,999,999 when it is read.
#[derive(Drop)]
pub struct Counted<const LOW: u64>(pub u32);

impl<const LOW: u64> Model for Counted<LOW> {
    ghost use Rattle.std.specs.Prelude.{ℕ};

    ghost Value = { ℕ };

    ghost view = { λ x. x.0 };
}

impl<const LOW: u64> Cells for Counted<LOW> {
    ghost columns = { number_columns LOW greatest_count };

    fn width() -> usize {
        1
    }

    fn read(_alloc: Global, row: &Row, at: usize) -> Result<Counted<LOW>, Error> {
        let count = read_number(row, at, LOW, u64::from(GREATEST_COUNT))?;
        Ok(Counted(count as u32))
    }

    fn has(row: &Row, at: usize) -> bool {
        has_number(row, at, LOW, u64::from(GREATEST_COUNT))
    }

    fn add(&self, alloc: Global, cells: &mut Vec<Value>) -> Result<(), Error> {
        put_cell(alloc, cells, self.0)
    }

    ghost shown = { number_shown LOW greatest_count };

    ghost spelled = { λ x. (refl, refl) };
}

impl Cells for ServerId {
    ghost columns = { number_columns 1 99 };

    fn width() -> usize {
        1
    }

    fn read(_alloc: Global, row: &Row, at: usize) -> Result<ServerId, Error> {
        read_server(row, at)
    }

    fn has(row: &Row, at: usize) -> bool {
        has_server(row, at)
    }

    fn add(&self, alloc: Global, cells: &mut Vec<Value>) -> Result<(), Error> {
        put_cell(alloc, cells, self.number())
    }

    ghost shown = { number_shown 1 99 };

    ghost spelled = { λ x. (refl, refl) };
}

impl Cells for bool {
    ghost columns = { mark_columns };

    fn width() -> usize {
        1
    }

    fn read(_alloc: Global, row: &Row, at: usize) -> Result<bool, Error> {
        read_mark(row, at)
    }

    fn has(row: &Row, at: usize) -> bool {
        has_mark(row, at)
    }

    fn add(&self, alloc: Global, cells: &mut Vec<Value>) -> Result<(), Error> {
        put_cell(alloc, cells, *self)
    }

    ghost shown = { mark_shown };

    ghost spelled = { λ x. (refl, refl) };
}

impl Cells for RoomName {
    ghost columns = { name_columns };

    fn width() -> usize {
        1
    }

    fn read(alloc: Global, row: &Row, at: usize) -> Result<RoomName, Error> {
        read_name(alloc, row, at)
    }

    fn has(row: &Row, at: usize) -> bool {
        has_name(row, at)
    }

    fn add(&self, alloc: Global, cells: &mut Vec<Value>) -> Result<(), Error> {
        put_cell(alloc, cells, self.as_str())
    }

    ghost shown = { name_shown };

    ghost spelled = { λ x. (refl, refl) };
}

impl Cells for Title {
    ghost columns = { title_columns };

    fn width() -> usize {
        1
    }

    fn read(alloc: Global, row: &Row, at: usize) -> Result<Title, Error> {
        read_title(alloc, row, at)
    }

    fn has(row: &Row, at: usize) -> bool {
        has_title(row, at)
    }

    fn add(&self, alloc: Global, cells: &mut Vec<Value>) -> Result<(), Error> {
        put_cell(alloc, cells, self.as_str())
    }

    ghost shown = { title_shown };

    ghost spelled = { λ x. (refl, refl) };
}

impl Cells for Day {
    ghost columns = { day_columns };

    fn width() -> usize {
        1
    }

    fn read(_alloc: Global, row: &Row, at: usize) -> Result<Day, Error> {
        read_day(row, at)
    }

    fn has(row: &Row, at: usize) -> bool {
        has_day(row, at)
    }

    fn add(&self, alloc: Global, cells: &mut Vec<Value>) -> Result<(), Error> {
        let text = day_text(alloc, *self)?;
        put_cell(alloc, cells, text.as_str())
    }

    ghost shown = { day_shown };

    ghost spelled = { λ x. (refl, refl) };
}

impl Cells for WriteId {
    ghost columns = { id_columns };

    fn width() -> usize {
        2
    }

    fn read(_alloc: Global, row: &Row, at: usize) -> Result<WriteId, Error> {
        read_id(row, at)
    }

    fn has(row: &Row, at: usize) -> bool {
        has_id(row, at)
    }

    fn add(&self, alloc: Global, cells: &mut Vec<Value>) -> Result<(), Error> {
        put_cell(alloc, cells, self.server.number())?;
        put_cell(alloc, cells, self.n)
    }

    ghost shown = { id_shown };

    ghost spelled = { λ x. (refl, refl) };
}

/// The minutes at which a slot begins and stops.
#[derive(Drop)]
pub struct Span {
    pub start: u32,
    pub stop: u32,
}

impl Model for Span {
    ghost use Rattle.std.specs.Prelude.{ℕ, ◌≤◌};

    ghost Value = { ℕ × ℕ };

    ghost view = { λ s. (s.start, s.stop) };

    ghost invariant = { λ s. (s.start ≤ 1440) × (s.stop ≤ 1440) };
}

impl Cells for Span {
    ghost columns = { span_columns };

    fn width() -> usize {
        2
    }

    fn read(_alloc: Global, row: &Row, at: usize) -> Result<Span, Error> {
        let start = read_number(row, at, 0, u64::from(MINUTES_OF_A_DAY) - 1)?;
        let stop = read_number(row, at + 1, start + 1, u64::from(MINUTES_OF_A_DAY))?;
        Ok(Span {
            start: start as u32,
            stop: stop as u32,
        })
    }

    fn has(row: &Row, at: usize) -> bool {
        match read_number(row, at, 0, u64::from(MINUTES_OF_A_DAY) - 1) {
            Ok(start) => has_number(row, at + 1, start + 1, u64::from(MINUTES_OF_A_DAY)),
            Err(_) => false,
        }
    }

    fn add(&self, alloc: Global, cells: &mut Vec<Value>) -> Result<(), Error> {
        put_cell(alloc, cells, self.start)?;
        put_cell(alloc, cells, self.stop)
    }

    ghost shown = { span_shown };

    ghost spelled = { λ x. (refl, refl) };
}

impl<A: Cells, B: Cells> Cells for (A, B) {
    ghost columns = { both A.columns B.columns };

    fn width() -> usize {
        A::width() + B::width()
    }

    fn read(alloc: Global, row: &Row, at: usize) -> Result<(A, B), Error> {
        let first = A::read(alloc, row, at)?;
        let second = B::read(alloc, row, at + A::width())?;
        Ok((first, second))
    }

    fn has(row: &Row, at: usize) -> bool {
        A::has(row, at) && B::has(row, at + A::width())
    }

    fn add(&self, alloc: Global, cells: &mut Vec<Value>) -> Result<(), Error> {
        self.0.add(alloc, cells)?;
        self.1.add(alloc, cells)
    }

    ghost shown = { both_shown A.columns B.columns A.shown B.shown };

    ghost spelled = { both_spelled A.columns B.columns A.spelled B.spelled };
}
