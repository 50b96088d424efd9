ghost use Rattle.std.specs.Prelude.{◌≡◌, ◌≢◌, ℕ, ◌+◌, ◌<◌, ◌^◌, ◌==◌, pos, false, Bool, None, length, IfOk, IfErr, IfSome, OnOk, string_bytes, IsTrue};
ghost use Rattle.std.specs.Str.{is_utf8};
ghost use Rattle.sqlite_value.specs.declared.value.Value.TheVariants.{Int, Text};
ghost use Rattle.sqlite_value.specs.Order.{column, bytes};
ghost use Rattle.mr_model.specs.Texts.{within};
ghost use Rattle.mr_model.specs.Calendar.{is_date, date_in, date_text};
ghost use Rattle.mr_model.specs.Writes.{is_server, is_count, is_id, is_room_name, is_title};
ghost use Rattle.mr_replay.specs.Places.{place_seen};
ghost use Rattle.mr_rows.specs.RowCells.{flag_number, nat_of, whole_of, place_in, place_number};
ghost use Rattle.mr_rows.specs.RowLimits.{is_small, is_place, is_day_text};
ghost use Rattle.mr_rows.specs.CellLimits.{is_number_cell, is_text, is_server_cell, is_count_cell, is_commit_cell, is_mark_cell, is_id_cells, is_place_cell};

use mr_base::{
    Day, GREATEST_COMMIT, GREATEST_COUNT, GREATEST_SERVER, Refusal, RoomName, ServerId, Title,
    WriteId, is_room_text, is_title_text,
};
use mr_replay::Place;
use sqlite::types::{Type, ValueRef};
use sqlite::{Error, ErrorCode, Row};
use std::alloc::Global;

// What a value that breaks its limits is refused with. Out of memory stays what it is.
fn broken(refusal: Refusal, at: usize) -> Error
    ensures memory { refusal ≡ Refusal.OutOfMemory → result ≡ Error.SqliteFailure ErrorCode.OutOfMemory }
    ensures other { refusal ≢ Refusal.OutOfMemory → result ≢ Error.SqliteFailure ErrorCode.OutOfMemory }
{
    match refusal {
        Refusal::OutOfMemory => Error::SqliteFailure(ErrorCode::OutOfMemory),
        _ => Error::InvalidColumnType(at, Type::Text),
    }
}

/// Ok if a row passed its test, else an error.
pub fn passes(passed: bool) -> Result<(), Error>
    ensures ok { OnOk result (IsTrue passed) }
    ensures refused { IfErr result (λ _. passed ≡ false) }
{
    if passed {
        Ok(())
    } else {
        Err(Error::InvalidQuery)
    }
}

/// The text in this column, lent where it lies in the row.
pub(crate) fn text_in(row: &Row, at: usize) -> Result<&str, Error>
    ensures cell { IfOk result (λ text. column row.now at ≡ Text text.now) }
    ensures utf8 { IfOk result (λ text. IsTrue (is_utf8 text.now)) }
    ensures refused { IfErr result (λ _. is_text is_utf8 (column row.now at) ≡ false) }
{
    match row.get_ref(at)? {
        ValueRef::Text(bytes) => match str::from_utf8(bytes) {
            Ok(text) => Ok(text),
            Err(_) => Err(Error::Utf8Error(at)),
        },
        value => Err(Error::InvalidColumnType(at, Type::of(value))),
    }
}

/// The name of a room in this column.
pub fn read_name(alloc: Global, row: &Row, at: usize) -> Result<RoomName, Error>
    ensures name { IfOk result (λ name. name ≡ bytes (column row.now at)) }
    ensures cell { IfOk result (λ name. column row.now at ≡ Text name) }
    ensures within { IfOk result (λ name. IsTrue (is_room_name name)) }
    ensures refused { IfErr result (λ e. e ≢ Error.SqliteFailure ErrorCode.OutOfMemory → is_text is_room_name (column row.now at) ≡ false) }
{
    match RoomName::new(alloc, text_in(row, at)?) {
        Ok(name) => Ok(name),
        Err(refusal) => Err(broken(refusal, at)),
    }
}

/// Whether this column has the name of a room.
pub fn has_name(row: &Row, at: usize) -> bool
    ensures { result ≡ is_text is_room_name (column row.now at) }
{
    match row.get_ref(at) {
        Ok(ValueRef::Text(text)) => is_room_text(text),
        _ => false,
    }
}

/// The title in this column.
pub fn read_title(alloc: Global, row: &Row, at: usize) -> Result<Title, Error>
    ensures title { IfOk result (λ title. title ≡ bytes (column row.now at)) }
    ensures cell { IfOk result (λ title. column row.now at ≡ Text title) }
    ensures within { IfOk result (λ title. IsTrue (is_title title)) }
    ensures refused { IfErr result (λ e. e ≢ Error.SqliteFailure ErrorCode.OutOfMemory → is_text is_title (column row.now at) ≡ false) }
{
    match Title::new(alloc, text_in(row, at)?) {
        Ok(title) => Ok(title),
        Err(refusal) => Err(broken(refusal, at)),
    }
}

/// Whether this column has a title.
pub fn has_title(row: &Row, at: usize) -> bool
    ensures { result ≡ is_text is_title (column row.now at) }
{
    match row.get_ref(at) {
        Ok(ValueRef::Text(text)) => is_title_text(text),
        _ => false,
    }
}

/// The day in this column.
pub(crate) fn read_day(row: &Row, at: usize) -> Result<Day, Error>
    ensures day { IfOk result (λ day. day ≡ date_in (bytes (column row.now at))) }
    ensures cell { IfOk result (λ day. column row.now at ≡ Text (date_text day)) }
    ensures within { IfOk result (λ day. IsTrue (is_date day)) }
    ensures told { IfOk result (λ _. IsTrue (is_text is_day_text (column row.now at))) }
    ensures refused { IfErr result (λ _. is_text is_day_text (column row.now at) ≡ false) }
{
    match Day::read(text_in(row, at)?) {
        Ok(day) => Ok(day),
        Err(refusal) => Err(broken(refusal, at)),
    }
}

/// Whether this column has a day.
pub(crate) fn has_day(row: &Row, at: usize) -> bool
    ensures { result ≡ is_text is_day_text (column row.now at) }
{
    read_day(row, at).is_ok()
}

/// Whether a column's number is from `low` to `high`.
fn is_between(number: i64, low: u64, high: u64) -> bool
    ensures { result ≡ is_number_cell low high (Int number) }
{
    number >= 0 && number as u64 >= low && number as u64 <= high
}

/// Whether this column has a number from `low` to `high`.
pub fn has_number(row: &Row, at: usize, low: u64, high: u64) -> bool
    ensures { result ≡ is_number_cell low high (column row.now at) }
{
    match row.get_ref(at) {
        Ok(ValueRef::Int(number)) => is_between(number, low, high),
        _ => false,
    }
}

/// The number in this column, from `low` to `high`.
pub fn read_number(row: &Row, at: usize, low: u64, high: u64) -> Result<u64, Error>
    ensures number { IfOk result (λ number. number ≡ nat_of (column row.now at)) }
    ensures cell { IfOk result (λ number. column row.now at ≡ Int (pos number)) }
    ensures within { IfOk result (λ number. IsTrue (within low high number)) }
    ensures refused { IfErr result (λ _. is_number_cell low high (column row.now at) ≡ false) }
{
    match row.get_ref(at)? {
        ValueRef::Int(number) if is_between(number, low, high) => Ok(number as u64),
        _ => Err(Error::IntegralValueOutOfRange(at)),
    }
}

/// The server in this column.
pub fn read_server(row: &Row, at: usize) -> Result<ServerId, Error>
    ensures server { IfOk result (λ server. server ≡ nat_of (column row.now at)) }
    ensures cell { IfOk result (λ server. column row.now at ≡ Int (pos server)) }
    ensures within { IfOk result (λ server. IsTrue (is_server server)) }
    ensures refused { IfErr result (λ _. is_server_cell (column row.now at) ≡ false) }
{
    let number = read_number(row, at, 1, u64::from(GREATEST_SERVER))?;
    match ServerId::new(number as u32) {
        Some(server) => Ok(server),
        None => Err(Error::IntegralValueOutOfRange(at)),
    }
}

/// Whether this column has a server.
pub(crate) fn has_server(row: &Row, at: usize) -> bool
    ensures { result ≡ is_server_cell (column row.now at) }
{
    has_number(row, at, 1, u64::from(GREATEST_SERVER))
}

/// The number below 2 to the 32nd in this column.
pub fn read_u32(row: &Row, at: usize) -> Result<u32, Error>
    ensures number { IfOk result (λ number. number ≡ nat_of (column row.now at)) }
    ensures cell { IfOk result (λ number. column row.now at ≡ Int (pos number)) }
    ensures within { IfOk result (λ number. IsTrue (is_small number)) }
    ensures refused { IfErr result
        (λ e. e ≢ Error.SqliteFailure ErrorCode.OutOfMemory → at < length row.now → (n : ℕ) → n < 2 ^ 32 → column row.now at ≢ Int (pos n)) }
{
    row.get(at)
}

/// The count of a write in this column.
pub fn read_count(row: &Row, at: usize) -> Result<u32, Error>
    ensures count { IfOk result (λ count. count ≡ nat_of (column row.now at)) }
    ensures cell { IfOk result (λ count. column row.now at ≡ Int (pos count)) }
    ensures within { IfOk result (λ count. IsTrue (is_count count)) }
    ensures refused { IfErr result (λ _. is_count_cell (column row.now at) ≡ false) }
{
    let count = read_number(row, at, 1, u64::from(GREATEST_COUNT))?;
    Ok(count as u32)
}

/// Whether this column has the count of a write.
pub(crate) fn has_count(row: &Row, at: usize) -> bool
    ensures { result ≡ is_count_cell (column row.now at) }
{
    has_number(row, at, 1, u64::from(GREATEST_COUNT))
}

/// The number of a commit in this column, or how many there are; 0 if there is none.
pub fn read_commit(row: &Row, at: usize) -> Result<u64, Error>
    ensures number { IfOk result (λ number. number ≡ nat_of (column row.now at)) }
    ensures cell { IfOk result (λ number. column row.now at ≡ Int (pos number)) }
    ensures within { IfOk result (λ number. IsTrue (within 0 999_999_999_999 number)) }
    ensures refused { IfErr result (λ _. is_commit_cell (column row.now at) ≡ false) }
{
    read_number(row, at, 0, GREATEST_COMMIT)
}

/// The id in this column and the next.
pub fn read_id(row: &Row, at: usize) -> Result<WriteId, Error>
    requires at { at < 100 }
    ensures id { IfOk result (λ id. id ≡ record { server = nat_of (column row.now at); n = nat_of (column row.now (at + 1)) }) }
    ensures server { IfOk result (λ id. column row.now at ≡ Int (pos id.server)) }
    ensures count { IfOk result (λ id. column row.now (at + 1) ≡ Int (pos id.n)) }
    ensures within { IfOk result (λ id. IsTrue (is_id id)) }
    ensures refused { IfErr result (λ _. is_id_cells (column row.now at) (column row.now (at + 1)) ≡ false) }
{
    let server = read_server(row, at)?;
    let n = read_count(row, at + 1)?;
    Ok(WriteId { server, n })
}

/// Whether this column and the next have an id.
pub fn has_id(row: &Row, at: usize) -> bool
    requires at { at < 100 }
    ensures { result ≡ is_id_cells (column row.now at) (column row.now (at + 1)) }
{
    has_server(row, at) && has_count(row, at + 1)
}

/// The place with this number.
fn place_of(number: i64) -> Option<Place>
    ensures some { IfSome result (λ place. number ≡ place_number (place_seen place)) }
    ensures within { IfSome result (λ place. IsTrue (is_place (place_seen place))) }
    ensures none { result ≡ None → (cancels : Bool) → is_place_cell cancels (Int number) ≡ false }
{
    match number {
        0..=16 => Some(Place::Taken(number as u32)),
        -1 => Some(Place::Logged),
        -2 => Some(Place::Done),
        -3 => Some(Place::Void),
        _ => None,
    }
}

/// The place in this column: the number of its choice, -1 for the error log, -2 and -3 for a cancel that is done or void.
pub fn read_place(row: &Row, at: usize) -> Result<Place, Error>
    ensures place { IfOk result (λ place. place_seen place ≡ place_in (whole_of (column row.now at))) }
    ensures cell { IfOk result (λ place. column row.now at ≡ Int (place_number (place_seen place))) }
    ensures within { IfOk result (λ place. IsTrue (is_place (place_seen place))) }
    ensures refused { IfErr result (λ _. (cancels : Bool) → is_place_cell cancels (column row.now at) ≡ false) }
{
    match row.get_ref(at)? {
        ValueRef::Int(number) => place_of(number).ok_or(Error::IntegralValueOutOfRange(at)),
        _ => Err(Error::IntegralValueOutOfRange(at)),
    }
}

/// The text in this column.
pub fn read_text(row: &Row, at: usize) -> Result<String, Error>
    ensures text { IfOk result (λ text. string_bytes text ≡ bytes (column row.now at)) }
    ensures cell { IfOk result (λ text. column row.now at ≡ Text (string_bytes text)) }
    ensures utf8 { IfOk result (λ text. IsTrue (is_utf8 (string_bytes text))) }
    ensures refused { IfErr result (λ e. e ≢ Error.SqliteFailure ErrorCode.OutOfMemory → is_text is_utf8 (column row.now at) ≡ false) }
{
    row.get(at)
}

/// The mark in this column, which is 0 or 1.
pub fn read_mark(row: &Row, at: usize) -> Result<bool, Error>
    ensures mark { IfOk result (λ m. m ≡ (nat_of (column row.now at) == 1)) }
    ensures cell { IfOk result (λ m. column row.now at ≡ Int (flag_number m)) }
    ensures refused { IfErr result (λ _. is_mark_cell (column row.now at) ≡ false) }
{
    let number = read_number(row, at, 0, 1)?;
    Ok(number == 1)
}

/// Whether this column has a mark.
pub(crate) fn has_mark(row: &Row, at: usize) -> bool
    ensures { result ≡ is_mark_cell (column row.now at) }
{
    has_number(row, at, 0, 1)
}
