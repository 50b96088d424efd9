ghost use Rattle.std.specs.Prelude.{◌≡◌, ◌≢◌, ◌<◌, ◌≤◌, length, drop, false, IfOk, IfErr, IsTrue, string_bytes};
ghost use Rattle.sqlite_value.specs.Order.{column, bytes};
ghost use Rattle.mr_rows.specs.RowLimits.{is_day_text, is_start_text, begins_with_slot, are_choices, is_choices};
ghost use Rattle.mr_rows.specs.CellLimits.{is_text};

use crate::cells::{read_text, text_in};
use mr_base::{Day, MINUTES_OF_A_DAY, read_minute};
use sqlite::{Error, ErrorCode, Row};

// The text of choices has 17 bytes for each slot, `<day> <HH:MM>` and a space, but for the last one, behind which there is no space.

/// Whether the bytes are the text of a day.
fn is_day_text(text: &[u8]) -> bool
    ensures { result ≡ is_day_text text.now }
{
    match str::from_utf8(text) {
        Ok(text) => Day::read(text).is_ok(),
        Err(_) => false,
    }
}

/// Whether the text is a time of the day from which so many minutes are left.
fn has_minutes_left(text: &str, length: u32) -> bool
    requires { length ≤ 1440 }
    ensures { result ≡ is_start_text length text.now }
{
    match read_minute(text) {
        Ok(start) => start + length <= MINUTES_OF_A_DAY,
        Err(_) => false,
    }
}

/// The same of bytes.
fn is_start_text(text: &[u8], length: u32) -> bool
    requires { length ≤ 1440 }
    ensures { result ≡ is_start_text length text.now }
{
    match str::from_utf8(text) {
        Ok(text) => has_minutes_left(text, length),
        Err(_) => false,
    }
}

/// Whether the bytes begin with a slot of this length that ends on its day.
fn begins_with_slot(text: &[u8], length: u32) -> bool
    requires { length ≤ 1440 }
    ensures { result ≡ begins_with_slot length text.now }
{
    if text.len() < 16 {
        return false;
    }
    is_day_text(&text[..10]) && text[10] == b' ' && is_start_text(&text[11..16], length)
}

/// What stands behind a slot and a space.
fn behind_slot(text: &[u8]) -> &[u8]
    requires { 16 < length text.now }
    ensures { result.now ≡ drop 17 text.now }
{
    &text[17..]
}

/// Whether the bytes are those of choices of this length, and of no more than there can be.
fn are_choices(text: &[u8], length: u32) -> bool
    requires { length ≤ 1440 }
    ensures { result ≡ are_choices 17 length text.now }
{
    let mut rest = text;
    for _ in 0..17u32 {
        if !begins_with_slot(rest, length) {
            return false;
        }
        if rest.len() <= 16 {
            return true;
        }
        if rest[16] != b' ' {
            return false;
        }
        rest = behind_slot(rest);
    }
    false
}

/// Whether this column has choices of this length.
pub fn has_choices(row: &Row, at: usize, length: u32) -> bool
    requires { length ≤ 1440 }
    ensures { result ≡ is_text (is_choices length) (column row.now at) }
{
    match text_in(row, at) {
        Ok(text) => are_choices(text.as_bytes(), length),
        Err(_) => false,
    }
}

/// The text of the choices of this length in this column.
pub fn read_choices(row: &Row, at: usize, length: u32) -> Result<String, Error>
    requires { length ≤ 1440 }
    ensures text { IfOk result (λ text. string_bytes text ≡ bytes (column row.now at)) }
    ensures told { IfOk result (λ _. IsTrue (is_text (is_choices length) (column row.now at))) }
    ensures refused { IfErr result (λ e. e ≢ Error.SqliteFailure ErrorCode.OutOfMemory → is_text (is_choices length) (column row.now at) ≡ false) }
{
    if !has_choices(row, at, length) {
        return Err(Error::IntegralValueOutOfRange(at));
    }
    read_text(row, at)
}
