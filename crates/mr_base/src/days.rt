ghost use Rattle.std.specs.Prelude.{◌≡◌, Some, Ok, IfOk, ok_or, IsTrue};
ghost use Rattle.jiff.specs.Words.{monday_zero};
ghost use Rattle.mr_model.specs.Calendar.{Date as CivilDay, is_date, date_text, read_date, weekday_of, weekday_name as name_of_weekday};
ghost use Rattle.mr_base.specs.Readings.{date_if, date_by_digits};

use crate::Refusal;
use crate::digits::{TwoDigits, read_pair};
use jiff::civil::{Date, Weekday};
use std::fmt;
use std::marker::Model;

/// A day from 1990-01-01 to 2099-12-31.
#[derive(Clone, Copy, Debug, PartialEq, Eq, PartialOrd, Ord)]
pub struct Day {
    year: u16,
    month: u8,
    day: u8,
}

impl Model for Day {
    ghost Value = { CivilDay };

    ghost view = { λ d. record { year = d.year; month = d.month; day = d.day } };

    ghost invariant = { λ d. IsTrue (is_date (record { year = d.year; month = d.month; day = d.day })) };

    ghost inverse = { λ v. record { year = v.year; month = v.month; day = v.day } };
}

impl Day {
    /// Reads `YYYY-MM-DD`. Any other text is a bad day, and so is a date that the calendar or the range doesn't have.
    pub fn read(text: &str) -> Result<Day, Refusal>
        ensures value { result ≡ ok_or (read_date text.now) Refusal.BadDay }
        ensures written { IfOk result (λ d. IsTrue (is_date d) × (text.now ≡ date_text d)) }
        ensures read { (d : CivilDay) → IsTrue (is_date d) → text.now ≡ date_text d → result ≡ Ok d }
    {
        day_of(text).ok_or(Refusal::BadDay)
    }

    /// The year, from 1990 to 2099.
    pub fn year(&self) -> u16
        ensures { result ≡ self.now.year }
    {
        self.year
    }

    /// The month, from 1 to 12.
    pub fn month(&self) -> u8
        ensures { result ≡ self.now.month }
    {
        self.month
    }

    /// The day of the month, from 1.
    pub fn day(&self) -> u8
        ensures { result ≡ self.now.day }
    {
        self.day
    }

    /// The weekday, by the calendar of `jiff`.
    pub fn weekday(&self) -> Weekday
        ensures { monday_zero result ≡ weekday_of self.now }
    {
        jiff::civil::date(self.year as i16, self.month as i8, self.day as i8).weekday()
    }

    /// Says to proofs that every day is within the calendar. It does nothing.
    pub fn is_within_calendar(&self)
        ensures { IsTrue (is_date self.now) }
    {
        let _ = &self.year;
    }

    // The day with these parts, if the calendar has it and it is in range.
    fn of_parts(year: u16, month: u8, day: u8) -> Option<Day>
        ensures { result ≡ date_if year month day }
    {
        if year < 1990 || year > 2099 || month > 12 || day > 31 {
            return None;
        }
        match Date::new(year as i16, month as i8, day as i8) {
            Ok(_) => Some(Day { year, month, day }),
            Err(_) => None,
        }
    }
}

fn day_of(text: &str) -> Option<Day>
    ensures { result ≡ date_by_digits text.now }
{
    let bytes = text.as_bytes();
    if bytes.len() != 10 || bytes[4] != b'-' || bytes[7] != b'-' {
        return None;
    }
    let century = read_pair(bytes[0], bytes[1])?;
    let year = read_pair(bytes[2], bytes[3])?;
    let month = read_pair(bytes[5], bytes[6])?;
    let day = read_pair(bytes[8], bytes[9])?;
    Day::of_parts(century as u16 * 100 + year as u16, month, day)
}

/// The English name of a day's weekday, such as `Monday`.
pub fn weekday_name(day: &Day) -> &'static str
    ensures { result.now ≡ name_of_weekday day.now }
{
    match day.weekday() {
        Weekday::Monday => "Monday",
        Weekday::Tuesday => "Tuesday",
        Weekday::Wednesday => "Wednesday",
        Weekday::Thursday => "Thursday",
        Weekday::Friday => "Friday",
        Weekday::Saturday => "Saturday",
        Weekday::Sunday => "Sunday",
    }
}

impl fmt::Display for Day {
    ghost output = { λ d. Some (date_text d) };

    fn fmt<W: fmt::Write>(&self, f: &mut fmt::Formatter<W>) -> fmt::Result {
        let century = TwoDigits::new(self.year / 100);
        let year = TwoDigits::new(self.year % 100);
        let month = TwoDigits::new(self.month as u16);
        let day = TwoDigits::new(self.day as u16);
        write!(f, "{century}{year}-{month}-{day}")
    }
}
