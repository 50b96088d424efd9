ghost use Rattle.std.specs.Prelude.{◌≡◌, ℕ, Some, Ok, IfOk, ok_or, ◌<◌, ◌≤◌};
ghost use Rattle.mr_model.specs.Calendar.{time_text, read_time};
ghost use Rattle.mr_base.specs.Readings.{minute_by_digits};

use crate::Refusal;
use crate::digits::{TwoDigits, read_pair};
use std::fmt;
use std::marker::Model;

/// Reads `HH:MM`, from `00:00` to `23:59`: the minute of the day, from 0 to 1439.
pub fn read_minute(text: &str) -> Result<u32, Refusal>
    ensures value { result ≡ ok_or (read_time text.now) Refusal.BadTime }
    ensures written { IfOk result (λ m. (m < 1440) × (text.now ≡ time_text m)) }
    ensures read { (m : ℕ) → m < 1440 → text.now ≡ time_text m → result ≡ Ok m }
{
    minute_of(text).ok_or(Refusal::BadTime)
}

fn minute_of(text: &str) -> Option<u32>
    ensures { result ≡ minute_by_digits text.now }
{
    let bytes = text.as_bytes();
    if bytes.len() != 5 || bytes[2] != b':' {
        return None;
    }
    let hour = read_pair(bytes[0], bytes[1])?;
    let minute = read_pair(bytes[3], bytes[4])?;
    if hour < 24 && minute < 60 {
        Some(hour as u32 * 60 + minute as u32)
    } else {
        None
    }
}

/// A minute of the day, or the day's end. It is written as `HH:MM`, the end as `24:00`.
#[derive(Clone, Copy, Debug, PartialEq, Eq, PartialOrd, Ord)]
pub struct TimeOfDay {
    minute: u16,
}

impl Model for TimeOfDay {
    ghost Value = { ℕ };

    ghost view = { λ t. t.minute };

    ghost invariant = { λ t. t.minute ≤ 1440 };

    ghost inverse = { λ n. record { minute = n } };
}

impl TimeOfDay {
    /// The time at this minute, counted from midnight, which is to be at most 1440.
    pub fn new(minute: u32) -> TimeOfDay
        requires { minute ≤ 1440 }
        ensures { result ≡ minute }
    {
        TimeOfDay {
            minute: minute as u16,
        }
    }
}

impl fmt::Display for TimeOfDay {
    ghost output = { λ t. Some (time_text t) };

    fn fmt<W: fmt::Write>(&self, f: &mut fmt::Formatter<W>) -> fmt::Result {
        let hour = TwoDigits::new(self.minute / 60);
        let minute = TwoDigits::new(self.minute % 60);
        write!(f, "{hour}:{minute}")
    }
}
