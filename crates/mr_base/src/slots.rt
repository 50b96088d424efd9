ghost use Rattle.std.specs.Prelude.{◌≡◌, ◌↔◌, ◌&&◌, nat_le, IsTrue};
ghost use Rattle.mr_model.specs.Slots.{Slot as SlotOfDay, Overlap, overlaps as is_overlap, is_slot};
ghost use Rattle.mr_model.specs.Writes.{fits_day};
ghost use Rattle.mr_base.specs.Answers.{ok_if};

use crate::{Day, MINUTES_OF_A_DAY, Refusal};
use std::marker::Model;

/// A minute of a day, counted from midnight, at which something starts.
#[derive(Clone, Copy, Debug, PartialEq, Eq, PartialOrd, Ord)]
pub struct Slot {
    pub day: Day,
    pub start: u32,
}

impl Model for Slot {
    ghost Value = { SlotOfDay };

    ghost view = { λ s. record { day = s.day; start = s.start } };

    ghost invariant = { λ s. IsTrue (is_slot (record { day = s.day; start = s.start })) };

    ghost inverse = { λ v. record { day = v.day; start = v.start } };
}

impl Slot {
    /// The slot of that day which starts at that minute of it; refused if the day has no such minute.
    pub fn new(day: Day, start: u32) -> Result<Slot, Refusal>
        ensures { result ≡ ok_if (nat_le start 1439) (record { day = day; start = start }) Refusal.BadTime }
    {
        // For the prover alone: the day is within the calendar.
        day.is_within_calendar();
        if start < MINUTES_OF_A_DAY {
            Ok(Slot { day, start })
        } else {
            Err(Refusal::BadTime)
        }
    }

    /// Whether what lasts that many minutes from here on ends on the slot's day, at midnight at the latest.
    pub fn fits_day(&self, length: u32) -> bool
        ensures { result ≡ (is_slot self.now && fits_day length self.now) }
    {
        self.start as u64 + length as u64 <= MINUTES_OF_A_DAY as u64
    }
}

/// Whether two slots, each with its own length in minutes, have a minute in common. Slots that touch have none, and
/// nothing overlaps a slot of length 0.
pub fn overlaps(a: Slot, b: Slot, a_length: u32, b_length: u32) -> bool
    ensures test { result ≡ is_overlap a a_length b b_length }
    ensures meaning { IsTrue result ↔ Overlap a a_length b b_length }
{
    is_later_start_before_earlier_end(a, b, a_length, b_length)
}

fn is_later_start_before_earlier_end(a: Slot, b: Slot, a_length: u32, b_length: u32) -> bool
    ensures { result ≡ is_overlap a a_length b b_length }
{
    let (a_start, b_start) = (a.start as u64, b.start as u64);
    let later_start = b_start.max(a_start);
    let earlier_end = (a_start + a_length as u64).min(b_start + b_length as u64);
    a.day == b.day && later_start < earlier_end
}
