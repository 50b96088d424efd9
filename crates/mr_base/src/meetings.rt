ghost use Rattle.std.specs.Prelude.{◌≡◌, ◌∷◌, ◌&&◌, nat_lt, length, IsTrue, Ok};
ghost use Rattle.std.specs.List.{list_all};
ghost use Rattle.mr_model.specs.Slots.{is_slot};
ghost use Rattle.mr_model.specs.Writes.{Meeting as MeetingInRoom, fits_day, greatest_alternatives, is_meeting, same_slots, same_meeting};
ghost use Rattle.mr_model.specs.Requests.{is_length_for};
ghost use Rattle.mr_base.specs.Answers.{OrOutOfMemory};
ghost use Rattle.mr_base.specs.Limits.{limited};

use crate::{Alternatives, MINUTES_OF_A_DAY, MOST_ALTERNATIVES, Refusal, Slot, Title};
use std::alloc::Global;
use std::marker::Model;

/// A meeting that is asked for: a wished slot of a length in minutes, and the slots to be taken instead, in order.
#[derive(Debug, Drop)]
pub struct Meeting {
    pub title: Title,
    pub length: u32,
    pub wish: Slot,
    pub alternatives: Alternatives,
}

impl Model for Meeting {
    ghost Value = { MeetingInRoom };

    ghost view = { λ m. record {
      title = m.title;
      length = m.length;
      wish = m.wish;
      alternatives = m.alternatives;
    } };

    ghost invariant = { λ m. IsTrue (is_meeting (record {
      title = m.title;
      length = m.length;
      wish = m.wish;
      alternatives = m.alternatives;
    })) };
}

impl Meeting {
    /// The meeting, if the length and the choices are within the limits; else the smallest refusal that applies.
    pub fn new(
        title: Title,
        length: u32,
        wish: Slot,
        alternatives: Alternatives,
    ) -> Result<Meeting, Refusal>
        ensures { result ≡ limited length wish alternatives (record {
          title = title;
          length = length;
          wish = wish;
          alternatives = alternatives;
        }) }
    {
        if !fits(length, wish, alternatives.as_slice()) {
            return Err(Refusal::BadLength);
        }
        if are_too_many(alternatives.as_slice()) {
            return Err(Refusal::TooManyAlternatives);
        }
        // For the prover alone: the title is within its limits.
        title.as_str();
        Ok(Meeting {
            title,
            length,
            wish,
            alternatives,
        })
    }

    /// An equal meeting.
    pub fn copy(&self, alloc: Global) -> Result<Meeting, Refusal>
        ensures { OrOutOfMemory result (Ok self.now) }
    {
        let title = self.title.copy(alloc)?;
        let alternatives = self.alternatives.copy(alloc)?;
        Ok(Meeting {
            title,
            length: self.length,
            wish: self.wish,
            alternatives,
        })
    }

    /// Says to proofs that every meeting is within the limits. It does nothing.
    pub fn is_within_limits(&self)
        ensures { IsTrue (is_meeting self.now) }
    {
        let _length = self.length;
    }

    /// Whether the two are equal in all parts.
    pub fn is_same(&self, other: &Meeting) -> bool
        ensures { result ≡ same_meeting self.now other.now }
    {
        self.title.as_str() == other.title.as_str()
            && self.length == other.length
            && self.wish == other.wish
            && are_same_slots(self.alternatives.as_slice(), other.alternatives.as_slice())
    }
}

pub(crate) fn are_too_many(alternatives: &[Slot]) -> bool
    ensures { result ≡ nat_lt greatest_alternatives (length alternatives.now) }
{
    alternatives.len() > MOST_ALTERNATIVES
}

pub(crate) fn fits(length: u32, wish: Slot, alternatives: &[Slot]) -> bool
    ensures { result ≡ is_length_for length (wish ∷ alternatives.now) }
{
    length >= 1
        && length <= MINUTES_OF_A_DAY
        && wish.fits_day(length)
        && all_fit_day(length, alternatives)
}

fn all_fit_day(length: u32, slots: &[Slot]) -> bool
    ensures { result ≡ list_all (λ s. is_slot s && fits_day length s) slots.now }
{
    slots.iter().all(|slot| slot.fits_day(length))
}

fn are_same_slots(a: &[Slot], b: &[Slot]) -> bool
    ensures { result ≡ same_slots a.now b.now }
{
    a == b
}
