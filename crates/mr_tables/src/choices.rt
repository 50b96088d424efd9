ghost use Rattle.std.specs.Prelude.{◌≡◌, ◌+◌, ◌≤◌, ◌++◌, ◌∷◌, flat_map, OnOk, IfOk, IfSome};
ghost use Rattle.std.specs.List.{slice_get};
ghost use Rattle.std.specs.String.{string_bytes};
ghost use Rattle.mr_model.specs.Texts.{words};
ghost use Rattle.mr_model.specs.Slots.{slot_words};
ghost use Rattle.mr_model.specs.Writes.{choices_of};
ghost use Rattle.mr_tables.specs.ExecutionRows.{slot_text, more_slots};

use mr_base::{Meeting, Slot, TimeOfDay};
use std::alloc::{AllocError, Global};
use std::fmt;

/// The choices of a meeting as `log` has them: `<day> <HH:MM>` for the wish and each alternative, parted by one space.
pub(crate) fn choices_text(alloc: Global, wish: Slot, others: &[Slot]) -> Result<String, AllocError>
    ensures { IfOk result (λ text. string_bytes text ≡ words (flat_map slot_words (wish ∷ others.now))) }
{
    let mut text = String::new(alloc);
    push_slot(&mut text, wish)?;
    push_slots(&mut text, others)?;
    Ok(text)
}

/// The choice of this number: 0 is the wish, 1 the first alternative. It ends on its day.
pub fn choice_of(meeting: &Meeting, number: u32) -> Option<Slot>
    ensures choice { result ≡ slice_get (choices_of meeting.now) number }
    ensures fits { IfSome result (λ s. s.start + meeting.now.length ≤ 1440) }
{
    // For the prover alone: the meeting is within its limits.
    meeting.is_within_limits();
    choice_numbered(meeting, number)
}

fn choice_numbered(meeting: &Meeting, number: u32) -> Option<Slot>
    ensures { result ≡ slice_get (choices_of meeting.now) number }
{
    if number == 0 {
        return Some(meeting.wish);
    }
    meeting
        .alternatives
        .as_slice()
        .get(number as usize - 1)
        .copied()
}

fn push_slot(text: &mut String, slot: Slot) -> Result<(), AllocError>
    ensures { OnOk result (string_bytes text.new ≡ string_bytes text.old ++ slot_text slot) }
{
    let day = slot.day;
    let time = TimeOfDay::new(slot.start);
    write!(text, "{day} {time}")
}

fn push_more(text: &mut String, slot: Slot) -> Result<(), AllocError>
    ensures { OnOk result (string_bytes text.new ≡ string_bytes text.old ++ 32 ∷ slot_text slot) }
{
    let day = slot.day;
    let time = TimeOfDay::new(slot.start);
    write!(text, " {day} {time}")
}

/// Slots behind another one, each with a space in front.
fn push_slots(text: &mut String, slots: &[Slot]) -> Result<(), AllocError>
    ensures { OnOk result (string_bytes text.new ≡ string_bytes text.old ++ more_slots slots.now) }
{
    for slot in slots {
        push_more(text, *slot)?;
    }
    Ok(())
}
