ghost use Rattle.std.specs.Prelude.{◌≡◌, ◌∷◌, [], Option, codes, ok_or, IfOk, option_map};
ghost use Rattle.serde_json.specs.Find.{get};
ghost use Rattle.serde_json.specs.View.{view, items_view};
ghost use Rattle.mr_model.specs.Http.{bad_request};
ghost use Rattle.mr_service.specs.Asked.{words_of, submission_of};
ghost use Rattle.mr_web.specs.Submissions as spec;
ghost use Rattle.mr_web.specs.Views.{AddsSlots, GivesView, slots_view, wish_view};

use crate::json_bodies::{BAD_REQUEST, json_in, member_count, text_at};
use crate::rejections::Stop;
use mr_service::{SlotWords, Submission};
use serde_json::Value;
use std::alloc::{AllocError, Global};

// What a submission says beside its alternatives.
#[derive(Clone, Copy)]
struct WishMembers<'v> {
    room: &'v str,
    title: &'v str,
    minutes: u64,
    day: &'v str,
    time: &'v str,
}

fn minutes_of(value: &Value) -> Option<u64>
    ensures { result ≡ spec.number_member (codes "length") (view value.now) }
{
    value.get("length").and_then(Value::as_u64)
}

fn wish_of<'v>(value: &'v Value) -> Option<WishMembers<'v>>
    ensures { option_map wish_view result ≡ spec.wish_of (view value.now) }
{
    let room = text_at(value, "room")?;
    let title = text_at(value, "title")?;
    let minutes = minutes_of(value)?;
    let day = text_at(value, "day")?;
    let time = text_at(value, "start")?;
    Some(WishMembers {
        room,
        title,
        minutes,
        day,
        time,
    })
}

fn slot_words(alloc: Global, day: &str, time: &str) -> Result<SlotWords, AllocError>
    ensures { IfOk result (λ w. words_of w ≡ record { day = day.now; time = time.now }) }
{
    Ok(SlotWords {
        day: String::from_str(alloc, day)?,
        time: String::from_str(alloc, time)?,
    })
}

// The words of a slot, as they stand in the value.
#[derive(Clone, Copy)]
struct SlotTexts<'v> {
    day: &'v str,
    time: &'v str,
}

fn slot_of<'v>(value: &'v Value) -> Option<SlotTexts<'v>>
    ensures { option_map (λ s. record { day = s.day.now; time = s.time.now }) result ≡ spec.slot_in_json (view value.now) }
{
    if member_count(value) != 2 {
        return None;
    }
    let day = text_at(value, "day")?;
    let time = text_at(value, "start")?;
    Some(SlotTexts { day, time })
}

fn add_slot(alloc: Global, slots: &mut Vec<SlotWords>, value: &Value) -> Result<(), Stop>
    ensures { AddsSlots (option_map (λ s. s ∷ []) (spec.slot_in_json (view value.now))) slots.old.items slots.new.items result }
{
    let Some(slot) = slot_of(value) else {
        return Err(BAD_REQUEST);
    };
    let words = slot_words(alloc, slot.day, slot.time)?;
    slots.push(words)?;
    Ok(())
}

fn add_slots(alloc: Global, slots: &mut Vec<SlotWords>, values: &[Value]) -> Result<(), Stop>
    ensures { AddsSlots (spec.slots_of (items_view values.now)) slots.old.items slots.new.items result }
{
    for value in values {
        add_slot(alloc, slots, value)?;
    }
    Ok(())
}

fn add_alternatives(
    alloc: Global,
    slots: &mut Vec<SlotWords>,
    list: Option<&Value>,
) -> Result<(), Stop>
    ensures { AddsSlots (spec.alternatives_of (option_map (λ v. view v.now) list.entry)) slots.old.items slots.new.items result }
{
    match list {
        None => Ok(()),
        Some(value) => match value.as_array() {
            Some(values) => add_slots(alloc, slots, values.as_slice()),
            None => Err(BAD_REQUEST),
        },
    }
}

fn submission_with(
    alloc: Global,
    wish: WishMembers<'_>,
    alternatives: Vec<SlotWords>,
) -> Result<Submission, AllocError>
    ensures { IfOk result (λ s. submission_of s ≡ spec.submitted (wish_view wish.entry) (slots_view alternatives.items)) }
{
    let minutes = wish.minutes;
    Ok(Submission {
        room: String::from_str(alloc, wish.room)?,
        title: String::from_str(alloc, wish.title)?,
        length: format!(in alloc; "{minutes}")?,
        wish: slot_words(alloc, wish.day, wish.time)?,
        alternatives,
    })
}

fn submission_in(alloc: Global, value: &Value) -> Result<Submission, Stop>
    ensures { GivesView submission_of result (ok_or (spec.submission_in (view value.now)) bad_request) }
{
    let list = value.get("alternatives");
    let wanted = if list.is_some() { 6 } else { 5 };
    if member_count(value) != wanted {
        return Err(BAD_REQUEST);
    }
    let Some(wish) = wish_of(value) else {
        return Err(BAD_REQUEST);
    };
    let mut alternatives = Vec::new(alloc);
    add_alternatives(alloc, &mut alternatives, list)?;
    Ok(submission_with(alloc, wish, alternatives)?)
}

/// The submission that a body is. A body that is none is a bad request; out of memory is a fault.
pub(crate) fn submission(alloc: Global, body: &[u8]) -> Result<Submission, Stop>
    ensures { GivesView submission_of result (ok_or (spec.submission_in_body body.now) bad_request) }
{
    let value = json_in(alloc, body)?;
    submission_in(alloc, &value)
}
