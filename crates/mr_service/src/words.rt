ghost use Rattle.std.specs.Prelude.{◌≡◌, [], ◌∷◌, map, length, nat_lt, is_none, option_map, Err, Some, None, IfOk, IfErr, false};
ghost use Rattle.std.specs.List.{list_any};
ghost use Rattle.mr_model.specs.Calendar.{read_time};
ghost use Rattle.mr_model.specs.Refusals as model;
ghost use Rattle.mr_model.specs.Step.{slot_of, choice_words, is_bad_length};
ghost use Rattle.mr_model.specs.Writes.{greatest_alternatives};
ghost use Rattle.mr_base.specs.Answers.{Gives, unless_faulty};
ghost use Rattle.mr_base.specs.RefusalViews.{refusal_of, answer_of};
ghost use Rattle.mr_part.specs.Steps.{word_faults};
ghost use Rattle.mr_service.specs.Asked.{words_of, submission_of};
ghost use Rattle.mr_service.specs.SubmittedWords.{request_or_fault, latest_from, latest_start, lacks_day, lacks_time};

use crate::commands::{SlotWords, Submission};
use mr_base::{
    Alternatives, Day, MINUTES_OF_A_DAY, MOST_ALTERNATIVES, Refusal, Request, Slot, is_room_text,
    is_title_text, read_minute, read_number,
};
use std::alloc::Global;

/// The request that these words make, or the smallest refusal that applies to them.
pub(crate) fn read_request(alloc: Global, words: &Submission) -> Result<Request, Refusal>
    ensures value { Gives result (request_or_fault (submission_of words.now)) }
    // A fault of the words is returned without memory.
    ensures due { (e : model.Refusal) → model.first_refusal (word_faults (submission_of words.now)) ≡ Some e → answer_of result ≡ Err e }
{
    match word_fault(words) {
        Some(fault) => Err(fault),
        None => make_request(alloc, words),
    }
}

// The first fault of the words.
fn word_fault(words: &Submission) -> Option<Refusal>
    ensures { option_map refusal_of result ≡ model.first_refusal (word_faults (submission_of words.now)) }
{
    if lacks_some_day(words) {
        return Some(Refusal::BadDay);
    }
    let Some(latest) = latest_start(words) else {
        return Some(Refusal::BadTime);
    };
    if is_bad_length(words, latest) {
        return Some(Refusal::BadLength);
    }
    if !is_room_text(words.room.as_bytes()) {
        return Some(Refusal::BadRoomName);
    }
    if !is_title_text(words.title.as_bytes()) {
        return Some(Refusal::BadTitle);
    }
    if are_too_many(words.alternatives.as_slice()) {
        return Some(Refusal::TooManyAlternatives);
    }
    None
}

// The request with these words, which have no fault.
fn make_request(alloc: Global, words: &Submission) -> Result<Request, Refusal>
    requires { model.first_refusal (word_faults (submission_of words.now)) ≡ None }
    ensures { Gives result (request_or_fault (submission_of words.now)) }
{
    let Some(length) = read_number(words.length.as_str(), 1, MINUTES_OF_A_DAY as u64) else {
        return Err(Refusal::BadLength);
    };
    let wish = read_slot(&words.wish)?;
    let slots = read_slots(alloc, words.alternatives.as_slice())?;
    let alternatives = Alternatives::from_vec(slots);
    let (room, title) = (words.room.as_str(), words.title.as_str());
    Request::of_words(alloc, room, title, length as u32, wish, alternatives)
}

fn read_slots(alloc: Global, words: &[SlotWords]) -> Result<Vec<Slot>, Refusal>
    requires days { list_any (λ w. lacks_day (words_of w)) words.now ≡ false }
    requires times { list_any (λ w. lacks_time (words_of w)) words.now ≡ false }
    ensures slots { IfOk result (λ slots. slots.items ≡ map (λ w. slot_of (words_of w)) words.now) }
    ensures memory { IfErr result (λ e. e ≡ Refusal.OutOfMemory) }
{
    let mut slots = Vec::new(alloc);
    for choice in words {
        let slot = read_slot(choice)?;
        slots.push(slot)?;
    }
    Ok(slots)
}

fn read_slot(words: &SlotWords) -> Result<Slot, Refusal>
    ensures { result ≡ unless_faulty
        ((lacks_day (words_of words.now), Refusal.BadDay) ∷ (lacks_time (words_of words.now), Refusal.BadTime) ∷ [])
        (slot_of (words_of words.now)) }
{
    let Ok(day) = Day::read(words.day.as_str()) else {
        return Err(Refusal::BadDay);
    };
    let Ok(start) = read_minute(words.time.as_str()) else {
        return Err(Refusal::BadTime);
    };
    Slot::new(day, start)
}

// ---- the tests of the words, which take no memory

fn lacks_some_day(words: &Submission) -> bool
    ensures { result ≡ list_any lacks_day (choice_words (submission_of words.now)) }
{
    lacks_day(&words.wish) || lack_day(words.alternatives.as_slice())
}

fn lack_day(words: &[SlotWords]) -> bool
    ensures { result ≡ list_any (λ w. lacks_day (words_of w)) words.now }
{
    words.iter().any(|choice| lacks_day(choice))
}

fn lacks_day(words: &SlotWords) -> bool
    ensures { result ≡ lacks_day (words_of words.now) }
{
    Day::read(words.day.as_str()).is_err()
}

// The minute at which the latest of the choices starts, if all their times can be read.
fn latest_start(words: &Submission) -> Option<u32>
    ensures latest { result ≡ latest_start (submission_of words.now) }
    ensures times { is_none result ≡ list_any lacks_time (choice_words (submission_of words.now)) }
{
    let wish = start_of(&words.wish)?;
    latest_from(wish, words.alternatives.as_slice())
}

// The same of the later of a minute and these choices.
fn latest_from(minute: u32, words: &[SlotWords]) -> Option<u32>
    ensures { result ≡ latest_from minute (map words_of words.now) }
{
    let mut latest = minute;
    for choice in words {
        let start = start_of(choice)?;
        latest = latest.max(start);
    }
    Some(latest)
}

fn start_of(words: &SlotWords) -> Option<u32>
    ensures { result ≡ read_time (words_of words.now).time }
{
    read_minute(words.time.as_str()).ok()
}

// Whether the length is none, or reaches beyond the day from the latest start.
fn is_bad_length(words: &Submission, latest: u32) -> bool
    requires { latest_start (submission_of words.now) ≡ Some latest }
    ensures { result ≡ is_bad_length (submission_of words.now) }
{
    match read_number(words.length.as_str(), 1, MINUTES_OF_A_DAY as u64) {
        Some(length) => latest as u64 + length > MINUTES_OF_A_DAY as u64,
        None => true,
    }
}

fn are_too_many(words: &[SlotWords]) -> bool
    ensures { result ≡ nat_lt greatest_alternatives (length (map words_of words.now)) }
{
    words.len() > MOST_ALTERNATIVES
}
