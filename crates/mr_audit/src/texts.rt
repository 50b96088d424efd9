ghost use Rattle.std.specs.Prelude.{◌≡◌, ◌==◌, ◌+◌, take, drop, MatchOption, Some, None};
ghost use Rattle.std.specs.List.{slice_get};
ghost use Rattle.std.specs.Str.{IsUtf8};
ghost use Rattle.std.specs.Char.{digit_value};
ghost use Rattle.mr_model.specs.Texts.{first_word, after_word, behind, number_in};
ghost use Rattle.mr_model.specs.Calendar.{same_date, date_in, time_in};
ghost use Rattle.mr_model.specs.Slots.{slot_in, same_slot};
ghost use Rattle.mr_audit.specs.Capped.{capped};
ghost use Rattle.mr_agree.specs.Agreeing.{slots_in};

use mr_base::Day;

/// The two words of the slot of this number in a text of choices, if the text is so long: 17 bytes a slot.
pub(crate) fn slot_words(text: &str, number: u32) -> Option<(&str, &str)>
    ensures { MatchOption result (slice_get (slots_in text.now) number ≡ None) (λ words. slice_get (slots_in text.now) number ≡ Some (slot_in words.0.now words.1.now)) }
{
    let count = (text.len() + 1) / 17;
    if number as usize >= count {
        return None;
    }
    let (day, rest) = next_word(behind(text, 2 * u64::from(number)));
    let (time, _) = next_word(rest);
    Some((day, time))
}

/// What stands behind the first words of a text, so many of them.
fn behind(text: &str, count: u64) -> &str
    ensures rest { result.now ≡ behind count text.now }
    ensures utf8 { IsUtf8 result.now }
{
    let mut rest = text;
    for _ in 0..count {
        let (_, after) = next_word(rest);
        rest = after;
    }
    rest
}

/// The word up to the first space, and what stands behind that; all of a text that has none, and nothing behind it.
fn next_word(text: &str) -> (&str, &str)
    ensures word { result.0.now ≡ first_word text.now }
    ensures rest { result.1.now ≡ after_word text.now }
    ensures utf8 { IsUtf8 result.0.now × IsUtf8 result.1.now }
{
    match text.split_once(' ') {
        Some((word, rest)) => (word, rest),
        None => (text, ""),
    }
}

/// Whether two words are read as this slot.
pub(crate) fn is_slot(first: &str, second: &str, day: Day, start: u32) -> bool
    ensures { result ≡ same_slot (slot_in first.now second.now) (record { day = day; start = start }) }
{
    is_day(first, day) && is_time(second, start)
}

fn is_day(text: &str, day: Day) -> bool
    ensures { result ≡ same_date (date_in text.now) day }
{
    let bytes = text.as_bytes();
    is_number(bytes, 0, 4, u32::from(day.year()))
        && is_number(bytes, 5, 2, u32::from(day.month()))
        && is_number(bytes, 8, 2, u32::from(day.day()))
}

fn is_number(text: &[u8], from: usize, count: usize, number: u32) -> bool
    ensures { result ≡ (number_in (take count (drop from text.now)) == number) }
{
    number_of(part(text, from, count)) == u64::from(number)
}

fn is_time(text: &str, start: u32) -> bool
    ensures { result ≡ (time_in text.now == start) }
{
    let bytes = text.as_bytes();
    let hour = number_of(part(bytes, 0, 2));
    let minute = number_of(rest_from(bytes, 3));
    hour.saturating_mul(60).saturating_add(minute) == u64::from(start)
}

/// Whether what begins at this time and has this length stops then.
pub(crate) fn is_stop(time: &str, length: u32, stop: u32) -> bool
    ensures { result ≡ (time_in time.now + length == stop) }
{
    length <= stop && is_time(time, stop - length)
}

fn part(text: &[u8], from: usize, count: usize) -> &[u8]
    ensures { result.now ≡ take count (drop from text.now) }
{
    let rest = rest_from(text, from);
    &rest[..count.min(rest.len())]
}

fn rest_from(text: &[u8], from: usize) -> &[u8]
    ensures { result.now ≡ drop from text.now }
{
    &text[from.min(text.len())..]
}

/// The number of these digits, or the greatest of 64 bits. Of other bytes it is what reading them as digits gives.
fn number_of(text: &[u8]) -> u64
    ensures { result ≡ capped (number_in text.now) }
{
    let mut total: u64 = 0;
    for byte in text {
        total = total.saturating_mul(10).saturating_add(digit_value(*byte));
    }
    total
}

fn digit_value(byte: u8) -> u64
    ensures { result ≡ digit_value byte }
{
    let value = match byte {
        b'0'..=b'9' => byte - b'0',
        b'A'..=b'Z' => byte - b'A' + 10,
        b'a'..=b'z' => byte - b'a' + 10,
        _ => 36,
    };
    u64::from(value)
}
