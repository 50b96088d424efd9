ghost use Rattle.std.specs.Prelude.{◌≡◌, List, ℕ, not, MatchOption, IfOk, Some, None, map};
ghost use Rattle.std.specs.List.{list_all};
ghost use Rattle.mr_model.specs.Texts.{is_space};
ghost use Rattle.mr_service.specs.Asked.{words_of, submission_of};
ghost use Rattle.mr_tasks.specs.RehearsalScript.{is_word};
ghost use Rattle.mr_tasks.specs.LineSteps.{cut_first_word, cut_server, batch_number_in, byte_count_in, cut_slot, cut_slots, number_of_slots, submission_cut};

use mr_base::{ServerId, read_number};
use mr_service::{SlotWords, Submission};
use mr_words::read_server;
use std::alloc::{AllocError, Global};
use std::marker::Model;

/// What is left of a line, to be read word by word.
#[derive(Drop)]
pub(crate) struct Words<'a> {
    rest: &'a str,
}

impl<'a> Model for Words<'a> {
    ghost Value = { List ℕ };

    ghost view = { λ w. w.rest.now };
}

impl<'a> Words<'a> {
    pub(crate) fn new(line: &'a str) -> Words<'a>
        ensures { result ≡ line.now }
    {
        Words { rest: line }
    }

    /// The next word, if a space follows it. If there is none, what is left is not read any more.
    pub(crate) fn next(&mut self) -> Option<&'a str>
        ensures { MatchOption result (cut_first_word self.old ≡ None) (λ word. cut_first_word self.old ≡ Some (word.now, self.new)) }
    {
        match self.rest.split_once(' ') {
            None => None,
            Some((word, rest)) => {
                if word.is_empty() {
                    return None;
                }
                self.rest = rest;
                Some(word)
            }
        }
    }

    /// All that is left.
    fn rest(self) -> &'a str
        ensures { result.now ≡ self.entry }
    {
        self.rest
    }

    /// The next word, if it is a server's number.
    pub(crate) fn server(&mut self) -> Option<ServerId>
        ensures { MatchOption result (cut_server self.old ≡ None) (λ server. cut_server self.old ≡ Some (server, self.new)) }
    {
        let word = self.next()?;
        read_server(word)
    }

    /// The next word, if it is a number of alternatives.
    fn count(&mut self) -> Option<u64>
        ensures { MatchOption result (number_of_slots self.old ≡ None) (λ count. number_of_slots self.old ≡ Some (count, self.new)) }
    {
        let word = self.next()?;
        read_number(word, 0, 99)
    }

    /// The next two words.
    fn slot(&mut self, alloc: Global) -> Result<Option<SlotWords>, AllocError>
        ensures { IfOk result (λ found. MatchOption found (cut_slot self.old ≡ None) (λ slot. cut_slot self.old ≡ Some (words_of slot, self.new))) }
    {
        let Some(day) = self.next() else {
            return Ok(None);
        };
        let Some(time) = self.next() else {
            return Ok(None);
        };
        Ok(Some(SlotWords {
            day: String::from_str(alloc, day)?,
            time: String::from_str(alloc, time)?,
        }))
    }

    /// That many slots, of two words each.
    fn slots(&mut self, alloc: Global, count: u64) -> Result<Option<Vec<SlotWords>>, AllocError>
        ensures { IfOk result (λ found. MatchOption found (cut_slots count self.old ≡ None)
            (λ slots. cut_slots count self.old ≡ Some (map words_of slots.items, self.new))) }
    {
        let mut slots = Vec::new(alloc);
        for i in 0..count {
            match self.slot(alloc)? {
                Some(slot) => slots.push(slot)?,
                None => return Ok(None),
            }
        }
        Ok(Some(slots))
    }

    /// A request, whose title is all that is left.
    pub(crate) fn booking(mut self, alloc: Global) -> Result<Option<Submission>, AllocError>
        ensures { IfOk result (λ found. MatchOption found (submission_cut self.entry ≡ None)
            (λ booking. submission_cut self.entry ≡ Some (submission_of booking))) }
    {
        let Some(room) = self.next() else {
            return Ok(None);
        };
        let Some(length) = self.next() else {
            return Ok(None);
        };
        let Some(wish) = self.slot(alloc)? else {
            return Ok(None);
        };
        let Some(count) = self.count() else {
            return Ok(None);
        };
        let Some(alternatives) = self.slots(alloc, count)? else {
            return Ok(None);
        };
        Ok(Some(Submission {
            room: String::from_str(alloc, room)?,
            title: String::from_str(alloc, self.rest())?,
            length: String::from_str(alloc, length)?,
            wish,
            alternatives,
        }))
    }
}

/// Whether each text has one byte at least, and no space.
pub(crate) fn are_words(texts: &[&str]) -> bool
    ensures { result ≡ list_all is_word (map (λ t. t.now) texts.now) }
{
    texts.iter().all(|text| is_word(text))
}

fn is_word(text: &str) -> bool
    ensures { result ≡ is_word text.now }
{
    !text.is_empty() && has_no_space(text.as_bytes())
}

fn has_no_space(text: &[u8]) -> bool
    ensures { result ≡ list_all (λ c. not (is_space c)) text.now }
{
    text.iter().all(|byte| *byte != b' ')
}

/// The number of a batch that the text writes.
pub(crate) fn read_batch_number(text: &str) -> Option<u64>
    ensures { result ≡ batch_number_in text.now }
{
    read_number(text, 0, 999_999_999)
}

/// The number of bytes that the text writes; `all` is more than any batch has.
pub(crate) fn read_length(text: &str) -> Option<u64>
    ensures { result ≡ byte_count_in text.now }
{
    if text == "all" {
        return Some(u64::MAX);
    }
    read_number(text, 0, 999_999_999)
}
