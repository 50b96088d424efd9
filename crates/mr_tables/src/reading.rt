ghost use Rattle.std.specs.Prelude.{◌≡◌, ◌≢◌, ◌<◌, ◌∷◌, List, length, IfSome, IfOk, IfErr, Ok, Some, ℕ, IsTrue};
ghost use Rattle.std.specs.Str.{IsUtf8};
ghost use Rattle.mr_model.specs.Texts.{first_word};
ghost use Rattle.mr_model.specs.Slots.{Slot as SlotOfDay};
ghost use Rattle.mr_model.specs.Writes.{Meeting as MeetingInRoom, Books, Cancels, Write as WriteOfRoom, is_meeting, is_write, is_stamp};
ghost use Rattle.mr_model.specs.Replay.{Place as PlaceOfWrite};
ghost use Rattle.mr_model.specs.Tables.{log_row_with};
ghost use Rattle.mr_base.specs.Answers.{OrOutOfMemory};
ghost use Rattle.mr_tables.specs.Cells.{meeting_cells};
ghost use Rattle.mr_tables.specs.Choices.{IsTextOf, IsRestOf, GivesSlot, lent, after_space};

use crate::{ActionCells, LogRow, MeetingCells};
use mr_base::{
    Alternatives, Day, Refusal, RoomName, ServerId, Slot, Stamp, Title, Write, WriteId, read_minute,
};
use std::alloc::Global;

/// The write of a row of `log`. Refused if the row is that of no write.
pub fn write_of(alloc: Global, row: &LogRow) -> Result<Write, Refusal>
    ensures read { (w : WriteOfRoom) (place : PlaceOfWrite) (seq : ℕ) → IsTrue (is_write w) → row.now ≡ log_row_with w place seq → OrOutOfMemory result (Ok w) }
    ensures row { IfOk result (λ w. row.now ≡ log_row_with w row.now.place row.now.seq) }
    ensures store { IfErr result (λ e. e ≢ Refusal.OutOfMemory → e ≡ Refusal.Store) }
{
    let Some(stamp) = stamp_of(row.server, row.n, row.time) else {
        return Err(Refusal::Store);
    };
    match &row.action {
        ActionCells::OfMeeting(cells) => booking_of(alloc, stamp, &row.room, cells),
        ActionCells::OfCancel(target) => cancel_of(alloc, stamp, &row.room, *target),
    }
}

fn cancel_of(
    alloc: Global,
    stamp: Stamp,
    room: &RoomName,
    target: WriteId,
) -> Result<Write, Refusal>
    ensures { OrOutOfMemory result (Ok (record { stamp = stamp; room = room.now; action = Cancels target })) }
{
    let room = room.copy(alloc)?;
    Ok(Write::cancel(stamp, room, target))
}

/// The booking of a meeting with these cells. Refused if they are those of no meeting.
fn booking_of(
    alloc: Global,
    stamp: Stamp,
    room: &RoomName,
    cells: &MeetingCells,
) -> Result<Write, Refusal>
    ensures read { (m : MeetingInRoom) → IsTrue (is_meeting m) → cells.now ≡ meeting_cells m
        → OrOutOfMemory result (Ok (record { stamp = stamp; room = room.now; action = Books m })) }
    ensures told { IfOk result (λ w. (m : MeetingInRoom) × (w ≡ record { stamp = stamp; room = room.now; action = Books m }) × (cells.now ≡ meeting_cells m)) }
    ensures store { IfErr result (λ e. e ≢ Refusal.OutOfMemory → e ≡ Refusal.Store) }
{
    match choices_of(alloc, cells.choices.as_str()) {
        Ok(choices) => booking_with(alloc, stamp, room, cells, choices.0, choices.1),
        Err(refusal) => Err(refusal),
    }
}

fn booking_with(
    alloc: Global,
    stamp: Stamp,
    room: &RoomName,
    cells: &MeetingCells,
    wish: Slot,
    alternatives: Alternatives,
) -> Result<Write, Refusal>
    ensures told { IfOk result (λ w. w ≡ record { stamp = stamp; room = room.now; action = Books (record { title = cells.now.title; length = cells.now.length; wish = wish; alternatives = alternatives }) }) }
    ensures store { IfErr result (λ e. e ≢ Refusal.OutOfMemory → e ≡ Refusal.Store) }
    ensures made { IsTrue (is_meeting (record { title = cells.now.title; length = cells.now.length; wish = wish; alternatives = alternatives }))
        → OrOutOfMemory result (Ok (record { stamp = stamp; room = room.now; action = Books (record { title = cells.now.title; length = cells.now.length; wish = wish; alternatives = alternatives }) })) }
{
    let room = room.copy(alloc)?;
    let title = cells.title.copy(alloc)?;
    write_with(stamp, room, title, cells.length, wish, alternatives)
}

fn stamp_of(server: ServerId, n: u32, time: u64) -> Option<Stamp>
    ensures told { IfSome result (λ stamp. stamp ≡ record { server = server; n = n; time = time }) }
    ensures made { IsTrue (is_stamp (record { server = server; n = n; time = time })) → result ≡ Some (record { server = server; n = n; time = time }) }
{
    let id = WriteId::new(server, n)?;
    Stamp::new(id, time)
}

fn write_with(
    stamp: Stamp,
    room: RoomName,
    title: Title,
    length: u32,
    wish: Slot,
    alternatives: Alternatives,
) -> Result<Write, Refusal>
    ensures told { IfOk result (λ w. w ≡ record { stamp = stamp; room = room; action = Books (record { title = title; length = length; wish = wish; alternatives = alternatives }) }) }
    ensures store { IfErr result (λ e. e ≡ Refusal.Store) }
    ensures made { IsTrue (is_meeting (record { title = title; length = length; wish = wish; alternatives = alternatives }))
        → result ≡ Ok (record { stamp = stamp; room = room; action = Books (record { title = title; length = length; wish = wish; alternatives = alternatives }) }) }
{
    match Write::new(stamp, room, title, length, wish, alternatives) {
        Ok(write) => Ok(write),
        Err(_) => Err(Refusal::Store),
    }
}

/// The choices with this text: the wish, and the others behind it. A text that is none of slots is refused.
pub(crate) fn choices_of(alloc: Global, text: &str) -> Result<(Slot, Alternatives), Refusal>
    ensures read { (s : SlotOfDay) (ss : List SlotOfDay) → IsTextOf text.now (s ∷ ss) → OrOutOfMemory result (Ok (s, ss)) }
    ensures told { IfOk result (λ choices. IsTextOf text.now (choices.0 ∷ choices.1)) }
    ensures store { IfErr result (λ e. e ≢ Refusal.OutOfMemory → e ≡ Refusal.Store) }
{
    let Some((wish, rest)) = next_slot(text) else {
        return Err(Refusal::Store);
    };
    let others = slots_of(alloc, rest)?;
    Ok((wish, Alternatives::from_vec(others)))
}

/// The slots of what is left of a text behind a slot.
fn slots_of(alloc: Global, text: Option<&str>) -> Result<Vec<Slot>, Refusal>
    ensures read { (ss : List SlotOfDay) → IsRestOf (lent text.entry) ss → IfOk result (λ slots. slots.items ≡ ss) × IfErr result (λ e. e ≡ Refusal.OutOfMemory) }
    ensures told { IfOk result (λ slots. IsRestOf (lent text.entry) slots.items) }
    ensures store { IfErr result (λ e. e ≢ Refusal.OutOfMemory → e ≡ Refusal.Store) }
{
    let mut slots = Vec::new(alloc);
    let mut rest = text;
    'rest: while let Some(text) = rest {
        match next_slot(text) {
            Some(taken) => {
                slots.push(taken.0)?;
                rest = taken.1;
            }
            None => return Err(Refusal::Store),
        }
    }
    Ok(slots)
}

/// The slot at the front of a text, and what stands behind it and a space, if there is a space.
fn next_slot(text: &str) -> Option<(Slot, Option<&str>)>
    ensures read { (s : SlotOfDay) (ss : List SlotOfDay) → IsTextOf text.now (s ∷ ss) → GivesSlot result s ss }
    ensures told { IfSome result (λ x. (ss : List SlotOfDay) → IsRestOf (lent x.1) ss → IsTextOf text.now (x.0 ∷ ss)) }
    ensures shorter { IfSome result (λ x. IfSome x.1 (λ rest. length rest.now < length text.now)) }
    ensures utf8 { IfSome result (λ x. IfSome x.1 (λ rest. IsUtf8 rest.now)) }
{
    let (day, behind) = next_word(text);
    let behind = behind?;
    let (time, rest) = next_word(behind);
    let Ok(day) = Day::read(day) else {
        return None;
    };
    let Ok(start) = read_minute(time) else {
        return None;
    };
    Some((Slot { day, start }, rest))
}

/// The word up to the first space, and what stands behind that; all of a text that has none.
fn next_word(text: &str) -> (&str, Option<&str>)
    ensures word { result.0.now ≡ first_word text.now }
    ensures rest { lent result.1 ≡ after_space text.now }
    ensures utf8 { IsUtf8 result.0.now × IfSome result.1 (λ rest. IsUtf8 rest.now) }
{
    match text.split_once(' ') {
        Some((word, rest)) => (word, Some(rest)),
        None => (text, None),
    }
}
