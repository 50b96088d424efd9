ghost use Rattle.std.specs.Prelude.{◌≡◌, ◌++◌, map, true, IfOk, OnOk, Ok};
ghost use Rattle.std.specs.String.{string_bytes};
ghost use Rattle.mr_model.specs.Texts.{line, lines_text};
ghost use Rattle.mr_model.specs.Exchange.{Batch as BatchOfLines, is_batch, batch_text, item_line, ending_lines};
ghost use Rattle.mr_model.specs.Positions.{Position as PositionOfReplica, is_position, position_text, count_line};
ghost use Rattle.mr_base.specs.Actions.{action_of};
ghost use Rattle.mr_base.specs.Batches.{item_of, ending_seen};
ghost use Rattle.mr_base.specs.PositionCounts.{counts_of_pairs};
ghost use Rattle.mr_wire.specs.BatchAnswers.{GivesSeen};
ghost use Rattle.mr_wire.specs.Writing.{slot_front, slots_front, front_text, choices_front, meeting_text, target_text, action_word as word_of_action, action_text, write_text};

use crate::versions::{batch_word, position_word};
use mr_base::{
    Action, Batch, Ending, Header, Item, Meeting, Position, Refusal, RoomName, ServerId, Slot,
    Stamp, TimeOfDay, Write, WriteId,
};
use std::alloc::{AllocError, Global};
use std::fmt;

/// The exchange text of a batch in its version: its header, a line for each item, and the last line if it wasn't cut.
pub fn write_batch(alloc: Global, batch: &Batch) -> Result<Vec<u8>, Refusal>
    ensures exact { GivesSeen (λ v. v.items) result (Ok (batch_text batch.now)) }
    // No other batch has this text.
    ensures one { (b : BatchOfLines) → is_batch b ≡ true → IfOk result (λ v. v.items ≡ batch_text b → b ≡ batch.now) }
{
    // For the prover alone: the batch is within its limits.
    batch.is_within_limits();
    batch_bytes(alloc, batch)
}

fn batch_bytes(alloc: Global, batch: &Batch) -> Result<Vec<u8>, Refusal>
    ensures { GivesSeen (λ v. v.items) result (Ok (batch_text batch.now)) }
{
    let mut text = String::new(alloc);
    if let Some(Header { from, primary }) = batch.header {
        let word = batch_word(batch.version);
        write!(text, "{word} {from} {primary}\n")?;
        push_items(&mut text, batch.items.as_slice())?;
        push_ending(&mut text, batch.ending)?;
    }
    Ok(text.into_bytes())
}

/// The position text of a position: its servers, its commits, each count, and `E`.
pub fn write_position(alloc: Global, position: &Position) -> Result<Vec<u8>, Refusal>
    ensures exact { GivesSeen (λ v. v.items) result (Ok (position_text position.now)) }
    // No other position has this text.
    ensures one { (p : PositionOfReplica) → is_position p ≡ true → IfOk result (λ v. v.items ≡ position_text p → p ≡ position.now) }
{
    // For the prover alone: the position is within its limits.
    position.is_within_limits();
    position_bytes(alloc, position)
}

fn position_bytes(alloc: Global, position: &Position) -> Result<Vec<u8>, Refusal>
    ensures { GivesSeen (λ v. v.items) result (Ok (position_text position.now)) }
{
    let mut text = String::new(alloc);
    let (server, primary, commits) = (position.server, position.primary, position.commits);
    let word = position_word(position.version);
    write!(text, "{word} {server} {primary}\nK {commits}\n")?;
    push_counts(&mut text, position.counts.as_slice())?;
    text.push_str("E\n")?;
    Ok(text.into_bytes())
}

/// A slot's day and time, each with a space behind it.
#[tactic(auto, unfolding(crate::specs::Writing::slot_front))]
fn push_slot(text: &mut String, slot: Slot) -> Result<(), AllocError>
    ensures { OnOk result (string_bytes text.new ≡ string_bytes text.old ++ slot_front slot) }
{
    let day = slot.day;
    let time = TimeOfDay::new(slot.start);
    write!(text, "{day} {time} ")
}

fn push_slots(text: &mut String, slots: &[Slot]) -> Result<(), AllocError>
    ensures { OnOk result (string_bytes text.new ≡ string_bytes text.old ++ slots_front slots.now) }
{
    for slot in slots {
        push_slot(text, *slot)?;
    }
    Ok(())
}

/// The wish, the number of alternatives and the alternatives.
#[tactic(auto, unfolding(crate::specs::Writing::choices_front))]
fn push_choices(text: &mut String, wish: Slot, alternatives: &[Slot]) -> Result<(), AllocError>
    ensures { OnOk result (string_bytes text.new ≡ string_bytes text.old ++ choices_front wish alternatives.now) }
{
    push_slot(text, wish)?;
    let count = alternatives.len();
    write!(text, "{count} ")?;
    push_slots(text, alternatives)
}

/// The word of a write's line, its stamp and its room.
#[tactic(auto, unfolding(crate::specs::Writing::front_text))]
fn push_front(
    text: &mut String,
    word: &str,
    stamp: Stamp,
    room: &RoomName,
) -> Result<(), AllocError>
    ensures { OnOk result (string_bytes text.new ≡ string_bytes text.old ++ front_text word.now stamp room.now) }
{
    let (server, n, time) = (stamp.server, stamp.n, stamp.time);
    let room = room.as_str();
    write!(text, "{word} {server} {n} {time} {room}")
}

/// The length, the choices and the title, up to the end of the line.
#[tactic(auto, unfolding(crate::specs::Writing::meeting_text))]
fn push_meeting(text: &mut String, meeting: &Meeting) -> Result<(), AllocError>
    ensures { OnOk result (string_bytes text.new ≡ string_bytes text.old ++ meeting_text meeting.now) }
{
    let length = meeting.length;
    write!(text, " {length} ")?;
    push_choices(text, meeting.wish, meeting.alternatives.as_slice())?;
    let title = meeting.title.as_str();
    write!(text, "{title}\n")
}

/// The target of a cancel, up to the end of the line.
#[tactic(auto, unfolding(crate::specs::Writing::target_text))]
fn push_target(text: &mut String, target: WriteId) -> Result<(), AllocError>
    ensures { OnOk result (string_bytes text.new ≡ string_bytes text.old ++ target_text target) }
{
    let (server, n) = (target.server, target.n);
    write!(text, " {server} {n}\n")
}

/// The first word of a write's line.
fn action_word(action: &Action) -> &'static str
    ensures { result.now ≡ word_of_action (action_of action.now) }
{
    match action {
        Action::Books(_) => "W",
        Action::Cancels(_) => "X",
    }
}

fn push_action(text: &mut String, action: &Action) -> Result<(), AllocError>
    ensures { OnOk result (string_bytes text.new ≡ string_bytes text.old ++ action_text (action_of action.now)) }
{
    match action {
        Action::Books(meeting) => push_meeting(text, meeting),
        Action::Cancels(target) => push_target(text, *target),
    }
}

/// A write's line.
#[tactic(auto, unfolding(crate::specs::Writing::write_text))]
fn push_write(text: &mut String, write: &Write) -> Result<(), AllocError>
    ensures { OnOk result (string_bytes text.new ≡ string_bytes text.old ++ write_text write.now) }
{
    push_front(text, action_word(&write.action), write.stamp, &write.room)?;
    push_action(text, &write.action)
}

fn push_item(text: &mut String, item: &Item) -> Result<(), AllocError>
    ensures { OnOk result (string_bytes text.new ≡ string_bytes text.old ++ line (item_line (item_of item.now))) }
{
    match item {
        Item::W(write) => push_write(text, write),
        Item::C { seq, id } => {
            let (seq, server, n) = (seq.number(), id.server, id.n);
            write!(text, "C {seq} {server} {n}\n")
        }
    }
}

fn push_items(text: &mut String, items: &[Item]) -> Result<(), AllocError>
    ensures { OnOk result (string_bytes text.new ≡ string_bytes text.old ++ lines_text (map item_line (map item_of items.now))) }
{
    for item in items {
        push_item(text, item)?;
    }
    Ok(())
}

fn push_ending(text: &mut String, ending: Ending) -> Result<(), AllocError>
    ensures { OnOk result (string_bytes text.new ≡ string_bytes text.old ++ lines_text (ending_lines (ending_seen ending))) }
{
    match ending {
        Ending::Complete => text.push_str("E\n"),
        Ending::More => text.push_str("M\n"),
        Ending::Cut => Ok(()),
    }
}

fn push_counts(text: &mut String, counts: &[(ServerId, u32)]) -> Result<(), AllocError>
    ensures { OnOk result (string_bytes text.new ≡ string_bytes text.old ++ lines_text (map count_line (counts_of_pairs counts.now))) }
{
    for (server, count) in counts {
        push_count(text, *server, *count)?;
    }
    Ok(())
}

fn push_count(text: &mut String, server: ServerId, count: u32) -> Result<(), AllocError>
    ensures { OnOk result (string_bytes text.new ≡ string_bytes text.old ++ line (count_line (record { server = server; count = count }))) }
{
    write!(text, "V {server} {count}\n")
}
