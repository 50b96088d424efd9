ghost use Rattle.std.specs.Prelude.{◌≡◌, ℕ, ◌+◌, ◌<◌, ◌^◌, true, length, take, map, Ok, IfOk, IfErr};
ghost use Rattle.mr_model.specs.Texts.{whole_lines};
ghost use Rattle.mr_model.specs.Exchange.{Batch as BatchOfLines, is_batch, batch_text, batch_lines, read_body, read_end, read_batch, ReadsAs, front_of, lines_within};
ghost use Rattle.mr_base.specs.Answers.{Gives};
ghost use Rattle.mr_base.specs.Batches.{item_of, ending_seen};
ghost use Rattle.mr_base.specs.Versions.{version_of};
ghost use Rattle.mr_wire.specs.BatchAnswers.{GivesSeen, IsRefusedFor, body_seen, with_front, refusal_at};

use crate::fault::LineFault;
use crate::lines::{Line, read_header, read_line};
use crate::words::first_line;
use mr_base::{Batch, Ending, Item, Refusal, Version};
use std::alloc::Global;

/// The batch that the bytes read as, of the version that its header names. A last piece without LF is dropped, and bytes
/// without a whole line are the batch without a header. `BadLine(i)` if line i, counted from 1, is the first whole line
/// that isn't of its place in this version, unless memory runs out before it is read.
pub fn read_batch(alloc: Global, bytes: &[u8]) -> Result<Batch, Refusal>
    ensures exact { Gives result (read_batch bytes.now) }
    // What is read is what the bytes read as.
    ensures reads { IfOk result (λ b. ReadsAs bytes.now b) }
    // What the bytes read as is read, unless memory runs out.
    ensures all_read { (b : BatchOfLines) → ReadsAs bytes.now b → Gives result (Ok b) }
    // What is refused has a first bad line, or memory ran out.
    ensures refuses { IfErr result (IsRefusedFor bytes.now) }
    // The first bytes of a written batch read as the whole lines in them.
    ensures fronts { (n : ℕ) (b : BatchOfLines) → is_batch b ≡ true → bytes.now ≡ take n (batch_text b)
        → Gives result (Ok (front_of (lines_within n (batch_lines b)) b)) }
{
    batch_of(alloc, bytes)
}

fn batch_of(alloc: Global, bytes: &[u8]) -> Result<Batch, Refusal>
    ensures { Gives result (read_batch bytes.now) }
{
    let Some((line, rest)) = first_line(bytes) else {
        return Ok(Batch::without_header(Vec::new(alloc)));
    };
    let Some((version, header)) = read_header(line) else {
        return Err(Refusal::BadLine(1));
    };
    let (items, ending) = read_body(alloc, version, rest)?;
    Ok(Batch::of_said(version, header, items, ending))
}

/// The items and the ending on the lines below the header. The first of these lines has the number 2.
fn read_body(alloc: Global, version: Version, bytes: &[u8]) -> Result<(Vec<Item>, Ending), Refusal>
    requires { length bytes.now + 1 < 2 ^ 64 }
    ensures { GivesSeen (λ x. body_seen x.0.items x.1) result (read_body (version_of version) 2 (whole_lines bytes.now)) }
{
    let mut items = Vec::new(alloc);
    let mut rest = bytes;
    let mut before = 1u64;
    while let Some((line, behind)) = first_line(rest) {
        let number = before + 1;
        match read_line(alloc, version, line) {
            Ok(Line::Item(item)) => items.push(item)?,
            Ok(Line::Last(ending)) => return end_body(items, ending, number, behind),
            Err(fault) => return Err(refuse(fault, number)),
        }
        before = number;
        rest = behind;
    }
    Ok((items, Ending::Cut))
}

/// The items, if no line stands behind the last one, which has this number.
fn end_body(
    items: Vec<Item>,
    ending: Ending,
    number: u64,
    behind: &[u8],
) -> Result<(Vec<Item>, Ending), Refusal>
    requires { number + length behind.now < 2 ^ 64 }
    ensures { GivesSeen (λ x. body_seen x.0.items x.1) result (with_front (map item_of items.items) (read_end (ending_seen ending) number (whole_lines behind.now))) }
{
    match first_line(behind) {
        None => Ok((items, ending)),
        Some(_) => Err(Refusal::BadLine(number + 1)),
    }
}

fn refuse(fault: LineFault, number: u64) -> Refusal
    ensures { result ≡ refusal_at number fault }
{
    match fault {
        LineFault::NotALine => Refusal::BadLine(number),
        LineFault::OutOfMemory => Refusal::OutOfMemory,
    }
}
