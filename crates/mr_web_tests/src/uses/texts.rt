// The texts that offices exchange, written and read by themselves: for a program that carries them in another way, as by mail.
// Bytes that come from outside may be anything: reading them gives a value or a refusal, and never more than they say.

ghost use Rattle.std.specs.Prelude.{◌≡◌, Ok, take};
ghost use Rattle.mr_model.specs.Exchange.{batch_lines, front_of, lines_within};
ghost use Rattle.mr_base.specs.Answers.{OrOutOfMemory, Gives};

use mr_base::{Batch, Position, Refusal};
use mr_model::texts::{exchange_law, position_law};
use mr_wire::{read_batch, read_position, write_batch, write_position};
use std::alloc::Global;

/// Writes a batch and reads its text: what is read is the batch, unless memory runs out. Both calls say what they do to bytes (their
/// clauses `exact`); that the two undo one another is a law of the definitions. A law is a function without code: a call of it
/// hands its clauses to the proof of this one.
pub(crate) fn batch_read_back(alloc: Global, batch: &Batch) -> Result<Batch, Refusal>
    ensures { OrOutOfMemory result (Ok batch.now) }
{
    exchange_law();
    batch.is_within_limits();
    let text = write_batch(alloc, batch)?;
    read_batch(alloc, text.as_slice())
}

/// The same of a position.
pub(crate) fn position_read_back(alloc: Global, position: &Position) -> Result<Position, Refusal>
    ensures { OrOutOfMemory result (Ok position.now) }
{
    position_law();
    position.is_within_limits();
    let text = write_position(alloc, position)?;
    read_position(alloc, text.as_slice())
}

/// What comes of a batch of whose text only the first bytes arrived: the whole lines among them, as a batch that was cut. So what
/// arrived may be received at once, and the rest asked for later.
pub(crate) fn front_read(alloc: Global, batch: &Batch, count: usize) -> Result<Batch, Refusal>
    ensures { Gives result (Ok (front_of (lines_within count (batch_lines batch.now)) batch.now)) }
{
    batch.is_within_limits();
    let text = write_batch(alloc, batch)?;
    read_batch(alloc, front(text.as_slice(), count))
}

/// The first bytes, or all.
fn front(text: &[u8], count: usize) -> &[u8]
    ensures { result.now ≡ take count text.now }
{
    if count >= text.len() {
        return text;
    }
    &text[..count]
}

/// Two requests that server 2 gives to a replica of the primary 1.
const BATCH: &str =
    "mr2 2 1\nW 2 1 1 oak 60 1995-12-18 13:30 0 Review\nW 2 2 2 oak 45 1995-12-18 16:00 0 Rota\nE\n";

/// What server 2 has by then.
const POSITION_TEXT: &str = "mp2 2 1\nK 0\nV 2 2\nE\n";

/// What is read of both texts.
pub(crate) fn texts_told(alloc: Global) -> Result<Vec<u8>, Refusal> {
    let (whole, cut) = writes_read(alloc)?;
    let servers = servers_read(alloc)?;
    let told = format!(in alloc; "writes: {whole}, of the cut batch: {cut}\nservers: {servers}\n")?;
    Ok(told.into_bytes())
}

/// How many writes the batch has, and how many its first sixty bytes.
fn writes_read(alloc: Global) -> Result<(usize, usize), Refusal> {
    let batch = read_batch(alloc, BATCH.as_bytes())?;
    let whole = batch_read_back(alloc, &batch)?;
    let cut = front_read(alloc, &batch, 60)?;
    Ok((whole.items.len(), cut.items.len()))
}

/// Of how many servers the position has writes.
fn servers_read(alloc: Global) -> Result<usize, Refusal> {
    let position = read_position(alloc, POSITION_TEXT.as_bytes())?;
    let back = position_read_back(alloc, &position)?;
    Ok(back.counts.len())
}
