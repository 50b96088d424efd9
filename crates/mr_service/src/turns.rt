//! Calls of a part that do a command's step: each answers the reply, and the change if there is one.

ghost use Rattle.std.specs.Prelude.{◌≡◌, IfSome};
ghost use Rattle.mr_model.specs.Positions.{position_of};
ghost use Rattle.mr_model.specs.Replies.{OutcomeIs, PositionIs};
ghost use Rattle.mr_model.specs.Scopes as scopes;
ghost use Rattle.mr_model.specs.Step as model;
ghost use Rattle.mr_part.specs.Steps.{submit_request, cancel_request};
ghost use Rattle.mr_part.specs.Answering.{put_outcome, put_cancel_outcome};
ghost use Rattle.mr_tables.specs.Summary.{IsWithin};
ghost use Rattle.mr_service.specs.Asked.{outcome_seen};
ghost use Rattle.mr_service.specs.Turns.{Tells, TurnsBy};

use crate::outcomes;
use crate::outcomes::{booked, logged};
use crate::replies::{Outcome, Reply};
use mr_base::{Batch, LineCount, Position, Refusal, Request, RoomName, WriteId};
use mr_part::Part;
use mr_tables::Change;

/// Adds a room.
pub(crate) fn add_room(part: &Part, room: &RoomName) -> Result<(Reply, Change), Refusal>
    ensures { TurnsBy scopes.Nothing (λ a. model.add_room a room.now) part.now result }
{
    let change = part.add_room(room)?;
    Ok((Reply::RoomAdded, change))
}

/// Books a room. The part is used up, so that nobody has its board any more when the change is made.
pub(crate) fn submit(part: Part, request: Request) -> Result<(Reply, Change), Refusal>
    ensures { TurnsBy (scopes.InRoom request.room) (submit_request request) part result }
{
    let (_, change) = part.submit(request)?;
    match outcome_in(&change) {
        Some(outcome) => Ok((Reply::Outcome(outcome), change)),
        None => Err(Refusal::OutOfMemory),
    }
}

/// What became of the request whose row stands in the change that a submission made. A change without a row, which no replica's
/// submission makes, has no outcome.
fn outcome_in(change: &Change) -> Option<Outcome>
    ensures { IfSome result (λ o. OutcomeIs (outcome_seen o) ≡ put_outcome change.now.booking change.now.errorlog) }
{
    if let Some(row) = change.booking.first() {
        return Some(booked(row));
    }
    let row = change.errorlog.first()?;
    Some(logged(row))
}

/// Cancels the booking with this id, which is of the room.
pub(crate) fn cancel(
    part: &Part,
    room: RoomName,
    target: WriteId,
) -> Result<(Reply, Change), Refusal>
    ensures { TurnsBy (scopes.OfTarget target) (cancel_request room target) part.now result }
{
    let (_, change) = part.cancel(room, target)?;
    match cancel_outcome_in(&change) {
        Some(made) => Ok((Reply::Outcome(made), change)),
        None => Err(Refusal::OutOfMemory),
    }
}

/// What became of the cancel whose row stands in the change that it made. A change without a row, which no replica's cancel makes,
/// has no outcome.
fn cancel_outcome_in(change: &Change) -> Option<Outcome>
    ensures { IfSome result (λ o. OutcomeIs (outcome_seen o) ≡ put_cancel_outcome change.now.cancels) }
{
    let row = change.cancels.first()?;
    Some(outcomes::cancel(row))
}

/// Takes a batch, or refuses all of it.
pub(crate) fn receive(part: Part, batch: &Batch) -> Result<(Reply, Change), Refusal>
    ensures { TurnsBy (scopes.OfItems batch.now.items) (λ a. model.receive_batch a batch.now) part result }
{
    let (writes, commits, change) = part.receive(batch)?;
    Ok((Reply::Took { writes, commits }, change))
}

/// Commits the first tentative writes, k at most.
pub(crate) fn commit(part: &Part, k: u64) -> Result<(Reply, Change), Refusal>
    ensures { TurnsBy (scopes.NextCommits k) (λ a. model.commit a k) part.now result }
{
    let (count, change) = part.commit(k)?;
    Ok((Reply::Committed(count), change))
}

/// Drops the copies of the writes with commit numbers up to this one.
pub(crate) fn truncate(part: &Part, number: u64) -> Result<(Reply, Change), Refusal>
    ensures { TurnsBy (scopes.UpTo number) (λ a. model.truncate a number) part.now result }
{
    let (number, change) = part.truncate(number)?;
    Ok((Reply::Dropped(number), change))
}

/// Asks how far the replica's knowledge goes.
pub(crate) fn position(part: &Part) -> Result<Reply, Refusal>
    ensures { IsWithin part.now.summary → Tells scopes.Nothing (λ a. model.leave a (PositionIs (position_of a))) part.now result }
{
    Ok(Reply::Position(part.position()?))
}

/// Asks for what a replica lacks that is at the position.
pub(crate) fn batch(
    part: &Part,
    position: &Position,
    max_lines: LineCount,
) -> Result<Reply, Refusal>
    ensures { IsWithin part.now.summary
        → Tells (scopes.Above position.now.commits) (λ a. model.leave a (model.batch_reply a position.now max_lines)) part.now result }
{
    Ok(Reply::Batch(part.batch(position, max_lines)?))
}
