//! Commands that change a replica, and those that ask for exchange. Words are read first, and the change is made last.

ghost use Rattle.std.specs.Prelude.{◌≡◌, ok_or, Result, Ok, Err};
ghost use Rattle.mr_model.specs.Writes.{Id};
ghost use Rattle.mr_model.specs.Step as model;
ghost use Rattle.mr_base.specs.Readings.{read_id};
ghost use Rattle.mr_service.specs.Asked.{submission_of, reply_in};
ghost use Rattle.mr_service.specs.Asking.{TellsWordFaults};
ghost use Rattle.mr_service.specs.Served.{IsServed};

use crate::change::{change, load};
use crate::commands::Submission;
use crate::questions::known_room;
use crate::replies::Reply;
use crate::turns;
use crate::words::read_request;
use mr_base::{LineCount, Refusal, RoomName, WriteId};
use mr_part::Scope;
use mr_store::Keeper;
use mr_wire::{read_batch, read_position};
use std::alloc::Global;

/// Adds a room.
pub(crate) fn add_room<K: Keeper>(
    keeper: &mut K,
    alloc: Global,
    room: &str,
) -> Result<Reply, Refusal>
    ensures served { IsServed K.Keeper keeper.old keeper.new (model.AddRoom room.now) (reply_in result) }
{
    let room = RoomName::new(alloc, room)?;
    let part = load(keeper, &Scope::Nothing)?;
    change(keeper, turns::add_room(&part, &room))
}

/// Books a room.
pub(crate) fn submit<K: Keeper>(
    keeper: &mut K,
    alloc: Global,
    words: &Submission,
) -> Result<Reply, Refusal>
    ensures served { IsServed K.Keeper keeper.old keeper.new (model.Submit (submission_of words.now)) (reply_in result) }
    ensures due { TellsWordFaults (model.Submit (submission_of words.now)) (reply_in result) }
{
    let request = read_request(alloc, words)?;
    let part = load(keeper, &Scope::InRoom(&request.room))?;
    change(keeper, turns::submit(part, request))
}

/// Cancels the booking with this id, which is of the room.
pub(crate) fn cancel<K: Keeper>(
    keeper: &mut K,
    alloc: Global,
    room: &str,
    id: &str,
) -> Result<Reply, Refusal>
    ensures served { IsServed K.Keeper keeper.old keeper.new (model.Cancel room.now id.now) (reply_in result) }
{
    match WriteId::read(id) {
        Ok(target) => cancel_of(keeper, alloc, room, id, target),
        Err(refusal) => cancel_of_none(keeper, alloc, room, id, refusal),
    }
}

/// The text `id` is that of the target.
fn cancel_of<K: Keeper>(
    keeper: &mut K,
    alloc: Global,
    room: &str,
    id: &str,
    target: WriteId,
) -> Result<Reply, Refusal>
    requires { ◌≡◌ {A = Result Id Refusal} (Ok target) (ok_or (read_id id.now) Refusal.NoSuchRequest) }
    ensures served { IsServed K.Keeper keeper.old keeper.new (model.Cancel room.now id.now) (reply_in result) }
{
    let room = RoomName::new(alloc, room)?;
    let part = load(keeper, &Scope::OfTarget(target))?;
    change(keeper, turns::cancel(&part, room, target))
}

/// The text `id` is that of no request: it is refused so, if the room is known.
fn cancel_of_none<K: Keeper>(
    keeper: &mut K,
    alloc: Global,
    room: &str,
    id: &str,
    refusal: Refusal,
) -> Result<Reply, Refusal>
    requires { ◌≡◌ {A = Result Id Refusal} (Err refusal) (ok_or (read_id id.now) Refusal.NoSuchRequest) }
    ensures served { IsServed K.Keeper keeper.old keeper.new (model.Cancel room.now id.now) (reply_in result) }
{
    known_room(keeper, alloc, room)?;
    Err(refusal)
}

/// Takes the batch with this text, or refuses all of it.
pub(crate) fn receive<K: Keeper>(
    keeper: &mut K,
    alloc: Global,
    bytes: &[u8],
) -> Result<Reply, Refusal>
    ensures served { IsServed K.Keeper keeper.old keeper.new (model.Receive bytes.now) (reply_in result) }
{
    let batch = read_batch(alloc, bytes)?;
    let part = load(keeper, &Scope::Items(batch.items.as_slice()))?;
    change(keeper, turns::receive(part, &batch))
}

/// Commits the first tentative writes, k at most.
pub(crate) fn commit<K: Keeper>(keeper: &mut K, k: u64) -> Result<Reply, Refusal>
    ensures served { IsServed K.Keeper keeper.old keeper.new (model.Commit k) (reply_in result) }
{
    let part = load(keeper, &Scope::NextCommits(k))?;
    change(keeper, turns::commit(&part, k))
}

/// Drops the copies of the writes with commit numbers up to this one.
pub(crate) fn truncate<K: Keeper>(keeper: &mut K, number: u64) -> Result<Reply, Refusal>
    ensures served { IsServed K.Keeper keeper.old keeper.new (model.Truncate number) (reply_in result) }
{
    let part = load(keeper, &Scope::UpTo(number))?;
    change(keeper, turns::truncate(&part, number))
}

/// Answers how far the replica's knowledge goes.
pub(crate) fn position<K: Keeper>(keeper: &mut K) -> Result<Reply, Refusal>
    ensures served { IsServed K.Keeper keeper.old keeper.new model.AskPosition (reply_in result) }
{
    let part = load(keeper, &Scope::Nothing)?;
    turns::position(&part)
}

/// Answers what a replica lacks that is at the position with this text.
pub(crate) fn batch_for<K: Keeper>(
    keeper: &mut K,
    alloc: Global,
    position: &[u8],
    max_lines: LineCount,
) -> Result<Reply, Refusal>
    ensures served { IsServed K.Keeper keeper.old keeper.new (model.BatchFor position.now max_lines) (reply_in result) }
{
    let position = read_position(alloc, position)?;
    let part = load(keeper, &Scope::Above(position.commits))?;
    turns::batch(&part, &position, max_lines)
}
