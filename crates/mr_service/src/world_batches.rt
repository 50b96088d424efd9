ghost use Rattle.std.specs.Prelude.{◌≡◌, ◌<◌, ◌++◌, ◌∷◌, [], List, OnOk, OnErr, Some, map, slice_get, length};
ghost use Rattle.mr_model.specs.Replica.{Replica};
ghost use Rattle.mr_model.specs.Positions.{position_of, read_position};
ghost use Rattle.mr_model.specs.Replies.{Reply as ReplyOfReplica};
ghost use Rattle.mr_model.specs.Step.{batch_reply, reply_to_position};
ghost use Rattle.mr_model.specs.World as model;
ghost use Rattle.mr_service.specs.Stepping.{step_reply_of};
ghost use Rattle.mr_service.specs.Worlds.{TakesWorldStep, StandForAll, IsBatchText, IsBatchMade};

use crate::members::{Member, find};
use crate::replies::Reply;
use crate::steps::StepReply;
use crate::world_steps::no_memory;
use mr_base::{LineCount, Refusal, ServerId};
use std::alloc::Global;

/// Makes the batch of one replica for the present position of another.
pub(crate) fn make(
    members: &mut Vec<Member>,
    pool: &mut Vec<Vec<u8>>,
    alloc: Global,
    from: ServerId,
    to: ServerId,
    max_lines: LineCount,
) -> StepReply
    ensures { TakesWorldStep (record { members = members.old.items; pool = map (λ bytes. bytes.items) pool.old.items }) (model.Make from to max_lines)
        (step_reply_of result)
        (record { members = members.new.items; pool = map (λ bytes. bytes.items) pool.new.items }) }
{
    match find(members.as_slice(), from) {
        Some(maker) => match find(members.as_slice(), to) {
            Some(taker) => make_at(members, pool, alloc, maker, taker, max_lines),
            None => StepReply::NoReplica,
        },
        None => StepReply::NoReplica,
    }
}

/// Makes the batch of the replica at one place for the position of the one at another.
fn make_at(
    members: &mut Vec<Member>,
    pool: &mut Vec<Vec<u8>>,
    alloc: Global,
    maker: usize,
    taker: usize,
    max_lines: LineCount,
) -> StepReply
    requires maker { maker < length members.old.items }
    requires taker { taker < length members.old.items }
    ensures stays { (rs : List Replica) → StandForAll members.old.items rs → StandForAll members.new.items rs }
    ensures made { (rs : List Replica) (a b : Replica) → StandForAll members.old.items rs → slice_get rs maker ≡ Some a → slice_get rs taker ≡ Some b
        → IsBatchMade (batch_reply a (position_of b) max_lines) (step_reply_of result) (map (λ bytes. bytes.items) pool.old.items)
        (map (λ bytes. bytes.items) pool.new.items) }
{
    match members[taker].position(alloc) {
        Ok(position) => batch_at(members, pool, alloc, maker, position, max_lines),
        Err(_) => no_memory(),
    }
}

/// Makes the batch of the replica at a place for one at the position with this text.
fn batch_at(
    members: &mut Vec<Member>,
    pool: &mut Vec<Vec<u8>>,
    alloc: Global,
    maker: usize,
    position: Vec<u8>,
    max_lines: LineCount,
) -> StepReply
    requires { maker < length members.old.items }
    ensures stays { (rs : List Replica) → StandForAll members.old.items rs → StandForAll members.new.items rs }
    ensures made { (rs : List Replica) (a : Replica) → StandForAll members.old.items rs → slice_get rs maker ≡ Some a
        → IsBatchMade (reply_to_position a (read_position position.items) max_lines) (step_reply_of result) (map (λ bytes. bytes.items) pool.old.items)
        (map (λ bytes. bytes.items) pool.new.items) }
{
    match members[maker].batch(alloc, position, max_lines) {
        Ok(text) => add_text(pool, text),
        Err(refusal) => StepReply::Said(Reply::Refused(refusal)),
    }
}

/// Puts the text of a batch behind the others.
fn add_text(pool: &mut Vec<Vec<u8>>, text: Vec<u8>) -> StepReply
    ensures { (reply : ReplyOfReplica) → IsBatchText reply text.items
        → IsBatchMade reply (step_reply_of result) (map (λ bytes. bytes.items) pool.old.items) (map (λ bytes. bytes.items) pool.new.items) }
{
    let (number, bytes) = (pool.len() as u64, text.len() as u64);
    match push_text(pool, text) {
        Ok(()) => StepReply::Made {
            number: number + 1,
            bytes,
        },
        Err(_) => no_memory(),
    }
}

fn push_text(pool: &mut Vec<Vec<u8>>, text: Vec<u8>) -> Result<(), Refusal>
    ensures ok { OnOk result (map (λ bytes. bytes.items) pool.new.items ≡ map (λ bytes. bytes.items) pool.old.items ++ text.items ∷ []) }
    ensures err { OnErr result (pool.new.items ≡ pool.old.items) }
{
    pool.push(text)?;
    Ok(())
}
