ghost use Rattle.std.specs.Prelude.{◌≡◌, ◌≤◌, ◌++◌, ◌∷◌, [], List, OnOk, OnErr, Some, None, MatchOption, IsTrue, length, map, take};
ghost use Rattle.mr_model.specs.Texts.{Text};
ghost use Rattle.mr_model.specs.Refusals.{OutOfMemory};
ghost use Rattle.mr_model.specs.Replies.{Refused};
ghost use Rattle.mr_model.specs.Writes.{is_server};
ghost use Rattle.mr_model.specs.World as model;
ghost use Rattle.mr_model.specs.World.{batch_numbered};
ghost use Rattle.mr_service.specs.Asked.{local_of};
ghost use Rattle.mr_service.specs.Stepping.{step_reply_of};
ghost use Rattle.mr_service.specs.Worlds.{TakesWorldStep, member_index};

use crate::commands::Local;
use crate::members::{Member, find, primary_for};
use crate::replies::Reply;
use crate::steps::StepReply;
use mr_base::{Refusal, ServerId};
use std::alloc::Global;

/// Adds a replica with this server.
pub(crate) fn add(members: &mut Vec<Member>, alloc: Global, server: ServerId) -> StepReply
    ensures { (pool : List Text) → TakesWorldStep (record { members = members.old.items; pool = pool }) (model.Add server) (step_reply_of result)
        (record { members = members.new.items; pool = pool }) }
{
    // For the prover alone: a server is from 1 to 99.
    server.number();
    match find(members.as_slice(), server) {
        Some(_) => StepReply::There,
        None => add_member(members, alloc, server),
    }
}

fn add_member(members: &mut Vec<Member>, alloc: Global, server: ServerId) -> StepReply
    requires server { IsTrue (is_server server) }
    requires none { length members.old.items ≤ member_index members.old.items server }
    ensures { (pool : List Text) → TakesWorldStep (record { members = members.old.items; pool = pool }) (model.Add server) (step_reply_of result)
        (record { members = members.new.items; pool = pool }) }
{
    let primary = primary_for(members.as_slice(), server);
    match push_member(members, Member::new(alloc, server, primary)) {
        Ok(()) => StepReply::Added,
        Err(_) => no_memory(),
    }
}

fn push_member(members: &mut Vec<Member>, member: Member) -> Result<(), Refusal>
    ensures ok { OnOk result (members.new.items ≡ members.old.items ++ member ∷ []) }
    ensures err { OnErr result (members.new.items ≡ members.old.items) }
{
    members.push(member)?;
    Ok(())
}

/// Gives the replica with this server a command.
pub(crate) fn ask(
    members: &mut Vec<Member>,
    alloc: Global,
    server: ServerId,
    command: &Local,
) -> StepReply
    ensures { (pool : List Text)
        → TakesWorldStep (record { members = members.old.items; pool = pool }) (model.Step.Do server (local_of command.now)) (step_reply_of result)
        (record { members = members.new.items; pool = pool }) }
{
    match find(members.as_slice(), server) {
        Some(place) => StepReply::Said(members[place].ask(alloc, command)),
        None => StepReply::NoReplica,
    }
}

/// Gives the first bytes of a batch to the replica with this server, or all if it has no more.
pub(crate) fn deliver(
    members: &mut Vec<Member>,
    alloc: Global,
    pool: &[Vec<u8>],
    batch: u64,
    to: ServerId,
    bytes: u64,
) -> StepReply
    ensures { TakesWorldStep (record { members = members.old.items; pool = map (λ bytes. bytes.items) pool.now }) (model.Deliver batch to bytes)
        (step_reply_of result)
        (record { members = members.new.items; pool = map (λ bytes. bytes.items) pool.now }) }
{
    match find(members.as_slice(), to) {
        Some(place) => match text_of(pool, batch) {
            Some(text) => StepReply::Said(members[place].receive(alloc, front_of(text, bytes))),
            None => StepReply::NoBatch,
        },
        None => StepReply::NoReplica,
    }
}

/// The bytes of the batch of this number, from 1 on.
fn text_of(pool: &[Vec<u8>], batch: u64) -> Option<&[u8]>
    ensures { MatchOption result (batch_numbered (map (λ bytes. bytes.items) pool.now) batch ≡ None)
        (λ text. batch_numbered (map (λ bytes. bytes.items) pool.now) batch ≡ Some text.now) }
{
    if batch == 0 || batch > pool.len() as u64 {
        return None;
    }
    Some(pool[batch as usize - 1].as_slice())
}

/// The first bytes of a text, or all.
fn front_of(text: &[u8], count: u64) -> &[u8]
    ensures { result.now ≡ take count text.now }
{
    let len = text.len();
    if count >= len as u64 {
        return text;
    }
    &text[..count as usize]
}

/// That there was no memory.
pub(crate) fn no_memory() -> StepReply
    ensures { step_reply_of result ≡ model.Said (Refused OutOfMemory) }
{
    StepReply::Said(Reply::Refused(Refusal::OutOfMemory))
}
