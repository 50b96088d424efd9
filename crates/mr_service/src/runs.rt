ghost use Rattle.std.specs.Prelude.{◌≡◌, ◌+◌, ◌<◌, ◌≤◌, [], ◌∷◌, ◌++◌, length, map, vec_len, vec_capacity, IfOk, IfErr, OnErr};
ghost use Rattle.mr_model.specs.Replica.{Replica};
ghost use Rattle.mr_model.specs.Serving.{Serves};
ghost use Rattle.mr_model.specs.Tables.{Stands};
ghost use Rattle.mr_service.specs.Asked.{command_seen, reply_of};
ghost use Rattle.mr_service.specs.Asking.{NoneFails, TellsFailure};
ghost use Rattle.mr_service.specs.Headline.{KeepsHeadline};
ghost use Rattle.mr_service.specs.Replied.{RepliesToAll};

use crate::commands::Command;
use crate::replies::Reply;
use crate::services::Service;
use mr_base::Refusal;
use mr_store::{Keeper, ListKeeper};
use std::alloc::{AllocError, Global};

/// Asks each command in turn, whatever the earlier ones were replied, and lists the replies, one for each. The list's memory is taken
/// before the first command: if there is none, nothing is asked.
pub fn run<K: Keeper>(
    alloc: Global,
    service: &mut Service<K>,
    commands: &[Command],
) -> Result<Vec<Reply>, Refusal>
    ensures clean { K.is_clean service.new → K.is_clean service.old }
    ensures open { K.is_clean service.new → K.is_open service.new → K.is_open service.old }
    ensures serves { K.is_clean service.new → K.is_open service.new
        → IfOk result (λ replies. Serves (K.tables service.old) (map command_seen commands.now) (map reply_of replies.items) (K.tables service.new)) }
    ensures replied { K.is_clean service.new → K.is_open service.old
        → IfOk result (λ replies. RepliesToAll (K.tables service.old) (map command_seen commands.now) (map reply_of replies.items)) }
    ensures each { IfOk result (λ replies. length replies.items ≡ length commands.now) }
    ensures counts { IfOk result (λ replies. TellsFailure (map reply_of replies.items) → K.failures service.old < K.failures service.new) }
    ensures sure { K.never_fails → K.is_clean service.new → K.is_open service.new
        → NoneFails (K.tables service.old) (K.failures service.old) (K.failures service.new) }
    ensures cause { IfErr result (λ e. e ≡ Refusal.OutOfMemory) }
    ensures refused { OnErr result (service.new ≡ service.old) }
{
    let mut replies = match Vec::with_capacity(alloc, commands.len()) {
        Ok(replies) => replies,
        Err(AllocError) => return Err(Refusal::OutOfMemory),
    };
    for command in commands {
        let reply = service.ask(command);
        put(&mut replies, reply);
    }
    Ok(replies)
}

/// Puts one more at the end, for which there is room.
pub(crate) fn put<T: Drop>(list: &mut Vec<T>, item: T)
    requires { vec_len list.old + 1 ≤ vec_capacity list.old }
    ensures items { list.new.items ≡ list.old.items ++ item ∷ [] }
    ensures len { vec_len list.new ≡ vec_len list.old + 1 }
    ensures capacity { vec_capacity list.old ≤ vec_capacity list.new }
{
    let _ = list.push(item);
}

/// The same over lists, with no premise on the keeper. If its tables stand for a replica, no reply is that the store failed.
pub fn run_over_lists(
    alloc: Global,
    service: &mut Service<ListKeeper>,
    commands: &[Command],
) -> Result<Vec<Reply>, Refusal>
    ensures serves { IfOk result (λ replies. Serves service.old.tables (map command_seen commands.now) (map reply_of replies.items) service.new.tables) }
    ensures headline { (a : Replica) → Stands service.old.tables a
        → IfOk result (λ replies. KeepsHeadline a (map command_seen commands.now) (map reply_of replies.items) service.new.tables) }
    ensures never { (a : Replica) → Stands service.old.tables a → IfOk result (λ replies. ¬ TellsFailure (map reply_of replies.items)) }
    ensures cause { IfErr result (λ e. e ≡ Refusal.OutOfMemory) }
    ensures refused { OnErr result (service.new ≡ service.old) }
{
    run(alloc, service, commands)
}
