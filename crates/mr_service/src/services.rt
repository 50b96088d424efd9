ghost use Rattle.std.specs.Prelude.{◌≡◌, ◌⊎◌};
ghost use Rattle.mr_model.specs.Step.{IsOfMachine};
ghost use Rattle.mr_model.specs.Serving.{TakesStep, Reaches};
ghost use Rattle.mr_model.specs.Tables.{Tables};
ghost use Rattle.mr_store.specs.KeeperCalls.{IsSettled};
ghost use Rattle.mr_service.specs.Asked.{command_seen, local_of, reply_of, reply_in};
ghost use Rattle.mr_service.specs.Asking.{Counts, LeavesOnRefusal, NoneFails, TellsRise, TellsWordFaults};
ghost use Rattle.mr_service.specs.Headline.{AnswersQuestion};
ghost use Rattle.mr_service.specs.Replied.{RepliesTo};
ghost use Rattle.mr_service.specs.Served.{IsRefusedAnywhere, IsServed};

use crate::changing::{add_room, batch_for, cancel, commit, position, receive, submit, truncate};
use crate::commands::{Command, Local};
use crate::questions::{calendar, errors, outcome, sheet};
use crate::replies::Reply;
use mr_base::Refusal;
use mr_store::Keeper;
use std::alloc::Global;
use std::marker::Model;

/// A replica that is asked commands, one at a time. Between commands everything stands in its keeper.
#[derive(Drop)]
pub struct Service<K: Keeper> {
    alloc: Global,
    keeper: K,
}

impl<K: Keeper> Model for Service<K> {
    ghost Value = { K };

    ghost coded = { K.code };

    ghost view = { λ s. s.keeper };
}

impl<K: Keeper> Service<K> {
    /// The replica that the keeper's tables stand for. It takes the memory of its replies from this allocator.
    pub fn new(alloc: Global, keeper: K) -> Service<K>
        ensures { result ≡ keeper }
    {
        Service { alloc, keeper }
    }

    /// The keeper, with all that was done.
    pub fn into_keeper(self) -> K
        ensures { result ≡ self }
    {
        self.keeper
    }

    /// Does what the command says, and replies. A refusal changes nothing; but behind 24 or 25 over a store on disk the command may turn out to
    /// be done.
    pub fn ask(&mut self, command: &Command) -> Reply
        ensures served { IsServed K.Keeper self.old self.new (command_seen command.now) (reply_of result) }
        ensures clean { K.is_clean self.new → K.is_clean self.old }
        ensures open { K.is_clean self.new → K.is_open self.new → K.is_open self.old }
        ensures step { K.is_clean self.new → K.is_open self.new → TakesStep (K.tables self.old) (command_seen command.now) (reply_of result) (K.tables self.new) }
        ensures counts { Counts (reply_of result) (K.failures self.old) (K.failures self.new) }
        ensures refused { K.is_clean self.new → K.is_open self.new → LeavesOnRefusal (reply_of result) (K.tables self.old) (K.tables self.new) }
        ensures rise { TellsRise (reply_of result) (K.failures self.old) (K.failures self.new) }
        ensures sure { K.never_fails → K.is_clean self.new → K.is_open self.new → NoneFails (K.tables self.old) (K.failures self.old) (K.failures self.new) }
        ensures lasts { K.is_clean self.new → K.is_open self.old → IsOfMachine (reply_of result) ⊎ K.is_open self.new }
        ensures settled { K.is_clean self.new → K.is_open self.new → IsSettled (K.may_leave self.old) (K.tables self.old)
            → IsSettled (K.may_leave self.new) (K.tables self.new) }
        ensures crash { K.is_clean self.new → K.is_open self.old → (t : Tables) → K.may_leave self.new t → K.may_leave self.old t
            ⊎ Reaches (K.tables self.old) (command_seen command.now) t }
        ensures answered { K.is_clean self.new → K.is_open self.old ⊎ IsRefusedAnywhere (command_seen command.now) (reply_of result) }
        ensures shut { K.is_clean self.new → (t : Tables) → K.may_leave self.new t → K.may_leave self.old t ⊎ K.is_open self.old }
        ensures replied { K.is_clean self.new → K.is_open self.old → RepliesTo (K.tables self.old) (command_seen command.now) (reply_of result) }
        ensures headline { K.is_clean self.new → K.is_open self.old → AnswersQuestion (K.tables self.old) (command_seen command.now) (reply_of result) }
        ensures due { TellsWordFaults (command_seen command.now) (reply_of result) }
    {
        self.serve(command)
    }

    /// The same, with what its contract says of the keeper as one record.
    fn serve(&mut self, command: &Command) -> Reply
        ensures served { IsServed K.Keeper self.old self.new (command_seen command.now) (reply_of result) }
        ensures due { TellsWordFaults (command_seen command.now) (reply_of result) }
    {
        match command {
            Command::Local(local) => said(ask_local(&mut self.keeper, self.alloc, local)),
            Command::Receive(bytes) => said(receive(
                &mut self.keeper,
                self.alloc,
                bytes.as_slice(),
            )),
        }
    }
}

/// Does what a command of somebody at the replica itself says.
pub(crate) fn ask_local<K: Keeper>(
    keeper: &mut K,
    alloc: Global,
    command: &Local,
) -> Result<Reply, Refusal>
    ensures served { IsServed K.Keeper keeper.old keeper.new (local_of command.now) (reply_in result) }
    ensures due { TellsWordFaults (local_of command.now) (reply_in result) }
{
    match command {
        Local::AddRoom(room) => add_room(keeper, alloc, room.as_str()),
        Local::Submit(words) => submit(keeper, alloc, words),
        Local::Cancel { room, id } => cancel(keeper, alloc, room.as_str(), id.as_str()),
        Local::Commit(count) => commit(keeper, *count),
        Local::Truncate(number) => truncate(keeper, *number),
        Local::Position => position(keeper),
        Local::BatchFor {
            position,
            max_lines,
        } => batch_for(keeper, alloc, position.as_slice(), *max_lines),
        Local::Calendar { room, part } => calendar(keeper, alloc, room.as_str(), *part),
        Local::Sheet { room, day } => sheet(keeper, alloc, room.as_str(), day.as_str()),
        Local::Outcome { room, id } => outcome(keeper, alloc, room.as_str(), id.as_str()),
        Local::Errors { room } => errors(keeper, alloc, room.as_str()),
    }
}

/// The reply for what a call answered.
pub(crate) fn said(answer: Result<Reply, Refusal>) -> Reply
    ensures { reply_of result ≡ reply_in answer }
{
    match answer {
        Ok(reply) => reply,
        Err(refusal) => Reply::Refused(refusal),
    }
}
