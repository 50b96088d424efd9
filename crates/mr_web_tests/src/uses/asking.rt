// A replica that is asked commands. `Service::ask` has one reply for all that may come of a command; here a refusal is an error, so that a
// caller can write `?`.

ghost use Rattle.std.specs.Prelude.{◌≡◌, ◌⊎◌, IfOk, IfErr, OnErr, MatchOption};
ghost use Rattle.mr_model.specs.Replica.{Replica};
ghost use Rattle.mr_model.specs.Refusals.{OutOfMemory};
ghost use Rattle.mr_model.specs.Replies.{Refused};
ghost use Rattle.mr_model.specs.Step.{step};
ghost use Rattle.mr_model.specs.Tables.{Stands};
ghost use Rattle.mr_base.specs.RefusalViews.{refusal_of};
ghost use Rattle.mr_service.specs.Asked.{command_seen, reply_of};
ghost use Rattle.mr_web_tests.specs.OneCommand.{TakesCommand, IsNoRefusal};

use mr_base::Refusal;
use mr_service::{Command, Reply, Service, reply_text};
use mr_store::ListKeeper;
use std::alloc::Global;

/// Gives the replica a command. `Service::ask` needs nothing of its caller. Its clause `step` says that the replica takes one step of the
/// definitions, or none if memory or the store failed; `refused`, that a refusal leaves the tables; `counts` and `sure`, that
/// lists don't fail. So of a reply that is no refusal the caller knows which one it is, and where the replica stands.
pub(crate) fn ask(service: &mut Service<ListKeeper>, command: &Command) -> Result<Reply, Refusal>
    ensures done { (a : Replica) → Stands service.old.tables a
        → IfOk result (λ reply. TakesCommand a (command_seen command.now) (reply_of reply) service.new.tables) }
    ensures value { IfOk result (λ reply. IsNoRefusal (reply_of reply)) }
    ensures refused { OnErr result (service.new.tables ≡ service.old.tables) }
    ensures why { (a : Replica) → Stands service.old.tables a
        → IfErr result (λ e. (Refused (refusal_of e) ≡ (step a (command_seen command.now)).reply) ⊎ (refusal_of e ≡ OutOfMemory)) }
{
    let reply = service.ask(command);
    match refusal_in(&reply) {
        Some(refusal) => Err(refusal),
        None => Ok(reply),
    }
}

/// The refusal that is replied, if one is.
fn refusal_in(reply: &Reply) -> Option<Refusal>
    ensures { MatchOption result (IsNoRefusal (reply_of reply.now)) (λ e. reply_of reply.now ≡ Refused (refusal_of e)) }
{
    match reply {
        Reply::Refused(refusal) => Some(*refusal),
        _ => None,
    }
}

/// Gives the replica a command whose reply has nothing new for its caller, as when a room is added.
pub(crate) fn order(service: &mut Service<ListKeeper>, command: Command) -> Result<(), Refusal> {
    ask(service, &command)?;
    Ok(())
}

/// Puts the text of a reply, a refusal too, behind these bytes.
pub(crate) fn add_text(alloc: Global, told: &mut Vec<u8>, reply: &Reply) -> Result<(), Refusal> {
    let text = reply_text(alloc, reply)?;
    told.extend_from_slice(text.as_slice())?;
    Ok(())
}

/// Gives the replica a command, and puts the text of its reply behind these bytes.
pub(crate) fn tell(
    alloc: Global,
    service: &mut Service<ListKeeper>,
    command: Command,
    told: &mut Vec<u8>,
) -> Result<(), Refusal> {
    let reply = service.ask(&command);
    add_text(alloc, told, &reply)
}
