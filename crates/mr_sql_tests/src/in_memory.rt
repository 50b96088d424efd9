//! Commands to a replica whose tables lie in SQLite in memory: the headline with no premise.

ghost use Rattle.std.specs.Prelude.{◌≡◌, ◌⊎◌, map, IfOk, IfErr};
ghost use Rattle.mr_model.specs.Replica.{opening};
ghost use Rattle.mr_model.specs.Tables.{Tables};
ghost use Rattle.mr_service.specs.Asked.{command_seen, reply_of};
ghost use Rattle.mr_service.specs.Headline.{KeepsHeadline};

use mr_base::{Refusal, ServerId};
use mr_service::{Command, Reply, Service, run};
use mr_sql::{SqlKeeper, memory_is_honest};
use std::alloc::Global;

/// Asks each command in turn of a new replica of this server, and lists the replies. It is refused if there is no memory for
/// the tables or for the list of replies, before the first command.
pub fn run_in_memory(
    alloc: Global,
    server: ServerId,
    primary: ServerId,
    commands: &[Command],
) -> Result<Vec<Reply>, Refusal>
    // The headline of the replica that knows nothing yet, with no premise.
    ensures headline { IfOk result
        (λ replies. (after : Tables) × KeepsHeadline (opening server primary) (map command_seen commands.now) (map reply_of replies.items) after) }
    ensures cause { IfErr result (λ e. (e ≡ Refusal.OutOfMemory) ⊎ (e ≡ Refusal.Store)) }
{
    let keeper = SqlKeeper::open_in_memory(alloc, server, primary)?;
    let mut service = Service::new(alloc, keeper);
    let replies = run(alloc, &mut service, commands)?;
    // Says to the proof that the premises of `run` hold in memory.
    memory_is_honest(&service.into_keeper());
    Ok(replies)
}
