ghost use Rattle.mr_service.specs.Asked.{command_seen, reply_of};
ghost use Rattle.mr_service.specs.Served.{IsServed};

use mr_service::{Command, Reply, Service};
use mr_store::Keeper;

/// Asks this replica. The command is dropped here, so that callers own the reply alone.
pub(crate) fn reply_to<K: Keeper>(service: &mut Service<K>, command: Command) -> Reply
    ensures { IsServed K.Keeper service.old service.new (command_seen command) (reply_of result) }
{
    service.ask(&command)
}
