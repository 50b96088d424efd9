//! The laws of what an exchange, a bridge and serving ask of the databases of offices.

ghost use Rattle.mr_branches.specs.Sights.{sight_of};
ghost use Rattle.mr_calls.specs.Calls.{CallsHappen};
ghost use Rattle.mr_calls.specs.CommandCalls.{ExchangesAreCalls, ServingsAreCalls, ClientsAreCalls, ServersAreCalls};

use mr_store::Keeper;

/// What an `exchange` and a `serve` ask of a database, as their functions over any keeper tell of it, are calls of an office's database, in turn, if nobody else
/// has written its file and the disk has returned what was written. Such calls happen at the office, if what it receives is a prefix of what some office gave.
pub fn commands_law<K: Keeper>()
    ensures exchanges { ExchangesAreCalls K.Keeper }
    ensures serves { ServingsAreCalls K.Keeper }
    ensures happen { CallsHappen (sight_of K.Keeper) }
{}

/// So are what a `bridge` asks of its client's database and of its server's.
pub fn bridge_law<C: Keeper, S: Keeper>()
    ensures clients { ClientsAreCalls C.Keeper S.Keeper }
    ensures servers { ServersAreCalls C.Keeper S.Keeper }
{}
