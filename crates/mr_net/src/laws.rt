//! The law of what an exchange and a bridge ask of replicas.

ghost use Rattle.mr_net.specs.AskedInTurn.{BridgesAsk, ExchangesAsk};

use mr_store::Keeper;

/// What the rounds of an exchange, and of a bridge, ask of the replicas here, as their functions over any keeper tell of it: commands in turn, each once, and
/// with a reply of its own.
pub fn asking_law<C: Keeper, S: Keeper>()
    ensures exchanges { ExchangesAsk C.Keeper }
    ensures bridges { BridgesAsk C.Keeper S.Keeper }
{}
