//! The replies of a peer, taken as rounds.

ghost use Rattle.mr_peer.specs.Exchanged.{IsExchanged};
ghost use Rattle.mr_peer.specs.ExchangeSteps.{TakesBody, TakesPulled};
ghost use Rattle.mr_peer.specs.OnceAsked.{IsBodyOf, ReceivesOnce, TellsBatch};
ghost use Rattle.mr_peer.specs.PeerReplies.{told_took};
ghost use Rattle.mr_peer.specs.PeerTaking.{TellsAsRead};
ghost use Rattle.mr_net.specs.ExchangeRounds.{Brings, ComesTo};

use crate::ways::Round;
use mr_base::Ending;
use mr_http::WebFault;
use mr_peer::{pull_take, push_take};
use mr_service::Service;
use mr_store::Keeper;
use std::alloc::Global;
use std::io::Read;

/// Takes the reply to a pull.
pub(crate) fn take_pull<K: Keeper, R: Read>(
    alloc: Global,
    service: &mut Service<K>,
    reader: &mut R,
) -> Result<Round, WebFault>
    ensures { (called : _) × IsExchanged K.Keeper service.old service.new called (TakesPulled (R.remaining reader.old)) (TakesBody (K.tables service.old))
        × ComesTo called result × ReceivesOnce K.Keeper service.old service.new (IsBodyOf (R.remaining reader.old)) TellsBatch called }
{
    match pull_take(alloc, service, reader) {
        Ok(taken) => Ok(Round::of(taken)),
        Err(fault) => Err(fault),
    }
}

/// Takes the reply to a batch that was handed over and ended so.
pub(crate) fn take_push<R: Read>(
    alloc: Global,
    ending: Ending,
    reader: &mut R,
) -> Result<Round, WebFault>
    ensures { (counts : _) × TellsAsRead told_took (R.remaining reader.old) counts × Brings counts ending result }
{
    match push_take(alloc, reader) {
        Ok(counts) => Ok(Round::of((counts.0, counts.1, ending))),
        Err(fault) => Err(fault),
    }
}
