//! The rounds of an exchange.

ghost use Rattle.std.specs.Prelude.{◌≡◌, Result};
ghost use Rattle.mr_base.specs.declared.batches.Ending.{Ending};
ghost use Rattle.mr_http.specs.declared.faults.WebFault.{WebFault};
ghost use Rattle.mr_net.specs.declared.ways.Round.{Round};
ghost use Rattle.mr_net.specs.declared.ways.Way.{Way};
ghost use Rattle.mr_net.specs.Ways.{IsWay, asks_for_more, is_more, joined};

use mr_base::Ending;
use mr_http::WebFault;

/// The greatest number of rounds of one way.
const GREATEST_ROUNDS: u32 = 10_000;

/// A way of an exchange.
#[derive(Clone, Copy, Debug, PartialEq, Eq)]
pub(crate) enum Way {
    /// What this replica lacks is taken from the peer.
    Pull,
    /// What the peer lacks is handed to it.
    Push,
}

/// What a round brought: how many writes and commits were new, and how its batch ended.
#[derive(Clone, Copy)]
pub(crate) struct Round {
    pub(crate) writes: u64,
    pub(crate) commits: u64,
    pub(crate) ending: Ending,
}

/// A peer to exchange with.
pub(crate) trait Peer {
    // what a round of a way may come to, from the peer as it was to the peer as it then is
    ghost runs: { Way → Self → Result Round WebFault → Self → Type 0 };

    /// One round: a batch is taken from the peer; or the peer tells its position, and a batch is handed to it.
    fn round(&mut self, way: Way) -> Result<Round, WebFault>
        ensures { runs way self.old result self.new };
}

/// How many writes and commits the rounds of a way brought.
#[derive(Clone, Copy)]
pub(crate) struct Taken {
    pub(crate) writes: u64,
    pub(crate) commits: u64,
}

impl Round {
    /// What a pull or push of one batch answers: its new writes and commits, and its ending.
    pub(crate) fn of(parts: (u64, u64, Ending)) -> Round
        ensures { result ≡ record { writes = parts.0; commits = parts.1; ending = parts.2 } }
    {
        let (writes, commits, ending) = parts;
        Round {
            writes,
            commits,
            ending,
        }
    }

    /// Whether another round may bring more: the batch had more lines than a round takes, and something of it was new.
    fn asks_for_more(&self) -> bool
        ensures { result ≡ asks_for_more self.now }
    {
        is_more(self.ending) && (self.writes > 0 || self.commits > 0)
    }
}

fn is_more(ending: Ending) -> bool
    ensures { result ≡ is_more ending }
{
    matches!(ending, Ending::More)
}

impl Taken {
    fn and(self, round: &Round) -> Taken
        ensures { result ≡ joined self round.now }
    {
        Taken {
            writes: self.writes.saturating_add(round.writes),
            commits: self.commits.saturating_add(round.commits),
        }
    }
}

/// All rounds of a way, and what they brought.
pub(crate) fn all_rounds<P: Peer>(peer: &mut P, way: Way) -> Result<Taken, WebFault>
    ensures { IsWay (P.runs way) peer.old result peer.new }
{
    let mut taken = Taken {
        writes: 0,
        commits: 0,
    };
    for _ in 0..GREATEST_ROUNDS {
        let round = peer.round(way)?;
        taken = taken.and(&round);
        if !round.asks_for_more() {
            return Ok(taken);
        }
    }
    Ok(taken)
}
