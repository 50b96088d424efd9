ghost use Rattle.std.specs.Prelude.{◌≡◌, ◌⊎◌, Ok, Err};
ghost use Rattle.mr_model.specs.Positions.{position_of};
ghost use Rattle.mr_model.specs.Replies.{PositionIs};
ghost use Rattle.mr_model.specs.Scopes.{Nothing};
ghost use Rattle.mr_model.specs.Replica.{Replica, IsReplica};
ghost use Rattle.mr_tables.specs.Summary.{IsWithin, summary_of};
ghost use Rattle.mr_part.specs.Answering.{NeverStore};
ghost use Rattle.mr_part.specs.Parts.{AnswersPart};

use crate::Part;
use mr_base::{Position, Refusal, Version};
use mr_tables::summary::Summary;
use std::alloc::Global;

impl Part {
    /// How far the replica's knowledge goes, in the second version, so that it asks for batches that can say every write. Numbers
    /// beyond the limits, which no replica has, are refused as the store's.
    pub fn position(&self) -> Result<Position, Refusal>
        ensures step { AnswersPart Nothing (λ a. PositionIs (position_of a)) PositionIs self.now result }
        ensures own { IsWithin self.now.summary → NeverStore result }
    {
        position(self.alloc, &self.summary)
    }
}

/// How far a replica's knowledge goes that has these numbers, in the second version, so that it asks for batches that can say every
/// write. Numbers beyond the limits, which no replica has, are refused as the store's.
pub fn position(alloc: Global, summary: &Summary) -> Result<Position, Refusal>
    ensures own { (a : Replica) → IsReplica a → summary.now ≡ summary_of a → (result ≡ Ok (position_of a)) ⊎ (result ≡ Err Refusal.OutOfMemory) }
    ensures store { IsWithin summary.now → NeverStore result }
{
    let counts = summary.counts(alloc)?;
    // For the prover alone: both are numbers of servers.
    summary.server.number();
    summary.primary.number();
    Position::new(
        Version::Second,
        summary.server,
        summary.primary,
        summary.commits,
        counts,
    )
    .ok_or(Refusal::Store)
}
