ghost use Rattle.std.specs.Prelude.{◌≡◌, ◌≢◌, ◌<◌, Err};
ghost use Rattle.mr_model.specs.Replies.{BatchIs};
ghost use Rattle.mr_model.specs.Scopes.{Above};
ghost use Rattle.mr_model.specs.Step.{batch_reply};
ghost use Rattle.mr_part.specs.Answering.{NeverStore};
ghost use Rattle.mr_part.specs.Parts.{AnswersPart};
ghost use Rattle.mr_tables.specs.Summary.{IsWithin};

use crate::Part;
use crate::calls::outgoing::outgoing_for;
use mr_base::{Batch, Header, LineCount, Position, Refusal};

impl Part {
    /// What a replica at this position lacks: the commits above its own, each behind its write if that is lacked, then
    /// the tentative writes that it lacks, so many lines at most, in the position's version. It is refused if the position is of
    /// another primary, if one of the commits is dropped, and if that version can't say one of these writes, which the second always can.
    pub fn batch(&self, position: &Position, max_lines: LineCount) -> Result<Batch, Refusal>
        ensures step { AnswersPart (Above position.now.commits) (λ a. batch_reply a position.now max_lines) (λ batch. BatchIs batch) self.now result }
        // A refusal that is due is returned without memory.
        ensures due_primary { position.now.primary ≢ self.now.summary.primary → result ≡ Err Refusal.WrongPrimary }
        ensures due_truncated { position.now.primary ≡ self.now.summary.primary → position.now.commits < self.now.summary.dropped → result ≡ Err Refusal.Truncated }
        ensures own { IsWithin self.now.summary → NeverStore result }
    {
        if position.primary != self.summary.primary {
            return Err(Refusal::WrongPrimary);
        }
        if position.commits < self.summary.dropped {
            return Err(Refusal::Truncated);
        }
        // The part has none of the commits that the position has: for it they are as good as dropped.
        let mut summary = self.summary;
        summary.dropped = position.commits;
        let kept = self.kept.as_slice();
        let outgoing = outgoing_for(self.alloc, &summary, kept, position, max_lines)?;
        let header = Header {
            from: summary.server,
            primary: summary.primary,
        };
        outgoing.into_batch(position.version, header)
    }
}
