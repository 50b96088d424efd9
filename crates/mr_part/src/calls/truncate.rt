ghost use Rattle.std.specs.Prelude.{◌≡◌, ◌≢◌, ◌<◌, ◌≤◌, Ok, Err};
ghost use Rattle.mr_model.specs.Replies.{DroppedIs};
ghost use Rattle.mr_model.specs.Scopes.{UpTo};
ghost use Rattle.mr_model.specs.Step.{truncate};
ghost use Rattle.mr_tables.specs.Change.{ChangeView};
ghost use Rattle.mr_part.specs.Answering.{NeverStore};
ghost use Rattle.mr_part.specs.Parts.{TakesPart};

use crate::Part;
use crate::calls::changes::{forgotten, no_change};
use mr_base::Refusal;
use mr_tables::Change;

impl Part {
    /// Keeps the first commits up to this number no longer, and answers how many are dropped then, and what that changes in
    /// the tables.
    pub fn truncate(&self, number: u64) -> Result<(u64, Change), Refusal>
        ensures step { TakesPart (UpTo number) (λ a. truncate a number) (λ _ done. DroppedIs done.0) (λ done. done.1) self.now result }
        // A refusal that is due is returned without memory, and so is the answer if nothing changes.
        ensures due_primary { self.now.summary.server ≡ self.now.summary.primary → result ≡ Err Refusal.PrimaryKeepsAll }
        ensures due_beyond { self.now.summary.server ≢ self.now.summary.primary → self.now.summary.commits < number → result ≡ Err Refusal.BeyondCommitted }
        ensures same { self.now.summary.server ≢ self.now.summary.primary → number ≤ self.now.summary.commits → number ≤ self.now.summary.dropped
            → (change : ChangeView) × (result ≡ Ok (self.now.summary.dropped, change)) }
        ensures own { NeverStore result }
    {
        if self.summary.server == self.summary.primary {
            return Err(Refusal::PrimaryKeepsAll);
        }
        if number > self.summary.commits {
            return Err(Refusal::BeyondCommitted);
        }
        if number <= self.summary.dropped {
            let change = no_change(self.alloc, &self.summary);
            return Ok((self.summary.dropped, change));
        }
        let mut summary = self.summary;
        summary.dropped = number;
        let change = forgotten(self.alloc, &summary, self.kept.as_slice())?;
        Ok((number, change))
    }
}
