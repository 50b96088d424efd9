ghost use Rattle.std.specs.Prelude.{◌≢◌, ◌≡◌, Err};
ghost use Rattle.mr_model.specs.Replies.{CommittedIs};
ghost use Rattle.mr_model.specs.Step.{commit};
ghost use Rattle.mr_model.specs.Scopes.{NextCommits};
ghost use Rattle.mr_part.specs.Answering.{NeverStore};
ghost use Rattle.mr_part.specs.Parts.{TakesPart};

use crate::Part;
use crate::calls::changes::after_commits;
use crate::calls::placing::cancellers;
use crate::kept_rows::{copied_writes, undo_rows};
use mr_base::Refusal;
use mr_tables::Change;

impl Part {
    /// Commits the first k tentative writes, or all if there are fewer, and answers how many they are, and what that
    /// changes in the tables.
    pub fn commit(&self, k: u64) -> Result<(u64, Change), Refusal>
        ensures step { TakesPart (NextCommits k) (λ a. commit a k) (λ _ done. CommittedIs done.0) (λ done. done.1) self.now result }
        // A refusal that is due is returned without memory.
        ensures due { self.now.summary.server ≢ self.now.summary.primary → result ≡ Err Refusal.NotPrimary }
        ensures own { NeverStore result }
    {
        // For the prover alone: clauses speak of `k`, and the code has no use for it.
        let _ = k;
        if self.summary.server != self.summary.primary {
            return Err(Refusal::NotPrimary);
        }
        let kept = self.kept.as_slice();
        let writes = copied_writes(self.alloc, kept)?;
        let rows = undo_rows(self.alloc, kept)?;
        let bys = cancellers(self.alloc, &self.board, &writes)?;
        let (_, change) = after_commits(self.alloc, &self.summary, &writes, &rows, &bys)?;
        Ok((kept.len() as u64, change))
    }
}
