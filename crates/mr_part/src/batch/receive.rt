ghost use Rattle.std.specs.Prelude.{◌≡◌, ◌≢◌, ◌+◌, ◌<◌, ◌^◌, IsTrue, Ok, Err, Some, None, map, filter, length};
ghost use Rattle.std.specs.List.{list_all};
ghost use Rattle.mr_model.specs.Exchange.{Second, is_item, Header};
ghost use Rattle.mr_model.specs.Moving.{may_move};
ghost use Rattle.mr_model.specs.Replica.{Replica, IsReplica, tentative};
ghost use Rattle.mr_model.specs.Replies.{Took};
ghost use Rattle.mr_model.specs.Scopes.{OfItems};
ghost use Rattle.mr_model.specs.Step.{receive_batch, after_items};
ghost use Rattle.mr_model.specs.Taking.{take_items};
ghost use Rattle.mr_model.specs.View.{place_of};
ghost use Rattle.mr_base.specs.Batches.{item_of};
ghost use Rattle.mr_tables.specs.Change.{ChangeView};
ghost use Rattle.mr_part.specs.Answering.{NeverStore, nothing_taken};
ghost use Rattle.mr_part.specs.Moves.{IsMovingOf};
ghost use Rattle.mr_part.specs.PartMoves.{AnswersItems};
ghost use Rattle.mr_part.specs.Parts.{IsPartOf, TakesPart};
ghost use Rattle.mr_part.specs.Logged.{undo_with};

use crate::Part;
use crate::batch::candidate::{Reached, reached_with};
use crate::batch::movable::{Moving, again_in, moving_by, moving_rows};
use crate::batch::moved::moved;
use crate::calls::changes::no_change;
use mr_base::{Batch, Item, Refusal};
use mr_replay::UndoRow;
use mr_tables::Change;

impl Part {
    /// Takes a batch whole, or not at all, and answers how many of its writes and of its commits were new, and what that
    /// changes in the tables. The part is used up: what it has is moved, and not copied.
    pub fn receive(self, batch: &Batch) -> Result<(u64, u64, Change), Refusal>
        ensures step { TakesPart (OfItems batch.now.items) (λ a. receive_batch a batch.now) (λ _ taken. Took taken.0 taken.1) (λ taken. taken.2) self result }
        // A batch without a header takes no memory, nor does a refusal for the header.
        ensures empty { batch.now.header ≡ None → (change : ChangeView) × (result ≡ Ok (0, 0, change)) }
        ensures due { (h : Header) → batch.now.header ≡ Some h → h.primary ≢ self.summary.primary → result ≡ Err Refusal.WrongPrimary }
        ensures own { NeverStore result }
    {
        // For the prover alone: the batch is within its limits.
        batch.is_within_limits();
        let Some(header) = batch.header else {
            return Ok((0, 0, no_change(self.alloc, &self.summary)));
        };
        if header.primary != self.summary.primary {
            return Err(Refusal::WrongPrimary);
        }
        self.take_items(&batch.items)
    }

    /// Takes the items of a batch, all or none.
    fn take_items(self, items: &[Item]) -> Result<(u64, u64, Change), Refusal>
        ensures step { IsTrue (list_all (is_item Second) (map item_of items.now)) → length items.now + 2 < 2 ^ 64
            → TakesPart (OfItems (map item_of items.now)) (λ a. after_items a (take_items (map item_of items.now) 2 (Ok (nothing_taken a)))) (λ _ taken. Took taken.0 taken.1) (λ taken. taken.2) self result }
        ensures own { NeverStore result }
    {
        let kept = self.kept.as_slice();
        let moving = moving_by(self.alloc, kept, items, self.summary.commits)?;
        let undone = moving_rows(self.alloc, kept, &moving)?;
        self.take_undone(items, &moving, &undone)
    }

    /// The same, if the items may move these tentative writes, whose executions are undone so. The kept writes and the board are moved into
    /// what is reached.
    fn take_undone(
        self,
        items: &[Item],
        moving: &Moving,
        undone: &[UndoRow],
    ) -> Result<(u64, u64, Change), Refusal>
        ensures step { IsTrue (list_all (is_item Second) (map item_of items.now)) → length items.now + 2 < 2 ^ 64 → (a : Replica) → IsReplica a → IsPartOf self (OfItems (map item_of items.now)) a
            → IsMovingOf moving.now a (map item_of items.now) → undone.now ≡ map (undo_with (place_of a)) (filter (may_move a (map item_of items.now)) (tentative a))
            → AnswersItems a (map item_of items.now) result }
        ensures own { NeverStore result }
    {
        let Part {
            alloc,
            summary,
            rooms,
            kept,
            board,
        } = self;
        let kept = kept.into_rows(alloc)?;
        let had = kept.len() as u64;
        let reached = reached_with(alloc, summary, &rooms, kept, items)?;
        let Reached {
            summary: numbers,
            rooms: new_rooms,
            kept,
        } = reached;
        let writes = (kept.len() as u64).saturating_sub(had);
        let commits = numbers.commits.saturating_sub(summary.commits);
        let anew = again_in(alloc, kept, moving, summary.commits)?;
        let change = moved(alloc, &summary, board, &numbers, new_rooms, undone, anew)?;
        Ok((writes, commits, change))
    }
}
