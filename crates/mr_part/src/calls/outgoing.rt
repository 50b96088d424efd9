ghost use Rattle.std.specs.Prelude.{◌≡◌, ◌≤◌, ◌+◌, ◌++◌, [], ◌∷◌, ◌-◌, min, nat_lt, List, Some, length, map, OnOk, IfOk, IfErr};
ghost use Rattle.std.specs.List.{list_all};
ghost use Rattle.mr_model.specs.Exchange.{Item as ItemOfBatch, W as WriteLine, C as CommitLine, is_item};
ghost use Rattle.mr_model.specs.Positions.{count_among};
ghost use Rattle.mr_model.specs.Step.{lacks};
ghost use Rattle.mr_base.specs.PositionCounts.{counts_of_pairs};
ghost use Rattle.mr_base.specs.Answers.{ok_if};
ghost use Rattle.mr_base.specs.Batches.{item_of, batch_seen};
ghost use Rattle.mr_base.specs.Versions.{version_of};
ghost use Rattle.mr_part.specs.KeptRows.{row_writes};
ghost use Rattle.mr_part.specs.Outgoing.{Offers, committed_items, lacked_items, kept_items, ending_by};

use crate::kept_rows::KeptRow;
use mr_base::{
    Batch, CommitNumber, Ending, Header, Item, LineCount, Position, Refusal, ServerId, Version,
    Write, WriteId,
};
use mr_tables::summary::Summary;
use std::alloc::Global;

/// The items of a batch that is made: the first ones, up to a limit, and whether there are more.
#[derive(Drop)]
pub struct Outgoing {
    alloc: Global,
    limit: LineCount,
    items: Vec<Item>,
    more: bool,
}

impl Outgoing {
    /// No items yet.
    fn new(alloc: Global, limit: LineCount) -> Outgoing
        ensures limit { result.limit ≡ limit }
        ensures items { Offers limit [] result.items.items result.more }
    {
        Outgoing {
            alloc,
            limit,
            items: Vec::new(alloc),
            more: false,
        }
    }

    /// The batch of these items under this header, if this version of the exchange text can say each of them.
    pub fn into_batch(self, version: Version, header: Header) -> Result<Batch, Refusal>
        ensures { result ≡ ok_if (list_all (is_item (version_of version)) (map item_of self.items.items))
            (batch_seen version (Some header) self.items.items (ending_by self.more)) Refusal.NeedsVersion2 }
    {
        let ending = if self.more {
            Ending::More
        } else {
            Ending::Complete
        };
        Batch::new(version, header, self.items, ending)
    }

    /// One item more: a write.
    fn push_write(&mut self, write: &Write) -> Result<(), Refusal>
        ensures items { OnOk result ((items : List ItemOfBatch) → Offers self.old.limit items self.old.items.items self.old.more
            → Offers self.old.limit (items ++ WriteLine write.now ∷ []) self.new.items.items self.new.more) }
        ensures limit { self.new.limit ≡ self.old.limit }
        ensures only { IfErr result (λ e. e ≡ Refusal.OutOfMemory) }
    {
        if self.items.len() >= self.limit.number() as usize {
            self.more = true;
            return Ok(());
        }
        let copy = write.copy(self.alloc)?;
        self.items.push(Item::W(copy))?;
        Ok(())
    }

    /// One item more: a commit.
    fn push_commit(&mut self, seq: CommitNumber, id: WriteId) -> Result<(), Refusal>
        ensures items { OnOk result ((items : List ItemOfBatch) → Offers self.old.limit items self.old.items.items self.old.more
            → Offers self.old.limit (items ++ CommitLine seq id ∷ []) self.new.items.items self.new.more) }
        ensures limit { self.new.limit ≡ self.old.limit }
        ensures only { IfErr result (λ e. e ≡ Refusal.OutOfMemory) }
    {
        if self.items.len() >= self.limit.number() as usize {
            self.more = true;
            return Ok(());
        }
        self.items.push(Item::C { seq, id })?;
        Ok(())
    }

    /// One item more, if the position lacks the write.
    fn push_if_lacked(&mut self, position: &Position, write: &Write) -> Result<(), Refusal>
        ensures items { OnOk result ((items : List ItemOfBatch) → Offers self.old.limit items self.old.items.items self.old.more
            → Offers self.old.limit (items ++ lacked_items position.now (write.now ∷ [])) self.new.items.items self.new.more) }
        ensures limit { self.new.limit ≡ self.old.limit }
        ensures only { IfErr result (λ e. e ≡ Refusal.OutOfMemory) }
    {
        if !is_lacked(position, write) {
            return Ok(());
        }
        self.push_write(write)?;
        Ok(())
    }

    /// Those of these writes that the position lacks. The first one beyond the limit ends the walk.
    fn push_lacked(&mut self, position: &Position, rows: &[KeptRow]) -> Result<(), Refusal>
        ensures items { OnOk result ((items : List ItemOfBatch) → Offers self.old.limit items self.old.items.items self.old.more
            → Offers self.old.limit (items ++ lacked_items position.now (row_writes rows.now)) self.new.items.items self.new.more) }
        ensures limit { self.new.limit ≡ self.old.limit }
        ensures only { IfErr result (λ e. e ≡ Refusal.OutOfMemory) }
    {
        for row in rows {
            if self.more {
                return Ok(());
            }
            self.push_if_lacked(position, &row.write)?;
        }
        Ok(())
    }

    /// The commits of these writes, numbered from `first` on, each behind its write if the position lacks that. The first line beyond the
    /// limit ends the walk.
    fn push_commits(
        &mut self,
        position: &Position,
        first: u64,
        rows: &[KeptRow],
    ) -> Result<(), Refusal>
        ensures items { OnOk result ((items : List ItemOfBatch) → Offers self.old.limit items self.old.items.items self.old.more
            → Offers self.old.limit (items ++ committed_items position.now first (row_writes rows.now)) self.new.items.items self.new.more) }
        ensures limit { self.new.limit ≡ self.old.limit }
        ensures only { 1 ≤ first → first + length rows.now ≤ 1_000_000_000_000 → IfErr result (λ e. e ≡ Refusal.OutOfMemory) }
    {
        for (k, row) in rows.iter().enumerate() {
            if self.more {
                return Ok(());
            }
            let Some(seq) = CommitNumber::new(first.saturating_add(k as u64)) else {
                return Err(Refusal::Store);
            };
            self.push_if_lacked(position, &row.write)?;
            self.push_commit(seq, row.id())?;
        }
        Ok(())
    }
}

/// What a replica with these numbers and these kept writes has for one at the position, if no commit that is asked for
/// is dropped.
pub fn outgoing_for(
    alloc: Global,
    summary: &Summary,
    kept: &[KeptRow],
    position: &Position,
    limit: LineCount,
) -> Result<Outgoing, Refusal>
    ensures items { IfOk result (λ outgoing. Offers limit (kept_items position.now summary.now (row_writes kept.now)) outgoing.items.items outgoing.more) }
    ensures only { summary.now.dropped ≤ position.now.commits → summary.now.commits ≤ 999_999_999_999 → IfErr result (λ e. e ≡ Refusal.OutOfMemory) }
{
    let (committed, tentative) = kept.split_at(committed_in(summary, kept));
    let known = position.commits.saturating_sub(summary.dropped) as usize;
    let (_, unknown) = committed.split_at(known.min(committed.len()));
    let mut outgoing = Outgoing::new(alloc, limit);
    outgoing.push_commits(position, position.commits + 1, unknown)?;
    outgoing.push_lacked(position, tentative)?;
    Ok(outgoing)
}

/// How many of the kept writes are committed; they are the first.
fn committed_in(summary: &Summary, kept: &[KeptRow]) -> usize
    ensures { result ≡ min (summary.now.commits - summary.now.dropped) (length kept.now) }
{
    (summary.commits.saturating_sub(summary.dropped) as usize).min(kept.len())
}

/// Whether the position lacks the write.
fn is_lacked(position: &Position, write: &Write) -> bool
    ensures { result ≡ lacks position.now write.now }
{
    count_in(&position.counts, write.stamp.server) < write.stamp.n
}

/// The count of a server.
fn count_in(counts: &[(ServerId, u32)], server: ServerId) -> u32
    ensures { result ≡ count_among (counts_of_pairs counts.now) server }
{
    for count in counts {
        if count.0 == server {
            return count.1;
        }
    }
    0
}
