ghost use Rattle.std.specs.Prelude.{◌≡◌, ◌||◌, ℕ, map, OnOk, IfOk, IfErr};
ghost use Rattle.mr_model.specs.Writes.{Id, same_id};
ghost use Rattle.mr_model.specs.Scopes.{item_id, has_number};
ghost use Rattle.mr_base.specs.Batches.{item_of};
ghost use Rattle.mr_part.specs.Named.{has_commit, has_named, IsNamedBy};
ghost use Rattle.mr_part.specs.Sets.{has_id};

use mr_base::{Item, Refusal, WriteId};
use std::alloc::Global;
use std::collections::BTreeSet;

/// The ids of writes and the commit numbers that a batch names. They are put into sets once, so that each kept write or row is asked
/// at the cost of a logarithm.
#[derive(Drop)]
pub struct Named {
    /// Those of the writes and of the commits.
    pub ids: BTreeSet<WriteId>,
    /// Those of the commits.
    pub numbers: BTreeSet<u64>,
}

impl Named {
    /// What these items name.
    pub fn by(alloc: Global, items: &[Item]) -> Result<Named, Refusal>
        ensures named { IfOk result (λ named. IsNamedBy named (map item_of items.now)) }
        ensures only { IfErr result (λ e. e ≡ Refusal.OutOfMemory) }
    {
        let mut named = Named {
            ids: BTreeSet::new(alloc),
            numbers: BTreeSet::new(alloc),
        };
        for item in items {
            named.add(item)?;
        }
        Ok(named)
    }

    /// Whether the write of this id, which has this commit number, 0 if it is tentative, is named: by its id or by its number.
    pub fn has(&self, id: WriteId, number: u64) -> bool
        ensures { result ≡ has_named self.now id number }
    {
        self.ids.contains(&id) || (number != 0 && self.numbers.contains(&number))
    }

    /// Adds what an item names.
    fn add(&mut self, item: &Item) -> Result<(), Refusal>
        ensures ids { OnOk result ((id : Id) → has_id self.new.ids id ≡ (same_id (item_id (item_of item.now)) id || has_id self.old.ids id)) }
        ensures numbers { OnOk result ((number : ℕ) → has_commit self.new.numbers number ≡ (has_number number (item_of item.now) || has_commit self.old.numbers number)) }
        ensures only { IfErr result (λ e. e ≡ Refusal.OutOfMemory) }
    {
        match item {
            Item::W(write) => {
                self.ids.insert(write.stamp.id())?;
            }
            Item::C { seq, id } => {
                self.ids.insert(*id)?;
                self.numbers.insert(seq.number())?;
            }
        }
        Ok(())
    }
}
