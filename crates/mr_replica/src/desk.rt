ghost use Rattle.std.specs.Prelude.{◌≡◌, ◌⊎◌, Ok, Err, IfOk, IfErr, OnOk, OnErr};
ghost use Rattle.mr_model.specs.Replica.{Replica, opening};
ghost use Rattle.mr_model.specs.Tables.{tables_of};
ghost use Rattle.mr_part.specs.Answering.{NeverStore};
ghost use Rattle.mr_part.specs.Parts.{IsPartOf};
ghost use Rattle.mr_part.specs.ScopeOf.{scope_of};
ghost use Rattle.mr_replica.specs.Desk.{StandsFor};
ghost use Rattle.mr_tables.specs.Change.{changed};
ghost use Rattle.mr_tables.specs.Summary.{IsWithin};

use crate::Memory;
use mr_base::{Refusal, ServerId};
use mr_part::{Part, Scope};
use mr_tables::Change;
use std::alloc::Global;
use std::marker::Model;

/// The working value of one replica: its tables in memory. A call makes the part of them that it needs, takes the step of that
/// part, and makes the change in memory.
#[derive(Drop)]
pub struct Desk {
    pub(crate) memory: Memory,
}

impl Model for Desk {
    ghost use Rattle.mr_model.specs.Tables.{Tables as RowsOfTables};

    ghost Value = { RowsOfTables };

    ghost view = { λ d. d.memory };
}

impl Desk {
    /// The desk of a replica that knows nothing yet. It takes its memory from this allocator later, as it grows.
    pub fn new(alloc: Global, server: ServerId, primary: ServerId) -> Desk
        ensures tables { result ≡ tables_of (opening server primary) }
        ensures stands { StandsFor result (opening server primary) }
    {
        Desk {
            memory: Memory::opening(alloc, server, primary),
        }
    }

    /// The part of the tables for a call of this scope.
    pub(crate) fn part(&self, scope: &Scope<'_>) -> Result<Part, Refusal>
        ensures part { (a : Replica) → StandsFor self.now a → IfOk result (λ part. IsPartOf part (scope_of scope.now) a) }
        ensures only { (a : Replica) → StandsFor self.now a → IfErr result (λ e. e ≡ Refusal.OutOfMemory) }
        ensures own { (a : Replica) → StandsFor self.now a → NeverStore result }
        ensures within { IfOk result (λ part. IsWithin part.summary) }
    {
        self.memory.part_for(scope)
    }

    /// Makes the change.
    pub(crate) fn make(&mut self, change: &Change) -> Result<(), Refusal>
        ensures ok { OnOk result (self.new ≡ changed change.now self.old) }
        ensures err { OnErr result (self.new ≡ self.old) }
        ensures only { IfErr result (λ e. e ≡ Refusal.OutOfMemory) }
    {
        Ok(self.memory.apply(change)?)
    }

    /// Makes the change that a call of the part answered, and hands the answer on.
    pub(crate) fn changed_by<T: Drop>(
        &mut self,
        answer: Result<(T, Change), Refusal>,
    ) -> Result<(T, Change), Refusal>
        ensures made { IfOk result (λ done. (answer ≡ Ok done) × (self.new ≡ changed done.1 self.old)) }
        ensures err { OnErr result (self.new ≡ self.old) }
        ensures only { IfErr result (λ e. (answer ≡ Err e) ⊎ (e ≡ Refusal.OutOfMemory)) }
        ensures own { NeverStore answer → NeverStore result }
    {
        let (value, change) = answer?;
        self.make(&change)?;
        Ok((value, change))
    }

    /// The same of a call that answers its change alone.
    pub(crate) fn changed_so(&mut self, answer: Result<Change, Refusal>) -> Result<Change, Refusal>
        ensures made { IfOk result (λ change. (answer ≡ Ok change) × (self.new ≡ changed change self.old)) }
        ensures err { OnErr result (self.new ≡ self.old) }
        ensures only { IfErr result (λ e. (answer ≡ Err e) ⊎ (e ≡ Refusal.OutOfMemory)) }
        ensures own { NeverStore answer → NeverStore result }
    {
        let change = answer?;
        self.make(&change)?;
        Ok(change)
    }

    /// The same of a batch that was received.
    pub(crate) fn changed_by_batch(
        &mut self,
        answer: Result<(u64, u64, Change), Refusal>,
    ) -> Result<(u64, u64, Change), Refusal>
        ensures made { IfOk result (λ taken. (answer ≡ Ok taken) × (self.new ≡ changed taken.2 self.old)) }
        ensures err { OnErr result (self.new ≡ self.old) }
        ensures only { IfErr result (λ e. (answer ≡ Err e) ⊎ (e ≡ Refusal.OutOfMemory)) }
        ensures own { NeverStore answer → NeverStore result }
    {
        let (writes, commits, change) = answer?;
        self.make(&change)?;
        Ok((writes, commits, change))
    }
}
