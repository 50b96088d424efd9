ghost use Rattle.std.specs.Prelude.{◌≡◌, ◌-◌, false, ◌||◌, if◌then◌else◌, IfOk};
ghost use Rattle.mr_model.specs.Replica.{Replica};
ghost use Rattle.mr_model.specs.Tables.{Stands};
ghost use Rattle.mr_tables.specs.Summary.{IsWithin};
ghost use Rattle.mr_replica.specs.Desk.{StandsFor, IsWithinLimits};
ghost use Rattle.mr_part.specs.NextId.{id_given};
ghost use Rattle.mr_part.specs.Parts.{IsPartOf};
ghost use Rattle.mr_part.specs.ScopeOf.{scope_of};
ghost use Rattle.mr_replica.specs.Answers.{IsAnswerTo, IsNamedAs};
ghost use Rattle.mr_store.specs.KeeperCalls.{failures_for};
ghost use Rattle.mr_replica.specs.Taken.{is_id_taken};
ghost use Rattle.mr_store.specs.Trips.{is_due, IsTripped, IsQuietAt, IsAtomicAt};

use crate::{Answer, Fault, Keeper, Question};
use mr_part::{Part, Scope};
use mr_replica::Desk;
use mr_tables::{Change, Tables};

/// A keeper for tests, which fails once: it passes `left` calls on, answers the fault to the next one without passing it on,
/// and passes on all others.
#[derive(Drop)]
pub struct Tripped<K: Keeper> {
    keeper: K,
    left: u64,
    fault: Fault,
    is_over: bool,
}

impl<K: Keeper> Tripped<K> {
    /// This keeper, which is to fail after so many calls.
    pub fn new(keeper: K, left: u64, fault: Fault) -> Tripped<K>
        ensures { result ≡ record { keeper = keeper; left = left; fault = fault; is_over = false } }
    {
        Tripped {
            keeper,
            left,
            fault,
            is_over: false,
        }
    }

    /// Whether this is the call that fails.
    fn trips(&mut self) -> bool
        ensures at { result ≡ is_due self.old }
        ensures once { self.new.is_over ≡ (self.old.is_over || result) }
        ensures left { self.new.left ≡ self.old.left - 1 }
        ensures same { (self.new.keeper ≡ self.old.keeper) × (self.new.fault ≡ self.old.fault) }
    {
        let trips = !self.is_over && self.left == 0;
        self.is_over |= trips;
        self.left = self.left.saturating_sub(1);
        trips
    }
}

impl<K: Keeper> Keeper for Tripped<K> {
    ghost tables = { λ k. K.tables k.keeper };

    ghost failures = { λ k. if k.is_over then failures_for k.fault (K.failures k.keeper) else K.failures k.keeper };

    ghost is_clean = { λ k. K.is_clean k.keeper };

    ghost is_open = { λ k. K.is_open k.keeper };

    ghost may_leave = { λ k t. K.may_leave k.keeper t };

    ghost never_fails = { ⊥ };

    fn load(&mut self) -> Result<Desk, Fault>
        ensures quiet { IsQuietAt ⟦<Tripped<K> as Keeper>⟧ self.old self.new result }
        ensures loaded { K.is_clean self.new.keeper → K.is_open self.old.keeper → (a : Replica) → Stands (K.tables self.old.keeper) a → IfOk result (λ desk. StandsFor desk a) }
        ensures within { IfOk result IsWithinLimits }
        ensures trips { IsTripped self.old self.new result }
    {
        if self.trips() {
            return Err(self.fault);
        }
        self.keeper.load()
    }

    fn load_part(&mut self, scope: &Scope<'_>) -> Result<Part, Fault>
        ensures quiet { IsQuietAt ⟦<Tripped<K> as Keeper>⟧ self.old self.new result }
        ensures loaded { K.is_clean self.new.keeper → K.is_open self.old.keeper → (a : Replica) → Stands (K.tables self.old.keeper) a → IfOk result (λ part. IsPartOf part (scope_of scope.now) a) }
        ensures free { K.is_clean self.new.keeper → K.is_open self.old.keeper → IfOk result (λ part. is_id_taken (id_given (scope_of scope.now) part.summary) (K.tables self.old.keeper) ≡ false) }
        ensures within { IfOk result (λ part. IsWithin part.summary) }
        ensures trips { IsTripped self.old self.new result }
    {
        if self.trips() {
            return Err(self.fault);
        }
        self.keeper.load_part(scope)
    }

    fn query(&mut self, question: &Question<'_>) -> Result<Answer, Fault>
        ensures quiet { IsQuietAt ⟦<Tripped<K> as Keeper>⟧ self.old self.new result }
        ensures named { IfOk result (IsNamedAs question.now) }
        ensures answers { K.is_clean self.new.keeper → K.is_open self.old.keeper → IfOk result (IsAnswerTo question.now (K.tables self.old.keeper)) }
        ensures trips { IsTripped self.old self.new result }
    {
        if self.trips() {
            return Err(self.fault);
        }
        self.keeper.query(question)
    }

    fn read(&mut self) -> Result<Tables, Fault>
        ensures quiet { IsQuietAt ⟦<Tripped<K> as Keeper>⟧ self.old self.new result }
        ensures rows { K.is_clean self.new.keeper → K.is_open self.old.keeper → IfOk result (λ rows. rows ≡ K.tables self.old.keeper) }
        ensures trips { IsTripped self.old self.new result }
    {
        if self.trips() {
            return Err(self.fault);
        }
        self.keeper.read()
    }

    fn apply(&mut self, change: &Change) -> Result<(), Fault>
        ensures atomic { IsAtomicAt ⟦<Tripped<K> as Keeper>⟧ change.now self.old self.new result }
        ensures trips { IsTripped self.old self.new result }
    {
        if self.trips() {
            return Err(self.fault);
        }
        self.keeper.apply(change)
    }
}
