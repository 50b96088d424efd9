ghost use Rattle.std.specs.Prelude.{◌≡◌};

use mr_part::{Part, Scope};
use mr_replica::Desk;
use mr_store::{Answer, Fault, Keeper, ListKeeper, Question};
use mr_tables::{Change, Tables};

/// A keeper over lists, which loads no desk: to ask for one is answered as a failure of the store. It passes all other calls on.
#[derive(Drop)]
pub(crate) struct WithoutDesk {
    lists: ListKeeper,
    failures: u64,
}

impl WithoutDesk {
    /// These lists, and no answer 25 so far but theirs.
    pub(crate) fn new(lists: ListKeeper) -> WithoutDesk
        ensures { result ≡ record { lists = lists; failures = 0 } }
    {
        WithoutDesk { lists, failures: 0 }
    }
}

impl Keeper for WithoutDesk {
    ghost use Rattle.std.specs.Prelude.{◌≡◌, ◌+◌};

    ghost tables = { λ k. k.lists.tables };

    ghost failures = { λ k. k.lists.failures + k.failures };

    ghost is_clean = { λ k. Unit {0} };

    ghost is_open = { λ k. Unit {0} };

    ghost may_leave = { λ k t. t ≡ k.lists.tables };

    ghost never_fails = { ⊥ };

    fn load(&mut self) -> Result<Desk, Fault> {
        Err(Fault::counted(&mut self.failures))
    }

    fn load_part(&mut self, scope: &Scope<'_>) -> Result<Part, Fault> {
        self.lists.load_part(scope)
    }

    fn query(&mut self, question: &Question<'_>) -> Result<Answer, Fault> {
        self.lists.query(question)
    }

    fn read(&mut self) -> Result<Tables, Fault> {
        self.lists.read()
    }

    fn apply(&mut self, change: &Change) -> Result<(), Fault> {
        self.lists.apply(change)
    }
}
