// A keeper whose store is full: no change is made any more. Over it, rows in memory are read once, however many changes fail.

ghost use Rattle.std.specs.Prelude.{◌≡◌};

use crate::changes::first_change;
use crate::keepers::opening;
use crate::same::same;
use mr_base::Refusal;
use mr_part::{Part, Scope};
use mr_replica::Desk;
use mr_store::{Answer, Cached, Fault, Keeper, ListKeeper, Question};
use mr_tables::{Change, Tables};
use std::alloc::Global;

/// A keeper over lists, which refuses each change as a failure of the store, and counts how often all rows are read. It passes all other
/// calls on.
#[derive(Drop)]
struct Full {
    lists: ListKeeper,
    failures: u64,
    reads: u32,
}

impl Keeper for Full {
    ghost use Rattle.std.specs.Prelude.{◌≡◌, ◌+◌};

    ghost tables = { λ k. k.lists.tables };

    ghost failures = { λ k. k.lists.failures + k.failures };

    ghost is_clean = { λ k. Unit {0} };

    ghost is_open = { λ k. Unit {0} };

    ghost may_leave = { λ k t. t ≡ k.lists.tables };

    ghost never_fails = { ⊥ };

    fn load(&mut self) -> Result<Desk, Fault> {
        self.lists.load()
    }

    fn load_part(&mut self, scope: &Scope<'_>) -> Result<Part, Fault> {
        self.lists.load_part(scope)
    }

    fn query(&mut self, question: &Question<'_>) -> Result<Answer, Fault> {
        self.lists.query(question)
    }

    fn read(&mut self) -> Result<Tables, Fault> {
        self.reads = self.reads.saturating_add(1);
        self.lists.read()
    }

    fn apply(&mut self, _change: &Change) -> Result<(), Fault> {
        Err(Fault::counted(&mut self.failures))
    }
}

/// How many of three changes fail, each behind a part that is loaded for it.
fn failed_changes<K: Keeper>(keeper: &mut K, change: &Change) -> u32 {
    let mut count: u32 = 0;
    for _ in 0..3 {
        let part = keeper.load_part(&Scope::Nothing);
        let answer = keeper.apply(change);
        if part.is_ok() && answer.is_err() {
            count = count.saturating_add(1);
        }
    }
    count
}

/// How many changes fail of a keeper with its rows in memory, and how often the one below it has read all rows then.
fn failures_and_reads(alloc: Global, lists: ListKeeper) -> Result<(u32, u32), Refusal> {
    let change = first_change(alloc)?;
    let mut keeper = Cached::new(
        alloc,
        Full {
            lists,
            failures: 0,
            reads: 0,
        },
    );
    let count = failed_changes(&mut keeper, &change);
    Ok((count, keeper.release().reads))
}

#[test]
fn rows_are_read_once_though_changes_fail(rt: HostRuntime) {
    let alloc = rt.alloc();
    let found = failures_and_reads(alloc, opening(&rt, alloc));
    same(&rt, &found, &Ok((3, 1)), "changes that fail, and reads");
}
