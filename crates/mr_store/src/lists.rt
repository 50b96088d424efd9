ghost use Rattle.std.specs.Prelude.{◌≡◌, Ok, IfErr, IfOk, IsErr, OnErr};
ghost use Rattle.mr_model.specs.Replica.{opening};
ghost use Rattle.mr_model.specs.Tables.{tables_of, Stands};
ghost use Rattle.mr_store.specs.KeeperCalls.{failures_after};
ghost use Rattle.mr_replica.specs.Ordered.{IsDueOver};
ghost use Rattle.mr_store.specs.KeeperLists.{ListsView};

use crate::keeper::told;
use crate::{Answer, Fault, Keeper, Question};
use mr_base::{Refusal, ServerId};
use mr_part::{Part, Scope};
use mr_replica::{Desk, Memory};
use mr_tables::{Change, Tables};
use std::alloc::Global;
use std::marker::Model;

/// The keeper with its tables in memory alone.
#[derive(Drop)]
pub struct ListKeeper {
    memory: Memory,
    failures: u64,
}

impl Model for ListKeeper {
    ghost Value = { ListsView };

    ghost view = { λ k. record { tables = k.memory; failures = k.failures } };
}

impl ListKeeper {
    /// The tables of a replica that knows nothing yet. It takes its memory from this allocator later, as they grow.
    pub fn new(alloc: Global, server: ServerId, primary: ServerId) -> ListKeeper
        ensures tables { result.tables ≡ tables_of (opening server primary) }
        ensures failures { result.failures ≡ 0 }
        ensures stands { Stands result.tables (opening server primary) }
    {
        ListKeeper {
            memory: Memory::opening(alloc, server, primary),
            failures: 0,
        }
    }

    /// These tables, whatever they stand for. It is refused with 25 if the rows of a table aren't in the order of their keys, and else
    /// only with 24, out of memory.
    pub fn over(alloc: Global, tables: Tables) -> Result<ListKeeper, Refusal>
        ensures over { IfOk result (λ keeper. keeper ≡ record { tables = tables; failures = 0 }) }
        ensures due { IfErr result (IsDueOver tables) }
    {
        Ok(ListKeeper {
            memory: Memory::over(alloc, tables)?,
            failures: 0,
        })
    }
}

/// The answer; that the store failed is counted. If the count is full it is reported as out of memory.
fn counted<T>(answer: Result<T, Fault>, failures: &mut u64) -> Result<T, Fault>
    ensures ok { IfOk answer (λ x. result ≡ Ok x) }
    ensures err { OnErr answer (IsErr result) }
    ensures counted { failures.new ≡ failures_after result failures.old }
    ensures memory { IfErr answer (λ e. e ≡ Fault.OutOfMemory) → failures.new ≡ failures.old }
{
    match answer {
        Ok(found) => Ok(found),
        Err(Fault::OutOfMemory) => Err(Fault::OutOfMemory),
        Err(Fault::Store) => Err(Fault::counted(failures)),
    }
}

impl Keeper for ListKeeper {
    ghost tables = { λ k. k.tables };

    ghost failures = { λ k. k.failures };

    ghost is_clean = { λ k. Unit {0} };

    ghost is_open = { λ k. Unit {0} };

    ghost may_leave = { λ k t. t ≡ k.tables };

    ghost never_fails = { Unit {0} };

    fn load(&mut self) -> Result<Desk, Fault> {
        counted(told(self.memory.load()), &mut self.failures)
    }

    fn load_part(&mut self, scope: &Scope<'_>) -> Result<Part, Fault> {
        self.memory.want_board(scope);
        counted(told(self.memory.load_part(scope)), &mut self.failures)
    }

    fn query(&mut self, question: &Question<'_>) -> Result<Answer, Fault> {
        Ok(self.memory.query(question)?)
    }

    fn read(&mut self) -> Result<Tables, Fault> {
        Ok(self.memory.read()?)
    }

    fn apply(&mut self, change: &Change) -> Result<(), Fault> {
        Ok(self.memory.apply(change)?)
    }
}
