ghost use Rattle.std.specs.Prelude.{◌≡◌, ℕ, true, false, IfOk, OnOk, OnErr};
ghost use Rattle.mr_store.specs.KeeperCalls.{failures_after, IsAtomic};
ghost use Rattle.mr_store.specs.Cached.{IsConfirmed, IsMemoryAfter, IsMemoryOf, IsOpenWith, IsRecall, NeverFails};

use crate::keeper::told;
use crate::{Answer, Fault, Keeper, Question};
use mr_part::{Part, Scope};
use mr_replica::{Desk, Memory};
use mr_tables::{Change, Tables};
use std::alloc::Global;
use std::marker::Model;

/// A keeper with its rows in memory, a write-through cache. What is asked is answered from memory, and a change is made in the keeper
/// first and then in memory: so once its rows are read, the keeper is only written.
///
/// The rows are read at the first question. They are forgotten if memory doesn't take a change, and if they break their rules: then the
/// keeper itself is asked, so that it counts the failure. A change that fails leaves them as they are, but may have shut the keeper: so they
/// are asked again only once the keeper has answered a small question. If memory doesn't take the keeper's
/// answer, that call is refused, and from then on the keeper itself is asked, which wants less; so it is asked if memory doesn't take the
/// rows as maps, or if they aren't in the order of their keys.
#[derive(Drop)]
pub struct Cached<K: Keeper> {
    alloc: Global,
    keeper: K,
    memory: Option<Memory>,
    is_passed_over: bool,
    /// The last change failed, and the keeper has answered nothing since.
    is_doubted: bool,
}

impl<K: Keeper> Model for Cached<K> {
    ghost Value = { K };

    ghost coded = { K.code };

    ghost view = { λ c. c.keeper };

    ghost invariant = { λ c. IsMemoryOf K.Keeper c.keeper c.memory × (c.is_doubted ≡ false → IsOpenWith K.Keeper c.keeper c.memory) };
}

impl<K: Keeper> Cached<K> {
    /// The keeper, of which nothing is in memory yet. It takes the memory of the rows from this allocator.
    pub fn new(alloc: Global, keeper: K) -> Cached<K>
        ensures { result ≡ keeper }
    {
        Cached {
            alloc,
            keeper,
            memory: None,
            is_passed_over: false,
            is_doubted: false,
        }
    }

    /// The keeper, with all that was done.
    pub fn release(self) -> K
        ensures { result ≡ self }
    {
        self.keeper
    }

    /// Takes the rows out of memory, or reads them if they aren't there. It is None if the keeper itself is to be asked.
    fn recall(&mut self) -> Result<Option<Memory>, Fault>
        ensures recall { IsRecall K.Keeper self.old self.new result }
        ensures rows { IfOk result (λ memory. IsMemoryOf K.Keeper self.new memory) }
        ensures open { IfOk result (λ memory. IsOpenWith K.Keeper self.new memory) }
    {
        match confirm(&mut self.keeper, &mut self.is_doubted) {
            Ok(()) => match self.memory.take() {
                Some(memory) => Ok(Some(memory)),
                None => read_rows(self.alloc, &mut self.keeper, &mut self.is_passed_over),
            },
            Err(fault) => Err(fault),
        }
    }
}

/// After a change that failed, asks the keeper for the rooms: one that the failure shut refuses that, and counts it.
fn confirm<K: Keeper>(keeper: &mut K, is_doubted: &mut bool) -> Result<(), Fault>
    ensures recall { IsRecall K.Keeper keeper.old keeper.new result }
    ensures confirmed { OnOk result (IsConfirmed K.Keeper keeper.old is_doubted.old keeper.new) }
    ensures doubted { OnErr result (is_doubted.new ≡ true) }
{
    if *is_doubted {
        if let Err(fault) = keeper.query(&Question::Rooms) {
            return Err(fault);
        }
        *is_doubted = false;
    }
    Ok(())
}

/// All rows, or None if the keeper itself is to be asked.
fn read_rows<K: Keeper>(
    alloc: Global,
    keeper: &mut K,
    is_passed_over: &mut bool,
) -> Result<Option<Memory>, Fault>
    ensures recall { IsRecall K.Keeper keeper.old keeper.new result }
    ensures rows { IfOk result (λ memory. IsMemoryOf K.Keeper keeper.new memory) }
    ensures open { IfOk result (λ memory. IsOpenWith K.Keeper keeper.new memory) }
{
    if *is_passed_over {
        return Ok(None);
    }
    match keeper.read() {
        Ok(tables) => {
            let memory = Memory::over(alloc, tables).ok();
            *is_passed_over = memory.is_none();
            Ok(memory)
        }
        Err(fault) => {
            *is_passed_over = fault == Fault::OutOfMemory;
            Err(fault)
        }
    }
}

/// Makes the change in the keeper first and then in the rows in memory. If the keeper fails to make it, they stay.
fn write_through<K: Keeper>(
    keeper: &mut K,
    memory: &mut Option<Memory>,
    change: &Change,
) -> Result<(), Fault>
    ensures atomic { IsAtomic K.tables K.failures K.is_clean K.is_open K.may_leave K.never_fails change.now keeper.old keeper.new result }
    ensures made { OnOk result (IsMemoryAfter change.now memory.old memory.new) }
    ensures kept { OnErr result (memory.new ≡ memory.old) }
{
    keeper.apply(change)?;
    *memory = change_memory(memory.take(), change);
    Ok(())
}

/// Makes the change in the rows in memory, if there are any. If memory doesn't take it, they are forgotten.
fn change_memory(memory: Option<Memory>, change: &Change) -> Option<Memory>
    ensures { IsMemoryAfter change.now memory result }
{
    let mut memory = memory?;
    memory.apply(change).ok()?;
    Some(memory)
}

/// Whether the store failed.
fn is_failure<T>(answer: &Result<T, Fault>) -> bool
    ensures { result ≡ false → (n : ℕ) → failures_after answer.now n ≡ n }
{
    match answer {
        Ok(_) | Err(Fault::OutOfMemory) => false,
        Err(Fault::Store) => true,
    }
}

impl<K: Keeper> Keeper for Cached<K> {
    ghost tables = { λ c. K.tables c };

    ghost failures = { λ c. K.failures c };

    ghost is_clean = { λ c. K.is_clean c };

    ghost is_open = { λ c. K.is_open c };

    ghost may_leave = { λ c t. K.may_leave c t };

    ghost never_fails = { NeverFails K.Keeper };

    fn load(&mut self) -> Result<Desk, Fault> {
        let Some(memory) = self.recall()? else {
            self.memory = None;
            return self.keeper.load();
        };
        let loaded = memory.load();
        let answer = told(loaded);
        if is_failure(&answer) {
            self.memory = None;
            return self.keeper.load();
        }
        self.memory = Some(memory);
        answer
    }

    fn load_part(&mut self, scope: &Scope<'_>) -> Result<Part, Fault> {
        let Some(mut memory) = self.recall()? else {
            self.memory = None;
            return self.keeper.load_part(scope);
        };
        memory.want_board(scope);
        let loaded = memory.load_part(scope);
        let answer = told(loaded);
        if is_failure(&answer) {
            self.memory = None;
            return self.keeper.load_part(scope);
        }
        self.memory = Some(memory);
        answer
    }

    fn query(&mut self, question: &Question<'_>) -> Result<Answer, Fault> {
        let Some(memory) = self.recall()? else {
            self.memory = None;
            return self.keeper.query(question);
        };
        let answer = memory.query(question);
        self.memory = Some(memory);
        Ok(answer?)
    }

    fn read(&mut self) -> Result<Tables, Fault> {
        let Some(memory) = self.recall()? else {
            self.memory = None;
            return self.keeper.read();
        };
        let answer = memory.read();
        self.memory = Some(memory);
        Ok(answer?)
    }

    fn apply(&mut self, change: &Change) -> Result<(), Fault> {
        let answer = write_through(&mut self.keeper, &mut self.memory, change);
        self.is_doubted = answer.is_err();
        answer
    }
}
