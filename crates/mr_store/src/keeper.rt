ghost use Rattle.std.specs.Prelude.{◌≡◌, ◌≢◌, ◌<◌, ℕ, false, Ok, IfOk, IfErr, IsErr, OnErr};
ghost use Rattle.std.specs.List.Sorted.{IsPermutation};
ghost use Rattle.mr_model.specs.Replica.{Replica};
ghost use Rattle.mr_model.specs.Tables.{Tables, Stands};
ghost use Rattle.mr_tables.specs.Summary.{IsWithin};
ghost use Rattle.mr_replica.specs.Desk.{StandsFor, IsWithinLimits};
ghost use Rattle.mr_part.specs.NextId.{id_given};
ghost use Rattle.mr_part.specs.Parts.{IsPartOf};
ghost use Rattle.mr_part.specs.ScopeOf.{scope_of};
ghost use Rattle.mr_replica.specs.Answers.{IsAnswerTo, IsNamedAs};
ghost use Rattle.mr_store.specs.KeeperCalls.{failures_for, fault_refusal, IsAtomic, IsQuiet};
ghost use Rattle.mr_store.specs.declared.keeper.Fault.{Fault};
ghost use Rattle.mr_replica.specs.Picked.{picked_errors, picked_cancelled, picked_cancels, AreBookings, IsPlaceOf};
ghost use Rattle.mr_replica.specs.Taken.{is_id_taken};

use crate::{Answer, Question};
use mr_base::{Day, Refusal, RoomName, WriteId};
use mr_part::{Part, Scope};
use mr_replica::Desk;
use mr_tables::{BookingRow, CancelRow, CancelledRow, Change, ErrorRow, PlaceRow, Tables};
use std::alloc::AllocError;

/// Why a keeper answers nothing.
#[derive(Clone, Copy, Debug, PartialEq, Eq)]
pub enum Fault {
    /// There was no memory.
    OutOfMemory,
    /// The store failed for another cause, or its rows break their rules.
    Store,
}

impl From<AllocError> for Fault {
    ghost from_gives = { λ _ fault. fault ≡ Fault.OutOfMemory };

    fn from(_error: AllocError) -> Fault {
        Fault::OutOfMemory
    }
}

impl From<Fault> for Refusal {
    ghost from_gives = { λ fault refusal. refusal ≡ fault_refusal fault };

    /// The refusal that tells of it.
    fn from(fault: Fault) -> Refusal {
        match fault {
            Fault::OutOfMemory => Refusal::OutOfMemory,
            Fault::Store => Refusal::Store,
        }
    }
}

impl Fault {
    /// A failure of the store, which is counted. If the count is full it is reported as out of memory.
    pub fn counted(failures: &mut u64) -> Fault
        ensures counted { failures.new ≡ failures_for result failures.old }
        ensures store { failures.old < 18_446_744_073_709_551_615 → result ≡ Fault.Store }
    {
        if *failures == u64::MAX {
            return Fault::OutOfMemory;
        }
        *failures += 1;
        Fault::Store
    }
}

/// The answer, where a refusal of tables is the fault that tells of it: out of memory, or that their rows break their rules.
pub(crate) fn told<T>(answer: Result<T, Refusal>) -> Result<T, Fault>
    ensures ok { IfOk answer (λ x. result ≡ Ok x) }
    ensures err { OnErr answer (IsErr result) }
    ensures memory { IfErr answer (λ e. e ≡ Refusal.OutOfMemory) → IfErr result (λ e. e ≡ Fault.OutOfMemory) }
    ensures store { IfErr answer (λ e. e ≢ Refusal.OutOfMemory) → IfErr result (λ e. e ≡ Fault.Store) }
{
    match answer {
        Ok(found) => Ok(found),
        Err(Refusal::OutOfMemory) => Err(Fault::OutOfMemory),
        Err(_) => Err(Fault::Store),
    }
}

/// What holds a replica's tables. Contracts see it as the tables; a call that is refused leaves them as they are, unless
/// the failure shuts the keeper. An `impl` has five calls; the trait makes the others of `query`.
pub trait Keeper {
    ghost tables: { Self → Tables };

    // how many calls have answered that the store failed
    ghost failures: { Self → ℕ };

    // nobody else has written the store, and it has returned what was written
    ghost is_clean: { Self → Type 0 };

    // no failure of the store has shut it
    ghost is_open: { Self → Type 0 };

    // what a crash at this moment may leave
    ghost may_leave: { Self → Tables → Type 0 };

    // it never answers that the store failed, if its tables stand for a replica
    ghost never_fails: { Type 0 };

    /// The desk with these tables.
    fn load(&mut self) -> Result<Desk, Fault>
        ensures quiet { IsQuiet tables failures is_clean is_open may_leave never_fails self.old self.new result }
        ensures loaded { is_clean self.new → is_open self.old → (a : Replica) → Stands (tables self.old) a → IfOk result (λ desk. StandsFor desk a) }
        ensures within { IfOk result IsWithinLimits };

    /// The part of the tables that a command of this scope needs. If a row has the id that the command would give, as no replica's
    /// tables have, it is refused as a failure of the store.
    fn load_part(&mut self, scope: &Scope<'_>) -> Result<Part, Fault>
        ensures quiet { IsQuiet tables failures is_clean is_open may_leave never_fails self.old self.new result }
        ensures loaded { is_clean self.new → is_open self.old → (a : Replica) → Stands (tables self.old) a → IfOk result (λ part. IsPartOf part (scope_of scope.now) a) }
        ensures free { is_clean self.new → is_open self.old → IfOk result (λ part. is_id_taken (id_given (scope_of scope.now) part.summary) (tables self.old) ≡ false) }
        ensures within { IfOk result (λ part. IsWithin part.summary) };

    /// What the tables answer to the question, in the variant of its name.
    fn query(&mut self, question: &Question<'_>) -> Result<Answer, Fault>
        ensures quiet { IsQuiet tables failures is_clean is_open may_leave never_fails self.old self.new result }
        ensures named { IfOk result (IsNamedAs question.now) }
        ensures answers { is_clean self.new → is_open self.old → IfOk result (IsAnswerTo question.now (tables self.old)) };

    /// All rows of all tables.
    fn read(&mut self) -> Result<Tables, Fault>
        ensures quiet { IsQuiet tables failures is_clean is_open may_leave never_fails self.old self.new result }
        ensures rows { is_clean self.new → is_open self.old → IfOk result (λ rows. rows ≡ tables self.old) };

    /// Makes the whole change, or nothing.
    fn apply(&mut self, change: &Change) -> Result<(), Fault>
        ensures atomic { IsAtomic tables failures is_clean is_open may_leave never_fails change.now self.old self.new result };

    /// The known rooms, in any order.
    fn rooms(&mut self) -> Result<Vec<RoomName>, Fault>
        ensures quiet { IsQuiet tables failures is_clean is_open may_leave never_fails self.old self.new result }
        ensures rooms { is_clean self.new → is_open self.old → IfOk result (λ rooms. IsPermutation (tables self.old).room rooms.items) }
    {
        match self.query(&Question::Rooms)? {
            Answer::Rooms(rooms) => Ok(rooms),
            _ => unreachable!(),
        }
    }

    /// The bookings of a room, of a day or of all days, by day, start, server and count.
    fn bookings(&mut self, room: &RoomName, day: Option<Day>) -> Result<Vec<BookingRow>, Fault>
        ensures quiet { IsQuiet tables failures is_clean is_open may_leave never_fails self.old self.new result }
        ensures bookings { is_clean self.new → is_open self.old → IfOk result (λ rows. AreBookings room.now day (tables self.old) rows.items) }
    {
        match self.query(&Question::Bookings(room, day))? {
            Answer::Bookings(rows) => Ok(rows),
            _ => unreachable!(),
        }
    }

    /// The row of the write with this id, if it is of that room.
    fn place_of(&mut self, room: &RoomName, id: WriteId) -> Result<Option<PlaceRow>, Fault>
        ensures quiet { IsQuiet tables failures is_clean is_open may_leave never_fails self.old self.new result }
        ensures place { is_clean self.new → is_open self.old → IfOk result (λ row. IsPlaceOf room.now id (tables self.old) row) }
    {
        match self.query(&Question::PlaceOf(room, id))? {
            Answer::PlaceOf(row) => Ok(row),
            _ => unreachable!(),
        }
    }

    /// The error log's rows of a room, in any order.
    fn errors(&mut self, room: &RoomName) -> Result<Vec<ErrorRow>, Fault>
        ensures quiet { IsQuiet tables failures is_clean is_open may_leave never_fails self.old self.new result }
        ensures errors { is_clean self.new → is_open self.old → IfOk result (λ rows. IsPermutation (picked_errors room.now (tables self.old)) rows.items) }
    {
        match self.query(&Question::Errors(room))? {
            Answer::Errors(rows) => Ok(rows),
            _ => unreachable!(),
        }
    }

    /// The rows of a room's bookings that a cancel took back, in any order.
    fn cancelled(&mut self, room: &RoomName) -> Result<Vec<CancelledRow>, Fault>
        ensures quiet { IsQuiet tables failures is_clean is_open may_leave never_fails self.old self.new result }
        ensures cancelled { is_clean self.new → is_open self.old → IfOk result (λ rows. IsPermutation (picked_cancelled room.now (tables self.old)) rows.items) }
    {
        match self.query(&Question::Cancelled(room))? {
            Answer::Cancelled(rows) => Ok(rows),
            _ => unreachable!(),
        }
    }

    /// The rows of a room's cancels, in any order.
    fn cancels(&mut self, room: &RoomName) -> Result<Vec<CancelRow>, Fault>
        ensures quiet { IsQuiet tables failures is_clean is_open may_leave never_fails self.old self.new result }
        ensures cancels { is_clean self.new → is_open self.old → IfOk result (λ rows. IsPermutation (picked_cancels room.now (tables self.old)) rows.items) }
    {
        match self.query(&Question::Cancels(room))? {
            Answer::Cancels(rows) => Ok(rows),
            _ => unreachable!(),
        }
    }
}
