ghost use Rattle.std.specs.Prelude.{◌≡◌, map, IfOk, IfErr};
ghost use Rattle.mr_model.specs.Replica.{Replica, IsReplica};
ghost use Rattle.mr_model.specs.Scopes.{Nothing, InRoom, OfTarget, NextCommits, UpTo, Above, OfItems};
ghost use Rattle.mr_model.specs.Tables.{Tables as RowsOfTables};
ghost use Rattle.mr_base.specs.Batches.{item_of};
ghost use Rattle.mr_part.specs.Parts.{HasRowsButBookings};
ghost use Rattle.mr_part.specs.RowTests.{IsWanted};
ghost use Rattle.mr_part.specs.ScopeOf.{scope_of};

use crate::Scope;
use crate::kept_rows::KeptRow;
use crate::room_sets::room_set;
use crate::scope::batch_scope::BatchScope;
use crate::scope::bookings::BookingTest;
use crate::scope::commits::{first_rows, ids_of, writes_of};
use crate::scope::logs::{LogTest, writes_where};
use mr_base::{Item, Refusal, RoomName, WriteId};
use mr_tables::Tables;
use std::alloc::Global;
use std::slice;

/// What a command needs of the rows of its tables, beside those of `meta`, `vector` and `room`.
#[derive(Drop)]
pub(crate) struct Wanted {
    /// The kept writes in scope, in the order of execution.
    pub kept: Vec<KeptRow>,
    /// Which bookings are in scope.
    pub bookings: BookingTest,
}

impl Wanted {
    /// What a command of this scope needs of these tables. Refused if a row of `log` in scope breaks its limits.
    pub(crate) fn of(alloc: Global, scope: &Scope<'_>, tables: &Tables) -> Result<Wanted, Refusal>
        ensures wanted { IfOk result (λ wanted. IsWanted wanted (scope_of scope.now) tables.now) }
        ensures only { (a : Replica) → IsReplica a → HasRowsButBookings tables.now (scope_of scope.now) a → IfErr result (λ e. e ≡ Refusal.OutOfMemory) }
    {
        match *scope {
            Scope::Nothing => Ok(Wanted::nothing(alloc)),
            Scope::InRoom(room) => Wanted::in_room(alloc, room),
            Scope::OfTarget(target) => Ok(Wanted::of_target(alloc, target)),
            Scope::NextCommits(count) => Wanted::next_commits(alloc, tables, count),
            Scope::UpTo(number) => Wanted::up_to(alloc, tables, number),
            Scope::Above(number) => Wanted::above(alloc, tables, number),
            Scope::Items(items) => Wanted::of_items(alloc, tables, items),
        }
    }

    /// A room is added, or the position is asked for.
    fn nothing(alloc: Global) -> Wanted
        ensures { (t : RowsOfTables) → IsWanted result Nothing t }
    {
        Wanted {
            kept: Vec::new(alloc),
            bookings: BookingTest::nothing(alloc),
        }
    }

    /// A submission.
    fn in_room(alloc: Global, room: &RoomName) -> Result<Wanted, Refusal>
        ensures wanted { (t : RowsOfTables) → IfOk result (λ wanted. IsWanted wanted (InRoom room.now) t) }
        ensures only { IfErr result (λ e. e ≡ Refusal.OutOfMemory) }
    {
        let rooms = room_set(alloc, slice::from_ref(room))?;
        Ok(Wanted {
            kept: Vec::new(alloc),
            bookings: BookingTest::in_rooms(alloc, rooms),
        })
    }

    /// A cancel.
    fn of_target(alloc: Global, target: WriteId) -> Wanted
        ensures { (t : RowsOfTables) → IsWanted result (OfTarget target) t }
    {
        Wanted {
            kept: Vec::new(alloc),
            bookings: BookingTest::of_target(alloc, target),
        }
    }

    /// A commit.
    fn next_commits(alloc: Global, tables: &Tables, count: u64) -> Result<Wanted, Refusal>
        ensures wanted { IfOk result (λ wanted. IsWanted wanted (NextCommits count) tables.now) }
        ensures only { (a : Replica) → IsReplica a → HasRowsButBookings tables.now (NextCommits count) a → IfErr result (λ e. e ≡ Refusal.OutOfMemory) }
    {
        let first = first_rows(alloc, &tables.log, count as usize)?;
        let kept = writes_of(alloc, &first)?;
        let taken = ids_of(alloc, &first)?;
        Ok(Wanted {
            kept,
            bookings: BookingTest::of_taken(alloc, taken),
        })
    }

    /// A truncation.
    fn up_to(alloc: Global, tables: &Tables, number: u64) -> Result<Wanted, Refusal>
        ensures wanted { IfOk result (λ wanted. IsWanted wanted (UpTo number) tables.now) }
        ensures only { (a : Replica) → IsReplica a → HasRowsButBookings tables.now (UpTo number) a → IfErr result (λ e. e ≡ Refusal.OutOfMemory) }
    {
        let kept = writes_where(alloc, &tables.log, &LogTest::UpTo(number))?;
        Ok(Wanted {
            kept,
            bookings: BookingTest::nothing(alloc),
        })
    }

    /// A batch for a position.
    fn above(alloc: Global, tables: &Tables, number: u64) -> Result<Wanted, Refusal>
        ensures wanted { IfOk result (λ wanted. IsWanted wanted (Above number) tables.now) }
        ensures only { (a : Replica) → IsReplica a → HasRowsButBookings tables.now (Above number) a → IfErr result (λ e. e ≡ Refusal.OutOfMemory) }
    {
        let kept = writes_where(alloc, &tables.log, &LogTest::Above(number))?;
        Ok(Wanted {
            kept,
            bookings: BookingTest::nothing(alloc),
        })
    }

    /// A batch that is received.
    fn of_items(alloc: Global, tables: &Tables, items: &[Item]) -> Result<Wanted, Refusal>
        ensures wanted { IfOk result (λ wanted. IsWanted wanted (OfItems (map item_of items.now)) tables.now) }
        ensures only { (a : Replica) → IsReplica a → HasRowsButBookings tables.now (OfItems (map item_of items.now)) a
            → IfErr result (λ e. e ≡ Refusal.OutOfMemory) }
    {
        let meta = tables.meta;
        let batch = BatchScope::of(alloc, items, &tables.log, meta.commits)?;
        let kept = writes_where(alloc, &tables.log, &LogTest::OfBatch(&batch))?;
        Ok(Wanted {
            kept,
            bookings: BookingTest::in_rooms(alloc, batch.rooms),
        })
    }
}
