ghost use Rattle.std.specs.Prelude.{◌≡◌, ◌⊎◌, ◌&&◌, ◌-◌, min, true, false, Err, IfOk, IfErr};
ghost use Rattle.mr_model.specs.Replica.{Replica, IsReplica};
ghost use Rattle.mr_model.specs.Scopes.{Above, Nothing};
ghost use Rattle.mr_model.specs.Tables.{tables_of};
ghost use Rattle.mr_agree.specs.Agreeing.{does_meta_agree, do_counts_agree};
ghost use Rattle.mr_tables.specs.Summary.{IsWithin, summary_of};
ghost use Rattle.mr_tables.specs.Boards.{board_of};
ghost use Rattle.mr_part.specs.Parts.{HasRowsInScope, IsLogOf, IsPartOf, HasRowsButBookings, goes_by_rooms};
ghost use Rattle.mr_part.specs.RowTests.{IsWanted};
ghost use Rattle.mr_part.specs.ScopeOf.{scope_of};

use crate::kept_rows::{KeptRow, of_store};
use crate::scope::board::board_where;
use crate::scope::bookings::BookingTest;
use crate::scope::wanted::Wanted;
use crate::seen_log::SeenLog;
use crate::{Part, Scope};
use mr_base::{Item, Refusal, RoomName};
use mr_replay::{Board, SeenBoard};
use mr_tables::Tables;
use mr_tables::numbers::do_numbers_agree;
use mr_tables::rooms::copies_of;
use mr_tables::summary::Summary;
use mr_tables::vector::summary_of;
use std::alloc::Global;
use std::rc::Rc;

impl Part {
    /// The part for a command of this scope. Of `log`, `booking`, `errorlog` and `cancelled` only the rows in scope have to be there;
    /// what other rows of the replica there are doesn't matter. Refused as the store's fault if a row in scope breaks its limits,
    /// if the numbers are beyond the limits of positions, or if those of `meta` and `vector` contradict each other.
    pub fn from_tables(alloc: Global, scope: &Scope<'_>, tables: &Tables) -> Result<Part, Refusal>
        ensures part { (a : Replica) → IsReplica a → HasRowsInScope tables.now (scope_of scope.now) a
            → IfOk result (λ part. IsPartOf part (scope_of scope.now) a) }
        ensures only { (a : Replica) → IsReplica a → HasRowsInScope tables.now (scope_of scope.now) a
            → IfErr result (λ e. e ≡ Refusal.OutOfMemory) }
        ensures within { IfOk result (λ part. IsWithin part.summary) }
        ensures numbers { IfOk result (λ part. (does_meta_agree tables.now && do_counts_agree tables.now) ≡ true) }
        // Numbers that contradict each other are refused without memory.
        ensures due { (does_meta_agree tables.now && do_counts_agree tables.now) ≡ false → result ≡ Err Refusal.Store }
        ensures cause { IfErr result (λ e. (e ≡ Refusal.OutOfMemory) ⊎ (e ≡ Refusal.Store)) }
    {
        let (summary, rooms, wanted) = rows_in_scope(alloc, scope, tables)?;
        let Wanted { kept, bookings } = wanted;
        match board_where(alloc, tables, &bookings) {
            Ok(board) => Ok(Part {
                alloc,
                summary,
                rooms,
                kept: SeenLog::own(kept),
                board: SeenBoard::all(board),
            }),
            Err(refusal) => Err(of_store(refusal)),
        }
    }

    /// The part for a command of this scope, if the scope's bookings are those of rooms: they are seen on this board, which has all
    /// bookings, and none is copied. Of the tables only the numbers, the rooms and the rows of `log` in scope have to be there.
    /// Refused as `from_tables` refuses.
    pub fn over_board(
        alloc: Global,
        scope: &Scope<'_>,
        tables: &Tables,
        board: Rc<Board>,
    ) -> Result<Part, Refusal>
        ensures part { (a : Replica) → IsReplica a → goes_by_rooms (scope_of scope.now) ≡ true → HasRowsButBookings tables.now (scope_of scope.now) a
            → board.value ≡ board_of (tables_of a) → IfOk result (λ part. IsPartOf part (scope_of scope.now) a) }
        ensures only { (a : Replica) → IsReplica a → HasRowsButBookings tables.now (scope_of scope.now) a
            → IfErr result (λ e. e ≡ Refusal.OutOfMemory) }
        ensures within { IfOk result (λ part. IsWithin part.summary) }
        ensures numbers { IfOk result (λ part. (does_meta_agree tables.now && do_counts_agree tables.now) ≡ true) }
        // Numbers that contradict each other are refused without memory.
        ensures due { (does_meta_agree tables.now && do_counts_agree tables.now) ≡ false → result ≡ Err Refusal.Store }
        ensures cause { IfErr result (λ e. (e ≡ Refusal.OutOfMemory) ⊎ (e ≡ Refusal.Store)) }
    {
        let (summary, rooms, wanted) = rows_in_scope(alloc, scope, tables)?;
        let Wanted { kept, bookings } = wanted;
        let BookingTest { rooms: seen, .. } = bookings;
        Ok(Part {
            alloc,
            summary,
            rooms,
            kept: SeenLog::own(kept),
            board: SeenBoard::in_rooms(board, seen),
        })
    }

    /// The part for a batch for a position with so many commits: the writes above them are seen on this log, which has all kept writes,
    /// and none is copied. Of the tables only the numbers and the rooms have to be there. Refused as `from_tables` refuses.
    pub fn over_log(
        alloc: Global,
        commits: u64,
        tables: &Tables,
        log: Rc<Vec<KeptRow>>,
    ) -> Result<Part, Refusal>
        ensures part { (a : Replica) → IsReplica a → HasRowsButBookings tables.now Nothing a → IsLogOf log.value.items a → IfOk result (λ part. IsPartOf part (Above commits) a) }
        ensures only { (a : Replica) → IsReplica a → HasRowsButBookings tables.now Nothing a → IfErr result (λ e. e ≡ Refusal.OutOfMemory) }
        ensures within { IfOk result (λ part. IsWithin part.summary) }
        ensures numbers { IfOk result (λ part. (does_meta_agree tables.now && do_counts_agree tables.now) ≡ true) }
        // Numbers that contradict each other are refused without memory.
        ensures due { (does_meta_agree tables.now && do_counts_agree tables.now) ≡ false → result ≡ Err Refusal.Store }
        ensures cause { IfErr result (λ e. (e ≡ Refusal.OutOfMemory) ⊎ (e ≡ Refusal.Store)) }
    {
        // For the prover alone: a scope may hold items.
        let _none: Option<&Item> = None;
        let (summary, rooms, _) = rows_in_scope(alloc, &Scope::Nothing, tables)?;
        let first = known_in(&summary, commits);
        Ok(Part {
            alloc,
            summary,
            rooms,
            kept: SeenLog::behind(log, first),
            board: SeenBoard::all(Board::new(alloc)),
        })
    }
}

/// How many of the kept writes are commits up to this number; they are the first.
fn known_in(summary: &Summary, commits: u64) -> usize
    ensures { result ≡ min (commits - summary.now.dropped) (summary.now.commits - summary.now.dropped) }
{
    let known = commits.min(summary.commits);
    known.saturating_sub(summary.dropped) as usize
}

/// The numbers, the rooms and what the command needs of the other rows. Refused as the store's fault if a row of `log` in scope breaks its
/// limits, or if the numbers are beyond the limits of positions or contradict each other.
fn rows_in_scope(
    alloc: Global,
    scope: &Scope<'_>,
    tables: &Tables,
) -> Result<(Summary, Vec<RoomName>, Wanted), Refusal>
    ensures rows { (a : Replica) → IsReplica a → HasRowsButBookings tables.now (scope_of scope.now) a
        → IfOk result (λ rows. (rows.0 ≡ summary_of a) × (rows.1.items ≡ a.rooms)) }
    ensures wanted { IfOk result (λ rows. IsWanted rows.2 (scope_of scope.now) tables.now) }
    ensures only { (a : Replica) → IsReplica a → HasRowsButBookings tables.now (scope_of scope.now) a → IfErr result (λ e. e ≡ Refusal.OutOfMemory) }
    ensures within { IfOk result (λ rows. IsWithin rows.0) }
    ensures numbers { IfOk result (λ _. (does_meta_agree tables.now && do_counts_agree tables.now) ≡ true) }
    ensures due { (does_meta_agree tables.now && do_counts_agree tables.now) ≡ false → result ≡ Err Refusal.Store }
    ensures cause { IfErr result (λ e. (e ≡ Refusal.OutOfMemory) ⊎ (e ≡ Refusal.Store)) }
{
    let summary = summary_of(tables);
    if !do_numbers_agree(tables) || !summary.is_within() {
        return Err(Refusal::Store);
    }
    match Wanted::of(alloc, scope, tables) {
        Ok(wanted) => Ok((summary, copies_of(alloc, &tables.room)?, wanted)),
        Err(refusal) => Err(of_store(refusal)),
    }
}
