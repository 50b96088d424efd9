ghost use Rattle.std.specs.Prelude.{◌≡◌, ◌&&◌, ◌||◌, map, flat_map, bytes_eq, IfOk, OnOk, IfErr};
ghost use Rattle.std.specs.List.{list_any};
ghost use Rattle.mr_model.specs.Texts.{Text};
ghost use Rattle.mr_model.specs.Scopes.{rooms_of_item};
ghost use Rattle.mr_model.specs.Queries.{log_id};
ghost use Rattle.mr_base.specs.Batches.{item_of};
ghost use Rattle.mr_part.specs.RowTests.{has_log, IsBatchScope};
ghost use Rattle.mr_part.specs.Sets.{has_id, IsSetOf};
ghost use Rattle.mr_replay.specs.Seen.{has_room};

use crate::room_sets::RoomSet;
use crate::scope::named::Named;
use crate::tail::{Tail, tail_of};
use crate::touched::{IdSet, Touched, add_if_named};
use mr_base::{Item, Refusal};
use mr_tables::LogRow;
use std::alloc::Global;

/// What a batch that is received needs. It is made once, so that each row is asked at the cost of a logarithm.
#[derive(Drop)]
pub struct BatchScope {
    /// What its items name.
    pub named: Named,
    /// The places from which on it may move tentative writes.
    pub tail: Tail,
    /// The rooms whose writes it may move.
    pub rooms: RoomSet,
}

impl BatchScope {
    /// That of these items, if so many commits are known. Of the rows of `log` those have to be there whose ids the items name.
    pub fn of(
        alloc: Global,
        items: &[Item],
        rows: &[LogRow],
        commits: u64,
    ) -> Result<BatchScope, Refusal>
        ensures scope { IfOk result (λ batch. IsBatchScope batch commits (map item_of items.now) rows.now) }
        ensures only { IfErr result (λ e. e ≡ Refusal.OutOfMemory) }
    {
        let rooms = touched_rooms(alloc, items, rows, commits)?;
        Ok(BatchScope {
            named: Named::by(alloc, items)?,
            tail: tail_of(items, commits),
            rooms,
        })
    }

    /// Whether a row of `log` is named, or tentative, of a room that is touched, and in the tail.
    pub(crate) fn has_log(&self, row: &LogRow) -> bool
        ensures { result ≡ has_log self.now row.now }
    {
        self.named.has(row.id(), row.seq)
            || (row.seq == 0
                && self.tail.has_place(row.time, row.server)
                && self.rooms.contains(&row.room))
    }
}

/// The rooms whose writes the items may move, if so many commits are known: those of their writes, and those of the rows that new
/// commits name. The cost goes by the items and the rows, and not by the one times the other.
fn touched_rooms(
    alloc: Global,
    items: &[Item],
    rows: &[LogRow],
    commits: u64,
) -> Result<RoomSet, Refusal>
    ensures rooms { IfOk result (λ rooms. IsSetOf rooms (flat_map (rooms_of_item commits rows.now) (map item_of items.now))) }
    ensures only { IfErr result (λ e. e ≡ Refusal.OutOfMemory) }
{
    let Touched {
        committed,
        mut rooms,
    } = Touched::by(alloc, items, commits)?;
    add_rows(alloc, &mut rooms, &committed, rows)?;
    Ok(rooms)
}

/// Adds the rooms of the rows of these ids.
fn add_rows(alloc: Global, rooms: &mut RoomSet, ids: &IdSet, rows: &[LogRow]) -> Result<(), Refusal>
    ensures rooms { OnOk result ((name : Text) → has_room rooms.new name ≡ (has_room rooms.old name || list_any (λ row. has_id ids.now (log_id row) && bytes_eq name row.room) rows.now)) }
    ensures only { IfErr result (λ e. e ≡ Refusal.OutOfMemory) }
{
    for row in rows {
        add_if_named(alloc, rooms, ids, row.id(), &row.room)?;
    }
    Ok(())
}
