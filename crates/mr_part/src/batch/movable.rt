ghost use Rattle.std.specs.Prelude.{◌≡◌, ◌&&◌, ◌||◌, ◌++◌, ◌∷◌, [], ℕ, List, length, map, filter, flat_map, bytes_eq, if◌then◌else◌, OnOk, IfOk, IfErr};
ghost use Rattle.std.specs.List.{list_any};
ghost use Rattle.mr_model.specs.Texts.{Text};
ghost use Rattle.mr_model.specs.Writes.{id_of};
ghost use Rattle.mr_model.specs.Exchange.{Item as ItemOfBatch};
ghost use Rattle.mr_base.specs.Batches.{item_of};
ghost use Rattle.mr_replay.specs.Seen.{has_room};
ghost use Rattle.mr_part.specs.KeptRows.{row_writes, row_undos};
ghost use Rattle.mr_part.specs.Moves.{IsMoving, rooms_named, moves_in, moves_row, is_anew};
ghost use Rattle.mr_part.specs.Sets.{has_id};

use crate::kept_rows::KeptRow;
use crate::room_sets::RoomSet;
use crate::tail::{Tail, tail_of};
use crate::touched::{IdSet, Touched, add_if_named};
use mr_base::{Item, Refusal, Write};
use mr_replay::UndoRow;
use std::alloc::Global;

/// Which tentative writes the items of a batch may move. It is made once for a batch.
#[derive(Drop)]
pub struct Moving {
    /// The rooms that the items touch.
    pub rooms: RoomSet,
    pub tail: Tail,
}

/// Which tentative writes these items may move, if so many commits are known and these are the kept writes that the items may name: the rooms are
/// those of their writes, and those of the kept writes that new commits name.
pub fn moving_by(
    alloc: Global,
    kept: &[KeptRow],
    items: &[Item],
    commits: u64,
) -> Result<Moving, Refusal>
    ensures moving { IfOk result
        (λ moving. IsMoving moving (flat_map (rooms_named commits (row_writes kept.now)) (map item_of items.now)) commits (map item_of items.now)) }
    ensures only { IfErr result (λ e. e ≡ Refusal.OutOfMemory) }
{
    let Touched {
        committed,
        mut rooms,
    } = Touched::by(alloc, items, commits)?;
    add_rows(alloc, &mut rooms, &committed, kept)?;
    let tail = tail_of(items, commits);
    Ok(Moving { rooms, tail })
}

/// Adds the rooms of the writes of these ids.
fn add_rows(
    alloc: Global,
    rooms: &mut RoomSet,
    ids: &IdSet,
    kept: &[KeptRow],
) -> Result<(), Refusal>
    ensures rooms { OnOk result ((name : Text) → has_room rooms.new name ≡ (has_room rooms.old name || list_any (λ x. has_id ids.now (id_of x.write) && bytes_eq name x.write.room) kept.now)) }
    ensures only { IfErr result (λ e. e ≡ Refusal.OutOfMemory) }
{
    for row in kept {
        let write = &row.write;
        add_if_named(alloc, rooms, ids, row.id(), &write.room)?;
    }
    Ok(())
}

/// Whether a tentative write may move.
fn may_move(write: &Write, moving: &Moving) -> bool
    ensures { (touched : List Text) (items : List ItemOfBatch) (commits : ℕ) → IsMoving moving.now touched commits items
        → result ≡ moves_in touched items commits write.now }
{
    let stamp = write.stamp;
    moving.rooms.contains(&write.room) && moving.tail.has_place(stamp.time, stamp.server)
}

/// Whether a kept write is tentative and may move.
fn moves_row(row: &KeptRow, moving: &Moving) -> bool
    ensures { (touched : List Text) (items : List ItemOfBatch) (commits : ℕ) → IsMoving moving.now touched commits items
        → result ≡ moves_row touched items commits row.now }
{
    row.seq == 0 && may_move(&row.write, moving)
}

/// What undoes those of these writes that are tentative and may move, in their order.
pub fn moving_rows(
    alloc: Global,
    kept: &[KeptRow],
    moving: &Moving,
) -> Result<Vec<UndoRow>, Refusal>
    ensures rows { (touched : List Text) (items : List ItemOfBatch) (commits : ℕ) → IsMoving moving.now touched commits items
        → IfOk result (λ rows. rows.items ≡ row_undos (filter (moves_row touched items commits) kept.now)) }
    ensures only { IfErr result (λ e. e ≡ Refusal.OutOfMemory) }
{
    let mut undo = Vec::new(alloc);
    for row in kept {
        if moves_row(row, moving) {
            undo.push(row.undo)?;
        }
    }
    Ok(undo)
}

/// The writes that are executed anew, in the order of execution, each with what undid it, if so many commits were known and these tentative
/// writes may move: the new commits, and behind them those that may move. They are moved out of their rows. A write that the batch brings
/// has what would undo it if it were logged.
pub fn again_in(
    alloc: Global,
    kept: Vec<KeptRow>,
    moving: &Moving,
    commits: u64,
) -> Result<Undoable, Refusal>
    ensures anew { (touched : List Text) (items : List ItemOfBatch) → IsMoving moving.now touched commits items
        → IfOk result (λ x. (x.writes.items ≡ row_writes (filter (is_anew touched items commits) kept.items)) × (x.undo.items ≡ row_undos (filter (is_anew touched items commits) kept.items))) }
    ensures as_many { IfOk result (λ x. length x.writes.items ≡ length x.undo.items) }
    ensures only { IfErr result (λ e. e ≡ Refusal.OutOfMemory) }
{
    let mut anew = Undoable {
        writes: Vec::new(alloc),
        undo: Vec::new(alloc),
    };
    for row in kept {
        let is_its = is_anew(&row, moving, commits);
        let KeptRow {
            write,
            undo,
            seq: _,
        } = row;
        anew.push_if(is_its, write, undo)?;
    }
    Ok(anew)
}

fn is_anew(row: &KeptRow, moving: &Moving, commits: u64) -> bool
    ensures { (touched : List Text) (items : List ItemOfBatch) → IsMoving moving.now touched commits items
        → result ≡ is_anew touched items commits row.now }
{
    row.seq > commits || moves_row(row, moving)
}

/// Writes, and what undoes each.
#[derive(Drop)]
pub struct Undoable {
    pub writes: Vec<Write>,
    pub undo: Vec<UndoRow>,
}

impl Undoable {
    /// One write more, if it is one of them.
    pub fn push_if(&mut self, is_its: bool, write: Write, undo: UndoRow) -> Result<(), Refusal>
        ensures writes { OnOk result (self.new.writes.items ≡ (if is_its then self.old.writes.items ++ write ∷ [] else self.old.writes.items)) }
        ensures undo { OnOk result (self.new.undo.items ≡ (if is_its then self.old.undo.items ++ undo ∷ [] else self.old.undo.items)) }
        ensures only { IfErr result (λ e. e ≡ Refusal.OutOfMemory) }
    {
        if is_its {
            self.writes.push(write)?;
            self.undo.push(undo)?;
        }
        Ok(())
    }
}
