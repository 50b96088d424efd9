ghost use Rattle.std.specs.Prelude.{◌≡◌, ◌↔◌, List, [], ◌∷◌, ◌++◌, length, None, Ok, OnOk, OnErr, IfOk, IfErr, IsTrue, bytes_eq, false};
ghost use Rattle.std.specs.BTreeMap.{insert_entry};
ghost use Rattle.std.specs.List.Sorted.{IsStrictlySortedBy};
ghost use Rattle.std.specs.Map.{keys_of, remove_entry};
ghost use Rattle.std.specs.Option.{option_copied};
ghost use Rattle.mr_model.specs.Texts.{Text};
ghost use Rattle.mr_model.specs.Writes.{Id, Write, id_of, same_id};
ghost use Rattle.mr_model.specs.Replay.{is_free};
ghost use Rattle.mr_base.specs.Answers.{OrOutOfMemory};
ghost use Rattle.mr_base.specs.Ids.{id_cmp};
ghost use Rattle.mr_replay.specs.Hidden.{shown};
ghost use Rattle.mr_replay.specs.Places.{place_seen};
ghost use Rattle.mr_replay.specs.Rows.{row_at, bookings_of, IsFree, place_by_rows, marked_by, executed, undo_row_of, undone, executed_all, undo_rows_of, undone_all};
ghost use Rattle.mr_replay.specs.Holds.{HaveDistinctIds, IsNew, AreNew, if_of, HoldsEach, Holds, with_list, undo_row_after, CanReplay};

use crate::choice::{Bookings, place_among};
use crate::index::{Index, forget, key_if_taken, note};
use crate::marks::{mark_row, unmark_row};
use crate::rows::{Hidden, Rows};
use crate::taken::is_free;
use crate::{Place, Row, UndoRow};
use mr_base::{Refusal, RoomName, Slot, Write, WriteId};
use std::alloc::{AllocError, Global};
use std::collections::{BTreeMap, BTreeSet};
use std::marker::Model;

/// The bookings and the error log of all rooms: one row for each write that was executed and not undone, but for the cancels that
/// took a booking back, whose ids stand in the rows of these.
#[derive(Drop)]
pub struct Board {
    pub(crate) alloc: Global,
    pub(crate) rows: Rows,
    /// The bookings of the rows, by day and room.
    pub(crate) index: Index,
}

impl Model for Board {
    ghost use Rattle.std.specs.Prelude.{List};
    ghost use Rattle.mr_model.specs.Writes.{Id};
    ghost use Rattle.mr_replay.specs.declared.rows.Row.{Row};

    ghost Value = { List (Id × Row) };

    ghost use Rattle.mr_replay.specs.Index.{IsIndexed};

    ghost view = { λ b. b.rows.entries };

    ghost invariant = { λ b. IsIndexed b.rows.entries b.index };
}

impl Board {
    /// The empty board. It takes its memory from this allocator later, as it grows.
    pub fn new(alloc: Global) -> Board
        ensures value { result ≡ [] }
        ensures holds { Holds [] result }
    {
        Board {
            alloc,
            rows: BTreeMap::new(alloc),
            index: BTreeSet::new(alloc),
        }
    }

    /// An equal board.
    pub fn copy(&self) -> Result<Board, Refusal>
        ensures { OrOutOfMemory result (Ok self.now) }
    {
        let rows = self.rows.clone()?;
        let index = self.index.clone()?;
        Ok(Board {
            alloc: self.alloc,
            rows,
            index,
        })
    }

    /// How many rows it has.
    pub fn len(&self) -> usize
        ensures { result ≡ length self.now }
    {
        self.rows.len()
    }

    /// The row of the write with this id.
    pub fn row(&self, id: WriteId) -> Option<&Row>
        ensures { option_copied result ≡ row_at self.now id }
    {
        self.rows.get(&id)
    }

    /// Puts a row under this id, in the place of the one that it has.
    pub fn put(&mut self, id: WriteId, row: Row) -> Result<(), Refusal>
        ensures ok { OnOk result (self.new ≡ insert_entry id_cmp self.old id row) }
        ensures err { OnErr result (self.new ≡ self.old) }
        ensures only { IfErr result (λ e. e ≡ Refusal.OutOfMemory) }
    {
        note(&mut self.index, id, &row)?;
        let stays = key_if_taken(id, &row);
        match self.rows.insert(id, row) {
            Ok(None) => Ok(()),
            Ok(Some(replaced)) => {
                let gone = key_if_taken(id, &replaced);
                drop(replaced);
                forget(&mut self.index, gone, stays);
                Ok(())
            }
            Err(failed) => {
                let gone = key_if_taken(id, &failed.value.1);
                drop(failed);
                forget(&mut self.index, gone, None);
                Err(Refusal::OutOfMemory)
            }
        }
    }

    /// Takes the row of this id away, if there is one.
    pub fn remove(&mut self, id: WriteId)
        ensures { self.new ≡ remove_entry (same_id id) self.old }
    {
        if let Some(removed) = self.rows.remove(&id) {
            let gone = key_if_taken(id, &removed);
            drop(removed);
            forget(&mut self.index, gone, None);
        }
    }

    /// For the prover alone: its rows stand in the order of their ids.
    pub(crate) fn is_in_order(&self)
        ensures { IsStrictlySortedBy id_cmp (keys_of self.now) }
    {
        let _ = &self.rows;
    }

    /// Whether no booking of the room that stands overlaps the slot with this length in minutes.
    pub fn check(&self, room: &RoomName, slot: Slot, length: u32) -> bool
        ensures test { result ≡ is_free (bookings_of room.now self.now) length slot }
        ensures meaning { IsTrue result ↔ IsFree room.now slot length self.now }
    {
        self.check_but(&BTreeSet::new(self.alloc), room, slot, length)
    }

    /// Whether no booking of the room that stands overlaps the slot, those of the hidden ids aside.
    pub(crate) fn check_but(
        &self,
        hidden: &Hidden,
        room: &RoomName,
        slot: Slot,
        length: u32,
    ) -> bool
        ensures { result ≡ is_free (bookings_of room.now (shown hidden.now self.now)) length slot }
    {
        is_free(&self.rows, &self.index, hidden, room, slot, length)
    }

    /// Where the write would go. A booking: to its first choice that is free in its room, else into the error log. A cancel is done
    /// if its target is a booking of its room that stands, else void.
    pub fn merge(&self, write: &Write) -> Place
        ensures { place_seen result ≡ place_by_rows self.now write.now }
    {
        place_among(self, write)
    }

    /// Executes the write at the place that `merge` finds: puts its row, or marks its target's row.
    pub fn execute(&mut self, write: &Write) -> Result<UndoRow, Refusal>
        ensures row { IfOk result (λ row. row ≡ undo_row_of self.old write.now) }
        ensures board { OnOk result (self.new ≡ executed self.old write.now) }
        ensures holds { OnOk result ((ws : List Write) → HaveDistinctIds (ws ++ write.now ∷ [])
            → Holds ws self.old → Holds (ws ++ write.now ∷ []) self.new) }
        ensures err { OnErr result (self.new ≡ self.old) }
        ensures only { IfErr result (λ e. e ≡ Refusal.OutOfMemory) }
    {
        let undo_row = UndoRow::of(write, self.merge(write));
        match Row::of(self.alloc, write, undo_row.place)? {
            Some(row) => self.put(undo_row.id, row)?,
            None => self.mark_target(undo_row),
        }
        Ok(undo_row)
    }

    /// Marks the row of its target, if this is of a cancel that is done.
    fn mark_target(&mut self, row: UndoRow)
        ensures { self.new ≡ marked_by row.id row.place row.target self.old }
    {
        if let Some(target) = row.taken_back() {
            mark_row(&mut self.rows, target, row.id);
        }
    }

    /// Undoes the last execution, which this row is of. It takes no memory: what a cancel took back is still there.
    pub fn undo(&mut self, row: UndoRow)
        ensures board { self.new ≡ undone self.old row }
        ensures holds { (ws : List Write) (w : Write) → HaveDistinctIds (ws ++ w ∷ [])
            → row ≡ undo_row_after ws w → Holds (ws ++ w ∷ []) self.old → Holds ws self.new }
    {
        match row.taken_back() {
            Some(target) => unmark_row(&mut self.rows, target, row.id),
            None => self.remove(row.id),
        }
    }

    /// Undoes these executions, the last of them first.
    pub fn undo_all(&mut self, rows: &[UndoRow])
        ensures { self.new ≡ undone_all self.old rows.now }
    {
        let mut left = rows.len();
        while left > 0 {
            left -= 1;
            self.undo(rows[left]);
        }
    }

    /// Executes the writes in order. Their undo rows stand in the same order.
    pub fn redo_from(&mut self, writes: &[Write]) -> Result<Vec<UndoRow>, Refusal>
        ensures rows { IfOk result (λ rows. rows.items ≡ undo_rows_of self.old writes.now) }
        ensures board { OnOk result (self.new ≡ executed_all self.old writes.now) }
        ensures holds { OnOk result ((ws : List Write) → HaveDistinctIds (ws ++ writes.now)
            → Holds ws self.old → Holds (ws ++ writes.now) self.new) }
        ensures err { AreNew self.old writes.now → OnErr result (self.new ≡ self.old) }
        ensures only { IfErr result (λ e. e ≡ Refusal.OutOfMemory) }
    {
        let mut rows = Vec::new(self.alloc);
        for write in writes {
            match self.execute_next(write, &mut rows) {
                Ok(()) => {}
                Err(refusal) => {
                    self.undo_all(rows.as_slice());
                    return Err(refusal);
                }
            }
        }
        Ok(rows)
    }

    /// Undoes the room's last executions, which `undone` names in the order in which they were done, and executes other
    /// writes of the room in their place. Other rooms keep what they have. The answer has the undo rows of these writes.
    /// It works on a copy of the board, so the cost goes by how many rows this has.
    pub fn replay_room(
        &mut self,
        room: &RoomName,
        undone: &[UndoRow],
        again: &[Write],
    ) -> Result<Vec<UndoRow>, Refusal>
        ensures rows { IfOk result (λ rows. rows.items ≡ undo_rows_of (undone_all self.old undone.now) again.now) }
        ensures board { OnOk result (self.new ≡ executed_all (undone_all self.old undone.now) again.now) }
        ensures holds { OnOk result ((lists : Text → List Write) (front tail : List Write)
            → CanReplay lists room.now front tail self.old undone.now again.now
            → HoldsEach (with_list room.now (front ++ again.now) lists) self.new) }
        ensures others { OnOk result ((lists : Text → List Write) (front tail : List Write)
            → CanReplay lists room.now front tail self.old undone.now again.now
            → (other : Text) → bytes_eq other room.now ≡ false → (id : Id)
            → if_of other (row_at self.new id) ≡ if_of other (row_at self.old id)) }
        ensures err { OnErr result (self.new ≡ self.old) }
        ensures only { IfErr result (λ e. e ≡ Refusal.OutOfMemory) }
    {
        // For the prover alone: clauses speak of the room, and the code has no use for it.
        let _ = room;
        let mut board = self.copy()?;
        board.undo_all(undone);
        let rows = board.redo_from(again)?;
        *self = board;
        Ok(rows)
    }

    /// Executes the write and notes its undo row.
    fn execute_next(&mut self, write: &Write, rows: &mut Vec<UndoRow>) -> Result<(), Refusal>
        ensures rows { OnOk result (rows.new.items ≡ rows.old.items ++ undo_row_of self.old write.now ∷ []) }
        ensures board { OnOk result (self.new ≡ executed self.old write.now) }
        ensures rows_err { OnErr result (rows.new.items ≡ rows.old.items) }
        ensures board_err { IsNew self.old (id_of write.now) → OnErr result (self.new ≡ self.old) }
        ensures only { IfErr result (λ e. e ≡ Refusal.OutOfMemory) }
    {
        let row = self.execute(write)?;
        if let Err(failed) = rows.push(row) {
            self.undo(failed.value);
            return Err(Refusal::OutOfMemory);
        }
        Ok(())
    }
}

impl Bookings for Board {
    ghost rows = { λ b. b };

    fn row(&self, id: WriteId) -> Option<&Row> {
        self.row(id)
    }

    fn is_free(&self, room: &RoomName, slot: Slot, length: u32) -> bool {
        self.check(room, slot, length)
    }

    fn is_in_order(&self) {
        self.is_in_order();
    }
}
