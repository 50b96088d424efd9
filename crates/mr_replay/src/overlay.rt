ghost use Rattle.std.specs.Prelude.{◌≡◌, OnOk, IfOk, IfErr};
ghost use Rattle.std.specs.BTreeMap.{insert_entry};
ghost use Rattle.std.specs.List.Sorted.{IsStrictlySortedBy};
ghost use Rattle.std.specs.Map.{keys_of, remove_entry};
ghost use Rattle.std.specs.Option.{option_copied};
ghost use Rattle.mr_model.specs.Replay.{is_free};
ghost use Rattle.mr_model.specs.Writes.{same_id};
ghost use Rattle.mr_base.specs.Ids.{id_cmp};
ghost use Rattle.mr_replay.specs.Rows.{row_at, bookings_of, with_mark, without_mark, row_changed, marked_by, executed, undo_row_of, undone, executed_all, undo_rows_of, undone_all};

use crate::choice::{Bookings, place_among};
use crate::rows::Hidden;
use crate::{Board, Row, SeenBoard, UndoRow};
use mr_base::{Refusal, RoomName, Slot, Write, WriteId};
use std::alloc::Global;
use std::collections::BTreeSet;
use std::marker::Model;

/// A board, its base, which may be shared, and over it what a command makes of it: rows of its own, and the ids whose rows of the base
/// don't count. The base stays as it is, so a command that is refused has nothing to give back: its overlay is dropped.
#[derive(Drop)]
pub struct Overlay {
    alloc: Global,
    base: SeenBoard,
    /// The ids whose rows of the base don't count.
    hidden: Hidden,
    /// The rows that the command made or changed.
    own: Board,
}

impl Model for Overlay {
    ghost use Rattle.std.specs.Prelude.{List};
    ghost use Rattle.mr_model.specs.Writes.{Id};
    ghost use Rattle.mr_replay.specs.declared.rows.Row.{Row};

    ghost Value = { List (Id × Row) };

    ghost use Rattle.mr_replay.specs.Hidden.{shown};
    ghost use Rattle.mr_replay.specs.Overlay.{overlaid, CanOverlay};

    ghost view = { λ o. overlaid (shown o.hidden o.base) o.own };

    ghost invariant = { λ o. CanOverlay o.base o.hidden o.own };
}

impl Overlay {
    /// An overlay in which nothing is changed yet.
    pub fn over(base: SeenBoard) -> Overlay
        ensures { result ≡ base }
    {
        base.is_in_order();
        let alloc = base.alloc();
        Overlay {
            alloc,
            base,
            hidden: BTreeSet::new(alloc),
            own: Board::new(alloc),
        }
    }

    /// The row of the write with this id.
    pub fn row(&self, id: WriteId) -> Option<&Row>
        ensures { option_copied result ≡ row_at self.now id }
    {
        if let Some(row) = self.own.row(id) {
            return Some(row);
        }
        if self.hidden.contains(&id) {
            return None;
        }
        self.base.row(id)
    }

    /// Puts a row under this id, in the place of the one that it has.
    fn put(&mut self, id: WriteId, row: Row) -> Result<(), Refusal>
        ensures ok { OnOk result (self.new ≡ insert_entry id_cmp self.old id row) }
        ensures only { IfErr result (λ e. e ≡ Refusal.OutOfMemory) }
    {
        self.hidden.insert(id)?;
        self.own.put(id, row)
    }

    /// Takes the row of this id away.
    fn remove(&mut self, id: WriteId) -> Result<(), Refusal>
        ensures ok { OnOk result (self.new ≡ remove_entry (same_id id) self.old) }
        ensures only { IfErr result (λ e. e ≡ Refusal.OutOfMemory) }
    {
        self.hidden.insert(id)?;
        self.own.remove(id);
        Ok(())
    }

    /// Executes the write: puts its row, or marks its target's row.
    fn execute(&mut self, write: &Write) -> Result<UndoRow, Refusal>
        ensures row { IfOk result (λ row. row ≡ undo_row_of self.old write.now) }
        ensures board { OnOk result (self.new ≡ executed self.old write.now) }
        ensures only { IfErr result (λ e. e ≡ Refusal.OutOfMemory) }
    {
        let undo_row = UndoRow::of(write, place_among(self, write));
        let alloc = self.alloc;
        match Row::of(alloc, write, undo_row.place)? {
            Some(row) => self.put(undo_row.id, row)?,
            None => self.mark_target(undo_row)?,
        }
        Ok(undo_row)
    }

    /// Marks the row of its target, if this is of a cancel that is done.
    fn mark_target(&mut self, row: UndoRow) -> Result<(), Refusal>
        ensures board { OnOk result (self.new ≡ marked_by row.id row.place row.target self.old) }
        ensures only { IfErr result (λ e. e ≡ Refusal.OutOfMemory) }
    {
        match row.taken_back() {
            Some(target) => self.mark(target, row.id),
            None => Ok(()),
        }
    }

    /// The cancel takes the booking of this id back.
    fn mark(&mut self, target: WriteId, cancel: WriteId) -> Result<(), Refusal>
        ensures board { OnOk result (self.new ≡ row_changed (with_mark cancel) target self.old) }
        ensures only { IfErr result (λ e. e ≡ Refusal.OutOfMemory) }
    {
        self.is_in_order();
        if let Some(mut row) = self.copy_of(target)? {
            row.mark(cancel);
            self.put(target, row)?;
        }
        Ok(())
    }

    /// The booking of this id stands again if the cancel took it back.
    fn unmark(&mut self, target: WriteId, cancel: WriteId) -> Result<(), Refusal>
        ensures board { OnOk result (self.new ≡ row_changed (without_mark cancel) target self.old) }
        ensures only { IfErr result (λ e. e ≡ Refusal.OutOfMemory) }
    {
        self.is_in_order();
        if let Some(mut row) = self.copy_of(target)? {
            row.unmark(cancel);
            self.put(target, row)?;
        }
        Ok(())
    }

    /// A copy of the row of this id.
    fn copy_of(&self, id: WriteId) -> Result<Option<Row>, Refusal>
        ensures row { IfOk result (λ row. row ≡ row_at self.now id) }
        ensures only { IfErr result (λ e. e ≡ Refusal.OutOfMemory) }
    {
        match self.row(id) {
            Some(row) => Ok(Some(row.copy(self.alloc)?)),
            None => Ok(None),
        }
    }

    /// Undoes the last execution, which this row is of.
    fn undo(&mut self, row: UndoRow) -> Result<(), Refusal>
        ensures board { OnOk result (self.new ≡ undone self.old row) }
        ensures only { IfErr result (λ e. e ≡ Refusal.OutOfMemory) }
    {
        match row.taken_back() {
            Some(target) => self.unmark(target, row.id),
            None => self.remove(row.id),
        }
    }

    /// Undoes these executions, the last of them first.
    fn undo_all(&mut self, rows: &[UndoRow]) -> Result<(), Refusal>
        ensures board { OnOk result (self.new ≡ undone_all self.old rows.now) }
        ensures only { IfErr result (λ e. e ≡ Refusal.OutOfMemory) }
    {
        let mut left = rows.len();
        while left > 0 {
            left -= 1;
            self.undo(rows[left])?;
        }
        Ok(())
    }

    /// Executes the writes in order. Their undo rows stand in the same order.
    fn execute_all(&mut self, writes: &[Write]) -> Result<Vec<UndoRow>, Refusal>
        ensures rows { IfOk result (λ rows. rows.items ≡ undo_rows_of self.old writes.now) }
        ensures board { OnOk result (self.new ≡ executed_all self.old writes.now) }
        ensures only { IfErr result (λ e. e ≡ Refusal.OutOfMemory) }
    {
        let mut rows = Vec::new(self.alloc);
        for write in writes {
            let row = self.execute(write)?;
            rows.push(row)?;
        }
        Ok(rows)
    }

    /// Undoes the last executions of some rooms, which `undone` names in the order in which they were done, and executes other writes of
    /// these rooms in their place, as `Board::replay_room` does for one. The answer has the undo rows of these writes. If it is refused, the
    /// overlay shows a part of that, and is to be dropped.
    pub fn replay(&mut self, undone: &[UndoRow], again: &[Write]) -> Result<Vec<UndoRow>, Refusal>
        ensures rows { IfOk result (λ rows. rows.items ≡ undo_rows_of (undone_all self.old undone.now) again.now) }
        ensures board { OnOk result (self.new ≡ executed_all (undone_all self.old undone.now) again.now) }
        ensures only { IfErr result (λ e. e ≡ Refusal.OutOfMemory) }
    {
        self.undo_all(undone)?;
        self.execute_all(again)
    }
}

impl Bookings for Overlay {
    ghost rows = { λ b. b };

    fn row(&self, id: WriteId) -> Option<&Row> {
        self.row(id)
    }

    fn is_free(&self, room: &RoomName, slot: Slot, length: u32) -> bool {
        self.base.check_but(&self.hidden, room, slot, length) && self.own.check(room, slot, length)
    }

    fn is_in_order(&self) {
        let _ = &self.own;
    }
}
