ghost use Rattle.std.specs.Prelude.{◌≡◌, ◌&&◌, ◌∷◌, [], bytes_eq, false, filter, find, map, IsTrue, IfOk, OnOk, OnErr};
ghost use Rattle.std.specs.List.{list_any};
ghost use Rattle.std.specs.List.Sorted.{IsPermutation};
ghost use Rattle.std.specs.Map.{values_of};
ghost use Rattle.std.specs.Option.{option_copied};
ghost use Rattle.std.specs.Ordering.{is_gt};
ghost use Rattle.mr_model.specs.Queries.{log_id};
ghost use Rattle.mr_model.specs.Scopes.{OfItems, is_named};
ghost use Rattle.mr_model.specs.Writes.{same_id};
ghost use Rattle.mr_base.specs.Batches.{item_of};
ghost use Rattle.mr_tables.specs.Change.{id_before, put, put_all, rows_without};
ghost use Rattle.mr_tables.specs.TableOrders.{InOrder};
ghost use Rattle.mr_replay.specs.Holds.{AreDistinct};
ghost use Rattle.mr_replay.specs.Seen.{has_room};
ghost use Rattle.mr_part.specs.ScopeOf.{scope_of};
ghost use Rattle.mr_replica.specs.declared.row_key.RowKey.{RowKey as Key};
ghost use Rattle.mr_replica.specs.Calendar.{AreListed};
ghost use Rattle.mr_replica.specs.Needed.{is_late_in, is_late_row, is_log_needed};
ghost use Rattle.mr_replica.specs.Picked.{is_day_asked};
ghost use Rattle.mr_replica.specs.RowKeys.{has_row_key, index_code, is_between, row_key_cmp, room_key, row_of_key, AreBetween, AreThose, IndexView, AreRowsIndexed, IsTable};

use crate::row_key::{KeyedRow, RowKey, end_key, log_end, number_end, tail_end};
use mr_base::{Day, Item, RoomName, WriteId};
use mr_part::Scope;
use mr_part::room_sets::RoomSet;
use mr_part::tail::{Tail, tail_of};
use mr_part::touched::Touched;
use mr_tables::{BookingRow, IdRow, LogRow};
use std::alloc::{AllocError, Global};
use std::collections::{BTreeMap, BTreeSet};
use std::marker::Model;

/// The rows of a table by the ids of their writes and by a second key. A row is found, put and taken away in steps that go by the
/// logarithm of how many there are.
#[derive(Drop)]
pub(crate) struct Indexed<R: KeyedRow> {
    alloc: Global,
    rows: BTreeMap<WriteId, R>,
    /// The second key of each of them.
    keys: BTreeSet<RowKey>,
}

impl<R: KeyedRow> Model for Indexed<R> {
    ghost Value = { IndexView R };

    ghost coded = { index_code R.code };

    ghost view = { λ t. record { rows = values_of t.rows.entries; keys = t.keys } };

    ghost invariant = { λ t. IsTable R.id R.second_key t.rows.entries t.keys };
}

impl<R: KeyedRow> Indexed<R> {
    /// No rows. It takes its memory from this allocator later, as it grows.
    pub(crate) fn new(alloc: Global) -> Indexed<R>
        ensures { result.rows ≡ [] }
    {
        Indexed {
            alloc,
            rows: BTreeMap::new(alloc),
            keys: BTreeSet::new(alloc),
        }
    }

    /// These rows.
    pub(crate) fn of(alloc: Global, rows: Vec<R>) -> Result<Indexed<R>, AllocError>
        requires { InOrder R.before R.key rows.items }
        ensures { IfOk result (λ table. table.rows ≡ rows.items) }
    {
        let keys = rows.iter().map(|row| row.second_key()).collect(alloc)?;
        let pairs = rows.into_iter().map(|row| (row.write_id(), row));
        let rows = pairs.collect(alloc)?;
        Ok(Indexed { alloc, rows, keys })
    }

    /// How many rows there are.
    pub(crate) fn len(&self) -> usize {
        self.rows.len()
    }

    /// Puts these rows, each in the place of the one of its write. If memory refuses, some of them are put.
    fn put_each(&mut self, rows: Vec<R>) -> Result<(), AllocError>
        ensures { OnOk result (self.new.rows ≡ put_all id_before R.id rows.items self.old.rows) }
    {
        for row in rows {
            self.put(row)?;
        }
        Ok(())
    }

    /// The row of this write.
    pub(crate) fn get(&self, id: WriteId) -> Option<&R>
        ensures row { option_copied result ≡ find (λ r. same_id (R.id r) id) self.now.rows }
        ensures order { InOrder id_before R.id self.now.rows }
    {
        self.rows.get(&id)
    }

    /// Whether there is a row of this write.
    pub(crate) fn has(&self, id: WriteId) -> bool
        ensures { result ≡ list_any (λ r. same_id (R.id r) id) self.now.rows }
    {
        self.rows.contains_key(&id)
    }

    /// Says to proofs that no id stands twice. It does nothing.
    pub(crate) fn is_by_id(&self)
        ensures { AreDistinct (map R.id self.now.rows) }
    {
        let _ = &self.rows;
    }

    /// Puts the row, and returns the one of its write that it replaces, whose key stays. If memory refuses, the rows stay. If a row of
    /// the write is there, and the new row's key too, no memory is asked for.
    pub(crate) fn put(&mut self, row: R) -> Result<Option<R>, AllocError>
        ensures put { OnOk result (self.new.rows ≡ put id_before R.id row self.old.rows) }
        ensures old { IfOk result (λ old. old ≡ find (λ r. same_id (R.id r) (R.id row)) self.old.rows) }
        ensures kept { OnErr result (self.new.rows ≡ self.old.rows) }
        ensures absent { IsTrue (has_row_key self.old.keys (R.second_key row)) → OnErr result (find (λ r. same_id (R.id r) (R.id row)) self.old.rows ≡ None) }
        ensures keys { (k : Key) → IsTrue (has_row_key self.old.keys k) → IsTrue (has_row_key self.new.keys k) }
        ensures index { AreRowsIndexed R.id R.second_key self.old.rows self.old.keys }
    {
        self.keys.insert(row.second_key())?;
        Ok(self.rows.insert(row.write_id(), row)?)
    }

    /// Takes the row of this write away, if there is one. Its key stays.
    pub(crate) fn take(&mut self, id: WriteId) -> Option<R>
        ensures rows { self.new.rows ≡ rows_without R.id (id ∷ []) self.old.rows }
        ensures keys { self.new.keys ≡ self.old.keys }
    {
        self.rows.remove(&id)
    }

    /// Takes the key of this row out, unless it is the key of a row that is there.
    pub(crate) fn forget(&mut self, row: &R)
        ensures { self.new.rows ≡ self.old.rows }
    {
        let key = row.second_key();
        if self.row_at(&key).is_none() {
            self.keys.remove(&key);
        }
    }

    /// Equal rows, in the order of their ids.
    pub(crate) fn copies(&self) -> Result<Vec<R>, AllocError>
        ensures { IfOk result (λ rows. rows.items ≡ self.now.rows) }
    {
        let mut rows = Vec::new(self.alloc);
        for row in self.rows.values() {
            rows.push(row.copied(self.alloc)?)?;
        }
        Ok(rows)
    }

    /// The row of this write, if it is of that room.
    pub(crate) fn get_in(&self, id: WriteId, room: &RoomName) -> Option<&R>
        ensures { option_copied result ≡ find (λ r. same_id (R.id r) id && bytes_eq (R.room r) room.now) self.now.rows }
    {
        match self.get(id) {
            Some(row) if row.is_in(room) => Some(row),
            _ => None,
        }
    }

    /// A list with a copy of the row of this write, if there is one.
    pub(crate) fn with_id(&self, id: WriteId) -> Result<Vec<R>, AllocError>
        ensures those { IfOk result (λ rows. rows.items ≡ filter (λ r. same_id (R.id r) id) self.now.rows) }
        ensures order { InOrder id_before R.id self.now.rows }
    {
        let mut rows = Vec::new(self.alloc);
        if let Some(row) = self.get(id) {
            rows.push(row.copied(self.alloc)?)?;
        }
        Ok(rows)
    }

    /// Copies of the rows of a room.
    pub(crate) fn rows_in(&self, room: &RoomName) -> Result<Vec<R>, AllocError>
        requires { (row : R) → R.second_key row ≡ room_key (R.room row) (R.id row) }
        ensures { IfOk result (λ rows. IsPermutation (filter (λ r. bytes_eq (R.room r) room.now) self.now.rows) rows.items) }
    {
        let first = end_key(0, room, &None);
        let last = end_key(2, room, &None);
        let mut rows = self.between(&first, &last)?;
        // Each of them is of the room; the test is for the prover.
        rows.retain(|row| row.is_in(room));
        Ok(rows)
    }

    /// Copies of the rows with keys from the first to the last, in the order of the keys.
    fn between(&self, first: &RowKey, last: &RowKey) -> Result<Vec<R>, AllocError>
        requires { is_gt (row_key_cmp first.now last.now) ≡ false }
        ensures found { IfOk result (λ rows. AreBetween R.second_key first.now last.now self.now.rows rows.items) }
        ensures order { InOrder id_before R.id self.now.rows }
    {
        let mut rows = Vec::new(self.alloc);
        for key in self.keys.range(*first..=*last) {
            if let Some(row) = self.row_at(key) {
                rows.push(row.copied(self.alloc)?)?;
            }
        }
        Ok(rows)
    }

    /// Copies of the rows with keys from the first to the last, in the order of their ids. If at most so many others are there, and these
    /// are no more than half of all rows, each row is looked at, since they lie in that order; else those between the two are sorted.
    fn ranged(&self, first: &RowKey, last: &RowKey, others: u64) -> Result<Vec<R>, AllocError>
        requires { is_gt (row_key_cmp first.now last.now) ≡ false }
        ensures { IfOk result (λ rows. rows.items ≡ filter (λ r. is_between first.now last.now (R.second_key r)) self.now.rows) }
    {
        if others <= self.rows.len() as u64 / 2 {
            return self.passed(first, last);
        }
        let mut rows = self.between(first, last)?;
        rows.sort_by_cached_key(|row| row.write_id())?;
        Ok(rows)
    }

    /// The same, where all rows are looked at.
    fn passed(&self, first: &RowKey, last: &RowKey) -> Result<Vec<R>, AllocError>
        ensures { IfOk result (λ rows. rows.items ≡ filter (λ r. is_between first.now last.now (R.second_key r)) self.now.rows) }
    {
        let mut rows = Vec::new(self.alloc);
        for row in self.rows.values() {
            if row.second_key().is_between(first, last) {
                rows.push(row.copied(self.alloc)?)?;
            }
        }
        Ok(rows)
    }

    /// The row with this key.
    fn row_at(&self, key: &RowKey) -> Option<&R>
        ensures { option_copied result ≡ row_of_key R.id R.second_key self.now.rows key.now }
    {
        match self.get(key.id) {
            Some(row) if row.second_key().cmp(key).is_eq() => Some(row),
            _ => None,
        }
    }
}

impl Indexed<BookingRow> {
    /// Copies of the bookings of a room, of a day or of all days, in the order of a calendar.
    pub(crate) fn listed(
        &self,
        room: &RoomName,
        day: &Option<Day>,
    ) -> Result<Vec<BookingRow>, AllocError>
        ensures { IfOk result (λ rows. AreListed room.now day.now self.now.rows rows.items) }
    {
        let first = end_key(0, room, day);
        let last = end_key(2, room, day);
        let mut rows = self.between(&first, &last)?;
        // Each of them is asked for; the test is for the prover.
        rows.retain(|row| row.room == *room && is_on(row.day, day));
        Ok(rows)
    }
}

/// Whether this is the day that is asked for, if one is.
fn is_on(day: Day, asked: &Option<Day>) -> bool
    ensures { result ≡ is_day_asked asked.now day }
{
    match asked {
        Some(asked) => day == *asked,
        None => true,
    }
}

impl Indexed<LogRow> {
    /// Copies of the rows of the log that a command of this scope may need where so many commits are known, in the order of their ids.
    pub(crate) fn needed(&self, known: u64, scope: &Scope<'_>) -> Result<Vec<LogRow>, AllocError>
        ensures { IfOk result (λ rows. rows.items ≡ filter (is_log_needed known (scope_of scope.now)) self.now.rows) }
    {
        match *scope {
            Scope::Nothing | Scope::InRoom(_) | Scope::OfTarget(_) => Ok(Vec::new(self.alloc)),
            Scope::NextCommits(_) => self.ranged(&log_end(2), &log_end(4), known),
            Scope::UpTo(number) => self.ranged(&log_end(0), &number_end(2, number), u64::MAX),
            Scope::Above(commits) => self.ranged(&number_end(2, commits), &log_end(4), commits),
            Scope::Items(items) => self.of_batch(known, items),
        }
    }

    /// Copies of the rows that a received batch of these items needs, in the order of their ids.
    fn of_batch(&self, known: u64, items: &[Item]) -> Result<Vec<LogRow>, AllocError>
        ensures { IfOk result (λ rows. rows.items ≡ filter (is_log_needed known (OfItems (map item_of items.now))) self.now.rows) }
    {
        let mut all = self.late(known, items)?;
        for item in items {
            all.put_each(self.named_by(item)?)?;
        }
        all.copies()
    }

    /// Copies of the rows that such a batch may move: the tentative ones in its tail, all of them if it has a new commit, and else those
    /// of the rooms of its writes.
    fn late(&self, known: u64, items: &[Item]) -> Result<Indexed<LogRow>, AllocError>
        ensures { IfOk result (λ late. late.rows ≡ filter (is_late_row known (map item_of items.now)) self.now.rows) }
    {
        let Ok(touched) = Touched::by(self.alloc, items, known) else {
            return Err(AllocError);
        };
        if touched.committed.is_empty() {
            let mut late = Indexed::new(self.alloc);
            late.put_each(self.late_in(&touched.rooms, &tail_of(items, known))?)?;
            return Ok(late);
        }
        Indexed::of(self.alloc, self.ranged(&log_end(2), &log_end(4), known)?)
    }

    /// Copies of the tentative rows of these rooms that are in the tail.
    fn late_in(&self, rooms: &RoomSet, tail: &Tail) -> Result<Vec<LogRow>, AllocError>
        ensures those { IfOk result (λ rows. AreThose (is_late_in (has_room rooms.now) tail.now) self.now.rows rows.items) }
        ensures order { InOrder id_before log_id self.now.rows }
    {
        let mut rows = Vec::new(self.alloc);
        for room in rooms {
            let first = tail_end(room, tail);
            let last = tail_end(room, &Tail::Nothing);
            let mut found = self.between(&first, &last)?;
            // Each of them is of the room; the test is for the prover.
            found.retain(|row| row.room == *room);
            rows.append(&mut found)?;
        }
        Ok(rows)
    }

    /// Copies of the rows that an item names.
    fn named_by(&self, item: &Item) -> Result<Vec<LogRow>, AllocError>
        ensures those { IfOk result (λ rows. AreThose (is_named (item_of item.now ∷ [])) self.now.rows rows.items) }
        ensures order { InOrder id_before log_id self.now.rows }
    {
        match item {
            Item::W(write) => self.with_id(write.stamp.id()),
            Item::C { seq, id } => {
                let number = seq.number();
                let mut rows = self.between(&number_end(0, number), &number_end(2, number))?;
                rows.append(&mut self.with_id(*id)?)?;
                Ok(rows)
            }
        }
    }
}
