//! What the index of a table's key has of each row, and whether it has that and nothing else.

ghost use Rattle.std.specs.Prelude.{◌≡◌, ◌<◌, OnOk};
ghost use Rattle.sqlite_trees.specs.View.{IsClean, IsQuiet};
ghost use Rattle.sqlite_exec.specs.Calls.{OnlyReads};

use crate::troubles::Trouble;
use sqlite_trees::store::{Direction, Store};
use sqlite_value::keys::Order;
use sqlite_value::order::is_same;
use sqlite_value::row::Row;
use sqlite_value::value::ValueRef;
use std::alloc::{AllocError, Global};
use std::cmp::Ordering;

/// The key of a row and its rowid, as its table's index has them.
pub(crate) trait Entry: Drop {
    /// That of a row whose key begins in this column.
    fn of(alloc: Global, row: &Row, at: usize) -> Result<Self, Trouble>
        requires { at < 100 };

    /// In which order they are in the index.
    fn compare(&self, other: &Self) -> Ordering;

    fn has_key_of(&self, other: &Self) -> bool;

    /// Whether the index has it so.
    fn is(&self, entry: &Row) -> bool;
}

/// A key of one column.
impl Entry for Row {
    fn of(alloc: Global, row: &Row, at: usize) -> Result<Row, Trouble> {
        let mut entry = Row::new(alloc);
        entry.push(row.get(at))?;
        entry.push(row.get(0))?;
        Ok(entry)
    }

    fn compare(&self, other: &Row) -> Ordering {
        self.cmp_entry(Order::PLAIN, other)
    }

    fn has_key_of(&self, other: &Row) -> bool {
        is_same(self.get(0), other.get(0))
    }

    fn is(&self, entry: &Row) -> bool {
        self.is_same(entry)
    }
}

/// The id of a write, of two columns.
#[derive(Clone, Copy, Debug, PartialEq, Eq, PartialOrd, Ord)]
pub(crate) struct IdEntry {
    server: i64,
    n: i64,
    rowid: i64,
}

fn whole_at(row: &Row, at: usize) -> Result<i64, Trouble> {
    match row.get(at) {
        ValueRef::Int(n) => Ok(n),
        _ => Err(Trouble::Rows),
    }
}

fn has_whole(row: &Row, at: usize, wanted: i64) -> bool {
    match row.get(at) {
        ValueRef::Int(n) => n == wanted,
        _ => false,
    }
}

impl Entry for IdEntry {
    fn of(_alloc: Global, row: &Row, at: usize) -> Result<IdEntry, Trouble> {
        let server = whole_at(row, at)?;
        let n = whole_at(row, at + 1)?;
        let rowid = whole_at(row, 0)?;
        Ok(IdEntry { server, n, rowid })
    }

    fn compare(&self, other: &IdEntry) -> Ordering {
        self.cmp(other)
    }

    fn has_key_of(&self, other: &IdEntry) -> bool {
        self.server == other.server && self.n == other.n
    }

    fn is(&self, entry: &Row) -> bool {
        entry.len() == 3
            && has_whole(entry, 0, self.server)
            && has_whole(entry, 1, self.n)
            && has_whole(entry, 2, self.rowid)
    }
}

pub(crate) fn sort_entries<E: Entry>(entries: &mut Vec<E>) -> Result<(), AllocError> {
    entries.sort_by(|a, b| a.compare(b))
}

/// Whether no two of these, which are sorted, have one key.
pub(crate) fn are_apart<E: Entry>(entries: &[E]) -> bool {
    'at: for at in 1..entries.len() {
        if entries[at].has_key_of(&entries[at - 1]) {
            return false;
        }
    }
    true
}

/// Whether the index has just these, in this order.
pub(crate) fn has_just<E: Entry, S: Store>(
    store: &mut S,
    alloc: Global,
    index: u32,
    entries: &[E],
) -> Result<bool, Trouble>
    ensures same { OnOk result (IsClean (S.Store.view store.new) → OnlyReads (S.Store.view store.old) (S.Store.view store.new)) }
    ensures quiet { IsQuiet S.Store.view S.Store.faults S.Store.recovers S.Store.is_shielded store.old store.new }
{
    let mut found = Row::new(alloc);
    store.seek(0, index, &found, Direction::Forward)?;
    'entries: for entry in entries {
        if !store.next(0, &mut found)? || !entry.is(&found) {
            return Ok(false);
        }
    }
    Ok(!store.next(0, &mut found)?)
}
