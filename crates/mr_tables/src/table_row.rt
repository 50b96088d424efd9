ghost use Rattle.std.specs.Prelude.{◌≡◌, ◌↔◌, ◌≤◌, Bool, List, bytes_eq, IsTrue, IfOk};
ghost use Rattle.mr_model.specs.Texts.{Text};
ghost use Rattle.mr_model.specs.Writes.{Id};
ghost use Rattle.mr_model.specs.Replica.{is_among};
ghost use Rattle.mr_tables.specs.Change.{rows_without, id_before};
ghost use Rattle.mr_tables.specs.TableOrders.{IsOrder, InOrder};
ghost use Rattle.std.specs.Vec.{vec_len, vec_capacity};

use mr_base::{RoomName, WriteId};
use std::alloc::{AllocError, Global};

/// A row of a table, whose key has its place in the order of the table's keys.
pub trait TableRow: Drop {
    ghost Key: { Type 0 };

    ghost key: { Self → Key };

    ghost before: { Key → Key → Bool };

    /// Whether its key stands before that of the other row.
    fn is_before(&self, other: &Self) -> bool
        ensures { result ≡ before (key self.now) (key other.now) };

    /// An equal row.
    fn copied(&self, alloc: Global) -> Result<Self, AllocError>
        ensures { IfOk result (λ row. row ≡ self.now) };

    ghost order: { IsOrder Key before };
}

/// A row of a table that has rows of writes.
pub trait IdRow: TableRow {
    ghost id: { Self → Id };

    ghost room: { Self → Text };

    /// The id of its write.
    fn write_id(&self) -> WriteId
        ensures { result ≡ id self.now };

    /// Whether its write is of this room.
    fn is_in(&self, name: &RoomName) -> bool
        ensures { result ≡ bytes_eq (room self.now) name.now };

    // its key is its id
    ghost by_id: { (rows : List Self) → InOrder Self.before Self.key rows → InOrder id_before id rows };
}

/// Equal rows in the same order.
pub fn copies_of<R: TableRow>(alloc: Global, rows: &[R]) -> Result<Vec<R>, AllocError>
    ensures { IfOk result (λ copies. copies.items ≡ rows.now) }
{
    let mut copies = Vec::new(alloc);
    for row in rows {
        copies.push(row.copied(alloc)?)?;
    }
    Ok(copies)
}

/// Whether each row's key stands before that of the next row.
pub fn is_in_order<R: TableRow>(rows: &[R]) -> bool
    ensures { IsTrue result ↔ InOrder R.before R.key rows.now }
{
    rows.is_sorted_by(|one, next| one.is_before(next))
}

/// Takes the rows of these writes away: one pass, in which each row is compared with each of the writes, if there are any.
pub fn take_away<R: IdRow>(rows: &mut Vec<R>, gone: &[WriteId])
    ensures items { rows.new.items ≡ rows_without R.id gone.now rows.old.items }
    ensures len { vec_len rows.new ≤ vec_len rows.old }
    ensures capacity { vec_capacity rows.new ≡ vec_capacity rows.old }
{
    if gone.is_empty() {
        return;
    }
    rows.retain(|row| !is_of_any(row, gone));
}

fn is_of_any<R: IdRow>(row: &R, writes: &[WriteId]) -> bool
    ensures { result ≡ is_among (R.id row.now) writes.now }
{
    for write in writes {
        if row.write_id() == *write {
            return true;
        }
    }
    false
}
