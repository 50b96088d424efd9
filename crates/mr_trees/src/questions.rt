ghost use Rattle.std.specs.Prelude.{◌≡◌, bytes_eq, filter, map, IfOk, IfErr, OnOk, OnErr, IsTrue};
ghost use Rattle.std.specs.List.Sorted.{IsPermutation, IsSortedBy};
ghost use Rattle.sqlite_disk.specs.Disk.{MoreFaults};
ghost use Rattle.sqlite_trees.specs.Tree.{Trees};
ghost use Rattle.sqlite_trees.specs.View.{IsClean, IsQuiet, KeepsCommitted};
ghost use Rattle.sqlite_exec.specs.Calls.{OnlyReads};
ghost use Rattle.mr_store.specs.Answers.{IsAnswerTo, IsNamedAs};
ghost use Rattle.mr_store.specs.Picked.{is_day_asked as day_is_asked, booking_before, AreBookings};
ghost use Rattle.mr_rows.specs.Shown.{AreOurRows};
ghost use Rattle.mr_trees.specs.Trouble.{IsCause};
ghost use Rattle.mr_trees.specs.TreeTables.{tables_shown};
ghost use Rattle.mr_trees.specs.Scanned.{IsCalm, Stays};

use crate::places::place_of;
use crate::rows::{Picked, RoomRow};
use crate::scans::scan;
use crate::troubles::Trouble;
use mr_base::{Day, RoomName};
use mr_store::{Answer, Question, sort_bookings};
use mr_tables::BookingRow;
use sqlite_trees::error::StoreError;
use sqlite_trees::store::Store;
use std::alloc::{AllocError, Global};

/// The rows of a room, in the order of the tree.
pub(crate) fn rows_in<R: RoomRow, S: Store>(
    store: &mut S,
    alloc: Global,
    room: &RoomName,
) -> Result<Vec<R>, Trouble>
    ensures ok { IfOk result (λ rows. IsClean (S.Store.view store.new)
        → rows.items ≡ filter (λ row. bytes_eq (R.AskedRow.room_of row) room.now) (map R.StoredRow.form.row_in ((S.Store.view store.old).trees R.StoredRow.form.table.tree))) }
    ensures same { OnOk result (IsClean (S.Store.view store.new) → OnlyReads (S.Store.view store.old) (S.Store.view store.new)) }
    ensures err { OnErr result (IsClean (S.Store.view store.new) → KeepsCommitted (S.Store.view store.old) (S.Store.view store.new)) }
    ensures cause { IfErr result (λ e. IsClean (S.Store.view store.new)
        → IsCause (S.Store.view store.old) (MoreFaults (S.Store.faults store.old) (S.Store.faults store.new)) (¬ AreOurRows (S.Store.view store.old).trees) e) }
    ensures quiet { IsQuiet S.Store.view S.Store.faults S.Store.recovers S.Store.is_shielded store.old store.new }
{
    scan(store, alloc, Picked::OfRoom(R::room_column(), room))
}

fn is_asked(day: Option<Day>, of: Day) -> bool
    ensures { result ≡ day_is_asked day of }
{
    match day {
        None => true,
        Some(day) => day == of,
    }
}

fn keep_asked(rows: &mut Vec<BookingRow>, day: Option<Day>)
    ensures { rows.new.items ≡ filter (λ row. day_is_asked day row.day) rows.old.items }
{
    rows.retain(|row| is_asked(day, row.day));
}

/// Of these rows those of the day, in the order of a calendar.
fn calendar(mut rows: Vec<BookingRow>, day: Option<Day>) -> Result<Vec<BookingRow>, AllocError>
    ensures same { IfOk result (λ out. IsPermutation (filter (λ row. day_is_asked day row.day) rows.items) out.items) }
    ensures sorted { IfOk result (λ out. IsSortedBy booking_before out.items) }
{
    keep_asked(&mut rows, day);
    sort_bookings(&mut rows)?;
    Ok(rows)
}

/// The bookings of a room, of a day or of all days.
fn bookings_of<S: Store>(
    store: &mut S,
    alloc: Global,
    room: &RoomName,
    day: Option<Day>,
) -> Result<Vec<BookingRow>, Trouble>
    ensures ok { IfOk result (λ rows. IsClean (S.Store.view store.new) → AreBookings room.now day (tables_shown (S.Store.view store.old).trees) rows.items) }
    ensures same { OnOk result (IsClean (S.Store.view store.new) → OnlyReads (S.Store.view store.old) (S.Store.view store.new)) }
    ensures err { OnErr result (IsClean (S.Store.view store.new) → KeepsCommitted (S.Store.view store.old) (S.Store.view store.new)) }
    ensures cause { IfErr result (λ e. IsClean (S.Store.view store.new)
        → IsCause (S.Store.view store.old) (MoreFaults (S.Store.faults store.old) (S.Store.faults store.new)) (¬ AreOurRows (S.Store.view store.old).trees) e) }
    ensures quiet { IsQuiet S.Store.view S.Store.faults S.Store.recovers S.Store.is_shielded store.old store.new }
{
    let rows = rows_in(store, alloc, room)?;
    match calendar(rows, day) {
        Ok(rows) => Ok(rows),
        Err(_) => Err(Trouble::OutOfMemory),
    }
}

/// What the tables answer to the question, in the transaction as it is.
fn answer<S: Store>(
    store: &mut S,
    alloc: Global,
    question: &Question<'_>,
) -> Result<Answer, Trouble>
    ensures ok { IfOk result (λ answer. IsClean (S.Store.view store.new) → IsAnswerTo question.now (tables_shown (S.Store.view store.old).trees) answer) }
    ensures named { IfOk result (IsNamedAs question.now) }
    ensures same { OnOk result (IsClean (S.Store.view store.new) → OnlyReads (S.Store.view store.old) (S.Store.view store.new)) }
    ensures err { OnErr result (IsClean (S.Store.view store.new) → KeepsCommitted (S.Store.view store.old) (S.Store.view store.new)) }
    ensures cause { IfErr result (λ e. IsClean (S.Store.view store.new)
        → IsCause (S.Store.view store.old) (MoreFaults (S.Store.faults store.old) (S.Store.faults store.new)) (¬ AreOurRows (S.Store.view store.old).trees) e) }
    ensures quiet { IsQuiet S.Store.view S.Store.faults S.Store.recovers S.Store.is_shielded store.old store.new }
{
    match *question {
        Question::Rooms => Ok(Answer::Rooms(scan(store, alloc, Picked::All)?)),
        Question::Bookings(room, day) => {
            Ok(Answer::Bookings(bookings_of(store, alloc, room, day)?))
        }
        Question::PlaceOf(room, id) => Ok(Answer::PlaceOf(place_of(store, alloc, room, id)?)),
        Question::Errors(room) => Ok(Answer::Errors(rows_in(store, alloc, room)?)),
        Question::Cancelled(room) => Ok(Answer::Cancelled(rows_in(store, alloc, room)?)),
        Question::Cancels(room) => Ok(Answer::Cancels(rows_in(store, alloc, room)?)),
    }
}

/// The same, of a store that is no broken transaction's, as a shut one is.
fn answer_unbroken<S: Store>(
    store: &mut S,
    alloc: Global,
    question: &Question<'_>,
) -> Result<Answer, Trouble>
    ensures ok { IfOk result (λ answer. IsClean (S.Store.view store.new) → IsAnswerTo question.now (tables_shown (S.Store.view store.old).trees) answer) }
    ensures named { IfOk result (IsNamedAs question.now) }
    ensures asked { OnOk result (IsClean (S.Store.view store.new) → IsTrue (S.Store.view store.old).is_open) }
    ensures same { OnOk result (IsClean (S.Store.view store.new) → OnlyReads (S.Store.view store.old) (S.Store.view store.new)) }
    ensures err { OnErr result (IsClean (S.Store.view store.new) → KeepsCommitted (S.Store.view store.old) (S.Store.view store.new)) }
    ensures cause { IfErr result (λ e. IsClean (S.Store.view store.new)
        → IsCause (S.Store.view store.old) (MoreFaults (S.Store.faults store.old) (S.Store.faults store.new)) (¬ AreOurRows (S.Store.view store.old).trees) e) }
    ensures quiet { IsQuiet S.Store.view S.Store.faults S.Store.recovers S.Store.is_shielded store.old store.new }
{
    if store.is_broken() {
        return Err(Trouble::Store(StoreError::Broken));
    }
    answer(store, alloc, question)
}

/// What the tables of a store answer to the question. Only rows that the answer needs are read: those of the room, and all of `room`. A failure
/// leaves the store as it was, unless it shuts it.
pub fn query<S: Store>(
    store: &mut S,
    alloc: Global,
    question: &Question<'_>,
) -> Result<Answer, Trouble>
    ensures answers { IfOk result (λ answer. IsClean (S.Store.view store.new) → IsAnswerTo question.now (tables_shown (S.Store.view store.old).trees) answer) }
    ensures named { IfOk result (IsNamedAs question.now) }
    ensures clean { IsClean (S.Store.view store.new) → IsClean (S.Store.view store.old) }
    ensures opens { IsClean (S.Store.view store.new) → IsTrue (S.Store.view store.new).is_open → IsTrue (S.Store.view store.old).is_open }
    ensures asked { OnOk result (IsClean (S.Store.view store.new) → IsTrue (S.Store.view store.old).is_open) }
    ensures lasts { OnOk result (IsClean (S.Store.view store.new) → IsTrue (S.Store.view store.old).is_open → IsTrue (S.Store.view store.new).is_open) }
    ensures stays { IsClean (S.Store.view store.new) → IsTrue (S.Store.view store.new).is_open → IsCalm (S.Store.view store.old) → Stays (S.Store.view store.old) (S.Store.view store.new) }
    ensures cause { IfErr result (λ e. IsClean (S.Store.view store.new)
        → IsCause (S.Store.view store.old) (MoreFaults (S.Store.faults store.old) (S.Store.faults store.new)) (¬ AreOurRows (S.Store.view store.old).trees) e) }
    ensures crash { (db : Trees) → S.Store.recovers store.new db → S.Store.recovers store.old db }
{
    let outcome = answer_unbroken(store, alloc, question);
    if outcome.is_err() {
        store.rollback();
    }
    outcome
}
