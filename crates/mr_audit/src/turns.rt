ghost use Rattle.std.specs.Prelude.{◌≡◌, ◌≤◌, ◌↔◌, length, IsTrue};
ghost use Rattle.std.specs.List.{list_all};
ghost use Rattle.mr_tables.specs.Rise.{Rise};
ghost use Rattle.mr_tables.specs.TableOrders.{InOrder};
ghost use Rattle.mr_agree.specs.Agreeing.{are_numbers_in_order};
ghost use Rattle.mr_audit.specs.Turns.{comes_before, is_same_note, are_two_in_turn, FrontFits, BehindFits, are_fitting};

use crate::note_rows::{Note, NoteRow};
use mr_tables::is_id_before;

/// Whether the id is before the other one, and of one server's writes so are the time and the number.
pub(crate) fn comes_before(one: Note, next: Note) -> bool
    ensures { result ≡ comes_before one next }
{
    is_id_before(one.id, next.id)
        && (one.id.server != next.id.server
            || (one.time < next.time && are_numbers_in_order(one.seq, next.seq)))
}

/// Whether a later write may have the second number if its server's earlier one has the first; 0 is none.
fn are_numbers_in_order(seq: u64, later: u64) -> bool
    ensures { result ≡ are_numbers_in_order seq later }
{
    later == 0 || (seq != 0 && seq < later)
}

fn is_same_note(one: Note, other: Note) -> bool
    ensures { result ≡ is_same_note one other }
{
    one.id == other.id && (one.time == other.time && one.seq == other.seq)
}

/// Whether each row comes before the next.
pub(crate) fn is_chain<R: NoteRow>(rows: &[R]) -> bool
    ensures { IsTrue result ↔ Rise comes_before R.note rows.now }
{
    rows.is_sorted_by(|one, next| comes_before(one.note(), next.note()))
}

/// Whether the notes of each of these rows and of each of the others, which are a chain, are in turn.
pub(crate) fn are_fitting<R: NoteRow, S: NoteRow>(rows: &[R], others: &[S]) -> bool
    requires { InOrder comes_before S.note others.now }
    ensures { result ≡ are_fitting R.note S.note rows.now others.now }
{
    for row in rows {
        if !is_fitting(row.note(), others) {
            return false;
        }
    }
    true
}

/// The same of one note: the rows in front of its place and at it tell of all.
fn is_fitting<R: NoteRow>(note: Note, rows: &[R]) -> bool
    requires { InOrder comes_before R.note rows.now }
    ensures { result ≡ list_all (λ row. are_two_in_turn note (R.note row)) rows.now }
{
    let at = rows.partition_point(|row| is_id_before(row.note().id, note.id));
    let front = is_front_fitting(rows, at, note);
    let behind = is_behind_fitting(rows, at, note);
    front & behind
}

fn is_front_fitting<R: NoteRow>(rows: &[R], at: usize, note: Note) -> bool
    requires { at ≤ length rows.now }
    ensures { IsTrue result ↔ FrontFits R.note rows.now at note }
{
    if at == 0 {
        return true;
    }
    let last = at - 1;
    let row = &rows[last];
    comes_before(row.note(), note)
}

fn is_behind_fitting<R: NoteRow>(rows: &[R], at: usize, note: Note) -> bool
    ensures { IsTrue result ↔ BehindFits R.note rows.now at note }
{
    if at >= rows.len() {
        return true;
    }
    let row = &rows[at];
    let next = row.note();
    let same = is_same_note(note, next);
    same | comes_before(note, next)
}
