ghost use Rattle.std.specs.Prelude.{◌≡◌, ◌++◌, not, map, OnOk, IfOk, IfErr};
ghost use Rattle.std.specs.List.Sorted.{IsPermutation, IsSortedByKey};
ghost use Rattle.std.specs.Ordering.{nat_cmp};
ghost use Rattle.mr_agree.specs.Agreeing.{notes};
ghost use Rattle.mr_audit.specs.Apart.{apart, do_numbers_differ, is_next_number, are_numbers_single};

use crate::note_rows::{Note, NoteRow};
use mr_base::Refusal;
use mr_tables::Tables;
use std::alloc::Global;

/// Whether no two writes have one commit number. It takes 24 bytes for each row of `log`, `errorlog` and `cancels`.
pub fn are_numbers_single(alloc: Global, tables: &Tables) -> Result<bool, Refusal>
    ensures single { IfOk result (λ is_so. is_so ≡ are_numbers_single tables.now) }
    ensures only { IfErr result (λ e. e ≡ Refusal.OutOfMemory) }
{
    let mut notes = notes_of(alloc, tables)?;
    sort_notes(&mut notes);
    Ok(are_in_order(&notes))
}

fn notes_of(alloc: Global, tables: &Tables) -> Result<Vec<Note>, Refusal>
    ensures notes { IfOk result (λ all. all.items ≡ notes tables.now) }
    ensures only { IfErr result (λ e. e ≡ Refusal.OutOfMemory) }
{
    let mut notes = Vec::new(alloc);
    push_notes(&mut notes, &tables.log)?;
    push_notes(&mut notes, &tables.errorlog)?;
    push_notes(&mut notes, &tables.cancels)?;
    Ok(notes)
}

fn push_notes<R: NoteRow>(notes: &mut Vec<Note>, rows: &[R]) -> Result<(), Refusal>
    ensures notes { OnOk result (notes.new.items ≡ notes.old.items ++ map R.note rows.now) }
    ensures only { IfErr result (λ e. e ≡ Refusal.OutOfMemory) }
{
    for row in rows {
        notes.push(row.note())?;
    }
    Ok(())
}

fn sort_notes(notes: &mut Vec<Note>)
    ensures moved { IsPermutation notes.old.items notes.new.items }
    ensures sorted { IsSortedByKey (λ a. a.seq) nat_cmp notes.new.items }
{
    notes.sort_unstable_by_key(|note| note.seq);
}

/// Whether no two of sorted notes are of two writes with one commit number.
fn are_in_order(notes: &[Note]) -> bool
    ensures { IsSortedByKey (λ a. a.seq) nat_cmp notes.now → result ≡ apart (λ a b. not (do_numbers_differ a b)) notes.now }
{
    notes.is_sorted_by(|one, next| is_next(one, next))
}

/// Whether the next has a greater number, or none as well, or the number of the same write.
fn is_next(one: &Note, next: &Note) -> bool
    ensures { result ≡ is_next_number one.now next.now }
{
    one.seq < next.seq || (one.seq == next.seq && (one.seq == 0 || one.id == next.id))
}
