ghost use Rattle.std.specs.Prelude.{◌≡◌, ◌||◌, not, map, length, IfOk, IfErr};
ghost use Rattle.mr_model.specs.Replay.{Place as PlaceOfWrite};
ghost use Rattle.mr_model.specs.Writes.{Write as WriteOfRoom};
ghost use Rattle.mr_replay.specs.Places.{place_seen};
ghost use Rattle.mr_part.specs.PartMoves.{same_place, is_new, is_elsewhere, picked};
ghost use Rattle.mr_part.specs.Logged.{undo_with};

use crate::batch::movable::Undoable;
use mr_base::{Refusal, Write};
use mr_replay::{Place, UndoRow};
use mr_tables::summary::Summary;
use std::alloc::Global;

/// Of the writes that were executed anew those whose rows in the log change: the new commits, of which there are so many and which
/// stand first, and behind them those that are new by the old numbers or have another place than they had. The rows are those of the writes.
pub(crate) fn changed_of(
    alloc: Global,
    old: &Summary,
    news: u64,
    writes: Vec<Write>,
    was: &[UndoRow],
    rows: &[UndoRow],
) -> Result<Undoable, Refusal>
    requires { (length writes.items ≡ length was.now) × (length writes.items ≡ length rows.now) }
    ensures changed { (before place : WriteOfRoom → PlaceOfWrite) → was.now ≡ map (undo_with before) writes.items → rows.now ≡ map (undo_with place) writes.items
        → IfOk result (λ c. (c.writes.items ≡ picked news (is_elsewhere old.now before place) writes.items)
        × (c.undo.items ≡ map (undo_with place) (picked news (is_elsewhere old.now before place) writes.items))) }
    ensures as_many { IfOk result (λ c. length c.writes.items ≡ length c.undo.items) }
    ensures only { IfErr result (λ e. e ≡ Refusal.OutOfMemory) }
{
    let mut changed = Undoable {
        writes: Vec::new(alloc),
        undo: Vec::new(alloc),
    };
    let mut k = 0;
    for write in writes {
        let moved = is_elsewhere(old, &write, was[k], rows[k]);
        let is_changed = ((k as u64) < news) | moved;
        changed.push_if(is_changed, write, rows[k])?;
        k += 1;
    }
    Ok(changed)
}

/// Whether the write is new by the old numbers, or has another place than it had.
fn is_elsewhere(old: &Summary, write: &Write, was: UndoRow, row: UndoRow) -> bool
    ensures { result ≡ (is_new old.now write.now || not (same_place was.place row.place)) }
{
    let stamp = write.stamp;
    stamp.n > old.tally(stamp.server).count || !same_place(was.place, row.place)
}

fn same_place(place: Place, other: Place) -> bool
    ensures { result ≡ same_place (place_seen place) (place_seen other) }
{
    match (place, other) {
        (Place::Taken(number), Place::Taken(same)) => number == same,
        (Place::Logged, Place::Logged) => true,
        (Place::Done, Place::Done) => true,
        (Place::Void, Place::Void) => true,
        _ => false,
    }
}
