ghost use Rattle.std.specs.Prelude.{◌≡◌, ◌+◌, ◌<◌, ◌≤◌, ◌^◌, true, false, [], ◌∷◌, Some, None, bytes_eq, Err, IfOk, IfErr};
ghost use Rattle.std.specs.List.{list_any};
ghost use Rattle.mr_model.specs.Replica.{Replica, IsReplica};
ghost use Rattle.mr_model.specs.Scopes.{InRoom};
ghost use Rattle.mr_part.specs.Answering.{NeverStore, put_outcome};
ghost use Rattle.mr_part.specs.NextId.{next_own_id};
ghost use Rattle.mr_part.specs.Parts.{IsPartOf, TakesPart};
ghost use Rattle.mr_part.specs.Placing.{part_puts, CanPut};
ghost use Rattle.mr_part.specs.Steps.{submit_request, outcome_in};
ghost use Rattle.mr_tables.specs.Summary.{tally_at, noted_write};
ghost use Rattle.mr_tables.specs.Written.{meta_of, changed_tallies as rows_changed, written};

use crate::Part;
use crate::calls::placing::{put_places, taken_rows};
use mr_base::{Refusal, Request, Write, WriteId};
use mr_replay::UndoRow;
use mr_tables::Change;
use mr_tables::rooms::is_known;
use mr_tables::summary::Summary;
use mr_tables::vector::changed_tallies;
use mr_tables::written::written;
use std::alloc::Global;
use std::slice;

impl Part {
    /// Accepts a request: it becomes the last write of the order, with the next stamp of the own server. The answer is its id,
    /// and what that changes in the tables: the change puts one row into `booking` or into `errorlog`, which says what became
    /// of the request.
    pub fn submit(&self, request: Request) -> Result<(WriteId, Change), Refusal>
        ensures step { TakesPart (InRoom request.room) (submit_request request) (λ a done. outcome_in request a done.0) (λ done. done.1) self.now result }
        ensures told { (a : Replica) → IsReplica a → IsPartOf self.now (InRoom request.room) a
            → IfOk result (λ done. outcome_in request (submit_request request a).replica done.0 ≡ put_outcome done.1.booking done.1.errorlog) }
        ensures id { IfOk result (λ done. next_own_id self.now.summary ≡ Some done.0) }
        // A refusal that is due is returned without memory.
        ensures due_room { list_any (bytes_eq request.room) self.now.rooms ≡ false → result ≡ Err Refusal.UnknownRoom }
        ensures due_clock { list_any (bytes_eq request.room) self.now.rooms ≡ true → 999_999_999_999 ≤ self.now.summary.clock → result ≡ Err Refusal.ClockExhausted }
        ensures due_count { list_any (bytes_eq request.room) self.now.rooms ≡ true → self.now.summary.clock < 999_999_999_999
            → 999_999_999 ≤ (tally_at self.now.summary.tallies self.now.summary.server).count → result ≡ Err Refusal.CountExhausted }
        ensures own { NeverStore result }
    {
        if !is_known(&self.rooms, &request.room) {
            return Err(Refusal::UnknownRoom);
        }
        let stamp = self.summary.next_stamp()?;
        let write = Write::of_request(stamp, request);
        let change = self.accept(&write)?;
        Ok((stamp.id(), change))
    }

    /// Accepts a write with the next stamp of the own server: it becomes the last of the order. Answers what that changes in the
    /// tables: its rows are put, and that of the booking that it takes back.
    pub(crate) fn accept(&self, write: &Write) -> Result<Change, Refusal>
        ensures change { IfOk result (λ change. CanPut self.now (noted_write self.now.summary write.now.stamp) write.now
            → change ≡ part_puts self.now (noted_write self.now.summary write.now.stamp) write.now) }
        ensures only { IfErr result (λ e. e ≡ Refusal.OutOfMemory) }
    {
        let mut summary = self.summary;
        summary.note_write(write.stamp);
        let row = UndoRow::of(write, self.board.merge(write));
        let taken = taken_rows(self.alloc, &self.summary, &self.board, row)?;
        let mut change = last_write(self.alloc, &self.summary, &summary, write, row)?;
        put_places(&mut change, taken)?;
        Ok(change)
    }
}

/// What changes in the tables if this write becomes the last of the order, with what undoes it: its own rows are put.
fn last_write(
    alloc: Global,
    old: &Summary,
    summary: &Summary,
    write: &Write,
    row: UndoRow,
) -> Result<Change, Refusal>
    ensures change { IfOk result (λ change. summary.now.commits + 1 + 1 < 2 ^ 64
        → change ≡ written (meta_of summary.now) [] (rows_changed old.now.tallies summary.now.tallies) summary.now.commits (summary.now.commits + 1) (write.now ∷ []) (row ∷ []) (None ∷ [])) }
    ensures only { IfErr result (λ e. e ≡ Refusal.OutOfMemory) }
{
    let vector = changed_tallies(alloc, old, summary)?;
    let first = summary.commits.saturating_add(1);
    written(
        alloc,
        summary,
        Vec::new(alloc),
        vector,
        first,
        slice::from_ref(write),
        &[row],
        &[None],
    )
}
