ghost use Rattle.std.specs.Prelude.{◌≡◌, ◌<◌, ◌≤◌, true, false, Some, bytes_eq, Err, IfOk};
ghost use Rattle.std.specs.List.{list_any};
ghost use Rattle.mr_model.specs.Replica.{Replica, IsReplica};
ghost use Rattle.mr_model.specs.Scopes.{OfTarget};
ghost use Rattle.mr_part.specs.Answering.{NeverStore, put_cancel_outcome};
ghost use Rattle.mr_part.specs.NextId.{next_own_id};
ghost use Rattle.mr_part.specs.Parts.{IsPartOf, TakesPart};
ghost use Rattle.mr_part.specs.Placing.{has_booking_on};
ghost use Rattle.mr_part.specs.Steps.{cancel_request, outcome_at_room};
ghost use Rattle.mr_tables.specs.Summary.{tally_at};

use crate::Part;
use crate::calls::placing::has_booking;
use mr_base::{Refusal, RoomName, Write, WriteId};
use mr_tables::Change;
use mr_tables::rooms::is_known;

impl Part {
    /// Accepts a cancel of a booking of the room, which has to be known: it becomes the last write of the order, with the next
    /// stamp of the own server. The answer is its id, and what that changes in the tables: the change puts one row into `cancels`,
    /// which says what became of it. If it takes its target back, it moves that from `booking` to `cancelled`.
    pub fn cancel(&self, room: RoomName, target: WriteId) -> Result<(WriteId, Change), Refusal>
        ensures step { TakesPart (OfTarget target) (cancel_request room target) (λ a done. outcome_at_room room a done.0) (λ done. done.1) self.now result }
        ensures told { (a : Replica) → IsReplica a → IsPartOf self.now (OfTarget target) a
            → IfOk result (λ done. outcome_at_room room (cancel_request room target a).replica done.0 ≡ put_cancel_outcome done.1.cancels) }
        ensures id { IfOk result (λ done. next_own_id self.now.summary ≡ Some done.0) }
        // A refusal that is due is returned without memory.
        ensures due_room { list_any (bytes_eq room) self.now.rooms ≡ false → result ≡ Err Refusal.UnknownRoom }
        ensures due_target { list_any (bytes_eq room) self.now.rooms ≡ true → has_booking_on self.now.board room target ≡ false
            → result ≡ Err Refusal.NoSuchRequest }
        ensures due_clock { list_any (bytes_eq room) self.now.rooms ≡ true → has_booking_on self.now.board room target ≡ true
            → 999_999_999_999 ≤ self.now.summary.clock → result ≡ Err Refusal.ClockExhausted }
        ensures due_count { list_any (bytes_eq room) self.now.rooms ≡ true → has_booking_on self.now.board room target ≡ true
            → self.now.summary.clock < 999_999_999_999
            → 999_999_999 ≤ (tally_at self.now.summary.tallies self.now.summary.server).count → result ≡ Err Refusal.CountExhausted }
        ensures own { NeverStore result }
    {
        if !is_known(&self.rooms, &room) {
            return Err(Refusal::UnknownRoom);
        }
        if !has_booking(&self.board, &room, target) {
            return Err(Refusal::NoSuchRequest);
        }
        let stamp = self.summary.next_stamp()?;
        let write = Write::cancel(stamp, room, target);
        // For the prover alone: the write is within its limits.
        write.is_within_limits();
        let change = self.accept(&write)?;
        Ok((stamp.id(), change))
    }
}
