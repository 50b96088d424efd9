ghost use Rattle.std.specs.Prelude.{◌≡◌, ◌≢◌, ◌<◌, ◌≤◌, true, false, bytes_eq, Some, Err, OnErr, IfOk};
ghost use Rattle.std.specs.List.{list_any};
ghost use Rattle.mr_model.specs.Exchange.{Header};
ghost use Rattle.mr_model.specs.Positions.{position_of};
ghost use Rattle.mr_model.specs.Replica.{Replica};
ghost use Rattle.mr_model.specs.Replies.{RoomAdded, CommittedIs, DroppedIs, Took, PositionIs, BatchIs};
ghost use Rattle.mr_model.specs.Step.{leave, add_room, commit, truncate, receive_batch, batch_reply};
ghost use Rattle.mr_part.specs.Answering.{NeverStore, put_outcome, put_cancel_outcome};
ghost use Rattle.mr_part.specs.Steps.{submit_request, outcome_in, cancel_request, outcome_at_room};
ghost use Rattle.mr_replica.specs.Desk.{DeskTakesStep, StandsFor};
ghost use Rattle.mr_replica.specs.Dues.{has_booking_id, own_count};
ghost use Rattle.mr_tables.specs.Change.{changed};

use crate::Desk;
use mr_base::{Batch, Item, LineCount, Position, Refusal, Request, RoomName, WriteId};
use mr_part::Scope;
use mr_tables::Change;

impl Desk {
    /// Adds a room that isn't known, and answers what that changes in the tables.
    pub fn add_room(&mut self, room: &RoomName) -> Result<Change, Refusal>
        ensures step { DeskTakesStep (λ a. add_room a room.now) (λ _ _. RoomAdded) self.old result self.new }
        ensures change { IfOk result (λ change. self.new ≡ changed change self.old) }
        ensures err { OnErr result (self.new ≡ self.old) }
        // A refusal that is due is returned without memory.
        ensures due { list_any (bytes_eq room.now) self.old.room ≡ true → result ≡ Err Refusal.RoomThere }
        ensures own { (a : Replica) → StandsFor self.old a → NeverStore result }
    {
        // For the prover alone: this is a room's name, and a scope may hold items.
        room.as_str();
        let _none: Option<&Item> = None;
        if self.memory.knows(room) {
            return Err(Refusal::RoomThere);
        }
        match self.part(&Scope::Nothing) {
            Ok(part) => self.changed_so(part.add_room(room)),
            Err(refusal) => Err(refusal),
        }
    }

    /// Accepts a request: it becomes the last write of the order, with the next stamp of the own server. The change that is
    /// answered puts one row into `booking` or into `errorlog`, which says what became of the request.
    pub fn submit(&mut self, request: Request) -> Result<(WriteId, Change), Refusal>
        ensures step { DeskTakesStep (submit_request request) (λ a done. outcome_in request a done.0) self.old result self.new }
        ensures change { IfOk result (λ done. self.new ≡ changed done.1 self.old) }
        ensures told { (a : Replica) → StandsFor self.old a
            → IfOk result (λ done. outcome_in request (submit_request request a).replica done.0 ≡ put_outcome done.1.booking done.1.errorlog) }
        ensures err { OnErr result (self.new ≡ self.old) }
        // A refusal that is due is returned without memory.
        ensures due_room { list_any (bytes_eq request.room) self.old.room ≡ false → result ≡ Err Refusal.UnknownRoom }
        ensures due_clock { list_any (bytes_eq request.room) self.old.room ≡ true → 999_999_999_999 ≤ self.old.meta.clock → result ≡ Err Refusal.ClockExhausted }
        ensures due_count { list_any (bytes_eq request.room) self.old.room ≡ true → self.old.meta.clock < 999_999_999_999 → 999_999_999 ≤ own_count self.old
            → result ≡ Err Refusal.CountExhausted }
        ensures own { (a : Replica) → StandsFor self.old a → NeverStore result }
    {
        // For the prover alone: a scope may hold items.
        let _none: Option<&Item> = None;
        if !self.memory.knows(&request.room) {
            return Err(Refusal::UnknownRoom);
        }
        if let Some(refusal) = self.memory.exhausted() {
            return Err(refusal);
        }
        match self.part(&Scope::InRoom(&request.room)) {
            Ok(part) => self.changed_by(part.submit(request)),
            Err(refusal) => Err(refusal),
        }
    }

    /// Accepts a cancel of a booking of the room, which has to be known: it becomes the last write of the order, with the next
    /// stamp of the own server. The change that is answered puts one row into `cancels`, which says what became of it. If it
    /// takes its target back, it moves that from `booking` to `cancelled`.
    pub fn cancel(&mut self, room: RoomName, target: WriteId) -> Result<(WriteId, Change), Refusal>
        ensures step { DeskTakesStep (cancel_request room target) (λ a done. outcome_at_room room a done.0) self.old result self.new }
        ensures change { IfOk result (λ done. self.new ≡ changed done.1 self.old) }
        ensures told { (a : Replica) → StandsFor self.old a
            → IfOk result (λ done. outcome_at_room room (cancel_request room target a).replica done.0 ≡ put_cancel_outcome done.1.cancels) }
        ensures err { OnErr result (self.new ≡ self.old) }
        // A refusal that is due is returned without memory.
        ensures due_room { list_any (bytes_eq room) self.old.room ≡ false → result ≡ Err Refusal.UnknownRoom }
        ensures due_target { list_any (bytes_eq room) self.old.room ≡ true → has_booking_id room target self.old ≡ false → result ≡ Err Refusal.NoSuchRequest }
        ensures due_clock { list_any (bytes_eq room) self.old.room ≡ true → has_booking_id room target self.old ≡ true → 999_999_999_999 ≤ self.old.meta.clock
            → result ≡ Err Refusal.ClockExhausted }
        ensures due_count { list_any (bytes_eq room) self.old.room ≡ true → has_booking_id room target self.old ≡ true → self.old.meta.clock < 999_999_999_999
            → 999_999_999 ≤ own_count self.old → result ≡ Err Refusal.CountExhausted }
        ensures own { (a : Replica) → StandsFor self.old a → NeverStore result }
    {
        // For the prover alone: these are a room's name and an id, and a scope may hold items.
        room.as_str();
        let _count = target.n;
        let _none: Option<&Item> = None;
        if !self.memory.knows(&room) {
            return Err(Refusal::UnknownRoom);
        }
        if !self.memory.has_booking(&room, target) {
            return Err(Refusal::NoSuchRequest);
        }
        if let Some(refusal) = self.memory.exhausted() {
            return Err(refusal);
        }
        match self.part(&Scope::OfTarget(target)) {
            Ok(part) => self.changed_by(part.cancel(room, target)),
            Err(refusal) => Err(refusal),
        }
    }

    /// Commits the first k tentative writes, or all if there are fewer, and answers how many they are, and what that
    /// changes in the tables. The order of execution stays, so nothing is executed again.
    pub fn commit(&mut self, k: u64) -> Result<(u64, Change), Refusal>
        ensures step { DeskTakesStep (λ a. commit a k) (λ _ done. CommittedIs done.0) self.old result self.new }
        ensures change { IfOk result (λ done. self.new ≡ changed done.1 self.old) }
        ensures err { OnErr result (self.new ≡ self.old) }
        // A refusal that is due is returned without memory.
        ensures due { self.old.meta.server ≢ self.old.meta.primary → result ≡ Err Refusal.NotPrimary }
        ensures own { (a : Replica) → StandsFor self.old a → NeverStore result }
    {
        // For the prover alone: a scope may hold items.
        let _none: Option<&Item> = None;
        let meta = self.memory.meta();
        if meta.server != meta.primary {
            return Err(Refusal::NotPrimary);
        }
        match self.part(&Scope::NextCommits(k)) {
            Ok(part) => self.changed_by(part.commit(k)),
            Err(refusal) => Err(refusal),
        }
    }

    /// Keeps the first commits up to this number no longer, and answers how many are dropped then, and what that changes in
    /// the tables.
    pub fn truncate(&mut self, number: u64) -> Result<(u64, Change), Refusal>
        ensures step { DeskTakesStep (λ a. truncate a number) (λ _ done. DroppedIs done.0) self.old result self.new }
        ensures change { IfOk result (λ done. self.new ≡ changed done.1 self.old) }
        ensures err { OnErr result (self.new ≡ self.old) }
        // A refusal that is due is returned without memory.
        ensures due_primary { self.old.meta.server ≡ self.old.meta.primary → result ≡ Err Refusal.PrimaryKeepsAll }
        ensures due_beyond { self.old.meta.server ≢ self.old.meta.primary → self.old.meta.commits < number → result ≡ Err Refusal.BeyondCommitted }
        ensures own { (a : Replica) → StandsFor self.old a → NeverStore result }
    {
        // For the prover alone: a scope may hold items.
        let _none: Option<&Item> = None;
        let meta = self.memory.meta();
        if meta.server == meta.primary {
            return Err(Refusal::PrimaryKeepsAll);
        }
        if number > meta.commits {
            return Err(Refusal::BeyondCommitted);
        }
        match self.part(&Scope::UpTo(number)) {
            Ok(part) => self.changed_by(part.truncate(number)),
            Err(refusal) => Err(refusal),
        }
    }

    /// Takes a batch whole, or not at all, and answers how many of its writes and of its commits were new, and what that
    /// changes in the tables.
    pub fn receive(&mut self, batch: &Batch) -> Result<(u64, u64, Change), Refusal>
        ensures step { DeskTakesStep (λ a. receive_batch a batch.now) (λ _ taken. Took taken.0 taken.1) self.old result self.new }
        ensures change { IfOk result (λ taken. self.new ≡ changed taken.2 self.old) }
        ensures err { OnErr result (self.new ≡ self.old) }
        // A refusal that is due is returned without memory.
        ensures due { (h : Header) → batch.now.header ≡ Some h → h.primary ≢ self.old.meta.primary → result ≡ Err Refusal.WrongPrimary }
        ensures own { (a : Replica) → StandsFor self.old a → NeverStore result }
    {
        // For the prover alone: the batch is within its limits.
        batch.is_within_limits();
        if let Some(header) = batch.header {
            if header.primary != self.memory.meta().primary {
                return Err(Refusal::WrongPrimary);
            }
        }
        match self.part(&Scope::Items(batch.items.as_slice())) {
            Ok(part) => self.changed_by_batch(part.receive(batch)),
            Err(refusal) => Err(refusal),
        }
    }

    /// How far the replica's knowledge goes, in the second version, so that it asks for batches that can say every write.
    pub fn position(&self) -> Result<Position, Refusal>
        ensures step { DeskTakesStep (λ a. leave a (PositionIs (position_of a))) (λ _ position. PositionIs position) self.now result self.now }
        ensures own { (a : Replica) → StandsFor self.now a → NeverStore result }
    {
        // For the prover alone: a scope may hold items.
        let _none: Option<&Item> = None;
        match self.part(&Scope::Nothing) {
            Ok(part) => part.position(),
            Err(refusal) => Err(refusal),
        }
    }

    /// What a replica at this position lacks: the commits above its own, each behind its write if that is lacked, then
    /// the tentative writes that it lacks, so many lines at most, in the position's version. It is refused if the position is of
    /// another primary, if one of the commits is dropped, and if that version can't say one of these writes, which the second always can.
    pub fn batch(&self, position: &Position, max_lines: LineCount) -> Result<Batch, Refusal>
        ensures step { DeskTakesStep (λ a. leave a (batch_reply a position.now max_lines)) (λ _ batch. BatchIs batch) self.now result self.now }
        // A refusal that is due is returned without memory.
        ensures due_primary { position.now.primary ≢ self.now.meta.primary → result ≡ Err Refusal.WrongPrimary }
        ensures due_truncated { position.now.primary ≡ self.now.meta.primary → position.now.commits < self.now.meta.dropped → result ≡ Err Refusal.Truncated }
        ensures own { (a : Replica) → StandsFor self.now a → NeverStore result }
    {
        let meta = self.memory.meta();
        if position.primary != meta.primary {
            return Err(Refusal::WrongPrimary);
        }
        if position.commits < meta.dropped {
            return Err(Refusal::Truncated);
        }
        match self.part(&Scope::Above(position.commits)) {
            Ok(part) => part.batch(position, max_lines),
            Err(refusal) => Err(refusal),
        }
    }
}
