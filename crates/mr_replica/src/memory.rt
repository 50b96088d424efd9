ghost use Rattle.std.specs.Prelude.{◌≡◌, false, [], bytes_eq, filter, IfOk, IfErr, IfSome, OnOk, OnErr};
ghost use Rattle.mr_model.specs.Replica.{Replica, opening};
ghost use Rattle.mr_model.specs.Scopes.{Above, OfTarget, in_scope, with_rows};
ghost use Rattle.mr_model.specs.Tables.{Stands, Tables as RowsOfTables, tables_of};
ghost use Rattle.mr_tables.specs.BoardChanges.{HaveOneRowEach};
ghost use Rattle.mr_tables.specs.Boards.{board_of};
ghost use Rattle.mr_tables.specs.Change.{changed};
ghost use Rattle.mr_tables.specs.Summary.{IsWithin};
ghost use Rattle.mr_replica.specs.Desk.{StandsFor, IsWithinLimits};
ghost use Rattle.mr_agree.specs.Ids.{has_place_of};
ghost use Rattle.mr_part.specs.NextId.{id_given};
ghost use Rattle.mr_part.specs.Parts.{IsLogOf, IsPartOf};
ghost use Rattle.mr_part.specs.ScopeOf.{scope_of};
ghost use Rattle.mr_replica.specs.Answers.{IsAnswerTo, IsNamedAs};
ghost use Rattle.mr_replica.specs.Ordered.{AreInOrder, IsDueOver};
ghost use Rattle.mr_replica.specs.Needed.{is_log_needed};
ghost use Rattle.mr_replica.specs.Picked.{IsPlaceOf};
ghost use Rattle.mr_replica.specs.SharedLog.{IsSharedLog};
ghost use Rattle.mr_replica.specs.Taken.{is_id_taken};
ghost use Rattle.mr_replica.specs.Writes.{tables_with};

use crate::indexed::Indexed;
use crate::order::are_in_order;
use crate::puts::{put_rows, with_rows};
use crate::shared_board::{board_after, is_of_rooms, shared_board};
use crate::shared_log::{log_after, shared_log};
use crate::writes::Writes;
use crate::{Answer, Desk, Question};
use mr_base::{Refusal, RoomName, ServerId, WriteId};
use mr_part::kept_rows::KeptRow;
use mr_part::{Part, Scope};
use mr_replay::Board;
use mr_tables::board_changes::BoardTables;
use mr_tables::table_row::{TableRow, copies_of};
use mr_tables::{
    BookingRow, CancelRow, CancelledRow, Change, ErrorRow, MetaRow, PlaceRow, Tables, VectorRow,
};
use std::alloc::{AllocError, Global};
use std::marker::Model;
use std::rc::Rc;

/// From so many rows on a log is shared: fewer are copied sooner than all are put in order.
const MANY_ROWS: u64 = 256;

/// How many lines a batch usually has. Whoever learns so many rows in such batches has about their square over this copied.
const USUAL_LINES: u64 = 64;

/// A replica's rows in memory: the tables of writes by their ids and second keys, the short ones as lists in the order of their keys.
#[derive(Drop)]
pub struct Memory {
    alloc: Global,
    pub(crate) meta: MetaRow,
    pub(crate) room: Vec<RoomName>,
    pub(crate) vector: Vec<VectorRow>,
    pub(crate) writes: Writes,
    /// The board that the tables tell, if it is there. Parts that go by rooms share it.
    board: Option<Rc<Board>>,
    /// All kept writes in the order of execution, from when an office asks for many of them until a change moves one of them past another.
    /// Parts for batches share them.
    log: Option<Rc<Vec<KeptRow>>>,
}

impl Model for Memory {
    ghost Value = { RowsOfTables };

    ghost view = { λ m. tables_with m.meta m.room.items m.vector.items m.writes };

    ghost invariant = { λ m. IfSome m.board (λ board. board.value ≡ board_of (tables_with m.meta m.room.items m.vector.items m.writes))
        × IfSome m.log (λ log. IsSharedLog m.writes.log.rows log.value.items) };
}

impl Memory {
    /// These tables. It is refused with 25 if the rows of a table aren't in the order of their keys, and else only with 24.
    pub fn over(alloc: Global, tables: Tables) -> Result<Memory, Refusal>
        ensures over { IfOk result (λ memory. memory ≡ tables) }
        ensures due { IfErr result (IsDueOver tables) }
    {
        if !are_in_order(&tables) {
            return Err(Refusal::Store);
        }
        let board = shared_board(alloc, &tables);
        Ok(Memory::of(alloc, tables, board)?)
    }

    pub(crate) fn of(
        alloc: Global,
        tables: Tables,
        board: Option<Rc<Board>>,
    ) -> Result<Memory, AllocError>
        requires order { AreInOrder tables }
        requires board { IfSome board (λ board. board.value ≡ board_of tables) }
        ensures { IfOk result (λ memory. memory ≡ tables) }
    {
        let writes = Writes {
            log: Indexed::of(alloc, tables.log)?,
            booking: Indexed::of(alloc, tables.booking)?,
            errorlog: Indexed::of(alloc, tables.errorlog)?,
            cancelled: Indexed::of(alloc, tables.cancelled)?,
            cancels: Indexed::of(alloc, tables.cancels)?,
        };
        Ok(Memory {
            alloc,
            meta: tables.meta,
            room: tables.room,
            vector: tables.vector,
            writes,
            board,
            log: None,
        })
    }

    /// The tables of a replica that knows nothing yet. They take their memory from this allocator later, as they grow.
    pub fn opening(alloc: Global, server: ServerId, primary: ServerId) -> Memory
        ensures tables { result ≡ tables_of (opening server primary) }
        ensures stands { Stands result (opening server primary) }
    {
        // For the prover alone: servers are from 1 to 99.
        server.number();
        primary.number();
        Memory {
            alloc,
            meta: MetaRow::opening(server, primary),
            room: Vec::new(alloc),
            vector: Vec::new(alloc),
            writes: Writes::new(alloc),
            board: None,
            log: None,
        }
    }

    /// Makes what a command of this scope shares if it isn't there, the board or the log: so it is made when it is first wanted, and again
    /// after it was lost. If memory doesn't take it, or a row is out of the limits, there is none.
    pub fn want_board(&mut self, scope: &Scope<'_>)
        ensures { self.new ≡ self.old }
    {
        if self.board.is_none() && is_of_rooms(scope) {
            self.make_board();
        }
        if self.log.is_none() && self.is_for_many(scope) {
            self.make_log();
        }
    }

    fn make_board(&mut self)
        ensures { self.new ≡ self.old }
    {
        if let Ok(tables) = self.read() {
            self.board = shared_board(self.alloc, &tables);
        }
    }

    fn make_log(&mut self)
        ensures { self.new ≡ self.old }
    {
        self.log = shared_log(self.alloc, &self.writes.log);
    }

    /// Whether a batch may be made of so many rows of the log that a log to be shared is worth its memory.
    fn is_for_many(&self, scope: &Scope<'_>) -> bool {
        match *scope {
            Scope::Above(commits) => {
                let rows = self.rows_above(commits);
                let copied = rows.saturating_mul(rows) / USUAL_LINES;
                rows > MANY_ROWS && copied > self.writes.log.len() as u64
            }
            _ => false,
        }
    }

    /// How many rows of the log are of tentative writes or of commits above this number.
    fn rows_above(&self, commits: u64) -> u64 {
        let known = commits.min(self.meta.commits);
        let all = self.writes.log.len() as u64;
        all.saturating_sub(known.saturating_sub(self.meta.dropped))
    }

    /// Makes the whole change, or nothing.
    pub fn apply(&mut self, change: &Change) -> Result<(), AllocError>
        ensures changed { OnOk result (self.new ≡ changed change.now self.old) }
        ensures refused { OnErr result (self.new ≡ self.old) }
    {
        let alloc = self.alloc;
        let log = self.log.take();
        let room = with_rows(alloc, &self.room, &change.room)?;
        let vector = with_rows(alloc, &self.vector, &change.vector)?;
        let log = log_after(alloc, log, &self.writes.log, change);
        self.writes.apply(alloc, change)?;
        let board = self.board.take();
        self.meta = change.meta;
        put_rows(&mut self.room, room);
        put_rows(&mut self.vector, vector);
        self.have_one_row_each();
        self.board = board_after(alloc, board, change, self);
        self.log = log;
        Ok(())
    }

    /// Says to proofs that no id stands twice in a table. It does nothing.
    fn have_one_row_each(&self)
        ensures { HaveOneRowEach self.now }
    {
        self.writes.booking.is_by_id();
        self.writes.errorlog.is_by_id();
        self.writes.cancelled.is_by_id();
        self.writes.cancels.is_by_id();
    }

    /// The desk with these tables.
    pub fn load(&self) -> Result<Desk, Refusal>
        ensures loaded { (a : Replica) → Stands self.now a → IfOk result (λ desk. StandsFor desk a) }
        ensures only { (a : Replica) → Stands self.now a → IfErr result (λ e. e ≡ Refusal.OutOfMemory) }
        ensures within { IfOk result IsWithinLimits }
    {
        let tables = self.read()?;
        Desk::from_tables(self.alloc, &tables)
    }

    /// The part of the tables that a command of this scope needs, unless a row has the id that the command would give.
    pub fn load_part(&self, scope: &Scope<'_>) -> Result<Part, Refusal>
        ensures loaded { (a : Replica) → Stands self.now a → IfOk result (λ part. IsPartOf part (scope_of scope.now) a) }
        ensures only { (a : Replica) → Stands self.now a → IfErr result (λ e. e ≡ Refusal.OutOfMemory) }
        ensures free { IfOk result (λ part. is_id_taken (id_given (scope_of scope.now) part.summary) self.now ≡ false) }
        ensures within { IfOk result (λ part. IsWithin part.summary) }
    {
        let part = self.part_for(scope)?;
        if self.is_taken(part.id_given(scope)) {
            return Err(Refusal::Store);
        }
        Ok(part)
    }

    /// The part of the tables that a command of this scope needs: over the board if there is one and the scope goes by rooms, and over the
    /// log if there is one and a batch for a position is asked for.
    pub(crate) fn part_for(&self, scope: &Scope<'_>) -> Result<Part, Refusal>
        ensures loaded { (a : Replica) → Stands self.now a → IfOk result (λ part. IsPartOf part (scope_of scope.now) a) }
        ensures only { (a : Replica) → Stands self.now a → IfErr result (λ e. e ≡ Refusal.OutOfMemory) }
        ensures within { IfOk result (λ part. IsWithin part.summary) }
    {
        if let Some(board) = &self.board {
            if is_of_rooms(scope) {
                let rows = self.rows_of_log(scope)?;
                let shared: Rc<Board> = board.clone()?;
                return Part::over_board(self.alloc, scope, &rows, shared);
            }
        }
        if let Some(log) = &self.log {
            if let Scope::Above(commits) = *scope {
                return self.part_above(commits, log);
            }
        }
        let tables = self.rows_for(scope)?;
        Part::from_tables(self.alloc, scope, &tables)
    }

    /// The part for a batch for a position with so many commits, over this log.
    fn part_above(&self, commits: u64, log: &Rc<Vec<KeptRow>>) -> Result<Part, Refusal>
        ensures loaded { (a : Replica) → Stands self.now a → IsLogOf log.now.value.items a → IfOk result (λ part. IsPartOf part (Above commits) a) }
        ensures only { (a : Replica) → Stands self.now a → IfErr result (λ e. e ≡ Refusal.OutOfMemory) }
        ensures within { IfOk result (λ part. IsWithin part.summary) }
    {
        let tables = self.bare()?;
        let shared: Rc<Vec<KeptRow>> = log.clone()?;
        Part::over_log(self.alloc, commits, &tables, shared)
    }

    /// Tables with the rows that a command of this scope needs. For a cancel only the rows with its target's id are looked at. If the
    /// scope goes by rooms these are all rows.
    fn rows_for(&self, scope: &Scope<'_>) -> Result<Tables, AllocError>
        ensures { IfOk result (λ tables. in_scope (scope_of scope.now) tables ≡ in_scope (scope_of scope.now) self.now) }
    {
        match *scope {
            Scope::Nothing => self.bare(),
            Scope::InRoom(_) | Scope::Items(_) => self.read(),
            Scope::OfTarget(target) => self.rows_of_target(target),
            Scope::NextCommits(_) => self.rows_to_commit(scope),
            Scope::UpTo(_) => self.rows_of_log(scope),
            Scope::Above(_) => self.rows_of_log(scope),
        }
    }

    /// Tables with the rows that every command needs, and no others.
    fn bare(&self) -> Result<Tables, AllocError>
        ensures { IfOk result (λ tables. tables ≡ with_rows self.now [] [] [] []) }
    {
        let alloc = self.alloc;
        Ok(Tables {
            meta: self.meta,
            room: copies_of(alloc, &self.room)?,
            vector: copies_of(alloc, &self.vector)?,
            log: Vec::new(alloc),
            booking: Vec::new(alloc),
            errorlog: Vec::new(alloc),
            cancelled: Vec::new(alloc),
            cancels: Vec::new(alloc),
        })
    }

    /// With what became of the booking of this id.
    fn rows_of_target(&self, target: WriteId) -> Result<Tables, AllocError>
        ensures { IfOk result (λ tables. in_scope (OfTarget target) tables ≡ in_scope (OfTarget target) self.now) }
    {
        let mut tables = self.bare()?;
        tables.booking = self.writes.booking.with_id(target)?;
        tables.errorlog = self.writes.errorlog.with_id(target)?;
        tables.cancelled = self.writes.cancelled.with_id(target)?;
        Ok(tables)
    }

    /// With the rows of the log alone.
    fn rows_of_log(&self, scope: &Scope<'_>) -> Result<Tables, AllocError>
        ensures { IfOk result (λ tables. tables ≡ with_rows self.now (filter (is_log_needed self.now.meta.commits (scope_of scope.now)) self.now.log) [] [] []) }
    {
        let mut tables = self.bare()?;
        tables.log = self.writes.log.needed(self.meta.commits, scope)?;
        Ok(tables)
    }

    /// With these and the cancelled bookings.
    fn rows_to_commit(&self, scope: &Scope<'_>) -> Result<Tables, AllocError>
        ensures { IfOk result (λ tables. tables ≡ with_rows self.now (filter (is_log_needed self.now.meta.commits (scope_of scope.now)) self.now.log) [] [] self.now.cancelled) }
    {
        let mut tables = self.rows_of_log(scope)?;
        tables.cancelled = self.writes.cancelled.copies()?;
        Ok(tables)
    }

    /// Whether a row has the id that a command would give, if it gives one.
    fn is_taken(&self, id: Option<WriteId>) -> bool
        ensures { result ≡ is_id_taken id self.now }
    {
        match id {
            Some(id) => self.writes.log.has(id) || self.has_place_of(id),
            None => false,
        }
    }

    /// Whether a row of what became of writes has this id.
    fn has_place_of(&self, id: WriteId) -> bool
        ensures { result ≡ has_place_of id self.now }
    {
        (self.writes.booking.has(id) || self.writes.errorlog.has(id))
            || (self.writes.cancelled.has(id) || self.writes.cancels.has(id))
    }

    /// What the tables answer to the question.
    pub fn query(&self, question: &Question<'_>) -> Result<Answer, AllocError>
        ensures named { IfOk result (IsNamedAs question.now) }
        ensures answers { IfOk result (IsAnswerTo question.now self.now) }
    {
        let writes = &self.writes;
        match *question {
            Question::Rooms => Ok(Answer::Rooms(copies_of(self.alloc, &self.room)?)),
            Question::Bookings(room, day) => {
                Ok(Answer::Bookings(writes.booking.listed(room, &day)?))
            }
            Question::PlaceOf(room, id) => Ok(Answer::PlaceOf(self.place_of(room, id)?)),
            Question::Errors(room) => Ok(Answer::Errors(writes.errorlog.rows_in(room)?)),
            Question::Cancelled(room) => Ok(Answer::Cancelled(writes.cancelled.rows_in(room)?)),
            Question::Cancels(room) => Ok(Answer::Cancels(writes.cancels.rows_in(room)?)),
        }
    }

    /// A copy of the row of the write with this id, if it is of that room.
    fn place_of(&self, room: &RoomName, id: WriteId) -> Result<Option<PlaceRow>, AllocError>
        ensures { IfOk result (λ row. IsPlaceOf room.now id self.now row) }
    {
        let alloc = self.alloc;
        let writes = &self.writes;
        if let Some(row) = writes.booking.get_in(id, room) {
            return Ok(Some(PlaceRow::Booked(row.copied(alloc)?)));
        }
        if let Some(row) = writes.errorlog.get_in(id, room) {
            return Ok(Some(PlaceRow::Logged(row.copied(alloc)?)));
        }
        if let Some(row) = writes.cancelled.get_in(id, room) {
            return Ok(Some(PlaceRow::Cancelled(row.copied(alloc)?)));
        }
        match writes.cancels.get_in(id, room) {
            Some(row) => Ok(Some(PlaceRow::Cancel(row.copied(alloc)?))),
            None => Ok(None),
        }
    }

    /// All rows of all tables.
    pub fn read(&self) -> Result<Tables, AllocError>
        ensures { IfOk result (λ rows. rows ≡ self.now) }
    {
        let mut tables = self.bare()?;
        tables.log = self.writes.log.copies()?;
        tables.booking = self.writes.booking.copies()?;
        tables.errorlog = self.writes.errorlog.copies()?;
        tables.cancelled = self.writes.cancelled.copies()?;
        tables.cancels = self.writes.cancels.copies()?;
        Ok(tables)
    }
}

impl BoardTables for Memory {
    ghost tables = { λ m. m };

    fn booking(&self, id: WriteId) -> Option<&BookingRow> {
        self.writes.booking.get(id)
    }

    fn error(&self, id: WriteId) -> Option<&ErrorRow> {
        self.writes.errorlog.get(id)
    }

    fn cancelled(&self, id: WriteId) -> Option<&CancelledRow> {
        self.writes.cancelled.get(id)
    }

    fn cancel(&self, id: WriteId) -> Option<&CancelRow> {
        self.writes.cancels.get(id)
    }
}
