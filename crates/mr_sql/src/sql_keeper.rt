ghost use Rattle.std.specs.Prelude.{◌≡◌, ◌≢◌, ◌<◌, ◌⊎◌, true, false, IfOk, IfErr, IsTrue};
ghost use Rattle.sqlite.specs.Steps.{over_memory, IsEmpty};
ghost use Rattle.sqlite.specs.State.{HasCleanDisk};
ghost use Rattle.sqlite.specs.Held.{state};
ghost use Rattle.mr_agree.specs.Agreeing.{agree};
ghost use Rattle.mr_model.specs.Replica.{Replica, opening};
ghost use Rattle.mr_model.specs.Tables.{Stands};
ghost use Rattle.mr_replica.specs.Desk.{StandsFor, IsWithinLimits};
ghost use Rattle.mr_part.specs.NextId.{id_given};
ghost use Rattle.mr_part.specs.Parts.{IsPartOf};
ghost use Rattle.mr_part.specs.ScopeOf.{scope_of};
ghost use Rattle.mr_tables.specs.Summary.{IsWithin};
ghost use Rattle.mr_store.specs.Answers.{IsAnswerTo, IsNamedAs};
ghost use Rattle.mr_store.specs.KeeperCalls.{failures_for};
ghost use Rattle.mr_store.specs.Taken.{is_id_taken};
ghost use Rattle.mr_rows.specs.Database.{IsKept, tables_in};
ghost use Rattle.mr_sql.specs.Calls.{IsAtomicCall, IsQuietCall};
ghost use Rattle.mr_sql.specs.Found.{AreFresh, IsAdopted, IsResumed, IsTaken, LeavesTables};
ghost use Rattle.mr_sql.specs.Opened.{ComesBack, IsNewKeeper, IsOfOpening, RefusesToAdopt, RefusesToResume};
ghost use Rattle.mr_sql.specs.Opening.{AreTakenAs, IsLeftOpen, RefusesFor};

use crate::adopt::{Whose, open_tables, retaken};
use crate::create::create;
use crate::faults::refusal_of;
use crate::shut::check_open;
use crate::{load, questions};
use mr_base::{Refusal, ServerId};
use mr_part::{Part, Scope};
use mr_replica::Desk;
use mr_rows::{Idle, changes};
use mr_store::{Answer, Fault, Keeper, Question};
use mr_tables::{Change, MetaRow, Tables};
use sqlite::{Alter, Connection, Error, ErrorCode, MemStore};
use std::alloc::Global;
use std::marker::Model;

/// A keeper whose tables lie in a SQL database. Contracts see it as its connection and the number of calls that have answered
/// that the store failed.
#[derive(Drop)]
pub struct SqlKeeper<S: Alter> {
    conn: Idle<S>,
    failures: u64,
    alloc: Global,
    // All rows, as the open read them to test them. The first call of `load_part` or `read` takes them, and a change drops them; other calls
    // ask the database.
    fresh: Option<Tables>,
}

impl<S: Alter> Model for SqlKeeper<S> {
    ghost use Rattle.std.specs.Prelude.{ℕ, IsTrue};
    ghost use Rattle.std.specs.Coded.{coded×, coded_ℕ};
    ghost use Rattle.sqlite.specs.State.{HasCleanDisk};
    ghost use Rattle.sqlite.specs.Held.{Held, state, held_code};
    ghost use Rattle.mr_rows.specs.Database.{IsKept};
    ghost use Rattle.mr_sql.specs.Found.{AreFresh};

    ghost Value = { Held S × ℕ };

    ghost coded = { coded× (held_code S.code) coded_ℕ };

    ghost view = { λ k. (k.conn, k.failures) };

    ghost invariant = { λ k. (HasCleanDisk (state S.Store k.conn) → IsTrue (state S.Store k.conn).is_open → IsKept (state S.Store k.conn))
        × (HasCleanDisk (state S.Store k.conn) → IsTrue (state S.Store k.conn).is_open → AreFresh k.fresh (state S.Store k.conn)) };
}

/// The fault that an error is, counted if the store failed. A count that is full is reported as out of memory.
fn fault_of(failures: &mut u64, error: Error) -> Fault
    ensures counted { failures.new ≡ failures_for result failures.old }
    ensures memory { error ≡ Error.SqliteFailure ErrorCode.OutOfMemory → result ≡ Fault.OutOfMemory }
    ensures store { error ≢ Error.SqliteFailure ErrorCode.OutOfMemory → failures.old < 18_446_744_073_709_551_615 → result ≡ Fault.Store }
{
    if error == Error::SqliteFailure(ErrorCode::OutOfMemory) {
        return Fault::OutOfMemory;
    }
    Fault::counted(failures)
}

// The keeper is asked whether its connection is open before anything else: of a shut one no rows are answered, not even those that its open read.
// So each call has a part that is made of an open keeper.
impl<S: Alter> SqlKeeper<S> {
    /// Refuses if a failure of the store has shut the connection.
    fn confirm(&mut self) -> Result<(), Fault>
        ensures quiet { IsQuietCall S.Store self.old self.new result }
    {
        match check_open(&mut self.conn) {
            Ok(()) => Ok(()),
            Err(error) => Err(fault_of(&mut self.failures, error)),
        }
    }

    fn load_open(&mut self) -> Result<Desk, Fault>
        requires open { HasCleanDisk (state S.Store self.old.0) → IsTrue (state S.Store self.old.0).is_open }
        ensures quiet { IsQuietCall S.Store self.old self.new result }
        ensures loaded { HasCleanDisk (state S.Store self.new.0) → IsTrue (state S.Store self.old.0).is_open
            → (a : Replica) → Stands (tables_in (state S.Store self.old.0).now.trees) a → IfOk result (λ desk. StandsFor desk a) }
        ensures within { IfOk result IsWithinLimits }
    {
        match load::load_desk(&mut self.conn, self.alloc) {
            Ok(value) => Ok(value),
            Err(error) => Err(fault_of(&mut self.failures, error)),
        }
    }

    fn load_part_open(&mut self, scope: &Scope<'_>) -> Result<Part, Fault>
        requires open { HasCleanDisk (state S.Store self.old.0) → IsTrue (state S.Store self.old.0).is_open }
        ensures quiet { IsQuietCall S.Store self.old self.new result }
        ensures loaded { HasCleanDisk (state S.Store self.new.0) → IsTrue (state S.Store self.old.0).is_open
            → (a : Replica) → Stands (tables_in (state S.Store self.old.0).now.trees) a → IfOk result (λ part. IsPartOf part (scope_of scope.now) a) }
        ensures free { HasCleanDisk (state S.Store self.new.0) → IsTrue (state S.Store self.old.0).is_open
            → IfOk result (λ part. is_id_taken (id_given (scope_of scope.now) part.summary) (tables_in (state S.Store self.old.0).now.trees) ≡ false) }
        ensures within { IfOk result (λ part. IsWithin part.summary) }
    {
        let fresh = self.fresh.take();
        match load::load_part(&mut self.conn, self.alloc, scope, fresh) {
            Ok(value) => Ok(value),
            Err(error) => Err(fault_of(&mut self.failures, error)),
        }
    }

    fn query_open(&mut self, question: &Question<'_>) -> Result<Answer, Fault>
        requires open { HasCleanDisk (state S.Store self.old.0) → IsTrue (state S.Store self.old.0).is_open }
        ensures quiet { IsQuietCall S.Store self.old self.new result }
        ensures named { IfOk result (IsNamedAs question.now) }
        ensures answers { HasCleanDisk (state S.Store self.new.0) → IsTrue (state S.Store self.old.0).is_open
            → IfOk result (IsAnswerTo question.now (tables_in (state S.Store self.old.0).now.trees)) }
    {
        match questions::query(&mut self.conn, self.alloc, question) {
            Ok(value) => Ok(value),
            Err(error) => Err(fault_of(&mut self.failures, error)),
        }
    }

    fn read_open(&mut self) -> Result<Tables, Fault>
        requires open { HasCleanDisk (state S.Store self.old.0) → IsTrue (state S.Store self.old.0).is_open }
        ensures quiet { IsQuietCall S.Store self.old self.new result }
        ensures rows { HasCleanDisk (state S.Store self.new.0) → IsTrue (state S.Store self.old.0).is_open
            → IfOk result (λ rows. rows ≡ tables_in (state S.Store self.old.0).now.trees) }
    {
        let fresh = self.fresh.take();
        match load::read_agreeing(&mut self.conn, self.alloc, fresh) {
            Ok(value) => Ok(value),
            Err(error) => Err(fault_of(&mut self.failures, error)),
        }
    }

    fn apply_open(&mut self, change: &Change) -> Result<(), Fault>
        requires open { HasCleanDisk (state S.Store self.old.0) → IsTrue (state S.Store self.old.0).is_open }
        ensures atomic { IsAtomicCall S.Store change.now self.old self.new result }
    {
        self.fresh = None;
        match changes::apply(&mut self.conn, self.alloc, change) {
            Ok(value) => Ok(value),
            Err(error) => Err(fault_of(&mut self.failures, error)),
        }
    }
}

impl<S: Alter> Keeper for SqlKeeper<S> {
    ghost use Rattle.std.specs.Prelude.{◌≡◌, IsTrue};
    ghost use Rattle.sqlite_trees.specs.Tree.{Trees};
    ghost use Rattle.sqlite.specs.State.{HasCleanDisk};
    ghost use Rattle.sqlite.specs.Held.{state};
    ghost use Rattle.mr_rows.specs.Database.{tables_in};

    ghost tables = { λ k. tables_in (state S.Store k.0).now.trees };

    ghost failures = { λ k. k.1 };

    ghost is_clean = { λ k. HasCleanDisk (state S.Store k.0) };

    ghost is_open = { λ k. IsTrue (state S.Store k.0).is_open };

    ghost may_leave = { λ k t. (trees : Trees) × (state S.Store k.0).may_leave trees × (t ≡ tables_in trees) };

    ghost never_fails = { ⊥ };

    fn load(&mut self) -> Result<Desk, Fault> {
        match self.confirm() {
            Ok(()) => self.load_open(),
            Err(fault) => Err(fault),
        }
    }

    fn load_part(&mut self, scope: &Scope<'_>) -> Result<Part, Fault> {
        match self.confirm() {
            Ok(()) => self.load_part_open(scope),
            Err(fault) => Err(fault),
        }
    }

    fn query(&mut self, question: &Question<'_>) -> Result<Answer, Fault> {
        match self.confirm() {
            Ok(()) => self.query_open(question),
            Err(fault) => Err(fault),
        }
    }

    fn read(&mut self) -> Result<Tables, Fault> {
        match self.confirm() {
            Ok(()) => self.read_open(),
            Err(fault) => Err(fault),
        }
    }

    fn apply(&mut self, change: &Change) -> Result<(), Fault> {
        match self.confirm() {
            Ok(()) => self.apply_open(change),
            Err(fault) => Err(fault),
        }
    }
}

/// A connection to a database in memory that has no table.
pub(crate) fn open_connection(alloc: Global) -> Result<Idle<MemStore>, Refusal>
    ensures empty { IfOk result (λ c. IsEmpty (state over_memory c)) }
    ensures cause { IfErr result (λ e. e ≡ Refusal.OutOfMemory) }
{
    match Connection::open_in_memory(alloc) {
        Ok(connection) => Ok(Idle { connection }),
        Err(_) => Err(Refusal::OutOfMemory),
    }
}

impl SqlKeeper<MemStore> {
    /// The tables of a replica that knows nothing yet, in memory.
    pub fn open_in_memory(
        alloc: Global,
        server: ServerId,
        primary: ServerId,
    ) -> Result<SqlKeeper<MemStore>, Refusal>
        ensures stands { IfOk result (λ k. Stands (tables_in (state over_memory k.0).now.trees) (opening server primary)) }
        ensures settled { IfOk result (λ k. LeavesTables (state over_memory k.0)) }
        ensures uncounted { IfOk result (λ k. k.1 ≡ 0) }
        ensures cause { IfErr result (λ e. (e ≡ Refusal.OutOfMemory) ⊎ (e ≡ Refusal.Store)) }
    {
        let mut conn = open_connection(alloc)?;
        // For the prover alone: servers are from 1 to 99.
        server.number();
        primary.number();
        let row = MetaRow::opening(server, primary);
        match create(&mut conn, &row) {
            Ok(()) => Ok(SqlKeeper {
                conn,
                failures: 0,
                alloc,
                fresh: None,
            }),
            Err(error) => Err(refusal_of(error)),
        }
    }
}

impl<S: Alter + Drop> SqlKeeper<S> {
    /// Makes the database of a connection the keeper's. If it has no table, it gets those of a replica that knows nothing
    /// yet; if it is the database of this server and primary, it stays as it is, or is moved up from the first schema. Any
    /// other is refused with 26, with nothing written, and one whose rows break their rules with 25. What the connection hasn't
    /// committed is rolled back. A refusal gives the connection back, or the store alone if that can't be read as a database.
    pub fn adopt(
        alloc: Global,
        conn: Connection<S>,
        server: ServerId,
        primary: ServerId,
    ) -> Result<SqlKeeper<S>, (Refusal, Result<Connection<S>, S>)>
        ensures adopted { IfOk result (λ k. IsNewKeeper (IsAdopted server primary (state S.Store conn).committed.trees) (state S.Store k.0) k.1) }
        ensures clean { IfOk result (λ k. HasCleanDisk (state S.Store k.0) → HasCleanDisk (state S.Store conn)) }
        ensures refused { IfErr result (λ e. ComesBack S.Store (RefusesToAdopt server primary) (state S.Store conn) e.0 e.1) }
        ensures cause { IfErr result (λ e. IsOfOpening e.0) }
    {
        SqlKeeper::reopened(alloc, conn, Whose::Of(server, primary))
    }

    /// Makes a keeper of a connection to the database of a replica, whichever it is. One of the first schema is moved up. Any
    /// other database is refused with 26, and one whose rows break their rules with 25. What a refusal gives back is as of `adopt`.
    pub fn resume(
        alloc: Global,
        conn: Connection<S>,
    ) -> Result<SqlKeeper<S>, (Refusal, Result<Connection<S>, S>)>
        ensures resumed { IfOk result (λ k. IsNewKeeper (IsResumed (state S.Store conn).committed.trees) (state S.Store k.0) k.1) }
        ensures clean { IfOk result (λ k. HasCleanDisk (state S.Store k.0) → HasCleanDisk (state S.Store conn)) }
        ensures refused { IfErr result (λ e. ComesBack S.Store RefusesToResume (state S.Store conn) e.0 e.1) }
        ensures cause { IfErr result (λ e. IsOfOpening e.0) }
    {
        SqlKeeper::reopened(alloc, conn, Whose::Anyones)
    }

    // Makes a keeper of a connection to the database of those who are wanted.
    fn reopened(
        alloc: Global,
        conn: Connection<S>,
        whose: Whose,
    ) -> Result<SqlKeeper<S>, (Refusal, Result<Connection<S>, S>)>
        ensures opened { IfOk result (λ k. IsNewKeeper (AreTakenAs whose (state S.Store conn).committed.trees) (state S.Store k.0) k.1) }
        ensures clean { IfOk result (λ k. HasCleanDisk (state S.Store k.0) → HasCleanDisk (state S.Store conn)) }
        ensures refused { IfErr result (λ e. ComesBack S.Store (RefusesFor whose) (state S.Store conn) e.0 e.1) }
        ensures cause { IfErr result (λ e. IsOfOpening e.0) }
    {
        let conn = match retaken(alloc, conn) {
            Ok(conn) => conn,
            Err((refusal, store)) => return Err((refusal, Err(store))),
        };
        match SqlKeeper::over(alloc, conn, whose, false) {
            Ok(keeper) => Ok(keeper),
            Err((refusal, conn)) => Err((refusal, Ok(conn.connection))),
        }
    }
}

impl<S: Alter + Drop> SqlKeeper<S> {
    /// The keeper, if the rows of its tables agree with each other. Else it is refused with 25, and let go as it is. It reads all rows unless its open
    /// did, and keeps them.
    pub(crate) fn agreeing(self) -> Result<SqlKeeper<S>, Refusal>
        ensures agree { IfOk result (λ k. HasCleanDisk (state S.Store k.0) → IsTrue (state S.Store k.0).is_open
            → agree (tables_in (state S.Store k.0).now.trees) ≡ true) }
        ensures same { IfOk result (λ k. IsLeftOpen (state S.Store self.0) (state S.Store k.0)) }
        ensures counted { IfOk result (λ k. k.1 ≡ self.1) }
        ensures cause { IfErr result (λ e. (e ≡ Refusal.OutOfMemory) ⊎ (e ≡ Refusal.Store)) }
    {
        let SqlKeeper {
            mut conn,
            failures,
            alloc,
            fresh,
        } = self;
        match load::read_agreeing(&mut conn, alloc, fresh) {
            Ok(tables) => Ok(SqlKeeper {
                conn,
                failures,
                alloc,
                fresh: Some(tables),
            }),
            Err(error) => Err(refusal_of(error)),
        }
    }
}

impl<S: Alter> SqlKeeper<S> {
    /// The keeper of this connection, of which no call has failed, with these rows if the open read them.
    pub(crate) fn opened(alloc: Global, conn: Idle<S>, fresh: Option<Tables>) -> SqlKeeper<S>
        requires kept { HasCleanDisk (state S.Store conn) → IsTrue (state S.Store conn).is_open → IsKept (state S.Store conn) }
        requires fresh { HasCleanDisk (state S.Store conn) → IsTrue (state S.Store conn).is_open → AreFresh fresh (state S.Store conn) }
        ensures { result ≡ (conn, 0) }
    {
        SqlKeeper {
            conn,
            failures: 0,
            alloc,
            fresh,
        }
    }

    /// The keeper of a connection that was just opened, or the connection. It keeps the rows that the open reads, if these are to be kept.
    pub(crate) fn over(
        alloc: Global,
        mut conn: Idle<S>,
        whose: Whose,
        keep: bool,
    ) -> Result<SqlKeeper<S>, (Refusal, Idle<S>)>
        requires taken { HasCleanDisk (state S.Store conn) → IsTaken (state S.Store conn) }
        ensures opened { IfOk result (λ k. IsNewKeeper (AreTakenAs whose (state S.Store conn).now.trees) (state S.Store k.0) k.1) }
        ensures clean { IfOk result (λ k. HasCleanDisk (state S.Store k.0) → HasCleanDisk (state S.Store conn)) }
        ensures refused { IfErr result (λ e. HasCleanDisk (state S.Store e.1)
            → HasCleanDisk (state S.Store conn) × RefusesFor whose (state S.Store conn).now.trees e.0 (state S.Store e.1)) }
        ensures cause { IfErr result (λ e. IsOfOpening e.0) }
    {
        match open_tables(&mut conn, alloc, whose, keep) {
            Ok(fresh) => Ok(SqlKeeper::opened(alloc, conn, fresh)),
            Err(refusal) => Err((refusal, conn)),
        }
    }

    /// Gives the connection back.
    pub fn release(self) -> Connection<S>
        ensures { result ≡ self.0 }
    {
        let SqlKeeper { conn, .. } = self;
        conn.connection
    }
}

/// In memory nobody else writes the store, and nothing shuts it. It does nothing.
pub fn memory_is_honest(keeper: &SqlKeeper<MemStore>)
    ensures clean { HasCleanDisk (state over_memory keeper.now.0) }
    ensures open { IsTrue (state over_memory keeper.now.0).is_open }
{}
