ghost use Rattle.std.specs.Prelude.{◌≡◌, true, false, IfOk, IfErr, IsTrue};
ghost use Rattle.sqlite.specs.State.{HasCleanDisk};
ghost use Rattle.sqlite.specs.Held.{state};
ghost use Rattle.mr_agree.specs.Agreeing.{agree};
ghost use Rattle.mr_model.specs.Replica.{Replica, IsReplica};
ghost use Rattle.mr_model.specs.Tables.{Stands, tables_of};
ghost use Rattle.mr_model.specs.Scopes.{in_scope};
ghost use Rattle.mr_replica.specs.Desk.{StandsFor, IsWithinLimits};
ghost use Rattle.mr_part.specs.NextId.{id_given};
ghost use Rattle.mr_part.specs.Parts.{IsPartOf};
ghost use Rattle.mr_part.specs.ScopeOf.{scope_of};
ghost use Rattle.mr_tables.specs.Summary.{IsWithin, summary_of};
ghost use Rattle.mr_store.specs.Taken.{is_id_taken};
ghost use Rattle.mr_rows.specs.Database.{tables_in};
ghost use Rattle.mr_rows.specs.Reads.{ReadsInUse, ReadsKept};
ghost use Rattle.mr_sql.specs.Enough.{AreEnough};
ghost use Rattle.mr_sql.specs.FailedReads.{FailsByStoreAlone};
ghost use Rattle.mr_sql.specs.Found.{AreFresh};

use crate::numbers::read_bare;
use mr_base::Refusal;
use mr_first::moved_tables::agreeing;
use mr_part::{Part, Scope};
use mr_replica::Desk;
use mr_rows::Idle;
use mr_rows::all_tables::read_tables;
use mr_store::is_taken;
use mr_tables::Tables;
use sqlite::{Alter, Error, ErrorCode};
use std::alloc::Global;

/// The error that tells of a refusal of tables.
fn error_for(refusal: Refusal) -> Error
    ensures { refusal ≡ Refusal.OutOfMemory → result ≡ Error.SqliteFailure ErrorCode.OutOfMemory }
{
    match refusal {
        Refusal::OutOfMemory => Error::SqliteFailure(ErrorCode::OutOfMemory),
        _ => Error::InvalidQuery,
    }
}

fn desk_of(alloc: Global, tables: &Tables) -> Result<Desk, Error>
    ensures stands { IfOk result (λ desk. (a : Replica) → Stands tables.now a → StandsFor desk a) }
    ensures only { (a : Replica) → Stands tables.now a → IfErr result (λ e. e ≡ Error.SqliteFailure ErrorCode.OutOfMemory) }
    ensures within { IfOk result IsWithinLimits }
{
    match Desk::from_tables(alloc, tables) {
        Ok(desk) => Ok(desk),
        Err(refusal) => Err(error_for(refusal)),
    }
}

/// The desk with the tables of this database.
pub(crate) fn load_desk<S: Alter>(conn: &mut Idle<S>, alloc: Global) -> Result<Desk, Error>
    ensures reads { ReadsKept (state S.Store conn.old) (state S.Store conn.new) result
        (λ desk. (a : Replica) → Stands (tables_in (state S.Store conn.old).now.trees) a → StandsFor desk a) }
    ensures within { IfOk result IsWithinLimits }
    ensures failed { FailsByStoreAlone (state S.Store conn.old) (state S.Store conn.new) result }
{
    let tables = read_tables(conn, alloc)?;
    desk_of(alloc, &tables)
}

/// All tables of this database: those that its open read, if they are still there, or else they are read.
fn all_tables<S: Alter>(
    conn: &mut Idle<S>,
    alloc: Global,
    fresh: Option<Tables>,
) -> Result<Tables, Error>
    requires fresh { HasCleanDisk (state S.Store conn.old) → IsTrue (state S.Store conn.old).is_open → AreFresh fresh (state S.Store conn.old) }
    ensures reads { ReadsInUse (state S.Store conn.old) (state S.Store conn.new) result (λ tables. tables ≡ tables_in (state S.Store conn.old).now.trees) }
    ensures failed { FailsByStoreAlone (state S.Store conn.old) (state S.Store conn.new) result }
{
    match fresh {
        Some(tables) => Ok(tables),
        None => read_tables(conn, alloc),
    }
}

/// The same, if their rows agree with each other.
pub(crate) fn read_agreeing<S: Alter>(
    conn: &mut Idle<S>,
    alloc: Global,
    fresh: Option<Tables>,
) -> Result<Tables, Error>
    requires fresh { HasCleanDisk (state S.Store conn.old) → IsTrue (state S.Store conn.old).is_open → AreFresh fresh (state S.Store conn.old) }
    ensures reads { ReadsInUse (state S.Store conn.old) (state S.Store conn.new) result (λ tables. tables ≡ tables_in (state S.Store conn.old).now.trees) }
    ensures agree { IfOk result (λ tables. agree tables ≡ true) }
    ensures failed { FailsByStoreAlone (state S.Store conn.old) (state S.Store conn.new) result }
{
    let tables = all_tables(conn, alloc, fresh)?;
    agreeing(alloc, tables)
}

/// Tables that are enough for a command of this scope: all of them, or for one that needs no rows `meta`, `room` and `vector` alone.
fn read_enough<S: Alter>(
    conn: &mut Idle<S>,
    alloc: Global,
    scope: &Scope<'_>,
) -> Result<Tables, Error>
    ensures reads { ReadsKept (state S.Store conn.old) (state S.Store conn.new) result
        (AreEnough (scope_of scope.now) (tables_in (state S.Store conn.old).now.trees)) }
    ensures failed { FailsByStoreAlone (state S.Store conn.old) (state S.Store conn.new) result }
{
    match *scope {
        Scope::Nothing => read_bare(conn, alloc),
        _ => read_tables(conn, alloc),
    }
}

/// The same, or the rows that the open read, if they are still there.
fn enough_for<S: Alter>(
    conn: &mut Idle<S>,
    alloc: Global,
    scope: &Scope<'_>,
    fresh: Option<Tables>,
) -> Result<Tables, Error>
    requires fresh { HasCleanDisk (state S.Store conn.old) → IsTrue (state S.Store conn.old).is_open → AreFresh fresh (state S.Store conn.old) }
    ensures reads { ReadsInUse (state S.Store conn.old) (state S.Store conn.new) result
        (AreEnough (scope_of scope.now) (tables_in (state S.Store conn.old).now.trees)) }
    ensures failed { FailsByStoreAlone (state S.Store conn.old) (state S.Store conn.new) result }
{
    match fresh {
        Some(tables) => Ok(tables),
        None => read_enough(conn, alloc, scope),
    }
}

fn part_of(alloc: Global, scope: &Scope<'_>, tables: &Tables) -> Result<Part, Error>
    ensures part { IfOk result
        (λ part. (a : Replica) → IsReplica a → in_scope (scope_of scope.now) tables.now ≡ in_scope (scope_of scope.now) (tables_of a)
        → IsPartOf part (scope_of scope.now) a) }
    ensures only { (a : Replica) → IsReplica a → in_scope (scope_of scope.now) tables.now ≡ in_scope (scope_of scope.now) (tables_of a)
        → IfErr result (λ e. e ≡ Error.SqliteFailure ErrorCode.OutOfMemory) }
    ensures within { IfOk result (λ part. IsWithin part.summary) }
{
    match Part::from_tables(alloc, scope, tables) {
        Ok(part) => Ok(part),
        Err(refusal) => Err(error_for(refusal)),
    }
}

/// The part of these tables that a command of this scope needs, unless a row has the id that the command would give.
fn free_part(alloc: Global, scope: &Scope<'_>, tables: &Tables) -> Result<Part, Error>
    ensures part { IfOk result
        (λ part. (a : Replica) → IsReplica a → in_scope (scope_of scope.now) tables.now ≡ in_scope (scope_of scope.now) (tables_of a)
        → IsPartOf part (scope_of scope.now) a) }
    ensures free { IfOk result (λ part. is_id_taken (id_given (scope_of scope.now) part.summary) tables.now ≡ false) }
    ensures only { (a : Replica) → IsReplica a → in_scope (scope_of scope.now) tables.now ≡ in_scope (scope_of scope.now) (tables_of a)
        → is_id_taken (id_given (scope_of scope.now) (summary_of a)) tables.now ≡ false → IfErr result (λ e. e ≡ Error.SqliteFailure ErrorCode.OutOfMemory) }
    ensures within { IfOk result (λ part. IsWithin part.summary) }
{
    let part = part_of(alloc, scope, tables)?;
    if is_taken(tables, part.id_given(scope)) {
        return Err(Error::InvalidQuery);
    }
    Ok(part)
}

/// That of this database.
pub(crate) fn load_part<S: Alter>(
    conn: &mut Idle<S>,
    alloc: Global,
    scope: &Scope<'_>,
    fresh: Option<Tables>,
) -> Result<Part, Error>
    requires fresh { HasCleanDisk (state S.Store conn.old) → IsTrue (state S.Store conn.old).is_open → AreFresh fresh (state S.Store conn.old) }
    ensures reads { ReadsInUse (state S.Store conn.old) (state S.Store conn.new) result
        (λ part. ((a : Replica) → Stands (tables_in (state S.Store conn.old).now.trees) a → IsPartOf part (scope_of scope.now) a)
        × (is_id_taken (id_given (scope_of scope.now) part.summary) (tables_in (state S.Store conn.old).now.trees) ≡ false)) }
    ensures within { IfOk result (λ part. IsWithin part.summary) }
    ensures failed { FailsByStoreAlone (state S.Store conn.old) (state S.Store conn.new) result }
{
    let tables = enough_for(conn, alloc, scope, fresh)?;
    free_part(alloc, scope, &tables)
}
