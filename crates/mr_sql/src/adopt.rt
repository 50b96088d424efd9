ghost use Rattle.std.specs.Prelude.{◌≡◌, ◌≤◌, false, if◌then◌else◌, length, None, Some, IfOk, IfErr, IsTrue};
ghost use Rattle.sqlite.specs.State.{HasCleanDisk};
ghost use Rattle.sqlite.specs.Held.{state};
ghost use Rattle.mr_rows.specs.Causes.{FailsByStore};
ghost use Rattle.mr_rows.specs.Reads.{Looks};
ghost use Rattle.mr_rows.specs.Schema.{no_schema, our_schema};
ghost use Rattle.mr_rows.specs.Shown.{AreOurRows};
ghost use Rattle.mr_sql.specs.Found.{IsTaken};
ghost use Rattle.mr_sql.specs.Opened.{IsStoreBack};
ghost use Rattle.mr_sql.specs.Opening.{AreFoundHere, IsOpening, Suits};

use crate::create::create;
use crate::faults::refusal_of;
use crate::first::raise;
use crate::schema_number::has_other_number;
use crate::schemas::{is_blank, is_first, is_ours};
use mr_base::{Refusal, ServerId};
use mr_rows::Idle;
use mr_rows::found::find_all;
use mr_tables::{MetaRow, Tables};
use sqlite::{Alter, Connection, Error};
use std::alloc::Global;

/// Whose database is wanted.
#[derive(Clone, Copy)]
pub(crate) enum Whose {
    /// That of this server and primary. If it has no table, it gets those of a replica that knows nothing yet.
    Of(ServerId, ServerId),
    /// That of a replica, whichever it is.
    Anyones,
}

/// Whether the row is that of those who are wanted.
pub(crate) fn is_of(meta: &MetaRow, whose: Whose) -> bool
    ensures same { IsTrue result → Suits whose meta.now }
    ensures other { result ≡ false → Suits whose meta.now → ⊥ }
{
    match whose {
        Whose::Of(server, primary) => meta.server == server && meta.primary == primary,
        Whose::Anyones => true,
    }
}

/// The database of a connection, opened anew: what was not committed is gone, and each table's order is known.
pub(crate) fn retaken<S: Alter + Drop>(
    alloc: Global,
    conn: Connection<S>,
) -> Result<Idle<S>, (Refusal, S)>
    ensures taken { IfOk result (λ c. HasCleanDisk (state S.Store c)
        → IsTaken (state S.Store c) × ((state S.Store c).now.trees ≡ (state S.Store conn).committed.trees)) }
    ensures clean { IfOk result (λ c. HasCleanDisk (state S.Store c) → HasCleanDisk (state S.Store conn)) }
    ensures refused { IfErr result (λ e. IsStoreBack S.Store (state S.Store conn) e.0 e.1) }
{
    let store = conn.into_store();
    if store.is_broken() {
        return Err((Refusal::Store, store));
    }
    match Connection::over(alloc, store) {
        Ok(connection) => Ok(Idle { connection }),
        Err((error, left)) => Err((refusal_of(error), left)),
    }
}

// Finds the tables of a database with our schema, all of whose rows are tested, with their rows if these are to be kept: none if there is no row of
// `meta`, or one of another schema.
fn find<S: Alter>(conn: &mut Idle<S>, alloc: Global, keep: bool) -> Result<Option<Tables>, Error>
    ensures looks { Looks (state S.Store conn.old) (state S.Store conn.new) result (AreFoundHere keep (state S.Store conn.old).now.trees) }
    ensures cause { FailsByStore (λ trees. AreOurRows trees × (length (trees 0) ≤ 1)) (state S.Store conn.old) (state S.Store conn.new) result }
{
    let is_other = has_other_number(conn, 2)?;
    if is_other {
        return Ok(None);
    }
    find_all(conn, alloc, keep)
}

// The tables, if their rows were to be kept.
fn kept(tables: Tables, keep: bool) -> Option<Tables>
    ensures { result ≡ (if keep then Some tables else None) }
{
    if keep { Some(tables) } else { None }
}

// Of a database with our schema: finds the tables of those who are wanted, and answers their rows if these are to be kept.
fn resume<S: Alter>(
    conn: &mut Idle<S>,
    alloc: Global,
    whose: Whose,
    keep: bool,
) -> Result<Option<Tables>, Refusal>
    requires ours { (state S.Store conn.old).now.schema ≡ our_schema }
    ensures opening { IsOpening whose (state S.Store conn.old) (state S.Store conn.new) result }
{
    match find(conn, alloc, keep) {
        Ok(Some(tables)) => {
            if is_of(&tables.meta, whose) {
                Ok(kept(tables, keep))
            } else {
                Err(Refusal::NotAReplica)
            }
        }
        Ok(None) => Err(Refusal::NotAReplica),
        Err(error) => Err(refusal_of(error)),
    }
}

// Of a database without a table: makes those of a replica that knows nothing yet.
fn begin<S: Alter>(
    conn: &mut Idle<S>,
    server: ServerId,
    primary: ServerId,
) -> Result<Option<Tables>, Refusal>
    requires blank { (state S.Store conn.old).now.schema ≡ no_schema }
    ensures opening { IsOpening (Whose.Of server primary) (state S.Store conn.old) (state S.Store conn.new) result }
{
    // For the prover alone: servers are from 1 to 99.
    server.number();
    primary.number();
    let row = MetaRow::opening(server, primary);
    match create(conn, &row) {
        Ok(()) => Ok(None),
        Err(error) => Err(refusal_of(error)),
    }
}

// Of a database without a table: makes those of the server and primary who are wanted, if it is not anyone's.
fn begin_for<S: Alter>(conn: &mut Idle<S>, whose: Whose) -> Result<Option<Tables>, Refusal>
    requires blank { (state S.Store conn.old).now.schema ≡ no_schema }
    ensures opening { IsOpening whose (state S.Store conn.old) (state S.Store conn.new) result }
{
    match whose {
        Whose::Of(server, primary) => begin(conn, server, primary),
        Whose::Anyones => Err(Refusal::NotAReplica),
    }
}

// Of a database that hasn't our tables: makes them if there are none, or moves those of the first schema up.
fn settle<S: Alter>(
    conn: &mut Idle<S>,
    alloc: Global,
    whose: Whose,
) -> Result<Option<Tables>, Refusal>
    requires others { (state S.Store conn.old).now.schema ≡ our_schema → ⊥ }
    ensures opening { IsOpening whose (state S.Store conn.old) (state S.Store conn.new) result }
{
    if is_first(conn) {
        return raise(conn, alloc, whose);
    }
    if is_blank(conn) {
        return begin_for(conn, whose);
    }
    Err(Refusal::NotAReplica)
}

/// Finds the tables of those who are wanted, and moves those of the first schema up; if there are none, it makes them for a server and primary. If
/// they were found as they are, and their rows are to be kept, it answers these.
pub(crate) fn open_tables<S: Alter>(
    conn: &mut Idle<S>,
    alloc: Global,
    whose: Whose,
    keep: bool,
) -> Result<Option<Tables>, Refusal>
    ensures opening { IsOpening whose (state S.Store conn.old) (state S.Store conn.new) result }
{
    if is_ours(conn) {
        return resume(conn, alloc, whose, keep);
    }
    settle(conn, alloc, whose)
}
