//! What a crash leaves of a keeper's database, opened again, for disks that can be made to crash.

ghost use Rattle.std.specs.Prelude.{◌≡◌, ◌⊎◌, IfOk, IfErr};
ghost use Rattle.sqlite.specs.State.{HasCleanDisk};
ghost use Rattle.sqlite.specs.Held.{state};
ghost use Rattle.mr_sql.specs.Found.{IsTaken};
ghost use Rattle.mr_sql.specs.Opened.{IsNewKeeper, IsOfOpening};

use crate::adopt::Whose;
use crate::faults::refusal_of;
use crate::schemas::is_ours;
use crate::sql_keeper::SqlKeeper;
use mr_base::Refusal;
use mr_rows::Idle;
use sqlite::{Alter, Connection};
use sqlite_trees::error::StoreError;
use sqlite_trees::store::Reopen;
use std::alloc::Global;

fn unopened(error: StoreError) -> Refusal
    ensures { (result ≡ Refusal.OutOfMemory) ⊎ (result ≡ Refusal.Store) }
{
    match error {
        StoreError::OutOfMemory => Refusal::OutOfMemory,
        _ => Refusal::Store,
    }
}

// The machine stops, and the database of this connection is opened anew from what that leaves on its disks.
fn crashed<S: Alter + Reopen + Drop>(alloc: Global, conn: Connection<S>) -> Result<Idle<S>, Refusal>
    ensures taken { IfOk result (λ c. HasCleanDisk (state S.Store c)
        → IsTaken (state S.Store c) × (state S.Store conn).may_leave (state S.Store c).now.trees) }
    ensures clean { IfOk result (λ c. HasCleanDisk (state S.Store c) → HasCleanDisk (state S.Store conn)) }
    ensures cause { IfErr result (λ e. (e ≡ Refusal.OutOfMemory) ⊎ (e ≡ Refusal.Store)) }
{
    let mut store = conn.into_store();
    match store.crash_and_reopen() {
        Ok(()) => {}
        Err(error) => return Err(unopened(error)),
    }
    match Connection::over(alloc, store) {
        Ok(connection) => Ok(Idle { connection }),
        Err((error, _)) => Err(refusal_of(error)),
    }
}

impl<S: Alter + Reopen + Drop> SqlKeeper<S> {
    /// The keeper's machine stops, and its database is opened again from what that leaves on the disks: just its tables, or, once a failure has shut it,
    /// those before or after the change that failed. What is refused is let go.
    pub fn found_again(alloc: Global, keeper: SqlKeeper<S>) -> Result<SqlKeeper<S>, Refusal>
        ensures found { IfOk result (λ k. IsNewKeeper (state S.Store keeper.0).may_leave (state S.Store k.0) k.1) }
        ensures clean { IfOk result (λ k. HasCleanDisk (state S.Store k.0) → HasCleanDisk (state S.Store keeper.0)) }
        ensures cause { IfErr result IsOfOpening }
    {
        let conn = crashed(alloc, keeper.release())?;
        if !is_ours(&conn) {
            return Err(Refusal::NotAReplica);
        }
        match SqlKeeper::over(alloc, conn, Whose::Anyones, true) {
            Ok(keeper) => Ok(keeper),
            Err((refusal, _)) => Err(refusal),
        }
    }
}
