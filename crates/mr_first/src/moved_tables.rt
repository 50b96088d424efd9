//! The tables that a database of the first schema will have once it is moved up.

ghost use Rattle.std.specs.Prelude.{◌≡◌, ◌≢◌, true, IfOk, IfErr};
ghost use Rattle.sqlite_trees.specs.Tree.{Trees};
ghost use Rattle.sqlite.specs.Held.{state};
ghost use Rattle.mr_agree.specs.Agreeing.{agree};
ghost use Rattle.mr_model.specs.First.{moved};
ghost use Rattle.mr_model.specs.Changes.{AreInKeyOrder};
ghost use Rattle.mr_rows.specs.Causes.{FailsByStoreWhere};
ghost use Rattle.mr_first.specs.FirstDatabase.{IsKeptFirst, ReadsFirst, first_in};
ghost use Rattle.mr_first.specs.MovedUp.{ArePaired, CanMoveUp, MovedTablesOfReplicasAgree, FirstTablesOfReplicasMoveUp};

use crate::found::read_first;
use crate::pairs::moved_rows;
use crate::tables::First;
use mr_audit::do_tables_agree;
use mr_rows::Idle;
use mr_tables::Tables;
use sqlite::{Alter, Error, ErrorCode};
use std::alloc::Global;

/// What moving up makes of first tables, if a row of each log has a partner in the other.
fn moved_tables(alloc: Global, first: First) -> Result<Tables, Error>
    ensures moved { IfOk result (λ tables. (trees : Trees) → first ≡ first_in trees → tables ≡ moved first) }
    ensures refused { IfErr result (λ e. e ≢ Error.SqliteFailure ErrorCode.OutOfMemory → ArePaired first.write_log first.undo → ⊥) }
{
    let log = moved_rows(alloc, &first.write_log, &first.undo)?;
    Ok(Tables {
        meta: first.meta,
        room: first.room,
        vector: first.vector,
        log,
        booking: first.booking,
        errorlog: first.errorlog,
        cancelled: Vec::new(alloc),
        cancels: Vec::new(alloc),
    })
}

/// These tables, if their rows agree with each other and those of writes rise by id. Else they are refused as a failure of the store, unless
/// memory runs out.
pub fn agreeing(alloc: Global, tables: Tables) -> Result<Tables, Error>
    ensures same { IfOk result (λ agreeing. agreeing ≡ tables) }
    ensures agree { IfOk result (λ agreeing. agree tables ≡ true) }
    ensures refused { IfErr result (λ e. e ≢ Error.SqliteFailure ErrorCode.OutOfMemory → ¬ ((agree tables ≡ true) × AreInKeyOrder tables)) }
{
    match do_tables_agree(alloc, &tables) {
        Ok(true) => Ok(tables),
        Ok(false) => Err(Error::InvalidQuery),
        Err(_) => Err(Error::SqliteFailure(ErrorCode::OutOfMemory)),
    }
}

/// The same, if their rows agree with each other too.
fn agreeing_tables(alloc: Global, first: First) -> Result<Tables, Error>
    ensures moved { IfOk result (λ tables. (trees : Trees) → first ≡ first_in trees → (tables ≡ moved first) × (agree (moved first) ≡ true)) }
    ensures refused { IfErr result (λ e. e ≢ Error.SqliteFailure ErrorCode.OutOfMemory → (trees : Trees) × (first ≡ first_in trees) × CanMoveUp trees → ⊥) }
{
    let tables = moved_tables(alloc, first)?;
    agreeing(alloc, tables)
}

/// All tables that moving up makes of a database of the first schema, read before anything is written, if their rows agree with each other.
pub fn read_agreeing<S: Alter>(conn: &mut Idle<S>, alloc: Global) -> Result<Tables, Error>
    ensures reads { ReadsFirst (state S.Store conn.old) (state S.Store conn.new) result
        (λ tables. (tables ≡ moved (first_in (state S.Store conn.old).now.trees)) × (agree (moved (first_in (state S.Store conn.old).now.trees)) ≡ true)) }
    ensures cause { FailsByStoreWhere IsKeptFirst CanMoveUp (state S.Store conn.old) (state S.Store conn.new) result }
{
    let first = read_first(conn, alloc)?;
    agreeing_tables(alloc, first)
}

/// The first tables of a replica are never refused as contradicting: their rows agree once they are moved.
pub fn agreeing_law()
    ensures agree { MovedTablesOfReplicasAgree }
{}

/// No row that a keeper holds for a replica's first tables is refused: reading them to move them up fails only if the store does, or if memory runs out.
pub fn moving_law()
    ensures { FirstTablesOfReplicasMoveUp }
{}
