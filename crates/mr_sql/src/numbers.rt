//! The rows of `meta`, `room` and `vector` of a database, without others, and whether its numbers agree, as each question asks beside its own rows.

ghost use Rattle.std.specs.Prelude.{◌≡◌, true, false, IfErr, OnOk};
ghost use Rattle.sqlite.specs.Held.{state};
ghost use Rattle.mr_model.specs.Scopes.{Nothing, in_scope};
ghost use Rattle.mr_rows.specs.Database.{tables_in};
ghost use Rattle.mr_rows.specs.Reads.{ReadsKept};
ghost use Rattle.mr_sql.specs.FailedReads.{FailsByStoreAlone};
ghost use Rattle.mr_sql.specs.Numbers.{do_numbers_agree as agree_in};

use mr_base::RoomName;
use mr_rows::Idle;
use mr_rows::all_tables::read_heads;
use mr_tables::numbers::do_numbers_agree;
use mr_tables::{MetaRow, Tables, VectorRow};
use sqlite::{Alter, Error};
use std::alloc::Global;

/// Tables with these rows of `meta`, `room` and `vector`, and none of others.
fn bare_tables(alloc: Global, heads: (MetaRow, Vec<RoomName>, Vec<VectorRow>)) -> Tables
    ensures meta { result.meta ≡ heads.0 }
    ensures room { result.room ≡ heads.1.items }
    ensures vector { result.vector ≡ heads.2.items }
{
    Tables {
        meta: heads.0,
        room: heads.1,
        vector: heads.2,
        log: Vec::new(alloc),
        booking: Vec::new(alloc),
        errorlog: Vec::new(alloc),
        cancelled: Vec::new(alloc),
        cancels: Vec::new(alloc),
    }
}

/// Those of this database.
pub(crate) fn read_bare<S: Alter>(conn: &mut Idle<S>, alloc: Global) -> Result<Tables, Error>
    ensures reads { ReadsKept (state S.Store conn.old) (state S.Store conn.new) result
        (λ bare. in_scope Nothing bare ≡ in_scope Nothing (tables_in (state S.Store conn.old).now.trees)) }
    ensures failed { FailsByStoreAlone (state S.Store conn.old) (state S.Store conn.new) result }
{
    let heads = read_heads(conn, alloc)?;
    Ok(bare_tables(alloc, heads))
}

/// Refuses these tables if their rows of `meta` and `vector` contradict each other.
fn test_numbers(tables: &Tables) -> Result<(), Error>
    ensures agree { OnOk result (agree_in tables.now ≡ true) }
    ensures refused { IfErr result (λ _. agree_in tables.now ≡ false) }
{
    if do_numbers_agree(tables) {
        Ok(())
    } else {
        Err(Error::InvalidQuery)
    }
}

/// Finds that the replica's numbers agree with each other: what `meta` says with what `vector` says.
pub(crate) fn check_numbers<S: Alter>(conn: &mut Idle<S>, alloc: Global) -> Result<(), Error>
    ensures reads { ReadsKept (state S.Store conn.old) (state S.Store conn.new) result
        (λ _. agree_in (tables_in (state S.Store conn.old).now.trees) ≡ true) }
    ensures failed { FailsByStoreAlone (state S.Store conn.old) (state S.Store conn.new) result }
{
    let tables = read_bare(conn, alloc)?;
    test_numbers(&tables)
}
