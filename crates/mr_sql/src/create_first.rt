//! How tables of the first schema are made.

ghost use Rattle.std.specs.Prelude.{◌≡◌, IsTrue, OnOk};
ghost use Rattle.sqlite.specs.State.{HasCleanDisk, KeepsCommit, Survives};
ghost use Rattle.sqlite.specs.Held.{state};
ghost use Rattle.mr_rows.specs.Schema.{no_schema};
ghost use Rattle.mr_first.specs.FirstDatabase.{IsKeptFirst, IsFirstStep, first_in};
ghost use Rattle.mr_first.specs.FirstParts.{tables_put, no_first_tables};

use mr_first::First;
use mr_first::creating::create_first_tables;
use mr_first::puts::put_tables;
use mr_rows::Idle;
use sqlite::{Alter, Error, Transaction};
use std::alloc::Global;

/// Makes the tables, and puts these rows.
fn fill<S: Alter>(tx: &mut Transaction<'_, S>, alloc: Global, tables: &First) -> Result<(), Error>
    ensures same_reference { tx.new.conn.ghost_name ≡ tx.old.conn.ghost_name }
    ensures filled { HasCleanDisk (state S.Store tx.new.conn.now) → IsTrue (state S.Store tx.old.conn.now).in_transaction
        → (state S.Store tx.old.conn.now).now.schema ≡ no_schema
        → OnOk result (IsFirstStep (state S.Store tx.old.conn.now) (state S.Store tx.new.conn.now) (tables_put tables.now no_first_tables)) }
    ensures kept { HasCleanDisk (state S.Store tx.new.conn.now) → KeepsCommit (state S.Store tx.old.conn.now) (state S.Store tx.new.conn.now) }
    ensures survives { Survives (state S.Store tx.old.conn.now) (state S.Store tx.new.conn.now) (λ _. ⊥) }
{
    create_first_tables(tx)?;
    put_tables(tx, alloc, tables)
}

/// Makes the tables of the first schema with these rows, in one transaction.
pub(crate) fn create_first<S: Alter>(
    conn: &mut Idle<S>,
    alloc: Global,
    tables: &First,
) -> Result<(), Error>
    ensures kept { HasCleanDisk (state S.Store conn.new) → (state S.Store conn.old).now.schema ≡ no_schema → OnOk result (IsKeptFirst (state S.Store conn.new)) }
    ensures tables { HasCleanDisk (state S.Store conn.new) → (state S.Store conn.old).now.schema ≡ no_schema
        → OnOk result (first_in (state S.Store conn.new).now.trees ≡ tables_put tables.now no_first_tables) }
{
    let mut tx = conn.connection.transaction();
    fill(&mut tx, alloc, tables)?;
    tx.commit()?;
    Ok(())
}
