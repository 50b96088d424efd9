ghost use Rattle.std.specs.Prelude.{◌≡◌, IsTrue, OnOk, OnErr};
ghost use Rattle.sqlite.specs.State.{HasCleanDisk, KeepsCommit, Survives};
ghost use Rattle.sqlite.specs.Held.{state};
ghost use Rattle.mr_rows.specs.Schema.{no_schema};
ghost use Rattle.mr_rows.specs.Database.{IsKept, IsTablesStep, tables_in};
ghost use Rattle.mr_rows.specs.ChangeParts.{put_meta as meta_put};
ghost use Rattle.mr_sql.specs.Blank.{no_tables};

use mr_first::creating::{create_first_tables, create_second_rows};
use mr_rows::Idle;
use mr_rows::puts::put_meta;
use mr_tables::MetaRow;
use sqlite::{Alter, Error, Transaction};

/// Makes the tables, and puts the row of `meta`.
fn fill<S: Alter>(tx: &mut Transaction<'_, S>, row: &MetaRow) -> Result<(), Error>
    ensures same_reference { tx.new.conn.ghost_name ≡ tx.old.conn.ghost_name }
    ensures filled { HasCleanDisk (state S.Store tx.new.conn.now) → IsTrue (state S.Store tx.old.conn.now).in_transaction
        → (state S.Store tx.old.conn.now).now.schema ≡ no_schema
        → OnOk result (IsTablesStep (state S.Store tx.old.conn.now) (state S.Store tx.new.conn.now) (meta_put row.now no_tables)) }
    ensures kept { HasCleanDisk (state S.Store tx.new.conn.now) → KeepsCommit (state S.Store tx.old.conn.now) (state S.Store tx.new.conn.now) }
    ensures survives { Survives (state S.Store tx.old.conn.now) (state S.Store tx.new.conn.now) (λ _. ⊥) }
{
    create_first_tables(tx)?;
    create_second_rows(tx)?;
    put_meta(tx, row)?;
    Ok(())
}

/// Makes the tables with the row of `meta`, in one transaction. If it is refused, the database is as it was.
pub(crate) fn create<S: Alter>(conn: &mut Idle<S>, row: &MetaRow) -> Result<(), Error>
    ensures lasts { HasCleanDisk (state S.Store conn.new) → OnOk result (IsTrue (state S.Store conn.new).is_open) }
    ensures kept { HasCleanDisk (state S.Store conn.new) → IsTrue (state S.Store conn.new).is_open → (state S.Store conn.old).now.schema ≡ no_schema
        → OnOk result (IsKept (state S.Store conn.new)) }
    ensures tables { HasCleanDisk (state S.Store conn.new) → IsTrue (state S.Store conn.new).is_open → (state S.Store conn.old).now.schema ≡ no_schema
        → OnOk result (tables_in (state S.Store conn.new).now.trees ≡ meta_put row.now no_tables) }
    ensures refused { HasCleanDisk (state S.Store conn.new) → IsTrue (state S.Store conn.new).is_open → (state S.Store conn.old).now.schema ≡ no_schema
        → (state S.Store conn.old).now ≡ (state S.Store conn.old).committed
        → OnErr result (((state S.Store conn.new).now ≡ (state S.Store conn.old).now)
        × ((state S.Store conn.new).committed ≡ (state S.Store conn.old).committed)) }
    ensures survives { Survives (state S.Store conn.old) (state S.Store conn.new)
        (λ trees. (state S.Store conn.old).now.schema ≡ no_schema → tables_in trees ≡ meta_put row.now no_tables) }
{
    let mut tx = conn.connection.transaction();
    fill(&mut tx, row)?;
    tx.commit()?;
    Ok(())
}
