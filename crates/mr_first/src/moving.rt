ghost use Rattle.std.specs.Prelude.{◌≡◌, true, IsTrue, OnOk};
ghost use Rattle.sqlite.specs.State.{HasCleanDisk, KeepsCommit, Survives};
ghost use Rattle.sqlite.specs.Held.{state};
ghost use Rattle.mr_agree.specs.Agreeing.{agree};
ghost use Rattle.mr_model.specs.First.{moved};
ghost use Rattle.mr_first.specs.FirstDatabase.{IsKeptFirst, first_in};
ghost use Rattle.mr_first.specs.MovedUp.{MovesTo, IsMoved};
ghost use Rattle.mr_first.specs.MoveUpSteps.{laid_out, filled, Rewrites};

use crate::clearing::clear_old;
use crate::creating::create_second_rows;
use crate::moved_tables::read_agreeing;
use mr_rows::Idle;
use mr_rows::changes::put_all;
use mr_rows::puts::put_meta;
use mr_tables::{LogRow, MetaRow};
use sqlite::{Alter, Error, Transaction};
use std::alloc::Global;

/// Makes the tables that the second schema has beside those of the first, with rows in none of them, nor in those that it has other rows for.
fn lay_out<S: Alter>(tx: &mut Transaction<'_, S>) -> Result<(), Error>
    ensures same_reference { tx.new.conn.ghost_name ≡ tx.old.conn.ghost_name }
    ensures made { Rewrites (state S.Store tx.old.conn.now) (state S.Store tx.new.conn.now)
        (laid_out (first_in (state S.Store tx.old.conn.now).now.trees)) result }
    ensures kept { HasCleanDisk (state S.Store tx.new.conn.now) → KeepsCommit (state S.Store tx.old.conn.now) (state S.Store tx.new.conn.now) }
    ensures survives { Survives (state S.Store tx.old.conn.now) (state S.Store tx.new.conn.now) (λ _. ⊥) }
{
    clear_old(tx)?;
    create_second_rows(tx)
}

/// Puts the log and the row of `meta` into tables of the second schema that are made for them.
fn fill<S: Alter>(
    tx: &mut Transaction<'_, S>,
    alloc: Global,
    meta: &MetaRow,
    log: &[LogRow],
) -> Result<(), Error>
    ensures same_reference { tx.new.conn.ghost_name ≡ tx.old.conn.ghost_name }
    ensures made { Rewrites (state S.Store tx.old.conn.now) (state S.Store tx.new.conn.now)
        (filled meta.now log.now (first_in (state S.Store tx.old.conn.now).now.trees)) result }
    ensures kept { HasCleanDisk (state S.Store tx.new.conn.now) → KeepsCommit (state S.Store tx.old.conn.now) (state S.Store tx.new.conn.now) }
    ensures survives { Survives (state S.Store tx.old.conn.now) (state S.Store tx.new.conn.now) (λ _. ⊥) }
{
    lay_out(tx)?;
    put_all::<LogRow, S>(tx, alloc, log)?;
    put_meta(tx, meta)?;
    Ok(())
}

/// One transaction: the first tables become second ones with this row of `meta` and this log, or none of it is done.
fn rewrite<S: Alter>(
    conn: &mut Idle<S>,
    alloc: Global,
    meta: &MetaRow,
    log: &[LogRow],
) -> Result<(), Error>
    ensures lasts { HasCleanDisk (state S.Store conn.new) → OnOk result (IsTrue (state S.Store conn.new).is_open) }
    ensures rewritten { MovesTo (state S.Store conn.old) (state S.Store conn.new)
        (filled meta.now log.now (first_in (state S.Store conn.old).now.trees)) result }
    ensures survives { Survives (state S.Store conn.old) (state S.Store conn.new)
        (IsMoved (state S.Store conn.old) (filled meta.now log.now (first_in (state S.Store conn.old).now.trees))) }
{
    let mut tx = conn.connection.transaction();
    fill(&mut tx, alloc, meta, log)?;
    tx.commit()?;
    Ok(())
}

/// Moves a database of the first schema up to the second, in one transaction: the log takes the place of `write_log` and `undo`, which
/// stay without rows, and all other rows stay. All rows are read before anything is written: logs with a row that has no partner are
/// refused, and so are rows that contradict each other once they are moved. A refusal leaves the tables as they were.
pub fn move_up<S: Alter>(conn: &mut Idle<S>, alloc: Global) -> Result<(), Error>
    ensures lasts { HasCleanDisk (state S.Store conn.new) → OnOk result (IsTrue (state S.Store conn.new).is_open) }
    ensures moved { MovesTo (state S.Store conn.old) (state S.Store conn.new) (moved (first_in (state S.Store conn.old).now.trees)) result }
    ensures survives { Survives (state S.Store conn.old) (state S.Store conn.new)
        (IsMoved (state S.Store conn.old) (moved (first_in (state S.Store conn.old).now.trees))) }
    ensures agree { HasCleanDisk (state S.Store conn.new) → IsKeptFirst (state S.Store conn.old)
        → OnOk result (agree (moved (first_in (state S.Store conn.old).now.trees)) ≡ true) }
{
    let tables = read_agreeing(conn, alloc)?;
    rewrite(conn, alloc, &tables.meta, &tables.log)
}
