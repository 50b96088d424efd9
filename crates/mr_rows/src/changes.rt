ghost use Rattle.std.specs.Prelude.{◌≡◌, OnOk, IsTrue};
ghost use Rattle.sqlite.specs.State.{HasCleanDisk, Survives};
ghost use Rattle.sqlite.specs.Held.{state};
ghost use Rattle.mr_tables.specs.Change.{changed};
ghost use Rattle.mr_rows.specs.Database.{MakesTables, Applies, IsReached, tables_in};
ghost use Rattle.mr_rows.specs.TableSteps.{rows_put as rows_in, rows_taken as rows_gone};
ghost use Rattle.mr_rows.specs.ChangeParts.{board_taken, change_taken, heads_put, board_put, cancels_put, change_put, rows_made};

use crate::idle::Idle;
use crate::puts::put_meta;
use crate::stored_rows::{OurRow, RequestRow, put_row, take_by_id};
use mr_base::{RoomName, WriteId};
use mr_tables::{BookingRow, CancelRow, CancelledRow, Change, ErrorRow, LogRow, VectorRow};
use sqlite::{Alter, Error, Transaction};
use std::alloc::Global;

fn take_all<R: RequestRow, S: Alter>(
    tx: &mut Transaction<'_, S>,
    gone: &[WriteId],
) -> Result<(), Error>
    ensures same_reference { tx.new.conn.ghost_name ≡ tx.old.conn.ghost_name }
    ensures made { MakesTables (state S.Store tx.old.conn.now) (state S.Store tx.new.conn.now)
        (rows_gone R.id_of R.rows_of R.with_rows gone.now (tables_in (state S.Store tx.old.conn.now).now.trees)) result }
    ensures survives { Survives (state S.Store tx.old.conn.now) (state S.Store tx.new.conn.now) (λ _. ⊥) }
{
    'gone: for id in gone {
        take_by_id::<R, S>(tx, *id)?;
    }
    Ok(())
}

/// Puts the rows, one after the other.
pub fn put_all<R: OurRow, S: Alter>(
    tx: &mut Transaction<'_, S>,
    alloc: Global,
    rows: &[R],
) -> Result<(), Error>
    ensures same_reference { tx.new.conn.ghost_name ≡ tx.old.conn.ghost_name }
    ensures made { MakesTables (state S.Store tx.old.conn.now) (state S.Store tx.new.conn.now)
        (rows_in R.form R.rows_of R.with_rows rows.now (tables_in (state S.Store tx.old.conn.now).now.trees)) result }
    ensures survives { Survives (state S.Store tx.old.conn.now) (state S.Store tx.new.conn.now) (λ _. ⊥) }
{
    'rows: for row in rows {
        put_row(tx, alloc, row)?;
    }
    Ok(())
}

/// Takes rows away from both tables of a board.
fn take_from_board<S: Alter>(tx: &mut Transaction<'_, S>, change: &Change) -> Result<(), Error>
    ensures same_reference { tx.new.conn.ghost_name ≡ tx.old.conn.ghost_name }
    ensures made { MakesTables (state S.Store tx.old.conn.now) (state S.Store tx.new.conn.now)
        (board_taken change.now (tables_in (state S.Store tx.old.conn.now).now.trees)) result }
    ensures survives { Survives (state S.Store tx.old.conn.now) (state S.Store tx.new.conn.now) (λ _. ⊥) }
{
    take_all::<BookingRow, S>(tx, &change.unbooked)?;
    take_all::<ErrorRow, S>(tx, &change.unlogged)
}

/// Puts the numbers of the replica, rooms and rows of the vector.
fn put_heads<S: Alter>(
    tx: &mut Transaction<'_, S>,
    alloc: Global,
    change: &Change,
) -> Result<(), Error>
    ensures same_reference { tx.new.conn.ghost_name ≡ tx.old.conn.ghost_name }
    ensures made { MakesTables (state S.Store tx.old.conn.now) (state S.Store tx.new.conn.now)
        (heads_put change.now (tables_in (state S.Store tx.old.conn.now).now.trees)) result }
    ensures survives { Survives (state S.Store tx.old.conn.now) (state S.Store tx.new.conn.now) (λ _. ⊥) }
{
    put_meta(tx, &change.meta)?;
    put_all::<RoomName, S>(tx, alloc, &change.room)?;
    put_all::<VectorRow, S>(tx, alloc, &change.vector)
}

/// Puts rows into both tables of a board.
fn put_into_board<S: Alter>(
    tx: &mut Transaction<'_, S>,
    alloc: Global,
    change: &Change,
) -> Result<(), Error>
    ensures same_reference { tx.new.conn.ghost_name ≡ tx.old.conn.ghost_name }
    ensures made { MakesTables (state S.Store tx.old.conn.now) (state S.Store tx.new.conn.now)
        (board_put change.now (tables_in (state S.Store tx.old.conn.now).now.trees)) result }
    ensures survives { Survives (state S.Store tx.old.conn.now) (state S.Store tx.new.conn.now) (λ _. ⊥) }
{
    put_all::<BookingRow, S>(tx, alloc, &change.booking)?;
    put_all::<ErrorRow, S>(tx, alloc, &change.errorlog)
}

/// Puts rows into both tables that cancels fill.
fn put_into_cancels<S: Alter>(
    tx: &mut Transaction<'_, S>,
    alloc: Global,
    change: &Change,
) -> Result<(), Error>
    ensures same_reference { tx.new.conn.ghost_name ≡ tx.old.conn.ghost_name }
    ensures made { MakesTables (state S.Store tx.old.conn.now) (state S.Store tx.new.conn.now)
        (cancels_put change.now (tables_in (state S.Store tx.old.conn.now).now.trees)) result }
    ensures survives { Survives (state S.Store tx.old.conn.now) (state S.Store tx.new.conn.now) (λ _. ⊥) }
{
    put_all::<CancelledRow, S>(tx, alloc, &change.cancelled)?;
    put_all::<CancelRow, S>(tx, alloc, &change.cancels)
}

/// Takes the rows away.
fn take_rows<S: Alter>(tx: &mut Transaction<'_, S>, change: &Change) -> Result<(), Error>
    ensures same_reference { tx.new.conn.ghost_name ≡ tx.old.conn.ghost_name }
    ensures made { MakesTables (state S.Store tx.old.conn.now) (state S.Store tx.new.conn.now)
        (change_taken change.now (tables_in (state S.Store tx.old.conn.now).now.trees)) result }
    ensures survives { Survives (state S.Store tx.old.conn.now) (state S.Store tx.new.conn.now) (λ _. ⊥) }
{
    take_all::<LogRow, S>(tx, &change.dropped)?;
    take_from_board(tx, change)?;
    take_all::<CancelledRow, S>(tx, &change.uncancelled)
}

/// Puts the rows of the log, of the board and of cancels.
fn put_rows<S: Alter>(
    tx: &mut Transaction<'_, S>,
    alloc: Global,
    change: &Change,
) -> Result<(), Error>
    ensures same_reference { tx.new.conn.ghost_name ≡ tx.old.conn.ghost_name }
    ensures made { MakesTables (state S.Store tx.old.conn.now) (state S.Store tx.new.conn.now)
        (change_put change.now (tables_in (state S.Store tx.old.conn.now).now.trees)) result }
    ensures survives { Survives (state S.Store tx.old.conn.now) (state S.Store tx.new.conn.now) (λ _. ⊥) }
{
    put_all::<LogRow, S>(tx, alloc, &change.log)?;
    put_into_board(tx, alloc, change)?;
    put_into_cancels(tx, alloc, change)
}

/// Takes the rows away, and then puts the rows, all but the heads.
fn make_rows<S: Alter>(
    tx: &mut Transaction<'_, S>,
    alloc: Global,
    change: &Change,
) -> Result<(), Error>
    ensures same_reference { tx.new.conn.ghost_name ≡ tx.old.conn.ghost_name }
    ensures made { MakesTables (state S.Store tx.old.conn.now) (state S.Store tx.new.conn.now)
        (rows_made change.now (tables_in (state S.Store tx.old.conn.now).now.trees)) result }
    ensures survives { Survives (state S.Store tx.old.conn.now) (state S.Store tx.new.conn.now) (λ _. ⊥) }
{
    take_rows(tx, change)?;
    put_rows(tx, alloc, change)
}

/// One transaction: it makes the whole change, or none of it.
pub fn apply<S: Alter>(conn: &mut Idle<S>, alloc: Global, change: &Change) -> Result<(), Error>
    ensures lasts { HasCleanDisk (state S.Store conn.new) → OnOk result (IsTrue (state S.Store conn.new).is_open) }
    ensures applied { Applies (state S.Store conn.old) (state S.Store conn.new) (changed change.now (tables_in (state S.Store conn.old).now.trees)) result }
    ensures survives { Survives (state S.Store conn.old) (state S.Store conn.new)
        (λ trees. IsReached (state S.Store conn.old) (changed change.now (tables_in (state S.Store conn.old).now.trees)) trees) }
{
    let mut tx = conn.connection.transaction();
    make_rows(&mut tx, alloc, change)?;
    put_heads(&mut tx, alloc, change)?;
    tx.commit()
}
