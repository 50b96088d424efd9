ghost use Rattle.std.specs.Prelude.{◌≡◌, ◌↔◌, IsTrue};
ghost use Rattle.sqlite.specs.State.{Survives};
ghost use Rattle.sqlite.specs.Held.{state};
ghost use Rattle.mr_tables.specs.Rise.{Rise};
ghost use Rattle.mr_rows.specs.TableSteps.{rows_put};
ghost use Rattle.mr_first.specs.FirstDatabase.{MakesFirst, first_in};
ghost use Rattle.mr_first.specs.FirstParts.{put_first_meta as with_meta, first_heads_put, logs_put, first_board_put, tables_put, AreFirstKeysRising};

use crate::first_rows::FirstRow;
use crate::rows::{FirstUndoRow, WriteRow};
use crate::tables::First;
use mr_base::RoomName;
use mr_rows::put_row;
use mr_rows::puts::put_meta_of;
use mr_tables::{BookingRow, ErrorRow, MetaRow, TableRow, VectorRow};
use sqlite::{Alter, Error, Transaction};
use std::alloc::Global;

fn put_meta<S: Alter>(tx: &mut Transaction<'_, S>, row: &MetaRow) -> Result<usize, Error>
    ensures same_reference { tx.new.conn.ghost_name ≡ tx.old.conn.ghost_name }
    ensures put { MakesFirst (state S.Store tx.old.conn.now) (state S.Store tx.new.conn.now)
        (with_meta row.now (first_in (state S.Store tx.old.conn.now).now.trees)) result }
    ensures survives { Survives (state S.Store tx.old.conn.now) (state S.Store tx.new.conn.now) (λ _. ⊥) }
{
    put_meta_of(tx, row, 1)
}

fn put_all<R: FirstRow, S: Alter>(
    tx: &mut Transaction<'_, S>,
    alloc: Global,
    rows: &[R],
) -> Result<(), Error>
    ensures same_reference { tx.new.conn.ghost_name ≡ tx.old.conn.ghost_name }
    ensures made { MakesFirst (state S.Store tx.old.conn.now) (state S.Store tx.new.conn.now)
        (rows_put R.form R.rows_of R.with_rows rows.now (first_in (state S.Store tx.old.conn.now).now.trees)) result }
    ensures survives { Survives (state S.Store tx.old.conn.now) (state S.Store tx.new.conn.now) (λ _. ⊥) }
{
    'rows: for row in rows {
        put_row(tx, alloc, row)?;
    }
    Ok(())
}

/// Puts the numbers of the replica, rooms and rows of the vector.
fn put_heads<S: Alter>(
    tx: &mut Transaction<'_, S>,
    alloc: Global,
    first: &First,
) -> Result<(), Error>
    ensures same_reference { tx.new.conn.ghost_name ≡ tx.old.conn.ghost_name }
    ensures made { MakesFirst (state S.Store tx.old.conn.now) (state S.Store tx.new.conn.now)
        (first_heads_put first.now (first_in (state S.Store tx.old.conn.now).now.trees)) result }
    ensures survives { Survives (state S.Store tx.old.conn.now) (state S.Store tx.new.conn.now) (λ _. ⊥) }
{
    put_meta(tx, &first.meta)?;
    put_all::<RoomName, S>(tx, alloc, &first.room)?;
    put_all::<VectorRow, S>(tx, alloc, &first.vector)
}

/// Puts rows into both logs.
fn put_logs<S: Alter>(
    tx: &mut Transaction<'_, S>,
    alloc: Global,
    first: &First,
) -> Result<(), Error>
    ensures same_reference { tx.new.conn.ghost_name ≡ tx.old.conn.ghost_name }
    ensures made { MakesFirst (state S.Store tx.old.conn.now) (state S.Store tx.new.conn.now)
        (logs_put first.now (first_in (state S.Store tx.old.conn.now).now.trees)) result }
    ensures survives { Survives (state S.Store tx.old.conn.now) (state S.Store tx.new.conn.now) (λ _. ⊥) }
{
    put_all::<WriteRow, S>(tx, alloc, &first.write_log)?;
    put_all::<FirstUndoRow, S>(tx, alloc, &first.undo)
}

/// Puts rows into both tables of the board.
fn put_board<S: Alter>(
    tx: &mut Transaction<'_, S>,
    alloc: Global,
    first: &First,
) -> Result<(), Error>
    ensures same_reference { tx.new.conn.ghost_name ≡ tx.old.conn.ghost_name }
    ensures made { MakesFirst (state S.Store tx.old.conn.now) (state S.Store tx.new.conn.now)
        (first_board_put first.now (first_in (state S.Store tx.old.conn.now).now.trees)) result }
    ensures survives { Survives (state S.Store tx.old.conn.now) (state S.Store tx.new.conn.now) (λ _. ⊥) }
{
    put_all::<BookingRow, S>(tx, alloc, &first.booking)?;
    put_all::<ErrorRow, S>(tx, alloc, &first.errorlog)
}

/// Puts first tables, a row in place of the one with its key, if there is one. If the keys of each table rise and the database has no
/// row yet, its first tables are then these.
pub fn put_tables<S: Alter>(
    tx: &mut Transaction<'_, S>,
    alloc: Global,
    first: &First,
) -> Result<(), Error>
    ensures same_reference { tx.new.conn.ghost_name ≡ tx.old.conn.ghost_name }
    ensures made { MakesFirst (state S.Store tx.old.conn.now) (state S.Store tx.new.conn.now)
        (tables_put first.now (first_in (state S.Store tx.old.conn.now).now.trees)) result }
    ensures survives { Survives (state S.Store tx.old.conn.now) (state S.Store tx.new.conn.now) (λ _. ⊥) }
{
    put_heads(tx, alloc, first)?;
    put_logs(tx, alloc, first)?;
    put_board(tx, alloc, first)
}

// ---- keys

fn are_rising<R: TableRow>(rows: &[R]) -> bool
    ensures { IsTrue result ↔ Rise R.before R.key rows.now }
{
    rows.is_sorted_by(|one, next| one.is_before(next))
}

/// Whether the key of each row is before that of the next in its table, so that none is there twice.
pub fn are_keys_rising(first: &First) -> bool
    ensures { IsTrue result ↔ AreFirstKeysRising first.now }
{
    let rooms = are_rising::<RoomName>(&first.room);
    let servers = are_rising::<VectorRow>(&first.vector);
    let writes = are_rising::<WriteRow>(&first.write_log);
    let undo = are_rising::<FirstUndoRow>(&first.undo);
    let bookings = are_rising::<BookingRow>(&first.booking);
    let errors = are_rising::<ErrorRow>(&first.errorlog);
    rooms & servers & writes & undo & bookings & errors
}
