ghost use Rattle.std.specs.Prelude.{◌≡◌, ◌≤◌, length};
ghost use Rattle.sqlite.specs.Held.{state};
ghost use Rattle.mr_rows.specs.Schema.{first_schema};
ghost use Rattle.mr_rows.specs.Shown.{IsMeta};
ghost use Rattle.mr_rows.specs.Causes.{FailsByStoreIn};
ghost use Rattle.mr_first.specs.FirstDatabase.{LooksFirst, ReadsFirst, first_in};
ghost use Rattle.mr_first.specs.FirstShown.{AreFirstRows};

use crate::rows::{FirstUndoRow, WriteRow};
use crate::tables::First;
use mr_base::RoomName;
use mr_rows::Idle;
use mr_rows::found::FoundRows;
use mr_rows::meta_table::{find_meta, the_meta};
use mr_tables::{BookingRow, ErrorRow, MetaRow, VectorRow};
use sqlite::{Alter, Error};
use std::alloc::Global;

// The tables beside `meta`: the rooms and the vector, both logs, and both tables of the board.

type Heads = (Vec<RoomName>, Vec<VectorRow>);

type Logs = (Vec<WriteRow>, Vec<FirstUndoRow>);

type Board = (Vec<BookingRow>, Vec<ErrorRow>);

/// Finds the row of `meta`, if there is one, and that all rows of all tables of the first schema keep the tables' rules and the limits.
pub fn find_first<S: Alter>(conn: &mut Idle<S>, alloc: Global) -> Result<Option<MetaRow>, Error>
    ensures looks { LooksFirst (state S.Store conn.old) (state S.Store conn.new) result
        (λ m. AreFirstRows (state S.Store conn.old).now.trees × IsMeta (state S.Store conn.old).now.trees m) }
    ensures cause { FailsByStoreIn first_schema (λ trees. AreFirstRows trees × (length (trees 0) ≤ 1)) (state S.Store conn.old) (state S.Store conn.new) result }
{
    let rows = <(Heads, (Logs, Board)) as FoundRows>::find(conn, alloc, false)?;
    drop(rows);
    find_meta(conn, 1)
}

/// All tables. Each row is tested as it is read.
pub(crate) fn read_first<S: Alter>(conn: &mut Idle<S>, alloc: Global) -> Result<First, Error>
    ensures reads { ReadsFirst (state S.Store conn.old) (state S.Store conn.new) result (λ first. first ≡ first_in (state S.Store conn.old).now.trees) }
    ensures cause { FailsByStoreIn first_schema (λ trees. AreFirstRows trees × (length (trees 0) ≡ 1)) (state S.Store conn.old) (state S.Store conn.new) result }
{
    let rows = <(Heads, (Logs, Board)) as FoundRows>::find(conn, alloc, true)?;
    let meta = the_meta(conn, 1)?;
    Ok(First {
        meta,
        room: rows.0.0,
        vector: rows.0.1,
        write_log: rows.1.0.0,
        undo: rows.1.0.1,
        booking: rows.1.1.0,
        errorlog: rows.1.1.1,
    })
}
