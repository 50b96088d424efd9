ghost use Rattle.std.specs.Prelude.{◌≡◌, length};
ghost use Rattle.sqlite.specs.Held.{state};
ghost use Rattle.mr_rows.specs.Database.{tables_in};
ghost use Rattle.mr_rows.specs.Form.{meta_form, room_form, vector_form};
ghost use Rattle.mr_rows.specs.Shown.{AreStoredAs, AreOurRows};
ghost use Rattle.mr_rows.specs.Reads.{ReadsKept};
ghost use Rattle.mr_rows.specs.Causes.{FailsByStore};

use crate::found::{FoundRows, find_all};
use crate::idle::Idle;
use crate::meta_table::the_meta;
use mr_base::RoomName;
use mr_tables::{MetaRow, Tables, VectorRow};
use sqlite::{Alter, Error};
use std::alloc::Global;

/// The replica's numbers, its rooms and its vector.
pub fn read_heads<S: Alter>(
    conn: &mut Idle<S>,
    alloc: Global,
) -> Result<(MetaRow, Vec<RoomName>, Vec<VectorRow>), Error>
    ensures reads { ReadsKept (state S.Store conn.old) (state S.Store conn.new) result
        (λ r. (r.0 ≡ (tables_in (state S.Store conn.old).now.trees).meta) × (r.1.items ≡ (tables_in (state S.Store conn.old).now.trees).room)
        × (r.2.items ≡ (tables_in (state S.Store conn.old).now.trees).vector)) }
    ensures cause { FailsByStore (λ trees. AreStoredAs meta_form trees × (length (trees 0) ≡ 1) × AreStoredAs room_form trees × AreStoredAs vector_form trees)
        (state S.Store conn.old) (state S.Store conn.new) result }
{
    let meta = the_meta(conn, 2)?;
    let rows = <(Vec<RoomName>, Vec<VectorRow>) as FoundRows>::find(conn, alloc, true)?;
    Ok((meta, rows.0, rows.1))
}

/// The known rooms.
pub fn read_rooms<S: Alter>(conn: &mut Idle<S>, alloc: Global) -> Result<Vec<RoomName>, Error>
    ensures reads { ReadsKept (state S.Store conn.old) (state S.Store conn.new) result
        (λ rooms. rooms.items ≡ (tables_in (state S.Store conn.old).now.trees).room) }
    ensures cause { FailsByStore (AreStoredAs room_form) (state S.Store conn.old) (state S.Store conn.new) result }
{
    <Vec<RoomName> as FoundRows>::find(conn, alloc, true)
}

/// All tables. Each row is tested as it is read.
pub fn read_tables<S: Alter>(conn: &mut Idle<S>, alloc: Global) -> Result<Tables, Error>
    ensures reads { ReadsKept (state S.Store conn.old) (state S.Store conn.new) result (λ tables. tables ≡ tables_in (state S.Store conn.old).now.trees) }
    ensures cause { FailsByStore (λ trees. AreOurRows trees × (length (trees 0) ≡ 1)) (state S.Store conn.old) (state S.Store conn.new) result }
{
    match find_all(conn, alloc, true)? {
        Some(tables) => Ok(tables),
        None => Err(Error::QueryReturnedNoRows),
    }
}
