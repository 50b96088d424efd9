ghost use Rattle.std.specs.Prelude.{◌≡◌, ◌≢◌, [], ◌∷◌, Bool, List, pos, bytes_eq, filter, find, map, IfOk, IfErr, ⊤};
ghost use Rattle.std.specs.List.{All};
ghost use Rattle.std.specs.List.Sorted.{IsPermutation};
ghost use Rattle.sqlite_value.specs.declared.value.Value.TheVariants.{Null, Int, Text};
ghost use Rattle.sqlite_value.specs.Order.{Row as Cells};
ghost use Rattle.sqlite.specs.Values.{bound};
ghost use Rattle.sqlite.specs.Held.{state};
ghost use Rattle.mr_model.specs.Texts.{Text as Name};
ghost use Rattle.mr_model.specs.Writes.{Id, same_id};
ghost use Rattle.mr_model.specs.Replica.{is_among};
ghost use Rattle.mr_tables.specs.Change.{id_before, put_all};
ghost use Rattle.mr_rows.specs.Database.{IsHeld, in_order};
ghost use Rattle.mr_rows.specs.Shown.{IsShownAs, AreStoredAs};
ghost use Rattle.mr_rows.specs.Reads.{Looks, first_of};
ghost use Rattle.mr_rows.specs.Causes.{FailsByStore};
ghost use Rattle.mr_rows.specs.RowsAsked.{AreChosen, AsksFor};

use crate::idle::Idle;
use crate::stored_rows::{StoredRow, read_all, read_row};
use mr_base::{RoomName, WriteId};
use sqlite::types::ValueRef;
use sqlite::{Alter, Error, ErrorCode, Row, params};
use std::alloc::Global;

/// The texts that ask for the rows of a room, and for the row with an id.
#[derive(Clone, Copy, Debug)]
pub struct AskedTexts {
    pub of_room: &'static str,
    pub of_id: &'static str,
}

/// A row that is asked for by the room or the id of its write.
pub trait AskedRow: StoredRow {
    ghost room_of: { Self → Name };

    ghost id_of: { Self → Id };

    /// The two texts: in one ?1 is the room; in the other ?1 and ?2 are the server and the count of the id.
    fn asked() -> AskedTexts
        ensures room { (room : Name) → AsksFor Self.form result.of_room.now (Text room ∷ []) (λ row. bytes_eq (room_of row) room) }
        ensures id { (id : Id) → AsksFor Self.form result.of_id.now (Int (pos id.server) ∷ Int (pos id.n) ∷ []) (λ row. is_among (id_of row) (id ∷ [])) };

    // the rows stand by their ids
    ghost by_id: { (stored : List Cells) → in_order Self.form stored ≡ put_all id_before id_of (map Self.form.row_in stored) [] };
}

/// The rows that a text shows which asks for some rows of a table.
fn ask_for<R: AskedRow, S: Alter>(
    conn: &mut Idle<S>,
    sql: &str,
    params: &[ValueRef<'_>],
) -> Result<Vec<Row>, Error>
    ensures looks { (chosen : R → Bool) → AsksFor R.form sql.now (bound params.now) chosen
        → Looks (state S.Store conn.old) (state S.Store conn.new) result (λ rows. AreChosen R.form chosen (state S.Store conn.old).now.trees rows.items) }
    ensures cause { (chosen : R → Bool) → AsksFor R.form sql.now (bound params.now) chosen
        → FailsByStore (λ _. ⊤) (state S.Store conn.old) (state S.Store conn.new) result }
{
    conn.connection.query_all(sql, params)
}

/// The rows of a room.
pub fn rows_in<R: AskedRow, S: Alter>(
    conn: &mut Idle<S>,
    alloc: Global,
    room: &RoomName,
) -> Result<Vec<R>, Error>
    ensures looks { Looks (state S.Store conn.old) (state S.Store conn.new) result
        (λ rows. IsHeld R.form ((state S.Store conn.old).now.trees R.form.table.tree)
        → IsPermutation (filter (λ row. bytes_eq (R.room_of row) room.now) (in_order R.form ((state S.Store conn.old).now.trees R.form.table.tree))) rows.items) }
    ensures cause { FailsByStore (AreStoredAs R.form) (state S.Store conn.old) (state S.Store conn.new) result }
{
    let rows = ask_for::<R, S>(conn, R::asked().of_room, params![room.as_str()])?;
    read_all(alloc, &rows)
}

fn first_row<R: StoredRow>(alloc: Global, rows: &[Row]) -> Result<Option<R>, Error>
    ensures first { IfOk result (λ row. row ≡ first_of (map (λ row. R.form.row_in (Null ∷ row)) rows.now)) }
    ensures refused { IfErr result (λ e. e ≢ Error.SqliteFailure ErrorCode.OutOfMemory → ¬ All (IsShownAs R.form) rows.now) }
{
    match rows.first() {
        None => Ok(None),
        Some(row) => Ok(Some(read_row(alloc, row)?)),
    }
}

/// The row with this id.
pub fn row_of<R: AskedRow, S: Alter>(
    conn: &mut Idle<S>,
    alloc: Global,
    id: WriteId,
) -> Result<Option<R>, Error>
    ensures looks { Looks (state S.Store conn.old) (state S.Store conn.new) result
        (λ row. IsHeld R.form ((state S.Store conn.old).now.trees R.form.table.tree)
        → row ≡ find (λ r. same_id (R.id_of r) id) (in_order R.form ((state S.Store conn.old).now.trees R.form.table.tree))) }
    ensures cause { FailsByStore (AreStoredAs R.form) (state S.Store conn.old) (state S.Store conn.new) result }
{
    let rows = ask_for::<R, S>(conn, R::asked().of_id, params![id.server.number(), id.n])?;
    first_row(alloc, &rows)
}

/// The rows of two tables with this id.
pub fn rows_of<A: AskedRow, B: AskedRow, S: Alter>(
    conn: &mut Idle<S>,
    alloc: Global,
    id: WriteId,
) -> Result<(Option<A>, Option<B>), Error>
    ensures looks { Looks (state S.Store conn.old) (state S.Store conn.new) result
        (λ rows. (IsHeld A.form ((state S.Store conn.old).now.trees A.form.table.tree)
        → rows.0 ≡ find (λ r. same_id (A.id_of r) id) (in_order A.form ((state S.Store conn.old).now.trees A.form.table.tree)))
        × (IsHeld B.form ((state S.Store conn.old).now.trees B.form.table.tree)
        → rows.1 ≡ find (λ r. same_id (B.id_of r) id) (in_order B.form ((state S.Store conn.old).now.trees B.form.table.tree)))) }
    ensures cause { FailsByStore (λ trees. AreStoredAs A.form trees × AreStoredAs B.form trees) (state S.Store conn.old) (state S.Store conn.new) result }
{
    let first = row_of::<A, S>(conn, alloc, id)?;
    let second = row_of::<B, S>(conn, alloc, id)?;
    Ok((first, second))
}
