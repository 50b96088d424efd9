//! The table `meta`, which has a row or none, under the schema of a number.

ghost use Rattle.std.specs.Prelude.{◌≡◌, ◌∷◌, ◌≤◌, length, map, IfOk, IfErr, OnOk};
ghost use Rattle.std.specs.List.{All};
ghost use Rattle.sqlite_value.specs.declared.value.Value.TheVariants.{Null};
ghost use Rattle.sqlite_schema.specs.declared.schema.Schema.{Schema};
ghost use Rattle.sqlite.specs.Held.{state};
ghost use Rattle.mr_rows.specs.Schema.{IsOfTwo};
ghost use Rattle.mr_rows.specs.RowCells.{meta_in};
ghost use Rattle.mr_rows.specs.Form.{meta_form_of};
ghost use Rattle.mr_rows.specs.Database.{IsHeld, first_meta as meta_of, in_order};
ghost use Rattle.mr_rows.specs.Shown.{IsShownAs, AreStoredAs, IsMeta, listed};
ghost use Rattle.mr_rows.specs.Reads.{LooksIn};
ghost use Rattle.mr_rows.specs.Causes.{FailsByStoreIn};

use crate::idle::Idle;
use crate::meta_row::{first_meta, read_meta_of};
use crate::queries::select_all_meta;
use mr_tables::MetaRow;
use sqlite::{Alter, Error, Row};

/// The row, if there is one. More than one are refused.
fn only_meta(rows: &[Row], number: u32) -> Result<Option<MetaRow>, Error>
    ensures whole { OnOk result (All (IsShownAs (meta_form_of number)) rows.now) }
    ensures row { IfOk result (λ m. map (λ row. meta_in (Null ∷ row)) rows.now ≡ listed m) }
    ensures refused { IfErr result (λ _. length rows.now ≤ 1 → ¬ All (IsShownAs (meta_form_of number)) rows.now) }
{
    match rows {
        [] => Ok(None),
        [row] => Ok(Some(read_meta_of(row, number)?)),
        _ => Err(Error::InvalidQuery),
    }
}

/// Finds the row of `meta`, if there is one.
pub fn find_meta<S: Alter>(conn: &mut Idle<S>, number: u32) -> Result<Option<MetaRow>, Error>
    ensures looks { (under : Schema) → IsOfTwo under → LooksIn under (state S.Store conn.old) (state S.Store conn.new) result
        (λ m. AreStoredAs (meta_form_of number) (state S.Store conn.old).now.trees × IsMeta (state S.Store conn.old).now.trees m) }
    ensures cause { (under : Schema) → IsOfTwo under
        → FailsByStoreIn under (λ trees. AreStoredAs (meta_form_of number) trees × (length (trees 0) ≤ 1)) (state S.Store conn.old) (state S.Store conn.new) result }
{
    let rows = select_all_meta(conn)?;
    only_meta(&rows, number)
}

/// The first row of `meta`. It is an error if there is none; that there are others is not noticed here.
pub fn the_meta<S: Alter>(conn: &mut Idle<S>, number: u32) -> Result<MetaRow, Error>
    ensures looks { (under : Schema) → IsOfTwo under → LooksIn under (state S.Store conn.old) (state S.Store conn.new) result
        (λ row. IsHeld (meta_form_of number) ((state S.Store conn.old).now.trees 0)
        → row ≡ meta_of (in_order (meta_form_of number) ((state S.Store conn.old).now.trees 0))) }
    ensures cause { (under : Schema) → IsOfTwo under
        → FailsByStoreIn under (λ trees. AreStoredAs (meta_form_of number) trees × (length (trees 0) ≡ 1)) (state S.Store conn.old) (state S.Store conn.new) result }
{
    let rows = select_all_meta(conn)?;
    first_meta(&rows, number)
}
