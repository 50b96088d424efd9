//! The number of the schema, which stands in the row of `meta`.

ghost use Rattle.std.specs.Prelude.{◌≡◌, ◌≢◌, ◌<◌, [], ◌∷◌, pos, IfOk, IfErr, IsTrue, length, ⊤};
ghost use Rattle.sqlite_value.specs.declared.value.Value.TheVariants.{Int};
ghost use Rattle.sqlite_value.specs.Order.{column};
ghost use Rattle.sqlite_schema.specs.declared.schema.Schema.{Schema};
ghost use Rattle.sqlite.specs.Held.{state};
ghost use Rattle.mr_rows.specs.Schema.{IsOfTwo};
ghost use Rattle.mr_rows.specs.Reads.{IsPlacedIn, ReadsWhere};
ghost use Rattle.mr_rows.specs.Causes.{FailsByStoreIn};
ghost use Rattle.mr_sql.specs.Refused.{HasOtherNumber};

use mr_rows::Idle;
use mr_rows::cells::read_u32;
use mr_rows::queries::select_all_meta;
use sqlite::{Alter, Error, ErrorCode, Row};

/// Whether the number of the schema in this row is another.
fn is_other(row: &Row, number: u32) -> Result<bool, Error>
    ensures other { IfOk result (λ other. IsTrue other → 1 < length row.now → column row.now 1 ≢ Int (pos number)) }
    ensures memory { IfErr result (λ e. e ≡ Error.SqliteFailure ErrorCode.OutOfMemory) }
{
    match read_u32(row, 1) {
        Ok(found) => Ok(found != number),
        Err(Error::SqliteFailure(ErrorCode::OutOfMemory)) => {
            Err(Error::SqliteFailure(ErrorCode::OutOfMemory))
        }
        Err(_) => Ok(true),
    }
}

/// Whether there is one row, and the number of the schema in it is another.
fn is_other_alone(rows: &[Row], number: u32) -> Result<bool, Error>
    ensures other { IfOk result (λ other. IsTrue other → (r : _) × (rows.now ≡ r ∷ []) × (1 < length r → column r 1 ≢ Int (pos number))) }
    ensures memory { IfErr result (λ e. e ≡ Error.SqliteFailure ErrorCode.OutOfMemory) }
{
    match rows {
        [row] => is_other(row, number),
        _ => Ok(false),
    }
}

/// Whether the database is of a schema with another number than this.
pub(crate) fn has_other_number<S: Alter>(conn: &mut Idle<S>, number: u32) -> Result<bool, Error>
    ensures looks { (under : Schema) → IsOfTwo under
        → ReadsWhere (IsPlacedIn under) (state S.Store conn.old) (state S.Store conn.new) result
        (λ other. IsTrue other → HasOtherNumber number (state S.Store conn.old).now.trees) }
    ensures cause { (under : Schema) → IsOfTwo under → FailsByStoreIn under (λ _. ⊤) (state S.Store conn.old) (state S.Store conn.new) result }
{
    let rows = select_all_meta(conn)?;
    is_other_alone(&rows, number)
}
