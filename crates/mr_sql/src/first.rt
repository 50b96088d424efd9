//! Databases of the first schema, which are moved up when they are opened.

ghost use Rattle.std.specs.Prelude.{◌≡◌};
ghost use Rattle.sqlite.specs.Held.{state};
ghost use Rattle.mr_rows.specs.Schema.{first_schema};
ghost use Rattle.mr_first.specs.FirstDatabase.{LooksFirst};
ghost use Rattle.mr_sql.specs.Opening.{IsFirstFound, IsOpening};

use crate::adopt::{Whose, is_of};
use crate::faults::refusal_of;
use crate::schema_number::has_other_number;
use mr_base::Refusal;
use mr_first::found::find_first;
use mr_first::moving::move_up;
use mr_rows::Idle;
use mr_tables::{MetaRow, Tables};
use sqlite::{Alter, Error};
use std::alloc::Global;

// Finds the row of `meta` in a database with the first schema's tables, all of whose rows are tested, if there is one of this schema.
fn find_old<S: Alter>(conn: &mut Idle<S>, alloc: Global) -> Result<Option<MetaRow>, Error>
    ensures looks { LooksFirst (state S.Store conn.old) (state S.Store conn.new) result (IsFirstFound (state S.Store conn.old).now.trees) }
{
    let is_other = has_other_number(conn, 1)?;
    if is_other {
        return Ok(None);
    }
    find_first(conn, alloc)
}

/// Finds the first schema's tables of those who are wanted, and moves them up.
pub(crate) fn raise<S: Alter>(
    conn: &mut Idle<S>,
    alloc: Global,
    whose: Whose,
) -> Result<Option<Tables>, Refusal>
    requires first { (state S.Store conn.old).now.schema ≡ first_schema }
    ensures opening { IsOpening whose (state S.Store conn.old) (state S.Store conn.new) result }
{
    match find_old(conn, alloc) {
        Ok(Some(meta)) => {
            if !is_of(&meta, whose) {
                return Err(Refusal::NotAReplica);
            }
            match move_up(conn, alloc) {
                Ok(()) => Ok(None),
                Err(error) => Err(refusal_of(error)),
            }
        }
        Ok(None) => Err(Refusal::NotAReplica),
        Err(error) => Err(refusal_of(error)),
    }
}
