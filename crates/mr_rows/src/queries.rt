ghost use Rattle.std.specs.Prelude.{ℕ, map, ⊤};
ghost use Rattle.std.specs.List.Sorted.{IsPermutation};
ghost use Rattle.sqlite.specs.Held.{state};
ghost use Rattle.sqlite_schema.specs.declared.schema.Schema.{Schema};
ghost use Rattle.mr_rows.specs.Schema.{IsOfTwo};
ghost use Rattle.mr_rows.specs.Shown.{columns_from};
ghost use Rattle.mr_rows.specs.Reads.{LooksIn};
ghost use Rattle.mr_rows.specs.Causes.{FailsByStoreIn, AsksAll};

use crate::idle::Idle;
use sqlite::{Alter, Error, Row};

/// The rows that a text shows which asks for all rows of a table.
pub(crate) fn ask_all<S: Alter>(conn: &mut Idle<S>, sql: &str) -> Result<Vec<Row>, Error>
    ensures looks { (under : Schema) (tree n : ℕ) → AsksAll under tree n sql.now → LooksIn under (state S.Store conn.old) (state S.Store conn.new) result
        (λ rows. IsPermutation (map (columns_from 1 n) ((state S.Store conn.old).now.trees tree)) rows.items) }
    ensures cause { (under : Schema) (tree n : ℕ) → AsksAll under tree n sql.now
        → FailsByStoreIn under (λ _. ⊤) (state S.Store conn.old) (state S.Store conn.new) result }
{
    conn.connection.query_all(sql, &[])
}

/// All rows of `meta`, which both schemas have.
pub fn select_all_meta<S: Alter>(conn: &mut Idle<S>) -> Result<Vec<Row>, Error>
    ensures looks { (under : Schema) → IsOfTwo under → LooksIn under (state S.Store conn.old) (state S.Store conn.new) result
        (λ rows. IsPermutation (map (columns_from 1 7) ((state S.Store conn.old).now.trees 0)) rows.items) }
    ensures cause { (under : Schema) → IsOfTwo under → FailsByStoreIn under (λ _. ⊤) (state S.Store conn.old) (state S.Store conn.new) result }
{
    ask_all(
        conn,
        "SELECT one, schema, server, prim, commits, dropped, clock FROM meta",
    )
}
