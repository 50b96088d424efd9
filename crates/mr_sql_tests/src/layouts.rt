// Which tables a database has, as any SQL shows it.

use sqlite::{Alter, Connection};

/// The number of the schema, how many tables there are, and how many rows `write_log` and `undo` have.
pub(crate) type Layout = [u32; 4];

/// The number in the one column of the one row that this shows.
fn number<S: Alter>(conn: &mut Connection<S>, query: &str) -> Option<u32> {
    conn.query_row(query, &[]).ok()?.get(0).ok()
}

/// The number of the schema, and how many tables there are.
pub(crate) fn schema<S: Alter>(conn: &mut Connection<S>) -> Option<(u32, u32)> {
    let schema = number(conn, "SELECT schema FROM meta")?;
    let tables = number(
        conn,
        "SELECT count(*) FROM sqlite_schema WHERE type = 'table'",
    )?;
    Some((schema, tables))
}

pub(crate) fn layout<S: Alter>(conn: &mut Connection<S>) -> Option<Layout> {
    let (schema, tables) = schema(conn)?;
    let writes = number(conn, "SELECT count(*) FROM write_log")?;
    let places = number(conn, "SELECT count(*) FROM undo")?;
    Some([schema, tables, writes, places])
}
