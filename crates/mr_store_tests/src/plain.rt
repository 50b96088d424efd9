// Tables as plain lists, changed a row at a time: keepers and desks are compared with them.

use mr_base::{ServerId, WriteId};
use mr_tables::table_row::{IdRow, TableRow, take_away};
use mr_tables::{Change, MetaRow, Tables};
use std::alloc::{AllocError, Global};

/// The tables of a replica that knows nothing yet.
pub(crate) fn opening_tables(alloc: Global, server: ServerId, primary: ServerId) -> Tables {
    Tables {
        meta: MetaRow::opening(server, primary),
        room: Vec::new(alloc),
        vector: Vec::new(alloc),
        log: Vec::new(alloc),
        booking: Vec::new(alloc),
        errorlog: Vec::new(alloc),
        cancelled: Vec::new(alloc),
        cancels: Vec::new(alloc),
    }
}

/// Puts the row before the first one that doesn't stand before it, or in its place if both have one key.
fn put<R: TableRow>(alloc: Global, rows: &mut Vec<R>, row: &R) -> Result<(), AllocError> {
    let mut all = Vec::new(alloc);
    let mut is_put = false;
    for other in rows.iter() {
        if !is_put && !other.is_before(row) {
            all.push(row.copied(alloc)?)?;
            is_put = true;
        }
        if other.is_before(row) || row.is_before(other) {
            all.push(other.copied(alloc)?)?;
        }
    }
    if !is_put {
        all.push(row.copied(alloc)?)?;
    }
    *rows = all;
    Ok(())
}

fn put_all<R: TableRow>(alloc: Global, rows: &mut Vec<R>, news: &[R]) -> Result<(), AllocError> {
    for row in news {
        put(alloc, rows, row)?;
    }
    Ok(())
}

/// Takes the rows of these writes away, and puts the others.
fn change_rows<R: IdRow>(
    alloc: Global,
    rows: &mut Vec<R>,
    gone: &[WriteId],
    news: &[R],
) -> Result<(), AllocError> {
    take_away(rows, gone);
    put_all(alloc, rows, news)
}

/// Makes the change, table by table.
pub(crate) fn change_tables(
    alloc: Global,
    tables: &mut Tables,
    change: &Change,
) -> Result<(), AllocError> {
    tables.meta = change.meta;
    put_all(alloc, &mut tables.room, &change.room)?;
    put_all(alloc, &mut tables.vector, &change.vector)?;
    put_all(alloc, &mut tables.cancels, &change.cancels)?;
    change_rows(alloc, &mut tables.log, &change.dropped, &change.log)?;
    change_rows(
        alloc,
        &mut tables.booking,
        &change.unbooked,
        &change.booking,
    )?;
    change_rows(
        alloc,
        &mut tables.errorlog,
        &change.unlogged,
        &change.errorlog,
    )?;
    change_rows(
        alloc,
        &mut tables.cancelled,
        &change.uncancelled,
        &change.cancelled,
    )
}
