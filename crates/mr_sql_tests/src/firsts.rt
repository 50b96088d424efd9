// The tables of a replica as those of the first schema.

use mr_base::Refusal;
use mr_first::{First, FirstUndoRow, WriteRow};
use mr_store::Keeper;
use mr_tables::{ActionCells, LogRow, Tables};
use std::alloc::Global;

/// The rows of a write in `write_log` and in `undo`. A cancel has none.
fn first_rows(row: LogRow) -> Result<(WriteRow, FirstUndoRow), Refusal> {
    let LogRow {
        server,
        n,
        time,
        room,
        action,
        place,
        seq,
    } = row;
    match action {
        ActionCells::OfMeeting(meeting) => {
            let write = WriteRow {
                server,
                n,
                time,
                room,
                meeting,
                seq,
            };
            Ok((write, FirstUndoRow { server, n, place }))
        }
        ActionCells::OfCancel(_) => Err(Refusal::NeedsVersion2),
    }
}

/// The rows of all of them.
fn both_logs(
    alloc: Global,
    log: Vec<LogRow>,
) -> Result<(Vec<WriteRow>, Vec<FirstUndoRow>), Refusal> {
    let mut writes = Vec::new(alloc);
    let mut undo = Vec::new(alloc);
    for row in log {
        let (write, place) = first_rows(row)?;
        writes.push(write)?;
        undo.push(place)?;
    }
    Ok((writes, undo))
}

/// These tables, of a replica that knows no cancel.
fn first_of(alloc: Global, tables: Tables) -> Result<First, Refusal> {
    let Tables {
        meta,
        room,
        vector,
        log,
        booking,
        errorlog,
        ..
    } = tables;
    let (write_log, undo) = both_logs(alloc, log)?;
    Ok(First {
        meta,
        room,
        vector,
        write_log,
        undo,
        booking,
        errorlog,
    })
}

/// Those of the replica of a keeper.
pub(crate) fn first_tables<K: Keeper>(alloc: Global, keeper: &mut K) -> Result<First, Refusal> {
    match keeper.read() {
        Ok(tables) => first_of(alloc, tables),
        Err(fault) => Err(Refusal::from(fault)),
    }
}
