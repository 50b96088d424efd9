//! The rows of the table, read from the words behind their names.

ghost use Rattle.std.specs.Prelude.{◌≡◌, IfOk, MatchOption, Some, None, map};
ghost use Rattle.mr_words.specs.CommandTable.{init_row, export_row, import_row, rehearse_row, serve_row, exchange_row, bridge_row, asking, in_row, commands, table};
ghost use Rattle.mr_words.specs.InvocationRead.{asked_of};

use crate::commands::command;
use crate::names::{BRIDGE, EXCHANGE, EXPORT, IMPORT, INIT, REHEARSE, SERVE};
use crate::words::{read_connections, read_line_count, read_port, read_server};
use crate::{Invocation, Task};
use std::alloc::{AllocError, Global};

/// What the row of this name asks for with these words, if they fit it.
pub(crate) fn row(
    alloc: Global,
    name: &str,
    words: &[&str],
) -> Result<Option<Invocation>, AllocError>
    ensures { IfOk result (λ found. MatchOption found (in_row table name.now (map (λ w. w.now) words.now) ≡ None)
        (λ i. in_row table name.now (map (λ w. w.now) words.now) ≡ Some (asked_of i))) }
{
    match name {
        INIT => init(alloc, words),
        EXPORT => export(alloc, words),
        IMPORT => import(alloc, words),
        REHEARSE => rehearse(alloc, words),
        SERVE => serve(alloc, words),
        EXCHANGE => exchange(alloc, words),
        BRIDGE => bridge(alloc, words),
        _ => ask(alloc, name, words),
    }
}

fn init(alloc: Global, words: &[&str]) -> Result<Option<Invocation>, AllocError>
    ensures { IfOk result (λ found. MatchOption found (init_row (map (λ w. w.now) words.now) ≡ None)
        (λ i. init_row (map (λ w. w.now) words.now) ≡ Some (asked_of i))) }
{
    let [database, server, primary] = words else {
        return Ok(None);
    };
    let Some(server) = read_server(server) else {
        return Ok(None);
    };
    let Some(primary) = read_server(primary) else {
        return Ok(None);
    };
    let database = String::from_str(alloc, database)?;
    Ok(Some(Invocation::Init {
        database,
        server,
        primary,
    }))
}

fn export(alloc: Global, words: &[&str]) -> Result<Option<Invocation>, AllocError>
    ensures { IfOk result (λ found. MatchOption found (export_row (map (λ w. w.now) words.now) ≡ None)
        (λ i. export_row (map (λ w. w.now) words.now) ≡ Some (asked_of i))) }
{
    let [database, position, out, lines] = words else {
        return Ok(None);
    };
    let Some(lines) = read_line_count(lines) else {
        return Ok(None);
    };
    Ok(Some(Invocation::Ask {
        database: String::from_str(alloc, database)?,
        task: Task::Export {
            position: String::from_str(alloc, position)?,
            out: String::from_str(alloc, out)?,
            lines,
        },
    }))
}

fn import(alloc: Global, words: &[&str]) -> Result<Option<Invocation>, AllocError>
    ensures { IfOk result (λ found. MatchOption found (import_row (map (λ w. w.now) words.now) ≡ None)
        (λ i. import_row (map (λ w. w.now) words.now) ≡ Some (asked_of i))) }
{
    let [database, batch] = words else {
        return Ok(None);
    };
    Ok(Some(Invocation::Ask {
        database: String::from_str(alloc, database)?,
        task: Task::Import {
            batch: String::from_str(alloc, batch)?,
        },
    }))
}

fn rehearse(alloc: Global, words: &[&str]) -> Result<Option<Invocation>, AllocError>
    ensures { IfOk result (λ found. MatchOption found (rehearse_row (map (λ w. w.now) words.now) ≡ None)
        (λ i. rehearse_row (map (λ w. w.now) words.now) ≡ Some (asked_of i))) }
{
    let [script] = words else {
        return Ok(None);
    };
    let script = String::from_str(alloc, script)?;
    Ok(Some(Invocation::Rehearse { script }))
}

fn serve(alloc: Global, words: &[&str]) -> Result<Option<Invocation>, AllocError>
    ensures { IfOk result (λ found. MatchOption found (serve_row (map (λ w. w.now) words.now) ≡ None)
        (λ i. serve_row (map (λ w. w.now) words.now) ≡ Some (asked_of i))) }
{
    let [database, port, count] = words else {
        return Ok(None);
    };
    let Some(port) = read_port(port) else {
        return Ok(None);
    };
    let Some(count) = read_connections(count) else {
        return Ok(None);
    };
    let database = String::from_str(alloc, database)?;
    Ok(Some(Invocation::Serve {
        database,
        port,
        count,
    }))
}

fn exchange(alloc: Global, words: &[&str]) -> Result<Option<Invocation>, AllocError>
    ensures { IfOk result (λ found. MatchOption found (exchange_row (map (λ w. w.now) words.now) ≡ None)
        (λ i. exchange_row (map (λ w. w.now) words.now) ≡ Some (asked_of i))) }
{
    let [database, url] = words else {
        return Ok(None);
    };
    Ok(Some(Invocation::Exchange {
        database: String::from_str(alloc, database)?,
        url: String::from_str(alloc, url)?,
    }))
}

fn bridge(alloc: Global, words: &[&str]) -> Result<Option<Invocation>, AllocError>
    ensures { IfOk result (λ found. MatchOption found (bridge_row (map (λ w. w.now) words.now) ≡ None)
        (λ i. bridge_row (map (λ w. w.now) words.now) ≡ Some (asked_of i))) }
{
    let [database, other] = words else {
        return Ok(None);
    };
    Ok(Some(Invocation::Bridge {
        database: String::from_str(alloc, database)?,
        other: String::from_str(alloc, other)?,
    }))
}

/// A database, and a command to its replica.
fn ask(alloc: Global, name: &str, words: &[&str]) -> Result<Option<Invocation>, AllocError>
    ensures { IfOk result (λ found. MatchOption found (asking (in_row commands name.now) (map (λ w. w.now) words.now) ≡ None)
        (λ i. asking (in_row commands name.now) (map (λ w. w.now) words.now) ≡ Some (asked_of i))) }
{
    let [database, rest @ ..] = words else {
        return Ok(None);
    };
    match command(alloc, name, rest)? {
        Some(local) => {
            let database = String::from_str(alloc, database)?;
            let task = Task::Local(local);
            Ok(Some(Invocation::Ask { database, task }))
        }
        None => Ok(None),
    }
}
