//! Commands on a database file.

ghost use Rattle.std.specs.Prelude.{◌≡◌, ◌⊎◌};
ghost use Rattle.std.specs.Io.KnownBytes.{Appends};
ghost use Rattle.mr_model.specs.Step.{Command};
ghost use Rattle.mr_words.specs.CommandOutput.{ok_line};
ghost use Rattle.mr_tasks.specs.Tasks.{EndsAsking, EndsAskingEither, EndsAskingOne, EndsInit, IsAboutRoom, IsAnswered, IsCommandFor, OnlyReads, TellsTo, file_for};
ghost use Rattle.mr_tasks.specs.CommandEffects.{TellsFault};

use crate::asking::perform;
use crate::tasks::{is_about_room, needs_rows, only_reads};
use mr_base::ServerId;
use mr_service::Service;
use mr_sql::{CopyKeeper, FileKeeper, NotCopied, SqlKeeper};
use mr_store::Keeper;
use mr_trees::{CopyOfTrees, TreeKeeper};
use mr_words::{DONE, Task, say, say_refusal};
use std::alloc::Global;
use std::io::Write;

/// Makes the database of a replica, if it is not there yet.
pub fn init<W: Write>(
    rt: &HostRuntime,
    alloc: Global,
    database: &str,
    server: ServerId,
    primary: ServerId,
    out: &mut W,
) -> u8
    ensures { EndsInit ⟦<FileKeeper as Keeper>⟧ server primary (W.contents out.old) (W.contents out.new) result }
{
    match SqlKeeper::init_file(rt, database, server, primary) {
        Ok(keeper) => {
            let (keeper, status) = say_made(keeper, out);
            keeper.close();
            status
        }
        Err(refusal) => say_refusal(alloc, out, &refusal),
    }
}

/// Prints that the database of this keeper is there, and gives the keeper back with the status. Nothing is asked of it.
fn say_made<K: Keeper, W: Write>(keeper: K, out: &mut W) -> (K, u8)
    ensures kept { result.0 ≡ keeper }
    ensures told { ((result.1 ≡ 0) × Appends (W.contents out.old) (W.contents out.new) ok_line) ⊎ (result.1 ≡ 3) }
{
    let status = say(out, "ok\n", DONE);
    (keeper, status)
}

/// Does the task with the replica of the database at this path. For a question the database's files are read and nothing is
/// written, unless no copy will do: then the database itself is opened, and moved up if it is of the first schema. A question about a room is
/// answered from the trees of the copy, if these are taken.
pub fn on_database<W: Write>(
    rt: &HostRuntime,
    alloc: Global,
    database: &str,
    task: Task,
    out: &mut W,
) -> u8
    ensures { EndsAskingOne ⟦<FileKeeper as Keeper>⟧ ⟦<CopyKeeper as Keeper>⟧ ⟦<CopyOfTrees as Keeper>⟧ (IsCommandFor task) (TellsTo (file_for task))
        (W.contents out.old) (W.contents out.new) result }
{
    if is_about_room(&task) {
        on_trees(rt, alloc, database, task, out)
    } else if only_reads(&task) {
        on_copy(rt, alloc, database, task, out)
    } else {
        on_file(rt, alloc, database, task, out)
    }
}

/// Does the task, a question about a room, with the trees of a copy of the database at this path, or as any other question if these aren't taken: so
/// each refusal of a database is that of `on_copy`.
fn on_trees<W: Write>(
    rt: &HostRuntime,
    alloc: Global,
    database: &str,
    task: Task,
    out: &mut W,
) -> u8
    requires asks { (command : Command) → IsCommandFor task command → IsAboutRoom command }
    ensures { EndsAskingOne ⟦<FileKeeper as Keeper>⟧ ⟦<CopyKeeper as Keeper>⟧ ⟦<CopyOfTrees as Keeper>⟧ (IsCommandFor task) (TellsTo (file_for task))
        (W.contents out.old) (W.contents out.new) result }
{
    match TreeKeeper::open_copy(rt, database) {
        Some(keeper) => {
            let (_copy, status) = on_keeper(rt, alloc, keeper, task, out);
            status
        }
        None => on_copy(rt, alloc, database, task, out),
    }
}

/// Does the task, a question, with a copy of the database at this path, or with the database itself if no copy will do.
fn on_copy<W: Write>(rt: &HostRuntime, alloc: Global, database: &str, task: Task, out: &mut W) -> u8
    requires reads { (command : Command) → IsCommandFor task command → OnlyReads command }
    ensures { EndsAskingEither ⟦<FileKeeper as Keeper>⟧ ⟦<CopyKeeper as Keeper>⟧ (IsCommandFor task) (TellsTo (file_for task))
        (W.contents out.old) (W.contents out.new) result }
{
    match SqlKeeper::open_copy(rt, database, needs_rows(&task)) {
        Ok(keeper) => {
            let (_copy, status) = on_keeper(rt, alloc, keeper, task, out);
            status
        }
        Err(NotCopied::Refused(refusal)) => say_refusal(alloc, out, &refusal),
        Err(NotCopied::OnlyInFile) => on_file(rt, alloc, database, task, out),
    }
}

/// Opens the database at this path, does the task with its replica, and closes what was given back.
fn on_file<W: Write>(rt: &HostRuntime, alloc: Global, database: &str, task: Task, out: &mut W) -> u8
    ensures { EndsAsking ⟦<FileKeeper as Keeper>⟧ (IsCommandFor task) (TellsTo (file_for task)) (W.contents out.old) (W.contents out.new) result }
{
    match SqlKeeper::open_file(rt, database) {
        Ok(keeper) => {
            let (keeper, status) = on_keeper(rt, alloc, keeper, task, out);
            keeper.close();
            status
        }
        Err(refusal) => say_refusal(alloc, out, &refusal),
    }
}

/// Does the task with the replica of this keeper, and gives the keeper back with the status.
fn on_keeper<K: Keeper, W: Write>(
    rt: &HostRuntime,
    alloc: Global,
    keeper: K,
    task: Task,
    out: &mut W,
) -> (K, u8)
    ensures { IsAnswered K.Keeper (IsCommandFor task) (TellsTo (file_for task)) keeper result.0 (W.contents out.old) (W.contents out.new) result.1
        ⊎ ((result.0 ≡ keeper) × TellsFault (W.contents out.old) (W.contents out.new) result.1) }
{
    let mut service = Service::new(alloc, keeper);
    let status = perform(rt, alloc, &mut service, task, out);
    (service.into_keeper(), status)
}
