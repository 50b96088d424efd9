//! What command lines ask of the replica of a database, with the files read that they name.

ghost use Rattle.std.specs.Prelude.{◌≡◌, IfOk, IsTrue};
ghost use Rattle.mr_model.specs.Step.{Command as Asked};
ghost use Rattle.mr_service.specs.Asked.{command_seen, local_of};
ghost use Rattle.mr_tasks.specs.Rehearsed.{GivesInput};
ghost use Rattle.mr_tasks.specs.Tasks.{IsAboutRoom, IsCommandFor, IsCommandWith, OnlyReads, file_for};

use crate::files::{FileFault, open_file, read_limited};
use mr_service::{Command, Local};
use mr_words::Task;
use std::alloc::Global;
use std::fs::File;
use std::io::Read;

/// Whether the task asks a question, which leaves the replica as it is.
pub(crate) fn only_reads(task: &Task) -> bool
    ensures { IsTrue result → (command : Asked) → IsCommandFor task.now command → OnlyReads command }
{
    match task {
        Task::Local(local) => is_question(local),
        Task::Import { .. } => false,
        Task::Export { .. } => true,
    }
}

/// Of a task that only reads: whether it needs rows of writes that no query picks, so that those which an open reads are worth keeping.
pub(crate) fn needs_rows(task: &Task) -> bool {
    match task {
        Task::Local(_) | Task::Import { .. } => false,
        Task::Export { .. } => true,
    }
}

/// Whether the task is a question about a room.
pub(crate) fn is_about_room(task: &Task) -> bool
    ensures { IsTrue result → (command : Asked) → IsCommandFor task.now command → IsAboutRoom command }
{
    match task {
        Task::Local(local) => asks_of_room(local),
        Task::Import { .. } | Task::Export { .. } => false,
    }
}

/// Whether the command is a question about a room.
fn asks_of_room(local: &Local) -> bool
    ensures { IsTrue result → IsAboutRoom (local_of local.now) }
{
    match local {
        Local::Calendar { .. } => true,
        Local::Sheet { .. } => true,
        Local::Outcome { .. } => true,
        Local::Errors { .. } => true,
        Local::Position
        | Local::BatchFor { .. }
        | Local::AddRoom(_)
        | Local::Submit(_)
        | Local::Cancel { .. }
        | Local::Commit(_)
        | Local::Truncate(_) => false,
    }
}

/// Whether the command is a question.
fn is_question(local: &Local) -> bool
    ensures { IsTrue result → OnlyReads (local_of local.now) }
{
    match local {
        Local::Position
        | Local::BatchFor { .. }
        | Local::Calendar { .. }
        | Local::Sheet { .. }
        | Local::Outcome { .. }
        | Local::Errors { .. } => true,
        Local::AddRoom(_)
        | Local::Submit(_)
        | Local::Cancel { .. }
        | Local::Commit(_)
        | Local::Truncate(_) => false,
    }
}

/// The file that the task names, to be read, if it names one.
pub(crate) fn reader_for(rt: &HostRuntime, task: &Task) -> Result<Option<File>, FileFault> {
    let path = match task {
        Task::Local(_) => return Ok(None),
        Task::Import { batch } => batch.as_str(),
        Task::Export { position, .. } => position.as_str(),
    };
    let file = open_file(rt, path)?;
    Ok(Some(file))
}

/// The command of the task, if the reader gives the file that it names, and the path of the file that takes the reply. If there
/// is none, the reply is printed.
pub(crate) fn command_for<R: Read>(
    alloc: Global,
    task: Task,
    reader: Option<R>,
) -> Result<(Command, Option<String>), FileFault>
where
    R: Drop,
    ensures { IfOk result (λ asked. IsCommandWith task (GivesInput R.remaining reader) (command_seen asked.0) × (asked.1 ≡ file_for task)) }
{
    match task {
        Task::Local(local) => Ok((Command::Local(local), None)),
        Task::Import { .. } => Ok((Command::Receive(read_all(alloc, reader)?), None)),
        Task::Export { out, lines, .. } => {
            let asked = Local::BatchFor {
                position: read_all(alloc, reader)?,
                max_lines: lines,
            };
            Ok((Command::Local(asked), Some(out)))
        }
    }
}

/// All that the reader gives, if there is one.
fn read_all<R: Read>(alloc: Global, reader: Option<R>) -> Result<Vec<u8>, FileFault>
where
    R: Drop,
    ensures { IfOk result (λ bytes. GivesInput R.remaining reader bytes.items) }
{
    match reader {
        Some(reader) => read_limited(alloc, reader),
        None => Err(FileFault::File),
    }
}
