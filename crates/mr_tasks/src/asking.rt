//! Commands to the replica of a service, over any keeper and any writer.

ghost use Rattle.std.specs.Prelude.{◌≡◌, ◌≤◌, ◌<◌, ◌⊎◌, IfOk, IfErr, None, length};
ghost use Rattle.std.specs.Io.KnownBytes.{Appends};
ghost use Rattle.mr_model.specs.Texts.{Text};
ghost use Rattle.mr_model.specs.View.{Question};
ghost use Rattle.mr_model.specs.Replies as model;
ghost use Rattle.mr_model.specs.Step.{Ask};
ghost use Rattle.mr_service.specs.Asked.{command_seen, reply_of};
ghost use Rattle.mr_tasks.specs.CommandEffects.{IsCommandAsked, TakesAll, TellsAnswer, TellsFault, TellsLength, TellsWritten, LeavesFiles, greatest_file};
ghost use Rattle.mr_tasks.specs.Rehearsed.{GivesInput};
ghost use Rattle.mr_tasks.specs.Tasks.{IsAnswered, IsCommandFor, IsCommandWith, TellsTo, TellsToFile, file_for};

use crate::files::{FileFault, GREATEST_FILE, HostFiles, MakesFiles, say_fault};
use crate::tasks::{command_for, reader_for};
use mr_service::{Command, Reply, Service, reply_text};
use mr_store::Keeper;
use mr_words::{DONE, NO_MEMORY, REFUSED, Task, say, say_reply};
use std::alloc::Global;
use std::io::{Read, Write};

/// Does the task with this replica.
pub(crate) fn perform<K: Keeper, W: Write>(
    rt: &HostRuntime,
    alloc: Global,
    service: &mut Service<K>,
    task: Task,
    out: &mut W,
) -> u8
    ensures { IsAnswered K.Keeper (IsCommandFor task) (TellsTo (file_for task)) service.old service.new (W.contents out.old) (W.contents out.new) result
        ⊎ ((service.new ≡ service.old) × TellsFault (W.contents out.old) (W.contents out.new) result) }
{
    match reader_for(rt, &task) {
        Ok(reader) => {
            let mut files = HostFiles::new(rt);
            perform_with(alloc, service, task, reader, &mut files, out)
        }
        Err(fault) => say_fault(out, fault),
    }
}

/// Does the task with this replica, if the reader gives the file that the task names.
fn perform_with<K: Keeper, R: Read, M: MakesFiles, W: Write>(
    alloc: Global,
    service: &mut Service<K>,
    task: Task,
    reader: Option<R>,
    files: &mut M,
    out: &mut W,
) -> u8
where
    R: Drop,
    ensures { IsAnswered K.Keeper (IsCommandWith task (GivesInput R.remaining reader)) (TellsToFile (file_for task) files.old files.new) service.old service.new
        (W.contents out.old) (W.contents out.new) result
        ⊎ ((service.new ≡ service.old) × (files.new ≡ files.old) × TellsFault (W.contents out.old) (W.contents out.new) result) }
{
    match command_for(alloc, task, reader) {
        Ok((command, file)) => answer(alloc, service, &command, file, files, out),
        Err(fault) => say_fault(out, fault),
    }
}

/// Gives the replica the command and tells what it replies, and answers the status: 0, 1 if it refuses, or 3 if the file at
/// this path does not take the reply.
fn answer<K: Keeper, M: MakesFiles, W: Write>(
    alloc: Global,
    service: &mut Service<K>,
    command: &Command,
    file: Option<String>,
    files: &mut M,
    out: &mut W,
) -> u8
    ensures told { (reply : model.Reply)
        × IsCommandAsked K.Keeper service.old service.new (command_seen command.now) reply
        × TellsToFile file files.old files.new reply (W.contents out.old) (W.contents out.new) result }
    ensures shown { K.is_clean service.new → K.is_open service.old → file ≡ None
        → (room : Text) (question : Question) → command_seen command.now ≡ Ask room question
        → TellsAnswer (K.tables service.old) room question (W.contents out.old) (W.contents out.new) result }
{
    let reply = ask(service, command);
    match file {
        None => say_reply(alloc, out, &reply),
        Some(path) => write_reply(alloc, files, path.as_str(), &reply, out),
    }
}

/// Gives the replica the command.
fn ask<K: Keeper>(service: &mut Service<K>, command: &Command) -> Reply
    ensures { IsCommandAsked K.Keeper service.old service.new (command_seen command.now) (reply_of result) }
{
    service.ask(command)
}

/// Writes the reply to the file at this path and prints how many bytes that has, unless it is a refusal, which is printed. No file is
/// made, or emptied, for a refusal or for a text that is longer than a file may be.
fn write_reply<M: MakesFiles, W: Write>(
    alloc: Global,
    files: &mut M,
    path: &str,
    reply: &Reply,
    out: &mut W,
) -> u8
    ensures told { TellsWritten (reply_of reply.now) (W.contents out.old) (W.contents out.new) result }
    ensures kept { LeavesFiles (reply_of reply.now) files.old files.new }
{
    if let Reply::Refused(_) = reply {
        return say_reply(alloc, out, reply);
    }
    match file_text(alloc, reply) {
        Ok(bytes) => write_bytes(alloc, files, path, bytes.as_slice(), out),
        Err(fault) => say_fault(out, fault),
    }
}

/// The text of the reply, unless it is longer than a file may be.
fn file_text(alloc: Global, reply: &Reply) -> Result<Vec<u8>, FileFault>
    ensures text { IfOk result (λ bytes. bytes.items ≡ model.reply_text (reply_of reply.now)) }
    ensures limited { IfOk result (λ bytes. length bytes.items ≤ greatest_file) }
    ensures too_long { IfErr result (λ e. e ≡ FileFault.File → greatest_file < length (model.reply_text (reply_of reply.now))) }
{
    match reply_text(alloc, reply) {
        Ok(bytes) if bytes.len() as u64 > GREATEST_FILE => Err(FileFault::File),
        Ok(bytes) => Ok(bytes),
        Err(_) => Err(FileFault::Memory),
    }
}

/// Writes the bytes to the file at this path, and prints how many there are.
fn write_bytes<M: MakesFiles, W: Write>(
    alloc: Global,
    files: &mut M,
    path: &str,
    bytes: &[u8],
    out: &mut W,
) -> u8
    ensures { TellsLength (length bytes.now) (W.contents out.old) (W.contents out.new) result }
{
    let mut made = files.create(path);
    put_into(alloc, &mut made, bytes, out)
}

/// Writes the bytes to the file that was made, if it was, and prints how many there are.
fn put_into<F: Write, W: Write>(
    alloc: Global,
    made: &mut Result<F, FileFault>,
    bytes: &[u8],
    out: &mut W,
) -> u8
    ensures written { result ≡ 0 → TakesAll F.contents made.old made.new bytes.now }
    ensures told { TellsLength (length bytes.now) (W.contents out.old) (W.contents out.new) result }
{
    match made {
        Ok(file) => put_bytes(alloc, file, bytes, out),
        Err(fault) => say_fault(out, *fault),
    }
}

/// Writes the bytes to this file, and prints how many there are.
pub(crate) fn put_bytes<F: Write, W: Write>(
    alloc: Global,
    file: &mut F,
    bytes: &[u8],
    out: &mut W,
) -> u8
    ensures written { result ≡ 0 → Appends (F.contents file.old) (F.contents file.new) bytes.now }
    ensures told { TellsLength (length bytes.now) (W.contents out.old) (W.contents out.new) result }
{
    match file.write_all(bytes) {
        Ok(()) => say_written(alloc, out, bytes.len() as u64),
        Err(_) => say_fault(out, FileFault::File),
    }
}

/// Prints how many bytes were written to a file.
fn say_written<W: Write>(alloc: Global, out: &mut W, bytes: u64) -> u8
    ensures { TellsLength bytes (W.contents out.old) (W.contents out.new) result }
{
    match format!(in alloc; "wrote {bytes} bytes\n") {
        Ok(line) => say(out, line.as_str(), DONE),
        Err(_) => say(out, NO_MEMORY, REFUSED),
    }
}
