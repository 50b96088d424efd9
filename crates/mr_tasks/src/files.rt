//! Files of scripts, positions and batches.

ghost use Rattle.std.specs.Prelude.{◌≡◌, ◌≢◌, ◌≤◌, IfOk, length};
ghost use Rattle.std.specs.IoError.{error_kind};
ghost use Rattle.std.specs.declared.io.ErrorKind.TheVariants.{OutOfMemory};
ghost use Rattle.mr_tasks.specs.Rehearsed.{IsKnownInput};
ghost use Rattle.mr_tasks.specs.CommandEffects.{TellsFault, greatest_file};

use mr_words::{FAULT, NO_MEMORY, REFUSED, say};
use std::alloc::Global;
use std::fs::File;
use std::io::{self, ErrorKind, Read, Write};

/// The greatest length of a file that is read or written, in bytes.
pub(crate) const GREATEST_FILE: u64 = 16_777_216;

/// Why a file is not read or written.
#[derive(Clone, Copy, Debug, PartialEq, Eq)]
pub enum FileFault {
    /// It can't be opened, read or written, or is greater than a file may be.
    File,
    Memory,
}

/// The file at this path, to be read.
pub fn open_file(rt: &HostRuntime, path: &str) -> Result<File, FileFault> {
    match File::open(rt, path) {
        Ok(file) => Ok(file),
        Err(_) => Err(FileFault::File),
    }
}

/// What makes the file that takes a reply. A function that is handed one and leaves it as it was has made no file, and emptied none.
pub(crate) trait MakesFiles {
    type File: Write + Drop;

    /// The file at this path, made anew or emptied, to be written.
    fn create(&mut self, path: &str) -> Result<Self::File, FileFault>;
}

/// The files of this machine.
#[derive(Drop)]
pub(crate) struct HostFiles<'a> {
    rt: &'a HostRuntime,
}

impl<'a> HostFiles<'a> {
    pub(crate) fn new(rt: &'a HostRuntime) -> HostFiles<'a> {
        HostFiles { rt }
    }
}

impl MakesFiles for HostFiles<'_> {
    type File = File;

    fn create(&mut self, path: &str) -> Result<File, FileFault> {
        match File::create(self.rt, path) {
            Ok(file) => Ok(file),
            Err(_) => Err(FileFault::File),
        }
    }
}

/// All that the reader gives, unless it fails or gives more than a file may have.
pub(crate) fn read_limited<R: Read>(alloc: Global, reader: R) -> Result<Vec<u8>, FileFault>
where
    R: Drop,
    ensures all { IfOk result (λ bytes. IsKnownInput (R.remaining reader) bytes.items) }
    ensures limited { IfOk result (λ bytes. length bytes.items ≤ greatest_file) }
{
    let mut bytes = Vec::new(alloc);
    let mut limited = reader.take(GREATEST_FILE + 1);
    match limited.read_to_end(&mut bytes) {
        Ok(_) => {
            if bytes.len() as u64 > GREATEST_FILE {
                Err(FileFault::File)
            } else {
                Ok(bytes)
            }
        }
        Err(error) => Err(fault_of(&error)),
    }
}

/// Out of memory, or else that the file can't be had.
fn fault_of(error: &io::Error) -> FileFault
    ensures memory { error_kind error.now ≡ OutOfMemory → result ≡ FileFault.Memory }
    ensures file { error_kind error.now ≢ OutOfMemory → result ≡ FileFault.File }
{
    if error.kind() == ErrorKind::OutOfMemory {
        FileFault::Memory
    } else {
        FileFault::File
    }
}

/// Prints that a file can't be had, or that there is no memory for it.
pub fn say_fault<W: Write>(out: &mut W, fault: FileFault) -> u8
    ensures told { TellsFault (W.contents out.old) (W.contents out.new) result }
    ensures memory { result ≡ 1 → fault ≡ FileFault.Memory }
{
    match fault {
        FileFault::File => say(out, "fault file\n", FAULT),
        FileFault::Memory => say(out, NO_MEMORY, REFUSED),
    }
}
