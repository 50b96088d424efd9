//! What a database file and its log hold, read into memory.

ghost use Rattle.std.specs.Prelude.{◌≡◌, IfOk, IsTrue};
ghost use Rattle.sqlite_wal.specs.Files.{seen_image};
ghost use Rattle.mr_disk.specs.Copied.{image_copied};

use os::RangeLock;
use sqlite_disk::{Disk, Files, Memory};
use sqlite_std_file::OpenError;
use std::alloc::{AllocError, Global};
use std::fs::{self, File};
use std::io::{self, ErrorKind, Read};
use std::os::fd::AsRawFd;
use std::os::unix::fs::{FileExt, MetadataExt};
use std::rt::HostRuntime;

/// The bytes of a database file and of its log.
#[derive(Drop)]
pub struct Copied {
    pub log: Vec<u8>,
    pub db: Vec<u8>,
}

impl Copied {
    /// Two disks in memory that hold these bytes.
    pub fn into_disks(self, alloc: Global) -> Result<Files<Memory>, AllocError>
        ensures log { IfOk result (λ files. IsTrue (⟦<Memory as Disk>⟧.is_usable files.log)) }
        ensures db { IfOk result (λ files. IsTrue (⟦<Memory as Disk>⟧.is_usable files.db)) }
        ensures held { IfOk result (λ files. seen_image ⟦<Memory as Disk>⟧ files.log files.db ≡ image_copied self) }
    {
        let log = disk_of(alloc, self.log.as_slice())?;
        let db = disk_of(alloc, self.db.as_slice())?;
        Ok(Files { log, db })
    }
}

/// A disk in memory that holds these bytes.
fn disk_of(alloc: Global, bytes: &[u8]) -> Result<Memory, AllocError>
    ensures usable { IfOk result (λ disk. IsTrue (⟦<Memory as Disk>⟧.is_usable disk)) }
    ensures held { IfOk result (λ disk. ⟦<Memory as Disk>⟧.seen disk ≡ bytes.now) }
{
    let mut disk = Memory::new(alloc);
    match disk.write_at(0, bytes) {
        Ok(()) => Ok(disk),
        Err(_) => Err(AllocError),
    }
}

/// Reads the database file at this path and its log, under shared locks of the bytes that `open` locks for itself alone. A log that is
/// missing is empty. It makes no file, writes to none, and needs the right to read alone; in all else it refuses what `open` refuses.
/// If SQLite's index of the log lies beside the log there is no copy: a program that uses it writes the log under other locks.
pub fn copy_of(rt: &HostRuntime, path: &str) -> Result<Option<Copied>, OpenError> {
    // As for `open`, the files lie where a link leads, and no link is followed after that.
    let real = fs::canonicalize(rt, path)?;
    let path = real.as_str();
    let mut file = open_shared(rt, path)?;
    if has_hot_journal(rt, format!(in rt.alloc(); "{path}-journal")?.as_str())? {
        return Err(OpenError::HotJournal);
    }
    let log = read_log(rt, format!(in rt.alloc(); "{path}-wal")?.as_str())?;
    let db = read_whole(rt, &mut file)?;
    // Whoever has made the index since the lock was taken, or before, can't take it away as long as the lock is held.
    if is_there(rt, format!(in rt.alloc(); "{path}-shm")?.as_str())? {
        return Ok(None);
    }
    Ok(Some(Copied { log, db }))
}

/// A regular file with one name that is no link, to be read, which nobody else has locked for itself alone.
pub(crate) fn open_shared(rt: &HostRuntime, path: &str) -> Result<File, OpenError> {
    // What would wait for another end, as a pipe, isn't opened.
    if !fs::symlink_metadata(rt, path)?.is_file() {
        return Err(OpenError::Io(ErrorKind::Unsupported.into()));
    }
    let file = File::open(rt, path)?;
    let (found, named) = (file.metadata()?, fs::symlink_metadata(rt, path)?);
    let is_named = found.dev() == named.dev() && found.ino() == named.ino();
    if !is_named || !found.is_file() || found.nlink() != 1 {
        return Err(OpenError::Io(ErrorKind::Unsupported.into()));
    }
    // SQLite's pending, reserved and shared locks.
    if os::try_lock_range(file.as_raw_fd(), RangeLock::Shared, 1 << 30, 512) == 0 {
        return Ok(file);
    }
    let error = io::Error::from_raw_os_error(os::errno());
    if error.kind() == ErrorKind::WouldBlock {
        Err(OpenError::Busy)
    } else {
        Err(OpenError::Io(error))
    }
}

/// The bytes of the log. If it has a frame, it may be that of a program that was killed before it synced: so it is synced first, since
/// what is shown of it has to outlast a crash of the machine.
pub(crate) fn read_log(rt: &HostRuntime, path: &str) -> Result<Vec<u8>, OpenError> {
    if !is_there(rt, path)? {
        return Ok(Vec::new(rt.alloc()));
    }
    let mut log = open_shared(rt, path)?;
    if has_frame(&log)? {
        sync_and_forget(&log)?;
    }
    let bytes = read_whole(rt, &mut log)?;
    Ok(bytes)
}

/// Whether a first frame has the salt of the log's header. If it has another one, the log was copied into the database file, which was
/// synced before the header was written.
fn has_frame(log: &File) -> io::Result<bool> {
    let mut head = [0; 48];
    let got = log.read_at(&mut head, 0)?;
    Ok(got == head.len() && head[16..24] == head[40..48])
}

/// Syncs the file, and drops the kernel's copies of its pages, which a failed sync may have left other than the disk has them.
fn sync_and_forget(file: &File) -> io::Result<()> {
    file.sync_all()?;
    let advised = libc::posix_fadvise(file.as_raw_fd(), 0, 0, libc::POSIX_FADV_DONTNEED);
    if advised != 0 {
        return Err(io::Error::from_raw_os_error(advised));
    }
    Ok(())
}

fn read_whole(rt: &HostRuntime, file: &mut File) -> io::Result<Vec<u8>> {
    let mut bytes = Vec::new(rt.alloc());
    file.read_to_end(&mut bytes)?;
    Ok(bytes)
}

pub(crate) fn is_there(rt: &HostRuntime, path: &str) -> io::Result<bool> {
    match fs::symlink_metadata(rt, path) {
        Ok(_) => Ok(true),
        Err(error) if error.kind() == ErrorKind::NotFound => Ok(false),
        Err(error) => Err(error),
    }
}

/// A journal that is missing, is empty or begins with a zero has nothing to play back. Anything there but a regular file counts as one.
pub(crate) fn has_hot_journal(rt: &HostRuntime, path: &str) -> io::Result<bool> {
    match fs::symlink_metadata(rt, path) {
        Ok(found) if found.is_file() => {}
        Ok(_) => return Ok(true),
        Err(error) if error.kind() == ErrorKind::NotFound => return Ok(false),
        Err(error) => return Err(error),
    }
    let mut journal = File::open(rt, path)?;
    let mut first = [0];
    Ok(journal.read(&mut first)? == 1 && first[0] != 0)
}
