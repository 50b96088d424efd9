//! The two files of a database, as a question reads them.

ghost use Rattle.std.specs.Prelude.{◌≡◌, true, false, IfOk, IsTrue};
ghost use Rattle.sqlite_wal.specs.Files.{image_at, seen_image};

use crate::copies::{has_hot_journal, is_there, open_shared, read_log};
use crate::shared::{Shared, Source};
use sqlite_disk::{Disk, Files, Modelled, Start};
use sqlite_std_file::OpenError;
use std::hash::{BuildHasher, RandomState};
use std::rt::HostRuntime;
use std::{fs, io};

/// A file that held what the type says, and that is only read.
pub type SharedFile<B> = Modelled<Shared, B>;

/// Where SQLite's index of the log lies, if there is one.
#[derive(Drop)]
pub struct LogIndex {
    path: String,
}

impl LogIndex {
    /// Whether it is there. A program that uses it writes the log under other locks than the files are read under. Whoever made it since they were
    /// locked can't take it away as long as they are.
    pub fn is_there(&self, rt: &HostRuntime) -> io::Result<bool> {
        is_there(rt, self.path.as_str())
    }
}

/// The database file at this path itself, and a copy of its log in memory, under the locks of `copy_of`. That of the database file is held until its
/// disk is dropped. The log is synced before if it has a frame, and nothing is written: what is written to the log stays in memory, and each write to
/// the database file is refused. What was read is of one moment only if SQLite's index of the log isn't there after the last read.
pub fn open_to_read<B: Start>(
    rt: &HostRuntime,
    path: &str,
    _start: B,
) -> Result<(Files<SharedFile<B>>, LogIndex), OpenError>
    ensures log { IfOk result (λ opened. IsTrue (⟦<SharedFile<B> as Disk>⟧.is_usable opened.0.log)) }
    ensures db { IfOk result (λ opened. IsTrue (⟦<SharedFile<B> as Disk>⟧.is_usable opened.0.db)) }
    ensures held { IfOk result (λ opened. seen_image ⟦<SharedFile<B> as Disk>⟧ opened.0.log opened.0.db ≡ image_at B.Start) }
{
    let real = fs::canonicalize(rt, path)?;
    let path = real.as_str();
    let file = open_shared(rt, path)?;
    if has_hot_journal(rt, format!(in rt.alloc(); "{path}-journal")?.as_str())? {
        return Err(OpenError::HotJournal);
    }
    let log = read_log(rt, format!(in rt.alloc(); "{path}-wal")?.as_str())?;
    let index = LogIndex {
        path: format!(in rt.alloc(); "{path}-shm")?,
    };
    let key = RandomState::new(rt)?.hash_one(&0u8);
    let log = Shared::settled(Source::Bytes(log), key);
    let db = Shared::settled(Source::File(file), key);
    let files = Files {
        log: Modelled::new(log, true, key),
        db: Modelled::new(db, false, key),
    };
    Ok((files, index))
}
