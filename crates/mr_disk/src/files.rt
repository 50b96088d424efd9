ghost use Rattle.std.specs.Prelude.{◌≡◌, IfOk, IsTrue};
ghost use Rattle.sqlite_std_file.specs.File.{IsFresh};
ghost use Rattle.sqlite_wal.specs.Files.{image_at, seen_image};

use crate::sparing::Sparing;
use sqlite_disk::{Disk, Files, Start};
use sqlite_std_file::{FileFrom, OpenError};
use std::rt::HostRuntime;

/// A file that held what the type says.
pub type SparingFile<B> = Sparing<FileFrom<B>>;

/// Opens the database file at this path and its log, and makes those that are missing. They are synced here, once.
pub fn open<B: Start>(
    rt: &HostRuntime,
    path: &str,
    start: B,
) -> Result<Files<SparingFile<B>>, OpenError>
    ensures log { IfOk result (λ files. IsTrue (⟦<SparingFile<B> as Disk>⟧.is_usable files.log)) }
    ensures db { IfOk result (λ files. IsTrue (⟦<SparingFile<B> as Disk>⟧.is_usable files.db)) }
    ensures held { IfOk result (λ files. seen_image ⟦<SparingFile<B> as Disk>⟧ files.log files.db ≡ image_at B.Start) }
{
    match sqlite_std_file::open(rt, path, start) {
        Ok(files) => Ok(Files {
            log: Sparing::new(files.log),
            db: Sparing::new(files.db),
        }),
        Err(error) => Err(error),
    }
}
