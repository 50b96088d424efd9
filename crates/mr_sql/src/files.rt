//! Keepers in files.

ghost use Rattle.std.specs.Prelude.{◌≡◌, ◌⊎◌, true, IfOk, IfErr, IfSome, IsSome, IsTrue};
ghost use Rattle.sqlite_trees.specs.Tree.{Trees};
ghost use Rattle.sqlite_catalog.specs.Listing.{IsSound};
ghost use Rattle.sqlite.specs.Recovery.{Image};
ghost use Rattle.sqlite.specs.WalFiles.{image_at};
ghost use Rattle.sqlite.specs.WalReads.{AreClean};
ghost use Rattle.sqlite.specs.State.{HasCleanDisk};
ghost use Rattle.sqlite.specs.Held.{state};
ghost use Rattle.sqlite.specs.Files.{file_state, image_of, IsClosed};
ghost use Rattle.sqlite.specs.Closing.{IsCopied};
ghost use Rattle.mr_agree.specs.Agreeing.{agree};
ghost use Rattle.mr_disk.specs.Copied.{image_copied};
ghost use Rattle.mr_rows.specs.Schema.{first_schema};
ghost use Rattle.mr_rows.specs.Database.{tables_in};
ghost use Rattle.mr_sql.specs.Found.{IsAdopted, IsResumed, IsTaken};
ghost use Rattle.mr_sql.specs.Refused.{IsFoundIn, IsNobodys};
ghost use Rattle.mr_sql.specs.Opened.{AreFrom, ComesBackFrom, IsNewKeeper, IsOfOpening, RefusesToAdopt, RefusesToResume};
ghost use Rattle.mr_sql.specs.Opening.{AreTakenAs, RefusesFor};

use crate::adopt::Whose;
use crate::faults::{refusal_in_memory, refusal_of};
use crate::schemas::is_first;
use crate::sql_keeper::SqlKeeper;
use mr_base::{Refusal, ServerId};
use mr_disk::{Copied, SparingFile};
use mr_rows::Idle;
use sqlite::{Alter, Connection, Error, FileStore, Files, Options, Start, Unknown};
use sqlite_disk::{Disk, Memory};
use sqlite_std_file::OpenError;
use std::alloc::Global;
use std::fs;
use std::hash::{BuildHasher, RandomState};
use std::io::ErrorKind;
use std::rt::HostRuntime;

/// A keeper whose tables lie in a file.
pub type FileKeeper = SqlKeeper<FileStore<SparingFile<Unknown>>>;

/// A keeper whose tables lie in a copy of a file, in memory.
pub type CopyKeeper = SqlKeeper<FileStore<Memory>>;

/// Why a copy isn't taken as a database.
#[derive(Clone, Copy, Debug, PartialEq, Eq)]
pub enum NotCopied {
    Refused(Refusal),
    /// The file has to be opened itself: its tables are of the first schema and are to be moved up, or SQLite may have it open.
    OnlyInFile,
}

// The kit's own open takes these paths for memory and a URI.
fn is_no_path(path: &str) -> bool {
    path == ":memory:" || path.starts_with("file:")
}

fn unopened(error: OpenError) -> Refusal
    ensures { (result ≡ Refusal.OutOfMemory) ⊎ (result ≡ Refusal.Store) }
{
    match error {
        OpenError::OutOfMemory => Refusal::OutOfMemory,
        OpenError::Io(error) if error.kind() == ErrorKind::OutOfMemory => Refusal::OutOfMemory,
        _ => Refusal::Store,
    }
}

// Opens the two files. A path that the kit's own open refuses, as that of memory or a URI, is refused.
fn open_pair<B: Start>(
    rt: &HostRuntime,
    path: &str,
    start: B,
) -> Result<Files<SparingFile<B>>, Refusal>
    ensures log { IfOk result (λ files. IsTrue (⟦<SparingFile<B> as Disk>⟧.is_usable files.log)) }
    ensures db { IfOk result (λ files. IsTrue (⟦<SparingFile<B> as Disk>⟧.is_usable files.db)) }
    ensures held { IfOk result (λ files. image_of ⟦<SparingFile<B> as Disk>⟧ files ≡ image_at B.Start) }
    ensures cause { IfErr result (λ e. (e ≡ Refusal.OutOfMemory) ⊎ (e ≡ Refusal.Store)) }
{
    if is_no_path(path) {
        return Err(Refusal::Store);
    }
    match mr_disk::open(rt, path, start) {
        Ok(files) => Ok(files),
        Err(error) => Err(unopened(error)),
    }
}

// How many pages that were read are kept in memory. The kit takes and clears that memory when it opens a file, however small.
const CACHE_PAGES: usize = 128;

fn options(rt: &HostRuntime) -> Result<Options, Refusal>
    ensures { IfErr result (λ e. e ≡ Refusal.Store) }
{
    let Ok(state) = RandomState::new(rt) else {
        return Err(Refusal::Store);
    };
    let mut options = Options::new(state.hash_one(&0u8));
    options.cache_pages = CACHE_PAGES;
    Ok(options)
}

// Opens the database of these files, once: what the open finds of them says in which order its rows are.
fn connect<D: Disk + Drop>(
    alloc: Global,
    files: Files<D>,
    options: Options,
) -> Result<Idle<FileStore<D>>, Error>
    requires log { IsTrue (D.Disk.is_usable files.log) }
    requires db { IsTrue (D.Disk.is_usable files.db) }
    ensures found { IfOk result (λ c. HasCleanDisk (file_state c) → IsTaken (file_state c) × IsFoundIn (image_of D.Disk files) (file_state c).now.trees) }
{
    match Connection::open_files(alloc, files, options) {
        Ok(connection) => Ok(Idle { connection }),
        Err((error, _)) => Err(error),
    }
}

// Opens the database at this path.
fn open<B: Start>(
    rt: &HostRuntime,
    path: &str,
    start: B,
) -> Result<Idle<FileStore<SparingFile<B>>>, Refusal>
    ensures found { IfOk result (λ c. HasCleanDisk (file_state c) → IsTaken (file_state c) × IsFoundIn (image_at B.Start) (file_state c).now.trees) }
    ensures cause { IfErr result (λ e. (e ≡ Refusal.OutOfMemory) ⊎ (e ≡ Refusal.Store)) }
{
    let files = open_pair(rt, path, start)?;
    let options = options(rt)?;
    match connect(rt.alloc(), files, options) {
        Ok(conn) => Ok(conn),
        Err(error) => Err(refusal_of(error)),
    }
}

// Copies the two files, if they can be.
fn copied_at(rt: &HostRuntime, path: &str) -> Result<Copied, NotCopied>
    ensures { IfErr result (λ e. (r : _) → e ≡ NotCopied.Refused r → (r ≡ Refusal.OutOfMemory) ⊎ (r ≡ Refusal.Store)) }
{
    if is_no_path(path) {
        return Err(NotCopied::Refused(Refusal::Store));
    }
    match mr_disk::copy_of(rt, path) {
        Ok(Some(copied)) => Ok(copied),
        Ok(None) => Err(NotCopied::OnlyInFile),
        Err(error) => Err(NotCopied::Refused(unopened(error))),
    }
}

fn disks_of(alloc: Global, copied: Copied) -> Result<Files<Memory>, Refusal>
    ensures log { IfOk result (λ files. IsTrue (⟦<Memory as Disk>⟧.is_usable files.log)) }
    ensures db { IfOk result (λ files. IsTrue (⟦<Memory as Disk>⟧.is_usable files.db)) }
    ensures held { IfOk result (λ files. image_of ⟦<Memory as Disk>⟧ files ≡ image_copied copied) }
    ensures cause { IfErr result (λ e. e ≡ Refusal.OutOfMemory) }
{
    match copied.into_disks(alloc) {
        Ok(files) => Ok(files),
        Err(_) => Err(Refusal::OutOfMemory),
    }
}

// Opens the database of a copy.
fn open_disks(rt: &HostRuntime, copied: Copied) -> Result<Idle<FileStore<Memory>>, Refusal>
    ensures found { IfOk result (λ c. HasCleanDisk (file_state c) → IsTaken (file_state c) × IsFoundIn (image_copied copied) (file_state c).now.trees) }
    ensures cause { IfErr result (λ e. (e ≡ Refusal.OutOfMemory) ⊎ (e ≡ Refusal.Store)) }
{
    let files = disks_of(rt.alloc(), copied)?;
    let options = options(rt)?;
    match connect(rt.alloc(), files, options) {
        Ok(conn) => Ok(conn),
        Err(error) => Err(refusal_in_memory(error)),
    }
}

// Takes the database as that of a replica, whichever it is, unless its tables are of the first schema. It is for any store: a call that is made
// of a store of files is dear to prove, so `open_copied` makes this one alone.
fn take_copy<S: Alter + Drop>(
    alloc: Global,
    conn: Idle<S>,
    keep: bool,
) -> Result<SqlKeeper<S>, (NotCopied, Idle<S>)>
    requires taken { HasCleanDisk (state S.Store conn) → IsTaken (state S.Store conn) }
    ensures opened { IfOk result (λ k. IsNewKeeper (IsResumed (state S.Store conn).now.trees) (state S.Store k.0) k.1) }
    ensures clean { IfOk result (λ k. HasCleanDisk (state S.Store k.0) → HasCleanDisk (state S.Store conn)) }
    ensures refused { IfErr result (λ e. (r : _) → e.0 ≡ NotCopied.Refused r → HasCleanDisk (state S.Store e.1)
        → HasCleanDisk (state S.Store conn) × RefusesToResume (state S.Store conn).now.trees r (state S.Store e.1)) }
    ensures cause { IfErr result (λ e. (r : _) → e.0 ≡ NotCopied.Refused r → IsOfOpening r) }
    ensures first { IfErr result (λ e. e.0 ≡ NotCopied.OnlyInFile → (state S.Store conn).now.schema ≡ first_schema) }
{
    if is_first(&conn) {
        return Err((NotCopied::OnlyInFile, conn));
    }
    match SqlKeeper::over(alloc, conn, Whose::Anyones, keep) {
        Ok(keeper) => Ok(keeper),
        Err((refusal, conn)) => Err((NotCopied::Refused(refusal), conn)),
    }
}

// Whether nothing is there where the path leads. It is looked at and not opened: the open of a pipe waits for its other end.
fn is_missing(rt: &HostRuntime, path: &str) -> bool {
    match fs::metadata(rt, path) {
        Ok(_) => false,
        Err(error) => matches!(error.kind(), ErrorKind::NotFound | ErrorKind::NotADirectory),
    }
}

impl<B: Start> SqlKeeper<FileStore<SparingFile<B>>> {
    /// Opens the file as the database of this server and primary, and makes file and tables if there are none yet. Tables of
    /// the first schema are moved up. A file that can't be opened as a database is refused with 25, and the database of another
    /// program or replica with 26. What was opened of a file that is refused is given back. That the path is that of the files
    /// which the type stands for is up to the caller.
    pub fn init_from(
        rt: &HostRuntime,
        path: &str,
        start: B,
        server: ServerId,
        primary: ServerId,
    ) -> Result<Self, (Refusal, Option<Connection<FileStore<SparingFile<B>>>>)>
        ensures opened { IfOk result (λ k. IsNewKeeper (AreFrom (image_at B.Start) (IsAdopted server primary)) (file_state k.0) k.1) }
        ensures refused { IfErr result
            (λ e. IfSome e.1 (λ c. ComesBackFrom (image_at B.Start) (RefusesToAdopt server primary) e.0 (file_state c))) }
        ensures given { IfErr result (λ e. e.0 ≡ Refusal.NotAReplica → IsSome e.1) }
        ensures cause { IfErr result (λ e. IsOfOpening e.0) }
    {
        SqlKeeper::take_from(rt, path, start, Whose::Of(server, primary))
    }

    /// Opens the file as the database of a replica, whichever it is. Tables of the first schema are moved up before it answers. A
    /// file that can't be opened as a database is refused with 25. If there is no file, or its database isn't that of a
    /// replica, it is refused with 26. It makes no database file; a log that is missing it makes.
    pub fn open_from(
        rt: &HostRuntime,
        path: &str,
        start: B,
    ) -> Result<Self, (Refusal, Option<Connection<FileStore<SparingFile<B>>>>)>
        ensures opened { IfOk result (λ k. IsNewKeeper (AreFrom (image_at B.Start) IsResumed) (file_state k.0) k.1) }
        ensures refused { IfErr result (λ e. IfSome e.1 (λ c. ComesBackFrom (image_at B.Start) RefusesToResume e.0 (file_state c))) }
        ensures cause { IfErr result (λ e. IsOfOpening e.0) }
    {
        if is_missing(rt, path) {
            return Err((Refusal::NotAReplica, None));
        }
        SqlKeeper::take_from(rt, path, start, Whose::Anyones)
    }

    // Opens the file as the database of those who are wanted.
    fn take_from(
        rt: &HostRuntime,
        path: &str,
        start: B,
        whose: Whose,
    ) -> Result<Self, (Refusal, Option<Connection<FileStore<SparingFile<B>>>>)>
        ensures opened { IfOk result (λ k. IsNewKeeper (AreFrom (image_at B.Start) (AreTakenAs whose)) (file_state k.0) k.1) }
        ensures refused { IfErr result (λ e. IfSome e.1 (λ c. ComesBackFrom (image_at B.Start) (RefusesFor whose) e.0 (file_state c))) }
        ensures given { IfErr result (λ e. e.0 ≡ Refusal.NotAReplica → IsSome e.1) }
        ensures cause { IfErr result (λ e. IsOfOpening e.0) }
    {
        let conn = match open(rt, path, start) {
            Ok(conn) => conn,
            Err(refusal) => return Err((refusal, None)),
        };
        match SqlKeeper::over(rt.alloc(), conn, whose, true) {
            Ok(keeper) => Ok(keeper),
            Err((refusal, conn)) => Err((refusal, Some(conn.connection))),
        }
    }
}

impl SqlKeeper<FileStore<Memory>> {
    /// Opens a copy of a database's files as that of a replica, whichever it is, and refuses what `open_from` refuses. Tables of the first
    /// schema aren't taken, since they are to be moved up in their file. What is changed in the copy is changed in no file. `keep` is whether the
    /// rows that the open reads are kept for the first part that is asked for.
    pub fn open_copied(
        rt: &HostRuntime,
        copied: Copied,
        keep: bool,
    ) -> Result<CopyKeeper, NotCopied>
        ensures opened { IfOk result (λ k. IsNewKeeper (AreFrom (image_copied copied) IsResumed) (file_state k.0) k.1) }
        ensures cause { IfErr result (λ e. (r : _) → e ≡ NotCopied.Refused r → IsOfOpening r) }
        ensures strange { IfErr result (λ e. e ≡ NotCopied.Refused Refusal.NotAReplica
            → (before : Trees) × IsFoundIn (image_copied copied) before × IsNobodys before) }
        ensures first { IfErr result (λ e. e ≡ NotCopied.OnlyInFile
            → (before : Trees) × IsFoundIn (image_copied copied) before × IsSound first_schema before) }
    {
        let conn = match open_disks(rt, copied) {
            Ok(conn) => conn,
            Err(refusal) => return Err(NotCopied::Refused(refusal)),
        };
        match take_copy(rt.alloc(), conn, keep) {
            Ok(keeper) => Ok(keeper),
            Err((why, _)) => Err(why),
        }
    }

    /// As `open_copied`, of what the files at the path hold. They are read under shared locks, the log is synced before if it has a frame, and
    /// nothing is written. If there is no file, it is refused with 26.
    pub fn open_copy(rt: &HostRuntime, path: &str, keep: bool) -> Result<CopyKeeper, NotCopied>
        ensures opened { IfOk result (λ k. IsNewKeeper (λ after. (image : Image) × AreFrom image IsResumed after) (file_state k.0) k.1) }
        ensures cause { IfErr result (λ e. (r : _) → e ≡ NotCopied.Refused r → IsOfOpening r) }
    {
        if is_missing(rt, path) {
            return Err(NotCopied::Refused(Refusal::NotAReplica));
        }
        let copied = copied_at(rt, path)?;
        SqlKeeper::open_copied(rt, copied, keep)
    }
}

impl<D: Disk + Drop> SqlKeeper<FileStore<D>> {
    /// Gives the files back, once what the store has in its log is copied into the database file, so that it stands alone. If
    /// that fails, the store is given back, and the log keeps it.
    pub fn close_files(self) -> Result<Files<D>, FileStore<D>>
        ensures copied { IfOk result (λ files. AreClean D.Disk files.log files.db → IsCopied self.0 files) }
        ensures kept { IfErr result (IsClosed self.0) }
    {
        match self.release().close_files() {
            Ok(files) => Ok(files),
            Err((_, store)) => Err(store),
        }
    }
}

impl SqlKeeper<FileStore<SparingFile<Unknown>>> {
    /// As `init_from`, of whatever the files at the path hold. Rows that contradict each other are refused with 25. What is refused is let go.
    pub fn init_file(
        rt: &HostRuntime,
        path: &str,
        server: ServerId,
        primary: ServerId,
    ) -> Result<FileKeeper, Refusal>
        ensures opened { IfOk result (λ k. IsNewKeeper (AreFrom (image_at ⟦<Unknown as Start>⟧) (IsAdopted server primary)) (file_state k.0) k.1) }
        ensures agree { IfOk result (λ k. HasCleanDisk (file_state k.0) → IsTrue (file_state k.0).is_open
            → agree (tables_in (file_state k.0).now.trees) ≡ true) }
        ensures cause { IfErr result IsOfOpening }
    {
        match SqlKeeper::init_from(rt, path, Unknown, server, primary) {
            Ok(keeper) => keeper.agreeing(),
            Err((refusal, _)) => Err(refusal),
        }
    }

    /// As `open_from`, of whatever the files at the path hold. Rows that contradict each other are refused with 25. What is refused is let go.
    pub fn open_file(rt: &HostRuntime, path: &str) -> Result<FileKeeper, Refusal>
        ensures opened { IfOk result (λ k. IsNewKeeper (AreFrom (image_at ⟦<Unknown as Start>⟧) IsResumed) (file_state k.0) k.1) }
        ensures agree { IfOk result (λ k. HasCleanDisk (file_state k.0) → IsTrue (file_state k.0).is_open
            → agree (tables_in (file_state k.0).now.trees) ≡ true) }
        ensures cause { IfErr result IsOfOpening }
    {
        match SqlKeeper::open_from(rt, path, Unknown) {
            Ok(keeper) => keeper.agreeing(),
            Err((refusal, _)) => Err(refusal),
        }
    }

    /// Gives the file up, as `close_files`.
    pub fn close(self) {
        drop(self.close_files());
    }
}
