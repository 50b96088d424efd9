ghost use Rattle.std.specs.Prelude.{◌≡◌, true, List, length, IsTrue, IfSome};
ghost use Rattle.sqlite_trees.specs.View.{IsClean};
ghost use Rattle.sqlite_trees.specs.declared.schema.Object.{Object as Listed};
ghost use Rattle.sqlite_wal.specs.Recovery.{Image};
ghost use Rattle.sqlite_wal.specs.Files.{seen_image};
ghost use Rattle.sqlite_pool.specs.Stored.{Recovers};
ghost use Rattle.sqlite_pool.specs.File.{in_use};
ghost use Rattle.sqlite_store.specs.Db.{rows_at};
ghost use Rattle.sqlite_store.specs.FileStore.{state, view, schema_of, IsReady};
ghost use Rattle.sqlite_store.specs.Unopened.{state_of, wanted_by, image, AreUsable};
ghost use Rattle.mr_disk.specs.Copied.{image_copied};
ghost use Rattle.mr_rows.specs.Shown.{AreOurRows};
ghost use Rattle.mr_trees.specs.Scanned.{IsCalm};
ghost use Rattle.mr_trees.specs.Heads.{do_heads_agree as do_heads_agree_in};
ghost use Rattle.mr_trees.specs.Opened.{AreReadFrom, IsNewTree};

use crate::heads::do_heads_agree;
use crate::schema::OBJECTS;
use crate::testing::test_all;
use crate::tree_keeper::TreeKeeper;
use mr_disk::Copied;
use sqlite_disk::{Disk, Files, Memory};
use sqlite_pager::{Options, Pager};
use sqlite_store::{FileStore, Unopened};
use sqlite_trees::schema::Object;
use sqlite_trees::store::{Shape, Store};
use sqlite_wal::PageSize;
use std::alloc::Global;
use std::rt::HostRuntime;

/// A keeper of the trees of a copy of a database file, in memory.
pub type CopyOfTrees = TreeKeeper<FileStore<Memory>>;

/// How many pages that were read are kept in memory.
const CACHE_PAGES: usize = 128;

/// The files of our tables have pages of this size, unless another program made them anew.
const PAGE_SIZE: usize = 4096;

fn options() -> Options {
    // The seed is for what is written to the log, and what is written to the log of a copy doesn't outlast the command.
    let mut options = Options::new(0);
    options.cache_pages = CACHE_PAGES;
    options
}

/// Opens the database of these files, if they list so many objects. The kit's open takes views besides those that are wanted, since they have no pages.
fn open_listed<D: Disk + Drop>(mut fresh: Unopened<D>, count: usize) -> Option<FileStore<D>>
    requires usable { AreUsable fresh }
    ensures ready { IfSome result IsReady }
    ensures schema { IfSome result (λ it. schema_of it ≡ wanted_by fresh) }
    ensures size { IfSome result (λ it. IsTrue (state it).is_clean → (state it).page_size ≡ (state_of fresh).page_size) }
    ensures found { IfSome result (λ it. IsTrue (state it).is_clean → Recovers (state_of fresh).page_size (image fresh) (state it).committed) }
    ensures listed { IfSome result (λ it. IsTrue (state it).is_clean
        → length (rows_at (state_of fresh).page_size (in_use (state_of fresh).page_size (state it).committed) Shape.Table 1) ≡ count) }
{
    match fresh.read_catalog() {
        Ok(entries) if entries.len() == count => {}
        _ => return None,
    }
    match fresh.open() {
        Ok(store) => Some(store),
        Err(_) => None,
    }
}

/// Opens the database of these files, if it has trees of just this schema and pages of the usual size. Each page of each tree is tested.
fn open_files<D: Disk + Drop>(
    alloc: Global,
    files: Files<D>,
    schema: &[Object<'_>],
) -> Option<FileStore<D>>
    requires log { IsTrue (D.Disk.is_usable files.log) }
    requires db { IsTrue (D.Disk.is_usable files.db) }
    ensures ready { IfSome result IsReady }
    ensures found { IfSome result (λ store. IsClean (view store)
        → (objects : List Listed) × AreReadFrom objects (seen_image D.Disk files.log files.db) (view store).trees) }
{
    let size = PageSize::new(PAGE_SIZE)?;
    let pager = match Pager::new(alloc, files, size, options()) {
        Ok(pager) => pager,
        Err(_) => return None,
    };
    let fresh = match Unopened::new(alloc, pager, schema) {
        Ok(fresh) => fresh,
        Err(_) => return None,
    };
    let store = open_listed(fresh, schema.len())?;
    Some(store)
}

/// The keeper of this store, if the rows of `meta` and `vector` agree, and each row of each table is one of its own. It is for any store: a call that
/// is made of a store of files is dear to prove.
fn tested<S: Store + Drop>(alloc: Global, mut store: S) -> Option<TreeKeeper<S>>
    requires open { IsClean (S.Store.view store) → IsTrue (S.Store.view store).is_open }
    requires calm { IsClean (S.Store.view store) → IsCalm (S.Store.view store) }
    ensures new { IfSome result (IsNewTree S.Store) }
    ensures clean { IfSome result (λ k. IsClean (S.Store.view k.0) → IsClean (S.Store.view store)) }
    ensures trees { IfSome result (λ k. IsClean (S.Store.view k.0) → (S.Store.view k.0).trees ≡ (S.Store.view store).trees) }
    ensures rows { IfSome result (λ k. IsClean (S.Store.view k.0) → AreOurRows (S.Store.view store).trees) }
    ensures agree { IfSome result (λ k. IsClean (S.Store.view k.0) → do_heads_agree_in (S.Store.view store).trees ≡ true) }
{
    match do_heads_agree(&mut store, alloc) {
        Ok(true) => {}
        _ => return None,
    }
    match test_all(&mut store, alloc) {
        Ok(()) => Some(TreeKeeper::opened(alloc, store)),
        Err(_) => None,
    }
}

impl TreeKeeper<FileStore<Memory>> {
    /// Opens a copy of a database's files as that of a replica, if it has tables of the second schema, and one row of `meta`, which agrees with
    /// `vector`. What it doesn't open, `SqlKeeper::open_copied` refuses, by name, or opens.
    pub fn open_copied(alloc: Global, copied: Copied) -> Option<CopyOfTrees>
        ensures new { IfSome result (IsNewTree ⟦<FileStore<Memory> as Store>⟧) }
        ensures found { IfSome result (λ k. IsClean (view k.0) → (schema : List Listed) × AreReadFrom schema (image_copied copied) (view k.0).trees) }
        ensures rows { IfSome result (λ k. IsClean (view k.0) → AreOurRows (view k.0).trees) }
    {
        let files = match copied.into_disks(alloc) {
            Ok(files) => files,
            Err(_) => return None,
        };
        let store = open_files(alloc, files, &OBJECTS)?;
        let keeper = tested(alloc, store)?;
        Some(keeper)
    }

    /// The same of what the files at the path hold. They are read under shared locks, and nothing is written.
    pub fn open_copy(rt: &HostRuntime, path: &str) -> Option<CopyOfTrees>
        ensures new { IfSome result (IsNewTree ⟦<FileStore<Memory> as Store>⟧) }
        ensures found { IfSome result (λ k. IsClean (view k.0) → (image : Image) × (schema : List Listed) × AreReadFrom schema image (view k.0).trees) }
        ensures rows { IfSome result (λ k. IsClean (view k.0) → AreOurRows (view k.0).trees) }
    {
        // The kit's own open takes these paths for memory and a URI.
        if path == ":memory:" || path.starts_with("file:") {
            return None;
        }
        match mr_disk::copy_of(rt, path) {
            Ok(Some(copied)) => TreeKeeper::open_copied(rt.alloc(), copied),
            _ => None,
        }
    }
}
