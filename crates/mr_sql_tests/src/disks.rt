// The two files of a database, as disks of memory that stop after so many calls. The memory is ample.

use sqlite::Files;
use sqlite_disk::{Disk, Fuse, Memory};
use std::alloc::Global;
use std::process::Abort;

/// The bytes of the two files.
#[derive(Drop)]
pub(crate) struct Bytes {
    pub(crate) log: Vec<u8>,
    pub(crate) db: Vec<u8>,
}

/// After how many calls each file stops.
#[derive(Clone, Copy)]
pub(crate) struct Stop {
    pub(crate) log: u64,
    pub(crate) db: u64,
}

pub(crate) const NO_STOP: Stop = Stop {
    log: u64::MAX,
    db: u64::MAX,
};

/// The bytes of files that are new.
pub(crate) fn no_bytes(alloc: Global) -> Bytes {
    Bytes {
        log: Vec::new(alloc),
        db: Vec::new(alloc),
    }
}

/// A file with these bytes, which stops after so many calls.
fn disk(rt: &impl Abort, alloc: Global, bytes: &[u8], calls: u64) -> Fuse<Memory> {
    let mut memory = Memory::new(alloc);
    memory.write_at(0, bytes).expect(rt, "a file");
    memory.sync().expect(rt, "a synced file");
    Fuse::new(memory, calls)
}

pub(crate) fn disks(
    rt: &impl Abort,
    alloc: Global,
    bytes: &Bytes,
    stop: Stop,
) -> Files<Fuse<Memory>> {
    let log = disk(rt, alloc, bytes.log.as_slice(), stop.log);
    let db = disk(rt, alloc, bytes.db.as_slice(), stop.db);
    Files { log, db }
}

fn copied(rt: &impl Abort, alloc: Global, disk: &Fuse<Memory>) -> Vec<u8> {
    disk.inner().bytes().to_vec(alloc).expect(rt, "a copy")
}

pub(crate) fn bytes_of(rt: &impl Abort, alloc: Global, files: &Files<Fuse<Memory>>) -> Bytes {
    let log = copied(rt, alloc, &files.log);
    let db = copied(rt, alloc, &files.db);
    Bytes { log, db }
}

/// Whether all calls of the files were answered, and one more is.
pub(crate) fn are_whole(files: &mut Files<Fuse<Memory>>) -> bool {
    files.may_be_used() && files.log.len().is_ok() && files.db.len().is_ok()
}

pub(crate) fn are_same(a: &Bytes, b: &Bytes) -> bool {
    a.log.as_slice() == b.log.as_slice() && a.db.as_slice() == b.db.as_slice()
}
