ghost use Rattle.std.specs.Prelude.{◌≡◌, IsTrue};
ghost use Rattle.sqlite_disk.specs.Disk.{Only};

use sqlite_disk::{Disk, Tally};
use std::io;

/// A disk that passes each call on to the one below it, and leaves a sync out if nothing was written since the last one: a crash leaves
/// what is there and nothing else, as it did before.
#[derive(Drop)]
pub struct Sparing<D: Disk> {
    inner: D,
    is_synced: bool,
    ghost synced: { IsTrue is_synced → Only (D.Disk.seen inner) (D.Disk.may_leave inner) },
}

impl<D: Disk> Sparing<D> {
    ghost use Rattle.mr_disk.specs.Sparing.{inner_of};

    /// Over a disk that was synced, and not written since.
    pub fn new(inner: D) -> Sparing<D>
        requires synced { Only (D.Disk.seen inner) (D.Disk.may_leave inner) }
        ensures inner { inner_of result ≡ inner }
    {
        Sparing {
            inner,
            is_synced: true,
        }
    }
}

impl<D: Disk> Disk for Sparing<D> {
    ghost seen = { λ f. D.Disk.seen f.inner };

    ghost may_leave = { λ f. D.Disk.may_leave f.inner };

    ghost is_usable = { λ f. D.Disk.is_usable f.inner };

    ghost faults = { λ f. D.Disk.faults f.inner };

    ghost tally_of = { λ f. D.Disk.tally_of f.inner };

    ghost is_rotten = { λ f. D.Disk.is_rotten f.inner };

    ghost is_clean = { λ f. D.Disk.is_clean f.inner };

    ghost key_of = { λ f. D.Disk.key_of f.inner };

    ghost is_fair = { λ f. D.Disk.is_fair f.inner };

    ghost fair_if_clean = { λ f. D.Disk.fair_if_clean f.inner };

    ghost seen_may_stay = { λ f. D.Disk.seen_may_stay f.inner };

    ghost is_mixing = { λ f. D.Disk.is_mixing f.inner };

    fn mixes(&self) -> bool {
        self.inner.mixes()
    }

    fn key(&self) -> u64 {
        self.inner.key()
    }

    fn tally(&self) -> Tally {
        self.inner.tally()
    }

    fn may_be_used(&self) -> bool {
        self.inner.may_be_used()
    }

    fn len(&mut self) -> io::Result<usize> {
        self.inner.len()
    }

    fn read_at(&mut self, at: usize, buf: &mut [u8]) -> io::Result<()> {
        self.inner.read_at(at, buf)
    }

    fn read_checked(&mut self, key: u64, want: u64, at: usize, buf: &mut [u8]) -> io::Result<()> {
        self.inner.read_checked(key, want, at, buf)
    }

    fn write_at(&mut self, at: usize, bytes: &[u8]) -> io::Result<()> {
        self.is_synced = false;
        self.inner.write_at(at, bytes)
    }

    fn set_len(&mut self, len: usize) -> io::Result<()> {
        self.is_synced = false;
        self.inner.set_len(len)
    }

    fn sync(&mut self) -> io::Result<()> {
        if self.is_synced {
            return Ok(());
        }
        self.inner.sync()?;
        self.is_synced = true;
        Ok(())
    }
}
