//! A disk that keeps how its last call failed.
ghost use Rattle.std.specs.Prelude.{◌≡◌};
ghost use Rattle.storage.specs.NotedFiles.{bare};

use crate::notes::Notes;
use crate::reason::reason_of_call;
use sqlite_disk::{Disk, Files, Tally};
use std::io;

/// A disk, and what keeps how its last call failed.
#[derive(Drop)]
pub struct NotedDisk<D: Disk + Drop> {
    pub(crate) inner: D,
    notes: Notes,
}

/// Files whose failures are kept.
pub(crate) fn noted_files<D: Disk + Drop>(
    files: Files<D>,
    log: Notes,
    db: Notes,
) -> Files<NotedDisk<D>>
    ensures { bare result ≡ files }
{
    Files {
        log: NotedDisk {
            inner: files.log,
            notes: log,
        },
        db: NotedDisk {
            inner: files.db,
            notes: db,
        },
    }
}

/// Keeps how a call failed, if it did.
fn note<T>(notes: &Notes, outcome: &io::Result<T>) {
    if let Err(error) = outcome {
        notes.keep(reason_of_call(*error));
    }
}

impl<D: Disk + Drop> Disk for NotedDisk<D> {
    ghost seen = { λ d. D.Disk.seen d.inner };

    ghost may_leave = { λ d. D.Disk.may_leave d.inner };

    ghost is_usable = { λ d. D.Disk.is_usable d.inner };

    ghost faults = { λ d. D.Disk.faults d.inner };

    ghost tally_of = { λ d. D.Disk.tally_of d.inner };

    ghost is_clean = { λ d. D.Disk.is_clean d.inner };

    ghost key_of = { λ d. D.Disk.key_of d.inner };

    ghost is_fair = { λ d. D.Disk.is_fair d.inner };

    ghost is_mixing = { λ d. D.Disk.is_mixing d.inner };

    ghost seen_may_stay = { λ d. D.Disk.seen_may_stay d.inner };

    ghost fair_if_clean = { λ d. D.Disk.fair_if_clean d.inner };

    fn mixes(&self) -> bool {
        self.inner.mixes()
    }

    fn key(&self) -> u64 {
        self.inner.key()
    }

    fn tally(&self) -> Tally {
        self.inner.tally()
    }

    fn may_be_used(&self) -> bool {
        self.inner.may_be_used()
    }

    fn len(&mut self) -> io::Result<usize> {
        let outcome = self.inner.len();
        note(&self.notes, &outcome);
        outcome
    }

    fn read_at(&mut self, at: usize, buf: &mut [u8]) -> io::Result<()> {
        let outcome = self.inner.read_at(at, buf);
        note(&self.notes, &outcome);
        outcome
    }

    fn read_checked(&mut self, key: u64, want: u64, at: usize, buf: &mut [u8]) -> io::Result<()> {
        let outcome = self.inner.read_checked(key, want, at, buf);
        note(&self.notes, &outcome);
        outcome
    }

    fn write_at(&mut self, at: usize, bytes: &[u8]) -> io::Result<()> {
        let outcome = self.inner.write_at(at, bytes);
        note(&self.notes, &outcome);
        outcome
    }

    fn set_len(&mut self, len: usize) -> io::Result<()> {
        let outcome = self.inner.set_len(len);
        note(&self.notes, &outcome);
        outcome
    }

    fn sync(&mut self) -> io::Result<()> {
        let outcome = self.inner.sync();
        note(&self.notes, &outcome);
        outcome
    }
}
