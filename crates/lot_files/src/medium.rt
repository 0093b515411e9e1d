//! A file of either kind, so that the program is built for one kind of connection.

ghost use Rattle.lot_files.specs.Medium.{MayEither, either, fair_either, may_either};

use sqlite_disk::{Disk, Tally};
use std::io;

/// A file: one of the system, or one in memory.
pub enum Medium<A, B> {
    System(A),
    Memory(B),
}

impl<A: Drop, B: Drop> Drop for Medium<A, B> {
    /// It is written out, so that callers don't prove again how each part is dropped.
    fn drop(self) {
        match self {
            Medium::System(_file) => {}
            Medium::Memory(_file) => {}
        }
    }
}

impl<A: Disk, B: Disk> Disk for Medium<A, B> {
    ghost seen = { either A.Disk.seen B.Disk.seen };

    ghost may_leave = { MayEither A.Disk.may_leave B.Disk.may_leave };

    ghost is_usable = { either A.Disk.is_usable B.Disk.is_usable };

    ghost faults = { either A.Disk.faults B.Disk.faults };

    ghost tally_of = { either A.Disk.tally_of B.Disk.tally_of };

    ghost is_clean = { either A.Disk.is_clean B.Disk.is_clean };

    ghost key_of = { either A.Disk.key_of B.Disk.key_of };

    ghost is_fair = { either A.Disk.is_fair B.Disk.is_fair };

    ghost is_frozen = { either A.Disk.is_frozen B.Disk.is_frozen };

    ghost is_rotten = { either A.Disk.is_rotten B.Disk.is_rotten };

    ghost is_mixing = { either A.Disk.is_mixing B.Disk.is_mixing };

    ghost seen_may_stay = { may_either A.Disk.seen B.Disk.seen A.Disk.may_leave B.Disk.may_leave
        A.Disk.seen_may_stay B.Disk.seen_may_stay };

    ghost fair_if_clean = { fair_either A.Disk.is_clean B.Disk.is_clean A.Disk.is_fair B.Disk.is_fair
        A.Disk.fair_if_clean B.Disk.fair_if_clean };

    fn mixes(&self) -> bool {
        match self {
            Medium::System(file) => file.mixes(),
            Medium::Memory(file) => file.mixes(),
        }
    }

    fn key(&self) -> u64 {
        match self {
            Medium::System(file) => file.key(),
            Medium::Memory(file) => file.key(),
        }
    }

    fn tally(&self) -> Tally {
        match self {
            Medium::System(file) => file.tally(),
            Medium::Memory(file) => file.tally(),
        }
    }

    fn may_be_used(&self) -> bool {
        match self {
            Medium::System(file) => file.may_be_used(),
            Medium::Memory(file) => file.may_be_used(),
        }
    }

    fn len(&mut self) -> io::Result<usize> {
        match self {
            Medium::System(file) => file.len(),
            Medium::Memory(file) => file.len(),
        }
    }

    fn read_at(&mut self, at: usize, buf: &mut [u8]) -> io::Result<()> {
        match self {
            Medium::System(file) => file.read_at(at, buf),
            Medium::Memory(file) => file.read_at(at, buf),
        }
    }

    fn read_checked(&mut self, key: u64, want: u64, at: usize, buf: &mut [u8]) -> io::Result<()> {
        match self {
            Medium::System(file) => file.read_checked(key, want, at, buf),
            Medium::Memory(file) => file.read_checked(key, want, at, buf),
        }
    }

    fn write_at(&mut self, at: usize, bytes: &[u8]) -> io::Result<()> {
        match self {
            Medium::System(file) => file.write_at(at, bytes),
            Medium::Memory(file) => file.write_at(at, bytes),
        }
    }

    fn set_len(&mut self, len: usize) -> io::Result<()> {
        match self {
            Medium::System(file) => file.set_len(len),
            Medium::Memory(file) => file.set_len(len),
        }
    }

    fn sync(&mut self) -> io::Result<()> {
        match self {
            Medium::System(file) => file.sync(),
            Medium::Memory(file) => file.sync(),
        }
    }
}
