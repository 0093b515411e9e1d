//! A file of the system that keeps why its last call failed: the library of the database makes a code
//! of the error.

ghost use Rattle.std.specs.Prelude.{◌≡◌, None};
ghost use Rattle.lot_files.specs.Noted.{IsInCell, KeepsWhy, TellsCell, TellsKept, cause_in};

use crate::cause::Cause;
use crate::keeper::Keeper;
use sqlite_disk::{Disk, Tally};
use std::cell::Cell;
use std::io::{self, ErrorKind};

/// Why the last call of a book's files failed, where one did.
#[derive(Drop)]
pub struct Failure(Cell<Option<io::Error>>);

impl Failure {
    /// Returns that of files of which no call has failed.
    pub fn none() -> Failure
        ensures { IsInCell result None }
    {
        Failure(Cell::new(None))
    }

    /// Returns why the last call failed of those that did, where one did.
    pub fn cause(&self) -> Option<Cause>
        ensures { TellsCell self.now result }
    {
        cause_kept(&self)
    }
}

impl Keeper for &Failure {
    ghost use Rattle.std.specs.Prelude.{Some};
    ghost use Rattle.lot_files.specs.Noted.{IsInCell};

    ghost keeps = { λ _ error failure. IsInCell failure.now (Some error) };

    ghost holds = { λ failure kept. IsInCell failure.now kept };

    fn keep(&mut self, error: io::Error) {
        self.0.set(Some(error));
    }

    fn kept(&self) -> Option<io::Error> {
        self.0.get()
    }
}

/// Returns what the error says that is kept there, where there is one.
pub(crate) fn cause_kept<K: Keeper>(keeper: &K) -> Option<Cause>
    ensures { TellsKept K.Keeper keeper.now result }
{
    Some(keeper.kept()?.into())
}

/// Passes on what a call came to, and keeps why it failed, where it did.
fn pass<K: Keeper, T>(keeper: &mut K, outcome: io::Result<T>) -> io::Result<T>
    ensures same { result ≡ outcome }
    ensures keeps { KeepsWhy K.Keeper keeper.old (cause_in outcome) keeper.new }
{
    if let Some(error) = cause_in(&outcome) {
        keeper.keep(error);
    }
    outcome
}

/// Returns the error of a call that says why it failed. The end of a file doesn't.
fn cause_in<T>(outcome: &io::Result<T>) -> Option<io::Error>
    ensures { result ≡ cause_in outcome.now }
{
    match outcome {
        Err(error) if error.kind() != ErrorKind::UnexpectedEof => Some(*error),
        _ => None,
    }
}

/// A file that keeps why its last call failed.
pub struct Noted<'a, D> {
    file: D,
    failure: &'a Failure,
}

impl<D: Drop> Drop for Noted<'_, D> {
    /// It is written out, so that callers don't prove again how each part is dropped.
    fn drop(self) {
        let Noted {
            file: _,
            failure: _,
        } = self;
    }
}

impl<'a, D> Noted<'a, D> {
    /// Returns this file, which keeps there why a call failed.
    pub(crate) fn new(file: D, failure: &'a Failure) -> Noted<'a, D>
        ensures { result.file ≡ file }
    {
        Noted { file, failure }
    }
}

impl<D: Disk> Disk for Noted<'_, D> {
    ghost seen = { λ n. D.Disk.seen n.file };

    ghost may_leave = { λ n. D.Disk.may_leave n.file };

    ghost is_usable = { λ n. D.Disk.is_usable n.file };

    ghost faults = { λ n. D.Disk.faults n.file };

    ghost tally_of = { λ n. D.Disk.tally_of n.file };

    ghost is_clean = { λ n. D.Disk.is_clean n.file };

    ghost key_of = { λ n. D.Disk.key_of n.file };

    ghost is_fair = { λ n. D.Disk.is_fair n.file };

    ghost is_frozen = { λ n. D.Disk.is_frozen n.file };

    ghost is_rotten = { λ n. D.Disk.is_rotten n.file };

    ghost is_mixing = { λ n. D.Disk.is_mixing n.file };

    ghost seen_may_stay = { λ n. D.Disk.seen_may_stay n.file };

    ghost fair_if_clean = { λ n. D.Disk.fair_if_clean n.file };

    fn mixes(&self) -> bool {
        self.file.mixes()
    }

    fn key(&self) -> u64 {
        self.file.key()
    }

    fn tally(&self) -> Tally {
        self.file.tally()
    }

    fn may_be_used(&self) -> bool {
        self.file.may_be_used()
    }

    fn len(&mut self) -> io::Result<usize> {
        pass(&mut self.failure, self.file.len())
    }

    fn read_at(&mut self, at: usize, buf: &mut [u8]) -> io::Result<()> {
        pass(&mut self.failure, self.file.read_at(at, buf))
    }

    fn read_checked(&mut self, key: u64, want: u64, at: usize, buf: &mut [u8]) -> io::Result<()> {
        pass(
            &mut self.failure,
            self.file.read_checked(key, want, at, buf),
        )
    }

    fn write_at(&mut self, at: usize, bytes: &[u8]) -> io::Result<()> {
        pass(&mut self.failure, self.file.write_at(at, bytes))
    }

    fn set_len(&mut self, len: usize) -> io::Result<()> {
        pass(&mut self.failure, self.file.set_len(len))
    }

    fn sync(&mut self) -> io::Result<()> {
        pass(&mut self.failure, self.file.sync())
    }
}
