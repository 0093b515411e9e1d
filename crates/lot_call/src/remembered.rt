//! What the book of commands that aren't kept said of them, for what is said once it is dropped.

ghost use Rattle.std.specs.Prelude.{◌≡◌, IsTrue, false, true};
ghost use Rattle.lot_call.specs.Looks.{Looks};
ghost use Rattle.lot_table.specs.Book.{IsUndone};
ghost use Rattle.sqlite.specs.State.{HasCleanDisk, Survives};

use crate::call::Call;
use crate::facts::{
    add_entry, add_latest, add_locked, add_lots, find_entry, find_latest, find_locked,
    list_accounts, list_lots, note_end,
};
use lot_book::{Refusal, Verdict};
use lot_command::{Command, Key};
use lot_explain::{Known, pair_at};
use lot_rounding::Asked;
use lot_table::{Fault, Queryable};
use std::alloc::Global;

/// The facts of commands that aren't kept, by the book that they had made. All are of one source.
#[derive(Drop)]
pub struct Remembered {
    alloc: Global,
    /// Of how many more refused commands facts are looked up.
    more: u64,
    /// Whether commands were dropped.
    pub(crate) is_dropped: bool,
    pub(crate) known: Known,
}

impl Remembered {
    /// Returns none yet, of a call.
    pub fn of(call: &Call<'_>) -> Remembered
        ensures { result.is_dropped ≡ false }
    {
        let alloc = call.rt.alloc();
        Remembered {
            alloc,
            more: if call.is_quiet() { 0 } else { call.most() },
            is_dropped: false,
            known: Known::nothing(alloc),
        }
    }

    /// Looks at the book that commands with these verdicts have made, of which one is refused, before what they made is dropped.
    /// Where it can't be read less is known; where memory ends that is noted.
    pub fn look<D: Queryable>(
        &mut self,
        db: &mut D,
        commands: &[(Key, Asked)],
        verdicts: &[Verdict],
    )
        ensures same_reference { D.reference db.new ≡ D.reference db.old }
        ensures undone { HasCleanDisk (D.shown db.new)
            → IsUndone (D.shown db.old) (D.shown db.new) }
        ensures crash { Survives (D.shown db.old) (D.shown db.new) (λ _. ⊥) }
        ensures dropped { self.new.is_dropped ≡ true }
    {
        let found = self.look_at_all(db, commands, verdicts);
        note_end(&mut self.known, found);
        self.is_dropped = true;
    }

    /// Looks up the accounts, and what there is to say of each command.
    fn look_at_all<D: Queryable>(
        &mut self,
        db: &mut D,
        commands: &[(Key, Asked)],
        verdicts: &[Verdict],
    ) -> Result<(), Fault>
        ensures same_reference { D.reference db.new ≡ D.reference db.old }
        ensures looks { Looks (D.shown db.old) (D.shown db.new) result }
    {
        let accounts = list_accounts(self.alloc, db)?;
        self.known.add_accounts(accounts);
        'commands: for (command, verdict) in commands.iter().zip(verdicts) {
            self.look_at(db, command, verdict)?;
        }
        Ok(())
    }

    /// Looks up what there is to say of a command.
    fn look_at<D: Queryable>(
        &mut self,
        db: &mut D,
        command: &(Key, Asked),
        verdict: &Verdict,
    ) -> Result<(), Fault>
        requires open { HasCleanDisk (D.shown db.old) → IsTrue (D.shown db.old).is_open }
        ensures same_reference { D.reference db.new ≡ D.reference db.old }
        ensures looks { Looks (D.shown db.old) (D.shown db.new) result }
    {
        let (key, asked) = command;
        self.look_at_closed(db, &asked.command)?;
        match verdict {
            Verdict::Refused(refusal) => self.look_at_refused(db, key, &asked.command, refusal),
            Verdict::Accepted | Verdict::Repeated => Ok(()),
        }
    }

    /// Looks up, of a command that closes an account, a commodity that the account holds.
    fn look_at_closed<D: Queryable>(&mut self, db: &mut D, command: &Command) -> Result<(), Fault>
        requires open { HasCleanDisk (D.shown db.old) → IsTrue (D.shown db.old).is_open }
        ensures same_reference { D.reference db.new ≡ D.reference db.old }
        ensures looks { Looks (D.shown db.old) (D.shown db.new) result }
    {
        match command {
            Command::Closing(closing) => {
                let held = find_locked(self.alloc, db, &closing.account)?;
                add_locked(&mut self.known, &closing.account, held)
            }
            _ => Ok(()),
        }
    }

    /// Looks up what is said of a refused command, if it is one of the first.
    fn look_at_refused<D: Queryable>(
        &mut self,
        db: &mut D,
        key: &Key,
        command: &Command,
        refusal: &Refusal,
    ) -> Result<(), Fault>
        requires open { HasCleanDisk (D.shown db.old) → IsTrue (D.shown db.old).is_open }
        ensures same_reference { D.reference db.new ≡ D.reference db.old }
        ensures looks { Looks (D.shown db.old) (D.shown db.new) result }
    {
        if self.more == 0 {
            return Ok(());
        }
        self.more -= 1;
        match refusal {
            Refusal::KeyReused => self.look_at_entry(db, key),
            Refusal::BackDated { posting } => self.look_at_latest(db, command, *posting),
            Refusal::Ambiguous { posting } | Refusal::NotEnough { posting } => {
                self.look_at_lots(db, command, *posting)
            }
            _ => Ok(()),
        }
    }

    /// Looks up the entry under a key.
    fn look_at_entry<D: Queryable>(&mut self, db: &mut D, key: &Key) -> Result<(), Fault>
        ensures same_reference { D.reference db.new ≡ D.reference db.old }
        ensures looks { Looks (D.shown db.old) (D.shown db.new) result }
    {
        let entry = find_entry(self.alloc, db, &key.source, &key.name)?;
        add_entry(&mut self.known, key, entry)
    }

    /// Looks up where the pair of a posting was last posted to with braces.
    fn look_at_latest<D: Queryable>(
        &mut self,
        db: &mut D,
        command: &Command,
        place: usize,
    ) -> Result<(), Fault>
        requires open { HasCleanDisk (D.shown db.old) → IsTrue (D.shown db.old).is_open }
        ensures same_reference { D.reference db.new ≡ D.reference db.old }
        ensures looks { Looks (D.shown db.old) (D.shown db.new) result }
    {
        match pair_at(command, place)? {
            Some(pair) => {
                let latest = find_latest(self.alloc, db, &pair.account, &pair.commodity)?;
                add_latest(&mut self.known, &pair, latest)
            }
            None => Ok(()),
        }
    }

    /// Looks up the lots of the pair of a posting.
    fn look_at_lots<D: Queryable>(
        &mut self,
        db: &mut D,
        command: &Command,
        place: usize,
    ) -> Result<(), Fault>
        requires open { HasCleanDisk (D.shown db.old) → IsTrue (D.shown db.old).is_open }
        ensures same_reference { D.reference db.new ≡ D.reference db.old }
        ensures looks { Looks (D.shown db.old) (D.shown db.new) result }
    {
        match pair_at(command, place)? {
            Some(pair) => {
                let lots = list_lots(self.alloc, db, &pair.account, &pair.commodity)?;
                add_lots(&mut self.known, &pair, lots)
            }
            None => Ok(()),
        }
    }
}
