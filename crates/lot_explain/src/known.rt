//! What a book says of the commands of a call, as it stands behind the last one: the facts that were looked up there.

ghost use Rattle.std.specs.Prelude.{◌≡◌, IfOk, OnErr, true};
ghost use Rattle.lot_explain.specs.Pair.{pair, pair_at};

use lot_base::{Account, Commodity, Day, Label, NameFault};
use lot_book::Pair;
use lot_command::{Command, Key};
use lot_cost::LotKey;
use lot_num::Units;
use std::alloc::{AllocError, Global};
use std::collections::BTreeMap;

/// A fact that is looked up in a book.
#[derive(Drop)]
pub enum Wanted {
    /// The entry under a key.
    Entry(Key),
    /// The accounts that were opened.
    Accounts,
    /// Where a pair was last posted to with braces.
    Latest(Pair),
    /// The lots of a pair.
    Lots(Pair),
    /// A commodity that an account holds though it was closed.
    Locked(Account),
}

/// An entry of a book.
#[derive(Drop)]
pub struct Entry {
    pub number: u32,
    /// Its canonical text.
    pub body: String,
}

/// A day, and the last entry of that day that posted with braces.
#[derive(Drop)]
pub struct Latest {
    pub day: Day,
    pub entry: u32,
}

/// A lot that is held.
#[derive(Drop)]
pub struct Lot {
    pub key: LotKey,
    pub units: Units,
}

/// The facts that were found.
#[derive(Drop)]
pub struct Known {
    alloc: Global,
    /// Those that were opened.
    accounts: Vec<Account>,
    /// By the names of their keys, which are all of one source.
    entries: BTreeMap<Label, Entry>,
    latest: BTreeMap<Pair, Latest>,
    lots: BTreeMap<Pair, Vec<Lot>>,
    /// A commodity that each of these accounts holds, though it was closed.
    locked: BTreeMap<Account, Commodity>,
    /// Whether memory ended before all facts were looked up.
    is_cut: bool,
}

impl Known {
    /// Returns no facts yet.
    pub fn nothing(alloc: Global) -> Known {
        Known {
            alloc,
            accounts: Vec::new(alloc),
            entries: BTreeMap::new(alloc),
            latest: BTreeMap::new(alloc),
            lots: BTreeMap::new(alloc),
            locked: BTreeMap::new(alloc),
            is_cut: false,
        }
    }

    /// Notes that memory ended before all facts were looked up. One that isn't found is then an error, not none.
    pub fn cut(&mut self)
        ensures { self.new.is_cut ≡ true }
    {
        self.is_cut = true;
    }

    /// Returns whether a fact was found already.
    pub fn has(&self, wanted: &Wanted) -> bool {
        match wanted {
            Wanted::Entry(key) => self.entries.contains_key(&key.name),
            Wanted::Accounts => !self.accounts.is_empty(),
            Wanted::Latest(pair) => self.latest.contains_key(pair),
            Wanted::Lots(pair) => self.lots.contains_key(pair),
            Wanted::Locked(account) => self.locked.contains_key(account),
        }
    }

    /// Adds the accounts that were opened.
    pub fn add_accounts(&mut self, accounts: Vec<Account>) {
        self.accounts = accounts;
    }

    /// Adds the entry under a key. The only error is out of memory.
    pub fn add_entry(&mut self, key: &Key, entry: Entry) -> Result<(), AllocError> {
        self.entries.insert(key.name.copy()?, entry)?;
        Ok(())
    }

    /// Adds where a pair was last posted to with braces. The only error is out of memory.
    pub fn add_latest(&mut self, pair: &Pair, latest: Latest) -> Result<(), AllocError> {
        self.latest.insert(pair.copy()?, latest)?;
        Ok(())
    }

    /// Adds the lots of a pair. The only error is out of memory.
    pub fn add_lots(&mut self, pair: &Pair, lots: Vec<Lot>) -> Result<(), AllocError> {
        self.lots.insert(pair.copy()?, lots)?;
        Ok(())
    }

    /// Adds a commodity that an account holds though it was closed. The only error is out of memory.
    pub fn add_locked(&mut self, account: &Account, held: Commodity) -> Result<(), AllocError> {
        self.locked.insert(account.copy()?, held)?;
        Ok(())
    }

    /// Returns the accounts that were opened. The only error is out of memory.
    pub(crate) fn accounts(&self) -> Result<&[Account], AllocError> {
        if self.is_cut && self.accounts.is_empty() {
            return Err(AllocError);
        }
        Ok(self.accounts.as_slice())
    }

    /// Returns the entry under a name, where one is known. The only error is out of memory.
    pub(crate) fn entry(&self, name: &str) -> Result<Option<&Entry>, AllocError> {
        match label(self.alloc, name)? {
            Some(name) => self.found(self.entries.get(&name)),
            None => Ok(None),
        }
    }

    /// Returns where an account and a commodity were last posted to with braces, where that is known. The only error is out of
    /// memory.
    pub(crate) fn latest(
        &self,
        account: &Account,
        commodity: &Commodity,
    ) -> Result<Option<&Latest>, AllocError> {
        self.found(self.latest.get(&pair(account, commodity)?))
    }

    /// Returns the lots of a commodity that an account holds, none where they aren't known. The only error is out of memory.
    pub(crate) fn lots(
        &self,
        account: &Account,
        commodity: &Commodity,
    ) -> Result<&[Lot], AllocError> {
        match self.found(self.lots.get(&pair(account, commodity)?))? {
            Some(lots) => Ok(lots.as_slice()),
            None => Ok(&[]),
        }
    }

    /// Returns a commodity that an account holds though it was closed, where one is known. The only error is out of memory.
    pub(crate) fn locked(&self, account: &Account) -> Result<Option<&Commodity>, AllocError> {
        self.found(self.locked.get(account))
    }

    /// Returns what was found. Where memory ended before all was looked up, it is an error that nothing was.
    fn found<'a, T>(&self, fact: Option<&'a T>) -> Result<Option<&'a T>, AllocError>
        ensures found { IfOk result (λ found. found ≡ fact.entry) }
        ensures cut { OnErr result (self.now.is_cut ≡ true) }
    {
        if self.is_cut && fact.is_none() {
            return Err(AllocError);
        }
        Ok(fact)
    }
}

/// Returns a text as a label, if it is one. The only error is out of memory.
pub(crate) fn label(alloc: Global, text: &str) -> Result<Option<Label>, AllocError> {
    match Label::new(alloc, text) {
        Ok(label) => Ok(Some(label)),
        Err(NameFault::Memory) => Err(AllocError),
        Err(_) => Ok(None),
    }
}

/// Returns the account and the commodity of a posting of a command, by its place from 1, if it has both. The only error is out of
/// memory.
pub fn pair_at(command: &Command, place: usize) -> Result<Option<Pair>, AllocError>
    ensures { IfOk result (λ found. found ≡ pair_at command.now place) }
{
    let (Command::Transaction(transaction), Some(index)) = (command, place.checked_sub(1)) else {
        return Ok(None);
    };
    let Some(posting) = transaction.postings.as_slice().get(index) else {
        return Ok(None);
    };
    match &posting.amount {
        Some(amount) => Ok(Some(pair(&posting.account, &amount.commodity)?)),
        None => Ok(None),
    }
}

/// Returns an account and a commodity as a pair. The only error is out of memory.
fn pair(account: &Account, commodity: &Commodity) -> Result<Pair, AllocError>
    ensures { IfOk result (λ both. both ≡ pair account.now commodity.now) }
{
    Ok(Pair {
        account: account.copy()?,
        commodity: commodity.copy()?,
    })
}
