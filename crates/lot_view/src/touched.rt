ghost use Rattle.std.specs.Prelude.{◌≡◌, [], ◌∷◌, IfOk, OnOk};
ghost use Rattle.std.specs.BTreeSet.{IsFromIterResult};
ghost use Rattle.lot_base.specs.Text.{text_cmp};
ghost use Rattle.lot_book.specs.Touched.{accounts_in, declared_in, pairs_in, plain_in};
ghost use Rattle.lot_book.specs.Touched.{accounts_of, elided_of, if_elided, pair_of, pairs_of};
ghost use Rattle.lot_view.specs.Sets.{Adds};
ghost use Rattle.lot_book.specs.Change.{pair_cmp};

use lot_base::{Account, Commodity};
use lot_book::Pair;
use lot_command::{Command, Posting};
use std::alloc::{AllocError, Global};
use std::collections::BTreeSet;

/// What a command looks at of a book, beside the number of its entries and the text under the command's key.
#[derive(Drop)]
pub struct Touched {
    /// The accounts whose standing it looks at.
    pub accounts: BTreeSet<Account>,
    /// The commodities that it asks for: whether they are declared.
    pub declared: BTreeSet<Commodity>,
    /// The accounts and commodities whose latest day at cost it looks at. It looks at all that is held there, too, plain or in
    /// lots.
    pub pairs: BTreeSet<Pair>,
    /// The accounts whose plain units it looks at, of every commodity.
    pub plain: BTreeSet<Account>,
}

impl Touched {
    /// Returns what a command looks at that looks at nothing.
    fn new(alloc: Global) -> Touched
        ensures accounts { IsFromIterResult text_cmp [] result.accounts }
        ensures declared { IsFromIterResult text_cmp [] result.declared }
        ensures pairs { IsFromIterResult pair_cmp [] result.pairs }
        ensures plain { IsFromIterResult text_cmp [] result.plain }
    {
        Touched {
            accounts: BTreeSet::new(alloc),
            declared: BTreeSet::new(alloc),
            pairs: BTreeSet::new(alloc),
            plain: BTreeSet::new(alloc),
        }
    }

    /// Adds what a posting looks at. The error is out of memory.
    fn add(&mut self, posting: &Posting) -> Result<(), AllocError>
        ensures accounts { OnOk result
            (Adds text_cmp self.old.accounts (posting.now.account ∷ []) self.new.accounts) }
        ensures declared { OnOk result (self.new.declared ≡ self.old.declared) }
        ensures pairs { OnOk result
            (Adds pair_cmp self.old.pairs
            (pair_of posting.now.account posting.now.amount) self.new.pairs) }
        ensures plain { OnOk result
            (Adds text_cmp self.old.plain
            (if_elided posting.now.account posting.now.amount) self.new.plain) }
    {
        self.accounts.insert(posting.account.copy()?)?;
        match &posting.amount {
            Some(amount) => {
                let account = posting.account.copy()?;
                let commodity = amount.commodity.copy()?;
                self.pairs.insert(Pair { account, commodity })?;
            }
            None => {
                self.plain.insert(posting.account.copy()?)?;
            }
        }
        Ok(())
    }

    /// Adds what postings look at. The error is out of memory.
    fn add_all(&mut self, postings: &[Posting]) -> Result<(), AllocError>
        ensures accounts { OnOk result
            (Adds text_cmp self.old.accounts (accounts_of postings.now) self.new.accounts) }
        ensures declared { OnOk result (self.new.declared ≡ self.old.declared) }
        ensures pairs { OnOk result
            (Adds pair_cmp self.old.pairs (pairs_of postings.now) self.new.pairs) }
        ensures plain { OnOk result
            (Adds text_cmp self.old.plain (elided_of postings.now) self.new.plain) }
    {
        for posting in postings {
            self.add(posting)?;
        }
        Ok(())
    }
}

/// Returns what a command looks at. The error is out of memory.
pub fn touches(alloc: Global, command: &Command) -> Result<Touched, AllocError>
    ensures accounts { IfOk result
        (λ touched. IsFromIterResult text_cmp (accounts_in command.now) touched.accounts) }
    ensures declared { IfOk result
        (λ touched. IsFromIterResult text_cmp (declared_in command.now) touched.declared) }
    ensures pairs { IfOk result
        (λ touched. IsFromIterResult pair_cmp (pairs_in command.now) touched.pairs) }
    ensures plain { IfOk result
        (λ touched. IsFromIterResult text_cmp (plain_in command.now) touched.plain) }
{
    let mut touched = Touched::new(alloc);
    match command {
        Command::Opening(opening) => {
            touched.accounts.insert(opening.account.copy()?)?;
        }
        Command::Closing(closing) => {
            touched.accounts.insert(closing.account.copy()?)?;
        }
        Command::Declaring(declaring) => {
            touched.declared.insert(declaring.commodity.copy()?)?;
        }
        Command::Quoting(_) => {}
        Command::Transaction(transaction) => touched.add_all(transaction.postings.as_slice())?,
    }
    Ok(touched)
}
