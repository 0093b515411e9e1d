//! A command before its turn comes.
ghost use Rattle.std.specs.Prelude.{◌≡◌, IfOk, pos};
ghost use Rattle.lot_rounding.specs.Asked.{one_more, plain, splitting};

use crate::ratio::Change;
use lot_base::{Account, Commodity, Day};
use lot_command::{Amount, Command, Flag, Items, Narration, Posting, Transaction};
use lot_num::{Units, Wide};
use std::alloc::{AllocError, Global};

/// A command as it is handed in. What is judged is worked out from it when its turn comes.
pub struct Asked {
    pub command: Command,
    /// Of the row of a broker file whose cash was rounded, what the cash is exactly.
    pub cash: Option<RowCash>,
    /// Of a row that splits lots, how: those of the commodity in the account that the only posting of the
    /// command names. What is judged then is worked out on the lots that are held.
    pub split: Option<Change>,
}

impl Drop for Asked {
    /// It is written out, so that callers don't prove again how each part is dropped.
    fn drop(self) {
        let Asked {
            command: _command,
            cash: _cash,
            split: _split,
        } = self;
    }
}

/// The cash that a row moves.
#[derive(Clone, Copy, Debug, PartialEq, Eq)]
pub struct RowCash {
    /// The place of its posting in the transaction of the row, from 0.
    pub place: usize,
    /// How much it is, exactly.
    pub exact: Wide,
}

impl Asked {
    /// Returns a command of which nothing was rounded.
    pub fn plain(command: Command) -> Asked
        ensures { result ≡ plain command }
    {
        Asked {
            command,
            cash: None,
            split: None,
        }
    }

    /// Returns a split of that day, of the lots of a commodity in an account. The command that stands for it
    /// before its turn adds one unit there, without a cost. It doesn't balance: it is what is refused where
    /// there is no split of the lots. The only error is out of memory.
    pub fn splitting(
        alloc: Global,
        day: Day,
        narration: Option<Narration>,
        account: Account,
        commodity: Commodity,
        change: Change,
    ) -> Result<Asked, AllocError>
        ensures { IfOk result (λ asked. asked ≡ splitting day narration account commodity change) }
    {
        let mut postings = Items::new(alloc);
        postings.push(one_more(account, commodity))?;
        let transaction = Transaction {
            day,
            flag: Flag::Complete,
            narration,
            postings,
        };
        Ok(Asked {
            command: Command::Transaction(transaction),
            cash: None,
            split: Some(change),
        })
    }
}

/// Returns a posting of one unit without a cost.
fn one_more(account: Account, commodity: Commodity) -> Posting
    ensures { result ≡ one_more account commodity }
{
    Posting {
        account,
        amount: Some(Amount {
            units: one_unit(),
            commodity,
            cost: None,
            price: None,
        }),
    }
}

/// Returns one unit.
fn one_unit() -> Units
    ensures { result ≡ pos 100000000 }
{
    match Units::from_mantissa(100_000_000) {
        Some(units) => units,
        None => unreachable!(),
    }
}
