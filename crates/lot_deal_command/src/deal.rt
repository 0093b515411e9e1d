//! The command of a deal.
ghost use Rattle.std.specs.Prelude.{◌≡◌, IfOk, IfErr, Err};
ghost use Rattle.lot_command.specs.declared.command.Command.TheVariants as Commands;
ghost use Rattle.lot_deal_command.specs.declared.fault.CommandFault.TheVariants.{Memory, TooLarge};
ghost use Rattle.lot_deal_command.specs.Deal.{ArePosted, ArePostings, HasCommand, HasPostings, IsCommandOf, quoting, transaction};

use crate::cash::{exchange, income, movement};
use crate::fault::CommandFault;
use crate::incoming::received_units;
use crate::trades::{cancellation, purchase, sale};
use lot_base::Day;
use lot_command::{Command, Flag, Items, Narration, Posting, Quoting, Transaction};
use lot_deal::{Deal, Quote, Terms};
use std::alloc::{AllocError, Global};

/// Returns the command that a deal stands for: of a price a quotation, of each other deal a transaction (docs/FORMATS.md,
/// Profiles).
///
/// The error is `TooLarge` exactly where a number that is posted, and that the deal doesn't say, isn't units: the amount of income
/// with the tax in it, or that of an exchange with the fee in it. This is tested first. Else it is out of memory.
pub fn command(alloc: Global, deal: &Deal) -> Result<Command, CommandFault>
    ensures ok { IfOk result (IsCommandOf deal.now) }
    ensures too_large { result ≡ Err TooLarge → HasCommand deal.now → ⊥ }
    ensures memory { result ≡ Err Memory → HasCommand deal.now }
{
    match &deal.terms {
        Terms::Price(quote) => Ok(quoting(deal.day, quote)?),
        terms => transaction(deal, postings(alloc, terms)?),
    }
}

/// Returns the postings of terms that are posted.
fn postings(alloc: Global, terms: &Terms) -> Result<Items<Posting>, CommandFault>
    requires { ArePosted terms.now }
    ensures ok { IfOk result (ArePostings terms.now) }
    ensures too_large { result ≡ Err TooLarge → HasPostings terms.now → ⊥ }
    ensures memory { result ≡ Err Memory → HasPostings terms.now }
{
    match terms {
        Terms::Buy(trade) => purchase(alloc, trade),
        Terms::Sell(sold) => sale(alloc, sold),
        Terms::CancelBuy(back) => cancellation(alloc, back),
        Terms::Dividend(came) | Terms::Interest(came) => income(alloc, came),
        Terms::Tax(moves) | Terms::Fee(moves) | Terms::Deposit(moves) | Terms::Withdrawal(moves) =>
            movement(alloc, moves),
        Terms::Exchange(exchanged) => exchange(alloc, exchanged),
        Terms::Reward(units) | Terms::TransferIn(units) => received_units(alloc, units),
        Terms::Price(_quote) => unreachable!(),
    }
}

/// Returns the complete transaction of a deal with these postings. The only error is out of memory.
fn transaction(deal: &Deal, postings: Items<Posting>) -> Result<Command, CommandFault>
    ensures ok { IfOk result
        (λ command. command ≡ Commands.Transaction (transaction deal.now postings)) }
    ensures memory { IfErr result (λ fault. fault ≡ Memory) }
{
    let narration = Narration {
        payee: None,
        text: deal.note.copy()?,
    };
    Ok(Command::Transaction(Transaction {
        day: deal.day,
        flag: Flag::Complete,
        narration: Some(narration),
        postings,
    }))
}

/// Returns the command that notes a price.
fn quoting(day: Day, quote: &Quote) -> Result<Command, AllocError>
    ensures { IfOk result (λ command. command ≡ quoting day quote.now) }
{
    Ok(Command::Quoting(Quoting {
        day,
        base: quote.symbol.copy()?,
        rate: quote.rate,
        quote: quote.currency.copy()?,
    }))
}
