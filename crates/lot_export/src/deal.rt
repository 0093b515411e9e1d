//! What a row asks for.
ghost use Rattle.std.specs.Prelude.{◌≡◌, false, IfOk, IfErr, Some};
ghost use Rattle.lot_export.specs.Deals.{FailsFor, HasAsked, HasNone, IsAskedFor, cancelling, narrated};
ghost use Rattle.lot_export.specs.Named.{is_by_hand_of};
ghost use Rattle.lot_rounding.specs.Asked.{splitting};

use crate::fault::ExportFault;
use lot_base::{Account, Commodity, Day, Note};
use lot_command::Narration;
use lot_deal::{Cancellation, Deal, Terms, Trade};
use lot_deal_command::{CommandFault, command};
use lot_deal_read::{Dated, Saying};
use lot_rounding::{Asked, Change};
use std::alloc::{AllocError, Global};

/// Returns what the row of that number asks for, which isn't posted by hand. Where it takes a purchase back, that was made on the
/// given day. The error has the number of the row.
pub(crate) fn asked_of(
    alloc: Global,
    number: usize,
    dated: &Dated,
    bought: Option<Day>,
) -> Result<Asked, ExportFault>
    requires posted { is_by_hand_of dated.now.saying ≡ false }
    ensures ok { IfOk result (HasAsked dated.now bought) }
    ensures fault { IfErr result (HasNone number dated.now bought) }
{
    match &dated.saying {
        Saying::ByHand => unreachable!(),
        Saying::Deal { deal, .. } => asked_for(alloc, number, deal),
        Saying::CancelBuy { note, trade, .. } => match bought {
            Some(bought) => asked_for(alloc, number, &cancelling(dated.day, note, trade, bought)?),
            None => Err(ExportFault::NothingLeft { row: number }),
        },
        Saying::Split {
            note,
            account,
            symbol,
            change,
        } => Ok(splitting(alloc, dated.day, note, account, symbol, *change)?),
    }
}

/// Returns the command of a deal, which the row of that number says.
fn asked_for(alloc: Global, number: usize, deal: &Deal) -> Result<Asked, ExportFault>
    ensures ok { IfOk result (IsAskedFor deal.now) }
    ensures fault { IfErr result (FailsFor number deal.now) }
{
    match command(alloc, deal) {
        Ok(command) => Ok(Asked::plain(command)),
        Err(CommandFault::TooLarge) => Err(ExportFault::TooLarge { row: number }),
        Err(CommandFault::Memory) => Err(ExportFault::Memory),
    }
}

/// Returns the deal of a row that takes back a purchase of that day. The only error is out of memory.
fn cancelling(day: Day, note: &Note, trade: &Trade, bought: Day) -> Result<Deal, AllocError>
    ensures { IfOk result (λ deal. deal ≡ cancelling day note.now trade.now bought) }
{
    Ok(Deal {
        day,
        note: note.copy()?,
        terms: Terms::CancelBuy(Cancellation {
            trade: trade.copy()?,
            bought,
        }),
    })
}

/// Returns the split of a row, with its note as the narration. The only error is out of memory.
fn splitting(
    alloc: Global,
    day: Day,
    note: &Note,
    account: &Account,
    symbol: &Commodity,
    change: Change,
) -> Result<Asked, AllocError>
    ensures { IfOk result (λ asked.
        asked ≡ splitting day (Some (narrated note.now)) account.now symbol.now change) }
{
    let narration = Narration {
        payee: None,
        text: note.copy()?,
    };
    Asked::splitting(
        alloc,
        day,
        Some(narration),
        account.copy()?,
        symbol.copy()?,
        change,
    )
}
