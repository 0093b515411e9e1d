//! The postings of units that come in for no cash.
ghost use Rattle.std.specs.Prelude.{◌≡◌, IfOk, IfErr};
ghost use Rattle.lot_deal_command.specs.declared.fault.CommandFault.TheVariants.{Memory};
ghost use Rattle.lot_deal_command.specs.Cash.{incoming_postings};

use crate::fault::CommandFault;
use crate::posting::{held, plain, whole_cost};
use lot_command::{Items, Posting};
use lot_deal::Incoming;
use std::alloc::Global;

/// Returns the postings of units that come in.
pub(crate) fn received_units(
    alloc: Global,
    incoming: &Incoming,
) -> Result<Items<Posting>, CommandFault>
    ensures ok { IfOk result (λ all. all ≡ incoming_postings incoming.now) }
    ensures memory { IfErr result (λ fault. fault ≡ Memory) }
{
    let cost = whole_cost(incoming.cost, &incoming.currency, incoming.day)?;
    let mut all = Items::new(alloc);
    all.push(held(
        &incoming.invest,
        incoming.units,
        &incoming.symbol,
        cost,
        None,
    )?)?;
    if let Some(account) = &incoming.account {
        all.push(plain(account, incoming.cost.negated(), &incoming.currency)?)?;
    }
    Ok(all)
}
