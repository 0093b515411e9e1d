//! Laws of the definitions that the contract of `command` cites. Each is the contract of a function that does nothing.
ghost use Rattle.std.specs.Prelude.{◌≡◌, ◌∷◌, ◌++◌, [], ℕ, ℤ, pos, neg_ℤ, ◌≤ℤ◌, List, None, Some};
ghost use Rattle.lot_command.specs.declared.command.Command.{Command};
ghost use Rattle.lot_command.specs.declared.transaction.Posting.{Posting};
ghost use Rattle.lot_cost.specs.declared.cost.Cost.TheVariants as Costs;
ghost use Rattle.lot_deal.specs.declared.deal.Deal.{Deal};
ghost use Rattle.lot_deal.specs.declared.deal.Terms.{Terms};
ghost use Rattle.lot_deal.specs.declared.trade.Trade.{Trade};
ghost use Rattle.lot_deal_command.specs.Balance.{AreOfCash, total_in};
ghost use Rattle.lot_deal_command.specs.Cash.{paid_beside};
ghost use Rattle.lot_deal_command.specs.Deal.{ArePostings, IsCommandOf};
ghost use Rattle.lot_deal_command.specs.Posting.{held, lots, plain};
ghost use Rattle.lot_deal_command.specs.Trade.{purchase_postings};

/// A deal has at most one command.
pub fn a_deal_has_one_command()
    ensures { (deal : Deal) (a b : Command) → IsCommandOf deal a → IsCommandOf deal b → a ≡ b }
{}

/// The postings of a deal in cash come to zero in each currency, where what the cash got in another currency has the sign of
/// the amount.
pub fn deals_in_cash_balance()
    ensures { (terms : Terms) (postings : List Posting) (currency : List ℕ)
        → AreOfCash terms → ArePostings terms postings → total_in currency postings ≡ pos 0 }
{}

/// Where the amount counts as cost, the first posting of a purchase has what was paid as the whole cost of its units, the last
/// takes that from the cash, and between them stands nothing but a fee that was paid beside.
pub fn a_purchase_costs_what_was_paid()
    ensures { (trade : Trade)
        → trade.price ≡ None → trade.amount ≤ℤ pos 0
        → purchase_postings trade
        ≡ held trade.invest trade.units trade.symbol
        (Costs.Whole (neg_ℤ trade.amount, lots None (Some trade.currency) None)) None
        ∷ (paid_beside trade.beside ++ plain trade.cash trade.amount trade.currency ∷ []) }
{}
