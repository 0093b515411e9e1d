//! The word of each kind.
ghost use Rattle.std.specs.Prelude.{◌≡◌};
ghost use Rattle.lot_deal_read.specs.Row.{word_of};

use lot_profile::Kind;

/// Returns the word of a kind, as a profile has it.
pub(crate) fn word(kind: Kind) -> &'static str
    ensures { result.now ≡ word_of kind }
{
    match kind {
        Kind::Buy => "buy",
        Kind::Sell => "sell",
        Kind::CancelBuy => "cancel-buy",
        Kind::CancelSell => "cancel-sell",
        Kind::Dividend => "dividend",
        Kind::Interest => "interest",
        Kind::Tax => "tax",
        Kind::Fee => "fee",
        Kind::Deposit => "deposit",
        Kind::Withdrawal => "withdrawal",
        Kind::Exchange => "exchange",
        Kind::Reward => "reward",
        Kind::TransferIn => "transfer-in",
        Kind::Split => "split",
        Kind::Price => "price",
        Kind::ByHand => "by-hand",
        Kind::Skip => "skip",
    }
}
