use crate::account::AccountOf;
use crate::file::Condition;
use crate::role::{Role, Sources};
use lot_command::Items;

/// What a row is.
#[derive(Clone, Copy, Debug, PartialEq, Eq)]
pub enum Kind {
    /// `buy`: units are bought.
    Buy,
    /// `sell`: units are sold.
    Sell,
    /// `cancel-buy`: an earlier purchase is taken back.
    CancelBuy,
    /// `cancel-sell`: an earlier sale is taken back.
    CancelSell,
    /// `dividend`: a dividend comes in, or is taken back.
    Dividend,
    /// `interest`: interest comes in, or is paid.
    Interest,
    /// `tax`: a tax is paid, or comes back.
    Tax,
    /// `fee`: a fee is paid, or comes back.
    Fee,
    /// `deposit`: cash comes in.
    Deposit,
    /// `withdrawal`: cash goes out.
    Withdrawal,
    /// `exchange`: one currency becomes another, in one row or in two.
    Exchange,
    /// `reward`: units come in for no cash.
    Reward,
    /// `transfer-in`: units come in from elsewhere, with their cost.
    TransferIn,
    /// `split`: each lot of a commodity becomes one of other units.
    Split,
    /// `price`: the price of a commodity.
    Price,
    /// `by-hand`: it is said, and posts nothing.
    ByHand,
    /// `skip`: it is counted, and posts nothing.
    Skip,
}

/// Which rows of a table are of a kind, and what goes before what the table says.
pub struct KindRule {
    pub kind: Kind,
    /// What is asked of its rows, all of it.
    pub when: Items<Condition>,
    /// Where roles are found in its rows, each at most once.
    pub columns: Items<Sources>,
    /// The roles whose sign is printed the other way in its rows, or `None` where those of the table are.
    pub turn: Option<Items<Role>>,
    /// The accounts of its rows, each role at most once.
    pub accounts: Items<AccountOf>,
}

impl Drop for KindRule {
    /// It is written out, so that callers don't prove again how each part is dropped.
    fn drop(self) {
        let KindRule {
            kind: _kind,
            when: _when,
            columns: _columns,
            turn: _turn,
            accounts: _accounts,
        } = self;
    }
}
