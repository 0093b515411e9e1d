use lot_command::Items;
use lot_field::Text;

/// What an account is for.
#[derive(Clone, Copy, Debug, PartialEq, Eq)]
pub enum AccountRole {
    Invest,
    Cash,
    Fees,
    Gains,
    Dividends,
    Interest,
    Rewards,
    Tax,
    Transfers,
    Rounding,
}

/// A piece of an account's name.
pub enum Piece {
    /// That text.
    Text(Text),
    /// `{account}`: what the column `account` has.
    Account,
    /// `{currency}`: the currency that is posted.
    Currency,
    /// `{symbol}`: the commodity of the row.
    Symbol,
}

impl Drop for Piece {
    /// It is written out, so that callers don't prove again how each part is dropped.
    fn drop(self) {
        match self {
            Piece::Text(_text) => {}
            Piece::Account => {}
            Piece::Currency => {}
            Piece::Symbol => {}
        }
    }
}

/// The account that is for something: these pieces, one after another.
pub struct AccountOf {
    pub role: AccountRole,
    pub pieces: Items<Piece>,
}

impl Drop for AccountOf {
    /// It is written out, so that callers don't prove again how each part is dropped.
    fn drop(self) {
        let AccountOf {
            role: _role,
            pieces: _pieces,
        } = self;
    }
}
