use crate::file::Column;
use lot_command::Items;
use lot_field::Text;

/// What a column holds.
#[derive(Clone, Copy, Debug, PartialEq, Eq)]
pub enum Role {
    /// `account`: which of several accounts at the broker.
    Account,
    /// `amount`: what the cash got, below zero where it was paid.
    Amount,
    /// `booked`: what the cash got in another currency.
    Booked,
    /// `booked-currency`: the currency of that.
    BookedCurrency,
    /// `cost`: what all units of a lot that comes in cost.
    Cost,
    /// `cost-day`: the day of that lot.
    CostDay,
    /// `currency`: the currency of the amount, and so of the cash.
    Currency,
    /// `day`: the day of the row.
    Day,
    /// `fee`: what was paid beside the price.
    Fee,
    /// `fee-currency`: the currency of the fee, where it isn't that of the amount.
    FeeCurrency,
    /// `note`: what is written into the narration.
    Note,
    /// `other`: the second amount of an exchange.
    Other,
    /// `other-currency`: the currency of that.
    OtherCurrency,
    /// `price`: the price of a unit.
    Price,
    /// `price-currency`: its currency, where it isn't that of the amount.
    PriceCurrency,
    /// `rate`: how much of the price's currency one of the cash's is.
    Rate,
    /// `ratio`: of a split, as `4:1`.
    Ratio,
    /// `ref`: the broker's name of the deal.
    Ref,
    /// `symbol`: the commodity.
    Symbol,
    /// `tax`: what was withheld.
    Tax,
    /// `tax-currency`: the currency of the tax, where it isn't that of the amount.
    TaxCurrency,
    /// `time`: the time of the row, where it stands beside the day.
    Time,
    /// `units`: how much of the commodity came in, below zero where it went out.
    Units,
}

/// Where a part of what a role holds is found.
pub enum Source {
    /// In the field of that column.
    Column(Column),
    /// It is that text, in each row.
    Constant(Text),
    /// In the field of that column, up to that text.
    Until { column: Column, until: Text },
}

impl Drop for Source {
    /// It is written out, so that callers don't prove again how each part is dropped.
    fn drop(self) {
        match self {
            Source::Column(_column) => {}
            Source::Constant(_text) => {}
            Source::Until {
                column: _column,
                until: _until,
            } => {}
        }
    }
}

/// Where a role is found: in one source or in several. Amounts of several are added, other texts joined by blanks.
pub struct Sources {
    pub role: Role,
    pub from: Items<Source>,
}

impl Drop for Sources {
    /// It is written out, so that callers don't prove again how each part is dropped.
    fn drop(self) {
        let Sources {
            role: _role,
            from: _from,
        } = self;
    }
}
