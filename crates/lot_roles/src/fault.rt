use lot_profile::{AccountRole, Role};
use std::alloc::{AllocError, AllocFailed};
use thiserror::Error;

/// Why a row says nothing that can be posted.
#[derive(Clone, Copy, Debug, PartialEq, Eq, Error)]
pub enum RowFault {
    /// It is of no kind: it meets what no kind of its table asks.
    #[error("it is of no kind")]
    NoKind,
    /// It is of two kinds or more: the first two kinds of its table, counted from 1.
    #[error("it is of two kinds")]
    TwoKinds { first: usize, second: usize },
    /// That role has no value, and the kind needs one.
    #[error("a value is missing")]
    Missing(Role),
    /// A part of that role is no number, or out of the range of units.
    #[error("it is no number")]
    NotNumber(Role),
    /// A number of that role has a ninth decimal that isn't zero.
    #[error("it has more than eight decimals")]
    TooManyDecimals(Role),
    /// What that role comes to is out of range.
    #[error("it is out of range")]
    TooLarge(Role),
    /// A price or a rate is below zero.
    #[error("it is below zero")]
    BelowZero(Role),
    /// What that role says is no commodity.
    #[error("it is no commodity")]
    NotCommodity(Role),
    /// What that role says is no day.
    #[error("it is no day")]
    NotDay(Role),
    /// The time beside the day is none.
    #[error("it is no time")]
    NotTime,
    /// The profile names no account for that, or a piece of it has no value in this row.
    #[error("there is no account")]
    NoAccount(AccountRole),
    /// What the pieces of the account for that come to is no account.
    #[error("it is no account")]
    BadAccount(AccountRole),
    /// The ratio of a split is none.
    #[error("it is no ratio")]
    NotRatio,
    /// The ratio of a split has a number above the limit in its lowest terms.
    #[error("the ratio has too large a number")]
    RatioTooLarge,
    /// A split adds no units.
    #[error("a split adds nothing")]
    NothingAdded,
    /// The numbers don't have the signs of the kind.
    #[error("the numbers have other signs")]
    Signs,
    /// Units, price, fee and amount disagree.
    #[error("units, price, fee and amount disagree")]
    Disagree,
    /// A rate of exchange is zero or below.
    #[error("the rate isn't above zero")]
    RateZero,
    /// The tax has another sign than the amount.
    #[error("the tax has another sign than the amount")]
    TaxSign,
    /// What the cash got, in the currency of the amount, isn't the amount.
    #[error("what was booked isn't the amount")]
    BookedAtOdds,
    /// What the cash got has another sign than the amount.
    #[error("what was booked has another sign than the amount")]
    BookedSign,
    /// A currency is exchanged for itself.
    #[error("a currency is exchanged for itself")]
    SameCurrency,
    /// The day of the cost is behind the day of the row.
    #[error("the day of the cost is later")]
    CostDayLater,
    /// There is no amount, and the price is in another currency.
    #[error("the price is in another currency")]
    PriceApart,
    /// What the price comes to has another sign than the amount.
    #[error("the price has another sign than the amount")]
    PriceSign,
    /// A sale is cancelled: it has to be left out with its sale.
    #[error("a sale is cancelled")]
    CancelledSale,
    /// Out of memory.
    #[error("out of memory")]
    Memory,
}

impl From<AllocError> for RowFault {
    ghost use Rattle.std.specs.Prelude.{◌≡◌};
    ghost use Rattle.lot_roles.specs.declared.fault.RowFault.TheVariants.{Memory};

    ghost from_gives = { λ _ e. e ≡ Memory };

    fn from(_error: AllocError) -> RowFault {
        RowFault::Memory
    }
}

impl<T: Drop> From<AllocFailed<T>> for RowFault {
    ghost use Rattle.std.specs.Prelude.{◌≡◌};
    ghost use Rattle.lot_roles.specs.declared.fault.RowFault.TheVariants.{Memory};

    ghost from_gives = { λ _ e. e ≡ Memory };

    fn from(_failed: AllocFailed<T>) -> RowFault {
        RowFault::Memory
    }
}
