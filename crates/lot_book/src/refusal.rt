use lot_base::Commodity;
use std::alloc::{AllocError, AllocFailed};
use thiserror::Error;

/// Why a command is refused (docs/RULES.md, Order of refusals). A posting is named by its place in its transaction, from 1.
#[derive(Debug, PartialEq, Eq, Drop, Error)]
pub enum Refusal {
    /// The key stands with another command.
    #[error("the key stands with another text")]
    KeyReused,
    /// The account was opened before.
    #[error("the account is open already")]
    AlreadyOpen,
    /// A posting names an account that was never opened, or the account to be closed was never opened.
    #[error("the account was never opened")]
    UnknownAccount { posting: Option<usize> },
    /// The day is before the opening of the account that a posting or the closing names.
    #[error("the account is not open on that day")]
    NotOpenYet { posting: Option<usize> },
    /// The account of a posting was closed before the day of the transaction, or the account to be closed was closed before.
    #[error("the account is closed")]
    Closed { posting: Option<usize> },
    /// The commodity was declared before.
    #[error("the commodity is declared already")]
    AlreadyDeclared,
    /// The account of the posting was opened with a list of currencies that hasn't the commodity of the posting.
    #[error("the account of posting {posting} was not opened with its commodity")]
    CurrencyNotAllowed { posting: usize },
    /// The transaction has too many postings.
    #[error("the transaction has too many postings")]
    TooManyPostings,
    /// Two postings are elided.
    #[error("only one posting may be elided")]
    TwoElided,
    /// The day is before the latest day on which the pair was posted to with braces: the account and the commodity of the
    /// posting.
    #[error("posting {posting} is before the latest one at cost")]
    BackDated { posting: usize },
    /// No lot fits.
    #[error("no lot fits posting {posting}")]
    NoMatch { posting: usize },
    /// Several lots fit, and the posting doesn't take all of them.
    #[error("several lots fit posting {posting}")]
    Ambiguous { posting: usize },
    /// The lots that fit hold less than the posting takes.
    #[error("the lots that fit posting {posting} hold less")]
    NotEnough { posting: usize },
    /// The posting opens a lot, and gives no number or no currency.
    #[error("the cost in posting {posting} lacks its number or its currency")]
    IncompleteCost { posting: usize },
    /// The total of a whole cost, divided by the units, isn't exactly a rate.
    #[error("the total cost in posting {posting} by its units is not exact")]
    InexactCost { posting: usize },
    /// The posting has braces and zero units.
    #[error("posting {posting} has braces and zero units")]
    ZeroUnits { posting: usize },
    /// After the posting the units of a position are out of range.
    #[error("posting {posting} leaves the range of units")]
    Range { posting: usize },
    /// The units that the elided posting would take in the currency have too many decimals, or are out of range.
    #[error("what is left over in {currency} has too many decimals or is too large")]
    InexactFill { currency: Commodity },
    /// The account of the elided posting was opened with a list of currencies that hasn't the currency.
    #[error("the account of the elided posting was not opened with {currency}")]
    FillNotAllowed { currency: Commodity },
    /// No posting is elided, and the weights in the currency don't sum to zero.
    #[error("the transaction does not balance in {currency}")]
    NotBalanced { currency: Commodity },
    /// After the transaction the account of the posting would hold too many lots of its commodity.
    #[error("the account of posting {posting} would hold too many lots")]
    TooManyLots { posting: usize },
    /// The book has as many entries as it may have.
    #[error("the book is full")]
    BookFull,
}

/// Why a decision on a command has no outcome.
#[derive(Debug, PartialEq, Eq, Drop, Error)]
pub enum Stop {
    /// The rules refuse it.
    #[error("{0}")]
    Refused(Refusal),
    /// Out of memory.
    #[error("out of memory")]
    Memory,
}

impl From<Refusal> for Stop {
    ghost use Rattle.std.specs.Prelude.{◌≡◌};
    ghost use Rattle.lot_book.specs.declared.refusal.Stop.TheVariants.{Refused};

    ghost from_gives = { λ refusal stop. stop ≡ Refused refusal };

    fn from(refusal: Refusal) -> Stop {
        Stop::Refused(refusal)
    }
}

impl From<AllocError> for Stop {
    ghost use Rattle.std.specs.Prelude.{◌≡◌};
    ghost use Rattle.lot_book.specs.declared.refusal.Stop.TheVariants.{Memory};

    ghost from_gives = { λ _ stop. stop ≡ Memory };

    fn from(_error: AllocError) -> Stop {
        Stop::Memory
    }
}

impl<T: Drop> From<AllocFailed<T>> for Stop {
    ghost use Rattle.std.specs.Prelude.{◌≡◌};
    ghost use Rattle.lot_book.specs.declared.refusal.Stop.TheVariants.{Memory};

    ghost from_gives = { λ _ stop. stop ≡ Memory };

    fn from(_failed: AllocFailed<T>) -> Stop {
        Stop::Memory
    }
}
