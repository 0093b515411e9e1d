//! Why lots aren't split, for people.

use lot_split::SplitFault;

/// Returns why there is no split of the lots that are held, and what helps.
pub(crate) fn why(fault: SplitFault) -> &'static str {
    match fault {
        SplitFault::NotOpened => "the account isn't opened",
        SplitFault::NothingHeld =>
            "no lot of it is held there: post what was held before the file first",
        SplitFault::TooManyLots => "more than 60 lots are held: post it by hand, as two splits",
        SplitFault::BothSigns =>
            "lots on both sides of zero are held: post it by hand, for each side",
        SplitFault::BadRatio => {
            "what is held doesn't come to a ratio of numbers up to 100: something isn't posted yet, or is posted twice"
        }
        SplitFault::Undivided(_) => {
            "the units of a lot can't be divided at eight decimals: post it by hand, with the fraction that was paid out"
        }
        SplitFault::SumOutOfRange | SplitFault::OutOfRange => {
            "units or a cost would be out of range: post it by hand"
        }
        SplitFault::TooManyPostings => {
            "it would have more than 64 postings: post it by hand, as two splits"
        }
        SplitFault::Memory => "out of memory",
    }
}
