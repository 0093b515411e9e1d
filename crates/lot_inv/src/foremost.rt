ghost use Rattle.std.specs.Prelude.{◌≡◌};
ghost use Rattle.lot_inv.specs.Foremost.{is_later, is_past, rank, together};

use crate::lot::LentLot;
use lot_cost::LotKey;
use std::cmp::Ordering;

/// Which lots are lent before the others, of those that units may take.
#[derive(Clone, Copy, Debug)]
pub enum Foremost {
    /// Those of the first days.
    Oldest,
    /// Those of the last days.
    Newest,
    /// Those of the highest number.
    Highest,
    /// Those of the first days, and of one day those that were opened first.
    OldestOpened,
    /// Those of the last days, and of one day those that were opened first.
    NewestOpened,
    /// Those of the highest number, and of one number those that were opened first.
    HighestOpened,
}

impl Foremost {
    /// Returns the rank of the lot with a key and an opening number. Of two lots the one of the lower rank is lent first.
    pub(crate) fn rank(self, key: &LotKey, opening: u64) -> (i64, u64)
        ensures { result ≡ rank self key.now opening }
    {
        let day = i64::from(key.day.number());
        let number = key.number.mantissa() as i64;
        match self {
            Foremost::Oldest => (day, 0),
            Foremost::Newest => (-day, 0),
            Foremost::Highest => (-number, 0),
            Foremost::OldestOpened => (day, opening),
            Foremost::NewestOpened => (-day, opening),
            Foremost::HighestOpened => (-number, opening),
        }
    }

    /// Returns the same where those of one day or of one number are lent together.
    pub(crate) fn together(self) -> Foremost
        ensures value { result ≡ together self }
        ensures once { together result ≡ result }
    {
        match self {
            Foremost::Oldest | Foremost::OldestOpened => Foremost::Oldest,
            Foremost::Newest | Foremost::NewestOpened => Foremost::Newest,
            Foremost::Highest | Foremost::HighestOpened => Foremost::Highest,
        }
    }

    /// Returns whether a lot comes later than another.
    pub(crate) fn is_later(self, lot: &LentLot<'_>, other: &LentLot<'_>) -> bool
        ensures { result ≡ is_later self lot.now other.now }
    {
        let rank = self.rank(lot.key, lot.opening);
        self.rank(other.key, other.opening).cmp(&rank) == Ordering::Less
    }

    /// Returns whether a lot comes later than the last of others.
    pub(crate) fn is_past(self, lots: &[LentLot<'_>], lot: &LentLot<'_>) -> bool
        ensures { result ≡ is_past self lots.now lot.now }
    {
        match lots.last() {
            Some(last) => self.is_later(lot, last),
            None => false,
        }
    }
}
