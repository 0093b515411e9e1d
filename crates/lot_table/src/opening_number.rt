ghost use Rattle.std.specs.Prelude.{◌≡◌, SomeIff};
ghost use Rattle.lot_table.specs.Cell.{IsOpeningNumber};

use std::marker::Model;

/// The number of the posting that opened a lot, from 1: 64 for each entry before its own, plus its place in its own. It fits an
/// integer of SQL.
#[derive(Clone, Copy, Debug, PartialEq, Eq)]
pub struct OpeningNumber {
    number: u64,
}

impl Model for OpeningNumber {
    ghost use Rattle.std.specs.Prelude.{ℕ};
    ghost use Rattle.lot_table.specs.Cell.{IsOpeningNumber};

    ghost Value = { ℕ };

    ghost view = { λ o. o.number };

    ghost invariant = { λ o. IsOpeningNumber o.number };

    ghost inverse = { λ n. record { number = n } };
}

impl OpeningNumber {
    /// The least number that is too great for an integer of SQL.
    pub const LIMIT: u64 = 1 << 63;

    /// Returns that number, or `None` for zero and from `LIMIT` on.
    pub fn new(number: u64) -> Option<OpeningNumber>
        ensures { SomeIff result (IsOpeningNumber number) number }
    {
        if number == 0 || number >= Self::LIMIT {
            return None;
        }
        Some(OpeningNumber { number })
    }

    /// Returns the number.
    pub fn number(self) -> u64
        ensures value { result ≡ self }
        ensures in_range { IsOpeningNumber self }
    {
        self.number
    }
}
