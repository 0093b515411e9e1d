ghost use Rattle.std.specs.Prelude.{◌≡◌, ◌≤◌, SomeIff};

use std::marker::Model;

/// A number that counts from 1: of an entry in its book, or of a posting in its transaction.
#[derive(Clone, Copy, Debug, PartialEq, Eq)]
pub struct Ordinal {
    number: u32,
}

impl Model for Ordinal {
    ghost use Rattle.std.specs.Prelude.{ℕ, ◌≤◌};

    ghost Value = { ℕ };

    ghost view = { λ o. o.number };

    ghost invariant = { λ o. 1 ≤ o.number };

    ghost inverse = { λ n. record { number = n } };
}

impl Ordinal {
    /// Returns that number, or `None` for zero.
    pub fn new(number: u32) -> Option<Ordinal>
        ensures { SomeIff result (1 ≤ number) number }
    {
        if number == 0 {
            return None;
        }
        Some(Ordinal { number })
    }

    /// Returns the number.
    pub fn number(self) -> u32
        ensures value { result ≡ self }
        ensures from_one { 1 ≤ self }
    {
        self.number
    }
}
