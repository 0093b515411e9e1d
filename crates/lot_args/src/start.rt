ghost use Rattle.std.specs.Prelude.{◌≡◌, ◌≤◌, SomeIff};
ghost use Rattle.lot_args.specs.Start.{IsStart, greatest_start};

use std::marker::Model;

/// The greatest number at which a run may start (`greatest_start` of the definitions).
pub(crate) const GREATEST_START: u32 = 10_000_000;

/// The number of the first command or row of an input that is run, from 1 to 10,000,000: those before it are skipped.
///
/// A contract sees the number.
#[derive(Clone, Copy)]
pub struct Start {
    number: u32,
}

impl Model for Start {
    ghost use Rattle.std.specs.Prelude.{ℕ};
    ghost use Rattle.lot_args.specs.Start.{IsStart};

    ghost Value = { ℕ };

    ghost view = { λ s. s.number };

    ghost inverse = { λ n. record { number = n } };

    ghost invariant = { λ s. IsStart s.number };
}

impl Start {
    /// Returns the start at the first command or row, so that none is skipped.
    pub fn at_first() -> Start
        ensures { result ≡ 1 }
    {
        Start { number: 1 }
    }

    /// Returns the start at that number, or `None` where it is outside 1 to 10,000,000.
    pub fn new(number: u32) -> Option<Start>
        ensures { SomeIff result (IsStart number) number }
    {
        if number == 0 || number > GREATEST_START {
            return None;
        }
        Some(Start { number })
    }

    /// Returns the number.
    pub fn number(self) -> u32
        ensures value { result ≡ self }
        ensures range { IsStart result }
    {
        self.number
    }
}
