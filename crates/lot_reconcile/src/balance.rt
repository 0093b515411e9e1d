ghost use Rattle.std.specs.Prelude.{◌≡◌, pos, ◌*ℤ◌, IsTrue, SomeIff};
ghost use Rattle.lot_num.specs.Amount.{one};
ghost use Rattle.lot_reconcile.specs.Balance.{balance_with, differs, has_room, said_alone};

use lot_num::{Units, Wide};

/// What a statement says of a commodity beside what a book says, as weights.
#[derive(Clone, Copy, Debug, PartialEq, Eq)]
pub(crate) struct Balance {
    /// The units of the statement.
    pub said: Wide,
    /// Those of the book.
    pub held: Wide,
    /// The units of the statement less those of the book.
    pub difference: Wide,
}

impl Balance {
    /// Returns the balance of units of a statement, beside which the book has none.
    pub fn of_statement(units: Units) -> Balance
        ensures { result ≡ said_alone (units *ℤ pos one) }
    {
        Balance {
            said: units.wide(),
            held: Wide::ZERO,
            difference: units.wide(),
        }
    }

    /// Returns the balance with units more in the book, or `None` where a sum leaves its range.
    pub fn with(self, units: Units) -> Option<Balance>
        ensures { SomeIff result (IsTrue (has_room self units)) (balance_with self units) }
    {
        let held = self.held.checked_add(units.wide())?;
        let difference = self.difference.checked_add(units.wide().negated())?;
        Some(Balance {
            held,
            difference,
            ..self
        })
    }

    /// Returns whether the statement differs from the book.
    pub fn differs(self) -> bool
        ensures { result ≡ differs self }
    {
        self.difference.mantissa() != 0
    }
}
