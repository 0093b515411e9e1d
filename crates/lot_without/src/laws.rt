//! Laws of what values of options name. Each is the contract of a function that does nothing.
ghost use Rattle.std.specs.Prelude.{◌≡◌, List, Some, ℕ};
ghost use Rattle.lot_without.specs.Given.{CanBeGiven, by_of};
ghost use Rattle.lot_without.specs.Value.{named};
ghost use Rattle.lot_without.specs.Without.{value_text};
ghost use Rattle.lot_without.specs.declared.value.By.{By};
ghost use Rattle.lot_without.specs.declared.without.Without.{Without as WithoutValue};

/// What can be given is named by the text that is printed of it: each key as it stands on a heading, each batch, each range.
pub fn what_is_printed_can_be_given()
    ensures { (without : WithoutValue) → CanBeGiven without
        → named (by_of without) (value_text without) ≡ Some without }
{}

/// What a text names can be given, and is printed as that text.
pub fn what_is_given_is_printed()
    ensures { (by : By) (text : List ℕ) (without : WithoutValue) → named by text ≡ Some without
        → CanBeGiven without × (by_of without ≡ by) × (value_text without ≡ text) }
{}
