//! Laws of the definitions, each the contract of a function that does nothing.
ghost use Rattle.std.specs.Prelude.{◌≡◌, ◌≤◌, ◌+ℤ◌, [], ℕ, ℤ, pos, List, Option, None, Some, length, map, take};
ghost use Rattle.std.specs.List.{AllByRecursion};
ghost use Rattle.lot_num.specs.Amount.{IsRate, IsUnits};
ghost use Rattle.lot_book.specs.Balance.{weights_in};
ghost use Rattle.lot_book.specs.Booking.{All, Booked, BooksAllUnder, TieRule};
ghost use Rattle.lot_book.specs.Currencies.{sum_in};
ghost use Rattle.lot_book.specs.Facts.{Facts};
ghost use Rattle.lot_book.specs.Refusals.{most_postings};
ghost use Rattle.lot_book.specs.Step.{DecidesUnder, Repeat};
ghost use Rattle.lot_command.specs.declared.command.Command.{Command};
ghost use Rattle.lot_command.specs.declared.command.Command.TheVariants.{Transaction};
ghost use Rattle.lot_command.specs.declared.transaction.Transaction.{Transaction as TransactionOf};
ghost use Rattle.lot_completion.specs.Completion.{IsCompletion, fill_decimals, gets, zeros_of};
ghost use Rattle.lot_completion.specs.Crumbs.{IsCrumb, IsTakenUp, MakeUp, crumb_postings, rest_of, speck_of};
ghost use Rattle.lot_completion.specs.Form.{IsByForm};
ghost use Rattle.lot_completion.specs.Turn.{AreWithinBound, IsTurnWith, StandsAsSplit, StandsByForm};
ghost use Rattle.lot_rounding.specs.Asked.{IsAtSomeDecimals};
ghost use Rattle.lot_rounding.specs.Nearest.{IsRounded};
ghost use Rattle.lot_rounding.specs.Rounding.{IsBound};
ghost use Rattle.lot_rounding.specs.declared.asked.Asked.{Asked};
ghost use Rattle.lot_rounding.specs.declared.asked.RowCash.{RowCash};
ghost use Rattle.lot_rounding.specs.declared.ratio.Change.{Change};
ghost use Rattle.lot_rounding.specs.declared.rounding.Rounding.{Rounding};
ghost use Rattle.lot_split.specs.Held.{split_of};
ghost use Rattle.lot_split.specs.declared.transaction.Split.{Split};

use lot_print::laws::canonical_texts_tell_commands_apart;

/// The postings that make up for a crumb weigh in its currency alone, and as much as it. Where its
/// whole units are in range, so are the amounts of the postings.
pub fn crumbs_are_made_up_for()
    ensures weight { (account currency : List ℕ) (crumb : ℤ)
        → MakeUp (currency, crumb) (crumb_postings account (currency, crumb)) }
    ensures in_range { (crumb : ℤ) → IsUnits (speck_of crumb) × IsRate (rest_of crumb) }
{}

/// With its crumb a currency balances: nothing is left, or, where a posting is elided, the stated
/// residual rounded, which the fill takes up.
pub fn a_crumb_balances()
    ensures whole { (stated residual crumb : ℤ)
        → IsCrumb None stated residual crumb → residual +ℤ crumb ≡ pos 0 }
    ensures filled { (decimals : ℕ) (stated residual crumb : ℤ)
        → IsCrumb (Some decimals) stated residual crumb
        → IsRounded decimals stated (residual +ℤ crumb) }
{}

/// At most one transaction completes another on what a book says, with an account and decimals, and its
/// crumbs are determined.
pub fn there_is_one_completion()
    ensures { (ties : TieRule) (facts : Facts) (account : List ℕ) (decimals : ℕ)
        (t : TransactionOf) (cs ds : List (List ℕ × ℤ)) (one other : TransactionOf)
        → IsCompletion ties facts account decimals t cs one
        → IsCompletion ties facts account decimals t ds other → (cs ≡ ds) × (one ≡ other) }
{}

/// In each currency the postings of the account add the crumb there to what the other postings leave.
pub fn a_completion_adds_its_crumbs()
    ensures { (ties : TieRule) (facts : Facts) (account : List ℕ) (decimals : ℕ)
        (t : TransactionOf) (crumbs : List (List ℕ × ℤ)) (completed : TransactionOf)
        (is : IsCompletion ties facts account decimals t crumbs completed)
        (booked : List Booked) (currency : List ℕ)
        → BooksAllUnder ties facts completed.day [] 1 completed.postings (All booked)
        → sum_in (weights_in booked) currency
        ≡ sum_in (weights_in is.booked) currency +ℤ sum_in crumbs currency }
{}

/// A completion balances: in each currency with a crumb its postings leave nothing, or, where one is
/// elided, what a fill of so many decimals takes up.
pub fn a_completion_balances()
    ensures { (ties : TieRule) (facts : Facts) (account : List ℕ) (decimals : ℕ)
        (t : TransactionOf) (crumbs : List (List ℕ × ℤ)) (completed : TransactionOf)
        (booked : List Booked)
        → IsCompletion ties facts account decimals t crumbs completed
        → BooksAllUnder ties facts completed.day [] 1 completed.postings (All booked)
        → AllByRecursion (λ (c : List ℕ × ℤ).
        IsTakenUp (fill_decimals decimals t.postings) (sum_in (weights_in booked) c.0)) crumbs }
{}

/// The postings of a transaction stand first in its completion, with their accounts, units and
/// commodities: what each account gets as it was written is what it gets there.
pub fn accounts_get_what_was_written()
    ensures { (ties : TieRule) (facts : Facts) (account : List ℕ) (decimals : ℕ)
        (t : TransactionOf) (crumbs : List (List ℕ × ℤ)) (completed : TransactionOf)
        → IsCompletion ties facts account decimals t crumbs completed
        → map gets (take (length t.postings) completed.postings) ≡ map gets t.postings }
{}

/// A completion is one by form where its crumbs are within a bound, also of a row whose cash is at other
/// decimals. So what is completed is a repeat where it comes again.
pub fn a_completion_is_one_by_form()
    ensures { (ties : TieRule) (facts : Facts) (account : List ℕ) (decimals : ℕ) (bound : ℤ)
        (cash : Option RowCash) (t written : TransactionOf) (crumbs : List (List ℕ × ℤ))
        (completed : TransactionOf)
        → IsAtSomeDecimals cash t written
        → IsCompletion ties facts account decimals written crumbs completed
        → IsBound bound → AreWithinBound bound crumbs → IsByForm cash t completed }
{}

/// Where a completion by form stands under the key, it is judged in the place of what comes again, and
/// that is a repeat.
pub fn what_was_completed_is_a_repeat()
    ensures { (ties : TieRule) (facts : Facts) (rounding : Rounding) (asked : Asked)
        (t completed : TransactionOf) (turned : Command)
        → asked.command ≡ Transaction t → asked.split ≡ None
        → StandsByForm facts.text asked.cash t completed
        → IsTurnWith ties facts rounding asked turned
        → (turned ≡ Transaction completed) × DecidesUnder ties facts turned Repeat }
{
    canonical_texts_tell_commands_apart();
}

/// Where a split by form stands under the key, it is judged in the place of the split that comes again,
/// whatever the account holds by then, and that is a repeat.
pub fn what_was_split_is_a_repeat()
    ensures { (ties : TieRule) (facts : Facts) (rounding : Rounding) (asked : Asked)
        (change : Change) (split : Split) (stands : TransactionOf) (turned : Command)
        → asked.split ≡ Some change → split_of rounding.account change asked.command ≡ Some split
        → StandsAsSplit facts.text split stands → IsTurnWith ties facts rounding asked turned
        → (turned ≡ Transaction stands) × DecidesUnder ties facts turned Repeat }
{
    canonical_texts_tell_commands_apart();
}

/// A completion has none of its own: judged as it is written on what the book said, it is its own
/// completion, with crumbs of zero, whichever account takes them. So where it is handed in, it is judged
/// as it is.
pub fn a_completion_has_none_of_its_own()
    ensures itself { (ties : TieRule) (facts : Facts) (account other : List ℕ) (decimals : ℕ)
        (t : TransactionOf) (crumbs : List (List ℕ × ℤ)) (completed : TransactionOf)
        (booked : List Booked)
        → IsCompletion ties facts account decimals t crumbs completed
        → length completed.postings ≤ most_postings
        → BooksAllUnder ties facts completed.day [] 1 completed.postings (All booked)
        → IsCompletion ties facts other decimals completed (zeros_of crumbs) completed }
    ensures alone { (ties : TieRule) (facts : Facts) (account other : List ℕ) (decimals : ℕ)
        (t : TransactionOf) (crumbs zeros : List (List ℕ × ℤ)) (completed again : TransactionOf)
        → IsCompletion ties facts account decimals t crumbs completed
        → IsCompletion ties facts other decimals completed zeros again
        → (again ≡ completed) × (zeros ≡ zeros_of crumbs) }
    ensures stays { (ties : TieRule) (facts : Facts) (account : List ℕ) (rounding : Rounding)
        (asked : Asked) (t : TransactionOf) (crumbs : List (List ℕ × ℤ)) (completed : TransactionOf)
        (turned : Command)
        → IsCompletion ties facts account rounding.decimals t crumbs completed
        → asked.command ≡ Transaction completed → asked.split ≡ None → facts.text ≡ None
        → IsTurnWith ties facts rounding asked turned → turned ≡ Transaction completed }
{}
