//! Laws of the definitions, each the contract of a function that does nothing.
ghost use Rattle.std.specs.Prelude.{
  ◌≡◌,
  ◌+◌,
  ◌<◌,
  ◌≤◌,
  ℕ,
  List,
  None,
  Option,
  length,
  map,
};
ghost use Rattle.std.specs.List.{range_with_len};
ghost use Rattle.lot_atomic.specs.Replies.{number_at, replies_by};
ghost use Rattle.lot_book.specs.Facts.{Entry};
ghost use Rattle.lot_book.specs.Judged.{JudgesAll};
ghost use Rattle.lot_book.specs.declared.verdict.Verdict.{Verdict};
ghost use Rattle.lot_command.specs.declared.command.Command.{Command};
ghost use Rattle.lot_command.specs.declared.key.Key.{Key};
ghost use Rattle.lot_report.specs.Printed.{replies};
ghost use Rattle.lot_rounding.specs.declared.asked.Asked.{Asked};
ghost use Rattle.lot_rounding.specs.declared.rounding.Rounding.{Rounding};
ghost use Rattle.lot_store.specs.Turned.{AreTurnedOn, handed};

/// What is judged in the place of commands that were handed in is judged in their order, as
/// commands are. Without an account for crumbs it is what was handed in.
pub fn turned_commands_are_judged_in_order()
    ensures judged { (rounding : Option Rounding) (entries : List Entry)
        (asked : List (Key × Asked)) (turned : List (Key × Command))
        (verdicts : List Verdict) (after : List Entry)
        → AreTurnedOn rounding entries asked turned verdicts after
        → JudgesAll entries turned verdicts after }
    ensures themselves { (entries : List Entry)
        (asked : List (Key × Asked)) (turned : List (Key × Command))
        (verdicts : List Verdict) (after : List Entry)
        → AreTurnedOn None entries asked turned verdicts after → turned ≡ map handed asked }
{}

/// Commands whose numbers follow one another are replied to as in a run that keeps each: with the
/// number of the first and on from it. A fault comes at the same number, too.
pub fn consecutive_numbers_are_those_of_a_run()
    ensures replies { (from count : ℕ) (verdicts : List Verdict) → length verdicts ≤ count
        → replies_by (range_with_len from count) verdicts ≡ replies from verdicts }
    ensures fault { (from count place : ℕ) → place < count
        → number_at (range_with_len from count) place ≡ place + from }
{}
