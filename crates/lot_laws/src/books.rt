//! Laws of books: of their entries, of what they hold, and of what judging commands leaves. Each holds in either edition. A
//! book of the program (`IsBook`) is one of edition 2 (`IsBookIn` with its place of migration).
ghost use Rattle.std.specs.Prelude.{◌≡◌, ◌≢◌, ℕ, ℤ, pos, true, Some, List, [], ◌∷◌, ◌++◌, ◌+ℤ◌, neg_ℤ};
ghost use Rattle.lot_cost.specs.declared.method.Method.TheVariants.{Unmatched};
ghost use Rattle.lot_command.specs.Canonical.{canonical};
ghost use Rattle.lot_command.specs.declared.command.Command.{Command};
ghost use Rattle.lot_command.specs.declared.command.Command.TheVariants.{Transaction};
ghost use Rattle.lot_command.specs.declared.key.Key.{Key};
ghost use Rattle.lot_command.specs.declared.transaction.Transaction.{Transaction as TransactionOf};
ghost use Rattle.lot_cost.specs.declared.lot_key.LotKey.{LotKey};
ghost use Rattle.lot_inv.specs.Inventory.{lots_of, sum, units_at};
ghost use Rattle.lot_book.specs.declared.leg.Leg.{Leg};
ghost use Rattle.lot_book.specs.declared.leg.Position.{Position};
ghost use Rattle.lot_book.specs.declared.refusal.Refusal.TheVariants.{KeyReused};
ghost use Rattle.lot_book.specs.declared.verdict.Verdict.{Verdict};
ghost use Rattle.lot_book.specs.declared.verdict.Verdict.TheVariants.{Accepted, Refused, Repeated};
ghost use Rattle.lot_book.specs.Book.{IsBook, IsBookIn, after, entry_of};
ghost use Rattle.lot_book.specs.Booking.{Booked, IsBooked, Line, method_of};
ghost use Rattle.lot_book.specs.Currencies.{sum_in};
ghost use Rattle.lot_book.specs.Edition.{Edition, Migration, edition_on, ties_in};
ghost use Rattle.lot_book.specs.Facts.{Entry, facts_of, legs_of, standing_of, text_under};
ghost use Rattle.lot_book.specs.Judged.{JudgesAll, JudgesAllIn, JudgesBy};
ghost use Rattle.lot_laws.specs.Laws.{BooksEntries, HaveOneKeyEach, HaveOneSign, IsBalanced, JudgesAllBy};
ghost use Rattle.lot_laws.specs.Laws.{bought, bought_into, cost_in, lot_at, sold, sold_of, weights_at_cost};
ghost use Rattle.lot_book.specs.Leg.{inventory_of, legs_at_lots, sum_at};
ghost use Rattle.lot_book.specs.Sale.{AreLegsOf};
ghost use Rattle.lot_book.specs.Step.{Accept, Outcome, Repeat, StepIn};

/// What an account holds in a position is the sum of the units of all legs there.
pub fn what_an_account_holds_is_the_sum_of_its_legs()
    ensures { (legs : List Leg) (p : Position)
        → units_at (inventory_of legs p.account) (p.commodity, p.lot) ≡ sum_at legs p }
{}

/// Each transaction of a book balances. Its legs are those of its postings as they are booked on the entries before it. In each
/// currency the weights of the booked postings and of the elided posting's legs sum to zero, exactly.
pub fn every_transaction_balances()
    ensures { (migration : Migration) (before more : List Entry) (key : Key)
        (t : TransactionOf) (legs : List Leg)
        → IsBookIn migration (before ++ entry_of key (Transaction t) legs ∷ more)
        → IsBalanced (ties_in (edition_on migration before) before) (facts_of before key) t legs }
{}

/// In every book the units of a commodity that an account holds in lots are those that its commands bought there, less those
/// that they sold there.
pub fn units_held_in_lots_are_those_bought_less_those_sold()
    ensures { (migration : Migration) (entries : List Entry) (account commodity : List ℕ)
        → IsBookIn migration entries
        → sum (inventory_of (legs_of entries) account) commodity
        ≡ bought entries account commodity +ℤ neg_ℤ (sold entries account commodity) }
{}

/// In every book the lots of a commodity in an account have one sign, unless the method of the account is NONE.
pub fn an_accounts_lots_have_one_sign()
    ensures { (migration : Migration) (entries : List Entry) (account commodity : List ℕ)
        → IsBookIn migration entries
        → method_of (standing_of entries account) ≢ Unmatched
        → HaveOneSign (lots_of (inventory_of (legs_of entries) account) commodity) }
{}

/// No two entries of a book have one key.
pub fn the_keys_of_a_book_are_distinct()
    ensures { (migration : Migration) (entries : List Entry)
        → IsBookIn migration entries → HaveOneKeyEach entries }
{}

/// An accepted command stands under its key. A command repeats an entry where its key stands with its text; it does nothing
/// else. So such a command may be taken out of any list of commands, or put in at any place. The verdicts on the others and the
/// book after them stay the same. This holds whichever edition judges on each book.
pub fn an_equal_command_may_be_taken_out()
    ensures stands { (edition : Edition) (book : List Entry) (key : Key) (command : Command)
        (legs : List Leg) → StepIn edition book key command (Accept legs)
        → text_under (after book key command (Accept legs)) key ≡ Some (canonical command) }
    ensures repeats { (edition : Edition) (book : List Entry) (key : Key) (command : Command)
        → text_under book key ≡ Some (canonical command) → StepIn edition book key command Repeat }
    ensures nothing_else { (edition : Edition) (book : List Entry) (key : Key) (command : Command)
        (outcome : Outcome) → text_under book key ≡ Some (canonical command)
        → StepIn edition book key command outcome → outcome ≡ Repeat }
    ensures taken_out { (edition : List Entry → Edition) (book result : List Entry) (key : Key)
        (command : Command) (first more : List (Key × Command)) (verdicts : List Verdict)
        → text_under book key ≡ Some (canonical command)
        → JudgesAllBy edition book (first ++ (key, command) ∷ more) verdicts result
        → (earlier later : List Verdict) × (verdicts ≡ earlier ++ Repeated ∷ later)
        × JudgesAllBy edition book (first ++ more) (earlier ++ later) result }
    ensures put_in { (edition : List Entry → Edition) (book result : List Entry) (key : Key)
        (command : Command) (first more : List (Key × Command)) (verdicts : List Verdict)
        → text_under book key ≡ Some (canonical command)
        → JudgesAllBy edition book (first ++ more) verdicts result
        → (earlier later : List Verdict) × (verdicts ≡ earlier ++ later)
        × JudgesAllBy edition book (first ++ (key, command) ∷ more)
        (earlier ++ Repeated ∷ later) result }
{}

/// A key acts once. The text of an accepted command stands under its key, and stays there whatever is judged later. A command
/// under a key that stands is a repeat where its text is the one that stands there. Where its text is another one, it is
/// refused. Both leave the book as it was.
pub fn a_key_acts_once()
    ensures stands { (edition : Edition) (before after : List Entry) (key : Key) (command : Command)
        → JudgesBy edition before key command Accepted after
        → text_under after key ≡ Some (canonical command) }
    ensures remains { (edition : Edition) (before after : List Entry) (key other : Key)
        (text : List ℕ) (command : Command) (verdict : Verdict)
        → text_under before key ≡ Some text → JudgesBy edition before other command verdict after
        → text_under after key ≡ Some text }
    ensures repeats { (edition : Edition) (before after : List Entry) (key : Key)
        (command : Command) (verdict : Verdict)
        → text_under before key ≡ Some (canonical command)
        → JudgesBy edition before key command verdict after
        → (verdict ≡ Repeated) × (after ≡ before) }
    ensures refused { (edition : Edition) (before after : List Entry) (key : Key)
        (command : Command) (text : List ℕ) (verdict : Verdict)
        → text_under before key ≡ Some text → text ≢ canonical command
        → JudgesBy edition before key command verdict after
        → (verdict ≡ Refused KeyReused) × (after ≡ before) }
{}

/// In every book the cost of the lots of a commodity that an account holds is, in each currency, what its postings with braces
/// weigh there.
pub fn the_cost_of_lots_is_the_weight_of_their_postings()
    ensures booked { (migration : Migration) (entries : List Entry) → IsBookIn migration entries
        → (booked : List Booked) × BooksEntries migration [] entries booked }
    ensures cost { (migration : Migration) (entries : List Entry) (booked : List Booked)
        (account commodity currency : List ℕ) → BooksEntries migration [] entries booked
        → cost_in (lots_of (inventory_of (legs_of entries) account) commodity) currency
        ≡ sum_in (weights_at_cost account commodity booked) currency }
{}

/// A booked posting that takes lots away has a leg for each of them. Each leg has the sign of the posting's units, and the legs
/// add up to these units.
pub fn the_legs_of_a_sale_add_up_to_its_units()
    ensures { (line : Line) (booked : Booked) → IsBooked line booked → booked.reduces ≡ true
        → (lots : List (LotKey × ℤ)) × AreLegsOf line.amount.units lots
        × (booked.legs
        ≡ legs_at_lots line.entry line.place line.account line.amount.commodity 0 lots) }
{}

/// In every book, what was bought into a lot and what was sold of it, with its sign, add up to what is left of it. All three
/// are sums over all entries, since a lot that was sold out may be opened again under its key.
pub fn what_was_bought_into_a_lot_is_sold_or_left()
    ensures { (migration : Migration) (entries : List Entry) (booked : List Booked)
        (account commodity : List ℕ) (lot : LotKey) → BooksEntries migration [] entries booked
        → units_at (inventory_of (legs_of entries) account) (commodity, Some lot)
        ≡ bought_into booked (lot_at account commodity lot)
        +ℤ sold_of booked (lot_at account commodity lot) }
{}

/// In every book nothing is sold of a lot of an account whose method is NONE. What is held of the lot is what was bought; a
/// posting of the other sign counts with its sign.
pub fn nothing_is_sold_under_none()
    ensures { (migration : Migration) (entries : List Entry) (booked : List Booked)
        (account commodity : List ℕ) (lot : LotKey)
        → IsBookIn migration entries → BooksEntries migration [] entries booked
        → method_of (standing_of entries account) ≡ Unmatched
        → sold_of booked (lot_at account commodity lot) ≡ pos 0 }
{}

/// Commands, each under a key, are judged in one way, whichever edition judges on each book. There is one list of verdicts, and
/// one list of entries after them. These are a book where the entries before them were one.
pub fn judged_commands_make_a_book()
    ensures some { (edition : List Entry → Edition) (before : List Entry)
        (commands : List (Key × Command))
        → (verdicts : List Verdict) × (after : List Entry)
        × JudgesAllBy edition before commands verdicts after }
    ensures one { (edition : List Entry → Edition) (before : List Entry)
        (commands : List (Key × Command)) (vs ws : List Verdict) (a b : List Entry)
        → JudgesAllBy edition before commands vs a → JudgesAllBy edition before commands ws b
        → (vs ≡ ws) × (a ≡ b) }
    ensures book { (before : List Entry) (commands : List (Key × Command))
        (verdicts : List Verdict) (after : List Entry)
        → IsBook before → JudgesAll before commands verdicts after → IsBook after }
    ensures book_in { (migration : Migration) (before : List Entry)
        (commands : List (Key × Command)) (verdicts : List Verdict) (after : List Entry)
        → IsBookIn migration before → JudgesAllIn migration before commands verdicts after
        → IsBookIn migration after }
{}
