//! Laws of steps: the outcome of a command on what a book says. The program judges by edition 2. Entries up to a place of
//! migration were judged by edition 1.
ghost use Rattle.std.specs.Prelude.{◌≡◌, List};
ghost use Rattle.lot_command.specs.declared.command.Command.{Command};
ghost use Rattle.lot_command.specs.declared.key.Key.{Key};
ghost use Rattle.lot_book.specs.Agree.{Agrees};
ghost use Rattle.lot_book.specs.Booking.{all_by_key};
ghost use Rattle.lot_book.specs.Edition.{Edition};
ghost use Rattle.lot_book.specs.Facts.{Entry, Facts};
ghost use Rattle.lot_book.specs.Openings.{AgreesWithOpenings, DecidesByOpening, FactsWithOpenings};
ghost use Rattle.lot_book.specs.Step.{DecidesUnder, Outcome, StepIn};

/// By each edition, a command with a key has exactly one outcome on every book. It is accepted with one list of legs, it
/// repeats an entry, or it is refused for one cause.
pub fn a_step_has_one_outcome()
    ensures some { (edition : Edition) (book : List Entry) (key : Key) (command : Command)
        → (outcome : Outcome) × StepIn edition book key command outcome }
    ensures one { (edition : Edition) (book : List Entry) (key : Key) (command : Command)
        (a b : Outcome)
        → StepIn edition book key command a → StepIn edition book key command b → a ≡ b }
{}

/// The outcome of a command depends only on what it looks at: facts that agree on that give the same outcome. By edition 2 it
/// looks at all that it looks at by edition 1, and at the opening numbers of the lots that are held where it posts.
pub fn a_step_looks_at_what_a_command_touches()
    ensures by_opening { (a b : FactsWithOpenings) (command : Command) (outcome : Outcome)
        → AgreesWithOpenings a b command
        → DecidesByOpening a command outcome → DecidesByOpening b command outcome }
    ensures by_key { (a b : Facts) (command : Command) (outcome : Outcome) → Agrees a b command
        → DecidesUnder all_by_key a command outcome → DecidesUnder all_by_key b command outcome }
{}
