//! Laws of the definitions that the contracts of this crate cite: of what parts mean, of the first part outside its rule, and of what a
//! text says. Each is the contract of a function that does nothing.
ghost use Rattle.std.specs.Prelude.{◌≡◌, ◌⊎◌, ℕ, List};
ghost use Rattle.lot_command.specs.declared.command.Command.{Command};
ghost use Rattle.lot_read.specs.Text.{IsFaultAt, Reads};
ghost use Rattle.lot_read.specs.declared.fault.LineFault.{LineFault};
ghost use Rattle.lot_command.specs.declared.transaction.Posting.{Posting};
ghost use Rattle.lot_syntax.specs.Form.{Directive, FitsCost, FitsPerhaps, WrittenAmount, WrittenPosting};
ghost use Rattle.lot_read.specs.declared.fault.ValueFault.{ValueFault};
ghost use Rattle.lot_read.specs.Meaning.{AreInside, FirstOutside, Item, MeansHeader, MeansPosting, header_items, posting_items};

/// A list of parts has a first one outside its rule, with one fault, or all of them are within their rules.
pub fn parts_have_one_first_fault_or_none()
    ensures some { (items : List Item)
        → AreInside items ⊎ ((fault : ValueFault) × FirstOutside items fault) }
    ensures one { (items : List Item) (a b : ValueFault) → FirstOutside items a
        → FirstOutside items b → a ≡ b }
    ensures not_both { (items : List Item) (fault : ValueFault) → AreInside items
        → FirstOutside items fault → ⊥ }
{}

/// A written posting means at most one posting. A posting that has its form means one exactly where all its parts are within
/// their rules.
pub fn a_posting_means_one_posting()
    ensures one { (written : WrittenPosting) (a b : Posting) → MeansPosting written a
        → MeansPosting written b → a ≡ b }
    ensures some { (written : WrittenPosting)
        → FitsPerhaps (λ (a : WrittenAmount). FitsPerhaps FitsCost a.cost) written.amount
        → AreInside (posting_items written) → (posting : Posting) × MeansPosting written posting }
    ensures inside { (written : WrittenPosting) (posting : Posting)
        → FitsPerhaps (λ (a : WrittenAmount). FitsPerhaps FitsCost a.cost) written.amount
        → MeansPosting written posting → AreInside (posting_items written) }
{}

/// A day and a directive mean at most one command. They mean one exactly where all their parts are within their rules.
pub fn a_header_means_one_command()
    ensures one { (day : List ℕ) (directive : Directive) (a b : Command)
        → MeansHeader day directive a → MeansHeader day directive b → a ≡ b }
    ensures some { (day : List ℕ) (directive : Directive) → AreInside (header_items day directive)
        → (command : Command) × MeansHeader day directive command }
    ensures inside { (day : List ℕ) (directive : Directive) (command : Command)
        → MeansHeader day directive command → AreInside (header_items day directive) }
{}

/// Each text says one list of commands, or has one first faulty line, with one fault, and never both.
pub fn a_text_says_one_thing()
    ensures some { (text : List ℕ) → ((commands : List Command) × Reads text commands)
        ⊎ ((number : ℕ) × (fault : LineFault) × IsFaultAt text number fault) }
    ensures either { (text : List ℕ) (commands : List Command) (number : ℕ) (fault : LineFault)
        → Reads text commands → IsFaultAt text number fault → ⊥ }
    ensures commands { (text : List ℕ) (a b : List Command) → Reads text a → Reads text b → a ≡ b }
    ensures line { (text : List ℕ) (m n : ℕ) (f g : LineFault) → IsFaultAt text m f
        → IsFaultAt text n g → m ≡ n }
    ensures fault { (text : List ℕ) (m n : ℕ) (f g : LineFault) → IsFaultAt text m f
        → IsFaultAt text n g → f ≡ g }
{}
