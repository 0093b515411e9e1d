//! Laws of the answer to an input, which the contracts of this crate cite. Each is the contract of a function that does
//! nothing.
ghost use Rattle.std.specs.Prelude.{◌≡◌, ℕ, List};
ghost use Rattle.lot_check.specs.Answer.{AreLines, AreReplies, IsAnswer, RunsOut};
ghost use Rattle.lot_report.specs.Written.{IsPrefixOf};

/// An input has one answer. The replies to the first commands are a prefix of it, and so are all replies with the first lines
/// of the report: these are written where the writer fails. The lines that are kept where memory ends are a prefix of it, too.
pub fn an_input_has_one_answer()
    ensures one { (input a b : List ℕ) (s t : ℕ) → IsAnswer input a s → IsAnswer input b t
        → (a ≡ b) × (s ≡ t) }
    ensures replies { (input part text : List ℕ) (status : ℕ)
        → AreReplies input part → IsAnswer input text status → IsPrefixOf part text }
    ensures lines { (input part text : List ℕ) (status : ℕ)
        → AreLines input part → IsAnswer input text status → IsPrefixOf part text }
    ensures memory { (input kept last text : List ℕ) (status : ℕ)
        → RunsOut input kept last → IsAnswer input text status → IsPrefixOf kept text }
{}
