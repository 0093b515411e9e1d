//! Laws of the parts of a dump. Each is the contract of a function that does nothing.
ghost use Rattle.std.specs.Prelude.{◌≡◌, ◌++◌, ◌∷◌, [], ℕ, List, Option, Some, flat_map};
ghost use Rattle.std.specs.Io.KnownBytes.{prepend_known};
ghost use Rattle.lot_report.specs.Printed.{line};
ghost use Rattle.lot_dump.specs.Form.{IsEnd, IsHead, end_text, head_text};
ghost use Rattle.lot_dump.specs.declared.end.End.{End};
ghost use Rattle.lot_dump.specs.declared.head.Head.{Head};
ghost use Rattle.lot_print.specs.Canonical.{IsCanonical};
ghost use Rattle.lot_parts.specs.Commands.{FaultAbove, FaultNext, IsDumpOf, IsReadTo, MayEnd};
ghost use Rattle.lot_parts.specs.Dump.{AreParts, Dump, Front, IsDump, IsFront, IsLedger, IsRest, Part, last_number, part_text, with_end, with_part};
ghost use Rattle.lot_parts.specs.Entries.{AreEntries, dump_of};
ghost use Rattle.lot_parts.specs.Reading.{Reading};
ghost use Rattle.lot_parts.specs.declared.commands.CommandFault.{CommandFault};
ghost use Rattle.lot_parts.specs.declared.dumped.Dumped.{Dumped};

/// A text is one dump at most.
pub fn there_is_one_way_to_read_a_dump()
    ensures { (text : List ℕ) (a b : Dump) → IsDump text a → IsDump text b → a ≡ b }
{}

/// What stands below a part of a dump is the rest of one dump at most.
pub fn there_is_one_way_to_read_the_rest()
    ensures { (text : List ℕ) (last : ℕ) (a b : List Part) (c d : End) → IsRest last a c text
        → IsRest last b d text → (a ≡ b) × (c ≡ d) }
{}

/// A dump is read part by part: what was taken so far is the front of it, and with the end it is the dump.
pub fn a_dump_is_read_part_by_part()
    ensures begin { (head : Head) (above : List ℕ) → IsHead head → IsLedger above
        → IsFront (line (head_text head) ++ above)
        (record { head = head; above = above; parts = [] }) }
    ensures part { (text : List ℕ) (front : Front) (part : Part) → IsFront text front
        → AreParts (last_number 0 front.parts) (part ∷ [])
        → IsFront (text ++ part_text part) (with_part front part) }
    ensures last { (front : Front) (part : Part)
        → last_number 0 (with_part front part).parts ≡ part.heading.number }
    ensures end { (text : List ℕ) (front : Front) (end : End) → IsFront text front → IsEnd end
        → IsDump (text ++ line (end_text end)) (with_end front end) }
{}

/// A dump that has one command under each heading, and none above the first, is taken: no fault says that it is none, or that a line
/// of it is faulty.
pub fn a_dump_of_commands_is_taken()
    ensures above { (text : List ℕ) (dump : Dump) (commands : List Dumped)
        → IsDumpOf text dump commands
        → (fault : CommandFault) → FaultAbove (Some text) fault → MayEnd fault }
    ensures next { (text : List ℕ) (dump : Dump) (commands : List Dumped)
        → IsDumpOf text dump commands
        → (now : Option (List ℕ)) (reading : Reading) (front : Front) (before : List Dumped)
        → IsReadTo (Some text) now reading front before
        → (fault : CommandFault) → FaultNext (prepend_known reading.ahead now) reading fault
        → MayEnd fault }
{}

/// The canonical text of a command is ledger text: no line of it is meant as a head, a heading or an end.
pub fn a_canonical_text_is_ledger_text()
    ensures { (text : List ℕ) → IsCanonical text → IsLedger text }
{}

/// The head of a dump, the entries of a book, each under its heading, and the end are a dump whose parts these entries are.
pub fn the_dump_of_a_book_has_its_entries()
    ensures { (head : Head) (entries : List Part) (end : End)
        → IsHead head → AreEntries 1 entries → IsEnd end
        → IsDump (line (head_text head) ++ (flat_map part_text entries ++ line (end_text end)))
        (dump_of head entries end) }
{}
