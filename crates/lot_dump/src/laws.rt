//! Laws of the lines of a dump. Each is the contract of a function that does nothing.
ghost use Rattle.std.specs.Prelude.{◌≡◌};
ghost use Rattle.lot_report.specs.Journal.{heading};
ghost use Rattle.lot_report.specs.Printed.{line};
ghost use Rattle.lot_report.specs.Written.{IsPrefixOf};
ghost use Rattle.lot_report.specs.declared.journal.Entry.{Entry};
ghost use Rattle.lot_dump.specs.Form.{IsEnd, IsHead, IsHeading, end_front, end_text, head_front, head_text, heading_front, heading_text};
ghost use Rattle.lot_dump.specs.declared.end.End.{End};
ghost use Rattle.lot_dump.specs.declared.head.Head.{Head};
ghost use Rattle.lot_dump.specs.declared.heading.Heading.{Heading};

/// The line above each entry of a journal has the text of a heading.
pub fn a_journal_has_such_headings()
    ensures { (entry : Entry)
        → heading entry ≡ line (heading_text (record { number = entry.number; key = entry.key })) }
{}

/// A line is the text of one head, of one heading and of one end at most.
pub fn a_line_says_one_thing()
    ensures head { (a b : Head) → IsHead a → IsHead b → head_text a ≡ head_text b → a ≡ b }
    ensures heading { (a b : Heading) → IsHeading a → IsHeading b
        → heading_text a ≡ heading_text b → a ≡ b }
    ensures end { (a b : End) → IsEnd a → IsEnd b → end_text a ≡ end_text b → a ≡ b }
{}

/// Each line begins as lines do that are meant as it.
pub fn a_line_begins_as_it_is_meant()
    ensures head { (head : Head) → IsPrefixOf head_front (head_text head) }
    ensures heading { (heading : Heading) → IsPrefixOf heading_front (heading_text heading) }
    ensures end { (end : End) → IsPrefixOf end_front (end_text end) }
{}
