ghost use Rattle.std.specs.Prelude.{◌≡◌, ◌↔◌};
ghost use Rattle.lot_report.specs.Written.{IsPrefixOf};
ghost use Rattle.lot_dump.specs.Form.{end_front, head_front, heading_front};

/// What a line of a dump is meant as, by what it begins with.
#[derive(Clone, Copy, Debug, PartialEq, Eq)]
pub enum Kind {
    /// It begins with `; lotbook dump `, as a head.
    Head,
    /// It begins with `; entry `, as the heading of an entry.
    Heading,
    /// It begins with `; end `, as the end.
    End,
    /// It is ledger text: a directive, a posting, a comment, or blank.
    Text,
}

/// Returns what a line is meant as. It may be of another form, and is none of these then.
pub fn kind_of(line: &[u8]) -> Kind
    ensures head { (result ≡ Kind.Head) ↔ IsPrefixOf head_front line.now }
    ensures heading { (result ≡ Kind.Heading) ↔ IsPrefixOf heading_front line.now }
    ensures end { (result ≡ Kind.End) ↔ IsPrefixOf end_front line.now }
{
    if line.starts_with(b"; lotbook dump ") {
        Kind::Head
    } else if line.starts_with(b"; entry ") {
        Kind::Heading
    } else if line.starts_with(b"; end ") {
        Kind::End
    } else {
        Kind::Text
    }
}
