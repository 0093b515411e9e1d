//! Fields as texts: the blanks at their ends, and what they begin and end with.
ghost use Rattle.std.specs.Prelude.{◌≡◌, ◌≤◌, length, None, Some, MatchOption};
ghost use Rattle.lot_field.specs.Field.{before, behind, cut, is_blank, without_leading, without_trailing};

/// Returns a field without the blanks (spaces, tabs) at both its ends.
pub fn cut(field: &str) -> &str
    ensures { result.now ≡ cut field.now }
{
    let rest = past_blanks(field);
    let (inner, _) = rest.split_at(without_trailing(rest.as_bytes()).len());
    inner
}

/// Returns a text without the blanks at its start.
pub(crate) fn past_blanks(text: &str) -> &str
    ensures { result.now ≡ without_leading text.now }
{
    let bytes = text.as_bytes();
    let (_, rest) = text.split_at(bytes.len() - without_leading(bytes).len());
    rest
}

/// Returns the bytes of a field without the blanks at both its ends.
pub(crate) fn cut_bytes(field: &[u8]) -> &[u8]
    ensures { result.now ≡ cut field.now }
{
    without_trailing(without_leading(field))
}

/// Returns a text without the blanks at its start.
pub(crate) fn without_leading(text: &[u8]) -> &[u8]
    ensures value { result.now ≡ without_leading text.now }
    ensures bound { length result.now ≤ length text.now }
{
    let mut rest = text;
    while let [first, more @ ..] = rest {
        if !is_blank(*first) {
            break;
        }
        rest = more;
    }
    rest
}

/// Returns a text without the blanks at its end.
pub(crate) fn without_trailing(text: &[u8]) -> &[u8]
    ensures value { result.now ≡ without_trailing text.now }
    ensures bound { length result.now ≤ length text.now }
{
    let mut rest = text;
    while let [more @ .., last] = rest {
        if !is_blank(*last) {
            break;
        }
        rest = more;
    }
    rest
}

/// Returns whether a byte is a blank: a space or a tab.
pub(crate) fn is_blank(byte: u8) -> bool
    ensures { result ≡ is_blank byte }
{
    byte == b' ' || byte == b'\t'
}

/// Returns what stands behind a beginning of a text, or `None` where the text doesn't begin so.
pub(crate) fn behind<'a>(beginning: &[u8], text: &'a [u8]) -> Option<&'a [u8]>
    ensures { MatchOption result (behind beginning.now text.now ≡ None)
        (λ rest. behind beginning.now text.now ≡ Some rest.now) }
{
    text.strip_prefix(beginning)
}

/// Returns what stands before an end of a text, or `None` where the text doesn't end so.
pub(crate) fn before<'a>(end: &[u8], text: &'a [u8]) -> Option<&'a [u8]>
    ensures { MatchOption result (before end.now text.now ≡ None)
        (λ front. before end.now text.now ≡ Some front.now) }
{
    text.strip_suffix(end)
}
