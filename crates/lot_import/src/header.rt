//! How a file with a header begins, as far as its bytes show it before it is read.
ghost use Rattle.std.specs.Prelude.{◌≡◌};
ghost use Rattle.csv.specs.Reading.{strip_bom};
ghost use Rattle.lot_import.specs.Header.{ends_line, may_begin, may_end, may_say};

/// The header of the first version, unquoted.
const FIRST: &[u8] = b"ref,date,action,symbol,units,price,currency,fee";

/// The header of the second version, unquoted.
const SECOND: &[u8] = b"ref,date,action,symbol,units,price,currency,fee,lot";

/// Returns whether a file may have a header. Its first line, behind a byte order mark and empty lines, is then a header, or
/// begins with a part of one and then a quote.
pub(crate) fn may_have_header(bytes: &[u8]) -> bool
    ensures { result ≡ may_begin (strip_bom bytes.now) }
{
    let mut text = without_mark(bytes);
    while let [first, rest @ ..] = text {
        if !ends_line(*first) {
            return may_say(FIRST, text) || may_say(SECOND, text);
        }
        text = rest;
    }
    false
}

/// Returns the bytes behind a byte order mark, if there is one.
#[tactic(auto, unfolding(csv::specs::Reading::strip_bom))]
fn without_mark(bytes: &[u8]) -> &[u8]
    ensures { result.now ≡ strip_bom bytes.now }
{
    match bytes {
        [0xef, 0xbb, 0xbf, rest @ ..] => rest,
        _ => bytes,
    }
}

/// Returns whether the byte ends a line.
fn ends_line(byte: u8) -> bool
    ensures { result ≡ ends_line byte }
{
    byte == b'\r' || byte == b'\n'
}

/// Returns whether the first line of a text is this one, or begins with a part of it and then a quote.
fn may_say(line: &[u8], text: &[u8]) -> bool
    ensures { result ≡ may_say line.now text.now }
{
    let (mut line, mut text) = (line, text);
    while let [byte, more @ ..] = line {
        match text {
            [b'"', ..] => return true,
            [first, rest @ ..] if first == byte => {
                line = more;
                text = rest;
            }
            _ => return false,
        }
    }
    may_end(text)
}

/// Returns whether a text is at its end, at that of a line, or at a quote.
fn may_end(text: &[u8]) -> bool
    ensures { result ≡ may_end text.now }
{
    match text {
        [] => true,
        [first, ..] => ends_line(*first) || *first == b'"',
    }
}
