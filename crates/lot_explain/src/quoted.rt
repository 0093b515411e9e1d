//! Texts as they are written for a shell.
ghost use Rattle.std.specs.Prelude.{◌≡◌};
ghost use Rattle.std.specs.List.{list_all};
ghost use Rattle.lot_explain.specs.Shell.{is_plain, is_plain_byte, is_shown_byte};

use std::fmt;

/// A text as it is written for a POSIX shell, which reads it back as one word: in single quotes, unless it needs none.
#[derive(Clone, Copy)]
pub struct Quoted<'a>(pub &'a str);

impl fmt::Display for Quoted<'_> {
    ghost use Rattle.std.specs.Prelude.{Some};
    ghost use Rattle.lot_explain.specs.Shell.{quoted};

    ghost output = { λ word. Some (quoted word.0.now) };

    fn fmt<W: fmt::Write>(&self, f: &mut fmt::Formatter<W>) -> Result<(), fmt::Error> {
        if is_plain(self.0) {
            return f.write_str(self.0);
        }
        f.write_str("'")?;
        let mut rest = self.0;
        while let Some((before, after)) = rest.split_once('\'') {
            f.write_str(before)?;
            f.write_str("'\\''")?;
            rest = after;
        }
        f.write_str(rest)?;
        f.write_str("'")
    }
}

/// An option with a value, as a call of the program has it. Behind a space a value that begins with a dash would be an option.
#[derive(Clone, Copy)]
pub struct LongOption<'a> {
    /// Without the dashes before it.
    pub name: &'a str,
    pub value: &'a str,
}

impl fmt::Display for LongOption<'_> {
    ghost use Rattle.std.specs.Prelude.{Some};
    ghost use Rattle.lot_explain.specs.Shell.{long_option};

    ghost output = { λ option. Some (long_option option.name.now option.value.now) };

    fn fmt<W: fmt::Write>(&self, f: &mut fmt::Formatter<W>) -> Result<(), fmt::Error> {
        let (name, value) = (self.name, Quoted(self.value));
        if self.value.starts_with('-') {
            write!(f, "--{name}={value}")
        } else {
            write!(f, "--{name} {value}")
        }
    }
}

/// Returns whether a terminal shows each byte of a text, so that it can be copied from there.
pub fn is_shown(text: &str) -> bool
    ensures { result ≡ list_all is_shown_byte text.now }
{
    text.as_bytes().iter().all(|byte| is_shown_byte(*byte))
}

/// Returns whether a terminal shows the byte: it is no control character, or a line end.
fn is_shown_byte(byte: u8) -> bool
    ensures { result ≡ is_shown_byte byte }
{
    !byte.is_ascii_control() || byte == b'\n'
}

/// Returns whether a text is a word of a shell as it is.
fn is_plain(text: &str) -> bool
    ensures { result ≡ is_plain text.now }
{
    !text.is_empty() && are_plain_bytes(text.as_bytes())
}

/// Returns whether each byte means no more than itself to a shell.
fn are_plain_bytes(bytes: &[u8]) -> bool
    ensures { result ≡ list_all is_plain_byte bytes.now }
{
    bytes.iter().all(|byte| is_plain_byte(*byte))
}

/// Returns whether the byte means no more than itself to a shell, wherever it stands in a word.
fn is_plain_byte(byte: u8) -> bool
    ensures { result ≡ is_plain_byte byte }
{
    byte.is_ascii_alphanumeric() || matches!(byte, b'-' | b'.' | b'/' | b'_')
}
