//! What there is to say of a code.

ghost use Rattle.std.specs.Prelude.{◌≡◌, IfOk, OnOk, option_copied};
ghost use Rattle.std.specs.Io.KnownBytes.{Appends};
ghost use Rattle.std.specs.List.{find, flat_map, list_any};
ghost use Rattle.lot_explain.specs.Codes.{is_cause, is_named, some_named};
ghost use Rattle.lot_explain.specs.Explained.{Explains, Lists, both_examples, cause_text, cause_texts_of, code_line, code_text, examples_text, explanation_of, indented, indented_line, lines_among, names_one, text_if_cause, text_if_named, texts_among, texts_of};

use crate::causes::{CAUSES, Cause, causes};
use crate::codes::{Code, Examples, tables};
use crate::nearest::nearest;
use crate::shown::Wrapped;
use std::alloc::{AllocError, Global};
use std::io::{self, Write};

/// Writes the explanation of each code that a word names, by its code or its name, and of each cause of a faulty row, by its name,
/// in any letter case. Returns whether it names one. If it names none, nothing is written.
pub fn explain<W: Write>(writer: &mut W, word: &str) -> io::Result<bool>
    ensures { IfOk result (Explains word.now (W.contents writer.old) (W.contents writer.new)) }
{
    explain_all(writer, &tables(), causes(), word)
}

/// Does the same with the codes of some tables and with some causes.
fn explain_all<W: Write>(
    writer: &mut W,
    tables: &[&[Code]],
    causes: &[Cause],
    word: &str,
) -> io::Result<bool>
    ensures flag { IfOk result (λ told. told ≡ names_one word.now tables.now causes.now) }
    ensures text { OnOk result (Appends (W.contents writer.old) (W.contents writer.new)
        (explanation_of word.now tables.now causes.now)) }
{
    let names_code = explain_among(writer, tables, word)?;
    let names_cause = explain_causes(writer, causes, word)?;
    writer.flush()?;
    Ok(names_code || names_cause)
}

/// Does the same with the codes of some tables.
fn explain_among<W: Write>(writer: &mut W, tables: &[&[Code]], word: &str) -> io::Result<bool>
    ensures flag { IfOk result (λ told. told ≡ some_named word.now tables.now) }
    ensures text { OnOk result (Appends (W.contents writer.old) (W.contents writer.new)
        (texts_among word.now tables.now)) }
{
    let mut names_one = false;
    for table in tables {
        if explain_in(writer, table, word)? {
            names_one = true;
        }
    }
    Ok(names_one)
}

/// Does the same with the codes of a table.
fn explain_in<W: Write>(writer: &mut W, table: &[Code], word: &str) -> io::Result<bool>
    ensures flag { IfOk result (λ told. told ≡ list_any (is_named word.now) table.now) }
    ensures text { OnOk result (Appends (W.contents writer.old) (W.contents writer.new)
        (texts_of word.now table.now)) }
{
    for code in table {
        explain_code(writer, code, word)?;
    }
    Ok(table.iter().any(|code| code.is_named(word)))
}

/// Writes the explanation of a code, if a word names it.
fn explain_code<W: Write>(writer: &mut W, code: &Code, word: &str) -> io::Result<()>
    ensures { OnOk result (Appends (W.contents writer.old) (W.contents writer.new)
        (text_if_named word.now code.now)) }
{
    if !code.is_named(word) {
        return Ok(());
    }
    write_code(writer, code)?;
    Ok(())
}

/// Does the same with some causes.
fn explain_causes<W: Write>(writer: &mut W, causes: &[Cause], word: &str) -> io::Result<bool>
    ensures flag { IfOk result (λ told. told ≡ list_any (is_cause word.now) causes.now) }
    ensures text { OnOk result (Appends (W.contents writer.old) (W.contents writer.new)
        (cause_texts_of word.now causes.now)) }
{
    for cause in causes {
        explain_cause(writer, cause, word)?;
    }
    Ok(causes.iter().any(|cause| cause.is_named(word)))
}

/// Writes the explanation of a cause, if a word names it.
fn explain_cause<W: Write>(writer: &mut W, cause: &Cause, word: &str) -> io::Result<()>
    ensures { OnOk result (Appends (W.contents writer.old) (W.contents writer.new)
        (text_if_cause word.now cause.now)) }
{
    if !cause.is_named(word) {
        return Ok(());
    }
    write_cause(writer, cause)?;
    Ok(())
}

/// Writes all codes, a line each.
pub fn list<W: Write>(writer: &mut W) -> io::Result<()>
    ensures { OnOk result (Lists (W.contents writer.old) (W.contents writer.new)) }
{
    list_among(writer, &tables())?;
    writer.flush()
}

/// Does the same with the codes of some tables.
fn list_among<W: Write>(writer: &mut W, tables: &[&[Code]]) -> io::Result<()>
    ensures { OnOk result (Appends (W.contents writer.old) (W.contents writer.new)
        (lines_among tables.now)) }
{
    for table in tables {
        list_in(writer, table)?;
    }
    Ok(())
}

/// Does the same with the codes of a table.
fn list_in<W: Write>(writer: &mut W, table: &[Code]) -> io::Result<()>
    ensures { OnOk result (Appends (W.contents writer.old) (W.contents writer.new)
        (flat_map code_line table.now)) }
{
    for code in table {
        let brief = code.brief;
        writeln!(writer, "{code}: {brief}")?;
    }
    Ok(())
}

/// Returns the first code that a word names.
pub(crate) fn find(word: &str) -> Option<&'static Code> {
    for table in tables() {
        if let Some(code) = find_in(table, word) {
            return Some(code);
        }
    }
    None
}

/// Returns the first code of a table that a word names.
fn find_in<'a>(table: &'a [Code], word: &str) -> Option<&'a Code>
    ensures { option_copied result ≡ find (is_named word.now) table.now }
{
    for code in table {
        if code.is_named(word) {
            return Some(code);
        }
    }
    None
}

/// Returns the cause of a faulty row that a word names.
pub fn cause_of(word: &str) -> Option<&'static Cause> {
    CAUSES.iter().find(|cause| cause.is_named(word))
}

/// Returns the code, the name of one or that of a cause that is nearest to a word. The only error is out of memory.
pub fn nearest_code(alloc: Global, word: &str) -> Result<&str, AllocError> {
    let mut names = Vec::new(alloc);
    for code in tables().into_iter().flatten() {
        names.push(code.code)?;
        names.push(code.name)?;
    }
    for cause in &CAUSES {
        names.push(cause.name)?;
    }
    Ok(nearest(alloc, word, &names)?.unwrap_or(word))
}

impl Code {
    /// Returns whether a word is the code or the name, in any letter case.
    fn is_named(&self, word: &str) -> bool
        ensures { result ≡ is_named word.now self.now }
    {
        self.code.eq_ignore_ascii_case(word) || self.name.eq_ignore_ascii_case(word)
    }
}

impl Cause {
    /// Returns whether a word is the name, in any letter case.
    fn is_named(&self, word: &str) -> bool
        ensures { result ≡ is_cause word.now self.now }
    {
        self.name.eq_ignore_ascii_case(word)
    }
}

/// Writes what there is to say of a cause.
fn write_cause<W: Write>(writer: &mut W, cause: &Cause) -> io::Result<()>
    ensures { OnOk result (Appends (W.contents writer.old) (W.contents writer.new)
        (cause_text cause.now)) }
{
    let (brief, help) = (cause.brief, Wrapped(cause.help));
    write!(
        writer,
        "{cause}: {brief}\n\nWhat helps:\n\n{help}\nRead on: docs/FORMATS.md, Faults\n\n"
    )
}

/// Writes what there is to say of a code.
fn write_code<W: Write>(writer: &mut W, code: &Code) -> io::Result<()>
    ensures { OnOk result (Appends (W.contents writer.old) (W.contents writer.new)
        (code_text code.now)) }
{
    let (brief, page) = (code.brief, code.page);
    let (rule, help) = (Wrapped(code.rule), Wrapped(code.help));
    write!(writer, "{code}: {brief}\n\n{rule}\n")?;
    write_examples(writer, &code.examples)?;
    write!(writer, "What helps:\n\n{help}\nRead on: {page}\n\n")
}

/// Writes what gets a code, and what gets none.
fn write_examples<W: Write>(writer: &mut W, examples: &Examples) -> io::Result<()>
    ensures { OnOk result (Appends (W.contents writer.old) (W.contents writer.new)
        (examples_text examples.now)) }
{
    match examples {
        Examples::Ledger { refused, accepted } => {
            write_both(writer, "ledger text", refused, accepted)
        }
        Examples::Rows { refused, accepted } => {
            write_both(writer, "a broker file", refused, accepted)
        }
        Examples::Calls { refused, accepted } => write_both(writer, "calls", refused, accepted),
        Examples::Absent => Ok(()),
    }
}

/// Does the same with two examples of a kind.
fn write_both<W: Write>(writer: &mut W, what: &str, refused: &str, accepted: &str) -> io::Result<()>
    ensures { OnOk result (Appends (W.contents writer.old) (W.contents writer.new)
        (both_examples what.now refused.now accepted.now)) }
{
    write!(writer, "Refused, {what}:\n\n")?;
    write_indented(writer, refused)?;
    write!(writer, "Accepted:\n\n")?;
    write_indented(writer, accepted)
}

/// Writes the lines of an example, indented by four columns, and an empty line.
fn write_indented<W: Write>(writer: &mut W, text: &str) -> io::Result<()>
    ensures { OnOk result (Appends (W.contents writer.old) (W.contents writer.new)
        (indented text.now)) }
{
    for line in text.split('\n') {
        write_line(writer, line)?;
    }
    writer.write_all(b"\n")
}

/// Writes a line of an example, if there is something on it.
fn write_line<W: Write>(writer: &mut W, line: &str) -> io::Result<()>
    ensures { OnOk result (Appends (W.contents writer.old) (W.contents writer.new)
        (indented_line line.now)) }
{
    if line.is_empty() {
        return Ok(());
    }
    writeln!(writer, "    {line}")
}
