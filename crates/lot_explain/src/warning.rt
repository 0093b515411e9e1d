//! What is read otherwise than it may have been meant, though no rule is broken.

use crate::commas::{Column, Commas, first_with_comma};
use crate::known::Known;
use crate::notebook::Notebook;
use crate::place::InputPlace;
use crate::records::{FEE, PRICE, Records, UNITS};
use crate::shown::Shown;
use crate::site::{Kind, commands_in, is_indented, kind_of};
use crate::transcript::Transcript;
use lot_command::{Command, Opening};
use lot_cost::Method;
use lot_import::Row;
use lot_num::Units;
use lot_read::{TextFault, read};
use lot_syntax::{Lines, Tokens};
use memchr::memchr;
use std::alloc::{AllocError, Global};
use std::collections::BTreeMap;
use std::io::{self, Write};
use std::{fmt, str};

/// What helps where numbers of a broker file have a comma.
const OF_IMPORT: &str =
    "; try --all-or-none --dry-run first, or a profile that says what the comma is";

/// The column of the units of a statement, counted from 0.
const STATED_UNITS: usize = 1;

/// Warns of lines of a ledger text, and of a start past its end.
pub(crate) fn warn_of_text<W: Write>(
    alloc: Global,
    notes: &mut Notebook<'_, W>,
    known: &Known,
    transcript: &Transcript<'_>,
) -> io::Result<()> {
    let has_commas = memchr(b',', transcript.input).is_some();
    let mut number = 0u64;
    for line in Lines::new(transcript.input) {
        number = number.saturating_add(1);
        let place = InputPlace::Line { number, line };
        if matches!(first_letter(line), Some(b'o' | b'c')) {
            warn_of_command(alloc, notes, known, place, line)?;
        }
        if has_commas && let Some(number) = number_with_comma(line) {
            warn_of_number(alloc, notes, place, number)?;
        }
    }
    if transcript.from > 1 {
        warn_of_start(
            notes,
            transcript.from,
            commands_in(transcript.input),
            "commands",
        )?;
    }
    Ok(())
}

/// Returns whether a line may be a closing: the word behind its date has the first letter of one. Other lines aren't read.
pub(crate) fn may_close(line: &[u8]) -> bool {
    first_letter(line) == Some(b'c')
}

/// Returns the first byte of the word behind the date of a line that isn't indented.
fn first_letter(line: &[u8]) -> Option<u8> {
    if is_indented(line) {
        return None;
    }
    for byte in line {
        match *byte {
            b'0'..=b'9' | b'-' | b'/' | b' ' | b'\t' => {}
            first => return Some(first),
        }
    }
    None
}

/// Warns of a line on which a command begins: of a method that stands among the currencies of an
/// opening, and of the closing of an account that holds something.
fn warn_of_command<W: Write>(
    alloc: Global,
    notes: &mut Notebook<'_, W>,
    known: &Known,
    place: InputPlace<'_>,
    line: &[u8],
) -> io::Result<()> {
    let commands = match read(alloc, line) {
        Ok(commands) => commands,
        Err(TextFault::Line { .. }) => return Ok(()),
        Err(TextFault::Memory { .. }) => return Err(AllocError.into()),
    };
    match commands.first() {
        Some(Command::Opening(opening)) => warn_of_method(notes, place, opening),
        Some(Command::Closing(closing)) => match known.locked(&closing.account)? {
            Some(commodity) => {
                let commodity = commodity.as_str();
                notes.note(
                    place,
                    format_args!("warning: the account is closed, and still holds {commodity}"),
                )
            }
            None => Ok(()),
        },
        _ => Ok(()),
    }
}

/// Warns of a method that stands among the currencies of an opening.
fn warn_of_method<W: Write>(
    notes: &mut Notebook<'_, W>,
    place: InputPlace<'_>,
    opening: &Opening,
) -> io::Result<()> {
    for currency in opening.currencies.as_slice() {
        if let Some(method) = Method::from_name(currency.as_str()) {
            let word = method.name();
            return notes.note(
                place,
                format_args!(
                    "warning: {word} is read as a currency: the method of an account stands in quotes"
                ),
            );
        }
    }
    Ok(())
}

/// Returns the first number with a comma of a line that isn't skipped.
fn number_with_comma(line: &[u8]) -> Option<&str> {
    memchr(b',', line)?;
    if matches!(kind_of(line), Kind::Other) {
        return None;
    }
    first_with_comma(Tokens::new(str::from_utf8(line).ok()?).ok()?)
}

/// Warns of a number with a comma.
fn warn_of_number<W: Write>(
    alloc: Global,
    notes: &mut Notebook<'_, W>,
    place: InputPlace<'_>,
    number: &str,
) -> io::Result<()> {
    let Ok(units) = Units::parse(number) else {
        return Ok(());
    };
    let value = units.text(alloc)?;
    let value = value.as_str();
    notes.note(
        place,
        format_args!(
            "warning: {number} is read as {value}: commas are skipped, decimals stand behind a point"
        ),
    )
}

/// Warns of a start past the end of an input that has so many of these.
fn warn_of_start<W: Write>(
    notes: &mut Notebook<'_, W>,
    from: u32,
    count: usize,
    these: &str,
) -> io::Result<()> {
    if u64::from(from) <= (count as u64).max(1) {
        return Ok(());
    }
    notes.note(
        InputPlace::Whole,
        format_args!("warning: --from {from} is past the end of {count} {these}: none was run"),
    )
}

/// Warns of a broker file as a whole, of its columns, and then of its rows, without the rows that are
/// left out. Of a faulty file, and of one without rows, it says nothing.
pub(crate) fn warn_of_rows<W: Write>(
    alloc: Global,
    notes: &mut Notebook<'_, W>,
    transcript: &Transcript<'_>,
    rows: &[Row],
) -> io::Result<()> {
    if rows.is_empty() {
        return Ok(());
    }
    warn_of_order(alloc, notes, transcript, rows)?;
    warn_of_start(notes, transcript.from, rows.len(), "rows")?;
    warn_of_commas(alloc, notes, transcript, rows)?;
    warn_of_refs(alloc, notes, transcript, rows)
}

/// Warns of rows that are newest first.
fn warn_of_order<W: Write>(
    alloc: Global,
    notes: &mut Notebook<'_, W>,
    transcript: &Transcript<'_>,
    rows: &[Row],
) -> io::Result<()> {
    let (Some(first), Some(last)) = ends(transcript, rows) else {
        return Ok(());
    };
    if first.day <= last.day {
        return Ok(());
    }
    let (first, last) = (first.day.text(alloc)?, last.day.text(alloc)?);
    let (first, last) = (first.as_str(), last.as_str());
    notes.note(
        InputPlace::Whole,
        format_args!(
            "warning: the first row is of {first}, the last of {last}: rows stand in the order of their days, the oldest first"
        ),
    )
}

/// Returns the first and the last of the rows that aren't left out.
fn ends<'a>(transcript: &Transcript<'_>, rows: &'a [Row]) -> (Option<&'a Row>, Option<&'a Row>) {
    let (mut first, mut last) = (None, None);
    for row in rows {
        if !transcript.leaves_out(row) {
            first = first.or(Some(row));
            last = Some(row);
        }
    }
    (first, last)
}

/// Warns of each column of numbers in which a number has a comma, at the first such row.
fn warn_of_commas<W: Write>(
    alloc: Global,
    notes: &mut Notebook<'_, W>,
    transcript: &Transcript<'_>,
    rows: &[Row],
) -> io::Result<()> {
    // A field with a comma stands in quotes.
    if memchr(b'"', transcript.input).is_none() {
        return Ok(());
    }
    let commas = commas_in(alloc, transcript, rows)?;
    for (name, place, column) in [
        ("units", UNITS, commas.units),
        ("price", PRICE, commas.price),
        ("fee", FEE, commas.fee),
    ] {
        if let Some(first) = column.first {
            let mut records = Records::new(alloc, transcript.input)?;
            records.go_to(first)?;
            warn_of_column(alloc, notes, &records, name, place, column.more, OF_IMPORT)?;
        }
    }
    Ok(())
}

/// Warns of the units of a statement, where a number has a comma, at the first such row. Of a faulty statement it says nothing.
pub(crate) fn warn_of_statement<W: Write>(
    alloc: Global,
    notes: &mut Notebook<'_, W>,
    transcript: &Transcript<'_>,
) -> io::Result<()> {
    let file = transcript.input;
    // A field with a comma stands in quotes.
    if !transcript.lines.is_empty() || memchr(b'"', file).is_none() {
        return Ok(());
    }
    let column = commas_of_statement(alloc, file)?;
    if let Some(first) = column.first {
        let mut records = Records::new(alloc, file)?;
        records.go_to(first)?;
        warn_of_column(
            alloc,
            notes,
            &records,
            "units",
            STATED_UNITS,
            column.more,
            "",
        )?;
    }
    Ok(())
}

/// Returns in which rows of a statement the units have a comma. The only error is out of memory.
fn commas_of_statement(alloc: Global, file: &[u8]) -> Result<Column, AllocError> {
    let mut records = Records::new(alloc, file)?;
    let mut column = Column::NONE;
    for _byte in 0..file.len() {
        if !records.next_row()? {
            break;
        }
        column = column.with(records.row, records.field(STATED_UNITS));
    }
    Ok(column)
}

/// Returns in which columns of a file with these rows numbers have a comma, without those that are
/// left out. The only error is out of memory.
fn commas_in(
    alloc: Global,
    transcript: &Transcript<'_>,
    rows: &[Row],
) -> Result<Commas, AllocError> {
    let mut records = Records::new(alloc, transcript.input)?;
    let mut commas = Commas::NONE;
    for row in rows {
        records.next_row()?;
        if !transcript.leaves_out(row) {
            commas = commas.with(records.row, &records.record);
        }
    }
    Ok(commas)
}

/// Warns of a column of numbers, of which the last row is the first with a comma, and so many more
/// have one; and says what helps.
fn warn_of_column<W: Write>(
    alloc: Global,
    notes: &mut Notebook<'_, W>,
    records: &Records<'_>,
    name: &str,
    place: usize,
    more: usize,
    help: &str,
) -> io::Result<()> {
    let field = records.field(place);
    let (shown, others) = (Shown(field), Others(more));
    if let Ok(number) = str::from_utf8(field)
        && let Ok(units) = Units::parse(number)
    {
        let value = units.text(alloc)?;
        let value = value.as_str();
        return notes.note(
            records.place(),
            format_args!(
                "warning: {name} {shown} is read as {value}: commas are skipped, decimals stand behind a point{others}{help}"
            ),
        );
    }
    Ok(())
}

/// How many more rows have a comma in a column, as it is written behind what is said of the first.
#[derive(Clone, Copy)]
struct Others(usize);

impl fmt::Display for Others {
    fn fmt<W: fmt::Write>(&self, f: &mut fmt::Formatter<W>) -> fmt::Result {
        match self.0 {
            0 => Ok(()),
            1 => f.write_str("; 1 more row has a comma there"),
            more => write!(f, "; {more} more rows have a comma there"),
        }
    }
}

/// Warns of each row whose `ref` an earlier row has.
fn warn_of_refs<W: Write>(
    alloc: Global,
    notes: &mut Notebook<'_, W>,
    transcript: &Transcript<'_>,
    rows: &[Row],
) -> io::Result<()> {
    let mut records = Records::new(alloc, transcript.input)?;
    let mut seen = BTreeMap::new(alloc);
    for row in rows {
        records.next_row()?;
        if transcript.leaves_out(row) {
            continue;
        }
        if let Some(before) = seen.insert(row.name.as_str(), records.row)? {
            notes.note(
                records.place(),
                format_args!(
                    "warning: row {before} has this ref, too: a deal is known by it, so this one is a repeat or refused"
                ),
            )?;
        }
    }
    Ok(())
}
