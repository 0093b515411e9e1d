//! Each faulty line of a ledger text, and each faulty row of a broker file.

use crate::commodity::nearest_commodity;
use crate::culprit::{Culprit, Sense, before, culprit_of, judge};
use crate::explained::find;
use crate::fact::number_fault;
use crate::notebook::Notebook;
use crate::place::InputPlace;
use crate::records::{Records, column};
use crate::shown::Shown;
use crate::site::{Kind, Site, is_indented, kind_of};
use lot_import::Cause;
use lot_read::LineFault;
use lot_syntax::Lines;
use std::alloc::{AllocError, Global};
use std::io::{self, Write};

/// What a commodity is.
const COMMODITY: &str =
    "at most 24 of A-Z, 0-9 and ' . _ -, a letter first, a letter or a digit last";

/// Notes each faulty line of a ledger text.
pub(crate) fn faulty_lines<W: Write>(
    alloc: Global,
    notes: &mut Notebook<'_, W>,
    text: &[u8],
) -> io::Result<()> {
    let mut number = 0u64;
    let mut sense = Sense::Other;
    for line in Lines::new(text) {
        number = number.saturating_add(1);
        sense = faulty_line(alloc, notes, Site { number, line }, sense)?;
    }
    Ok(())
}

/// Notes a line, if it is faulty, behind lines of that sense, and returns their sense with it.
/// Behind a faulty line that isn't indented postings may stand: it may have been meant as a
/// transaction.
fn faulty_line<W: Write>(
    alloc: Global,
    notes: &mut Notebook<'_, W>,
    site: Site<'_>,
    sense: Sense,
) -> io::Result<Sense> {
    let line = site.line;
    let before = match sense {
        Sense::Transaction => before(line),
        Sense::Other => b"\n",
    };
    match judge(alloc, before, line, b"")? {
        Ok(said) => Ok(match kind_of(line) {
            Kind::Begins => said,
            Kind::Posts | Kind::Other => sense,
        }),
        Err(fault) => {
            note_line(alloc, notes, site, fault)?;
            Ok(if is_indented(line) {
                sense
            } else {
                Sense::Transaction
            })
        }
    }
}

/// Notes a line with that fault.
fn note_line<W: Write>(
    alloc: Global,
    notes: &mut Notebook<'_, W>,
    site: Site<'_>,
    fault: LineFault,
) -> io::Result<()> {
    let Some(code) = find(code_of(fault)) else {
        return Ok(());
    };
    if !notes.has_room() {
        notes.pass(1);
        return Ok(());
    }
    let Site { number, line } = site;
    let brief = code.brief;
    let fact = fact_of(alloc, culprit_of(alloc, line, fault)?, fault)?;
    let place = InputPlace::Line { number, line };
    notes.note(place, format_args!("{code}: {brief}{fact}"))
}

/// Returns the code of a fault.
fn code_of(fault: LineFault) -> &'static str {
    match fault {
        LineFault::NotUtf8 => "X1",
        LineFault::Syntax => "X2",
        LineFault::UnknownDirective => "X3",
        LineFault::BadNumber => "X4",
        LineFault::BadName => "X5",
        LineFault::BadDay => "X6",
        LineFault::TooLong => "X7",
    }
}

/// Says what of a line with that fault is at fault, and of a number why.
fn fact_of(alloc: Global, culprit: Culprit<'_>, fault: LineFault) -> Result<String, AllocError> {
    match culprit {
        Culprit::Part { column, text } => {
            let shown = Shown(text.as_bytes());
            match number_fault(text) {
                Some(why) if matches!(fault, LineFault::BadNumber) => {
                    format!(in alloc; ": {why}: column {column}: `{shown}`")
                }
                _ => format!(in alloc; ": column {column}: `{shown}`"),
            }
        }
        Culprit::End => String::from_str(alloc, ": the line ends too early"),
        Culprit::InputPlace => String::from_str(alloc, ": no transaction is before this posting"),
        Culprit::Unknown => Ok(String::new(alloc)),
    }
}

/// Notes each faulty row of a broker file.
pub(crate) fn faulty_rows<W: Write>(
    alloc: Global,
    notes: &mut Notebook<'_, W>,
    file: &[u8],
) -> io::Result<()> {
    let mut records = Records::new(alloc, file)?;
    for _byte in 0..file.len() {
        if !records.next_row()? {
            break;
        }
        let causes = records.causes()?;
        if !causes.is_empty() {
            note_row(alloc, notes, &records, &causes)?;
        }
    }
    Ok(())
}

/// Notes the last row, which is faulty for these causes.
fn note_row<W: Write>(
    alloc: Global,
    notes: &mut Notebook<'_, W>,
    records: &Records<'_>,
    causes: &[Cause],
) -> io::Result<()> {
    let Some(code) = find("C2") else {
        return Ok(());
    };
    if !notes.has_room() {
        notes.pass(1);
        return Ok(());
    }
    let mut text = String::new(alloc);
    for cause in causes {
        text.push_str(if text.is_empty() { ": " } else { "; " })?;
        text.push_str(told(alloc, records, *cause)?.as_str())?;
    }
    let brief = code.brief;
    notes.note(records.place(), format_args!("{code}: {brief}{text}"))
}

/// Says for what cause the last row is faulty, and shows the field.
fn told(alloc: Global, records: &Records<'_>, cause: Cause) -> Result<String, AllocError> {
    let Some(column) = column(cause) else {
        let count = records.record.len();
        return format!(in alloc; "{cause}: {count}");
    };
    let field = records.field(column);
    let shown = Shown(field);
    match cause {
        Cause::Symbol | Cause::Currency => {
            let near = near(alloc, field)?;
            format!(in alloc; "{cause} ({COMMODITY}): `{shown}`{near}")
        }
        Cause::Lot if records.is_of_another_lot(field) => {
            format!(in alloc; "lot isn't the ref of the purchase: `{shown}`")
        }
        _ => format!(in alloc; "{cause}: `{shown}`"),
    }
}

/// Says which commodity is near to a field, where one is.
fn near(alloc: Global, field: &[u8]) -> Result<String, AllocError> {
    match nearest_commodity(alloc, field)? {
        Some(commodity) => {
            let name = commodity.as_str();
            format!(in alloc; ": the nearest is {name}")
        }
        None => Ok(String::new(alloc)),
    }
}
