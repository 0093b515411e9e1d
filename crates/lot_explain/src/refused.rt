//! Each refused command of a ledger text, each refused row of a broker file, and what a run stopped
//! at.

ghost use Rattle.std.specs.Prelude.{◌≡◌, option_map};
ghost use Rattle.lot_explain.specs.Cause.{behind, known_of};

use crate::crumbs::crumbs;
use crate::explained::find;
use crate::export::{ExportRow, row_at};
use crate::fact::{cash, fact, named, row_cash};
use crate::faulty::{faulty_lines, faulty_rows};
use crate::finding::Finding;
use crate::known::Known;
use crate::left_out::is_only;
use crate::notebook::Notebook;
use crate::place::InputPlace;
use crate::quoted::LongOption;
use crate::reading::Reading;
use crate::said::{Said, heard};
use crate::shown::Shown;
use crate::transcript::{Key, Naming, Transcript};
use lot_command::{Command, Key as CommandKey};
use lot_import::{CommandFault, Row, command};
use lot_rounding::{Asked, Rounding, RowCash};
use lot_syntax::Lines;
use std::alloc::{AllocError, Global};
use std::io::{self, Write};

/// A command that was refused.
#[derive(Clone, Copy)]
pub(crate) struct Refused<'a> {
    pub(crate) key: Key<'a>,
    pub(crate) command: &'a Command,
    pub(crate) said: &'a Said<'a>,
    /// All commands of the ledger text that it stands in.
    pub(crate) commands: &'a [Command],
    /// Of a row whose cash isn't rounded, what that is.
    pub(crate) cash: Option<RowCash>,
    /// The account that takes crumbs, where one does.
    pub(crate) rounding: Option<&'a Rounding>,
    /// What names that account.
    pub(crate) naming: Naming,
    /// What was found of its crumbs.
    pub(crate) finding: Option<&'a Finding>,
}

/// Notes each refusal and each fault that a call said.
pub(crate) fn note_lines<W: Write>(
    alloc: Global,
    notes: &mut Notebook<'_, W>,
    known: &Known,
    transcript: &Transcript<'_>,
    reading: &mut Reading<'_>,
) -> io::Result<()> {
    for line in Lines::new(transcript.lines) {
        match heard(line) {
            Some(said) if said.code.starts_with('X') && !matches!(reading, Reading::Dump) => {
                faulty_lines(alloc, notes, transcript.input)?;
            }
            // What is wrong with an export is said by who knows its profile, and with a statement beside this.
            Some(said)
                if said.code.starts_with('C')
                    && matches!(reading, Reading::Export { .. } | Reading::Statement) => {}
            Some(said) if said.code == "C2" => faulty_rows(alloc, notes, transcript.input)?,
            Some(said) => note_said(alloc, notes, known, transcript, reading, &said)?,
            None => {}
        }
    }
    notes.pass(transcript.left_out);
    Ok(())
}

/// Notes what was said of a command or a row, or of the whole input. It leaves out faults of a book
/// that can't be opened or taken up: the program says more of these.
fn note_said<W: Write>(
    alloc: Global,
    notes: &mut Notebook<'_, W>,
    known: &Known,
    transcript: &Transcript<'_>,
    reading: &mut Reading<'_>,
    said: &Said<'_>,
) -> io::Result<()> {
    let Some(code) = find(said.code) else {
        return Ok(());
    };
    let brief = code.brief;
    match said.number {
        None if matches!(said.code, "open" | "S1" | "S3") => Ok(()),
        None if said.code == "C1" => {
            let header = Shown(reading.header());
            notes.note(
                InputPlace::Whole,
                format_args!("{code}: {brief}: the file begins with `{header}`"),
            )
        }
        None => {
            let (colon, cause) = behind(known_of(said.code, transcript.cause, transcript.help));
            notes.note(
                InputPlace::Whole,
                format_args!("{code}: {brief}{colon}{cause}"),
            )
        }
        Some(number) => {
            let (colon, cause) = behind(known_of(said.code, transcript.cause, transcript.help));
            let fact = told_of(alloc, known, &*transcript, reading, number, &*said)?;
            let place = reading.go_to(number, said.posting)?;
            notes.note(place, format_args!("{code}: {brief}{colon}{cause}{fact}"))
        }
    }
}

/// Returns what is known of a fault with that code: of one of the disk why the system refused, of damage what helps, and of any other
/// nothing.
fn known_of<'a>(code: &str, cause: Option<&'a str>, help: Option<&'a str>) -> Option<&'a str>
    ensures { option_map (λ text. text.now) result
        ≡ known_of code.now (option_map (λ text. text.now) cause.entry)
        (option_map (λ text. text.now) help.entry) }
{
    match code {
        "S4" | "S5" => cause,
        "S7" => help,
        _ => None,
    }
}

/// Returns what stands behind what is said of a fault, with a colon before it, where something is known of it.
fn behind<'a>(known: Option<&'a str>) -> (&'static str, &'a str)
    ensures { (result.0.now, result.1.now) ≡ behind (option_map (λ text. text.now) known.entry) }
{
    match known {
        Some(text) => (": ", text),
        None => ("", ""),
    }
}

/// Returns what is known of the command or row of that number, with what stands before it, or
/// nothing. The only error is out of memory.
fn told_of<'a>(
    alloc: Global,
    known: &Known,
    transcript: &'a Transcript<'a>,
    reading: &'a Reading<'_>,
    number: usize,
    said: &'a Said<'a>,
) -> Result<String, AllocError> {
    match reading {
        Reading::Text { commands, .. } => match item(commands, number) {
            Some(command) => {
                let name = format!(in alloc; "{number}")?;
                let refused = Refused {
                    key: transcript.key(name.as_str()),
                    command,
                    said,
                    commands,
                    cash: None,
                    rounding: transcript.rounding,
                    naming: transcript.naming(),
                    finding: transcript.findings.of(number),
                };
                let mut text = fact(alloc, known, &refused)?;
                text.push_str(crumbs(alloc, &refused)?.as_str())?;
                Ok(text)
            }
            None => Ok(String::new(alloc)),
        },
        Reading::Rows { rows, accounts, .. } => match item(rows, number) {
            Some(row) if said.code == "C4" => cash(alloc, row, transcript.rounding),
            Some(row) => match command(alloc, row, accounts, transcript.decimals()) {
                Ok(command) => {
                    let refused = Refused {
                        key: transcript.key(row.name.as_str()),
                        command: &command,
                        said,
                        commands: &[],
                        cash: match transcript.rounding {
                            Some(_) => None,
                            None => row_cash(row, &command),
                        },
                        rounding: transcript.rounding,
                        naming: transcript.naming(),
                        finding: transcript.findings.of(number),
                    };
                    let mut text = named(alloc, &refused)?;
                    text.push_str(fact(alloc, known, &refused)?.as_str())?;
                    text.push_str(way_out(alloc, said, row, rows)?.as_str())?;
                    text.push_str(crumbs(alloc, &refused)?.as_str())?;
                    Ok(text)
                }
                Err(CommandFault::InexactAmount) => Ok(String::new(alloc)),
                Err(CommandFault::Memory) => Err(AllocError),
            },
            None => Ok(String::new(alloc)),
        },
        Reading::Export { rows, commands } => match row_at(rows, number) {
            Some(row) => told_of_export(alloc, known, transcript, number, row, commands, said),
            None => Ok(String::new(alloc)),
        },
        Reading::Statement | Reading::Dump => Ok(String::new(alloc)),
    }
}

/// Returns the same of the row of that number of an export.
fn told_of_export<'a>(
    alloc: Global,
    known: &Known,
    transcript: &'a Transcript<'a>,
    number: usize,
    row: &'a ExportRow,
    commands: &'a [(CommandKey, Asked)],
    said: &'a Said<'a>,
) -> Result<String, AllocError> {
    let Some((_, asked)) = command_of(row, commands) else {
        return Ok(String::new(alloc));
    };
    let refused = Refused {
        key: transcript.key(row.name.as_str()),
        command: &asked.command,
        said,
        commands: &[],
        cash: None,
        rounding: transcript.rounding,
        naming: transcript.naming(),
        finding: transcript.findings.of(number),
    };
    let mut text = named(alloc, &refused)?;
    text.push_str(fact(alloc, known, &refused)?.as_str())?;
    if said.code == "L1" {
        text.push_str(leaving_out(alloc, row.name.as_str())?.as_str())?;
    }
    text.push_str(crumbs(alloc, &refused)?.as_str())?;
    Ok(text)
}

/// Returns what a row of an export was run as, where it was run.
pub(crate) fn command_of<'a>(
    row: &ExportRow,
    commands: &'a [(CommandKey, Asked)],
) -> Option<&'a (CommandKey, Asked)> {
    commands.get(row.place?)
}

/// Names the option that leaves out a row under whose key another stands, where it leaves out no other row. The only error is
/// out of memory.
fn way_out(alloc: Global, said: &Said<'_>, row: &Row, rows: &[Row]) -> Result<String, AllocError> {
    if said.code != "L1" || !is_only(rows, &row.name) {
        return Ok(String::new(alloc));
    }
    leaving_out(alloc, row.name.as_str())
}

/// Names the option that leaves out the row of that `ref` or name. The only error is out of memory.
fn leaving_out(alloc: Global, name: &str) -> Result<String, AllocError> {
    let except = LongOption {
        name: "except",
        value: name,
    };
    format!(in alloc; "; {except} leaves it out")
}

/// Returns the item of that number, from 1.
pub(crate) fn item<T>(items: &[T], number: usize) -> Option<&T> {
    items.get(number.checked_sub(1)?)
}
