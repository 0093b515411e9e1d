//! A place of the input that something is said of.

use crate::shown::Shown;
use std::fmt;

/// A place of the input. It is printed as what stands before what is said of it.
#[derive(Clone, Copy)]
pub(crate) enum InputPlace<'a> {
    /// A line, from 1.
    Line {
        number: u64,
        line: &'a [u8],
    },
    /// A line of the command of that number, from 1.
    Command {
        number: u64,
        command: usize,
        line: &'a [u8],
    },
    /// A row of a broker file, from 1, with its `ref`.
    Row {
        row: usize,
        name: &'a [u8],
        line: &'a [u8],
    },
    /// The command or row of that number, from 1, whose line isn't known.
    Number(usize),
    /// The row of that number of a broker's export, from 1.
    RowNumber(usize),
    /// The line of that number, from 1, which isn't kept.
    Unkept(usize),
    /// The whole input.
    Whole,
}

impl<'a> InputPlace<'a> {
    /// Returns what stands there without its indent, where that is a line.
    pub(crate) fn line(&self) -> Option<Shown<'a>> {
        match self {
            InputPlace::Line { line, .. }
            | InputPlace::Command { line, .. }
            | InputPlace::Row { line, .. } => { Some(Shown(line.trim_ascii_start())) }
            InputPlace::Number(_)
            | InputPlace::RowNumber(_)
            | InputPlace::Unkept(_)
            | InputPlace::Whole => None,
        }
    }
}

impl fmt::Display for InputPlace<'_> {
    fn fmt<W: fmt::Write>(&self, f: &mut fmt::Formatter<W>) -> fmt::Result {
        match self {
            InputPlace::Line { number, .. } => write!(f, "line {number}: "),
            InputPlace::Command {
                number,
                command,
                ..
            } => write!(f, "line {number}, command {command}: "),
            InputPlace::Row { row, name, .. } => {
                let name = Shown(name);
                write!(f, "row {row} ({name}): ")
            }
            InputPlace::Number(number) => write!(f, "number {number}: "),
            InputPlace::RowNumber(number) => write!(f, "row {number}: "),
            InputPlace::Unkept(number) => write!(f, "line {number}: "),
            InputPlace::Whole => Ok(()),
        }
    }
}
