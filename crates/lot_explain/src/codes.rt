//! The codes that the program prints, as data: a table for each part of *All codes* in
//! docs/RULES.md.

mod booking;
mod broker;
mod decision;
mod dump;
mod ending;
mod program;
mod store;
mod text;
mod value;

use std::fmt;

/// A code, and what it means.
pub struct Code {
    /// The code, such as `B2`. For a fault without a code it is the name.
    pub code: &'static str,
    /// The name, such as `Ambiguous`.
    pub name: &'static str,
    /// What is wrong, in a few words.
    pub brief: &'static str,
    /// The rule, in two or three sentences.
    pub rule: &'static str,
    /// What shows it.
    pub examples: Examples,
    /// What helps.
    pub help: &'static str,
    /// Where to read on: a page, and the part of it.
    pub page: &'static str,
}

/// An example that gets the code, and one beside it that doesn't.
pub enum Examples {
    /// Two ledger texts.
    Ledger {
        refused: &'static str,
        accepted: &'static str,
    },
    /// Two broker files, posted to accounts that are open.
    Rows {
        refused: &'static str,
        accepted: &'static str,
    },
    /// Two calls of the program or more, a line each.
    Calls {
        refused: &'static str,
        accepted: &'static str,
    },
    /// No example: the program never prints the code, or a short example can't show it.
    Absent,
}

/// Returns the tables of all codes, in the order of docs/RULES.md, *All codes*.
pub(crate) fn tables() -> [&'static [Code]; 9] {
    [
        &value::CODES,
        &booking::CODES,
        &decision::CODES,
        &ending::CODES,
        &text::CODES,
        &dump::CODES,
        &broker::CODES,
        &store::CODES,
        &program::CODES,
    ]
}

/// The start of a line on a code: the code and its name. For a fault without a code it is the name.
impl fmt::Display for Code {
    ghost use Rattle.std.specs.Prelude.{Some};
    ghost use Rattle.lot_explain.specs.Explained.{code_start};

    ghost output = { λ code. Some (code_start code) };

    fn fmt<W: fmt::Write>(&self, f: &mut fmt::Formatter<W>) -> fmt::Result {
        let (code, name) = (self.code, self.name);
        if code == name {
            f.write_str(code)
        } else {
            write!(f, "{code} {name}")
        }
    }
}
