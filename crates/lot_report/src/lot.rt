ghost use Rattle.std.specs.Prelude.{◌≡◌, IsErrOf, OnOk};
ghost use Rattle.lot_io.specs.Writes.{HasFailed, NoneFailed};
ghost use Rattle.lot_report.specs.Printed.{lot_row, price_of};
ghost use Rattle.lot_report.specs.Written.{WritesLine};

use crate::line::{PrintFault, print_line};
use lot_base::{Commodity, Label};
use lot_book::LotKey;
use lot_io::CountedWrite;
use lot_num::{Rate, Units, weight};
use std::alloc::Global;
use std::fmt;

/// The price at which a lot is valued.
#[derive(Clone, Copy, Debug, PartialEq, Eq)]
pub enum Valuation {
    /// No value is asked for.
    Unasked,
    /// There is no price.
    Missing,
    /// The price of one unit, in the currency of the lot.
    At(Rate),
}

impl Valuation {
    /// Returns the price, if there is one.
    pub(crate) fn price(self) -> Option<Rate>
        ensures { result ≡ price_of self }
    {
        match self {
            Valuation::Unasked | Valuation::Missing => None,
            Valuation::At(price) => Some(price),
        }
    }
}

/// Writes the line of units in a lot: what stands at its front, the units, their commodity, the lot in braces, and its value
/// where one is asked for.
#[tactic(auto, using(crate::proofs::PrintLemmas::nothing_written, crate::proofs::OutputLemmas::not_of_writer))]
pub(crate) fn print_lot<'a, W: CountedWrite>(
    alloc: Global,
    writer: &mut W,
    front: &'a str,
    units: Units,
    commodity: &'a Commodity,
    lot: &'a LotKey,
    valuation: Valuation,
) -> Result<(), PrintFault>
    ensures line { WritesLine (W.contents writer.old) (W.contents writer.new) result
        (lot_row front.now commodity.now lot.now units valuation) }
    ensures cause { IsErrOf result PrintFault.Write → HasFailed (W.calls writer.new) }
    ensures none_failed { OnOk result (NoneFailed (W.calls writer.old) (W.calls writer.new)) }
{
    let text = units.text(alloc)?;
    let number = lot.number.text(alloc)?;
    let row = PrintedRow {
        front,
        units: text.as_str(),
        commodity,
        number: number.as_str(),
        lot,
    };
    match valuation {
        Valuation::Unasked => print_line(writer, row),
        Valuation::Missing => print_line(writer, format_args!("{row} value none")),
        Valuation::At(price) => {
            let value = weight(units, price).text_money(alloc)?;
            let currency = &lot.currency;
            print_line(writer, format_args!("{row} value {value} {currency}"))
        }
    }
}

/// Units in a lot as they are printed behind what stands at the front of their line, with the texts of the units and of the
/// number of the lot.
#[derive(Clone, Copy)]
struct PrintedRow<'a> {
    front: &'a str,
    units: &'a str,
    commodity: &'a Commodity,
    number: &'a str,
    lot: &'a LotKey,
}

impl fmt::Display for PrintedRow<'_> {
    ghost use Rattle.std.specs.Prelude.{Some};
    ghost use Rattle.lot_report.specs.Printed.{row_with};

    ghost output = { λ row. Some
        (row_with row.front.now row.units.now row.commodity.now row.number.now row.lot.now) };

    fn fmt<W: fmt::Write>(&self, f: &mut fmt::Formatter<W>) -> fmt::Result {
        let front = self.front;
        let units = self.units;
        let commodity = self.commodity;
        let lot = PrintedLot {
            number: self.number,
            lot: self.lot,
        };
        write!(f, "{front} {units} {commodity} {lot}")
    }
}

/// A lot as it is printed behind its units, in braces, with the text of its number.
#[derive(Clone, Copy)]
struct PrintedLot<'a> {
    number: &'a str,
    lot: &'a LotKey,
}

impl fmt::Display for PrintedLot<'_> {
    ghost use Rattle.std.specs.Prelude.{Some};
    ghost use Rattle.lot_report.specs.Printed.{in_braces};

    ghost output = { λ printed. Some (in_braces printed.number.now printed.lot.now) };

    fn fmt<W: fmt::Write>(&self, f: &mut fmt::Formatter<W>) -> fmt::Result {
        let number = self.number;
        let currency = &self.lot.currency;
        let day = self.lot.day;
        let label = PrintedLabel(&self.lot.label);
        write!(f, "{{{number} {currency}, {day}{label}}}")
    }
}

/// The label of a lot as it is printed behind its day: in quotes, or nothing where the lot has none.
#[derive(Clone, Copy)]
struct PrintedLabel<'a>(&'a Option<Label>);

impl fmt::Display for PrintedLabel<'_> {
    ghost use Rattle.std.specs.Prelude.{Some};
    ghost use Rattle.lot_report.specs.Printed.{label_text};

    ghost output = { λ label. Some (label_text label.0.now) };

    fn fmt<W: fmt::Write>(&self, f: &mut fmt::Formatter<W>) -> fmt::Result {
        let Some(label) = self.0 else {
            return Ok(());
        };
        write!(f, ", \"{label}\"")
    }
}
