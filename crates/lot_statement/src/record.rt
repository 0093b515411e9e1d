//! What a record says: a commodity, and how many units of it are held.
ghost use Rattle.std.specs.Prelude.{◌≡◌, IfNone, IfSome, IsSome, IsUtf8, List, MatchOption, ℕ, ℤ};
ghost use Rattle.csv.specs.Records.{fields_of};
ghost use Rattle.lot_import.specs.Row.{SaysCommodity, at_column};
ghost use Rattle.lot_statement.specs.Line.{GivesLine, IsWhole, SaysUnits};

use crate::fault::{LineCause, LineFault};
use csv::ByteRecord;
use lot_base::Commodity;
use lot_import::field;
use lot_num::Units;
use std::alloc::Global;

/// How many fields a record has: those of the header.
pub(crate) const COLUMNS: usize = 2;

/// Returns the line that a record says. The error is the first cause by which it says none. Or it is out of memory, and the
/// record says one.
pub(crate) fn line_of(alloc: Global, written: &ByteRecord) -> Result<(Commodity, Units), LineFault>
    ensures { GivesLine (fields_of written.now) result }
{
    if written.len() != COLUMNS {
        return Err(LineFault::Bad(LineCause::Length));
    }
    match commodity_in(written) {
        Some(name) => line_with(alloc, name, written),
        None => Err(LineFault::Bad(LineCause::Commodity)),
    }
}

/// Returns the line that a record says, which has that commodity.
fn line_with(
    alloc: Global,
    name: &str,
    written: &ByteRecord,
) -> Result<(Commodity, Units), LineFault>
    requires whole { IsWhole (fields_of written.now) }
    requires commodity { SaysCommodity (at_column (fields_of written.now) 0) name.now }
    ensures { GivesLine (fields_of written.now) result }
{
    let Some(units) = units_in(written) else {
        return Err(LineFault::Bad(LineCause::Units));
    };
    match Commodity::new(alloc, name) {
        Ok(commodity) => Ok((commodity, units)),
        Err(_) => Err(LineFault::Memory),
    }
}

/// Returns the commodity that a record says, or `None` where it says none.
fn commodity_in(written: &ByteRecord) -> Option<&str>
    ensures { MatchOption result
        ((commodity : List ℕ) → ¬ SaysCommodity (at_column (fields_of written.now) 0) commodity)
        (λ name. SaysCommodity (at_column (fields_of written.now) 0) name.now) }
{
    match text_at(written, 0) {
        Some(text) if Commodity::is_name(text) => Some(text),
        _ => None,
    }
}

/// Returns the units that a record says, or `None` where it says none.
fn units_in(written: &ByteRecord) -> Option<Units>
    ensures { MatchOption result
        ((units : ℤ) → ¬ SaysUnits (at_column (fields_of written.now) 1) units)
        (λ units. SaysUnits (at_column (fields_of written.now) 1) units) }
{
    let Some(text) = text_at(written, 1) else {
        return None;
    };
    match Units::parse(text) {
        Ok(units) => Some(units),
        Err(_) => None,
    }
}

/// Returns a field as text, or `None` where it isn't UTF-8.
fn text_at(written: &ByteRecord, column: usize) -> Option<&str>
    ensures some { IfSome result (λ text. text.now ≡ at_column (fields_of written.now) column) }
    ensures utf8 { IsSome result → IsUtf8 (at_column (fields_of written.now) column) }
    ensures none { IfNone result (¬ IsUtf8 (at_column (fields_of written.now) column)) }
{
    str::from_utf8(field(written, column)).ok()
}
