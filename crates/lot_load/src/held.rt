ghost use Rattle.std.specs.Prelude.{◌≡◌, ◌≢◌, ◌↔◌, Err, IfErr, IfSome, IsTrue, OnOk, Some, option_copied};
ghost use Rattle.std.specs.FinMap as finite;
ghost use Rattle.std.specs.List.{AllByRecursion};
ghost use Rattle.lot_book.specs.Facts.{Facts};
ghost use Rattle.lot_book.specs.Openings.{FactsWithOpenings};
ghost use Rattle.lot_load.specs.Known.{IsTrueLot, IsTrueOpening, IsTruePlain, KnowsAt, KnowsEach, KnowsLot, KnowsUnits, Learns};
ghost use Rattle.lot_load.specs.Paired.{ArePaired};
ghost use Rattle.lot_view.specs.View.{known_with_openings};

use lot_base::{Account, Commodity};
use lot_book::Pair;
use lot_cost::LotKey;
use lot_num::Units;
use lot_rows::lot::LotRow;
use lot_rows::opening::OpeningRow;
use lot_rows::plain::PlainRow;
use lot_table::{Fault, Sum};
use lot_view::View;

/// Puts the lots of an account and a commodity, each with its units and its opening number.
///
/// The error is `Damaged` exactly where the rows of lots and those of opening numbers don't have the same lots, in the same
/// order. Else it is out of memory.
pub(crate) fn hold_lots(
    view: &mut View,
    pair: &Pair,
    lots: &[LotRow],
    openings: &[OpeningRow],
) -> Result<(), Fault>
    ensures learns { OnOk result ((book : FactsWithOpenings)
        → AllByRecursion (IsTrueLot pair.now book.facts) lots.now
        → AllByRecursion (IsTrueOpening pair.now book) openings.now
        → Learns (KnowsEach (KnowsLot pair.now) lots.now) book
        (known_with_openings view.old) (known_with_openings view.new)) }
    ensures paired { OnOk result (ArePaired lots.now openings.now) }
    ensures damaged { (result ≡ Err Fault.Damaged) ↔ (ArePaired lots.now openings.now → ⊥) }
    ensures no_device { result ≢ Err Fault.Device }
{
    if !are_paired(lots, openings) {
        return Err(Fault::Damaged);
    }
    for (row, numbered) in lots.iter().zip(openings) {
        hold(
            view,
            &pair.account,
            &pair.commodity,
            Some(&row.lot),
            row.units,
            numbered.opening.number(),
        )?;
    }
    Ok(())
}

/// Returns whether rows of lots and rows of opening numbers have the same lots, in the same order.
fn are_paired(lots: &[LotRow], openings: &[OpeningRow]) -> bool
    ensures { IsTrue result ↔ ArePaired lots.now openings.now }
{
    if lots.len() != openings.len() {
        return false;
    }
    for (row, numbered) in lots.iter().zip(openings) {
        if row.lot != numbered.lot {
            return false;
        }
    }
    true
}

/// Puts plain units. The only error is out of memory.
pub(crate) fn hold_plain(view: &mut View, rows: &[PlainRow]) -> Result<(), Fault>
    ensures learns { OnOk result ((book : FactsWithOpenings)
        → AllByRecursion (IsTruePlain book.facts) rows.now
        → Learns (KnowsEach KnowsUnits rows.now) book
        (known_with_openings view.old) (known_with_openings view.new)) }
    ensures err { IfErr result (λ fault. fault ≡ Fault.Memory) }
{
    for row in rows {
        hold(view, &row.account, &row.commodity, None, row.units, 0)?;
    }
    Ok(())
}

/// Puts what a book holds at a position and, for a lot, its opening number. Where the view holds units there already, these are
/// the book's, and nothing is put. The only error is out of memory.
pub(crate) fn hold(
    view: &mut View,
    account: &Account,
    commodity: &Commodity,
    lot: Option<&LotKey>,
    units: Sum,
    opening: u64,
) -> Result<(), Fault>
    ensures learns { OnOk result ((book : FactsWithOpenings)
        → finite.get (book.facts.held account.now) (commodity.now, option_copied lot.entry)
        ≡ Some units
        → IfSome (option_copied lot.entry)
        (λ key. book.opening account.now commodity.now key ≡ opening)
        → Learns (KnowsAt account.now (commodity.now, option_copied lot.entry)) book
        (known_with_openings view.old) (known_with_openings view.new)) }
    ensures err { IfErr result (λ fault. fault ≡ Fault.Memory) }
{
    if view.units(account, commodity, lot) != Units::ZERO {
        return Ok(());
    }
    match view.put_position(account, commodity, lot, units.units(), opening) {
        Ok(()) => Ok(()),
        // the units of a row are in range
        Err(_) => Err(Fault::Memory),
    }
}
