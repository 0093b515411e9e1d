ghost use Rattle.std.specs.Prelude.{◌≡◌, ◌≢◌, ◌++◌, All, Err, IfOk, IfSome, IsSome, OnOk};
ghost use Rattle.std.specs.BTreeMap.{IsOrdered};
ghost use Rattle.lot_book.specs.Change.{pair_cmp, units_before};
ghost use Rattle.lot_stored.specs.Rows.{head_row, leg_row, sale_row};
ghost use Rattle.lot_write.specs.Writes.{AreNumbered, AreOpened, IsNumbered, IsPlaced, head_written, heads_written, legs_written, listed_write, lot_write, opening_written, plain_write, position_write, positions_written, sales_written, units_listed};
ghost use Rattle.lot_table.specs.Cell.{IsOpeningNumber};
ghost use Rattle.lot_table.specs.declared.fault.Fault.TheVariants.{Damaged, Device};
ghost use Rattle.lot_view.specs.View.{known};

use crate::number::{opening_number, ordinal, place};
use crate::write::Write;
use lot_base::{Account, Commodity, Day};
use lot_book::{Change, Leg, Pair, Position, Sale};
use lot_cost::LotKey;
use lot_num::Units;
use lot_rows::head::HeadRow;
use lot_rows::leg::LegRow;
use lot_rows::lot::LotRow;
use lot_rows::opening::OpeningRow;
use lot_rows::plain::PlainRow;
use lot_rows::sale::SaleRow;
use lot_table::{Fault, Ordinal, Sum};
use lot_view::View;
use std::alloc::AllocError;
use std::collections::BTreeMap;

/// Adds what a transaction writes beside its entry, which has that number. These are its legs and sales, what the positions of
/// its legs hold after them, the opening numbers of their lots, and the latest days. The view is of the book before it.
pub(crate) fn push_change(
    writes: &mut Vec<Write>,
    number: Ordinal,
    view: &View,
    change: &Change,
) -> Result<(), Fault>
    ensures writes { OnOk result (writes.new.items ≡ writes.old.items
        ++ (legs_written change.now.legs ++ (sales_written number change.now.sales
        ++ (positions_written (known view.now) change.now change.now.legs
        ++ heads_written (known view.now) change.now.heads.entries)))) }
    ensures ordered { OnOk result (IsOrdered pair_cmp change.now.heads) }
    ensures fault { result ≢ Err Damaged }
    ensures device { result ≡ Err Device → ¬ AreNumbered change.now }
{
    let legs = change.legs.as_slice();
    push_legs(writes, legs)?;
    push_sales(writes, number, change.sales.as_slice())?;
    push_positions(writes, view, change, legs)?;
    push_heads(writes, view, &change.heads)?;
    Ok(())
}

fn push_legs(writes: &mut Vec<Write>, legs: &[Leg]) -> Result<(), Fault>
    ensures writes { OnOk result (writes.new.items ≡ writes.old.items ++ legs_written legs.now) }
    ensures fault { result ≢ Err Damaged }
    ensures device { result ≡ Err Device → ¬ All IsNumbered legs.now }
{
    for leg in legs {
        writes.push(Write::Leg(leg_row(leg)?))?;
    }
    Ok(())
}

fn leg_row(leg: &Leg) -> Result<LegRow, Fault>
    ensures row { IfOk result (λ row. row ≡ leg_row leg.now) }
    ensures fault { result ≢ Err Damaged }
    ensures device { result ≡ Err Device → ¬ IsNumbered leg.now }
{
    let Position {
        account,
        commodity,
        lot,
    } = leg.position.copy()?;
    Ok(LegRow {
        entry: ordinal(leg.entry)?,
        posting: ordinal(leg.posting as u64)?,
        place: place(leg.place)?,
        account,
        commodity,
        units: leg.units,
        lot,
    })
}

fn push_sales(
    writes: &mut Vec<Write>,
    number: Ordinal,
    sales: &[(usize, Sale)],
) -> Result<(), Fault>
    ensures writes { OnOk result
        (writes.new.items ≡ writes.old.items ++ sales_written number sales.now) }
    ensures fault { result ≢ Err Damaged }
    ensures device { result ≡ Err Device → ¬ All IsPlaced sales.now }
{
    for (posting, sale) in sales {
        let posting = ordinal(*posting as u64)?;
        writes.push(Write::Sale(sale_row(number, posting, sale)?))?;
    }
    Ok(())
}

fn sale_row(entry: Ordinal, posting: Ordinal, sale: &Sale) -> Result<SaleRow, AllocError>
    ensures { IfOk result (λ row. row ≡ sale_row (entry, (posting, sale.now))) }
{
    let Some(units) = Sum::new(sale.units()) else {
        unreachable!()
    };
    let price = match sale.price() {
        Some(price) => Some(price.copy()?),
        None => None,
    };
    Ok(SaleRow {
        entry,
        posting,
        day: sale.day(),
        account: sale.account().copy()?,
        commodity: sale.commodity().copy()?,
        units,
        price,
    })
}

/// Adds what is written of the position of each leg.
fn push_positions(
    writes: &mut Vec<Write>,
    view: &View,
    change: &Change,
    legs: &[Leg],
) -> Result<(), Fault>
    ensures writes { OnOk result (writes.new.items ≡ writes.old.items
        ++ positions_written (known view.now) change.now legs.now) }
    ensures fault { result ≢ Err Damaged }
    ensures device { result ≡ Err Device → ¬ AreOpened change.now.openings }
{
    for leg in legs {
        push_position(writes, view, change, &leg.position)?;
    }
    Ok(())
}

/// Adds what is written of a position: its units and, of a lot, its opening number.
fn push_position(
    writes: &mut Vec<Write>,
    view: &View,
    change: &Change,
    position: &Position,
) -> Result<(), Fault>
    ensures writes { OnOk result (writes.new.items ≡ writes.old.items
        ++ listed_write (known view.now) change.now position.now) }
    ensures fault { result ≢ Err Damaged }
    ensures device { result ≡ Err Device → ¬ AreOpened change.now.openings }
{
    let units = units_listed(view, change, position);
    let opening = change.openings.get(position).copied();
    writes.push(position_write(view, position, units)?)?;
    push_opening_number(writes, position, units, opening)
}

/// Returns what a position holds once the change is made: what is listed of it, or else what it held before.
fn units_listed(view: &View, change: &Change, position: &Position) -> Units
    ensures { result ≡ units_listed (known view.now) change.now position.now }
{
    match change.positions.get(position) {
        Some(units) => *units,
        None => view.units(
            &position.account,
            &position.commodity,
            position.lot.as_ref(),
        ),
    }
}

/// Adds what is written of the opening number of a position. The position has those units, and its number is listed as given.
fn push_opening_number(
    writes: &mut Vec<Write>,
    position: &Position,
    units: Units,
    listed: Option<u64>,
) -> Result<(), Fault>
    ensures writes { OnOk result (writes.new.items ≡ writes.old.items
        ++ opening_written position.now.account position.now.commodity position.now.lot units
        listed) }
    ensures fault { result ≢ Err Damaged }
    ensures device { result ≡ Err Device
        → IsSome position.now.lot × ¬ IfSome listed IsOpeningNumber }
{
    let Some(lot) = &position.lot else {
        return Ok(());
    };
    if Sum::new(units).is_none() {
        writes.push(Write::NoOpening(
            position.account.copy()?,
            position.commodity.copy()?,
            lot.copy()?,
        ))?;
    } else if let Some(number) = listed {
        writes.push(Write::Opening(OpeningRow {
            account: position.account.copy()?,
            commodity: position.commodity.copy()?,
            lot: lot.copy()?,
            opening: opening_number(number)?,
        }))?;
    }
    Ok(())
}

/// Returns the row of a position with those units, or that it goes where they are zero. The view is of the book before.
fn position_write(view: &View, position: &Position, units: Units) -> Result<Write, AllocError>
    ensures { IfOk result (λ write. write
        ≡ position_write position.now.account position.now.commodity position.now.lot
        (units_before (known view.now) position.now) units) }
{
    let before = view.units(
        &position.account,
        &position.commodity,
        position.lot.as_ref(),
    );
    let Position {
        account,
        commodity,
        lot,
    } = position.copy()?;
    Ok(match (lot, Sum::new(units)) {
        (None, None) => Write::NoPlain(account, commodity),
        (None, Some(units)) => plain_write(account, commodity, before, units),
        (Some(lot), None) => Write::NoLot(account, commodity, lot),
        (Some(lot), Some(units)) => lot_write(account, commodity, lot, before, units),
    })
}

/// Returns the row of a lot: a new one where the position held none before.
fn lot_write(
    account: Account,
    commodity: Commodity,
    lot: LotKey,
    before: Units,
    units: Sum,
) -> Write
    ensures { result ≡ lot_write account commodity lot before units }
{
    let row = LotRow {
        account,
        commodity,
        lot,
        units,
    };
    if Sum::new(before).is_none() {
        Write::Lot(row)
    } else {
        Write::SetLot(row)
    }
}

/// Returns the row of plain units: a new one where the position held none before.
fn plain_write(account: Account, commodity: Commodity, before: Units, units: Sum) -> Write
    ensures { result ≡ plain_write account commodity before units }
{
    let row = PlainRow {
        account,
        commodity,
        units,
    };
    if Sum::new(before).is_none() {
        Write::Plain(row)
    } else {
        Write::SetPlain(row)
    }
}

/// Adds the latest days of pairs. The view is of the book before.
fn push_heads(
    writes: &mut Vec<Write>,
    view: &View,
    heads: &BTreeMap<Pair, Day>,
) -> Result<(), AllocError>
    ensures writes { OnOk result
        (writes.new.items ≡ writes.old.items ++ heads_written (known view.now) heads.now.entries) }
    ensures ordered { OnOk result (IsOrdered pair_cmp heads.now) }
{
    for (pair, day) in heads {
        push_head(writes, view, pair, *day)?;
    }
    Ok(())
}

/// Adds the row of a pair with that day: a new one where it had none before, and nothing where it had that day.
fn push_head(writes: &mut Vec<Write>, view: &View, pair: &Pair, day: Day) -> Result<(), AllocError>
    ensures { OnOk result (writes.new.items ≡ writes.old.items
        ++ head_written ((known view.now).latest_at_cost pair.now.account pair.now.commodity)
        pair.now.account pair.now.commodity day) }
{
    match view.latest_at_cost(&pair.account, &pair.commodity) {
        None => writes.push(Write::Head(head_row(pair, day)?))?,
        Some(before) => {
            if before != day {
                writes.push(Write::SetHead(head_row(pair, day)?))?;
            }
        }
    }
    Ok(())
}

fn head_row(pair: &Pair, day: Day) -> Result<HeadRow, AllocError>
    ensures { IfOk result (λ row. row ≡ head_row pair.now.account pair.now.commodity day) }
{
    let Pair { account, commodity } = pair.copy()?;
    Ok(HeadRow {
        account,
        commodity,
        day,
    })
}
