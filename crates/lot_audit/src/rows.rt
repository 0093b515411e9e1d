ghost use Rattle.std.specs.Prelude.{[], ◌∷◌, pos};
ghost use Rattle.lot_rows.specs.Leg.{IsLegRow, leg_cells};
ghost use Rattle.lot_rows.specs.Lot.{IsLotRow, lot_cells};
ghost use Rattle.lot_rows.specs.LotKey.{lot_key};
ghost use Rattle.lot_rows.specs.Opening.{IsOpeningRow, opening_cells};
ghost use Rattle.lot_rows.specs.Price.{IsPriceRow, price_cells};
ghost use Rattle.lot_rows.specs.Tables.{layout};
ghost use Rattle.lot_table.specs.Call.{Finds, ListsColumns};
ghost use Rattle.lot_table.specs.Rows.{with_key};
ghost use Rattle.sqlite.specs.Held.{state};
ghost use Rattle.sqlite.specs.declared.types.Value.TheVariants.{Int, Text};

use lot_base::{Account, Commodity, Day};
use lot_cost::LotKey;
use lot_rows::leg::{self, LegRow};
use lot_rows::lot::{self, LotRow};
use lot_rows::opening::{self, OpeningRow};
use lot_rows::price::{self, PriceRow};
use lot_table::{Cell, Fault, Ordinal, find, select};
use sqlite::{Alter, Connection};
use std::alloc::Global;

/// Returns the price of a pair on a day, or `None` where there is none.
pub(crate) fn price_of<S: Alter>(
    alloc: Global,
    conn: &mut Connection<S>,
    base: &Commodity,
    quote: &Commodity,
    day: Day,
) -> Result<Option<PriceRow>, Fault>
    ensures finds { Finds layout IsPriceRow
        (λ b. with_key price_cells 3 (Text base.now ∷ Text quote.now ∷ Int day ∷ []) b.price)
        (state S.Store conn.old) (state S.Store conn.new) result }
{
    find(
        alloc,
        conn,
        price::FIND,
        &[base.to_cell(), quote.to_cell(), day.to_cell()],
    )
}

/// Returns the legs of an entry, by posting and place.
pub(crate) fn legs_of<S: Alter>(
    alloc: Global,
    conn: &mut Connection<S>,
    entry: Ordinal,
) -> Result<Vec<LegRow>, Fault>
    ensures lists { ListsColumns layout leg_cells IsLegRow
        (λ b. with_key leg_cells 1 (Int (pos entry) ∷ []) b.leg)
        (state S.Store conn.old) (state S.Store conn.new) result }
{
    select(alloc, conn, leg::LIST_OF_ENTRY, &[entry.to_cell()])
}

/// Returns the row of the table `lot` of a lot: one row or none.
pub(crate) fn lots_at<S: Alter>(
    alloc: Global,
    conn: &mut Connection<S>,
    account: &Account,
    commodity: &Commodity,
    lot: &LotKey,
) -> Result<Vec<LotRow>, Fault>
    ensures lists { ListsColumns layout lot_cells IsLotRow
        (λ b. with_key lot_cells 6 (lot_key account.now commodity.now lot.now) b.lot)
        (state S.Store conn.old) (state S.Store conn.new) result }
{
    select(
        alloc,
        conn,
        lot::FIND,
        &[
            account.to_cell(),
            commodity.to_cell(),
            lot.day.to_cell(),
            lot.currency.to_cell(),
            lot.number.to_cell(),
            lot.label.to_cell(),
        ],
    )
}

/// Returns the row of the table `opening` of a lot: one row or none.
pub(crate) fn openings_at<S: Alter>(
    alloc: Global,
    conn: &mut Connection<S>,
    account: &Account,
    commodity: &Commodity,
    lot: &LotKey,
) -> Result<Vec<OpeningRow>, Fault>
    ensures lists { ListsColumns layout opening_cells IsOpeningRow
        (λ b. with_key opening_cells 6 (lot_key account.now commodity.now lot.now) b.opening)
        (state S.Store conn.old) (state S.Store conn.new) result }
{
    select(
        alloc,
        conn,
        opening::FIND,
        &[
            account.to_cell(),
            commodity.to_cell(),
            lot.day.to_cell(),
            lot.currency.to_cell(),
            lot.number.to_cell(),
            lot.label.to_cell(),
        ],
    )
}
