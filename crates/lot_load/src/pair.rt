ghost use Rattle.std.specs.Prelude.{◌≡◌, IsTrue, None, OnOk};
ghost use Rattle.lot_load.specs.Known.{KnowsAt, KnowsEach, KnowsHead, KnowsLots, KnowsPair};
ghost use Rattle.lot_load.specs.Paired.{FindsAllPaired, HavePaired};
ghost use Rattle.lot_load.specs.Tells.{Teaches};
ghost use Rattle.lot_rows.specs.Tables.{Has, Tables};
ghost use Rattle.lot_view.specs.View.{known_with_openings};
ghost use Rattle.sqlite.specs.State.{HasCleanDisk};

use crate::held::{hold, hold_lots};
use lot_book::Pair;
use lot_rows::{head, lot, opening, plain};
use lot_table::{Fault, Queryable};
use lot_view::View;
use std::alloc::Global;
use std::collections::BTreeSet;

/// Puts what there is of these accounts and commodities.
///
/// The call fails where the tables of lots and of opening numbers don't have the same lots of one of them.
pub(crate) fn learn_pairs<D: Queryable>(
    alloc: Global,
    conn: &mut D,
    pairs: &BTreeSet<Pair>,
    view: &mut View,
) -> Result<(), Fault>
    requires { HasCleanDisk (D.shown conn.old) → IsTrue (D.shown conn.old).is_open }
    ensures same_reference { D.reference conn.new ≡ D.reference conn.old }
    ensures teaches { Teaches (KnowsEach KnowsPair pairs.now.keys)
        (known_with_openings view.old) (known_with_openings view.new)
        (D.shown conn.old) (D.shown conn.new) result }
    ensures paired { FindsAllPaired pairs.now.keys (D.shown conn.old) (D.shown conn.new) result }
{
    for pair in pairs {
        learn_pair(alloc, conn, pair, view)?;
    }
    Ok(())
}

/// Puts the latest day at cost of an account and a commodity, and all that is held there.
///
/// The call fails where the tables of lots and of opening numbers don't have the same lots there.
fn learn_pair<D: Queryable>(
    alloc: Global,
    conn: &mut D,
    pair: &Pair,
    view: &mut View,
) -> Result<(), Fault>
    ensures same_reference { D.reference conn.new ≡ D.reference conn.old }
    ensures teaches { Teaches (KnowsPair pair.now)
        (known_with_openings view.old) (known_with_openings view.new)
        (D.shown conn.old) (D.shown conn.new) result }
    ensures paired { HasCleanDisk (D.shown conn.new) → OnOk result ((tables : Tables)
        → Has (D.shown conn.old) tables → HavePaired pair.now tables) }
{
    learn_head(alloc, conn, pair, view)?;
    learn_lots(alloc, conn, pair, view)?;
    learn_units(alloc, conn, pair, view)
}

/// Puts the latest day at cost, if there is one.
fn learn_head<D: Queryable>(
    alloc: Global,
    conn: &mut D,
    pair: &Pair,
    view: &mut View,
) -> Result<(), Fault>
    ensures same_reference { D.reference conn.new ≡ D.reference conn.old }
    ensures teaches { Teaches (KnowsHead pair.now.account pair.now.commodity)
        (known_with_openings view.old) (known_with_openings view.new)
        (D.shown conn.old) (D.shown conn.new) result }
{
    if let Some(row) = head::find(alloc, conn, &pair.account, &pair.commodity)? {
        view.put_head(&pair.account, &pair.commodity, row.day)?;
    }
    Ok(())
}

/// Puts the lots, each with its units and its opening number.
///
/// The error is `Damaged`, too, where the tables of lots and of opening numbers don't have the same lots there.
fn learn_lots<D: Queryable>(
    alloc: Global,
    conn: &mut D,
    pair: &Pair,
    view: &mut View,
) -> Result<(), Fault>
    ensures same_reference { D.reference conn.new ≡ D.reference conn.old }
    ensures teaches { Teaches (KnowsLots pair.now.account pair.now.commodity)
        (known_with_openings view.old) (known_with_openings view.new)
        (D.shown conn.old) (D.shown conn.new) result }
    ensures paired { HasCleanDisk (D.shown conn.new) → OnOk result ((tables : Tables)
        → Has (D.shown conn.old) tables → HavePaired pair.now tables) }
{
    let lots = lot::list_of(alloc, conn, &pair.account, &pair.commodity)?;
    let openings = opening::list_of(alloc, conn, &pair.account, &pair.commodity)?;
    hold_lots(view, pair, &lots, &openings)
}

/// Puts the plain units, if there are any.
fn learn_units<D: Queryable>(
    alloc: Global,
    conn: &mut D,
    pair: &Pair,
    view: &mut View,
) -> Result<(), Fault>
    ensures same_reference { D.reference conn.new ≡ D.reference conn.old }
    ensures teaches { Teaches (KnowsAt pair.now.account (pair.now.commodity, None))
        (known_with_openings view.old) (known_with_openings view.new)
        (D.shown conn.old) (D.shown conn.new) result }
{
    if let Some(row) = plain::find(alloc, conn, &pair.account, &pair.commodity)? {
        hold(view, &pair.account, &pair.commodity, None, row.units, 0)?;
    }
    Ok(())
}
