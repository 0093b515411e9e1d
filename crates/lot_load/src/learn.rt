ghost use Rattle.std.specs.Prelude.{◌≡◌, IsTrue, OnOk, Some};
ghost use Rattle.lot_load.specs.Kept.{Covers, Keeps};
ghost use Rattle.lot_load.specs.Known.{KnowsTouched};
ghost use Rattle.lot_load.specs.Paired.{AreWholeOrPaired, FindsAllPaired, KeepsPaired};
ghost use Rattle.lot_load.specs.Tells.{Teaches, Tells};
ghost use Rattle.lot_rows.specs.Tables.{Has, Tables};
ghost use Rattle.lot_view.specs.View.{known_with_openings};
ghost use Rattle.sqlite.specs.State.{HasCleanDisk};

use crate::account::learn_accounts;
use crate::commodity::learn_commodities;
use crate::kept::Kept;
use crate::pair::learn_pairs;
use crate::plain::learn_all_plain;
use crate::whole::{add, lacking};
use lot_table::{Fault, Queryable};
use lot_view::{Touched, View};
use std::alloc::Global;

/// Puts what the book has of all that a command looks at and that isn't known whole yet. Then it is
/// known whole.
pub(crate) fn learn_lacking<D: Queryable>(
    alloc: Global,
    conn: &mut D,
    touched: Touched,
    kept: &mut Kept,
) -> Result<(), Fault>
    requires { HasCleanDisk (D.shown conn.old) → IsTrue (D.shown conn.old).is_open }
    ensures same_reference { D.reference conn.new ≡ D.reference conn.old }
    ensures tells { Tells
        (λ _ entries. Keeps kept.old entries → Covers touched entries kept.old kept.new)
        (D.shown conn.old) (D.shown conn.new) result }
    ensures paired { HasCleanDisk (D.shown conn.new) → OnOk result ((tables : Tables)
        → Has (D.shown conn.old) tables
        → AreWholeOrPaired (Some kept.old) tables touched.pairs.keys) }
    ensures whole { OnOk result (KeepsPaired (Some kept.old) (Some kept.new)
        (D.shown conn.old) (D.shown conn.new)) }
{
    let lacking = lacking(touched, &kept.whole);
    learn_touched(alloc, conn, &lacking, &mut kept.view)?;
    add(&mut kept.whole, lacking)?;
    Ok(())
}

/// Puts what there is in the book of what a command looks at.
fn learn_touched<D: Queryable>(
    alloc: Global,
    conn: &mut D,
    touched: &Touched,
    view: &mut View,
) -> Result<(), Fault>
    requires { HasCleanDisk (D.shown conn.old) → IsTrue (D.shown conn.old).is_open }
    ensures same_reference { D.reference conn.new ≡ D.reference conn.old }
    ensures teaches { Teaches (KnowsTouched touched.now)
        (known_with_openings view.old) (known_with_openings view.new)
        (D.shown conn.old) (D.shown conn.new) result }
    ensures paired { FindsAllPaired touched.now.pairs.keys
        (D.shown conn.old) (D.shown conn.new) result }
{
    learn_accounts(alloc, conn, &touched.accounts, view)?;
    learn_commodities(alloc, conn, &touched.declared, view)?;
    learn_pairs(alloc, conn, &touched.pairs, view)?;
    learn_all_plain(alloc, conn, &touched.plain, view)
}
