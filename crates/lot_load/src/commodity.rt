ghost use Rattle.std.specs.Prelude.{◌≡◌, IsTrue};
ghost use Rattle.lot_load.specs.Known.{KnowsDeclared, KnowsEach};
ghost use Rattle.lot_load.specs.Tells.{Teaches};
ghost use Rattle.lot_view.specs.View.{known_with_openings};
ghost use Rattle.sqlite.specs.State.{HasCleanDisk};

use lot_base::Commodity;
use lot_rows::commodity::find;
use lot_table::{Fault, Queryable};
use lot_view::View;
use std::alloc::Global;
use std::collections::BTreeSet;

/// Puts which of these commodities are declared.
pub(crate) fn learn_commodities<D: Queryable>(
    alloc: Global,
    conn: &mut D,
    commodities: &BTreeSet<Commodity>,
    view: &mut View,
) -> Result<(), Fault>
    requires { HasCleanDisk (D.shown conn.old) → IsTrue (D.shown conn.old).is_open }
    ensures same_reference { D.reference conn.new ≡ D.reference conn.old }
    ensures teaches { Teaches (KnowsEach KnowsDeclared commodities.now.keys)
        (known_with_openings view.old) (known_with_openings view.new)
        (D.shown conn.old) (D.shown conn.new) result }
{
    for commodity in commodities {
        learn_commodity(alloc, conn, commodity, view)?;
    }
    Ok(())
}

/// Puts that a commodity is declared, if it is.
fn learn_commodity<D: Queryable>(
    alloc: Global,
    conn: &mut D,
    commodity: &Commodity,
    view: &mut View,
) -> Result<(), Fault>
    ensures same_reference { D.reference conn.new ≡ D.reference conn.old }
    ensures teaches { Teaches (KnowsDeclared commodity.now)
        (known_with_openings view.old) (known_with_openings view.new)
        (D.shown conn.old) (D.shown conn.new) result }
{
    if find(alloc, conn, commodity)?.is_some() {
        view.put_declared(commodity)?;
    }
    Ok(())
}
