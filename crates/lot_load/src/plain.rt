ghost use Rattle.std.specs.Prelude.{◌≡◌, IsTrue};
ghost use Rattle.lot_load.specs.Known.{KnowsEach, KnowsPlain};
ghost use Rattle.lot_load.specs.Tells.{Teaches};
ghost use Rattle.lot_view.specs.View.{known_with_openings};
ghost use Rattle.sqlite.specs.State.{HasCleanDisk};

use crate::held::hold_plain;
use lot_base::Account;
use lot_rows::plain::list_of;
use lot_table::{Fault, Queryable};
use lot_view::View;
use std::alloc::Global;
use std::collections::BTreeSet;

/// Puts the plain units of these accounts, of every commodity.
pub(crate) fn learn_all_plain<D: Queryable>(
    alloc: Global,
    conn: &mut D,
    accounts: &BTreeSet<Account>,
    view: &mut View,
) -> Result<(), Fault>
    requires { HasCleanDisk (D.shown conn.old) → IsTrue (D.shown conn.old).is_open }
    ensures same_reference { D.reference conn.new ≡ D.reference conn.old }
    ensures teaches { Teaches (KnowsEach KnowsPlain accounts.now.keys)
        (known_with_openings view.old) (known_with_openings view.new)
        (D.shown conn.old) (D.shown conn.new) result }
{
    for account in accounts {
        learn_plain(alloc, conn, account, view)?;
    }
    Ok(())
}

/// Puts the plain units of an account, of every commodity.
fn learn_plain<D: Queryable>(
    alloc: Global,
    conn: &mut D,
    account: &Account,
    view: &mut View,
) -> Result<(), Fault>
    ensures same_reference { D.reference conn.new ≡ D.reference conn.old }
    ensures teaches { Teaches (KnowsPlain account.now)
        (known_with_openings view.old) (known_with_openings view.new)
        (D.shown conn.old) (D.shown conn.new) result }
{
    let rows = list_of(alloc, conn, account)?;
    hold_plain(view, &rows)
}
