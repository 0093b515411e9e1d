ghost use Rattle.std.specs.Prelude.{◌≡◌, IfOk, IsTrue, List, Some};
ghost use Rattle.lot_book.specs.Book.{IsBook};
ghost use Rattle.lot_book.specs.Facts.{Entry};
ghost use Rattle.lot_book.specs.Openings.{AgreesWithOpenings, facts_with_openings};
ghost use Rattle.lot_stored.specs.StandFor.{AreOfBook, StandFor};
ghost use Rattle.lot_load.specs.Damage.{FindsDamage, FindsText};
ghost use Rattle.lot_load.specs.Kept.{IsOf, Keeps, seen, seen_with_openings};
ghost use Rattle.lot_load.specs.Paired.{FindsPaired, KeepsPaired, whole_pairs};
ghost use Rattle.lot_load.specs.Tells.{Tells};
ghost use Rattle.lot_rows.specs.Tables.{layout};
ghost use Rattle.lot_table.specs.Book.{always};
ghost use Rattle.lot_table.specs.Call.{Answers};
ghost use Rattle.sqlite.specs.State.{HasCleanDisk};

use crate::entry::{count, find_text};
use crate::kept::Kept;
use crate::learn::learn_lacking;
use lot_command::{Command, Key};
use lot_table::{Fault, Queryable};
use lot_view::touches;
use std::alloc::Global;

/// Returns what is known of a book once it is looked at for a command with a key.
///
/// It reads the text under the key, and each row that the command touches and that isn't known yet, by its key. Where nothing
/// is kept, it also reads the number of entries. In an open transaction it reads the tables as the transaction has left them.
///
/// The error is `Damaged` only where the tables stand for no book, whatever is kept. Where the text under the key is the
/// canonical text of no command, the call fails, whatever the command is. Else it gives that text, or that there is none,
/// whatever else the tables hold. The call fails, too, where the command posts to an account and a commodity whose lots aren't
/// the same in the tables of lots and of opening numbers, unless all of these is known already.
pub fn look_on<D: Queryable>(
    alloc: Global,
    conn: &mut D,
    kept: Option<Kept>,
    key: &Key,
    command: &Command,
) -> Result<Kept, Fault>
    ensures same_reference { D.reference conn.new ≡ D.reference conn.old }
    ensures looks { Answers layout
        (λ now tables. (entries : List Entry) → IsBook entries → StandFor tables entries
        → IsOf kept entries
        → Keeps now entries
        × AgreesWithOpenings (seen_with_openings now) (facts_with_openings entries key.now)
        command.now)
        always AreOfBook (D.shown conn.old) (D.shown conn.new) result }
    ensures damage { FindsDamage key.now (D.shown conn.old) (D.shown conn.new) result }
    ensures text { FindsText (λ now. (seen now).text) key.now
        (D.shown conn.old) (D.shown conn.new) result }
    ensures paired { FindsPaired kept command.now
        (D.shown conn.old) (D.shown conn.new) result }
    ensures whole { IfOk result (λ now. KeepsPaired kept (Some now)
        (D.shown conn.old) (D.shown conn.new)) }
{
    let text = find_text(alloc, conn, key)?;
    let mut kept = begin(alloc, conn, kept)?;
    let touched = touches(alloc, command)?;
    learn_lacking(alloc, conn, touched, &mut kept)?;
    kept.turn_to(text);
    Ok(kept)
}

/// Returns what is kept, or else what is known once the entries are counted.
fn begin<D: Queryable>(alloc: Global, conn: &mut D, kept: Option<Kept>) -> Result<Kept, Fault>
    requires { HasCleanDisk (D.shown conn.old) → IsTrue (D.shown conn.old).is_open }
    ensures same_reference { D.reference conn.new ≡ D.reference conn.old }
    ensures tells { Tells (λ begun entries. IsOf kept entries → Keeps begun entries)
        (D.shown conn.old) (D.shown conn.new) result }
    ensures whole { IfOk result (λ begun. whole_pairs (Some begun) ≡ whole_pairs kept) }
{
    match kept {
        Some(kept) => Ok(kept),
        None => Ok(Kept::new(alloc, count(alloc, conn)?)),
    }
}
