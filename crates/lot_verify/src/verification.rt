ghost use Rattle.std.specs.Prelude.{◌≡◌, ◌≢◌, IfErr, IfOk, List, None, false};
ghost use Rattle.lot_book.specs.Facts.{Entry};
ghost use Rattle.lot_page.specs.Cursor.{Stays};
ghost use Rattle.lot_rows.specs.Tables.{Has, Tables};
ghost use Rattle.lot_store.specs.Create.{IsHandedBack, IsTaken};
ghost use Rattle.lot_stored.specs.StandFor.{Stands};
ghost use Rattle.lot_verify.specs.Verify.{NotVerified};
ghost use Rattle.sqlite.specs.Held.{state};
ghost use Rattle.sqlite.specs.State.{HasCleanDisk, Survives};

use crate::fault::VerifyFault;
use lot_audit::{Unwatched, judge_book};
use lot_store::{HandedBack, adopt};
use sqlite::{Alter, Connection};
use std::alloc::Global;

/// Judges the whole book again from its entries, compares every table, and gives the connection
/// back. It changes nothing.
///
/// Let the database have the tables of a book and no others. Unless memory or the disk fails, the
/// call is `Ok` exactly where the tables stand for a book of this edition. `NotABook`,
/// `OlderEdition` and `NewerEdition` come from the table `book`, as `adopt` tells them. `Damaged`
/// is returned where `adopt` takes the database up as a book and its tables stand for none.
/// `Device` comes only where the disk failed.
///
/// After an error the connection is outside a transaction, and every row is as it was.
pub fn verify<S: Alter>(
    alloc: Global,
    conn: Connection<S>,
) -> Result<Connection<S>, HandedBack<S, VerifyFault>>
    requires outside { conn.in_transaction ≡ false }
    requires unlimited { conn.step_limit ≡ None }
    ensures stands { IfOk result (λ new. HasCleanDisk (state S.Store new)
        → (tables : Tables) → Has (state S.Store conn) tables
        → (entries : List Entry) × Stands (state S.Store conn) entries) }
    ensures taken { IfOk result (λ new. HasCleanDisk (state S.Store new)
        → IsTaken (state S.Store conn)) }
    ensures refused { IfErr result (λ left. HasCleanDisk (state S.Store left.conn)
        → left.fault ≢ VerifyFault.Device → left.fault ≢ VerifyFault.Memory
        → (entries : List Entry) → ¬ Stands (state S.Store conn) entries) }
    ensures tells { IfErr result (λ left. HasCleanDisk (state S.Store left.conn)
        → NotVerified (state S.Store conn) (state S.Store left.conn) left.fault) }
    ensures same { IfOk result (λ new. HasCleanDisk (state S.Store new)
        → Stays (state S.Store conn) (state S.Store new)) }
    ensures handed_back { IfErr result (λ left. HasCleanDisk (state S.Store left.conn)
        → IsHandedBack (state S.Store conn) (state S.Store left.conn)) }
    ensures crash_ok { IfOk result (λ new. Survives (state S.Store conn) (state S.Store new)
        (λ _. ⊥)) }
    ensures crash_err { IfErr result (λ left.
        Survives (state S.Store conn) (state S.Store left.conn) (λ _. ⊥)) }
{
    match adopt(alloc, conn) {
        Ok(book) => {
            let mut conn = book.into_connection();
            // Outside a transaction the tables are those of the last commit.
            let _settled = conn.is_autocommit();
            match judge_book(alloc, &mut conn, &mut Unwatched) {
                Ok(()) => Ok(conn),
                Err(fault) => Err(HandedBack {
                    fault: VerifyFault::from(fault),
                    conn,
                }),
            }
        }
        Err(HandedBack { fault, conn }) => Err(HandedBack {
            fault: VerifyFault::from(fault),
            conn,
        }),
    }
}
