ghost use Rattle.std.specs.Prelude.{◌≡◌, None, false};
ghost use Rattle.lot_stream.specs.Status.{IsStatus};
ghost use Rattle.lot_cli.specs.Serve.{SaysMigrated};
ghost use Rattle.sqlite.specs.Held.{state};
ghost use Rattle.sqlite.specs.State.{HasCleanDisk};
ghost use Rattle.lot_cli.specs.Says.{told};
ghost use Rattle.lot_io.specs.Writes.{writes_between};

use crate::action::Served;
use crate::halt::Halt;
use crate::run::{halted, tell};
use lot_io::CountedWrite;
use lot_migrate::Progress;
use lot_report::print_texts;
use lot_store::HandedBack;
use lot_stream::Status;
use sqlite::{Alter, Connection};
use std::alloc::Global;

/// Takes over the book that is there, if it is of edition 1.
pub(crate) fn migrate<W: CountedWrite, P: Progress, S: Alter>(
    alloc: Global,
    writer: &mut W,
    progress: &mut P,
    conn: Connection<S>,
) -> Served<S>
    requires outside { conn.in_transaction ≡ false }
    requires unlimited { conn.step_limit ≡ None }
    ensures takes_over { SaysMigrated (state S.Store conn) (state S.Store result.conn)
        (W.contents writer.old) (W.contents writer.new)
        (writes_between (W.calls writer.old) (W.calls writer.new))
        (told result.status result.halt) }
    ensures outside { HasCleanDisk (state S.Store result.conn)
        → result.conn.in_transaction ≡ false }
    ensures status { IsStatus result.status }
{
    match lot_migrate::migrate(alloc, conn, progress) {
        Ok(conn) => {
            let printed = print_texts(writer, &["book migrated\n"]);
            Served {
                status: tell(writer, printed, Status::Accepted),
                halt: None,
                conn,
            }
        }
        Err(HandedBack { fault, conn }) => halted(writer, Halt::Migrate(fault), conn),
    }
}
