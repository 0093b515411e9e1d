ghost use Rattle.std.specs.Prelude.{◌≡◌, None, false};
ghost use Rattle.lot_stream.specs.Status.{IsStatus};
ghost use Rattle.lot_cli.specs.Serve.{SaysVerified};
ghost use Rattle.sqlite.specs.Held.{state};
ghost use Rattle.sqlite.specs.State.{HasCleanDisk};
ghost use Rattle.lot_cli.specs.Says.{told};
ghost use Rattle.lot_io.specs.Writes.{writes_between};

use crate::action::Served;
use crate::halt::Halt;
use crate::report::write_digest;
use crate::run::{halted, tell};
use lot_args::Saying;
use lot_io::CountedWrite;
use lot_report::print_texts;
use lot_store::{Book, HandedBack};
use lot_stream::Status;
use sqlite::{Alter, Connection};
use std::alloc::Global;

/// Verifies the book that is there, and writes what is asked for.
pub(crate) fn verify<W: CountedWrite, S: Alter>(
    alloc: Global,
    saying: Saying,
    writer: &mut W,
    conn: Connection<S>,
) -> Served<S>
    requires outside { conn.in_transaction ≡ false }
    requires unlimited { conn.step_limit ≡ None }
    ensures verifies { SaysVerified saying (state S.Store conn) (state S.Store result.conn)
        (W.contents writer.old) (W.contents writer.new)
        (writes_between (W.calls writer.old) (W.calls writer.new))
        (told result.status result.halt) }
    ensures outside { HasCleanDisk (state S.Store result.conn)
        → result.conn.in_transaction ≡ false }
    ensures status { IsStatus result.status }
{
    match lot_verify::verify(alloc, conn) {
        Ok(conn) => match saying {
            Saying::Verified => {
                let printed = print_texts(writer, &["book verified\n"]);
                Served {
                    status: tell(writer, printed, Status::Accepted),
                    halt: None,
                    conn,
                }
            }
            Saying::Digest => {
                let book = Book::ready_over(alloc, conn);
                write_digest(writer, book)
            }
        },
        Err(HandedBack { fault, conn }) => halted(writer, Halt::Verify(fault), conn),
    }
}
