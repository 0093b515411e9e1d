//! A dump: the whole book as a text from which the same book can be made again.
ghost use Rattle.std.specs.Prelude.{◌≡◌, ◌++◌, ℕ, Err, IfErr, IfOk, List, OnErr, OnOk};
ghost use Rattle.lot_book_report.specs.Dump.{HoldsOfPlacedBook, IsDigestOfTables, IsSomeDigest, ShowsBody, ShowsBodyOfTables, ShowsDump, ShowsDumpOfTables, ShowsSomeBody, ShowsSomeDump, digest_of, dump_head};
ghost use Rattle.lot_book_report.specs.Fault.{HasCause};
ghost use Rattle.lot_book_report.specs.Show.{HoldsOfTables, IsOfBook, ReadsBook};
ghost use Rattle.lot_io.specs.Writes.{HasFailed, NoneFailed, writes_between};
ghost use Rattle.lot_report.specs.Written.{WritesLine};
ghost use Rattle.lot_store.specs.Extent.{extent_of};
ghost use Rattle.lot_stored.specs.Rows.{entry_rows};
ghost use Rattle.sha2.specs.Hashers.{Holds256};

use crate::digest::BookDigest;
use crate::fault::ShowFault;
use crate::heard::add_texts;
use crate::journal::write_entries;
use crate::unwritten::Unwritten;
use itoa::Buffer;
use lot_io::CountedWrite;
use lot_report::{PrintFault, print_texts};
use lot_store::{Book, Extent, StoreFault};
use sha2::{Digest, Sha256};
use sqlite::Alter;

/// Writes a dump of a book: a line with its place of migration and how many entries it has, the journal, and a line with the
/// SHA-256 of all before it. It takes no memory for them. Nothing is flushed.
///
/// Where the book stops, the entries before are written, and nothing behind them, or nothing at all. Where the writer fails, a
/// prefix of the dump is written, but not all of it, and the book can still be used. Where the call succeeds, all rows of
/// the table are written, whatever the tables stand for.
pub fn show_dump<S: Alter, W: CountedWrite>(
    book: &mut Book<S>,
    writer: &mut W,
) -> Result<(), ShowFault>
    ensures shows { HoldsOfPlacedBook S.Store book.old book.new
        (λ place entries. ShowsDump (extent_of place entries) (entry_rows 1 entries)
        (W.contents writer.old) (W.contents writer.new) result) }
    ensures lines { ShowsSomeDump (W.contents writer.old) (W.contents writer.new) result }
    ensures rows { HoldsOfTables S.Store book.old book.new
        (λ tables. ShowsDumpOfTables tables
        (W.contents writer.old) (W.contents writer.new) result) }
    ensures reads { ReadsBook S.Store book.old book.new result }
    ensures cause { HasCause result (writes_between (W.calls writer.old) (W.calls writer.new)) }
{
    let digest = write_body(book, writer)?;
    Ok(digest.print_behind("; end ", writer)?)
}

/// Returns what the last line of a dump of the book says. Nothing is written.
///
/// The only fault is one of the book.
pub fn digest_book<S: Alter>(book: &mut Book<S>) -> Result<BookDigest, ShowFault>
    ensures digest { HoldsOfPlacedBook S.Store book.old book.new
        (λ place entries. IfOk result (λ digest.
        digest ≡ digest_of (extent_of place entries) (entry_rows 1 entries))) }
    ensures some { IsSomeDigest result }
    ensures rows { HoldsOfTables S.Store book.old book.new
        (λ tables. IsDigestOfTables tables result) }
    ensures reads { ReadsBook S.Store book.old book.new result }
    ensures fault { IfErr result IsOfBook }
{
    match write_body(book, &mut Unwritten {}) {
        Ok(digest) => Ok(digest),
        Err(ShowFault::Walk(fault)) => Err(ShowFault::Walk(fault)),
        // This writer takes all.
        Err(ShowFault::Row(_)) => Err(ShowFault::from(StoreFault::Memory)),
    }
}

/// Writes all of a dump but its last line, and returns what that says.
fn write_body<S: Alter, W: CountedWrite>(
    book: &mut Book<S>,
    writer: &mut W,
) -> Result<BookDigest, ShowFault>
    ensures shows { HoldsOfPlacedBook S.Store book.old book.new
        (λ place entries. ShowsBody (extent_of place entries) (entry_rows 1 entries)
        (W.contents writer.old) (W.contents writer.new) result) }
    ensures lines { ShowsSomeBody (W.contents writer.old) (W.contents writer.new) result }
    ensures rows { HoldsOfTables S.Store book.old book.new
        (λ tables. ShowsBodyOfTables tables
        (W.contents writer.old) (W.contents writer.new) result) }
    ensures reads { ReadsBook S.Store book.old book.new result }
    ensures cause { IfErr result
        (λ fault. HasCause (Err fault) (writes_between (W.calls writer.old) (W.calls writer.new))) }
    ensures none_failed { OnOk result (NoneFailed (W.calls writer.old) (W.calls writer.new)) }
{
    let extent = book.extent()?;
    let mut hasher = Sha256::new();
    write_head(&extent, &mut hasher, writer)?;
    write_entries(book, &mut hasher, writer)?;
    Ok(BookDigest {
        entries: extent.entries,
        sha256: hasher.finalize(),
    })
}

/// Writes the first line of a dump, and adds it to the message that is hashed.
///
/// The only fault is that of the writer. A prefix of the line is then written, but not all of it.
fn write_head<W: CountedWrite>(
    extent: &Extent,
    hasher: &mut Sha256,
    writer: &mut W,
) -> Result<(), PrintFault>
    ensures bytes { WritesLine (W.contents writer.old) (W.contents writer.new) result
        (dump_head extent.now) }
    ensures heard { (message : List ℕ) → Holds256 hasher.old message
        → Holds256 hasher.new (message ++ dump_head extent.now) }
    ensures fault { IfErr result (λ fault. fault ≡ PrintFault.Write) }
    ensures cause { OnErr result (HasFailed (W.calls writer.new)) }
    ensures none_failed { OnOk result (NoneFailed (W.calls writer.old) (W.calls writer.new)) }
{
    let mut place = Buffer::new();
    let mut count = Buffer::new();
    let texts = [
        "; lotbook dump 1 edition 2 migrated ",
        place.format(extent.place),
        " entries ",
        count.format(extent.entries),
        "\n",
    ];
    add_texts(hasher, &texts);
    print_texts(writer, &texts)
}
