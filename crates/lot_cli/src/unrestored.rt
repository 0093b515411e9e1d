//! Why no book is made of a dump.
ghost use Rattle.std.specs.Prelude.{◌≡◌, IfErr, OnErr, OnOk};
ghost use Rattle.lot_io.specs.Writes.{HasFailed, NoneFailed};
ghost use Rattle.lot_report.specs.Written.{WritesLine};
ghost use Rattle.lot_cli.specs.HaltLine.{dump_name, restore_line, status_of_dump, status_of_restore, sum_name};

use crate::halt::create_name;
use lot_io::CountedWrite;
use lot_parts::{CommandFault, DumpFault, SumFault};
use lot_report::{PrintFault, print_texts};
use lot_restore::RestoreFault;
use lot_stream::{Fault, Status, print_fault};

/// Returns how an action ends that makes no book of a dump for that reason.
pub(crate) fn status_of_restore(fault: RestoreFault) -> Status
    ensures { result ≡ status_of_restore fault }
{
    match fault {
        RestoreFault::Text(CommandFault::Dump(fault)) => status_of_dump(fault),
        RestoreFault::Text(CommandFault::Text { .. }) | RestoreFault::Sum(_) => Status::BadInput,
        RestoreFault::Book(_) | RestoreFault::Write => Status::Stopped,
    }
}

/// Returns the same where the text is no dump, or wasn't read.
fn status_of_dump(fault: DumpFault) -> Status
    ensures { result ≡ status_of_dump fault }
{
    match fault {
        DumpFault::Memory => Status::Stopped,
        _ => Status::BadInput,
    }
}

/// Writes the line that reports why no book is made of a dump. A fault of the writer has none. It takes no memory, which may have
/// ended. The only fault is that of the writer.
pub(crate) fn print_restore_fault<W: CountedWrite>(
    writer: &mut W,
    fault: RestoreFault,
) -> Result<(), PrintFault>
    ensures bytes { WritesLine (W.contents writer.old) (W.contents writer.new) result
        (restore_line fault) }
    ensures fault { IfErr result (λ fault. fault ≡ PrintFault.Write) }
    ensures cause { OnErr result (HasFailed (W.calls writer.new)) }
    ensures none_failed { OnOk result (NoneFailed (W.calls writer.old) (W.calls writer.new)) }
{
    match fault {
        RestoreFault::Book(fault) => print_texts(writer, &["fault ", create_name(fault), "\n"]),
        RestoreFault::Text(CommandFault::Dump(fault)) => {
            print_texts(writer, &["fault ", dump_name(fault), "\n"])
        }
        RestoreFault::Text(CommandFault::Text { line, fault }) => {
            print_fault(writer, Fault::Text { line, fault })
        }
        RestoreFault::Sum(fault) => print_texts(writer, &["fault ", sum_name(fault), "\n"]),
        RestoreFault::Write => Ok(()),
    }
}

/// Returns the code and the name of a fault of a text that is no dump, or wasn't read.
fn dump_name(fault: DumpFault) -> &'static str
    ensures { result.now ≡ dump_name fault }
{
    match fault {
        DumpFault::NotADump { .. } => concat!("D", "1 NotADump"),
        DumpFault::NewerFormat => concat!("D", "2 NewerFormat"),
        DumpFault::Read => "K1 Read",
        DumpFault::TooLong => "K2 TooLong",
        DumpFault::Memory => "Memory",
    }
}

/// Returns the code and the name of a fault of a dump that was changed.
fn sum_name(fault: SumFault) -> &'static str
    ensures { result.now ≡ sum_name fault }
{
    match fault {
        SumFault::WrongDigest => concat!("D", "3 WrongDigest"),
        SumFault::WrongCount => concat!("D", "4 WrongCount"),
    }
}
