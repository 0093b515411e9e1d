ghost use Rattle.std.specs.Prelude.{◌≡◌, IfErr, OnErr, OnOk};
ghost use Rattle.lot_io.specs.Writes.{HasFailed, NoneFailed};
ghost use Rattle.lot_report.specs.Written.{WritesLine};
ghost use Rattle.lot_cli.specs.HaltLine.{
  adopt_name,
  create_name,
  halt_line,
  migrate_name,
  status_of_halt,
  verify_name,
};

use crate::unrestored::{print_restore_fault, status_of_restore};
use lot_input::{InputFault, print_input_fault};
use lot_io::CountedWrite;
use lot_migrate::MigrateFault;
use lot_report::{PrintFault, print_texts};
use lot_restore::RestoreFault;
use lot_store::{AdoptFault, CreateFault, StoreFault};
use lot_stream::Status;
use lot_verify::VerifyFault;

/// Why an action comes to nothing: its input, its book or its dump.
#[derive(Clone, Copy, Debug, PartialEq, Eq)]
pub enum Halt {
    /// What was read gives no commands.
    Input(InputFault),
    /// The book isn't made.
    Create(CreateFault),
    /// The book isn't taken up.
    Adopt(AdoptFault),
    /// The book isn't migrated.
    Migrate(MigrateFault),
    /// The book isn't verified.
    Verify(VerifyFault),
    /// No book is made of a dump.
    Restore(RestoreFault),
}

impl Halt {
    /// Returns how an action ends that has ended for that reason.
    pub fn status(self) -> Status
        ensures { result ≡ status_of_halt self }
    {
        match self {
            Halt::Input(fault) => fault.status(),
            Halt::Restore(fault) => status_of_restore(fault),
            Halt::Create(_) | Halt::Adopt(_) | Halt::Migrate(_) | Halt::Verify(_) => {
                Status::Stopped
            }
        }
    }
}

/// Writes the line that reports why an action ended. It takes no memory, which may have ended. The only fault is that of the
/// writer.
pub(crate) fn print_halt<W: CountedWrite>(writer: &mut W, halt: Halt) -> Result<(), PrintFault>
    ensures bytes { WritesLine (W.contents writer.old) (W.contents writer.new) result
        (halt_line halt) }
    ensures fault { IfErr result (λ fault. fault ≡ PrintFault.Write) }
    ensures cause { OnErr result (HasFailed (W.calls writer.new)) }
    ensures none_failed { OnOk result (NoneFailed (W.calls writer.old) (W.calls writer.new)) }
{
    match halt {
        Halt::Input(fault) => print_input_fault(writer, fault),
        Halt::Create(fault) => print_texts(writer, &["fault ", create_name(fault), "\n"]),
        Halt::Adopt(fault) => print_texts(writer, &["fault ", adopt_name(fault), "\n"]),
        Halt::Migrate(fault) => print_texts(writer, &["fault ", migrate_name(fault), "\n"]),
        Halt::Verify(fault) => print_texts(writer, &["fault ", verify_name(fault), "\n"]),
        Halt::Restore(fault) => print_restore_fault(writer, fault),
    }
}

/// Returns the code and the name of a fault of making a book.
pub(crate) fn create_name(fault: CreateFault) -> &'static str
    ensures { result.now ≡ create_name fault }
{
    match fault {
        CreateFault::NotABook => "S1 NotABook",
        CreateFault::Device => StoreFault::Device.name(),
        CreateFault::InDoubt => StoreFault::InDoubt.name(),
        CreateFault::Memory => StoreFault::Memory.name(),
    }
}

/// Returns the code and the name of a fault of taking up a book.
fn adopt_name(fault: AdoptFault) -> &'static str
    ensures { result.now ≡ adopt_name fault }
{
    match fault {
        AdoptFault::NotABook => "S1 NotABook",
        AdoptFault::NewerEdition => "S2 NewerEdition",
        AdoptFault::OlderEdition => "S3 OlderEdition",
        AdoptFault::Device => StoreFault::Device.name(),
        AdoptFault::Memory => StoreFault::Memory.name(),
    }
}

/// Returns the code and the name of a fault of a migration.
fn migrate_name(fault: MigrateFault) -> &'static str
    ensures { result.now ≡ migrate_name fault }
{
    match fault {
        MigrateFault::NotABook => "S1 NotABook",
        MigrateFault::NewerEdition => "S2 NewerEdition",
        MigrateFault::Device => StoreFault::Device.name(),
        MigrateFault::InDoubt => StoreFault::InDoubt.name(),
        MigrateFault::Damaged => StoreFault::Damaged.name(),
        MigrateFault::Memory => StoreFault::Memory.name(),
    }
}

/// Returns the code and the name of a fault of verifying a book.
fn verify_name(fault: VerifyFault) -> &'static str
    ensures { result.now ≡ verify_name fault }
{
    match fault {
        VerifyFault::NotABook => "S1 NotABook",
        VerifyFault::NewerEdition => "S2 NewerEdition",
        VerifyFault::OlderEdition => "S3 OlderEdition",
        VerifyFault::Device => StoreFault::Device.name(),
        VerifyFault::Damaged => StoreFault::Damaged.name(),
        VerifyFault::Memory => StoreFault::Memory.name(),
    }
}
