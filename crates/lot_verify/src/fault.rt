use lot_store::AdoptFault;
use lot_table::Fault;
use thiserror::Error;

/// Why a database isn't verified as a book.
#[derive(Clone, Copy, Debug, PartialEq, Eq, Error)]
pub enum VerifyFault {
    /// The table `book` isn't one row with the mark of a book and an edition.
    #[error("the database is no book")]
    NotABook,
    /// The edition of the book is older than this program.
    #[error("the book is of an older edition")]
    OlderEdition,
    /// The edition of the book is newer than this program.
    #[error("the book is of a newer edition")]
    NewerEdition,
    /// The disk failed.
    #[error("the disk failed")]
    Device,
    /// The tables stand for no book.
    #[error("the tables of the book are damaged")]
    Damaged,
    /// Out of memory.
    #[error("out of memory")]
    Memory,
}

impl From<Fault> for VerifyFault {
    ghost use Rattle.std.specs.Prelude.{◌≡◌};
    ghost use Rattle.lot_verify.specs.Fault.{verify_fault_of};

    ghost from_gives = { λ fault e. e ≡ verify_fault_of fault };

    fn from(fault: Fault) -> VerifyFault {
        match fault {
            Fault::Device => VerifyFault::Device,
            Fault::Damaged => VerifyFault::Damaged,
            Fault::Memory => VerifyFault::Memory,
        }
    }
}

impl From<AdoptFault> for VerifyFault {
    ghost use Rattle.std.specs.Prelude.{◌≡◌};
    ghost use Rattle.lot_verify.specs.Fault.{not_taken};

    ghost from_gives = { λ fault e. e ≡ not_taken fault };

    fn from(fault: AdoptFault) -> VerifyFault {
        match fault {
            AdoptFault::NotABook => VerifyFault::NotABook,
            AdoptFault::OlderEdition => VerifyFault::OlderEdition,
            AdoptFault::NewerEdition => VerifyFault::NewerEdition,
            AdoptFault::Device => VerifyFault::Device,
            AdoptFault::Memory => VerifyFault::Memory,
        }
    }
}
