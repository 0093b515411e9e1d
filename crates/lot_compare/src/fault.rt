ghost use Rattle.std.specs.Prelude.{◌≡◌};
ghost use Rattle.lot_compare.specs.Fault.{fault_name, is_of_writer};

use lot_book_report::ShowFault;
use lot_report::{ReportFault, RowFault};
use thiserror::Error;

/// Why two books aren't compared to the end.
#[derive(Clone, Copy, Debug, PartialEq, Eq, Error)]
pub enum CompareFault {
    /// The new book stops, or a sum of it is out of range.
    #[error("{0}")]
    New(ShowFault),
    /// The old book stops, or a sum of it is out of range.
    #[error("{0}")]
    Old(ShowFault),
    /// The lines stop.
    #[error("{0}")]
    Lines(ReportFault),
}

impl CompareFault {
    /// Returns the code and the name of the fault (docs/RULES.md, All codes).
    pub fn name(self) -> &'static str
        ensures { result.now ≡ fault_name self }
    {
        match self {
            CompareFault::New(fault) => fault.name(),
            CompareFault::Old(fault) => fault.name(),
            CompareFault::Lines(fault) => ShowFault::Row(RowFault::Report(fault)).name(),
        }
    }

    /// Returns whether the writer failed.
    pub fn is_of_writer(self) -> bool
        ensures { result ≡ is_of_writer self }
    {
        matches!(self, CompareFault::Lines(ReportFault::Write))
    }
}
