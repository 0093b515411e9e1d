use crate::line::PrintFault;
use std::alloc::{AllocError, AllocFailed};
use thiserror::Error;

/// Why a report ended before its end.
#[derive(Clone, Copy, Debug, PartialEq, Eq, Error)]
pub enum ReportFault {
    /// A total leaves the range of weights.
    #[error("a total is too large")]
    Range,
    /// The writer failed.
    #[error("the output can't be written")]
    Write,
    /// There was no memory for a line or a total.
    #[error("out of memory")]
    Memory,
}

impl From<PrintFault> for ReportFault {
    ghost use Rattle.std.specs.Prelude.{◌≡◌};
    ghost use Rattle.lot_report.specs.Report.{report_fault};

    ghost from_gives = { λ fault e. e ≡ report_fault fault };

    fn from(fault: PrintFault) -> ReportFault {
        match fault {
            PrintFault::Write => ReportFault::Write,
            PrintFault::Memory => ReportFault::Memory,
        }
    }
}

impl From<AllocError> for ReportFault {
    ghost use Rattle.std.specs.Prelude.{◌≡◌};
    ghost use Rattle.lot_report.specs.declared.fault.ReportFault.TheVariants.{Memory};

    ghost from_gives = { λ _ e. e ≡ Memory };

    fn from(_error: AllocError) -> ReportFault {
        ReportFault::Memory
    }
}

impl<T: Drop> From<AllocFailed<T>> for ReportFault {
    ghost use Rattle.std.specs.Prelude.{◌≡◌};
    ghost use Rattle.lot_report.specs.declared.fault.ReportFault.TheVariants.{Memory};

    ghost from_gives = { λ _ e. e ≡ Memory };

    fn from(_failed: AllocFailed<T>) -> ReportFault {
        ReportFault::Memory
    }
}

/// Why a row of a report, or its end, wasn't written in full.
#[derive(Clone, Copy, Debug, PartialEq, Eq, Error)]
pub enum RowFault {
    /// The report ends here.
    #[error("{0}")]
    Report(ReportFault),
    /// The report has ended with an earlier fault.
    #[error("the report has ended with a fault")]
    Spent,
}

impl From<ReportFault> for RowFault {
    ghost use Rattle.std.specs.Prelude.{◌≡◌};
    ghost use Rattle.lot_report.specs.declared.fault.RowFault.TheVariants.{Report};

    ghost from_gives = { λ fault e. e ≡ Report fault };

    fn from(fault: ReportFault) -> RowFault {
        RowFault::Report(fault)
    }
}
