ghost use Rattle.std.specs.Prelude.{◌≡◌};
ghost use Rattle.lot_book_report.specs.Fault.{fault_name, is_of_writer, report_fault_name, walk_fault_name};

use lot_report::{JournalFault, PrintFault, ReportFault, RowFault};
use lot_store::{StoreFault, WalkFault};
use std::alloc::AllocError;
use thiserror::Error;

/// Why a report of a book ends before its end.
#[derive(Clone, Copy, Debug, PartialEq, Eq, Error)]
pub enum ShowFault {
    /// The book stops.
    #[error("{0}")]
    Walk(WalkFault),
    /// The report stops.
    #[error("{0}")]
    Row(RowFault),
}

impl ShowFault {
    /// Returns the code and the name of the fault (docs/RULES.md, All codes).
    pub fn name(self) -> &'static str
        ensures { result.now ≡ fault_name self }
    {
        match self {
            ShowFault::Walk(fault) => walk_fault_name(fault),
            ShowFault::Row(RowFault::Report(fault)) => report_fault_name(fault),
            ShowFault::Row(RowFault::Spent) => "P3 Spent",
        }
    }

    /// Returns whether the writer failed.
    pub fn is_of_writer(self) -> bool
        ensures { result ≡ is_of_writer self }
    {
        matches!(self, ShowFault::Row(RowFault::Report(ReportFault::Write)))
    }
}

fn walk_fault_name(fault: WalkFault) -> &'static str
    ensures { result.now ≡ walk_fault_name fault }
{
    match fault {
        WalkFault::Failed(fault) => fault.name(),
        WalkFault::Ended => "S8 Ended",
    }
}

fn report_fault_name(fault: ReportFault) -> &'static str
    ensures { result.now ≡ report_fault_name fault }
{
    match fault {
        ReportFault::Range => "P1 Range",
        ReportFault::Write => "P2 Write",
        ReportFault::Memory => "Memory",
    }
}

impl From<WalkFault> for ShowFault {
    ghost use Rattle.std.specs.Prelude.{◌≡◌};
    ghost use Rattle.lot_book_report.specs.declared.fault.ShowFault.TheVariants.{Walk};

    ghost from_gives = { λ fault e. e ≡ Walk fault };

    fn from(fault: WalkFault) -> ShowFault {
        ShowFault::Walk(fault)
    }
}

impl From<StoreFault> for ShowFault {
    ghost use Rattle.std.specs.Prelude.{◌≡◌};
    ghost use Rattle.lot_book_report.specs.declared.fault.ShowFault.TheVariants.{Walk};
    ghost use Rattle.lot_store.specs.declared.walk.WalkFault.TheVariants.{Failed};

    ghost from_gives = { λ fault e. e ≡ Walk (Failed fault) };

    fn from(fault: StoreFault) -> ShowFault {
        ShowFault::Walk(WalkFault::Failed(fault))
    }
}

impl From<AllocError> for ShowFault {
    ghost use Rattle.std.specs.Prelude.{◌≡◌};
    ghost use Rattle.lot_book_report.specs.declared.fault.ShowFault.TheVariants.{Walk};
    ghost use Rattle.lot_store.specs.declared.fault.StoreFault.TheVariants.{Memory};
    ghost use Rattle.lot_store.specs.declared.walk.WalkFault.TheVariants.{Failed};

    ghost from_gives = { λ _ e. e ≡ Walk (Failed Memory) };

    fn from(_error: AllocError) -> ShowFault {
        ShowFault::from(StoreFault::Memory)
    }
}

impl From<RowFault> for ShowFault {
    ghost use Rattle.std.specs.Prelude.{◌≡◌};
    ghost use Rattle.lot_book_report.specs.declared.fault.ShowFault.TheVariants.{Row};

    ghost from_gives = { λ fault e. e ≡ Row fault };

    fn from(fault: RowFault) -> ShowFault {
        ShowFault::Row(fault)
    }
}

impl From<PrintFault> for ShowFault {
    ghost use Rattle.std.specs.Prelude.{◌≡◌};
    ghost use Rattle.lot_book_report.specs.declared.fault.ShowFault.TheVariants.{Row};
    ghost use Rattle.lot_report.specs.Report.{report_fault};
    ghost use Rattle.lot_report.specs.declared.fault.RowFault.TheVariants.{Report};

    ghost from_gives = { λ fault e. e ≡ Row (Report (report_fault fault)) };

    fn from(fault: PrintFault) -> ShowFault {
        ShowFault::Row(RowFault::Report(ReportFault::from(fault)))
    }
}

impl From<JournalFault> for ShowFault {
    ghost use Rattle.std.specs.Prelude.{◌≡◌};
    ghost use Rattle.lot_book_report.specs.Fault.{of_journal};

    ghost from_gives = { λ fault e. e ≡ of_journal fault };

    fn from(fault: JournalFault) -> ShowFault {
        match fault {
            JournalFault::Write => ShowFault::Row(RowFault::Report(ReportFault::Write)),
            JournalFault::Spent => ShowFault::Row(RowFault::Spent),
        }
    }
}
