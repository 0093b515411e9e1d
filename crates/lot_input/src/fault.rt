ghost use Rattle.std.specs.Prelude.{◌≡◌, IfErr, OnErr, OnOk};
ghost use Rattle.lot_io.specs.Writes.{HasFailed, NoneFailed};
ghost use Rattle.lot_report.specs.Written.{WritesLine};
ghost use Rattle.lot_input.specs.InputLine.{cash_line, cause_name, input_line, memory_line, rows_line, status_of_cash, status_of_input, status_of_rows};
ghost use Rattle.lot_input.specs.StatementLine.{line_cause_name, statement_line, status_of_statement};

use crate::export_fault::{print_export_fault, status_of_export};
use itoa::Buffer;
use lot_export::ExportFault;
use lot_import::{Cause, KeyedFault, RowsFault};
use lot_io::CountedWrite;
use lot_read::TextFault;
use lot_report::{PrintFault, print_texts};
use lot_statement::{LineCause, StatementFault};
use lot_stream::{Fault, SlurpFault, Status, print_fault};
use std::alloc::AllocError;
use thiserror::Error;

/// Why an input gives no commands.
#[derive(Clone, Copy, Debug, PartialEq, Eq, Error)]
pub enum InputFault {
    /// Out of memory before anything was read.
    #[error("out of memory")]
    Unasked,
    /// The input couldn't be read to its end.
    #[error("{0}")]
    Unread(SlurpFault),
    /// It isn't ledger text.
    #[error("{0}")]
    Text(TextFault),
    /// It isn't a broker file with rows.
    #[error("{0}")]
    Rows(RowsFault),
    /// The cash that one of its rows moves isn't units.
    #[error("{0}")]
    Cash(KeyedFault),
    /// It is a broker's export that comes to nothing by its profile.
    #[error("{0}")]
    Export(ExportFault),
    /// It isn't a statement.
    #[error("{0}")]
    Statement(StatementFault),
    /// Out of memory for the keys of the commands of ledger text.
    #[error("out of memory")]
    Memory,
}

impl From<SlurpFault> for InputFault {
    ghost use Rattle.std.specs.Prelude.{◌≡◌};
    ghost use Rattle.lot_input.specs.declared.fault.InputFault.TheVariants.{Unread};

    ghost from_gives = { λ fault e. e ≡ Unread fault };

    fn from(fault: SlurpFault) -> InputFault {
        InputFault::Unread(fault)
    }
}

impl From<TextFault> for InputFault {
    ghost use Rattle.std.specs.Prelude.{◌≡◌};
    ghost use Rattle.lot_input.specs.declared.fault.InputFault.TheVariants.{Text};

    ghost from_gives = { λ fault e. e ≡ Text fault };

    fn from(fault: TextFault) -> InputFault {
        InputFault::Text(fault)
    }
}

impl From<RowsFault> for InputFault {
    ghost use Rattle.std.specs.Prelude.{◌≡◌};
    ghost use Rattle.lot_input.specs.declared.fault.InputFault.TheVariants.{Rows};

    ghost from_gives = { λ fault e. e ≡ Rows fault };

    fn from(fault: RowsFault) -> InputFault {
        InputFault::Rows(fault)
    }
}

impl From<KeyedFault> for InputFault {
    ghost use Rattle.std.specs.Prelude.{◌≡◌};
    ghost use Rattle.lot_input.specs.declared.fault.InputFault.TheVariants.{Cash};

    ghost from_gives = { λ fault e. e ≡ Cash fault };

    fn from(fault: KeyedFault) -> InputFault {
        InputFault::Cash(fault)
    }
}

impl From<AllocError> for InputFault {
    ghost use Rattle.std.specs.Prelude.{◌≡◌};
    ghost use Rattle.lot_input.specs.declared.fault.InputFault.TheVariants.{Memory};

    ghost from_gives = { λ _ e. e ≡ Memory };

    fn from(_error: AllocError) -> InputFault {
        InputFault::Memory
    }
}

impl InputFault {
    /// Returns how an action ends whose input has that fault.
    pub fn status(self) -> Status
        ensures { result ≡ status_of_input self }
    {
        match self {
            InputFault::Unread(fault) => Fault::from(fault).status(),
            InputFault::Text(fault) => Fault::from(fault).status(),
            InputFault::Rows(fault) => status_of_rows(fault),
            InputFault::Cash(fault) => status_of_cash(fault),
            InputFault::Export(fault) => status_of_export(fault),
            InputFault::Statement(fault) => status_of_statement(fault),
            InputFault::Unasked | InputFault::Memory => Status::Stopped,
        }
    }
}

/// Writes the line that reports why an input gives no commands. It takes no memory, which may have ended. The only fault is
/// that of the writer.
pub fn print_input_fault<W: CountedWrite>(
    writer: &mut W,
    fault: InputFault,
) -> Result<(), PrintFault>
    ensures bytes { WritesLine (W.contents writer.old) (W.contents writer.new) result
        (input_line fault) }
    ensures fault { IfErr result (λ fault. fault ≡ PrintFault.Write) }
    ensures cause { OnErr result (HasFailed (W.calls writer.new)) }
    ensures none_failed { OnOk result (NoneFailed (W.calls writer.old) (W.calls writer.new)) }
{
    match fault {
        InputFault::Unread(fault) => print_fault(writer, Fault::from(fault)),
        InputFault::Text(fault) => print_fault(writer, Fault::from(fault)),
        InputFault::Rows(fault) => print_rows_fault(writer, fault),
        InputFault::Cash(fault) => print_cash_fault(writer, fault),
        InputFault::Export(fault) => print_export_fault(writer, fault),
        InputFault::Statement(fault) => print_statement_fault(writer, fault),
        InputFault::Unasked | InputFault::Memory => print_memory(writer),
    }
}

/// Writes the line that memory ended.
pub(crate) fn print_memory<W: CountedWrite>(writer: &mut W) -> Result<(), PrintFault>
    ensures bytes { WritesLine (W.contents writer.old) (W.contents writer.new) result memory_line }
    ensures fault { IfErr result (λ fault. fault ≡ PrintFault.Write) }
    ensures cause { OnErr result (HasFailed (W.calls writer.new)) }
    ensures none_failed { OnOk result (NoneFailed (W.calls writer.old) (W.calls writer.new)) }
{
    print_texts(writer, &["fault Memory\n"])
}

fn status_of_rows(fault: RowsFault) -> Status
    ensures { result ≡ status_of_rows fault }
{
    match fault {
        RowsFault::Memory => Status::Stopped,
        RowsFault::BadHeader | RowsFault::BadRow { .. } | RowsFault::TooManyRows => {
            Status::BadInput
        }
    }
}

fn status_of_cash(fault: KeyedFault) -> Status
    ensures { result ≡ status_of_cash fault }
{
    match fault {
        KeyedFault::Memory => Status::Stopped,
        KeyedFault::InexactAmount { .. } => Status::BadInput,
    }
}

/// Writes the same of an input that has no rows.
fn print_rows_fault<W: CountedWrite>(writer: &mut W, fault: RowsFault) -> Result<(), PrintFault>
    ensures bytes { WritesLine (W.contents writer.old) (W.contents writer.new) result
        (rows_line fault) }
    ensures fault { IfErr result (λ fault. fault ≡ PrintFault.Write) }
    ensures cause { OnErr result (HasFailed (W.calls writer.new)) }
    ensures none_failed { OnOk result (NoneFailed (W.calls writer.old) (W.calls writer.new)) }
{
    let mut digits = Buffer::new();
    match fault {
        RowsFault::BadHeader => print_texts(writer, &["fault header C1 BadHeader\n"]),
        RowsFault::BadRow { row, cause } => {
            let texts = [
                "fault row ",
                digits.format(row),
                " C2 BadRow ",
                cause_name(cause),
                "\n",
            ];
            print_texts(writer, &texts)
        }
        RowsFault::TooManyRows => print_texts(writer, &["fault C3 TooManyRows\n"]),
        RowsFault::Memory => print_memory(writer),
    }
}

/// Writes the same of an input with a row that has no command.
fn print_cash_fault<W: CountedWrite>(writer: &mut W, fault: KeyedFault) -> Result<(), PrintFault>
    ensures bytes { WritesLine (W.contents writer.old) (W.contents writer.new) result
        (cash_line fault) }
    ensures fault { IfErr result (λ fault. fault ≡ PrintFault.Write) }
    ensures cause { OnErr result (HasFailed (W.calls writer.new)) }
    ensures none_failed { OnOk result (NoneFailed (W.calls writer.old) (W.calls writer.new)) }
{
    let mut digits = Buffer::new();
    match fault {
        KeyedFault::InexactAmount { row } => {
            let texts = ["fault row ", digits.format(row), " C4 InexactAmount\n"];
            print_texts(writer, &texts)
        }
        KeyedFault::Memory => print_memory(writer),
    }
}

/// Returns the name of the cause by which a row is faulty.
fn cause_name(cause: Cause) -> &'static str
    ensures { result.now ≡ cause_name cause }
{
    match cause {
        Cause::Length => "Length",
        Cause::Ref => "Ref",
        Cause::Date => "Date",
        Cause::Action => "Action",
        Cause::Symbol => "Symbol",
        Cause::Units => "Units",
        Cause::Price => "Price",
        Cause::Currency => "Currency",
        Cause::Fee => "Fee",
        Cause::Lot => "Lot",
    }
}

fn status_of_statement(fault: StatementFault) -> Status
    ensures { result ≡ status_of_statement fault }
{
    match fault {
        StatementFault::Memory => Status::Stopped,
        StatementFault::BadHeader | StatementFault::BadRow { .. } => Status::BadInput,
    }
}

/// Writes the same of an input that is no statement.
fn print_statement_fault<W: CountedWrite>(
    writer: &mut W,
    fault: StatementFault,
) -> Result<(), PrintFault>
    ensures bytes { WritesLine (W.contents writer.old) (W.contents writer.new) result
        (statement_line fault) }
    ensures fault { IfErr result (λ fault. fault ≡ PrintFault.Write) }
    ensures cause { OnErr result (HasFailed (W.calls writer.new)) }
    ensures none_failed { OnOk result (NoneFailed (W.calls writer.old) (W.calls writer.new)) }
{
    let mut digits = Buffer::new();
    match fault {
        StatementFault::BadHeader => print_texts(writer, &["fault header C1 BadHeader\n"]),
        StatementFault::BadRow { row, cause } => {
            let texts = [
                "fault row ",
                digits.format(row),
                " C2 BadRow ",
                line_cause_name(cause),
                "\n",
            ];
            print_texts(writer, &texts)
        }
        StatementFault::Memory => print_memory(writer),
    }
}

/// Returns the name of the cause by which a row of a statement is faulty.
fn line_cause_name(cause: LineCause) -> &'static str
    ensures { result.now ≡ line_cause_name cause }
{
    match cause {
        LineCause::Length => "Length",
        LineCause::Commodity => "Commodity",
        LineCause::Units => "Units",
        LineCause::Repeated => "Repeated",
    }
}
