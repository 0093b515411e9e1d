//! The line that reports why a broker's export gives no commands.
ghost use Rattle.std.specs.Prelude.{◌≡◌, IfErr, OnErr, OnOk};
ghost use Rattle.lot_io.specs.Writes.{HasFailed, NoneFailed};
ghost use Rattle.lot_report.specs.Written.{WritesLine};
ghost use Rattle.lot_input.specs.ExportLine.{export_line, name_of_name, name_of_row, name_of_saying, numbered, status_of_export};

use crate::fault::print_memory;
use itoa::Buffer;
use lot_export::ExportFault;
use lot_io::CountedWrite;
use lot_report::{PrintFault, print_texts};
use lot_roles::RowFault;
use lot_sheet::{NameCause, RowCause};
use lot_stream::Status;

/// Returns how an action ends whose input has that fault.
pub(crate) fn status_of_export(fault: ExportFault) -> Status
    ensures { result ≡ status_of_export fault }
{
    match fault {
        ExportFault::Memory => Status::Stopped,
        _ => Status::BadInput,
    }
}

/// Writes the line that reports why an export gives no commands. The only fault is that of the writer.
pub(crate) fn print_export_fault<W: CountedWrite>(
    writer: &mut W,
    fault: ExportFault,
) -> Result<(), PrintFault>
    ensures bytes { WritesLine (W.contents writer.old) (W.contents writer.new) result
        (export_line fault) }
    ensures fault { IfErr result (λ fault. fault ≡ PrintFault.Write) }
    ensures cause { OnErr result (HasFailed (W.calls writer.new)) }
    ensures none_failed { OnOk result (NoneFailed (W.calls writer.old) (W.calls writer.new)) }
{
    match fault {
        ExportFault::NotText { line } => print_numbered(writer, "line ", line, " C5 NotText", ""),
        ExportFault::NoHeader => print_texts(writer, &["fault header C1 BadHeader\n"]),
        ExportFault::BadHeader { line, cause } => {
            print_numbered(writer, "line ", line, " C1 BadHeader ", name_of_name(cause))
        }
        ExportFault::BadRow { row, cause } => {
            print_numbered(writer, "row ", row, " C2 BadRow ", name_of_row(cause))
        }
        ExportFault::TooManyRows => print_texts(writer, &["fault C3 TooManyRows\n"]),
        ExportFault::Row { row, fault } => {
            print_numbered(writer, "row ", row, " C2 BadRow ", name_of_saying(fault))
        }
        ExportFault::Order { row } => print_numbered(writer, "row ", row, " C6 AgainstOrder", ""),
        ExportFault::NothingLeft { row } => {
            print_numbered(writer, "row ", row, " C7 NoPurchase", "")
        }
        ExportFault::TooLarge { row } => print_numbered(
            writer,
            "row ",
            row,
            " C4 InexactAmount",
            "",
        ),
        ExportFault::Memory => print_memory(writer),
    }
}

/// Writes the line of a fault of the line or the row of that number.
fn print_numbered<W: CountedWrite>(
    writer: &mut W,
    place: &'static str,
    number: usize,
    code: &'static str,
    cause: &'static str,
) -> Result<(), PrintFault>
    ensures bytes { WritesLine (W.contents writer.old) (W.contents writer.new) result
        (numbered place.now number code.now cause.now) }
    ensures fault { IfErr result (λ fault. fault ≡ PrintFault.Write) }
    ensures cause { OnErr result (HasFailed (W.calls writer.new)) }
    ensures none_failed { OnOk result (NoneFailed (W.calls writer.old) (W.calls writer.new)) }
{
    let mut digits = Buffer::new();
    let texts = ["fault ", place, digits.format(number), code, cause, "\n"];
    print_texts(writer, &texts)
}

/// Returns the name of what is wrong with a name in a header.
fn name_of_name(cause: NameCause) -> &'static str
    ensures { result.now ≡ name_of_name cause }
{
    match cause {
        NameCause::Missing => "Missing",
        NameCause::Twice => "Twice",
    }
}

/// Returns the name of the cause for which a line isn't a row of one table.
fn name_of_row(cause: RowCause) -> &'static str
    ensures { result.now ≡ name_of_row cause }
{
    match cause {
        RowCause::NoTable => "NoTable",
        RowCause::TwoTables { .. } => "TwoTables",
        RowCause::Longer => "Length",
    }
}

/// Returns the name of the cause for which a row says nothing that can be posted.
fn name_of_saying(fault: RowFault) -> &'static str
    ensures { result.now ≡ name_of_saying fault }
{
    match fault {
        RowFault::NoKind => "NoKind",
        RowFault::TwoKinds { .. } => "TwoKinds",
        RowFault::Missing(_) => "Missing",
        RowFault::NotNumber(_) => "Number",
        RowFault::TooManyDecimals(_) => "Decimals",
        RowFault::TooLarge(_) => "Range",
        RowFault::BelowZero(_) => "BelowZero",
        RowFault::NotCommodity(_) => "Commodity",
        RowFault::NotDay(_) => "Day",
        RowFault::NotTime => "Time",
        RowFault::NoAccount(_) => "NoAccount",
        RowFault::BadAccount(_) => "Account",
        RowFault::NotRatio => "Ratio",
        RowFault::RatioTooLarge => "RatioTooLarge",
        RowFault::NothingAdded => "NothingAdded",
        RowFault::Signs => "Signs",
        RowFault::Disagree => "Disagree",
        RowFault::RateZero => "Rate",
        RowFault::TaxSign => "TaxSign",
        RowFault::BookedAtOdds => "Booked",
        RowFault::BookedSign => "BookedSign",
        RowFault::SameCurrency => "SameCurrency",
        RowFault::CostDayLater => "CostDay",
        RowFault::PriceApart => "PriceApart",
        RowFault::PriceSign => "PriceSign",
        RowFault::CancelledSale => "CancelledSale",
        RowFault::Memory => "Memory",
    }
}
