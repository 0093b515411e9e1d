ghost use Rattle.std.specs.Prelude.{◌≡◌, IfOk, IsErrOf, OnOk};
ghost use Rattle.std.specs.String.{string_bytes};
ghost use Rattle.lot_io.specs.Writes.{HasFailed, NoneFailed};
ghost use Rattle.lot_register.specs.Text.{row_text};
ghost use Rattle.lot_report.specs.Written.{WritesLine};

use crate::leg::NotedLeg;
use crate::line::line_text;
use crate::record::record_text;
use lot_io::CountedWrite;
use lot_num::Units;
use lot_report::{PrintFault, print_texts};
use lot_tally::TableForm;
use std::alloc::{AllocError, Global};

/// Writes the row of a leg with what is left behind it. Out of memory nothing is written.
pub(crate) fn print_row<W: CountedWrite>(
    alloc: Global,
    writer: &mut W,
    form: TableForm,
    leg: &NotedLeg,
    left: Units,
) -> Result<(), PrintFault>
    ensures line { WritesLine (W.contents writer.old) (W.contents writer.new) result
        (row_text form (record { leg = leg.now; left = left })) }
    ensures cause { IsErrOf result PrintFault.Write → HasFailed (W.calls writer.new) }
    ensures none_failed { OnOk result (NoneFailed (W.calls writer.old) (W.calls writer.new)) }
{
    let text = row_text(alloc, form, leg, left)?;
    print_texts(writer, &[text.as_str()])
}

/// Returns the row of a leg with what is left behind it. The only error is out of memory.
fn row_text(
    alloc: Global,
    form: TableForm,
    leg: &NotedLeg,
    left: Units,
) -> Result<String, AllocError>
    ensures { IfOk result (λ text. string_bytes text
        ≡ row_text form (record { leg = leg.now; left = left })) }
{
    match form {
        TableForm::Text => line_text(alloc, leg, left),
        TableForm::Csv => record_text(alloc, leg, left),
    }
}
