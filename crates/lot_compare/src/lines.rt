ghost use Rattle.std.specs.Prelude.{◌≡◌, ◌∷◌, [], IsErrOf, OnOk, SomeIff};
ghost use Rattle.lot_io.specs.Writes.{HasFailed, NoneFailed};
ghost use Rattle.lot_report.specs.Written.{WritesLine};
ghost use Rattle.lot_num.specs.Amount.{IsUnits};
ghost use Rattle.lot_compare.specs.Lines.{IsSumText, WritesLines, WritesOne, line_with, of_kind, word};
ghost use Rattle.lot_compare.specs.Sums.{differing};

use crate::subject::Subject;
use crate::sums::{Sides, Sums};
use lot_io::CountedWrite;
use lot_num::{Units, Wide};
use lot_report::{PrintFault, ReportFault, print_line};
use std::alloc::Global;

/// What a line says of two books.
#[derive(Clone, Copy, Debug, PartialEq, Eq)]
pub(crate) enum Kind {
    /// What the sales of a year gained in a currency, at scale 16.
    Gained,
    /// What an account holds of a commodity, at scale 8.
    Held,
}

impl Kind {
    /// Returns what a line begins with.
    fn word(self) -> &'static str
        ensures { result.now ≡ word self }
    {
        match self {
            Kind::Gained => "gains ",
            Kind::Held => "held ",
        }
    }

    /// Returns the text of a sum. Returns `Range` where it can't be printed, else the only error is out of memory.
    fn text(self, alloc: Global, sum: i128) -> Result<String, ReportFault>
        ensures { IsSumText self sum result }
    {
        match self {
            Kind::Gained => gain_text(alloc, sum),
            Kind::Held => units_text(alloc, sum),
        }
    }
}

fn gain_text(alloc: Global, sum: i128) -> Result<String, ReportFault>
    ensures { IsSumText Kind.Gained sum result }
{
    let Some(gain) = Wide::from_mantissa(sum) else {
        return Err(ReportFault::Range);
    };
    Ok(gain.text_money(alloc)?)
}

fn units_text(alloc: Global, sum: i128) -> Result<String, ReportFault>
    ensures { IsSumText Kind.Held sum result }
{
    let Some(units) = units_of(sum) else {
        return Err(ReportFault::Range);
    };
    Ok(units.text(alloc)?)
}

/// Returns the units with a mantissa, or `None` where it is out of their range.
fn units_of(sum: i128) -> Option<Units>
    ensures { SomeIff result (IsUnits sum) sum }
{
    Units::from_mantissa(i64::try_from(sum).ok()?)
}

/// Writes a line for each subject in which the sums differ, in the order of the subjects. Nothing is flushed. The error is one
/// of these:
///
/// - `Range`: a sum can't be printed. The lines before are written.
/// - `Memory`: out of memory. Some lines are written, each whole, but not all.
/// - `Write`: the writer fails. A prefix of the lines is written, but not all of them.
pub(crate) fn print_differing<W: CountedWrite>(
    alloc: Global,
    kind: Kind,
    sums: &Sums,
    writer: &mut W,
) -> Result<(), ReportFault>
    ensures lines { WritesLines (of_kind kind (differing sums.now.sums.entries))
        (W.contents writer.old) (W.contents writer.new) result }
    ensures cause { IsErrOf result ReportFault.Write → HasFailed (W.calls writer.new) }
    ensures none_failed { OnOk result (NoneFailed (W.calls writer.old) (W.calls writer.new)) }
{
    for (subject, sides) in &sums.sums {
        print_if_differing(alloc, kind, subject, *sides, writer)?;
    }
    Ok(())
}

/// Writes the line of a subject, if its sums differ.
fn print_if_differing<W: CountedWrite>(
    alloc: Global,
    kind: Kind,
    subject: &Subject,
    sides: Sides,
    writer: &mut W,
) -> Result<(), ReportFault>
    ensures lines { WritesLines (of_kind kind (differing ((subject.now, sides) ∷ [])))
        (W.contents writer.old) (W.contents writer.new) result }
    ensures cause { IsErrOf result ReportFault.Write → HasFailed (W.calls writer.new) }
    ensures none_failed { OnOk result (NoneFailed (W.calls writer.old) (W.calls writer.new)) }
{
    if sides.new == sides.old {
        return Ok(());
    }
    print_difference(alloc, kind, subject, sides, writer)
}

/// Writes the line of a difference.
fn print_difference<W: CountedWrite>(
    alloc: Global,
    kind: Kind,
    subject: &Subject,
    sides: Sides,
    writer: &mut W,
) -> Result<(), ReportFault>
    ensures line { WritesOne (kind, (subject.now, sides))
        (W.contents writer.old) (W.contents writer.new) result }
    ensures cause { IsErrOf result ReportFault.Write → HasFailed (W.calls writer.new) }
    ensures none_failed { OnOk result (NoneFailed (W.calls writer.old) (W.calls writer.new)) }
{
    let new = kind.text(alloc, sides.new)?;
    let old = kind.text(alloc, sides.old)?;
    print_parts(writer, kind, subject, new.as_str(), old.as_str())?;
    Ok(())
}

/// Writes a line with the texts of its sums. A fault is one of the writer, or out of memory.
fn print_parts<W: CountedWrite>(
    writer: &mut W,
    kind: Kind,
    subject: &Subject,
    new: &str,
    old: &str,
) -> Result<(), PrintFault>
    ensures line { WritesLine (W.contents writer.old) (W.contents writer.new) result
        (line_with kind subject.now new.now old.now) }
    ensures cause { IsErrOf result PrintFault.Write → HasFailed (W.calls writer.new) }
    ensures none_failed { OnOk result (NoneFailed (W.calls writer.old) (W.calls writer.new)) }
{
    let word = kind.word();
    let what = subject.what.as_str();
    let commodity = &subject.commodity;
    print_line(
        writer,
        format_args!("{word}{what} {commodity} {new} was {old}"),
    )
}
