ghost use Rattle.std.specs.Prelude.{◌≡◌, ◌++◌, IfErr, OnErr, OnOk};
ghost use Rattle.lot_io.specs.Writes.{HasFailed, NoneFailed};
ghost use Rattle.lot_report.specs.Printed.{argument_text, line, name_text, refusal_text, reply, shown};
ghost use Rattle.lot_report.specs.Written.{WritesLine};

use crate::line::{PrintFault, print_texts};
use itoa::Buffer;
use lot_base::Commodity;
use lot_book::{Refusal, Verdict};
use lot_io::CountedWrite;

/// Writes the reply to the command of that number: that it was accepted, that it repeats an entry, or why it was refused.
///
/// It takes no memory. The only fault is that of the writer. A prefix of the line is then written, but not all of it.
pub fn print_reply<W: CountedWrite>(
    writer: &mut W,
    number: usize,
    verdict: &Verdict,
) -> Result<(), PrintFault>
    ensures bytes { WritesLine (W.contents writer.old) (W.contents writer.new) result
        (reply number verdict.now) }
    ensures fault { IfErr result (λ fault. fault ≡ PrintFault.Write) }
    ensures cause { OnErr result (HasFailed (W.calls writer.new)) }
    ensures none_failed { OnOk result (NoneFailed (W.calls writer.old) (W.calls writer.new)) }
{
    let mut digits = Buffer::new();
    match verdict {
        Verdict::Accepted => print_texts(writer, &[digits.format(number), " accepted\n"]),
        Verdict::Repeated => print_texts(writer, &[digits.format(number), " repeat\n"]),
        Verdict::Refused(refusal) => print_refusal(writer, digits.format(number), refusal),
    }
}

/// Writes why what that text names was refused.
///
/// It takes no memory. The only fault is that of the writer. A prefix of the line is then written, but not all of it.
pub fn print_refusal<W: CountedWrite>(
    writer: &mut W,
    named: &str,
    refusal: &Refusal,
) -> Result<(), PrintFault>
    ensures bytes { WritesLine (W.contents writer.old) (W.contents writer.new) result
        (line (named.now ++ refusal_text refusal.now)) }
    ensures fault { IfErr result (λ fault. fault ≡ PrintFault.Write) }
    ensures cause { OnErr result (HasFailed (W.calls writer.new)) }
    ensures none_failed { OnOk result (NoneFailed (W.calls writer.old) (W.calls writer.new)) }
{
    let name = name(refusal);
    match argument_of(refusal) {
        Argument::None => print_texts(writer, &[named, " refused ", name, "\n"]),
        Argument::Posting(posting) => {
            let mut digits = Buffer::new();
            let posting = digits.format(posting);
            let texts = [named, " refused ", name, " posting ", posting, "\n"];
            print_texts(writer, &texts)
        }
        Argument::Currency(currency) => {
            let texts = [named, " refused ", name, " ", currency.as_str(), "\n"];
            print_texts(writer, &texts)
        }
    }
}

/// Returns the code and the name of a refusal.
fn name(refusal: &Refusal) -> &str
    ensures { result.now ≡ name_text refusal.now }
{
    match refusal {
        Refusal::KeyReused => "L1 KeyReused",
        Refusal::AlreadyOpen => "L2 AlreadyOpen",
        Refusal::UnknownAccount { .. } => "L3 UnknownAccount",
        Refusal::NotOpenYet { .. } => "L4 NotOpenYet",
        Refusal::Closed { .. } => "L5 Closed",
        Refusal::AlreadyDeclared => "L6 AlreadyDeclared",
        Refusal::CurrencyNotAllowed { .. } => "L7 CurrencyNotAllowed",
        Refusal::TooManyPostings => "L8 TooManyPostings",
        Refusal::TwoElided => "L9 TwoElided",
        Refusal::BackDated { .. } => "L10 BackDated",
        Refusal::Range { .. } => "L11 Range",
        Refusal::InexactFill { .. } => "L12 InexactFill",
        Refusal::FillNotAllowed { .. } => "L13 FillNotAllowed",
        Refusal::NotBalanced { .. } => "L14 NotBalanced",
        Refusal::TooManyLots { .. } => "L15 TooManyLots",
        Refusal::BookFull => "L16 BookFull",
        Refusal::NoMatch { .. } => "B1 NoMatch",
        Refusal::Ambiguous { .. } => "B2 Ambiguous",
        Refusal::NotEnough { .. } => "B3 NotEnough",
        Refusal::IncompleteCost { .. } => "B4 IncompleteCost",
        Refusal::InexactCost { .. } => "B5 InexactCost",
        Refusal::ZeroUnits { .. } => "B6 ZeroUnits",
    }
}

/// The argument of a refusal.
enum Argument<'a> {
    None,
    /// The place of a posting, from 1.
    Posting(usize),
    Currency(&'a Commodity),
}

/// Returns the argument of a refusal.
fn argument_of(refusal: &Refusal) -> Argument<'_>
    ensures { shown result ≡ argument_text refusal.now }
{
    match refusal {
        Refusal::UnknownAccount { posting }
        | Refusal::NotOpenYet { posting }
        | Refusal::Closed { posting } => match posting {
            Some(posting) => Argument::Posting(*posting),
            None => Argument::None,
        },
        Refusal::CurrencyNotAllowed { posting }
        | Refusal::BackDated { posting }
        | Refusal::NoMatch { posting }
        | Refusal::Ambiguous { posting }
        | Refusal::NotEnough { posting }
        | Refusal::IncompleteCost { posting }
        | Refusal::InexactCost { posting }
        | Refusal::ZeroUnits { posting }
        | Refusal::Range { posting }
        | Refusal::TooManyLots { posting } => Argument::Posting(*posting),
        Refusal::InexactFill { currency }
        | Refusal::FillNotAllowed { currency }
        | Refusal::NotBalanced { currency } => Argument::Currency(currency),
        Refusal::KeyReused
        | Refusal::AlreadyOpen
        | Refusal::AlreadyDeclared
        | Refusal::TooManyPostings
        | Refusal::TwoElided
        | Refusal::BookFull => Argument::None,
    }
}
