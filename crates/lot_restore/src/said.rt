//! The lines that restoring writes.
ghost use Rattle.std.specs.Prelude.{◌≡◌, ◌++◌, IfErr, OnErr, OnOk};
ghost use Rattle.lot_io.specs.Writes.{HasFailed, NoneFailed};
ghost use Rattle.lot_report.specs.Printed.{line, refusal_text};
ghost use Rattle.lot_report.specs.Written.{WritesLine};
ghost use Rattle.lot_restore.specs.Lines.{entry_text, unmet_line, verdict_line};

use itoa::Buffer;
use lot_book::{Refusal, Verdict};
use lot_io::CountedWrite;
use lot_parts::Dumped;
use lot_report::{PrintFault, print_refusal, print_texts};
use lot_without::Without;

/// Writes what is said of a command that came to a verdict: nothing where it was accepted. It takes no memory.
///
/// The only fault is that of the writer. A prefix of the line is then written, but not all of it.
pub(crate) fn print_verdict<W: CountedWrite>(
    writer: &mut W,
    dumped: &Dumped,
    verdict: &Verdict,
) -> Result<(), PrintFault>
    ensures bytes { WritesLine (W.contents writer.old) (W.contents writer.new) result
        (verdict_line dumped.now verdict.now) }
    ensures fault { IfErr result (λ fault. fault ≡ PrintFault.Write) }
    ensures cause { OnErr result (HasFailed (W.calls writer.new)) }
    ensures none_failed { OnOk result (NoneFailed (W.calls writer.old) (W.calls writer.new)) }
{
    match verdict {
        Verdict::Accepted => Ok(()),
        Verdict::Repeated => print_refused(writer, dumped, &Refusal::KeyReused),
        Verdict::Refused(refusal) => print_refused(writer, dumped, refusal),
    }
}

/// Writes why the entry of a dump was refused.
fn print_refused<W: CountedWrite>(
    writer: &mut W,
    dumped: &Dumped,
    refusal: &Refusal,
) -> Result<(), PrintFault>
    ensures bytes { WritesLine (W.contents writer.old) (W.contents writer.new) result
        (entry_text dumped.now.number dumped.now.key ++ line (refusal_text refusal.now)) }
    ensures fault { IfErr result (λ fault. fault ≡ PrintFault.Write) }
    ensures cause { OnErr result (HasFailed (W.calls writer.new)) }
    ensures none_failed { OnOk result (NoneFailed (W.calls writer.old) (W.calls writer.new)) }
{
    let mut digits = Buffer::new();
    let key = &dumped.key;
    let texts = [
        "entry ",
        digits.format(dumped.number),
        " key ",
        key.source.as_str(),
        " ",
        key.name.as_str(),
    ];
    print_texts(writer, &texts)?;
    print_refusal(writer, "", refusal)
}

/// Writes that an option leaves out no entry. It takes no memory.
///
/// The only fault is that of the writer. A prefix of the line is then written, but not all of it.
pub(crate) fn print_unmet<W: CountedWrite>(
    writer: &mut W,
    without: &Without,
) -> Result<(), PrintFault>
    ensures bytes { WritesLine (W.contents writer.old) (W.contents writer.new) result
        (unmet_line without.now) }
    ensures fault { IfErr result (λ fault. fault ≡ PrintFault.Write) }
    ensures cause { OnErr result (HasFailed (W.calls writer.new)) }
    ensures none_failed { OnOk result (NoneFailed (W.calls writer.old) (W.calls writer.new)) }
{
    match without {
        Without::Key(key) => {
            let texts = [
                "without ",
                key.source.as_str(),
                " ",
                key.name.as_str(),
                " met nothing\n",
            ];
            print_texts(writer, &texts)
        }
        Without::Batch(source) => {
            print_texts(
                writer,
                &["without-batch ", source.as_str(), " met nothing\n"],
            )
        }
        Without::Entries { first, last } => {
            let [mut from, mut to] = [Buffer::new(); 2];
            let texts = [
                "without-entries ",
                from.format(*first),
                "-",
                to.format(*last),
                " met nothing\n",
            ];
            print_texts(writer, &texts)
        }
    }
}
