ghost use Rattle.std.specs.Prelude.{◌≡◌, ◌≤◌, length, flat_map, IfOk, IfErr, IsErrOf, IfSome, OnErr, OnOk};
ghost use Rattle.std.specs.Fmt.{with_newline};
ghost use Rattle.lot_io.specs.Writes.{HasFailed, NoneFailed};
ghost use Rattle.lot_report.specs.Written.{IsTaken, WritesLine, longest_written};

use arrayvec::ArrayString;
use lot_io::CountedWrite;
use std::alloc::AllocError;
use std::fmt::{Display, Write as _};
use std::io::{self, ErrorKind};
use thiserror::Error;

/// Why a line wasn't written in full.
#[derive(Clone, Copy, Debug, PartialEq, Eq, Error)]
pub enum PrintFault {
    /// The writer failed.
    #[error("the output can't be written")]
    Write,
    /// There was no memory for the line.
    #[error("out of memory")]
    Memory,
}

impl From<AllocError> for PrintFault {
    ghost use Rattle.std.specs.Prelude.{◌≡◌};
    ghost use Rattle.lot_report.specs.declared.line.PrintFault.TheVariants.{Memory};

    ghost from_gives = { λ _ e. e ≡ Memory };

    fn from(_error: AllocError) -> PrintFault {
        PrintFault::Memory
    }
}

/// The most bytes that a line may have, its line end included (`longest_written` of the definitions). The longest possible line
/// has 368: a valued lot with the longest names, numbers and label.
const LONGEST: usize = 512;

/// Writes a text and a line end. It takes no memory.
///
/// Returns `Memory` where the line has more than `LONGEST` bytes, and the writer is as it was. No contract says when this is.
/// Returns `Write` where the writer fails, or takes nothing: a prefix of the line is written, but not all of it. A write that
/// was interrupted is tried again, up to `u64::MAX` calls.
pub fn print_line<W: CountedWrite, T: Display + Drop>(
    writer: &mut W,
    text: T,
) -> Result<(), PrintFault>
    ensures bytes { IfSome (with_newline (T.output text))
        (WritesLine (W.contents writer.old) (W.contents writer.new) result) }
    // Out of memory, the writer is as it was.
    ensures memory { IsErrOf result PrintFault.Memory → writer.new ≡ writer.old }
    // A fault of the writer comes only with a line that there was room for.
    ensures write { IsErrOf result PrintFault.Write
        → IfSome (with_newline (T.output text)) (λ line. length line ≤ longest_written) }
    ensures cause { IsErrOf result PrintFault.Write → HasFailed (W.calls writer.new) }
    ensures none_failed { OnOk result (NoneFailed (W.calls writer.old) (W.calls writer.new)) }
{
    let line = line_of(text)?;
    put(writer, line.as_str().as_bytes())
}

/// Returns a text and a line end, or `Memory` where there is no room for them.
fn line_of<T: Display + Drop>(text: T) -> Result<ArrayString<LONGEST>, PrintFault>
    ensures bytes { IfSome (with_newline (T.output text))
        (λ bytes. IfOk result (λ line. line.bytes ≡ bytes)) }
    ensures room { LONGEST ≡ longest_written }
    ensures fault { IfErr result (λ fault. fault ≡ PrintFault.Memory) }
{
    let mut line = ArrayString::new();
    match writeln!(line, "{text}") {
        Ok(()) => Ok(line),
        Err(_) => Err(PrintFault::Memory),
    }
}

/// Writes a line, given as its texts, the line end among them. It takes no memory. A line of at most `LONGEST` bytes goes to
/// the writer in one piece.
///
/// The only fault is that of the writer. A prefix of the line is then written, but not all of it.
pub fn print_texts<W: CountedWrite>(writer: &mut W, texts: &[&str]) -> Result<(), PrintFault>
    ensures bytes { WritesLine (W.contents writer.old) (W.contents writer.new) result
        (flat_map (λ text. text.now) texts.now) }
    ensures fault { IfErr result (λ fault. fault ≡ PrintFault.Write) }
    ensures cause { OnErr result (HasFailed (W.calls writer.new)) }
    ensures none_failed { OnOk result (NoneFailed (W.calls writer.old) (W.calls writer.new)) }
{
    match joined(texts) {
        Some(line) => put(writer, line.as_str().as_bytes()),
        None => put_all(writer, texts),
    }
}

/// Returns texts one behind another, if there is room for them.
fn joined(texts: &[&str]) -> Option<ArrayString<LONGEST>>
    ensures { IfSome result (λ line. line.bytes ≡ flat_map (λ text. text.now) texts.now) }
{
    let mut line = ArrayString::new();
    for text in texts {
        let Ok(()) = line.try_push_str(text) else {
            return None;
        };
    }
    Some(line)
}

/// Writes texts one behind another. It takes no memory. The only fault is that of the writer. A prefix of the texts is then
/// written, but not all of them.
pub(crate) fn put_all<W: CountedWrite>(writer: &mut W, texts: &[&str]) -> Result<(), PrintFault>
    ensures bytes { WritesLine (W.contents writer.old) (W.contents writer.new) result
        (flat_map (λ text. text.now) texts.now) }
    ensures fault { IfErr result (λ fault. fault ≡ PrintFault.Write) }
    ensures cause { OnErr result (HasFailed (W.calls writer.new)) }
    ensures none_failed { OnOk result (NoneFailed (W.calls writer.old) (W.calls writer.new)) }
{
    for text in texts {
        put(writer, text.as_bytes())?;
    }
    Ok(())
}

/// Writes bytes. After a fault a prefix of them is written, but not all.
fn put<W: CountedWrite>(writer: &mut W, bytes: &[u8]) -> Result<(), PrintFault>
    ensures bytes { WritesLine (W.contents writer.old) (W.contents writer.new) result bytes.now }
    ensures fault { IfErr result (λ fault. fault ≡ PrintFault.Write) }
    ensures cause { OnErr result (HasFailed (W.calls writer.new)) }
    ensures none_failed { OnOk result (NoneFailed (W.calls writer.old) (W.calls writer.new)) }
{
    let mut rest = bytes;
    for _made in 0..u64::MAX {
        if rest.is_empty() {
            return Ok(());
        }
        let count = taken(writer.write_counted(rest))?;
        rest = &rest[count..];
    }
    if rest.is_empty() {
        Ok(())
    } else {
        Err(PrintFault::Write)
    }
}

/// Returns how many bytes a call of `write` took of those that it was given. An interrupted call took none, so it is tried
/// again. A call that took nothing, or failed otherwise, is a fault of the writer.
fn taken(outcome: io::Result<usize>) -> Result<usize, PrintFault>
    ensures { IsTaken outcome result }
{
    match outcome {
        Ok(0) => Err(PrintFault::Write),
        Ok(count) => Ok(count),
        Err(error) if error.kind() == ErrorKind::Interrupted => Ok(0),
        Err(_) => Err(PrintFault::Write),
    }
}
