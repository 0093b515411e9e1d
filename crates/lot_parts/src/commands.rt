//! The commands of a dump: one under each heading, and none above the first.
ghost use Rattle.std.specs.Prelude.{◌≡◌, ◌∷◌, [], IfErr, IfOk, IfSome, List, ℕ, OnOk, Option, length};
ghost use Rattle.std.specs.Io.KnownBytes.{prepend_known};
ghost use Rattle.lot_read.specs.Text.{Reads};
ghost use Rattle.lot_io.specs.Reads.{reads_between};
ghost use Rattle.lot_stream.specs.Input.{NoneFailed};
ghost use Rattle.lot_parts.specs.Commands.{BeginsCommands, FaultAbove, FaultNext, GoesOn, HasCauseOf, IsFaultBelow, IsFaultIn, IsReadTo, Says, fault_below};
ghost use Rattle.lot_parts.specs.Dump.{Front};
ghost use Rattle.lot_parts.specs.Reading.{part_of};
ghost use Rattle.lot_parts.specs.declared.dumped.Dumped.{Dumped as DumpedValue};

use crate::dumped::Dumped;
use crate::fault::DumpFault;
use crate::reader::DumpReader;
use crate::step::{Step, Sum};
use lot_command::Command;
use lot_dump::{Head, Heading};
use lot_io::CountedRead;
use lot_read::{LineFault, TextFault, read};
use std::alloc::Global;
use thiserror::Error;

/// What comes next among the commands of a dump.
#[derive(Drop)]
pub enum Next {
    /// A command.
    Command(Dumped),
    /// The end, with nothing behind it.
    End(Sum),
}

/// Why the next command of a dump wasn't read.
#[derive(Clone, Copy, Debug, PartialEq, Eq, Error)]
pub enum CommandFault {
    /// The text is no dump, or wasn't read. It is no dump, too, where a heading has no command or several below it, at that
    /// heading, and where a command stands above the first, at the head.
    #[error("{0}")]
    Dump(DumpFault),
    /// A line of the dump, counted from 1, isn't ledger text.
    #[error("line {line}: {fault}")]
    Text { line: u64, fault: LineFault },
}

impl From<DumpFault> for CommandFault {
    ghost use Rattle.std.specs.Prelude.{◌≡◌};
    ghost use Rattle.lot_parts.specs.declared.commands.CommandFault.TheVariants.{Dump};

    ghost from_gives = { λ fault e. e ≡ Dump fault };

    fn from(fault: DumpFault) -> CommandFault {
        CommandFault::Dump(fault)
    }
}

/// The commands of a dump, read one after another.
///
/// All calls must have the same reader.
#[derive(Drop)]
pub struct DumpCommands {
    /// What is read of the dump.
    pub dump: DumpReader,
    /// The text below the heading that was read last.
    pub text: Vec<u8>,
}

impl DumpCommands {
    /// Reads the head of a dump and the text above its first heading, which says no command. Returns what the head says, and
    /// the commands that stand below.
    pub fn begin<R: CountedRead>(
        alloc: Global,
        reader: &mut R,
    ) -> Result<(Head, DumpCommands), CommandFault>
        ensures begins { IfOk result (λ begun. BeginsCommands (R.remaining reader.old)
            (R.remaining reader.new) begun.0 begun.1.dump) }
        ensures fault { IfErr result (FaultAbove (R.remaining reader.old)) }
        ensures calls { OnOk result
            (NoneFailed (reads_between (R.calls reader.old) (R.calls reader.new))) }
        ensures cause { IfErr result
            (HasCauseOf (reads_between (R.calls reader.old) (R.calls reader.new))) }
    {
        let mut text = Vec::new(alloc);
        let (head, dump) = DumpReader::begin(alloc, reader, &mut text)?;
        let commands = read_below(alloc, &text, HEAD_LINE)?;
        if commands.is_empty() {
            Ok((head, DumpCommands { dump, text }))
        } else {
            Err(no_dump_at(HEAD_LINE))
        }
    }

    /// Reads the next command. At the end it returns what that says, and what was found above it.
    ///
    /// It is not called again after the end or an error.
    pub fn next<R: CountedRead>(
        &mut self,
        alloc: Global,
        reader: &mut R,
    ) -> Result<Next, CommandFault>
        ensures goes_on { (start : Option (List ℕ)) (front : Front) (before : List DumpedValue)
            → IsReadTo start (R.remaining reader.old) self.old.dump front before
            → GoesOn start front before (R.remaining reader.new) self.new.dump result }
        ensures fault { IfErr result
            (FaultNext (prepend_known self.old.dump.ahead (R.remaining reader.old)) self.old.dump) }
        ensures calls { OnOk result
            (NoneFailed (reads_between (R.calls reader.old) (R.calls reader.new))) }
        ensures cause { IfErr result
            (HasCauseOf (reads_between (R.calls reader.old) (R.calls reader.new))) }
    {
        let at = self.dump.line();
        match self.dump.next(alloc, reader, &mut self.text)? {
            Step::Entry(heading) => {
                let dumped = dumped_below(alloc, heading, &self.text, at)?;
                Ok(Next::Command(dumped))
            }
            Step::End(sum) => Ok(Next::End(sum)),
        }
    }
}

/// The number of the first line of a dump, its head.
const HEAD_LINE: u64 = 1;

/// Returns the one command of the text below a heading, which stands in that line, with what the heading says.
fn dumped_below(
    alloc: Global,
    heading: Heading,
    text: &[u8],
    at: u64,
) -> Result<Dumped, CommandFault>
    ensures says { IfOk result (Says (part_of heading text.now)) }
    ensures fault { IfErr result (IsFaultBelow at text.now) }
{
    let command = one_command(alloc, text, at)?;
    let Heading { number, key } = heading;
    Ok(Dumped {
        number,
        key,
        command,
    })
}

/// Returns the one command of the text below a line.
fn one_command(alloc: Global, text: &[u8], at: u64) -> Result<Command, CommandFault>
    ensures command { IfOk result (λ command. Reads text.now (command ∷ [])) }
    ensures fault { IfErr result (IsFaultBelow at text.now) }
{
    let mut commands = read_below(alloc, text, at)?;
    match commands.pop() {
        Some(command) => {
            if commands.is_empty() {
                Ok(command)
            } else {
                Err(no_dump_at(at))
            }
        }
        None => Err(no_dump_at(at)),
    }
}

/// Returns the commands of the text below a line.
fn read_below(alloc: Global, text: &[u8], at: u64) -> Result<Vec<Command>, CommandFault>
    ensures commands { IfOk result (λ commands. Reads text.now commands.items) }
    ensures fault { IfErr result (IsFaultIn at text.now) }
{
    read(alloc, text).map_err(|fault| fault_below(at, fault))
}

/// Returns the fault of a dump for that of the text below a line.
fn fault_below(at: u64, fault: TextFault) -> CommandFault
    ensures { result ≡ fault_below at fault }
{
    match fault {
        TextFault::Line { line, fault } => CommandFault::Text {
            line: at.saturating_add(line),
            fault,
        },
        TextFault::Memory { .. } => CommandFault::Dump(DumpFault::Memory),
    }
}

/// Returns the fault of a dump that is none at that line.
fn no_dump_at(line: u64) -> CommandFault
    ensures { result ≡ CommandFault.Dump (DumpFault.NotADump line) }
{
    CommandFault::Dump(DumpFault::NotADump { line })
}
