ghost use Rattle.std.specs.Prelude.{◌≡◌, ◌++◌, ◌∷◌, [], IsTrue, IfOk, IfErr, OnOk};
ghost use Rattle.lot_read.specs.Reading.{Continues, Posted, Stops, may_post, of_line};
ghost use Rattle.lot_read.specs.Text.{IsFaultOf, Reads, takes_posting};

use crate::fault::TextFault;
use crate::line::{Context, LineRoom, statement};
use crate::statement::{Statement, StatementFault};
use lot_command::{Command, Posting};
use lot_syntax::Lines;
use std::alloc::{AllocFailed, Global};

/// Returns the commands that a ledger text says (docs/FORMATS.md, Ledger text). The error is the first faulty line with its
/// fault, or out of memory.
pub fn read(alloc: Global, text: &[u8]) -> Result<Vec<Command>, TextFault>
    ensures commands { IfOk result (λ commands. Reads text.now commands.items) }
    ensures fault { IfErr result (λ fault. IsFaultOf text.now fault) }
{
    let mut commands = Vec::new(alloc);
    let mut kept = LineRoom::new(alloc);
    let mut number = 0u64;
    for line in Lines::new(text) {
        number += 1;
        if let Err(fault) = take(&mut commands, &mut kept, line) {
            return Err(at_line(number, fault));
        }
    }
    Ok(commands)
}

/// Returns the fault of a text for that of a line.
fn at_line(line: u64, fault: StatementFault) -> TextFault
    ensures { result ≡ of_line line fault }
{
    match fault {
        StatementFault::Line(fault) => TextFault::Line { line, fault },
        StatementFault::Memory => TextFault::Memory { line },
    }
}

/// Adds what the next line says to the commands so far.
fn take<'a>(
    commands: &mut Vec<Command>,
    kept: &mut LineRoom<'a>,
    line: &'a [u8],
) -> Result<(), StatementFault>
    ensures ok { OnOk result (Continues line.now commands.old.items commands.new.items) }
    ensures fault { IfErr result (λ fault. Stops line.now commands.old.items fault) }
{
    match statement(kept, line, context_behind(commands))? {
        None => Ok(()),
        Some(Statement::Begins(command)) => {
            end_last(commands);
            Ok(commands.push(command)?)
        }
        Some(Statement::Posts(posting)) => Ok(post(commands, posting)?),
    }
}

/// Returns where the line behind these commands stands.
fn context_behind(commands: &[Command]) -> Context
    ensures { may_post result ≡ takes_posting commands.now }
{
    let Some(last) = commands.last() else {
        return Context::Elsewhere;
    };
    match last {
        Command::Transaction(_) => Context::InTransaction,
        _ => Context::Elsewhere,
    }
}

/// Gives back memory that the last command doesn't take. No posting comes to it any more.
fn end_last(commands: &mut Vec<Command>)
    ensures { commands.new.items ≡ commands.old.items }
{
    let Some(last) = commands.last_mut() else {
        return;
    };
    if let Command::Transaction(transaction) = last {
        transaction.postings.shrink_to_fit();
    }
}

/// Appends a posting to the last command, which is a transaction.
fn post(commands: &mut Vec<Command>, posting: Posting) -> Result<(), AllocFailed<Posting>>
    requires { IsTrue (takes_posting commands.old.items) }
    ensures { OnOk result (Posted posting commands.old.items commands.new.items) }
{
    let Some(last) = commands.last_mut() else {
        unreachable!()
    };
    match last {
        Command::Transaction(transaction) => transaction.postings.push(posting),
        _ => unreachable!(),
    }
}
