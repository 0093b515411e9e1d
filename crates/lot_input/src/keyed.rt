ghost use Rattle.std.specs.Prelude.{◌≡◌, ◌≤◌, IfOk, IsTrue, length};
ghost use Rattle.std.specs.List.{range_with_len};
ghost use Rattle.lot_base.specs.Name.{is_label};
ghost use Rattle.lot_input.specs.Keyed.{HaveNext, keyed_from, numbered_key, post_source, source_of};

use lot_args::Batch;
use lot_base::Label;
use lot_command::{Command, Key};
use lot_import::Numbered;
use lot_rounding::Asked;
use std::alloc::{AllocError, Global};

/// Returns the commands of a batch from that number on, each under the key of its number, and with this number. The first
/// command of the list has the number 1. The only error is out of memory.
pub(crate) fn keyed(
    alloc: Global,
    batch: &Batch,
    from: usize,
    commands: Vec<Command>,
) -> Result<Numbered, AllocError>
    requires { 1 ≤ from }
    ensures commands { IfOk result (λ keyed.
        keyed.commands.items ≡ keyed_from (post_source batch.now) from commands.items) }
    ensures numbers { IfOk result (λ keyed.
        keyed.numbers.items ≡ range_with_len from (length keyed.commands.items)) }
    ensures next { IfOk result (λ keyed. HaveNext keyed.numbers.items) }
{
    let source = source(alloc, "post", batch)?;
    let mut numbers = Vec::new(alloc);
    let mut keyed = Vec::new(alloc);
    for (index, command) in commands.into_iter().enumerate() {
        let number = index + 1;
        if number >= from {
            let key = key(alloc, &source, number)?;
            keyed.push((key, Asked::plain(command)))?;
            numbers.push(number)?;
        }
    }
    Ok(Numbered {
        numbers,
        commands: keyed,
    })
}

/// Returns the source of the commands of a batch that this subcommand sends. The only error is out of memory.
pub(crate) fn source(alloc: Global, word: &str, batch: &Batch) -> Result<Label, AllocError>
    requires label { IsTrue (is_label word.now) }
    requires short { length word.now ≤ 16 }
    ensures { IfOk result (λ source. source ≡ source_of word.now batch.now) }
{
    let name = batch.as_str();
    let text = format!(in alloc; "{word}:{name}")?;
    label(alloc, text.as_str())
}

/// Returns the key of the command of that number.
fn key(alloc: Global, source: &Label, number: usize) -> Result<Key, AllocError>
    ensures { IfOk result (λ key. key ≡ numbered_key source.now number) }
{
    let name = format!(in alloc; "{number}")?;
    Ok(Key {
        source: source.copy()?,
        name: label(alloc, name.as_str())?,
    })
}

/// Returns the label of a text that is one. The only error is out of memory.
fn label(alloc: Global, text: &str) -> Result<Label, AllocError>
    requires { IsTrue (is_label text.now) }
    ensures { IfOk result (λ label. label ≡ text.now) }
{
    match Label::new(alloc, text) {
        Ok(label) => Ok(label),
        Err(_) => Err(AllocError),
    }
}
