//! What `clap` says of an import that lacks an option.
//!
//! Which options an import needs, its other options say. So `clap` is asked again, with those that this one needs as options that
//! always have to be given: it tells which are missing, and how the call is written.
ghost use Rattle.std.specs.Prelude.{◌≡◌, false, IfOk, map};
ghost use Rattle.std.specs.String.{string_bytes};
ghost use Rattle.clap.specs.Words.{FailsBy, app_of, fault_of, rule_of};
ghost use Rattle.lot_args.specs.Required.{demanding_app, is_needed};
ghost use Rattle.lot_args.specs.Required.{option_names_account, option_names_book};
ghost use Rattle.lot_args.specs.Program.{word_app};
ghost use Rattle.lot_args.specs.Table.{demanding_rule_for};

use crate::fault::Needed;
use crate::options::{WordOption, option};
use crate::program::{IMPORT_OPTIONS, bare_program};
use clap::{Arg, Command, Error};
use std::alloc::{AllocError, Global};

/// Parses the arguments of an import by a program in which the options that it needs always have to be given. The error is the one
/// with which `clap` refuses them: where one of these options is missing, it says which are. The first argument is the program's
/// name.
pub fn require_options(alloc: Global, words: &[String], needed: Needed) -> Result<(), Error>
    ensures { FailsBy (fault_of (demanding_app needed) (map string_bytes words.now)) result }
{
    match demanding_program(alloc, needed)?.try_get_matches_from(words) {
        Ok(_) => Ok(()),
        Err(error) => Err(error),
    }
}

/// Returns the program with `import` as its only subcommand, whose needed options always have to be given.
fn demanding_program<'a>(alloc: Global, needed: Needed) -> Result<Command<'a>, AllocError>
    ensures { IfOk result (λ command. app_of command ≡ demanding_app needed) }
{
    bare_program(alloc)?.subcommand(demanding_word(alloc, "import", IMPORT_OPTIONS, needed)?)
}

/// Returns a subcommand with its options, of which the needed ones always have to be given.
fn demanding_word<'a>(
    alloc: Global,
    name: &'a str,
    options: &[WordOption],
    needed: Needed,
) -> Result<Command<'a>, AllocError>
    ensures { IfOk result (λ command.
        app_of command ≡ word_app name.now (map (demanding_rule_for needed) options.now)) }
{
    let mut command = Command::new(alloc, name);
    for given in options {
        command = command.arg(demanding_option(alloc, given, needed))?;
    }
    Ok(command)
}

/// Returns the option, which always has to be given where it is needed.
fn demanding_option<'a>(alloc: Global, given: &WordOption, needed: Needed) -> Arg<'a>
    ensures rule { rule_of result ≡ demanding_rule_for needed given.now }
    ensures local { result.global ≡ false }
{
    let arg = option(alloc, given);
    if is_needed(needed, given.name) {
        return arg.required(true);
    }
    arg
}

/// Returns whether the option of that name is needed.
fn is_needed(needed: Needed, name: &str) -> bool
    ensures { result ≡ is_needed needed name.now }
{
    match needed {
        Needed::BatchOrRow => false,
        Needed::Book => names_book(name),
        Needed::Accounts => names_book(name) || names_account(name),
    }
}

/// Returns whether the option names the book or the batch.
fn names_book(name: &str) -> bool
    ensures { result ≡ option_names_book name.now }
{
    name == "book" || name == "batch"
}

/// Returns whether the option names an account that rows are posted to.
fn names_account(name: &str) -> bool
    ensures { result ≡ option_names_account name.now }
{
    name == "invest" || name == "cash" || name == "fees" || name == "gains"
}
