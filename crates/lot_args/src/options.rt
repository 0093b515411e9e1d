//! The options of the subcommands.
ghost use Rattle.std.specs.Prelude.{◌≡◌, false};
ghost use Rattle.clap.specs.Words.{rule_of};
ghost use Rattle.lot_args.specs.Start.{greatest_start};
ghost use Rattle.lot_args.specs.Table.{rule_for};

use crate::start::GREATEST_START;
use clap::builder::ValueParser;
use clap::{Arg, ArgAction};
use std::alloc::Global;

/// The most decimals that units have (`most_decimals` of the definitions).
pub(crate) const MOST_DECIMALS: u32 = 8;

/// Where the help lists an option that stands behind the others of its subcommand.
const LAST: usize = 100;

/// How an option is written, with what the help calls its value.
pub(crate) enum Form {
    /// It has a value and has to be given.
    Required(&'static str),
    /// It has a value and need not be given.
    Optional(&'static str),
    /// It has a value and may be given any number of times.
    Repeated(&'static str),
    /// It has the number at which a run starts, 1 where it isn't given.
    Start,
    /// It has a number of decimals and need not be given.
    Decimals,
    /// It has no value.
    Flag,
    /// It has no value and stands behind the others in the help.
    LastFlag,
    /// It is a value alone, which need not be given.
    Place(&'static str),
}

/// An option of a subcommand.
pub(crate) struct WordOption {
    pub(crate) form: Form,
    /// Its name, without its dashes.
    pub(crate) name: &'static str,
    pub(crate) help: &'static str,
}

/// Returns the option as `clap` takes it.
pub(crate) fn option<'a>(alloc: Global, given: &WordOption) -> Arg<'a>
    ensures rule { rule_of result ≡ rule_for given.now }
    ensures local { result.global ≡ false }
{
    let name = given.name;
    let arg = Arg::new(alloc, name).help(given.help);
    match given.form {
        Form::Required(value) => arg
            .long(name)
            .value_name(value)
            .action(ArgAction::Set)
            .required(true),
        Form::Optional(value) => arg.long(name).value_name(value).action(ArgAction::Set),
        Form::Repeated(value) => arg.long(name).value_name(value).action(ArgAction::Append),
        Form::Start => arg
            .long(name)
            .value_name("N")
            .action(ArgAction::Set)
            .value_parser(ValueParser::signed(1, i64::from(GREATEST_START)))
            .default_value("1"),
        Form::Decimals => arg
            .long(name)
            .value_name("N")
            .action(ArgAction::Set)
            .value_parser(ValueParser::signed(0, i64::from(MOST_DECIMALS))),
        Form::Flag => arg.long(name).action(ArgAction::SetTrue),
        Form::LastFlag => arg
            .long(name)
            .action(ArgAction::SetTrue)
            .display_order(LAST),
        Form::Place(value) => arg.value_name(value).action(ArgAction::Set),
    }
}
