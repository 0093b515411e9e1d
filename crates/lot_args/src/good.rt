//! Which values of options are outside their rules.
ghost use Rattle.std.specs.Prelude.{◌≡◌, map};
ghost use Rattle.lot_base.specs.Name.{is_label};
ghost use Rattle.std.specs.List.{list_all};
ghost use Rattle.clap.specs.Words.{found_of, rows_of};
ghost use Rattle.lot_args.specs.Options.{first_bad, is_good, is_good_account, misplaced};
ghost use Rattle.lot_args.specs.Options.{options_of, rounding_options};

use crate::batch::Batch;
use crate::fault::BadOption;
use crate::given::{all_given, given, is_given, is_set, value};
use crate::needed::{has_profile, has_row, is_shown, speaks_of_book};
use crate::values::{
    FIRST, are_keys, bound_of, from, has_rounding, is_format, length_named, names_account,
};
use crate::without::all_name_entries;
use clap::ArgMatches;
use lot_base::{Account, Commodity, Day, Label};
use lot_without::By;

/// Returns the first option of these whose value is outside its rule.
pub(crate) fn first_bad(all: &[BadOption], options: &ArgMatches<'_>) -> Option<BadOption>
    ensures { result ≡ first_bad (rows_of (found_of options.now)) all.now }
{
    for option in all.iter() {
        if !is_good(options, *option) {
            return Some(*option);
        }
    }
    None
}

/// Returns the options of a subcommand whose values this project tests, in the order of the table in docs/RULES.md.
pub(crate) fn options_of(word: &str) -> &'static [BadOption]
    ensures { result.now ≡ options_of word.now }
{
    match word {
        "post" => &[
            BadOption::PostBatch,
            BadOption::RowOf,
            BadOption::Ref,
            BadOption::Rounding,
            BadOption::Within,
            BadOption::Decimals,
            BadOption::PostGains,
            BadOption::Holdings,
            BadOption::From,
        ],
        "import" => &[
            BadOption::Show,
            BadOption::KeepAccepted,
            BadOption::Batch,
            BadOption::Invest,
            BadOption::Cash,
            BadOption::Fees,
            BadOption::Gains,
            BadOption::Except,
            BadOption::Rounding,
            BadOption::Within,
            BadOption::Decimals,
            BadOption::Sales,
            BadOption::Holdings,
            BadOption::From,
        ],
        "holdings" => &[BadOption::AsOf, BadOption::Day, BadOption::Format],
        "gains" => &[
            BadOption::First,
            BadOption::Last,
            BadOption::By,
            BadOption::Format,
        ],
        "register" => &[
            BadOption::Account,
            BadOption::Commodity,
            BadOption::First,
            BadOption::Last,
            BadOption::Format,
        ],
        "activity" => &[
            BadOption::Account,
            BadOption::First,
            BadOption::Last,
            BadOption::Period,
            BadOption::Format,
        ],
        "page" => &[BadOption::First, BadOption::Last, BadOption::Day],
        "reconcile" => &[BadOption::Account, BadOption::AsOf, BadOption::Format],
        "restore" => &[
            BadOption::Without,
            BadOption::WithoutBatch,
            BadOption::WithoutEntries,
        ],
        _ => &[],
    }
}

/// Returns the options of a rounding account: the account, and what goes with it.
pub(crate) fn rounding_options() -> &'static [BadOption]
    ensures { result.now ≡ rounding_options }
{
    &[BadOption::Rounding, BadOption::Within, BadOption::Decimals]
}

/// Returns the first option of a rounding account that is given before a subcommand.
pub(crate) fn misplaced(before: &ArgMatches<'_>) -> Option<BadOption>
    ensures { result ≡ misplaced (rows_of (found_of before.now)) }
{
    rounding_options()
        .iter()
        .copied()
        .find(|option| is_given(before, option.name()))
}

/// Returns whether the value of an option is within its rule.
fn is_good(options: &ArgMatches<'_>, option: BadOption) -> bool
    ensures { result ≡ is_good (rows_of (found_of options.now)) option }
{
    let name = option.name();
    match option {
        BadOption::Show => !is_shown(options) || (has_profile(options) && !speaks_of_book(options)),
        BadOption::KeepAccepted => {
            !is_set(options, name) || (has_profile(options) && !is_set(options, "all-or-none"))
        }
        BadOption::Batch => is_shown(options) || Batch::is_name(value(options, name)),
        BadOption::PostBatch if has_row(options) => !is_given(options, name),
        BadOption::PostBatch => Batch::is_name(value(options, name)),
        BadOption::RowOf => !has_row(options) || Batch::is_name(value(options, name)),
        BadOption::Ref if has_row(options) => Label::is_name(value(options, name)),
        BadOption::Ref => !is_given(options, name),
        BadOption::From => {
            !(has_row(options) || has_profile(options)) || from(options).number() == FIRST
        }
        BadOption::Invest | BadOption::Cash | BadOption::Fees | BadOption::Gains => {
            is_good_account(options, name)
        }
        BadOption::Except => match all_given(options, name) {
            Some(texts) => are_labels(texts),
            None => true,
        },
        BadOption::Rounding => {
            !has_rounding(options)
                || (!has_profile(options) && Account::is_name(value(options, name)))
        }
        BadOption::Within if has_rounding(options) => match given(options, name) {
            Some(text) => bound_of(text).is_some(),
            None => true,
        },
        BadOption::Decimals if has_rounding(options) => true,
        BadOption::Within | BadOption::Decimals => !is_given(options, name),
        BadOption::PostGains | BadOption::Sales | BadOption::Holdings => {
            !is_set(options, name) || is_set(options, "dry-run")
        }
        BadOption::Account => match given(options, name) {
            Some(text) => names_account(text),
            None => true,
        },
        BadOption::Commodity => match given(options, name) {
            Some(text) => Commodity::is_name(text),
            None => true,
        },
        BadOption::Day | BadOption::AsOf | BadOption::First | BadOption::Last => match given(
            options, name,
        ) {
            Some(text) => Day::parse(text).is_ok(),
            None => true,
        },
        BadOption::By => match given(options, name) {
            Some(text) => are_keys(text),
            None => true,
        },
        BadOption::Period => match given(options, name) {
            Some(text) => length_named(text).is_some(),
            None => true,
        },
        BadOption::Format => match given(options, name) {
            Some(text) => is_format(text),
            None => true,
        },
        BadOption::Without => all_name_entries(options, name, By::Key),
        BadOption::WithoutBatch => all_name_entries(options, name, By::Batch),
        BadOption::WithoutEntries => all_name_entries(options, name, By::Entries),
    }
}

/// Returns whether each text is a label.
fn are_labels(texts: &[&str]) -> bool
    ensures { result ≡ list_all is_label (map (λ text. text.now) texts.now) }
{
    for text in texts {
        if !Label::is_name(text) {
            return false;
        }
    }
    true
}

/// Returns whether an account option of an import is within its rule: beside a profile it isn't given.
fn is_good_account(options: &ArgMatches<'_>, name: &str) -> bool
    ensures { result ≡ is_good_account name.now (rows_of (found_of options.now)) }
{
    if has_profile(options) {
        return !is_given(options, name);
    }
    Account::is_name(value(options, name))
}
