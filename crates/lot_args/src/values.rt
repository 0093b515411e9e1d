//! What the values of options say.
//!
//! All values are looked at before one is kept: what keeps one knows that it is within its rule.
ghost use Rattle.std.specs.Prelude.{◌≡◌, IfOk, IsTrue, None, codes, false, filter_map, map};
ghost use Rattle.std.specs.Prelude.{option_map};
ghost use Rattle.lot_base.specs.Name.{is_commodity, is_label, is_root};
ghost use Rattle.std.specs.List.{list_all};
ghost use Rattle.std.specs.String.{string_bytes};
ghost use Rattle.clap.specs.Words.{first_of, found_of, rows_of};
ghost use Rattle.lot_args.specs.Activity.{is_above_accounts, length_named, length_of};
ghost use Rattle.lot_args.specs.Activity.{names_account};
ghost use Rattle.lot_args.specs.Batch.{is_batch};
ghost use Rattle.lot_args.specs.Options.{account_options, day_of, except_of, first_bad};
ghost use Rattle.lot_args.specs.Options.{has_account, has_profile, has_rounding, is_format};
ghost use Rattle.lot_args.specs.Options.{is_good, name_of, rounding_options, value_of};
ghost use Rattle.lot_args.specs.From.{from_of};
ghost use Rattle.lot_args.specs.Keys.{all_name_keys, are_keys, is_named_once, key_named, keys_in};
ghost use Rattle.lot_args.specs.Keys.{keys_of, names_none_twice, parts_of};
ghost use Rattle.lot_args.specs.Number.{number_of};
ghost use Rattle.lot_args.specs.Rounding.{decimals_of, named_bound, rounding_of, within_of};
ghost use Rattle.lot_args.specs.Words.{accounts_of, format_of};

use crate::action::Format;
use crate::batch::{Batch, BatchFault};
use crate::fault::BadOption;
use crate::given::{all_given, given, is_given, value};
use crate::needed::has_profile;
use crate::options::MOST_DECIMALS;
use crate::start::Start;
use clap::ArgMatches;
use lot_base::{Account, Commodity, Day, Label};
use lot_import::Accounts;
use lot_num::Units;
use lot_period::PeriodLength;
use lot_rounding::{Bound, Decimals, Rounding};
use lot_tally::GainKey;
use std::alloc::{AllocError, Global};

/// The number of the first command or row to run where none is given.
pub(crate) const FIRST: u32 = 1;

/// Returns whether a rounding account is named.
pub(crate) fn has_rounding(options: &ArgMatches<'_>) -> bool
    ensures { result ≡ has_rounding (rows_of (found_of options.now)) }
{
    is_given(options, "rounding")
}

/// Returns the batch that the value of an option names, which is within its rule. The only error is out of memory.
pub(crate) fn batch(
    alloc: Global,
    options: &ArgMatches<'_>,
    name: &str,
) -> Result<Batch, AllocError>
    requires { IsTrue (is_batch (value_of name.now (rows_of (found_of options.now)))) }
    ensures { IfOk result (λ batch. batch ≡ value_of name.now (rows_of (found_of options.now))) }
{
    match Batch::new(alloc, value(options, name)) {
        Ok(batch) => Ok(batch),
        Err(BatchFault::Memory) => Err(AllocError),
        Err(BatchFault::Bad) => unreachable!(),
    }
}

/// Returns the reference of a row, which is within its rule. The only error is out of memory.
pub(crate) fn reference(alloc: Global, options: &ArgMatches<'_>) -> Result<Label, AllocError>
    requires { IsTrue (is_label (value_of (codes "ref") (rows_of (found_of options.now)))) }
    ensures { IfOk result (λ reference.
        reference ≡ value_of (codes "ref") (rows_of (found_of options.now))) }
{
    label(alloc, value(options, "ref"))
}

/// Returns the references of the rows that are left out, in the order in which they are given. They are within their rule. The
/// only error is out of memory.
pub(crate) fn except(alloc: Global, options: &ArgMatches<'_>) -> Result<Vec<Label>, AllocError>
    requires { IsTrue (list_all is_label (except_of (rows_of (found_of options.now)))) }
    ensures { IfOk result (λ except. except.items ≡ except_of (rows_of (found_of options.now))) }
{
    match all_given(options, "except") {
        Some(texts) => labels(alloc, texts),
        None => Ok(Vec::new(alloc)),
    }
}

/// Returns the labels that texts are. The only error is out of memory.
fn labels(alloc: Global, texts: &[&str]) -> Result<Vec<Label>, AllocError>
    requires { IsTrue (list_all is_label (map (λ text. text.now) texts.now)) }
    ensures { IfOk result (λ labels. labels.items ≡ map (λ text. text.now) texts.now) }
{
    let mut labels = Vec::new(alloc);
    for text in texts {
        labels.push(label(alloc, text)?)?;
    }
    Ok(labels)
}

/// Returns the label that a text is. The only error is out of memory.
fn label(alloc: Global, text: &str) -> Result<Label, AllocError>
    requires { IsTrue (is_label text.now) }
    ensures { IfOk result (λ label. label ≡ text.now) }
{
    match Label::new(alloc, text) {
        Ok(label) => Ok(label),
        Err(_) => Err(AllocError),
    }
}

/// Returns the accounts that rows are posted to, whose values are within their rules. The only error is out of memory.
pub(crate) fn accounts(alloc: Global, options: &ArgMatches<'_>) -> Result<Accounts, AllocError>
    requires good { first_bad (rows_of (found_of options.now)) account_options ≡ None }
    requires plain { has_profile (rows_of (found_of options.now)) ≡ false }
    ensures { IfOk result (λ accounts. accounts ≡ accounts_of (rows_of (found_of options.now))) }
{
    Ok(Accounts {
        invest: account(alloc, options, BadOption::Invest)?,
        cash: account(alloc, options, BadOption::Cash)?,
        fees: account(alloc, options, BadOption::Fees)?,
        gains: account(alloc, options, BadOption::Gains)?,
    })
}

/// Returns the account that the value of an option names, which is within its rule. The only error is out of memory.
fn account(
    alloc: Global,
    options: &ArgMatches<'_>,
    option: BadOption,
) -> Result<Account, AllocError>
    requires { IsTrue (has_account (name_of option) (rows_of (found_of options.now))) }
    ensures { IfOk result
        (λ account. account ≡ value_of (name_of option) (rows_of (found_of options.now))) }
{
    match Account::new(alloc, value(options, option.name())) {
        Ok(account) => Ok(account),
        Err(_) => Err(AllocError),
    }
}

/// Returns the rounding account that the options name, if they do, with what goes with it. Their values are within their rules.
/// The only error is out of memory.
pub(crate) fn rounding(
    alloc: Global,
    options: &ArgMatches<'_>,
) -> Result<Option<Rounding>, AllocError>
    requires { first_bad (rows_of (found_of options.now)) rounding_options ≡ None }
    ensures { IfOk result (λ rounding. rounding ≡ rounding_of (rows_of (found_of options.now))) }
{
    if !has_rounding(options) {
        return Ok(None);
    }
    Ok(Some(Rounding {
        account: account(alloc, options, BadOption::Rounding)?,
        within: within(options),
        decimals: decimals(options),
    }))
}

/// Returns the most that a rounding account takes: half a cent where the option isn't given, or names no bound.
fn within(options: &ArgMatches<'_>) -> Bound
    ensures { result ≡ within_of (rows_of (found_of options.now)) }
{
    match given(options, "within") {
        Some(text) => bound_of(text).unwrap_or(Bound::half_a_cent()),
        None => Bound::half_a_cent(),
    }
}

/// Returns the bound that a text names, or `None` where it names none.
pub(crate) fn bound_of(text: &str) -> Option<Bound>
    ensures { result ≡ named_bound text.now }
{
    Bound::new(Units::parse_total(text).ok()?)
}

/// Returns how many decimals are kept.
fn decimals(options: &ArgMatches<'_>) -> Decimals
    ensures { result ≡ decimals_of (rows_of (found_of options.now)) }
{
    let number = number_or(options, "decimals", MOST_DECIMALS);
    Decimals::new(number).unwrap_or(Decimals::of_units())
}

/// Returns the day that the value of an option names, or `None` where the option isn't given or names none.
pub(crate) fn day(options: &ArgMatches<'_>, option: BadOption) -> Option<Day>
    ensures { result ≡ day_of (name_of option) (rows_of (found_of options.now)) }
{
    Day::parse(given(options, option.name())?).ok()
}

/// Returns whether a text names keys of a table of gains, joined by commas, and none of them twice.
pub(crate) fn are_keys(text: &str) -> bool
    ensures { result ≡ are_keys text.now }
{
    all_name_keys(text) && names_none_twice(text)
}

/// Returns whether each part of a text between commas names a key.
fn all_name_keys(text: &str) -> bool
    ensures { result ≡ all_name_keys text.now }
{
    text.split(',').all(|part| key_named(part).is_some())
}

/// Returns whether no two parts of a text between commas name one key.
fn names_none_twice(text: &str) -> bool
    ensures { result ≡ names_none_twice text.now }
{
    is_named_once(text, "year")
        && is_named_once(text, "commodity")
        && is_named_once(text, "account")
        && is_named_once(text, "term")
}

/// Returns whether no two parts of a text between commas are that name.
fn is_named_once(text: &str, name: &str) -> bool
    ensures { result ≡ is_named_once text.now name.now }
{
    text.split(',')
        .filter(|part| *part == name)
        .nth(1)
        .is_none()
}

/// Returns the keys of a table of gains, or none where the option isn't given. The only error is out of memory.
pub(crate) fn keys(alloc: Global, options: &ArgMatches<'_>) -> Result<Vec<GainKey>, AllocError>
    ensures { IfOk result (λ keys. keys.items ≡ keys_of (rows_of (found_of options.now))) }
{
    match given(options, "by") {
        Some(text) => keys_in(alloc, text),
        None => Ok(Vec::new(alloc)),
    }
}

/// Returns the keys that a text names, joined by commas. The only error is out of memory.
fn keys_in(alloc: Global, text: &str) -> Result<Vec<GainKey>, AllocError>
    ensures { IfOk result (λ keys. keys.items ≡ keys_in text.now) }
{
    let parts = parts(alloc, text)?;
    keys_named(alloc, &parts)
}

/// Returns what stands between the commas of a text. The only error is out of memory.
fn parts<'a>(alloc: Global, text: &'a str) -> Result<Vec<&'a str>, AllocError>
    ensures { IfOk result (λ parts. map (λ part. part.now) parts.items ≡ parts_of text.now) }
{
    text.split(',').collect(alloc)
}

/// Returns the keys with these names. The only error is out of memory.
fn keys_named(alloc: Global, names: &[&str]) -> Result<Vec<GainKey>, AllocError>
    ensures { IfOk result (λ keys.
        keys.items ≡ filter_map key_named (map (λ name. name.now) names.now)) }
{
    let mut keys = Vec::new(alloc);
    for name in names {
        if let Some(key) = key_named(name) {
            keys.push(key)?;
        }
    }
    Ok(keys)
}

/// Returns the key of a table of gains that has that name.
fn key_named(name: &str) -> Option<GainKey>
    ensures { result ≡ key_named name.now }
{
    match name {
        "year" => Some(GainKey::Year),
        "commodity" => Some(GainKey::Commodity),
        "account" => Some(GainKey::Account),
        "term" => Some(GainKey::Term),
        _ => None,
    }
}

/// Returns whether a text names an account, or with a colon at its end all accounts whose names begin with it.
pub(crate) fn names_account(text: &str) -> bool
    ensures { result ≡ names_account text.now }
{
    match text.strip_suffix(":") {
        Some(front) => is_above_accounts(front),
        None => Account::is_name(text),
    }
}

/// Returns whether a text stands before a colon in the name of some account.
fn is_above_accounts(text: &str) -> bool
    ensures { result ≡ is_above_accounts text.now }
{
    is_root(text) || Account::is_name(text)
}

/// Returns whether a text is the first component of an account.
#[tactic(auto, unfolding(lot_base::specs::Name::is_root))]
fn is_root(text: &str) -> bool
    ensures { result ≡ is_root text.now }
{
    matches!(
        text,
        "Assets" | "Liabilities" | "Equity" | "Income" | "Expenses"
    )
}

/// Returns the commodity that the value of its option names, which is within its rule, or `None` where the option isn't given. The
/// only error is out of memory.
pub(crate) fn commodity(
    alloc: Global,
    options: &ArgMatches<'_>,
) -> Result<Option<Commodity>, AllocError>
    requires { IsTrue (is_good (rows_of (found_of options.now)) BadOption.Commodity) }
    ensures { IfOk result (λ commodity.
        commodity ≡ first_of (codes "commodity") (rows_of (found_of options.now))) }
{
    match given(options, "commodity") {
        Some(text) => Ok(Some(commodity_named(alloc, text)?)),
        None => Ok(None),
    }
}

/// Returns the commodity that a text is. The only error is out of memory.
fn commodity_named(alloc: Global, text: &str) -> Result<Commodity, AllocError>
    requires { IsTrue (is_commodity text.now) }
    ensures { IfOk result (λ commodity. commodity ≡ text.now) }
{
    match Commodity::new(alloc, text) {
        Ok(commodity) => Ok(commodity),
        Err(_) => Err(AllocError),
    }
}

/// Returns how long the periods of a report are: years where the option isn't given.
pub(crate) fn period_length(options: &ArgMatches<'_>) -> PeriodLength
    ensures { result ≡ length_of (rows_of (found_of options.now)) }
{
    match given(options, "by") {
        Some(text) => length_named(text).unwrap_or(PeriodLength::Year),
        None => PeriodLength::Year,
    }
}

/// Returns the length of periods that has that name.
pub(crate) fn length_named(name: &str) -> Option<PeriodLength>
    ensures { result ≡ length_named name.now }
{
    match name {
        "year" => Some(PeriodLength::Year),
        "quarter" => Some(PeriodLength::Quarter),
        "month" => Some(PeriodLength::Month),
        _ => None,
    }
}

/// Returns whether a text says how a report is written.
pub(crate) fn is_format(text: &str) -> bool
    ensures { result ≡ is_format text.now }
{
    text == "text" || text == "csv"
}

/// Returns how a report is written.
pub(crate) fn format(options: &ArgMatches<'_>) -> Format
    ensures { result ≡ format_of (rows_of (found_of options.now)) }
{
    if value(options, "format") == "csv" {
        Format::Csv
    } else {
        Format::Text
    }
}

/// Returns the number of the first command or row to run.
pub(crate) fn from(options: &ArgMatches<'_>) -> Start
    ensures { result ≡ from_of (rows_of (found_of options.now)) }
{
    Start::new(number_or(options, "from", FIRST)).unwrap_or(Start::at_first())
}

/// Returns the number that the value of an option is, and the other number where it isn't given or is none.
fn number_or(options: &ArgMatches<'_>, name: &str, other: u32) -> u32
    ensures { result ≡ number_of name.now other (rows_of (found_of options.now)) }
{
    options.get_one::<u32>(name).unwrap_or(other)
}

/// Returns the text that the value of an option is, where it is given. The only error is out of memory.
pub(crate) fn text(
    alloc: Global,
    options: &ArgMatches<'_>,
    name: &str,
) -> Result<Option<String>, AllocError>
    ensures { IfOk result (λ text.
        option_map string_bytes text ≡ first_of name.now (rows_of (found_of options.now))) }
{
    match given(options, name) {
        Some(text) => Ok(Some(String::from_str(alloc, text)?)),
        None => Ok(None),
    }
}
