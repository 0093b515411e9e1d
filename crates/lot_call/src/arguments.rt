//! The arguments of the program.

ghost use Rattle.std.specs.Prelude.{◌≡◌, IfErr, IfOk, Ok};
ghost use Rattle.std.specs.IoError.{error_kind};
ghost use Rattle.std.specs.Vec.Iter.{into_iter_items};
ghost use Rattle.lot_host.specs.Answers.{IsStatusOf};
ghost use Rattle.lot_call.specs.Status.{IsRefusal, status_unread};

use crate::call::rounding_of;
use crate::status::out_of_memory;
use crate::told::end_shown;
use clap::error::ErrorKind as UsageKind;
use lot_args::{BadOption, Needed, Notes, Request, WordsFault, require_options, tip_for};
use lot_base::Label;
use lot_stream::UNUSABLE;
use lot_without::{By, Without};
use std::alloc::{AllocError, Global};
use std::env::{self, Args};
use std::io::{self, ErrorKind};

/// What is said of a `post` that names no batch, in the form in which `clap` tells of a missing option.
const NO_BATCH: &str =
    "error: the following required arguments were not provided:\n  <--batch <NAME>|--row-of <NAME>>\n\nUsage: lotbook post --book <FILE> <--batch <NAME>|--row-of <NAME>>\n\nFor more information, try '--help'.";

/// The first line of what `clap` says of options that are missing.
const SOME_MISSING: &str = "error: the following required arguments were not provided:";

/// What is said, behind its name, of an option of a rounding account that stands before a subcommand, in the form in which `clap`
/// tells of options that can't stand together.
const MISPLACED: &str =
    "cannot be used before a subcommand\n\n  tip: it stands behind 'post' or 'import'\n\nUsage: lotbook [OPTIONS] [COMMAND]\n\nFor more information, try '--help'.";

/// An import by a profile.
const BY_PROFILE: &str =
    "lotbook import --book family.book --batch degiro --profile profiles/degiro-transactions.toml < Transactions.csv";

/// The longest value of an option that is shown where it is bad, in bytes.
const LONGEST_SHOWN: usize = 80;

/// Returns the words that were read, as they are. Where they couldn't be read, the error is the status of the program: why is said.
pub fn words_of(rt: &HostRuntime, read: io::Result<Vec<String>>) -> Result<Vec<String>, u8>
    ensures words { IfOk read (λ words. result ≡ Ok words) }
    ensures refusal { IfErr result IsRefusal }
{
    match read {
        Ok(words) => Ok(words),
        Err(error) => Err(refuse_words(rt, &error)),
    }
}

/// Returns the arguments, the program's name first.
pub fn read_words(rt: &HostRuntime) -> io::Result<Vec<String>> {
    Ok(all(rt.alloc(), env::args(rt)?)?)
}

/// Returns all words that are left. The only error is out of memory.
fn all(alloc: Global, left: Args) -> Result<Vec<String>, AllocError>
    ensures { IfOk result (λ words. words.items ≡ into_iter_items left) }
{
    left.collect(alloc)
}

/// Says why the arguments can't be read, and returns the status.
fn refuse_words(rt: &HostRuntime, error: &io::Error) -> u8
    ensures status { result ≡ status_unread (error_kind error.now) }
    ensures refusal { IsRefusal result }
{
    if error.kind() == ErrorKind::OutOfMemory {
        return out_of_memory(rt);
    }
    let _ = eprintln!(rt; "error: a word isn't UTF-8");
    UNUSABLE
}

/// Warns on standard error of a comma in the bound of crumbs, which stands between digits and has no meaning. Where memory ends it
/// doesn't.
pub fn warn(rt: &HostRuntime, words: &[String], request: &Request) {
    let Request::Act {
        action,
        notes: Notes::Ten | Notes::All,
        ..
    } = request
    else {
        return;
    };
    if let (Some(rounding), Some(value)) = (rounding_of(action), value_of(words, "within"))
        && value.contains(',')
        && let Ok(bound) = rounding.within.units().text(rt.alloc())
    {
        let _ = eprintln!(rt; "lotbook: --within: warning: '{value}' is read as {bound}");
    }
}

/// Shows help or the version, or reports why arguments can't be used. Returns the status.
pub fn say_words_fault(rt: &HostRuntime, words: &[String], fault: &WordsFault) -> u8
    ensures { IsStatusOf fault.now result }
{
    match fault {
        WordsFault::Usage(error) => match error.print(rt) {
            _ if error.use_stderr() => {
                show_beside(rt, words, error.kind());
                UNUSABLE
            }
            printed => end_shown(rt, printed),
        },
        WordsFault::Misplaced(option) => {
            let _ = eprintln!(rt; "error: the argument '{option}' {MISPLACED}");
            UNUSABLE
        }
        WordsFault::MissingOptions(needed) => {
            say_missing(rt, words, *needed);
            UNUSABLE
        }
        WordsFault::BadValue(option) => {
            let _ = eprintln!(rt; "fault U2 BadValue {option}");
            show_form(rt, words, *option);
            UNUSABLE
        }
        WordsFault::Unmatched | WordsFault::Memory => out_of_memory(rt),
    }
}

/// Says on standard error which of the options that a call needs are missing, and shows such a call. Where memory ends, it says
/// no more than that some are.
fn say_missing(rt: &HostRuntime, words: &[String], needed: Needed) {
    match needed {
        Needed::BatchOrRow => {
            let _ = eprintln!(rt; "{NO_BATCH}");
        }
        Needed::Accounts | Needed::Book => match require_options(rt.alloc(), words, needed) {
            Err(error) if matches!(error.kind(), UsageKind::OutOfMemory) => {
                let _ = eprintln!(rt; "{SOME_MISSING}");
                return;
            }
            Err(error) => {
                let _ = error.print(rt);
            }
            Ok(()) => {}
        },
    }
    match needed {
        Needed::BatchOrRow | Needed::Accounts => show_example(rt, words),
        Needed::Book => {
            let _ = eprintln!(rt; "\nExample: {BY_PROFILE}");
        }
    }
}

/// Shows on standard error what helps beside an error of `clap` of that kind: a call of the subcommand that lacks an option, or the
/// option that a subcommand has under another name than it is given.
fn show_beside(rt: &HostRuntime, words: &[String], kind: UsageKind) {
    match kind {
        UsageKind::MissingRequiredArgument => show_example(rt, words),
        UsageKind::UnknownArgument => show_tip(rt, words),
        _ => {}
    }
}

/// Shows on standard error which option is meant, where the arguments give one that the subcommand has under another name.
fn show_tip(rt: &HostRuntime, words: &[String]) {
    if let Some(tip) = tip_for(words) {
        let _ = eprintln!(rt; "\n  tip: {tip}");
    }
}

/// Shows on standard error how the subcommand is called that stands first among the arguments.
fn show_example(rt: &HostRuntime, words: &[String]) {
    for word in words.iter().skip(1) {
        if let Some(example) = example_of(word.as_str()) {
            let _ = eprintln!(rt; "\nExample: {example}");
            return;
        }
    }
}

/// Returns a call of a subcommand that needs options.
fn example_of(word: &str) -> Option<&'static str> {
    match word {
        "init" => Some("lotbook init --book family.book"),
        "migrate" => Some("lotbook migrate --book family.book"),
        "post" => Some("lotbook post --book family.book --batch 2024 < 2024.ledger"),
        "import" => Some(
            "lotbook import --book family.book --batch broker --invest Assets:Broker --cash Assets:Cash --fees Expenses:Fees --gains Income:Gains < deals.csv",
        ),
        "holdings" => Some("lotbook holdings --book family.book"),
        "gains" => Some("lotbook gains --book family.book --first 2024-01-01 --last 2024-12-31"),
        "register" => Some(
            "lotbook register --book family.book --account Assets:Broker --first 2024-01-01 --last 2024-12-31",
        ),
        "activity" => Some(
            "lotbook activity --book family.book --account Income: --first 2024-01-01 --last 2024-12-31",
        ),
        "reconcile" => Some(
            "lotbook reconcile --book family.book --account Assets:Broker --as-of 2024-12-31 < statement.csv",
        ),
        "journal" => Some("lotbook journal --book family.book > family.ledger"),
        "page" => Some(
            "lotbook page --book family.book --first 2024-01-01 --last 2024-12-31 > book.html",
        ),
        "dump" => Some("lotbook dump --book family.book > family.dump"),
        "restore" => Some("lotbook restore --book new.book < family.dump"),
        "verify" => Some("lotbook verify --book family.book"),
        _ => None,
    }
}

/// Shows on standard error which options can't stand together, or not alone. Else it shows the value of one that is outside its
/// rule, unless it is long, and the form that it should have.
fn show_form(rt: &HostRuntime, words: &[String], option: BadOption) {
    if let Some(pair) = pair(words, option) {
        let _ = eprintln!(rt; "lotbook: {pair}");
        return;
    }
    let form = form(option);
    let value = match option {
        BadOption::Except
        | BadOption::Without
        | BadOption::WithoutBatch
        | BadOption::WithoutEntries => bad_value(words, option),
        _ => value_of(words, option.name()),
    };
    match value {
        Some(value) if value.len() <= LONGEST_SHOWN => {
            let _ = eprintln!(rt; "lotbook: {value:?} isn't {form}");
        }
        _ => {
            let _ = eprintln!(rt; "lotbook: {option} wants {form}");
        }
    }
}

/// Returns what is to be said of options that can't stand together, or not alone, where that is why an option is bad.
fn pair(words: &[String], option: BadOption) -> Option<&'static str> {
    let has_row = value_of(words, "row-of").is_some();
    let has_rounding = value_of(words, "rounding").is_some();
    if let Some(alone) = without_dry_run(option) {
        return Some(alone);
    }
    if value_of(words, "profile").is_some() {
        return beside_profile(option);
    }
    match option {
        BadOption::Show => {
            Some("--show stands beside --profile alone, as in --profile broker.toml --show")
        }
        BadOption::KeepAccepted => Some(
            "--keep-accepted stands beside --profile alone, as in --profile broker.toml --keep-accepted",
        ),
        BadOption::PostBatch if has_row => Some("--batch and --row-of can't stand together"),
        BadOption::Ref if !has_row => {
            Some("--ref stands beside --row-of alone, as in --row-of broker --ref A17")
        }
        BadOption::Within if !has_rounding => {
            Some("--within stands beside --rounding alone, as in --rounding Equity:R --within 0.01")
        }
        BadOption::Decimals if !has_rounding => {
            Some(
                "--decimals stands beside --rounding alone, as in --rounding Equity:R --decimals 2",
            )
        }
        _ => None,
    }
}

/// Returns what is to be said of an option that stands beside `--dry-run` alone.
fn without_dry_run(option: BadOption) -> Option<&'static str> {
    match option {
        BadOption::PostGains => {
            Some("--gains stands beside --dry-run alone, as in --dry-run --gains")
        }
        BadOption::Sales => Some("--sales stands beside --dry-run alone, as in --dry-run --sales"),
        BadOption::Holdings => {
            Some("--holdings stands beside --dry-run alone, as in --dry-run --holdings")
        }
        _ => None,
    }
}

/// Returns what is to be said of an option that can't stand beside `--profile`, or not with another one.
fn beside_profile(option: BadOption) -> Option<&'static str> {
    match option {
        BadOption::Show => Some(
            "--show opens no book: --book, --batch, --except, --keep-accepted, --all-or-none and --dry-run can't stand beside it",
        ),
        BadOption::KeepAccepted => Some("--keep-accepted and --all-or-none can't stand together"),
        BadOption::From => Some(
            "--from can't stand beside --profile: the whole file is read, and rows that are in the book are repeats",
        ),
        BadOption::Invest | BadOption::Cash | BadOption::Fees | BadOption::Gains => Some(
            "--invest, --cash, --fees and --gains can't stand beside --profile, which names the accounts",
        ),
        BadOption::Rounding | BadOption::Within | BadOption::Decimals => Some(
            "--rounding, --within and --decimals can't stand beside --profile, which says what they say",
        ),
        _ => None,
    }
}

/// Returns the form that the value of an option has.
fn form(option: BadOption) -> &'static str {
    match option {
        BadOption::Show | BadOption::KeepAccepted => "--profile beside it",
        BadOption::PostGains | BadOption::Sales | BadOption::Holdings => "--dry-run beside it",
        BadOption::Batch => "1 to 32 letters, digits, '.', '_' or '-', as in --batch broker",
        BadOption::PostBatch => "1 to 32 letters, digits, '.', '_' or '-', as in --batch 2024",
        BadOption::RowOf => "the batch of a broker file, as in --row-of broker --ref A17",
        BadOption::Ref => "the ref of a row, as in --row-of broker --ref A17",
        BadOption::Except => "the ref of a row, as in --except A17",
        BadOption::From => "1 beside --row-of, whose text has one command",
        BadOption::Invest => "an account, as in --invest Assets:Broker",
        BadOption::Cash => "an account, as in --cash Assets:Cash",
        BadOption::Fees => "an account, as in --fees Expenses:Fees",
        BadOption::Gains => "an account, as in --gains Income:Gains",
        BadOption::Rounding => "an account, as in --rounding Equity:Rounding",
        BadOption::Within => "an amount from 0 to 1, as in --within 0.01",
        BadOption::Decimals => "0 to 8, as in --decimals 2",
        BadOption::Account => {
            "an account, or what accounts begin with up to a colon, as in --account Income:"
        }
        BadOption::Commodity => "a commodity, as in --commodity HOOL",
        BadOption::Day => "a day, as in --day 2024-12-31",
        BadOption::AsOf => "a day, as in --as-of 2024-12-31",
        BadOption::First => "a day, as in --first 2024-01-01",
        BadOption::Last => "a day, as in --last 2024-12-31",
        BadOption::By => {
            "year, commodity, account or term, or several joined by commas, each once, as in --by year,account"
        }
        BadOption::Period => "year, quarter or month, as in --by quarter",
        BadOption::Format => "text or csv, as in --format csv",
        BadOption::Without => {
            "the key of an entry, its source and its name, as in --without \"import:broker A17\""
        }
        BadOption::WithoutBatch => { "the source of keys, as in --without-batch import:deals" }
        BadOption::WithoutEntries => {
            "numbers from 1 with a dash between, as in --without-entries 12-30"
        }
    }
}

/// Returns the first value of an option that is outside its rule, where the option may be given several times.
fn bad_value(words: &[String], option: BadOption) -> Option<&str> {
    let mut is_value = false;
    for word in words {
        let word = word.as_str();
        let behind = match word.strip_prefix("--") {
            Some(option_word) => option_word.strip_prefix(option.name()),
            None => None,
        };
        let value = if is_value {
            Some(word)
        } else {
            match behind {
                Some(rest) => rest.strip_prefix("="),
                None => None,
            }
        };
        is_value = !is_value && behind == Some("");
        if let Some(value) = value
            && !is_within_rule(value, option)
        {
            return Some(value);
        }
    }
    None
}

/// Returns whether the value of an option that may be given several times is within its rule.
fn is_within_rule(value: &str, option: BadOption) -> bool {
    match option {
        BadOption::Except => Label::is_name(value),
        BadOption::Without => Without::is_value(By::Key, value),
        BadOption::WithoutBatch => Without::is_value(By::Batch, value),
        BadOption::WithoutEntries => Without::is_value(By::Entries, value),
        _ => true,
    }
}

/// Returns the value of the option of that name, as it was written.
fn value_of<'a>(words: &'a [String], name: &str) -> Option<&'a str> {
    let mut words = words.iter();
    while let Some(word) = words.next() {
        let Some(option) = word.as_str().strip_prefix("--") else {
            continue;
        };
        if option == name {
            return match words.next() {
                Some(value) => Some(value.as_str()),
                None => None,
            };
        }
        match option.split_once('=') {
            Some((before, value)) if before == name => return Some(value),
            _ => {}
        }
    }
    None
}
