ghost use Rattle.std.specs.Prelude.{◌≡◌, ◌≢◌, codes, false, true, Err, IfErr, IfOk, None, Some, map};
ghost use Rattle.std.specs.String.{string_bytes};
ghost use Rattle.clap.specs.Words.{IsAmong, app_of, fault_of, found_of, kind_of, rows_of, takes};
ghost use Rattle.clap.specs.declared.error.ErrorKind.TheVariants.{OutOfMemory};
ghost use Rattle.lot_args.specs.Options.{first_bad, has_profile, is_shown, options_of, value_of};
ghost use Rattle.lot_args.specs.declared.fault.Needed.{Needed};
ghost use Rattle.lot_args.specs.Program.{program_app};
ghost use Rattle.lot_args.specs.Steps.{IsBookWord, IsWord, JudgesOptions};
ghost use Rattle.lot_args.specs.Words.{Ask, AskFor, HaveBadIn, HaveMisplaced, HaveNoneBad, LackSome, WordAsks, WordRequests};
ghost use Rattle.lot_args.specs.Words.{AsksForReport, AsksToImport, file_name};
ghost use Rattle.lot_args.specs.declared.fault.WordsFault.TheVariants.{BadValue, Misplaced, MissingOptions, Usage};

use crate::action::{Action, AskedImport, Import, Post, Reconcile, Report, Restore};
use crate::effect::{effect, keeping, keeping_by_profile, notes, saying, strictness, tolerance};
use crate::fault::{BadOption, WordsFault};
use crate::given::{is_given, value};
use crate::good::{first_bad, misplaced, options_of, rounding_options};
use crate::needed::{has_profile, has_row, is_shown, missing};
use crate::program::program;
use crate::request::{Effect, Request};
use crate::values::{
    accounts, batch, commodity, day, except, format, from, keys, period_length, reference,
    rounding, text,
};
use crate::without::without;
use clap::{ArgMatches, Command};
use std::alloc::{AllocError, Global};
use std::path::Path;

/// Returns what the arguments ask for. The first argument is the program's name. Without a subcommand, they ask for a check.
///
/// The error is one of these:
///
/// - `Usage`: `clap` refuses the arguments, or help or the version is asked for;
/// - `Misplaced`: `clap` accepts them, but an option of a rounding account stands before the subcommand. Of several such options
///   it is the first in the order of the table in docs/RULES.md;
/// - `MissingOptions`: none does, but an option isn't given that the call needs;
/// - `BadValue`: none is missing, but the value of an option is outside its rule, or options stand together that can't. Of several
///   such options it is the first in that order;
/// - `Unmatched`: out of memory, before `clap` has matched the arguments;
/// - `Memory`: out of memory, where there is none of these.
pub fn parse_words(alloc: Global, words: &[String]) -> Result<Request, WordsFault>
    ensures request { IfOk result (AskFor (map string_bytes words.now)) }
    ensures misplaced { (option : BadOption) → result ≡ Err (Misplaced option)
        → HaveMisplaced (map string_bytes words.now) option }
    ensures missing { (needed : Needed) → result ≡ Err (MissingOptions needed)
        → LackSome (map string_bytes words.now) needed }
    ensures bad { (bad : BadOption) → result ≡ Err (BadValue bad)
        → HaveBadIn (map string_bytes words.now) bad }
    ensures lacking { result ≡ Err WordsFault.Memory → HaveNoneBad (map string_bytes words.now) }
    ensures kind { (error : _) → result ≡ Err (Usage error)
        → IsAmong (kind_of error) (fault_of program_app (map string_bytes words.now)) }
    ensures memory { (error : _) → result ≡ Err (Usage error) → kind_of error ≢ OutOfMemory }
    ensures taken { takes program_app (map string_bytes words.now) ≡ true → (error : _)
        → result ≢ Err (Usage error) }
{
    let matches = matcher(alloc)?.try_get_matches_from(words)?;
    match matches.subcommand() {
        None => checked(alloc, &matches),
        Some((word, options)) => asked(alloc, &matches, word, options),
    }
}

/// Returns the program with its subcommands and options. The only error is `Unmatched`.
fn matcher<'a>(alloc: Global) -> Result<Command<'a>, WordsFault>
    ensures program { IfOk result (λ command. app_of command ≡ program_app) }
    ensures cause { IfErr result (λ fault. fault ≡ WordsFault.Unmatched) }
{
    match program(alloc) {
        Ok(command) => Ok(command),
        Err(_) => Err(WordsFault::Unmatched),
    }
}

/// Returns what a call without a subcommand asks for with the values of its options. All values are tested before one is kept.
fn checked(alloc: Global, options: &ArgMatches<'_>) -> Result<Request, WordsFault>
    ensures request { IfOk result (Ask (rows_of (found_of options.now)) None) }
    ensures judges { JudgesOptions (rows_of (found_of options.now)) None result }
    ensures usage { (error : _) → result ≢ Err (Usage error) }
{
    match first_bad(rounding_options(), options) {
        Some(bad) => Err(WordsFault::BadValue(bad)),
        None => Ok(Request::Act {
            action: Action::Check {
                rounding: rounding(alloc, options)?,
            },
            effect: Effect::Keep,
            notes: notes(options, options),
        }),
    }
}

/// Returns what a subcommand asks for with the values of its options. All values are tested before one is kept.
fn asked(
    alloc: Global,
    before: &ArgMatches<'_>,
    word: &str,
    options: &ArgMatches<'_>,
) -> Result<Request, WordsFault>
    requires { IsWord word.now }
    ensures request { IfOk result (Ask (rows_of (found_of before.now))
        (Some (word.now, rows_of (found_of options.now)))) }
    ensures judges { JudgesOptions (rows_of (found_of before.now))
        (Some (word.now, rows_of (found_of options.now))) result }
    ensures usage { (error : _) → result ≢ Err (Usage error) }
{
    if let Some(option) = misplaced(before) {
        return Err(WordsFault::Misplaced(option));
    }
    if let Some(needed) = missing(word, options) {
        return Err(WordsFault::MissingOptions(needed));
    }
    match first_bad(options_of(word), options) {
        Some(bad) => Err(WordsFault::BadValue(bad)),
        None => Ok(requested(alloc, before, word, options)?),
    }
}

/// Returns what a subcommand asks for with values that are within their rules. The only error is out of memory.
fn requested(
    alloc: Global,
    before: &ArgMatches<'_>,
    word: &str,
    options: &ArgMatches<'_>,
) -> Result<Request, AllocError>
    requires word { IsWord word.now }
    requires good { first_bad (rows_of (found_of options.now)) (options_of word.now) ≡ None }
    ensures { IfOk result (WordRequests (rows_of (found_of before.now))
        word.now (rows_of (found_of options.now))) }
{
    if word == "explain" {
        return Ok(Request::Explain {
            code: text(alloc, options, "code")?,
        });
    }
    if word == "import" && has_profile(options) {
        return by_profile(alloc, before, options);
    }
    Ok(Request::Act {
        action: action(alloc, word, options)?,
        effect: effect(word, options),
        notes: notes(before, options),
    })
}

/// Returns what `import` asks for with a profile and values that are within their rules. The only error is out of memory.
fn by_profile(
    alloc: Global,
    before: &ArgMatches<'_>,
    options: &ArgMatches<'_>,
) -> Result<Request, AllocError>
    requires profile { has_profile (rows_of (found_of options.now)) ≡ true }
    requires good { first_bad (rows_of (found_of options.now)) (options_of (codes "import"))
        ≡ None }
    ensures { IfOk result (WordRequests (rows_of (found_of before.now))
        (codes "import") (rows_of (found_of options.now))) }
{
    let profile = String::from_str(alloc, value(options, "profile"))?;
    if is_shown(options) {
        return Ok(Request::Show {
            profile,
            notes: notes(before, options),
        });
    }
    Ok(Request::Import {
        profile,
        import: asked_import(alloc, options)?,
        effect: effect("import", options),
        notes: notes(before, options),
    })
}

/// Returns what an import by a profile asks for beside it, with values that are within their rules. The only error is out of
/// memory.
fn asked_import(alloc: Global, options: &ArgMatches<'_>) -> Result<AskedImport, AllocError>
    requires kept { is_shown (rows_of (found_of options.now)) ≡ false }
    requires good { first_bad (rows_of (found_of options.now)) (options_of (codes "import"))
        ≡ None }
    ensures { IfOk result (AsksToImport (rows_of (found_of options.now))) }
{
    Ok(AskedImport {
        book: String::from_str(alloc, value(options, "book"))?,
        batch: batch(alloc, options, "batch")?,
        except: except(alloc, options)?,
        keeping: keeping_by_profile(options),
    })
}

/// Returns the action that a subcommand on a book asks for with values that are within their rules. The only error is out of
/// memory.
fn action(alloc: Global, word: &str, options: &ArgMatches<'_>) -> Result<Action, AllocError>
    requires word { IsBookWord word.now }
    requires plain { word.now ≡ codes "import"
        → has_profile (rows_of (found_of options.now)) ≡ false }
    requires good { first_bad (rows_of (found_of options.now)) (options_of word.now) ≡ None }
    ensures { IfOk result (WordAsks word.now (rows_of (found_of options.now))) }
{
    let book = String::from_str(alloc, value(options, "book"))?;
    match word {
        "init" => Ok(Action::Init { book }),
        "migrate" => Ok(Action::Migrate { book }),
        "post" if has_row(options) => Ok(Action::PostRow {
            book,
            batch: batch(alloc, options, "row-of")?,
            reference: reference(alloc, options)?,
            rounding: rounding(alloc, options)?,
        }),
        "post" => Ok(Action::Post(Post {
            book,
            batch: batch(alloc, options, "batch")?,
            from: from(options),
            rounding: rounding(alloc, options)?,
            keeping: keeping(word, options),
        })),
        "import" => Ok(Action::Import(Import {
            book,
            batch: batch(alloc, options, "batch")?,
            accounts: accounts(alloc, options)?,
            from: from(options),
            except: except(alloc, options)?,
            rounding: rounding(alloc, options)?,
            keeping: keeping(word, options),
        })),
        "holdings" => Ok(Action::Report {
            book,
            report: holdings(options),
        }),
        "gains" => Ok(Action::Report {
            book,
            report: gains(alloc, options)?,
        }),
        "register" => Ok(Action::Report {
            book,
            report: register(alloc, options)?,
        }),
        "activity" => Ok(Action::Report {
            book,
            report: activity(alloc, options)?,
        }),
        "journal" => Ok(Action::Report {
            book,
            report: Report::Journal,
        }),
        "page" => Ok(Action::Report {
            report: page(alloc, book.as_str(), options)?,
            book,
        }),
        "dump" => Ok(Action::Report {
            book,
            report: Report::Dump,
        }),
        "reconcile" => Ok(Action::Reconcile(Reconcile {
            book,
            account: String::from_str(alloc, value(options, "account"))?,
            day: day(options, BadOption::AsOf),
            format: format(options),
        })),
        "restore" => Ok(Action::Restore(Restore {
            book,
            without: without(alloc, options)?,
            strictness: strictness(options),
            tolerance: tolerance(options),
            compare: text(alloc, options, "compare")?,
        })),
        _ => Ok(Action::Verify {
            book,
            saying: saying(options),
        }),
    }
}

/// Returns the report that `holdings` asks for.
fn holdings(options: &ArgMatches<'_>) -> Report
    ensures { AsksForReport (codes "holdings") (rows_of (found_of options.now)) result }
{
    let prices = day(options, BadOption::Day);
    let format = format(options);
    match day(options, BadOption::AsOf) {
        Some(on) => Report::HoldingsOn {
            on,
            day: prices.unwrap_or(on),
            format,
        },
        None => Report::Holdings {
            day: prices,
            format,
        },
    }
}

/// Returns the report that `gains` asks for. The only error is out of memory.
fn gains(alloc: Global, options: &ArgMatches<'_>) -> Result<Report, AllocError>
    ensures { IfOk result (AsksForReport (codes "gains") (rows_of (found_of options.now))) }
{
    let first = day(options, BadOption::First);
    let last = day(options, BadOption::Last);
    let format = format(options);
    if !is_given(options, "by") {
        return Ok(Report::Gains {
            first,
            last,
            format,
        });
    }
    Ok(Report::GainsBy {
        first,
        last,
        by: keys(alloc, options)?,
        format,
    })
}

/// Returns the report that `register` asks for with values that are within their rules. The only error is out of memory.
fn register(alloc: Global, options: &ArgMatches<'_>) -> Result<Report, AllocError>
    requires { first_bad (rows_of (found_of options.now)) (options_of (codes "register")) ≡ None }
    ensures { IfOk result (AsksForReport (codes "register") (rows_of (found_of options.now))) }
{
    Ok(Report::Register {
        account: String::from_str(alloc, value(options, "account"))?,
        commodity: commodity(alloc, options)?,
        first: day(options, BadOption::First),
        last: day(options, BadOption::Last),
        format: format(options),
    })
}

/// Returns the page that `page` asks for of the book of that path. The only error is out of memory.
fn page(alloc: Global, path: &str, options: &ArgMatches<'_>) -> Result<Report, AllocError>
    requires { path.now ≡ value_of (codes "book") (rows_of (found_of options.now)) }
    ensures { IfOk result (AsksForReport (codes "page") (rows_of (found_of options.now))) }
{
    Ok(Report::Page {
        name: String::from_str(alloc, file_name(path))?,
        first: day(options, BadOption::First),
        last: day(options, BadOption::Last),
        day: day(options, BadOption::Day),
        saying: saying(options),
    })
}

/// Returns the name of the file of a path, or all of a path that names none.
fn file_name(path: &str) -> &str
    ensures { result.now ≡ file_name path.now }
{
    Path::new(path).file_name().unwrap_or(path)
}

/// Returns the report that `activity` asks for. The only error is out of memory.
fn activity(alloc: Global, options: &ArgMatches<'_>) -> Result<Report, AllocError>
    ensures { IfOk result (AsksForReport (codes "activity") (rows_of (found_of options.now))) }
{
    Ok(Report::Activity {
        account: text(alloc, options, "account")?,
        length: period_length(options),
        first: day(options, BadOption::First),
        last: day(options, BadOption::Last),
        format: format(options),
    })
}
