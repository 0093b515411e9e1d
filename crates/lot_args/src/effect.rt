//! How a call is to be done: what may be left in the book, by which commits, and what is said of it.
ghost use Rattle.std.specs.Prelude.{◌≡◌};
ghost use Rattle.clap.specs.Words.{found_of, rows_of};
ghost use Rattle.lot_args.specs.Preview.{effect_of, gains_option, preview_asked};
ghost use Rattle.lot_args.specs.Words.{keeping_by_profile, keeping_in, keeping_of, keeping_told};
ghost use Rattle.lot_args.specs.Words.{notes_of, saying_of, strictness_of, tolerance_of};

use crate::action::{Keeping, Saying};
use crate::given::is_set;
use crate::request::{Effect, Notes, Preview};
use clap::ArgMatches;
use lot_without::{Strictness, Tolerance};

/// Returns what a call of the subcommand may leave in the book.
pub(crate) fn effect(word: &str, options: &ArgMatches<'_>) -> Effect
    ensures { result ≡ effect_of word.now (rows_of (found_of options.now)) }
{
    if is_set(options, "dry-run") {
        return Effect::DryRun(preview(word, options));
    }
    Effect::Keep
}

/// Returns what is told of the book that a dry run of the subcommand would leave.
fn preview(word: &str, options: &ArgMatches<'_>) -> Preview
    ensures { result ≡ preview_asked word.now (rows_of (found_of options.now)) }
{
    let gains = is_set(options, gains_option(word));
    if is_set(options, "holdings") {
        return if gains {
            Preview::GainsAndHoldings
        } else {
            Preview::Holdings
        };
    }
    if gains {
        return Preview::Gains;
    }
    Preview::Nothing
}

/// Returns the name of the option that asks for the gains of the sales which a dry run would add. That of `import` which is called
/// `gains` names an account.
fn gains_option(word: &str) -> &'static str
    ensures { result.now ≡ gains_option word.now }
{
    match word {
        "import" => "sales",
        _ => "gains",
    }
}

/// Returns which commits keep the commands of a call of the subcommand. In a dry run that is so where something is told of the book
/// that it would leave; else `--all-or-none` changes nothing.
pub(crate) fn keeping(word: &str, options: &ArgMatches<'_>) -> Keeping
    ensures { result ≡ keeping_of word.now (rows_of (found_of options.now)) }
{
    if is_set(options, "all-or-none") {
        return keeping_in(effect(word, options), Keeping::AllOrNone);
    }
    Keeping::Each
}

/// Returns which commits keep the commands of an import by a profile: one for all, unless `--keep-accepted` is given. In a dry run
/// that is so where something is told of the book that it would leave.
pub(crate) fn keeping_by_profile(options: &ArgMatches<'_>) -> Keeping
    ensures { result ≡ keeping_by_profile (rows_of (found_of options.now)) }
{
    if is_set(options, "keep-accepted") {
        return Keeping::Each;
    }
    keeping_in(effect("import", options), Keeping::AllOrNone)
}

/// Returns which commits keep the commands of a call with that effect, where these are asked for.
fn keeping_in(effect: Effect, asked: Keeping) -> Keeping
    ensures { result ≡ keeping_in effect asked }
{
    match effect {
        Effect::Keep => asked,
        Effect::DryRun(preview) => keeping_told(preview, asked),
    }
}

/// Returns which commits keep the commands of a dry run of which that is told: one for each where that is nothing.
fn keeping_told(preview: Preview, asked: Keeping) -> Keeping
    ensures { result ≡ keeping_told preview asked }
{
    match preview {
        Preview::Nothing => Keeping::Each,
        Preview::Gains | Preview::Holdings | Preview::GainsAndHoldings => asked,
    }
}

/// Returns whether a dump has to be what it says at its end.
pub(crate) fn strictness(options: &ArgMatches<'_>) -> Strictness
    ensures { result ≡ strictness_of (rows_of (found_of options.now)) }
{
    if is_set(options, "edited") {
        return Strictness::Edited;
    }
    Strictness::Unchanged
}

/// Returns what becomes of a dump one of whose commands is refused.
pub(crate) fn tolerance(options: &ArgMatches<'_>) -> Tolerance
    ensures { result ≡ tolerance_of (rows_of (found_of options.now)) }
{
    if is_set(options, "keep-going") {
        return Tolerance::KeepGoing;
    }
    Tolerance::AllAccepted
}

/// Returns what is written of a book that is verified.
pub(crate) fn saying(options: &ArgMatches<'_>) -> Saying
    ensures { result ≡ saying_of (rows_of (found_of options.now)) }
{
    if is_set(options, "digest") {
        return Saying::Digest;
    }
    Saying::Verified
}

/// Returns which notes a call asks for, by the options before and behind its subcommand. Where `--quiet` is given,
/// `--explain-all` changes nothing.
pub(crate) fn notes(before: &ArgMatches<'_>, options: &ArgMatches<'_>) -> Notes
    ensures { result ≡ notes_of (rows_of (found_of before.now)) (rows_of (found_of options.now)) }
{
    if is_set(before, "quiet") || is_set(options, "quiet") {
        return Notes::Quiet;
    }
    if is_set(before, "explain-all") || is_set(options, "explain-all") {
        return Notes::All;
    }
    Notes::Ten
}
