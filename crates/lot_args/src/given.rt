//! Which options are given, and their values, as `clap` has matched them.
ghost use Rattle.std.specs.Prelude.{◌≡◌, map, option_map};
ghost use Rattle.clap.specs.Words.{all_of, first_of, found_of, rows_of};
ghost use Rattle.lot_args.specs.Options.{is_given, is_set, value_of};

use clap::ArgMatches;

/// Returns whether an option without a value is given: `clap` gives it the value `true`, and else `false`.
pub(crate) fn is_set(options: &ArgMatches<'_>, name: &str) -> bool
    ensures { result ≡ is_set name.now (rows_of (found_of options.now)) }
{
    match given(options, name) {
        Some(text) => text == "true",
        None => false,
    }
}

/// Returns the value of an option, or the empty text where it isn't given. `clap` has refused arguments that lack a
/// required option.
pub(crate) fn value<'a>(options: &ArgMatches<'a>, name: &str) -> &'a str
    ensures { result.now ≡ value_of name.now (rows_of (found_of options.now)) }
{
    given(options, name).unwrap_or("")
}

/// Returns whether an option is given.
pub(crate) fn is_given(options: &ArgMatches<'_>, name: &str) -> bool
    ensures { result ≡ is_given name.now (rows_of (found_of options.now)) }
{
    given(options, name).is_some()
}

/// Returns all values of an option where it is given, in the order in which they are given.
pub(crate) fn all_given<'m, 'a>(options: &'m ArgMatches<'a>, name: &str) -> Option<&'m [&'a str]>
    ensures { option_map (λ texts. map (λ text. text.now) texts.now) result
        ≡ all_of name.now (rows_of (found_of options.now)) }
{
    options.get_strs(name)
}

/// Returns the value of an option where it is given.
pub(crate) fn given<'a>(options: &ArgMatches<'a>, name: &str) -> Option<&'a str>
    ensures { option_map
        (λ text. text.now) result ≡ first_of name.now (rows_of (found_of options.now)) }
{
    options.get_str(name)
}
