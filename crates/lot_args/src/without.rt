//! Which entries of a dump are left out.
ghost use Rattle.std.specs.Prelude.{◌≡◌, ◌++◌, IfOk, OnOk, filter_map, map};
ghost use Rattle.std.specs.List.{list_all};
ghost use Rattle.clap.specs.Words.{found_of, rows_of};
ghost use Rattle.lot_args.specs.Options.{all_name_entries, names_entries};
ghost use Rattle.lot_args.specs.Words.{left_out, without_of};
ghost use Rattle.lot_without.specs.Value.{named};

use crate::given::all_given;
use clap::ArgMatches;
use lot_without::{By, Without};
use std::alloc::{AllocError, Global};

/// Returns whether each value of an option names entries of a dump.
pub(crate) fn all_name_entries(options: &ArgMatches<'_>, name: &str, by: By) -> bool
    ensures { result ≡ all_name_entries by name.now (rows_of (found_of options.now)) }
{
    match all_given(options, name) {
        Some(texts) => each_names_entries(texts, by),
        None => true,
    }
}

/// Returns which entries of a dump are left out: those of `--without`, then those of `--without-batch`, then those of
/// `--without-entries`, each in the order in which they are given. A value that names none leaves nothing out. The only error is
/// out of memory.
pub(crate) fn without(alloc: Global, options: &ArgMatches<'_>) -> Result<Vec<Without>, AllocError>
    ensures { IfOk result (λ without. without.items ≡ without_of (rows_of (found_of options.now))) }
{
    let mut without = Vec::new(alloc);
    add_all(alloc, &mut without, options, "without", By::Key)?;
    add_all(alloc, &mut without, options, "without-batch", By::Batch)?;
    add_all(alloc, &mut without, options, "without-entries", By::Entries)?;
    Ok(without)
}

/// Returns whether each text names entries of a dump.
fn each_names_entries(texts: &[&str], by: By) -> bool
    ensures { result ≡ list_all (names_entries by) (map (λ text. text.now) texts.now) }
{
    for text in texts {
        if !Without::is_value(by, text) {
            return false;
        }
    }
    true
}

/// Adds the entries that the values of an option name. The only error is out of memory.
fn add_all(
    alloc: Global,
    without: &mut Vec<Without>,
    options: &ArgMatches<'_>,
    name: &str,
    by: By,
) -> Result<(), AllocError>
    ensures { OnOk result (without.new.items
        ≡ without.old.items ++ left_out by name.now (rows_of (found_of options.now))) }
{
    match all_given(options, name) {
        Some(texts) => add_each(alloc, without, texts, by),
        None => Ok(()),
    }
}

/// Adds the entries that texts name. The only error is out of memory.
fn add_each(
    alloc: Global,
    without: &mut Vec<Without>,
    texts: &[&str],
    by: By,
) -> Result<(), AllocError>
    ensures { OnOk result (without.new.items
        ≡ without.old.items ++ filter_map (named by) (map (λ text. text.now) texts.now)) }
{
    for text in texts {
        if let Some(left) = Without::parse(alloc, by, text)? {
            without.push(left)?;
        }
    }
    Ok(())
}
