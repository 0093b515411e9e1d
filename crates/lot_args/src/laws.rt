//! What holds of the definitions that the contracts of this crate cite. Each law is a function that does nothing.
ghost use Rattle.std.specs.Prelude.{◌≡◌, [], ◌∷◌, None, Some, codes, pos, true};
ghost use Rattle.clap.specs.Words.{fault_of, matches_of, subcommand_of, takes};
ghost use Rattle.clap.specs.declared.error.ErrorKind.TheVariants.{MissingRequiredArgument};
ghost use Rattle.clap.specs.declared.error.ErrorKind.TheVariants.{UnknownArgument};
ghost use Rattle.lot_args.specs.Example.{a_bad_import, a_dry_run, a_misplaced_rounding, a_post, a_question, a_whole_post};
ghost use Rattle.lot_args.specs.Example.{a_bad_restore, a_restore, an_import, left_out_of, restore_of};
ghost use Rattle.lot_args.specs.Example.{a_rounded_check, a_rounded_post, a_row, code_of, crumbs_of};
ghost use Rattle.lot_args.specs.Example.{a_profile_with_a_start, a_profile_with_an_account, a_shown_book};
ghost use Rattle.lot_args.specs.Example.{a_shown_import, an_import_by_profile, an_import_of_accepted};
ghost use Rattle.lot_args.specs.Example.{an_import_without_batch, an_import_without_gains, profile_of, shown_of};
ghost use Rattle.lot_args.specs.Example.{a_kept_preview, a_previewed_import, a_previewed_post, previewed_of};
ghost use Rattle.lot_args.specs.Example.{a_key_twice, a_page_of_a_day, a_post_with_sales};
ghost use Rattle.lot_args.specs.Example.{flags_of, parts_of, row_of, word_crumbs_of};
ghost use Rattle.lot_args.specs.Program.{program_app};
ghost use Rattle.lot_args.specs.Required.{demanding_app};
ghost use Rattle.lot_args.specs.Rounding.{rounding_of};
ghost use Rattle.lot_args.specs.Tip.{tip_for};
ghost use Rattle.lot_args.specs.Words.{bad_by, misplaced_by, missing_by};
ghost use Rattle.lot_args.specs.declared.fault.BadOption.TheVariants.{By, Except, From, Gains as GainsAccount, PostGains, Rounding, Show, WithoutEntries};
ghost use Rattle.lot_args.specs.declared.fault.Needed.TheVariants.{Accounts, Book};
ghost use Rattle.lot_rounding.specs.Rounding.{half_a_cent};
ghost use Rattle.lot_args.specs.declared.action.Keeping.TheVariants.{AllOrNone, Each};
ghost use Rattle.lot_args.specs.declared.request.Effect.TheVariants.{DryRun, Keep};
ghost use Rattle.lot_args.specs.declared.request.Notes.TheVariants.{All, Quiet, Ten};
ghost use Rattle.lot_args.specs.declared.request.Preview.TheVariants.{Gains, GainsAndHoldings, Nothing};
ghost use Rattle.lot_args.specs.declared.tip.Tip.TheVariants.{Gains as GainsOfDryRun, Last};
ghost use Rattle.lot_without.specs.Value.{under};
ghost use Rattle.lot_without.specs.declared.terms.Strictness.TheVariants.{Edited, Unchanged};
ghost use Rattle.lot_without.specs.declared.terms.Tolerance.TheVariants.{AllAccepted, KeepGoing};
ghost use Rattle.lot_without.specs.declared.without.Without.TheVariants.{Batch, Entries};

/// `clap` accepts the arguments `post --book f --batch a --from 7`, and these are the values that it matches.
pub fn a_post_names_its_parts()
    ensures taken { takes program_app a_post ≡ true }
    ensures parts { parts_of (subcommand_of program_app a_post)
        ≡ Some (codes "post", codes "f", codes "a", 7) }
    ensures flags { flags_of a_post ≡ Some (Keep, Each, Ten) }
{}

/// `clap` accepts two calls that have options without a value, and this is what they say. One has `--dry-run`, `--all-or-none` and
/// `--quiet`, the other `--all-or-none` and `--explain-all`.
pub fn options_without_a_value_are_met()
    ensures dry { takes program_app a_dry_run ≡ true }
    ensures dry_flags { flags_of a_dry_run ≡ Some (DryRun Nothing, Each, Quiet) }
    ensures whole { takes program_app a_whole_post ≡ true }
    ensures whole_flags { flags_of a_whole_post ≡ Some (Keep, AllOrNone, All) }
{}

/// `clap` accepts two dry runs that tell of the book which they would leave: a `post` with `--gains --holdings --all-or-none`, and an
/// import by a profile with `--sales`. Their values are within their rules, and they say this: both keep all or none. Without
/// `--dry-run`, `--gains` is the first option of such a `post` with a bad value.
pub fn a_dry_run_tells_what_it_would_leave()
    ensures taken { takes program_app a_previewed_post ≡ true }
    ensures good { bad_by a_previewed_post ≡ None }
    ensures says { flags_of a_previewed_post
        ≡ Some (DryRun GainsAndHoldings, AllOrNone, Ten) }
    ensures import_taken { takes program_app a_previewed_import ≡ true }
    ensures import_good { bad_by a_previewed_import ≡ None }
    ensures import_says { previewed_of (subcommand_of program_app a_previewed_import)
        ≡ Some (DryRun Gains, AllOrNone) }
    ensures kept_taken { takes program_app a_kept_preview ≡ true }
    ensures bad { bad_by a_kept_preview ≡ Some PostGains }
{}

/// `clap` accepts the arguments `gains --book f --by year,term,year`, and `--by` is the option with a bad value.
pub fn a_key_that_is_named_twice_is_bad()
    ensures taken { takes program_app a_key_twice ≡ true }
    ensures bad { bad_by a_key_twice ≡ Some By }
{}

/// `clap` refuses an option that the subcommand doesn't have: `--as-of` of `page`, and `--sales` of `post`. These are the options that
/// it has in their place.
pub fn an_option_of_another_name_has_a_tip()
    ensures page { fault_of program_app a_page_of_a_day ≡ UnknownArgument ∷ [] }
    ensures last { tip_for a_page_of_a_day ≡ Some Last }
    ensures post { fault_of program_app a_post_with_sales ≡ UnknownArgument ∷ [] }
    ensures gains { tip_for a_post_with_sales ≡ Some GainsOfDryRun }
{}

/// `clap` accepts an import with `--except r --except s --from 7`. Its values are within their rules, and these are the references
/// and the number.
pub fn an_import_leaves_rows_out()
    ensures taken { takes program_app an_import ≡ true }
    ensures good { bad_by an_import ≡ None }
    ensures left_out { left_out_of (subcommand_of program_app an_import)
        ≡ Some (codes "import", codes "r" ∷ codes "s" ∷ [], 7) }
{}

/// `clap` accepts an import with `--except r --except=`, and it is the option with a bad value.
pub fn a_row_without_a_reference_is_bad()
    ensures taken { takes program_app a_bad_import ≡ true }
    ensures bad { bad_by a_bad_import ≡ Some Except }
{}

/// `clap` accepts a restore with `--without-entries 3-5 --without "p:a b" --edited --without-batch p:c --without "q 7" --compare f`. Its
/// values are within their rules, and this is what it leaves out: keys, then batches, then ranges.
pub fn a_restore_leaves_entries_out()
    ensures taken { takes program_app a_restore ≡ true }
    ensures good { bad_by a_restore ≡ None }
    ensures says { restore_of (subcommand_of program_app a_restore)
        ≡ Some (
          codes "restore",
          under (codes "p:a") (codes "b") ∷ under (codes "q") (codes "7")
              ∷ Batch (codes "p:c") ∷ Entries 3 5 ∷ [],
          Edited,
          AllAccepted,
          Some (codes "f"),
        ) }
{}

/// `clap` accepts a restore with `--keep-going --without-entries 3-5 --without-entries 5-3`, and the latter is the option with a bad
/// value.
pub fn a_range_that_ends_before_it_begins_is_bad()
    ensures taken { takes program_app a_bad_restore ≡ true }
    ensures bad { bad_by a_bad_restore ≡ Some WithoutEntries }
    ensures says { restore_of (subcommand_of program_app a_bad_restore)
        ≡ Some (codes "restore", Entries 3 5 ∷ [], Unchanged, KeepGoing, None) }
{}

/// `clap` accepts an import with `--profile p --except r --all-or-none`, and one with `--profile p --keep-accepted`. Nothing is
/// missing, their values are within their rules, and they say this: the first one keeps all rows or none.
pub fn an_import_by_a_profile_keeps_all_or_none()
    ensures taken { takes program_app an_import_by_profile ≡ true }
    ensures whole { missing_by an_import_by_profile ≡ None }
    ensures good { bad_by an_import_by_profile ≡ None }
    ensures says { profile_of (subcommand_of program_app an_import_by_profile)
        ≡ Some (true, codes "p", codes "r" ∷ [], AllOrNone) }
    ensures each_taken { takes program_app an_import_of_accepted ≡ true }
    ensures each_good { bad_by an_import_of_accepted ≡ None }
    ensures each { profile_of (subcommand_of program_app an_import_of_accepted)
        ≡ Some (true, codes "p", [], Each) }
{}

/// `clap` accepts the arguments `import --profile p --show`. Nothing is missing, and the ledger text of rows is shown. With
/// `--book f`, `--show` is the option with a bad value.
pub fn an_import_is_shown_without_a_book()
    ensures taken { takes program_app a_shown_import ≡ true }
    ensures whole { missing_by a_shown_import ≡ None }
    ensures good { bad_by a_shown_import ≡ None }
    ensures says { shown_of (subcommand_of program_app a_shown_import) ≡ Some (true, codes "p") }
    ensures book_taken { takes program_app a_shown_book ≡ true }
    ensures bad { bad_by a_shown_book ≡ Some Show }
{}

/// `clap` accepts an import with `--profile p --from 2 --gains Equity:R`, of whose options `--gains` is the first with a bad
/// value, since the profile names the accounts. Without it `--from` is.
pub fn a_profile_stands_in_place_of_accounts()
    ensures taken { takes program_app a_profile_with_an_account ≡ true }
    ensures account { bad_by a_profile_with_an_account ≡ Some GainsAccount }
    ensures start_taken { takes program_app a_profile_with_a_start ≡ true }
    ensures start { bad_by a_profile_with_a_start ≡ Some From }
{}

/// `clap` accepts an import without `--gains`, and one with `--profile p` and without `--batch`. They lack some of these options,
/// and where those always have to be given, `clap` says that one is missing.
pub fn an_import_that_lacks_an_option_is_known()
    ensures taken { takes program_app an_import_without_gains ≡ true }
    ensures accounts { missing_by an_import_without_gains ≡ Some Accounts }
    ensures says { fault_of (demanding_app Accounts) an_import_without_gains
        ≡ MissingRequiredArgument ∷ [] }
    ensures book_taken { takes program_app an_import_without_batch ≡ true }
    ensures book { missing_by an_import_without_batch ≡ Some Book }
    ensures book_says { fault_of (demanding_app Book) an_import_without_batch
        ≡ MissingRequiredArgument ∷ [] }
{}

/// `clap` accepts the arguments `post --book f --row-of a --ref r`. Their values are within their rules, and say this batch and
/// this reference.
pub fn a_post_for_a_row_names_it()
    ensures taken { takes program_app a_row ≡ true }
    ensures good { bad_by a_row ≡ None }
    ensures row { row_of (subcommand_of program_app a_row) ≡ Some (true, codes "a", codes "r") }
{}

/// `clap` accepts two calls with a rounding account, and this is what they say. The first one is a `post` with `--within 0.02` and
/// `--decimals 2`, and the other has no subcommand.
pub fn a_rounding_account_is_met()
    ensures taken { takes program_app a_rounded_post ≡ true }
    ensures good { bad_by a_rounded_post ≡ None }
    ensures post { word_crumbs_of (subcommand_of program_app a_rounded_post)
        ≡ Some (codes "Equity:R", pos 2000000, 2) }
    ensures check_taken { takes program_app a_rounded_check ≡ true }
    ensures check_good { bad_by a_rounded_check ≡ None }
    ensures check { crumbs_of (rounding_of (matches_of program_app a_rounded_check))
        ≡ Some (codes "Equity:R", half_a_cent, 8) }
{}

/// `clap` accepts a call with `--rounding` before its subcommand, and it is the option that is misplaced.
pub fn a_rounding_account_before_a_subcommand_is_misplaced()
    ensures taken { takes program_app a_misplaced_rounding ≡ true }
    ensures misplaced { misplaced_by a_misplaced_rounding ≡ Some Rounding }
{}

/// `clap` accepts the arguments `explain B2`, and this is the code.
pub fn a_code_is_met()
    ensures taken { takes program_app a_question ≡ true }
    ensures code { code_of (subcommand_of program_app a_question)
        ≡ Some (codes "explain", Some (codes "B2")) }
{}
