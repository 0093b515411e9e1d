ghost use Rattle.std.specs.Prelude.{◌≡◌};
ghost use Rattle.lot_args.specs.Options.{name_of};

use clap::Error;
use clap::error::ErrorKind;
use std::alloc::AllocError;
use std::fmt;

/// An option whose value can be outside its rule. The variants stand in the order in which the options are tested.
#[derive(Clone, Copy)]
pub enum BadOption {
    /// `--show`: `--profile` isn't given, or an option is that speaks of a book.
    Show,
    /// `--keep-accepted`: `--profile` isn't given, or `--all-or-none` is.
    KeepAccepted,
    /// `--batch` of `import`: its value isn't the name of a batch.
    Batch,
    /// `--batch` of `post`: its value isn't the name of a batch, or `--row-of` is given, too.
    PostBatch,
    /// `--row-of`: its value isn't the name of a batch.
    RowOf,
    /// `--ref`: its value isn't a label, or `--row-of` isn't given.
    Ref,
    /// `--from`: its value isn't 1, and `--row-of` or `--profile` is given.
    From,
    /// `--invest`: its value isn't an account, or `--profile` is given.
    Invest,
    /// `--cash`: its value isn't an account, or `--profile` is given.
    Cash,
    /// `--fees`: its value isn't an account, or `--profile` is given.
    Fees,
    /// `--gains`: its value isn't an account, or `--profile` is given.
    Gains,
    /// `--except`: one of its values isn't a label.
    Except,
    /// `--rounding`: its value isn't an account, or `--profile` is given.
    Rounding,
    /// `--within`: its value isn't an amount from 0 to 1, or `--rounding` isn't given.
    Within,
    /// `--decimals`: `--rounding` isn't given.
    Decimals,
    /// `--gains` of `post`: `--dry-run` isn't given.
    PostGains,
    /// `--sales`: `--dry-run` isn't given.
    Sales,
    /// `--holdings`: `--dry-run` isn't given.
    Holdings,
    /// `--account`: its value is neither an account nor what accounts begin with, up to a colon.
    Account,
    /// `--commodity`: its value isn't a commodity.
    Commodity,
    /// `--day`: its value isn't a day.
    Day,
    /// `--as-of`: its value isn't a day.
    AsOf,
    /// `--first`: its value isn't a day.
    First,
    /// `--last`: its value isn't a day.
    Last,
    /// `--by`: its value isn't a list of keys joined by commas, or a key stands there twice.
    By,
    /// `--by` of `activity`: its value is neither `year`, `quarter` nor `month`.
    Period,
    /// `--format`: its value is neither `text` nor `csv`.
    Format,
    /// `--without`: one of its values isn't a key.
    Without,
    /// `--without-batch`: one of its values isn't the source of keys.
    WithoutBatch,
    /// `--without-entries`: one of its values isn't a range of numbers.
    WithoutEntries,
}

impl BadOption {
    /// Returns the name of the option, without its dashes.
    pub fn name(self) -> &'static str
        ensures { result.now ≡ name_of self }
    {
        match self {
            BadOption::Show => "show",
            BadOption::KeepAccepted => "keep-accepted",
            BadOption::Batch | BadOption::PostBatch => "batch",
            BadOption::RowOf => "row-of",
            BadOption::Ref => "ref",
            BadOption::From => "from",
            BadOption::Invest => "invest",
            BadOption::Cash => "cash",
            BadOption::Fees => "fees",
            BadOption::Gains | BadOption::PostGains => "gains",
            BadOption::Except => "except",
            BadOption::Rounding => "rounding",
            BadOption::Within => "within",
            BadOption::Decimals => "decimals",
            BadOption::Sales => "sales",
            BadOption::Holdings => "holdings",
            BadOption::Account => "account",
            BadOption::Commodity => "commodity",
            BadOption::Day => "day",
            BadOption::AsOf => "as-of",
            BadOption::First => "first",
            BadOption::Last => "last",
            BadOption::By | BadOption::Period => "by",
            BadOption::Format => "format",
            BadOption::Without => "without",
            BadOption::WithoutBatch => "without-batch",
            BadOption::WithoutEntries => "without-entries",
        }
    }
}

impl fmt::Display for BadOption {
    ghost use Rattle.std.specs.Prelude.{Some, ◌++◌, codes};
    ghost use Rattle.lot_args.specs.Options.{name_of};

    ghost output = { λ option. Some (codes "--" ++ name_of option) };

    /// Writes the option with its dashes.
    fn fmt<W: fmt::Write>(&self, f: &mut fmt::Formatter<W>) -> Result<(), fmt::Error> {
        f.write_str("--")?;
        f.write_str(self.name())
    }
}

/// Options that a call needs and `clap` doesn't ask for, since not each call of the subcommand needs them.
#[derive(Clone, Copy)]
pub enum Needed {
    /// A `post` needs `--batch` or `--row-of`.
    BatchOrRow,
    /// An `import` without a profile needs `--book`, `--batch`, `--invest`, `--cash`, `--fees` and `--gains`.
    Accounts,
    /// An `import` by a profile needs `--book` and `--batch`, unless it shows ledger text alone.
    Book,
}

/// Why the arguments give no request.
#[derive(Drop)]
pub enum WordsFault {
    /// `clap` refuses the arguments, or help or the version is asked for. Its error says which, and has the text to show.
    Usage(Error),
    /// An option of a rounding account stands before a subcommand.
    Misplaced(BadOption),
    /// Of these options, which the call needs, at least one isn't given.
    MissingOptions(Needed),
    /// The value of the option is outside its rule.
    BadValue(BadOption),
    /// Out of memory, before `clap` has matched the arguments.
    Unmatched,
    /// Out of memory, though `clap` accepts the arguments, and no option is misplaced, missing or has a value outside its rule.
    Memory,
}

impl From<AllocError> for WordsFault {
    ghost use Rattle.lot_args.specs.declared.fault.WordsFault.TheVariants.{Memory};

    ghost from_gives = { λ _ fault. fault ≡ Memory };

    fn from(_error: AllocError) -> WordsFault {
        WordsFault::Memory
    }
}

impl From<Error> for WordsFault {
    ghost use Rattle.lot_args.specs.Faults.{Refuses};

    ghost from_gives = { Refuses };

    fn from(error: Error) -> WordsFault {
        match error.kind() {
            ErrorKind::OutOfMemory => WordsFault::Unmatched,
            _ => WordsFault::Usage(error),
        }
    }
}
