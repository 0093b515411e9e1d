ghost use Rattle.std.specs.Prelude.{◌≡◌};

use crate::batch::Batch;
use crate::start::Start;
use lot_base::{Commodity, Day, Label};
use lot_import::Accounts;
use lot_period::PeriodLength;
use lot_profile::Profile;
use lot_rounding::Rounding;
use lot_tally::GainKey;
use lot_without::{Strictness, Tolerance, Without};

/// How a report is written.
#[derive(Clone, Copy)]
pub enum Format {
    /// As lines to be read.
    Text,
    /// As a table for a spreadsheet.
    Csv,
}

/// Which commits keep the commands of a call.
#[derive(Clone, Copy)]
pub enum Keeping {
    /// Each command is kept in a commit of its own.
    Each,
    /// All are kept in one commit, or none where one is refused.
    AllOrNone,
}

/// What is written of a book that is verified.
#[derive(Clone, Copy)]
pub enum Saying {
    /// That it is verified.
    Verified,
    /// That, and the last line of its dump: how many entries it has, and their digest.
    Digest,
}

/// Ledger text that is posted to a book.
#[derive(Drop)]
pub struct Post {
    pub book: String,
    pub batch: Batch,
    pub from: Start,
    pub rounding: Option<Rounding>,
    pub keeping: Keeping,
}

/// A broker file whose rows are posted to accounts of a book.
#[derive(Drop)]
pub struct Import {
    pub book: String,
    pub batch: Batch,
    pub accounts: Accounts,
    pub from: Start,
    /// The `ref`s of the rows that are left out, in the order in which they are given.
    pub except: Vec<Label>,
    pub rounding: Option<Rounding>,
    pub keeping: Keeping,
}

/// A broker's file whose rows are posted to a book as a profile says.
pub struct ImportBy {
    pub book: String,
    pub batch: Batch,
    /// The `ref`s of the rows that are left out, in the order in which they are given.
    pub except: Vec<Label>,
    pub keeping: Keeping,
    pub profile: Profile,
    /// Where the crumbs go, as the profile says, or `None` where it names no account for them.
    pub rounding: Option<Rounding>,
}

impl Drop for ImportBy {
    /// It is written out, so that callers don't prove again how each part is dropped.
    fn drop(self) {
        let ImportBy {
            book: _book,
            batch: _batch,
            except: _except,
            keeping: _keeping,
            profile: _profile,
            rounding: _rounding,
        } = self;
    }
}

/// An import by a profile, before that is read.
#[derive(Drop)]
pub struct AskedImport {
    pub book: String,
    pub batch: Batch,
    /// The `ref`s of the rows that are left out, in the order in which they are given.
    pub except: Vec<Label>,
    pub keeping: Keeping,
}

impl AskedImport {
    /// Returns the import with its profile, and where that has the crumbs go.
    pub fn with(self, profile: Profile, rounding: Option<Rounding>) -> ImportBy
        ensures book { result.book ≡ self.book }
        ensures batch { result.batch ≡ self.batch }
        ensures except { result.except ≡ self.except }
        ensures keeping { result.keeping ≡ self.keeping }
        ensures profile { result.profile ≡ profile }
        ensures rounding { result.rounding ≡ rounding }
    {
        ImportBy {
            book: self.book,
            batch: self.batch,
            except: self.except,
            keeping: self.keeping,
            profile,
            rounding,
        }
    }
}

/// A dump of which a book is made in a file.
#[derive(Drop)]
pub struct Restore {
    pub book: String,
    /// The entries that are left out: those under given keys, then those of given batches, then those of given ranges, each in
    /// the order in which they are given.
    pub without: Vec<Without>,
    pub strictness: Strictness,
    pub tolerance: Tolerance,
    /// The book that the new one is compared with, where one is named.
    pub compare: Option<String>,
}

/// A statement of what an account holds, which is compared with a book.
#[derive(Drop)]
pub struct Reconcile {
    pub book: String,
    /// The account. With a colon at its end it stands for every account whose name begins with it.
    pub account: String,
    /// The last day that is counted, or none where all are.
    pub day: Option<Day>,
    pub format: Format,
}

/// A report of a book. It is read, and stays as it is.
#[derive(Drop)]
pub enum Report {
    /// What it holds. With a day, also what its lots are worth on it.
    Holdings {
        day: Option<Day>,
        format: Format,
    },
    /// What it held at the end of a day, and what its lots were worth at the prices of a day.
    HoldingsOn {
        on: Day,
        day: Day,
        format: Format,
    },
    /// What its sales gained from the first day to the last, both included. Without a day that end of the range is open.
    Gains {
        first: Option<Day>,
        last: Option<Day>,
        format: Format,
    },
    /// What the same sales gained in all, by keys.
    GainsBy {
        first: Option<Day>,
        last: Option<Day>,
        by: Vec<GainKey>,
        format: Format,
    },
    /// What the sales of the entries behind that number of them gained, as lines to be read. No subcommand asks for it.
    AddedGains {
        behind: u32,
    },
    /// The legs of an account in the order of days, from the first day to the last, both included, each with what is left behind
    /// it. Without a day that end of the range is open. With a colon at its end the account stands for every account whose name
    /// begins with it. With a commodity, those of that one alone.
    Register {
        account: String,
        commodity: Option<Commodity>,
        first: Option<Day>,
        last: Option<Day>,
        format: Format,
    },
    /// What went into accounts and out of them in plain units, by periods of that length, from the first day to the last, both
    /// included. Without a day that end of the range is open. With a colon at its end the account stands for every account whose
    /// name begins with it. Without an account the report is of all.
    Activity {
        account: Option<String>,
        length: PeriodLength,
        first: Option<Day>,
        last: Option<Day>,
        format: Format,
    },
    /// Its entries.
    Journal,
    /// The book as one page of HTML: what its sales gained from the first day to the last, both included, what it held at the end of
    /// the last, at the prices of a day, and its entries on those days. Without a day that end of the range is open, and the
    /// prices are those of the last day.
    Page {
        /// The name of the file of the book, without the folders before it.
        name: String,
        first: Option<Day>,
        last: Option<Day>,
        day: Option<Day>,
        saying: Saying,
    },
    /// Its entries, between two lines by which the book can be made again.
    Dump,
}

/// What the program is asked to do. A book is named by the path of its file. Where a rounding account is named, commands are
/// completed with it.
#[derive(Drop)]
pub enum Action {
    /// No subcommand is given: ledger text is judged on an empty book in memory.
    Check {
        rounding: Option<Rounding>,
    },
    /// A book is made in a file.
    Init {
        book: String,
    },
    /// A book of an older edition becomes one of this edition.
    Migrate {
        book: String,
    },
    /// Ledger text is judged on a book. What is accepted is kept there.
    Post(Post),
    /// Ledger text of one command is posted to a book, in place of the row with that `ref` of a broker file.
    PostRow {
        book: String,
        batch: Batch,
        reference: Label,
        rounding: Option<Rounding>,
    },
    /// The rows of a broker file are posted to accounts of a book.
    Import(Import),
    /// The rows of a broker's file are posted to a book as a profile says.
    ImportBy(ImportBy),
    /// A report of a book is written.
    Report {
        book: String,
        report: Report,
    },
    /// What differs between a statement and a book is written.
    Reconcile(Reconcile),
    /// A book is made of a dump.
    Restore(Restore),
    /// A book is judged again from its entries, and every table is compared.
    Verify {
        book: String,
        saying: Saying,
    },
}
