//! The subcommands, each with its help and its options.
ghost use Rattle.std.specs.Prelude.{◌≡◌, IfOk, map};
ghost use Rattle.clap.specs.Words.{app_of};
ghost use Rattle.lot_args.specs.Program.{bare_app, program_app, with_words};
ghost use Rattle.lot_args.specs.Table.{app_for};

use crate::options::{Form, WordOption, option};
use clap::Command;
use std::alloc::{AllocError, Global};

/// What `--version` prints behind the name of the program.
const VERSION: &str = "1.1.0";

/// A subcommand, or the program without one.
struct Word {
    name: &'static str,
    /// What it does, in one line: that of the subcommand in the help of the program.
    brief: &'static str,
    /// What the own help of a subcommand says; of the program the man page says it.
    about: &'static str,
    options: &'static [WordOption],
}

/// The program without a subcommand.
const PROGRAM: Word = Word {
    name: "lotbook",
    brief: "A lot book: holdings, cost and gains. To check a text: lotbook < year.ledger",
    about: "Without a subcommand it judges ledger text in memory: lotbook < year.ledger",
    options: &[
        WordOption {
            form: Form::LastFlag,
            name: "quiet",
            help: "Explains nothing on standard error",
        },
        WordOption {
            form: Form::Optional("ACCOUNT"),
            name: "rounding",
            help: "The account that takes what a command is off by",
        },
        WordOption {
            form: Form::Optional("AMOUNT"),
            name: "within",
            help: "The most that it takes, 0.005 where not given",
        },
        WordOption {
            form: Form::Decimals,
            name: "decimals",
            help: "Decimals of an amount left out, 8 where not given",
        },
        WordOption {
            form: Form::Flag,
            name: "explain-all",
            help: "Explains all that is refused, not only the first ten",
        },
    ],
};

/// The subcommands, in the order in which the help lists them.
const WORDS: [Word; 15] = [
    // `init --book FILE [--dry-run]`
    Word {
        name: "init",
        brief: "Makes a book in a file",
        about: "Makes a book in a file: lotbook init --book family.book\n\nA file that is a book already is left as it is, with the fault S1 NotABook.",
        options: &[
            BOOK,
            QUIET,
            WordOption {
                form: Form::Flag,
                name: "dry-run",
                help: "Prints what the call would print and makes no file, as in lotbook init --book family.book --dry-run",
            },
        ],
    },
    // `migrate --book FILE [--dry-run]`
    Word {
        name: "migrate",
        brief: "Takes over a book of edition 1",
        about: "Takes over a book of edition 1, which this program doesn't use as it is: lotbook migrate --book family.book\n\nEntries, sales and gains stay as they are. Of lots that are alike the sales behind them take the one that was opened first. There is no way back: keep a copy of the file. A book of this edition is left as it is.",
        options: &[
            BOOK,
            QUIET,
            WordOption {
                form: Form::Flag,
                name: "dry-run",
                help: "Prints what the call would print and changes no file, as in lotbook migrate --book family.book --dry-run",
            },
        ],
    },
    // `post --book FILE (--batch NAME [--from N] | --row-of NAME --ref REF)
    // [--rounding ACCOUNT [--within AMOUNT] [--decimals N]] [--dry-run [--gains] [--holdings]] [--all-or-none] [--explain-all]`
    Word {
        name: "post",
        brief: "Posts ledger text from standard input to a book",
        about: "Judges ledger text from standard input on a book and keeps what is accepted, a commit for each command: lotbook post --book family.book --batch 2024 < 2024.ledger\n\nA row of a broker file that was refused can be posted by hand, as one command that stands for it: lotbook post --book family.book --row-of broker --ref A17 < A17.ledger. When its file comes again the row is refused with L1 KeyReused, and doesn't act a second time.",
        options: &[
            BOOK,
            QUIET,
            WordOption {
                form: Form::Optional("NAME"),
                name: "batch",
                help: "A name for this list of commands, as in --batch 2024: 1 to 32 letters, digits, '.', '_' or '-'. A command that comes again under the same batch and number is a repeat and changes nothing. It has to be given where --row-of isn't",
            },
            WordOption {
                form: Form::Optional("NAME"),
                name: "row-of",
                help: "In place of --batch: the batch under which the broker file is imported, as in --row-of broker --ref A17. The text has to be one command, which is kept in place of that row",
            },
            WordOption {
                form: Form::Optional("REF"),
                name: "ref",
                help: "The ref of the row, as it stands in the file, by a profile the name of its key. It goes with --row-of",
            },
            WordOption {
                form: Form::Start,
                name: "from",
                help: "The number of the first command to run, as in --from 120: those before it are read but not run, and a fault in one of them still stops the call. It doesn't go with --row-of",
            },
            ROUNDING,
            WITHIN,
            DECIMALS,
            DRY_RUN,
            WordOption {
                form: Form::Flag,
                name: "gains",
                help: "Prints behind the replies what the sales gain that the call would add, as in lotbook post --book family.book --batch what-if --dry-run --gains < sale.ledger. It goes with --dry-run",
            },
            HOLDINGS,
            ALL_OR_NONE,
            EXPLAIN_ALL,
        ],
    },
    // `import (--book FILE --batch NAME (--profile FILE [--keep-accepted] | --invest ACCOUNT --cash ACCOUNT --fees ACCOUNT
    // --gains ACCOUNT [--from N] [--rounding ACCOUNT [--within AMOUNT] [--decimals N]]) [--except REF]...
    // [--dry-run [--sales] [--holdings]] [--all-or-none] | --profile FILE --show) [--explain-all]`
    Word {
        name: "import",
        brief: "Posts the rows of a broker file from standard input to a book",
        about: "Posts the rows of a broker file (CSV) from standard input to a book. What a broker prints needs a profile, which says what its columns and rows are: lotbook import --book family.book --batch degiro --profile profiles/degiro-transactions.toml < Transactions.csv\n\nSuch an import is kept whole or, where a row is refused, not at all. To see what it would post: lotbook import --profile profiles/degiro-transactions.toml --show < Transactions.csv\n\nWithout a profile the first record has to be ref,date,action,symbol,units,price,currency,fee and optionally lot, and what is accepted is kept, a commit for each row: lotbook import --book family.book --batch broker --invest Assets:Broker --cash Assets:Cash --fees Expenses:Fees --gains Income:Gains < deals.csv\n\nThen the rows have to be in the order of their days, the oldest first: a deal of an earlier day than the last one that was accepted for the same account and symbol is refused.",
        options: IMPORT_OPTIONS,
    },
    // `holdings --book FILE [--as-of DAY] [--day DAY] [--format text|csv]`
    Word {
        name: "holdings",
        brief: "Prints what a book holds now and what it cost",
        about: "Prints what a book holds now and what it cost: lotbook holdings --book family.book\n\nWhat it held at the end of a day, and what that was worth then: lotbook holdings --book family.book --as-of 2024-12-31",
        options: &[
            BOOK,
            QUIET,
            WordOption {
                form: Form::Optional("DAY"),
                name: "as-of",
                help: "Prints what was held at the end of that day, as in --as-of 2024-12-31: what the entries with days up to it come to, whenever they were posted. Lots are valued at its prices, unless --day names another day",
            },
            WordOption {
                form: Form::Optional("DAY"),
                name: "day",
                help: "The day whose prices value the lots, as in --day 2024-12-31: it chooses prices alone, what is held is as of now, or of --as-of. Without either no value is printed",
            },
            FORMAT,
        ],
    },
    // `gains --book FILE [--first DAY] [--last DAY] [--by KEYS] [--format text|csv]`
    Word {
        name: "gains",
        brief: "Prints what each sale of a book earned, lot by lot",
        about: "Prints what each sale of a book earned, lot by lot: lotbook gains --book family.book --first 2024-01-01 --last 2024-12-31",
        options: &[
            BOOK,
            QUIET,
            WordOption {
                form: Form::Optional("DAY"),
                name: "first",
                help: "The first day whose sales are printed, as in --first 2024-01-01. Without it they begin with the first sale",
            },
            WordOption {
                form: Form::Optional("DAY"),
                name: "last",
                help: "The last day whose sales are printed, as in --last 2024-12-31. Without it they end with the last sale",
            },
            WordOption {
                form: Form::Optional("KEYS"),
                name: "by",
                help: "Prints a table of sums in place of the sales, as in --by year,commodity: year, commodity, account or term, or several joined by commas",
            },
            FORMAT,
        ],
    },
    // `register --book FILE --account ACCOUNT [--commodity COMMODITY] [--first DAY] [--last DAY] [--format text|csv]`
    Word {
        name: "register",
        brief: "Prints what moved an account of a book, leg by leg",
        about: "Prints what moved an account of a book, leg by leg in the order of days, with what is left behind each: lotbook register --book family.book --account Assets:Broker --first 2024-01-01 --last 2024-12-31\n\nWhat is left counts from the first leg of the book on, of each commodity in each account, plain units and lots together. Where a day of the book falls behind an earlier entry's, it takes 16 bytes of memory for each leg of these accounts.",
        options: &[
            BOOK,
            QUIET,
            WordOption {
                form: Form::Required("ACCOUNT"),
                name: "account",
                help: "The account, as in --account Assets:Broker. With a colon at its end it stands for all accounts whose names begin so, as in --account Assets:",
            },
            WordOption {
                form: Form::Optional("COMMODITY"),
                name: "commodity",
                help: "The commodity, as in --commodity HOOL. Without it all commodities are printed",
            },
            WordOption {
                form: Form::Optional("DAY"),
                name: "first",
                help: "The first day whose legs are printed, as in --first 2024-01-01. Without it they begin with the first leg",
            },
            WordOption {
                form: Form::Optional("DAY"),
                name: "last",
                help: "The last day whose legs are printed, as in --last 2024-12-31. Without it they end with the last leg",
            },
            FORMAT,
        ],
    },
    // `activity --book FILE [--account ACCOUNT] [--first DAY] [--last DAY] [--by PERIOD] [--format text|csv]`
    Word {
        name: "activity",
        brief: "Prints what went into accounts of a book and out of them, by period",
        about: "Prints what went into accounts of a book and out of them in plain units, posting by posting, for each period, account and commodity: lotbook activity --book family.book --account Income: --first 2024-01-01 --last 2024-12-31\n\nDividends, fees and interest of a year are what the accounts for them gave and took. Lots aren't counted: lotbook gains prints what their sales earned.",
        options: &[
            BOOK,
            QUIET,
            WordOption {
                form: Form::Optional("ACCOUNT"),
                name: "account",
                help: "The account, as in --account Income:Dividends. With a colon at its end it stands for all accounts whose names begin so, as in --account Income:. Without it all accounts are printed",
            },
            WordOption {
                form: Form::Optional("DAY"),
                name: "first",
                help: "The first day that is counted, as in --first 2024-01-01. Without it the first day of the book is",
            },
            WordOption {
                form: Form::Optional("DAY"),
                name: "last",
                help: "The last day that is counted, as in --last 2024-12-31. Without it the last day of the book is",
            },
            WordOption {
                form: Form::Optional("PERIOD"),
                name: "by",
                help: "How long the periods are, as in --by quarter: year, quarter or month. Without it a year",
            },
            FORMAT,
        ],
    },
    // `journal --book FILE`
    Word {
        name: "journal",
        brief: "Prints the accepted commands of a book as ledger text",
        about: "Prints the accepted commands of a book as ledger text: lotbook journal --book family.book > family.ledger",
        options: &[BOOK, QUIET],
    },
    // `page --book FILE [--first DAY] [--last DAY] [--day DAY] [--digest]`
    Word {
        name: "page",
        brief: "Prints a book as one page of HTML that any browser opens",
        about: "Prints a book as one page of HTML that any browser opens, without a network: lotbook page --book family.book --first 2024-01-01 --last 2024-12-31 > book.html\n\nIt has what sales gained by year and by commodity, what is held, with its worth and plots of it, the sales with their lots, and the journal. The numbers are those of the other reports.",
        options: &[
            BOOK,
            QUIET,
            WordOption {
                form: Form::Optional("DAY"),
                name: "first",
                help: "The first day whose sales and entries are on the page, as in --first 2024-01-01. Without it they begin with the book",
            },
            WordOption {
                form: Form::Optional("DAY"),
                name: "last",
                help: "The last day of them, at whose end holdings are, as in --last 2024-12-31. Without it all of the book counts",
            },
            WordOption {
                form: Form::Optional("DAY"),
                name: "day",
                help: "The day of the prices of what is held, as in --day 2024-12-31. Without it the last day, or else the last prices",
            },
            WordOption {
                form: Form::Flag,
                name: "digest",
                help: "Puts the SHA-256 on it with which the dump of the book ends",
            },
        ],
    },
    // `dump --book FILE`
    Word {
        name: "dump",
        brief: "Prints a whole book as a text that says if it was changed",
        about: "Prints a whole book as ledger text: lotbook dump --book family.book > family.dump\n\nThe first line says of which edition the book is and how many entries it has, the last line the SHA-256 of all before it: a copy that was cut short or changed is known to be. Between them stands the journal, each entry under its key.",
        options: &[BOOK, QUIET],
    },
    // `reconcile --book FILE --account ACCOUNT [--as-of DAY] [--format text|csv]`
    Word {
        name: "reconcile",
        brief: "Prints what differs between a statement and a book",
        about: "Prints what differs between a statement from standard input and what a book holds in an account, plain units and lots together: lotbook reconcile --book family.book --account Assets:Broker --as-of 2024-12-31 < statement.csv\n\nThe first record has to be commodity,units, and each other one has a commodity, which comes once, and how many units of it are held. One that isn't there counts as zero. The status is 1 where something differs, and 0 where nothing does.",
        options: &[
            BOOK,
            QUIET,
            WordOption {
                form: Form::Required("ACCOUNT"),
                name: "account",
                help: "The account, as in --account Assets:Broker. With a colon at its end it stands for all accounts whose names begin so, as in --account Assets:Broker:",
            },
            WordOption {
                form: Form::Optional("DAY"),
                name: "as-of",
                help: "The day of the statement, as in --as-of 2024-12-31: what was held at its end is compared. Without it what is held now is",
            },
            FORMAT,
        ],
    },
    // `restore --book NEW [--edited] [--keep-going] [--without KEY]... [--without-batch SOURCE]... [--without-entries A-B]...
    // [--compare OLD] [--dry-run]`
    Word {
        name: "restore",
        brief: "Makes a book of a dump from standard input",
        about: "Makes a new book of a dump from standard input: lotbook restore --book new.book < family.dump\n\nEach command is judged again, under its own key. If one is refused, no book is made unless --keep-going is given. To correct a book, make a dump of it, change that, and restore it with --edited; or leave out entries of it with --without, --without-batch or --without-entries. The old file stays as it is, and --compare says what differs. A call that was stopped can be made again with the same file.",
        options: &[
            WordOption {
                form: Form::Required("NEW"),
                name: "book",
                help: "The file of the new book, as in --book new.book: there is none, or it is empty, or an earlier call of restore left it unfinished",
            },
            QUIET,
            WordOption {
                form: Form::Flag,
                name: "edited",
                help: "Takes a dump that was changed on purpose. Without it the number of entries and their SHA-256 have to be those on its last line",
            },
            WordOption {
                form: Form::Flag,
                name: "keep-going",
                help: "Makes a book of the accepted commands where others are refused. Without it no book is made then",
            },
            WordOption {
                form: Form::Repeated("KEY"),
                name: "without",
                help: "Leaves out the entry with that key, as in --without \"import:broker A17\". It may be given several times",
            },
            WordOption {
                form: Form::Repeated("SOURCE"),
                name: "without-batch",
                help: "Leaves out the entries of that batch, as in --without-batch import:deals. It may be given several times",
            },
            WordOption {
                form: Form::Repeated("A-B"),
                name: "without-entries",
                help: "Leaves out the entries with numbers from A to B, as in --without-entries 12-30. It may be given several times",
            },
            WordOption {
                form: Form::Optional("OLD"),
                name: "compare",
                help: "A book that the new one is compared with, as in --compare family.book: gains of a year and holdings that differ are printed",
            },
            WordOption {
                form: Form::Flag,
                name: "dry-run",
                help: "Prints what the call would print and makes no file, as in lotbook restore --book new.book --dry-run < family.dump",
            },
        ],
    },
    // `verify --book FILE [--digest]`
    Word {
        name: "verify",
        brief: "Judges a book again from its entries and compares its tables",
        about: "Judges a book again from its entries, compares every table, and prints book verified where they are those of a book: lotbook verify --book family.book\n\nElse it prints fault S7 Damaged, and on standard error the first table that differs, or the first entry that isn't accepted again. It changes nothing.",
        options: &[
            BOOK,
            QUIET,
            WordOption {
                form: Form::Flag,
                name: "digest",
                help: "Prints a second line, that with which the dump of the book ends: two books are the same where these are",
            },
        ],
    },
    // `explain [CODE]`
    Word {
        name: "explain",
        brief: "Says what a code means that the program prints, and what helps",
        about: "Says what a code means that the program prints, and what helps: lotbook explain B2\n\nWithout a code it prints all of them, a line each.",
        options: &[WordOption {
            form: Form::Place("CODE"),
            name: "code",
            help: "The code or its name, in large or small letters, as in explain B2 or explain ambiguous",
        }],
    },
];

/// The options of `import`, in the order in which its help lists them.
pub(crate) const IMPORT_OPTIONS: &[WordOption] = &[
    WordOption {
        form: Form::Optional("FILE"),
        name: "book",
        help: "The file of the book, as in --book family.book. It has to be given where --show isn't",
    },
    QUIET,
    WordOption {
        form: Form::Optional("NAME"),
        name: "batch",
        help: "A name for the account at the broker, as in --batch broker: 1 to 32 letters, digits, '.', '_' or '-'. It has to be given where --show isn't. Give it with all files of that account and with no other: a row that was accepted before under this batch is a repeat and changes nothing; another row with its ref, or the same row with other accounts, is refused",
    },
    WordOption {
        form: Form::Optional("FILE"),
        name: "profile",
        help: "The file that says what the columns and the rows of the broker's file are, as in --profile profiles/degiro-transactions.toml: lotbook explain profile lists all that it may say. It names the accounts, so that --invest, --cash, --fees, --gains and --rounding don't go with it",
    },
    WordOption {
        form: Form::Optional("ACCOUNT"),
        name: "invest",
        help: "The account that holds what is bought until it is sold, as in --invest Assets:Broker. This one and the next three have to be given where --profile isn't",
    },
    WordOption {
        form: Form::Optional("ACCOUNT"),
        name: "cash",
        help: "The account that pays for purchases and takes what sales bring, as in --cash Assets:Cash",
    },
    WordOption {
        form: Form::Optional("ACCOUNT"),
        name: "fees",
        help: "The account that the fees are posted to, as in --fees Expenses:Fees",
    },
    WordOption {
        form: Form::Optional("ACCOUNT"),
        name: "gains",
        help: "The account that takes what a sale gains or loses, as in --gains Income:Gains",
    },
    WordOption {
        form: Form::Start,
        name: "from",
        help: "The number of the first row to run, as in --from 120: those before it are read but not run, and a fault in one of them still stops the call. It doesn't go with --profile",
    },
    WordOption {
        form: Form::Repeated("REF"),
        name: "except",
        help: "Leaves out the row with that ref, as in --except A17; with --profile the row whose key has that name, as in --except '2024-06-28 1 1009'. It may be given several times. The rows that are left keep their numbers",
    },
    ROUNDING,
    WITHIN,
    ROW_DECIMALS,
    DRY_RUN,
    WordOption {
        form: Form::Flag,
        name: "sales",
        help: "Prints behind the replies what the sales gain that the call would add, as in --dry-run --sales. It goes with --dry-run",
    },
    HOLDINGS,
    ALL_OR_NONE,
    EXPLAIN_ALL,
    WordOption {
        form: Form::Flag,
        name: "keep-accepted",
        help: "Keeps each row that is accepted in a commit of its own, also where others are refused. It goes with --profile: without it such an import keeps all rows or none",
    },
    WordOption {
        form: Form::Flag,
        name: "show",
        help: "Prints the ledger text that the rows come to, as in lotbook import --profile profiles/degiro-transactions.toml --show < Transactions.csv. No book is opened, and nothing is kept: it goes with --profile, --quiet and --explain-all alone",
    },
];

/// The option that each subcommand on a book has.
const BOOK: WordOption = WordOption {
    form: Form::Required("FILE"),
    name: "book",
    help: "The file of the book, as in --book family.book",
};

/// `--quiet`
const QUIET: WordOption = WordOption {
    form: Form::LastFlag,
    name: "quiet",
    help: "Explains nothing on standard error, also where --explain-all is given: what is on standard output stays the same",
};

/// `--rounding`
const ROUNDING: WordOption = WordOption {
    form: Form::Optional("ACCOUNT"),
    name: "rounding",
    help: "The account that takes what a command is off by, as in --rounding Equity:Rounding: one that is refused with B5, L12 or L14 is kept with postings to this account that make it balance exactly, if it is off by a crumb alone. The account has to be open. Give the same option when the command comes again",
};

/// `--within`
const WITHIN: WordOption = WordOption {
    form: Form::Optional("AMOUNT"),
    name: "within",
    help: "The most that the account takes in a currency of one command, as in --within 0.01: 1 at most, and 0.005 where it isn't given. It goes with --rounding",
};

/// `--decimals` of ledger text.
const DECIMALS: WordOption = WordOption {
    form: Form::Decimals,
    name: "decimals",
    help: "How many decimals a posting without an amount takes, as in --decimals 2: 0 to 8, and 8 where it isn't given. The account takes the rest. It goes with --rounding",
};

/// `--decimals` of rows.
const ROW_DECIMALS: WordOption = WordOption {
    form: Form::Decimals,
    name: "decimals",
    help: "How many decimals the cash of a row has, as in --decimals 2: 0 to 8, and 8 where it isn't given. The account takes the rest, but of a SELL the account of --gains does. It goes with --rounding",
};

/// `--explain-all`
const EXPLAIN_ALL: WordOption = WordOption {
    form: Form::Flag,
    name: "explain-all",
    help: "Explains on standard error why each command is refused. Without it the first ten are explained, and how many more there are is said",
};

/// `--dry-run` of a subcommand whose commands are judged one after another.
const DRY_RUN: WordOption = WordOption {
    form: Form::Flag,
    name: "dry-run",
    help: "Prints what the call would print, with its status, and keeps nothing: neither the file of the book nor its log is changed",
};

/// `--holdings` of a dry run.
const HOLDINGS: WordOption = WordOption {
    form: Form::Flag,
    name: "holdings",
    help: "Prints behind the replies what the book would hold, as in --dry-run --holdings. It goes with --dry-run",
};

/// `--all-or-none`
const ALL_OR_NONE: WordOption = WordOption {
    form: Form::Flag,
    name: "all-or-none",
    help: "Keeps all in one commit, or nothing where one is refused: the replies are printed all the same. It is recommended for an import",
};

/// `--format`
const FORMAT: WordOption = WordOption {
    form: Form::Optional("FORMAT"),
    name: "format",
    help: "How it is written: text, or csv for a spreadsheet, as in --format csv. Without it as text",
};

/// Returns the program with all its subcommands, each with its help. It goes by its own name there, whatever its file is called.
pub(crate) fn program<'a>(alloc: Global) -> Result<Command<'a>, AllocError>
    ensures { IfOk result (λ command. app_of command ≡ program_app) }
{
    add_words(alloc, bare_program(alloc)?, &WORDS)
}

/// Returns the program without its subcommands.
pub(crate) fn bare_program<'a>(alloc: Global) -> Result<Command<'a>, AllocError>
    ensures { IfOk result (λ command. app_of command ≡ bare_app) }
{
    let whole = &PROGRAM;
    command(alloc, whole)?.version(VERSION).bin_name(whole.name)
}

/// Returns the program with these subcommands behind its others.
fn add_words<'a>(
    alloc: Global,
    mut program: Command<'a>,
    words: &[Word],
) -> Result<Command<'a>, AllocError>
    ensures { IfOk result
        (λ more. app_of more ≡ with_words (app_of program.entry) (map app_for words.now)) }
{
    for word in words {
        let command = command(alloc, word)?.long_about(word.about);
        program = program.subcommand(command)?;
    }
    Ok(program)
}

/// Returns the subcommand, or the program, with its options and the line that says what it does.
fn command<'a>(alloc: Global, word: &Word) -> Result<Command<'a>, AllocError>
    ensures { IfOk result (λ command. app_of command ≡ app_for word.now) }
{
    let mut command = Command::new(alloc, word.name).about(word.brief);
    for given in word.options {
        command = command.arg(option(alloc, given))?;
    }
    Ok(command)
}
