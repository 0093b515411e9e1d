//! The keys of a profile that aren't words, and what may stand under each.

use crate::entry::{Entry, Form, Need};

/// A section of a profile: a table of its text.
#[derive(Clone, Copy)]
pub struct Section {
    /// The key under which it stands, or nothing at the top.
    pub key: &'static str,
    /// What it is, in a few words.
    pub says: &'static str,
    pub entries: &'static [Entry],
}

/// All that a profile may say, section by section, in the order in which it is explained. The keys of `columns`, `accounts` and
/// `rounded` are words of `Role` and `AccountRole`; those of `when` and `rows` are columns, and those of `symbols` are fields.
pub const SECTIONS: [Section; 9] = [
    ONE_TABLE,
    TABLES,
    FILE,
    FILE_OF_TABLES,
    BASIS,
    TABLE,
    KIND,
    CONSTANT,
    BEGINNING,
];

/// What is explained behind the sections: what a test and an account look like, and what kinds need beside what each needs in any
/// profile. Each is a line.
pub const NOTES: [&str; 11] = [
    "Beside these, where neither the kind nor its table has it:",
    "  buy, sell, cancel-buy, cancel-sell: price, without amount or with cost = \"price\"",
    "  the same, with fee and fee-currency, or with fee and cost = \"price\": account fees",
    "  dividend, interest: booked-currency, with booked; account tax, with tax",
    "  exchange: other-currency, with other; account fees, with fee",
    "  reward, unless rewards = \"zero\": price, without amount; account rewards",
    "  split: units, without ratio",
    "  price: currency, without price-currency",
    "Tests: a text, begins: X, has: X, > 0, < 0, nothing, something; of a list one has to hold",
    "Accounts: {currency}, {symbol} and {account} may stand in a name, but not in that of rounding",
    "Columns: a name of the header, a number from 1, a constant, or the beginning of a field",
];

/// The keys at the top, where the file has one table.
pub const ONE_TABLE: Section = Section {
    key: "",
    says: "The keys at the top, where the file has one table",
    entries: &[
        NAME,
        FILE_SECTION,
        COLUMNS_OF_FILE,
        ACCOUNTS_OF_FILE,
        BASIS_SECTION,
        SYMBOLS,
        KINDS,
    ],
};

/// The keys at the top, where the file has several tables.
pub const TABLES: Section = Section {
    key: "",
    says: "The keys at the top, where the file has several tables",
    entries: &[
        NAME,
        FILE_SECTION,
        ACCOUNTS_OF_FILE,
        BASIS_SECTION,
        SYMBOLS,
        TABLES_OF_FILE,
    ],
};

/// The file, where it has one table.
pub const FILE: Section = Section {
    key: "file",
    says: "The file, where it has one table",
    entries: &[
        ENCODING,
        DELIMITER,
        DECIMAL,
        GROUPING,
        CURRENCY_SIGNS,
        NOTHING,
        DAY,
        OPTIONAL,
        HEADER,
        ORDER,
        TURN,
    ],
};

/// The file, where it has several tables.
pub const FILE_OF_TABLES: Section = Section {
    key: "file",
    says: "The file, where it has several tables",
    entries: &[
        ENCODING,
        DELIMITER,
        DECIMAL,
        GROUPING,
        CURRENCY_SIGNS,
        NOTHING,
        DAY,
        OPTIONAL,
    ],
};

/// Cost, and how far amounts may differ.
pub const BASIS: Section = Section {
    key: "basis",
    says: "Cost, and how far amounts may differ",
    entries: &[COST, WITHIN, ROUNDED, REWARDS],
};

/// A table of several.
pub const TABLE: Section = Section {
    key: "table",
    says: "A table of several",
    entries: &[HEADER, ROWS, ORDER, COLUMNS, TURN, KINDS],
};

/// A kind of rows.
pub const KIND: Section = Section {
    key: "kind",
    says: "A kind of rows",
    entries: &[IS, WHEN, COLUMNS, KIND_TURN, ACCOUNTS],
};

/// In place of a column, a constant.
pub const CONSTANT: Section = Section {
    key: "columns",
    says: "In place of a column, a constant",
    entries: &[CONSTANT_IS],
};

/// In place of a column, the beginning of its field.
pub const BEGINNING: Section = Section {
    key: "columns",
    says: "In place of a column, the beginning of its field",
    entries: &[COLUMN, UNTIL],
};

pub(crate) const NAME: Entry = Entry {
    key: "name",
    form: Form::Text,
    need: Need::Required,
    says: "What import says that it reads",
};

pub(crate) const FILE_SECTION: Entry = Entry {
    key: "file",
    form: Form::Table,
    need: Need::Required,
    says: "How the file is written",
};

pub(crate) const COLUMNS_OF_FILE: Entry = Entry {
    key: "columns",
    form: Form::Sources,
    need: Need::Required,
    says: "Where each role is found: its column, or several",
};

pub(crate) const COLUMNS: Entry = Entry {
    key: "columns",
    form: Form::Sources,
    need: Need::EmptyTable,
    says: "Where each role is found, before what stands further out",
};

pub(crate) const ACCOUNTS_OF_FILE: Entry = Entry {
    key: "accounts",
    form: Form::Accounts,
    need: Need::Required,
    says: "The account for each purpose",
};

pub(crate) const ACCOUNTS: Entry = Entry {
    key: "accounts",
    form: Form::Accounts,
    need: Need::EmptyTable,
    says: "The account for each purpose, before what stands at the top",
};

pub(crate) const BASIS_SECTION: Entry = Entry {
    key: "basis",
    form: Form::Table,
    need: Need::EmptyTable,
    says: "What counts as cost, and how far amounts may differ",
};

pub(crate) const SYMBOLS: Entry = Entry {
    key: "symbols",
    form: Form::Symbols,
    need: Need::EmptyTable,
    says: "A field of the column symbol, and the commodity that it means",
};

pub(crate) const KINDS: Entry = Entry {
    key: "kind",
    form: Form::Tables,
    need: Need::Required,
    says: "Which rows are of a kind, a table for each",
};

pub(crate) const TABLES_OF_FILE: Entry = Entry {
    key: "table",
    form: Form::Tables,
    need: Need::Required,
    says: "The tables of a file that has several, one for each",
};

pub(crate) const ENCODING: Entry = Entry {
    key: "encoding",
    form: Form::Encoding,
    need: Need::Text("utf-8"),
    says: "How its bytes are read as text",
};

pub(crate) const DELIMITER: Entry = Entry {
    key: "delimiter",
    form: Form::Delimiter,
    need: Need::Required,
    says: "What stands between the fields of a line",
};

pub(crate) const DECIMAL: Entry = Entry {
    key: "decimal",
    form: Form::DecimalMark,
    need: Need::Required,
    says: "What stands before the decimals of a number",
};

pub(crate) const GROUPING: Entry = Entry {
    key: "grouping",
    form: Form::Character,
    need: Need::Text(""),
    says: "What stands between groups of three digits, if anything",
};

pub(crate) const CURRENCY_SIGNS: Entry = Entry {
    key: "currency-signs",
    form: Form::CurrencySigns,
    need: Need::EmptyList,
    says: "Signs that are read over before or behind a number",
};

pub(crate) const NOTHING: Entry = Entry {
    key: "nothing",
    form: Form::Texts,
    need: Need::EmptyText,
    says: "Fields that mean no value",
};

pub(crate) const DAY: Entry = Entry {
    key: "day",
    form: Form::Day,
    need: Need::Required,
    says: "How days are written",
};

pub(crate) const OPTIONAL: Entry = Entry {
    key: "optional",
    form: Form::Texts,
    need: Need::EmptyList,
    says: "Columns that some files of this broker lack",
};

pub(crate) const HEADER: Entry = Entry {
    key: "header",
    form: Form::Header,
    need: Need::Required,
    says: "How the header begins, or its line from 1, or 0 for none",
};

pub(crate) const ORDER: Entry = Entry {
    key: "order",
    form: Form::Order,
    need: Need::Required,
    says: "In which order the rows stand",
};

pub(crate) const TURN: Entry = Entry {
    key: "turn",
    form: Form::TurnedRoles,
    need: Need::EmptyList,
    says: "Roles whose sign the broker prints the other way",
};

pub(crate) const ROWS: Entry = Entry {
    key: "rows",
    form: Form::Conditions,
    need: Need::EmptyTable,
    says: "Which lines are its rows, by columns",
};

pub(crate) const IS: Entry = Entry {
    key: "is",
    form: Form::Kind,
    need: Need::Required,
    says: "What the rows are",
};

pub(crate) const WHEN: Entry = Entry {
    key: "when",
    form: Form::Conditions,
    need: Need::Required,
    says: "Which rows are of the kind, by columns",
};

pub(crate) const KIND_TURN: Entry = Entry {
    key: "turn",
    form: Form::TurnedRoles,
    need: Need::Optional,
    says: "Roles whose sign is printed the other way in these rows",
};

pub(crate) const COST: Entry = Entry {
    key: "cost",
    form: Form::CostBasis,
    need: Need::Text("amount"),
    says: "What counts as the cost of a purchase",
};

pub(crate) const WITHIN: Entry = Entry {
    key: "within",
    form: Form::Bound,
    need: Need::Text("0.005"),
    says: "How large a crumb may be",
};

pub(crate) const ROUNDED: Entry = Entry {
    key: "rounded",
    form: Form::RoundedRoles,
    need: Need::EmptyTable,
    says: "To how many decimals the broker rounds a role",
};

pub(crate) const REWARDS: Entry = Entry {
    key: "rewards",
    form: Form::Rewards,
    need: Need::Text("value"),
    says: "What units count as that come in for no cash",
};

pub(crate) const CONSTANT_IS: Entry = Entry {
    key: "is",
    form: Form::Text,
    need: Need::Required,
    says: "What it is in each row",
};

pub(crate) const COLUMN: Entry = Entry {
    key: "column",
    form: Form::Column,
    need: Need::Required,
    says: "Its column",
};

pub(crate) const UNTIL: Entry = Entry {
    key: "until",
    form: Form::SomeText,
    need: Need::Required,
    says: "Up to which text of the field",
};
