//! Broker files.

use super::{Code, Examples};

pub(super) static CODES: [Code; 7] = [
    Code {
        code: "C1",
        name: "BadHeader",
        brief: "the first record isn't the header of a broker file",
        rule: "The first record of a broker file is exactly \
            ref,date,action,symbol,units,price,currency,fee, with ,lot behind it where the file \
            has that column; that of a statement is commodity,units. In an export that is imported by \
            a profile, a column that the profile names stands in the header exactly once; its lines \
            are counted without blank ones.",
        examples: Examples::Rows {
            refused: r#"
Ref,Date,Action,Symbol,Units,Price,Currency,Fee
D-1,2024-01-15,BUY,HOOL,10,102.50,USD,
"#,
            accepted: r#"
ref,date,action,symbol,units,price,currency,fee
D-1,2024-01-15,BUY,HOOL,10,102.50,USD,
"#,
        },
        help: "Name and order the columns of the broker's file so; fields are separated by commas. Or \
            import by a profile, which names the columns as they are.",
        page: "docs/FORMATS.md, Broker files",
    },
    Code {
        code: "C2",
        name: "BadRow",
        brief: "a field is outside the rule of its column",
        rule: "A field of a row is outside the rule of its column, which the fault names. Of an export \
            that is imported by a profile the cause says which rule of the profile the row doesn't \
            fit. Then no row of the file is posted. lotbook explain CAUSE says what a cause means, as \
            lotbook explain NoKind.",
        examples: Examples::Rows {
            refused: r#"
ref,date,action,symbol,units,price,currency,fee
D-1,2024-01-15,Buy,HOOL,10,102.50,USD,
"#,
            accepted: r#"
ref,date,action,symbol,units,price,currency,fee
D-1,2024-01-15,BUY,HOOL,10,102.50,USD,
"#,
        },
        help: "In a broker file actions are BUY and SELL, days have the year first, units aren't \
            negative, and a number with a comma stands in quotes; import rows of other kinds by a \
            profile. By a profile, say in it what the row is, pass it over as skip, or make its kind \
            by-hand.",
        page: "docs/FORMATS.md, Broker files",
    },
    Code {
        code: "C3",
        name: "TooManyRows",
        brief: "there are more than 100,000 rows",
        rule: "A broker file has at most 100,000 rows.",
        examples: Examples::Absent,
        help: "Split the file, with the header before each part, and import the parts under the \
            same batch.",
        page: "docs/RULES.md, Limits",
    },
    Code {
        code: "C4",
        name: "InexactAmount",
        brief: "the cash of the row has more than eight decimals, or is too large",
        rule: "The cash of a row is units times price, with the fee. It has to be below \
            10,000,000,000, and without --rounding to have at most eight decimals. Else no row of \
            the file is posted.",
        examples: Examples::Rows {
            refused: r#"
ref,date,action,symbol,units,price,currency,fee
D-1,2024-01-15,BUY,HOOL,0.3170215,78.8594,USD,
"#,
            accepted: r#"
ref,date,action,symbol,units,price,currency,fee
D-1,2024-01-15,BUY,HOOL,0.3170215,78.9,USD,
"#,
        },
        help: "Name an account that takes crumbs, as by --rounding Equity:Rounding: the cash is \
            rounded then. Or give the price fewer decimals, so that these and those of the units \
            are at most eight together, and post what is left over to an account of its own.",
        page: "docs/FORMATS.md, Broker files",
    },
    Code {
        code: "C5",
        name: "NotText",
        brief: "a line of the export isn't UTF-8",
        rule: "An export that is imported by a profile is UTF-8, unless the profile says that its \
            encoding is Latin-1. Lines are counted without blank ones.",
        examples: Examples::Absent,
        help: "Write encoding = \"latin-1\" into [file] of the profile, or export the file as UTF-8.",
        page: "docs/FORMATS.md, Profiles",
    },
    Code {
        code: "C6",
        name: "AgainstOrder",
        brief: "the day of the row stands against the order of its table",
        rule: "Where the profile says oldest-first, no row has an earlier day than the row of its \
            table above it; where it says newest-first, none has a later one.",
        examples: Examples::Absent,
        help: "Say \"by-day\" or \"by-day-newest-first\" as the order in the profile, where rows \
            are sorted by something else than the day.",
        page: "docs/FORMATS.md, Profiles",
    },
    Code {
        code: "C7",
        name: "NoPurchase",
        brief: "the row takes back a purchase that isn't there",
        rule: "A row of the kind cancel-buy takes back the last earlier purchase of the file with \
            its symbol, price and currency and opposite units and amount, which no other row \
            takes back.",
        examples: Examples::Absent,
        help: "Export from a day before the purchase on, make its kind by-hand, or leave out the row \
            by --except.",
        page: "docs/FORMATS.md, Profiles",
    },
];
