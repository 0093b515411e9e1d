//! Numbers, names and days, and what an inventory holds.

use super::{Code, Examples};

pub(super) static CODES: [Code; 10] = [
    Code {
        code: "N1",
        name: "Syntax",
        brief: "the text is no number",
        rule: "A number is an optional sign, digits, and perhaps a point with digits behind it. \
            A comma may stand between two digits before the point. In a broker file another \
            text is C2 with its column.",
        examples: Examples::Rows {
            refused: r#"
ref,date,action,symbol,units,price,currency,fee
D-1,2024-01-15,BUY,HOOL,.5,102.50,USD,
"#,
            accepted: r#"
ref,date,action,symbol,units,price,currency,fee
D-1,2024-01-15,BUY,HOOL,0.5,102.50,USD,
"#,
        },
        help: "Write a digit before the point, and no currency sign, space or exponent.",
        page: "docs/RULES.md, Number text",
    },
    Code {
        code: "N2",
        name: "TooManyDecimals",
        brief: "a number has more than eight decimals",
        rule: "A number has at most eight decimals that aren't zero; nothing is rounded. In ledger \
            text more are X4, in a broker file C2 with the column.",
        examples: Examples::Ledger {
            refused: r#"
2020-01-01 open Assets:Cash
2020-01-02 * "Interest"
  Assets:Cash 0.123456789 USD
  Assets:Cash
"#,
            accepted: r#"
2020-01-01 open Assets:Cash
2020-01-02 * "Interest"
  Assets:Cash 0.12345678 USD
  Assets:Cash
"#,
        },
        help: "Give at most eight decimals, as the broker's statement does.",
        page: "docs/RULES.md, Number text",
    },
    Code {
        code: "N3",
        name: "TooLarge",
        brief: "a number is too large",
        rule: "Units and totals are below 10,000,000,000, the price or cost of one unit is below \
            100,000,000. In ledger text more is X4, in a broker file C2 with the column.",
        examples: Examples::Ledger {
            refused: "2020-01-01 price HOOL 100000000 USD\n",
            accepted: "2020-01-01 price HOOL 99999999 USD\n",
        },
        help: "Count such a commodity in larger units, as in thousands.",
        page: "docs/RULES.md, Numbers",
    },
    Code {
        code: "N4",
        name: "Negative",
        brief: "a price, a cost or a total is below zero",
        rule: "A price, a cost and a total aren't below zero; the sign of a sale stands before its \
            units. In ledger text such a number is X4, in a broker file C2 with the column.",
        examples: Examples::Ledger {
            refused: "2020-01-01 price HOOL -5 USD\n",
            accepted: "2020-01-01 price HOOL 5 USD\n",
        },
        help: "Write the number without its sign; a sale has negative units.",
        page: "docs/RULES.md, Number text",
    },
    Code {
        code: "M1",
        name: "BadAccount",
        brief: "the text is no account",
        rule: "An account is Assets, Liabilities, Equity, Income or Expenses, and behind it one or \
            more parts, each with a colon before it. A part begins with a capital letter or a \
            digit, and has letters, digits and dashes. In ledger text another name is X5, of an \
            option it is U2.",
        examples: Examples::Ledger {
            refused: "2020-01-01 open Assets:cash\n",
            accepted: "2020-01-01 open Assets:Cash\n",
        },
        help: "Begin each part with a capital letter or a digit; an account has ASCII letters \
            alone and at most 128 bytes.",
        page: "docs/RULES.md, Names",
    },
    Code {
        code: "M2",
        name: "BadCommodity",
        brief: "the text is no commodity",
        rule: "A commodity or currency has 1 to 24 capital letters, digits and the marks \
            ' . _ and -. It begins with a capital letter and ends with one or with a digit. \
            In ledger text another name is X5, in a broker file C2 with the column.",
        examples: Examples::Ledger {
            refused: "2020-01-01 commodity usd\n",
            accepted: "2020-01-01 commodity USD\n",
        },
        help: "Write it in capital letters.",
        page: "docs/RULES.md, Names",
    },
    Code {
        code: "M3",
        name: "BadLabel",
        brief: "the text is no label",
        rule: "The label of a lot, and the ref of a row, have 1 to 64 bytes, without control \
            characters, quotes and backslashes. In ledger text another is X5, in a broker file C2 \
            with the column.",
        examples: Examples::Rows {
            refused: r#"
ref,date,action,symbol,units,price,currency,fee
,2024-01-15,BUY,HOOL,10,102.50,USD,
"#,
            accepted: r#"
ref,date,action,symbol,units,price,currency,fee
D-1,2024-01-15,BUY,HOOL,10,102.50,USD,
"#,
        },
        help: "Give each row a ref of its own.",
        page: "docs/RULES.md, Names",
    },
    Code {
        code: "M4",
        name: "BadDay",
        brief: "the text is no day",
        rule: "A day is a year of four digits, a month and a day, with - or / between them, and is \
            in the calendar of the years 1 to 9999. In ledger text another is X6, in a broker file \
            C2 with the column, of an option U2.",
        examples: Examples::Ledger {
            refused: "2021-02-29 open Assets:Cash\n",
            accepted: "2020-02-29 open Assets:Cash\n",
        },
        help: "Write the year first, as in 2020-02-29.",
        page: "docs/RULES.md, Days",
    },
    Code {
        code: "M5",
        name: "BadNote",
        brief: "a narration or a payee is too long",
        rule: "A narration or payee has at most 1,000 bytes. In ledger text a longer one is X5.",
        examples: Examples::Absent,
        help: "Shorten the text in the quotes.",
        page: "docs/RULES.md, Names",
    },
    Code {
        code: "I1",
        name: "Range",
        brief: "an account would hold too many units",
        rule: "What an account holds of a commodity at one position stays below 10,000,000,000 \
            units, and above as many below zero. In a book a sum that leaves this range is L11.",
        examples: Examples::Absent,
        help: "Count such a commodity in larger units, as in thousands.",
        page: "docs/RULES.md, Inventory",
    },
];
