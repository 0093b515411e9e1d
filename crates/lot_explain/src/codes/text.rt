//! Ledger text: what is wrong with a line.

use super::{Code, Examples};

pub(super) static CODES: [Code; 7] = [
    Code {
        code: "X1",
        name: "NotUtf8",
        brief: "the line isn't UTF-8",
        rule: "Ledger text is UTF-8, also in headings and comments.",
        examples: Examples::Calls {
            refused: r#"
$ printf '; Z\374rich\n' | lotbook
"#,
            accepted: r#"
$ printf '; Z\303\274rich\n' | lotbook
"#,
        },
        help: "Save the file as UTF-8, or convert it: iconv -f latin1 -t utf-8.",
        page: "docs/FORMATS.md, Order of faults",
    },
    Code {
        code: "X2",
        name: "Syntax",
        brief: "the line has none of the forms",
        rule: "Each line is an opening, a closing, a commodity, a price, a transaction or, \
            indented, a posting, and this one has the form of none. A posting belongs to a \
            transaction before it, and an opening has at most 64 currencies. Tags, links, metadata \
            and arithmetic aren't known.",
        examples: Examples::Ledger {
            refused: r#"
2020-01-01 open Assets:Cash
2020-01-01 open Expenses:Food
2020-01-02 * "Bread"
  Expenses:Food $4.20
  Assets:Cash
"#,
            accepted: r#"
2020-01-01 open Assets:Cash
2020-01-01 open Expenses:Food
2020-01-02 * "Bread"
  Expenses:Food 4.20 USD
  Assets:Cash
"#,
        },
        help: "Standard error names the first part of the line that fits no form. Texts stand in \
            quotes, amounts are a number and a commodity, and a comma between two digits belongs \
            to the number.",
        page: "docs/FORMATS.md, Forms",
    },
    Code {
        code: "X3",
        name: "UnknownDirective",
        brief: "the line begins with no day, or behind the day stands no directive",
        rule: "A line that isn't indented begins with a day, and behind it stands open, close, \
            commodity, price, txn, * or !. Postings are indented.",
        examples: Examples::Ledger {
            refused: "2020-01-01 balance Assets:Cash 0 USD\n",
            accepted: "2020-01-01 open Assets:Cash\n",
        },
        help: "Indent a posting by a space or a tab; take lines of other kinds out.",
        page: "docs/FORMATS.md, Forms",
    },
    Code {
        code: "X4",
        name: "BadNumber",
        brief: "a number is outside its rule",
        rule: "Numbers have at most eight decimals that aren't zero. Units and totals are below \
            10,000,000,000, prices and costs of one unit below 100,000,000, and prices, costs and \
            totals aren't below zero.",
        examples: Examples::Ledger {
            refused: r#"
2020-01-01 open Assets:Broker
2020-01-01 open Assets:Cash
2020-01-02 * "Buy"
  Assets:Broker 1.991555803 HOOL {502.50 USD}
  Assets:Cash
"#,
            accepted: r#"
2020-01-01 open Assets:Broker
2020-01-01 open Assets:Cash
2020-01-02 * "Buy"
  Assets:Broker 1.9915558 HOOL {502.50 USD}
  Assets:Cash
"#,
        },
        help: "Give at most eight decimals, and the sign of a sale before its units.",
        page: "docs/RULES.md, Number text",
    },
    Code {
        code: "X5",
        name: "BadName",
        brief: "a name is outside its rule",
        rule: "An account, a commodity, a method, a label or a note is outside its rule. Accounts \
            begin with Assets, Liabilities, Equity, Income or Expenses; commodities have capital \
            letters; methods are STRICT, FIFO, LIFO, HIFO and NONE.",
        examples: Examples::Ledger {
            refused: r#"
2020-01-01 open Assets:Cash
2020-01-01 open Income:Wages
2020-01-02 * "Wages"
  Assets:Cash 100 usd
  Income:Wages
"#,
            accepted: r#"
2020-01-01 open Assets:Cash
2020-01-01 open Income:Wages
2020-01-02 * "Wages"
  Assets:Cash 100 USD
  Income:Wages
"#,
        },
        help: "Write the name by its rule.",
        page: "docs/RULES.md, Names",
    },
    Code {
        code: "X6",
        name: "BadDay",
        brief: "the day isn't in the calendar",
        rule: "A day is in the calendar of the years 1 to 9999, the year first.",
        examples: Examples::Ledger {
            refused: "2020-01-32 open Assets:Cash\n",
            accepted: "2020-01-31 open Assets:Cash\n",
        },
        help: "Correct the day.",
        page: "docs/RULES.md, Days",
    },
    Code {
        code: "X7",
        name: "LineTooLong",
        brief: "the line has more than 4,096 bytes",
        rule: "A line has at most 4,096 bytes, its line end not counted.",
        examples: Examples::Calls {
            refused: r#"
$ head -c 4097 /dev/zero | tr '\0' ';' | lotbook
"#,
            accepted: r#"
$ head -c 4096 /dev/zero | tr '\0' ';' | lotbook
"#,
        },
        help: "Shorten the line; a comment may go on in the next one.",
        page: "docs/RULES.md, Limits",
    },
];
