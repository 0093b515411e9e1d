//! Decisions, 1 to 8: keys, accounts, commodities and how many postings there are.

use super::{Code, Examples};

pub(super) static CODES: [Code; 8] = [
    Code {
        code: "L1",
        name: "KeyReused",
        brief: "another command has this key already",
        rule: "A command is known by its batch and its number, a row of a broker file by its batch \
            and its ref, an entry of a dump by the key above it. Under this key the book has \
            another command already, and what is in the book doesn't change. In a dump no key \
            comes twice.",
        examples: Examples::Rows {
            refused: r#"
ref,date,action,symbol,units,price,currency,fee
D-1,2024-01-15,BUY,HOOL,10,102.50,USD,
D-1,2024-01-16,BUY,HOOL,5,103,USD,
"#,
            accepted: r#"
ref,date,action,symbol,units,price,currency,fee
D-1,2024-01-15,BUY,HOOL,10,102.50,USD,
D-2,2024-01-16,BUY,HOOL,5,103,USD,
"#,
        },
        help: "Send the whole text of a batch, as it was, with --rounding if it was sent so; put a \
            new command at its end, or into a batch of its own. Give each deal a ref of its own.",
        page: "docs/RULES.md, Keys and repeats",
    },
    Code {
        code: "L2",
        name: "AlreadyOpen",
        brief: "the account was opened before",
        rule: "An account is opened once, and not again after it was closed.",
        examples: Examples::Ledger {
            refused: r#"
2020-01-01 open Assets:Cash
2020-02-01 open Assets:Cash
"#,
            accepted: r#"
2020-01-01 open Assets:Cash
2020-02-01 open Assets:Savings
"#,
        },
        help: "Leave the second opening out, or open an account of another name.",
        page: "docs/RULES.md, Order of refusals",
    },
    Code {
        code: "L3",
        name: "UnknownAccount",
        brief: "no account of this name was opened",
        rule: "An account has to be opened before it is posted to or closed, and no accepted \
            opening has this name. Letters count as they are written.",
        examples: Examples::Ledger {
            refused: r#"
2020-01-01 open Assets:Cash
2020-01-01 open Income:Wages
2020-01-02 * "Wages"
  Assets:Cahs 100 USD
  Income:Wages
"#,
            accepted: r#"
2020-01-01 open Assets:Cash
2020-01-01 open Income:Wages
2020-01-02 * "Wages"
  Assets:Cash 100 USD
  Income:Wages
"#,
        },
        help: "Correct the name, or open the account first.",
        page: "docs/RULES.md, Order of refusals",
    },
    Code {
        code: "L4",
        name: "NotOpenYet",
        brief: "the day is before the account's opening",
        rule: "A transaction isn't before the opening of its accounts, nor is a closing. A \
            transaction of the day itself is accepted.",
        examples: Examples::Ledger {
            refused: r#"
2020-02-01 open Assets:Cash
2020-02-01 open Income:Wages
2020-01-02 * "Wages"
  Assets:Cash 100 USD
  Income:Wages
"#,
            accepted: r#"
2020-01-01 open Assets:Cash
2020-01-01 open Income:Wages
2020-01-02 * "Wages"
  Assets:Cash 100 USD
  Income:Wages
"#,
        },
        help: "Open accounts on a day before their first transaction; the day of an opening can't \
            be changed.",
        page: "docs/RULES.md, Order of refusals",
    },
    Code {
        code: "L5",
        name: "Closed",
        brief: "the account is closed",
        rule: "A transaction isn't after the closing of its accounts, and an account is closed \
            once.",
        examples: Examples::Ledger {
            refused: r#"
2020-01-01 open Assets:Cash
2020-01-01 open Income:Wages
2020-06-30 close Assets:Cash
2020-07-02 * "Wages"
  Assets:Cash 100 USD
  Income:Wages
"#,
            accepted: r#"
2020-01-01 open Assets:Cash
2020-01-01 open Income:Wages
2020-06-30 close Assets:Cash
2020-06-30 * "Wages"
  Assets:Cash 100 USD
  Income:Wages
"#,
        },
        help: "Post to an account that is open; a closed one isn't opened again.",
        page: "docs/RULES.md, Order of refusals",
    },
    Code {
        code: "L6",
        name: "AlreadyDeclared",
        brief: "the commodity was declared before",
        rule: "A commodity is declared once.",
        examples: Examples::Ledger {
            refused: r#"
2020-01-01 commodity HOOL
2020-02-01 commodity HOOL
"#,
            accepted: r#"
2020-01-01 commodity HOOL
2020-02-01 commodity VEA
"#,
        },
        help: "Leave the second line out. No command needs a commodity to be declared.",
        page: "docs/RULES.md, Order of refusals",
    },
    Code {
        code: "L7",
        name: "CurrencyNotAllowed",
        brief: "the account was opened with other currencies",
        rule: "An account that was opened with currencies takes units of these alone.",
        examples: Examples::Ledger {
            refused: r#"
2020-01-01 open Assets:Cash USD
2020-01-01 open Income:Wages
2020-01-02 * "Wages"
  Assets:Cash 100 EUR
  Income:Wages
"#,
            accepted: r#"
2020-01-01 open Assets:Cash USD, EUR
2020-01-01 open Income:Wages
2020-01-02 * "Wages"
  Assets:Cash 100 EUR
  Income:Wages
"#,
        },
        help: "Post to another account; the currencies of an opening can't be changed. A method, \
            as \"FIFO\", stands in quotes: without them it is a currency.",
        page: "docs/RULES.md, Commands",
    },
    Code {
        code: "L8",
        name: "TooManyPostings",
        brief: "there are more than 64 postings",
        rule: "A transaction has at most 64 postings.",
        examples: Examples::Absent,
        help: "Split it into transactions of the same day that balance each.",
        page: "docs/RULES.md, Limits",
    },
];
