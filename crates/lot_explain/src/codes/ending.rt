//! Decisions, 9 to 16: the order of days, balance and limits.

use super::{Code, Examples};

pub(super) static CODES: [Code; 8] = [
    Code {
        code: "L9",
        name: "TwoElided",
        brief: "two postings have no amount",
        rule: "At most one posting of a transaction is without an amount: it takes what the others \
            leave.",
        examples: Examples::Ledger {
            refused: r#"
2020-01-01 open Assets:Cash
2020-01-01 open Expenses:Food
2020-01-01 open Expenses:Rent
2020-01-02 * "Shopping"
  Assets:Cash -100 USD
  Expenses:Food
  Expenses:Rent
"#,
            accepted: r#"
2020-01-01 open Assets:Cash
2020-01-01 open Expenses:Food
2020-01-01 open Expenses:Rent
2020-01-02 * "Shopping"
  Assets:Cash -100 USD
  Expenses:Food 60 USD
  Expenses:Rent
"#,
        },
        help: "Give the amounts of all postings but one.",
        page: "docs/RULES.md, Balance and fill",
    },
    Code {
        code: "L10",
        name: "BackDated",
        brief: "a later day of this account and commodity is booked at cost already",
        rule: "Lots are booked in the order of the days: a posting with braces isn't before the \
            latest accepted one of the same account and commodity. What that one took can't change \
            any more.",
        examples: Examples::Ledger {
            refused: r#"
2020-01-01 open Assets:Broker
2020-01-01 open Assets:Cash
2020-03-01 * "Buy"
  Assets:Broker 10 HOOL {480 USD}
  Assets:Cash
2020-02-01 * "Buy, found later"
  Assets:Broker 5 HOOL {502.12 USD}
  Assets:Cash
"#,
            accepted: r#"
2020-01-01 open Assets:Broker
2020-01-01 open Assets:Cash
2020-03-01 * "Buy"
  Assets:Broker 10 HOOL {480 USD}
  Assets:Cash
2020-03-01 * "Buy, found later"
  Assets:Broker 5 HOOL {502.12 USD, 2020-02-01}
  Assets:Cash
"#,
        },
        help: "Post in the order of the days, of a broker's file the oldest row first. What was \
            found later gets the latest day or one behind it, and its own day in the braces.",
        page: "docs/RULES.md, Order of refusals",
    },
    Code {
        code: "L11",
        name: "Range",
        brief: "an account would hold too many units",
        rule: "What an account holds of a commodity at one position stays below 10,000,000,000 \
            units, and above as many below zero.",
        examples: Examples::Ledger {
            refused: r#"
2020-01-01 open Assets:Cash
2020-01-01 open Income:Wages
2020-01-02 * "Wages"
  Assets:Cash 9000000000 USD
  Assets:Cash 1000000000 USD
  Income:Wages -5000000000 USD
  Income:Wages -5000000000 USD
"#,
            accepted: r#"
2020-01-01 open Assets:Cash
2020-01-01 open Income:Wages
2020-01-02 * "Wages"
  Assets:Cash 9000000000 USD
  Income:Wages -9000000000 USD
"#,
        },
        help: "Count such a commodity in larger units, as in thousands.",
        page: "docs/RULES.md, Limits",
    },
    Code {
        code: "L12",
        name: "InexactFill",
        brief: "what the others leave has more than eight decimals, or is too large",
        rule: "A posting without an amount takes exactly what the others leave, in each currency. \
            That has to have at most eight decimals and to be below 10,000,000,000: without \
            --rounding nothing is rounded.",
        examples: Examples::Ledger {
            refused: r#"
2020-01-01 open Assets:Broker
2020-01-01 open Assets:Cash
2020-01-02 * "Buy"
  Assets:Broker 0.3170215 HOOL {78.8594 USD}
  Assets:Cash
"#,
            accepted: r#"
2020-01-01 open Assets:Broker
2020-01-01 open Assets:Cash
2020-01-01 open Equity:Rounding
2020-01-02 * "Buy"
  Assets:Broker 0.3170215 HOOL {78.9 USD}
  Assets:Cash -25 USD
  Equity:Rounding
"#,
        },
        help: "Name an account that takes crumbs, as by --rounding Equity:Rounding. Or shorten the \
            cost, so that its decimals and those of the units are at most eight together, and \
            post what is left over to an account of its own.",
        page: "docs/RULES.md, Balance and fill",
    },
    Code {
        code: "L13",
        name: "FillNotAllowed",
        brief: "the account of the posting without an amount was opened with other currencies",
        rule: "A posting without an amount takes what the others leave, in each currency. Its \
            account was opened with other currencies than one of these.",
        examples: Examples::Ledger {
            refused: r#"
2020-01-01 open Assets:Cash USD
2020-01-01 open Income:Wages
2020-01-02 * "Wages"
  Income:Wages -100 EUR
  Assets:Cash
"#,
            accepted: r#"
2020-01-01 open Assets:Cash USD, EUR
2020-01-01 open Income:Wages
2020-01-02 * "Wages"
  Income:Wages -100 EUR
  Assets:Cash
"#,
        },
        help: "Give the amounts, or use an account that takes the currency.",
        page: "docs/RULES.md, Balance and fill",
    },
    Code {
        code: "L14",
        name: "NotBalanced",
        brief: "the postings don't balance",
        rule: "The weights of a transaction's postings add up to exactly zero in each currency, \
            unless one posting is without an amount. Units with braces weigh what their lots cost, \
            others what their price says, or themselves.",
        examples: Examples::Ledger {
            refused: r#"
2020-01-01 open Assets:Broker
2020-01-01 open Assets:Cash
2020-01-02 * "Buy"
  Assets:Broker 10 HOOL {502.12 USD}
  Assets:Cash -5021 USD
"#,
            accepted: r#"
2020-01-01 open Assets:Broker
2020-01-01 open Assets:Cash
2020-01-02 * "Buy"
  Assets:Broker 10 HOOL {502.12 USD}
  Assets:Cash -5021.20 USD
"#,
        },
        help: "Correct the amount, or add a posting without one, as for the gain of a sale: a sale \
            with braces weighs what its lots cost, and not its price. Where a product has more \
            decimals than the cash, an account takes the crumb, as by --rounding Equity:Rounding.",
        page: "docs/RULES.md, Weight",
    },
    Code {
        code: "L15",
        name: "TooManyLots",
        brief: "the account would hold more than 10,000 lots of the commodity",
        rule: "An account holds at most 10,000 lots of one commodity.",
        examples: Examples::Absent,
        help: "Sell or move lots, or open a further account.",
        page: "docs/RULES.md, Limits",
    },
    Code {
        code: "L16",
        name: "BookFull",
        brief: "the book has as many entries as it may have",
        rule: "A book has at most 2,000,000,000 entries.",
        examples: Examples::Absent,
        help: "Begin a new book with what is held.",
        page: "docs/RULES.md, Limits",
    },
];
