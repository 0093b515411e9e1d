//! Postings with braces: which lot they open, and which they take.

use super::{Code, Examples};

pub(super) static CODES: [Code; 6] = [
    Code {
        code: "B1",
        name: "NoMatch",
        brief: "no lot that is held fits the braces",
        rule: "A sale with braces takes lots that fit every part that the braces give: day, cost, \
            currency and label. None of the lots that the account holds of the commodity fits.",
        examples: Examples::Ledger {
            refused: r#"
2020-01-01 open Assets:Broker
2020-01-01 open Assets:Cash
2020-01-02 * "Buy"
  Assets:Broker 10 HOOL {480 USD}
  Assets:Cash
2020-03-01 * "Sell"
  Assets:Broker -4 HOOL {490 USD}
  Assets:Cash
"#,
            accepted: r#"
2020-01-01 open Assets:Broker
2020-01-01 open Assets:Cash
2020-01-02 * "Buy"
  Assets:Broker 10 HOOL {480 USD}
  Assets:Cash
2020-03-01 * "Sell"
  Assets:Broker -4 HOOL {480 USD}
  Assets:Cash
"#,
        },
        help: "See the lots with lotbook holdings, and name one as it stands there: by its cost, \
            its day or its label.",
        page: "docs/RULES.md, Cost specification",
    },
    Code {
        code: "B2",
        name: "Ambiguous",
        brief: "several lots fit the braces, and STRICT doesn't choose among them",
        rule: "The account was opened without a method, or with STRICT, under which nothing is \
            chosen: a sale with braces takes the one lot that fits, or all that fit where it sells \
            exactly their sum. Here several lots fit, and the units aren't their sum.",
        examples: Examples::Ledger {
            refused: r#"
2020-01-01 open Assets:Broker
2020-01-01 open Assets:Cash
2020-01-02 * "Buy"
  Assets:Broker 10 HOOL {480 USD}
  Assets:Cash
2020-02-01 * "Buy"
  Assets:Broker 5 HOOL {502.12 USD}
  Assets:Cash
2020-03-01 * "Sell"
  Assets:Broker -4 HOOL {}
  Assets:Cash
"#,
            accepted: r#"
2020-01-01 open Assets:Broker
2020-01-01 open Assets:Cash
2020-01-02 * "Buy"
  Assets:Broker 10 HOOL {480 USD}
  Assets:Cash
2020-02-01 * "Buy"
  Assets:Broker 5 HOOL {502.12 USD}
  Assets:Cash
2020-03-01 * "Sell"
  Assets:Broker -4 HOOL {2020-01-02}
  Assets:Cash
"#,
        },
        help: "Name the lot in the braces by its cost, its day or its label; in a broker file by \
            the column lot. A new account may be opened with a method that chooses: \"FIFO\", \
            \"LIFO\" or \"HIFO\", in quotes.",
        page: "docs/RULES.md, Methods",
    },
    Code {
        code: "B3",
        name: "NotEnough",
        brief: "the lots that fit hold less than the units",
        rule: "A sale with braces takes no more than the fitting lots hold: it never crosses zero.",
        examples: Examples::Ledger {
            refused: r#"
2020-01-01 open Assets:Broker
2020-01-01 open Assets:Cash
2020-01-02 * "Buy"
  Assets:Broker 10 HOOL {480 USD}
  Assets:Cash
2020-03-01 * "Sell"
  Assets:Broker -12 HOOL {}
  Assets:Cash
"#,
            accepted: r#"
2020-01-01 open Assets:Broker
2020-01-01 open Assets:Cash
2020-01-02 * "Buy"
  Assets:Broker 10 HOOL {480 USD}
  Assets:Cash
2020-03-01 * "Sell"
  Assets:Broker -10 HOOL {}
  Assets:Cash
"#,
        },
        help: "Post the purchase that is missing first. To go short, sell what is held with one \
            posting, and open the short lot with a second one that gives its cost.",
        page: "docs/RULES.md, Methods",
    },
    Code {
        code: "B4",
        name: "IncompleteCost",
        brief: "the braces open a lot, and don't give its cost and currency",
        rule: "A posting with braces opens a lot where no lot of the other sign is held. Then the \
            braces have to give the cost of one unit and its currency.",
        examples: Examples::Ledger {
            refused: r#"
2020-01-01 open Assets:Broker
2020-01-01 open Assets:Cash
2020-01-02 * "Buy"
  Assets:Broker 10 HOOL {}
  Assets:Cash
"#,
            accepted: r#"
2020-01-01 open Assets:Broker
2020-01-01 open Assets:Cash
2020-01-02 * "Buy"
  Assets:Broker 10 HOOL {480 USD}
  Assets:Cash
"#,
        },
        help: "Give number and currency in the braces. Of a sale it says that no lot is held: post \
            the purchase first, with braces. Or the account is of NONE, whose lots no sale takes: \
            such a posting gives its cost, and no SELL row of a broker file can be booked there.",
        page: "docs/RULES.md, Reduce or augment",
    },
    Code {
        code: "B5",
        name: "InexactCost",
        brief: "the whole cost can't be divided by the units",
        rule: "A whole cost {{T CUR}} is divided by the units. The cost of one unit has to come to \
            at most eight decimals and to be below 100,000,000: without --rounding nothing is \
            rounded.",
        examples: Examples::Ledger {
            refused: r#"
2020-01-01 open Assets:Broker
2020-01-01 open Assets:Cash
2020-01-02 * "Buy"
  Assets:Broker 3 HOOL {{1000 USD}}
  Assets:Cash
"#,
            accepted: r#"
2020-01-01 open Assets:Broker
2020-01-01 open Assets:Cash
2020-01-02 * "Buy"
  Assets:Broker 2 HOOL {333.33 USD}
  Assets:Broker 1 HOOL {333.34 USD}
  Assets:Cash
"#,
        },
        help: "Name an account that takes crumbs, as by --rounding Equity:Rounding: the cost of one \
            unit is rounded then. Or split the purchase into lots that can be divided.",
        page: "docs/RULES.md, Cost specification",
    },
    Code {
        code: "B6",
        name: "ZeroUnits",
        brief: "the units are zero",
        rule: "A posting with braces opens a lot or takes from one, so its units aren't zero.",
        examples: Examples::Ledger {
            refused: r#"
2020-01-01 open Assets:Broker
2020-01-01 open Assets:Cash
2020-01-02 * "Buy"
  Assets:Broker 0 HOOL {480 USD}
  Assets:Cash
"#,
            accepted: r#"
2020-01-01 open Assets:Broker
2020-01-01 open Assets:Cash
2020-01-02 * "Buy"
  Assets:Broker 1 HOOL {480 USD}
  Assets:Cash
"#,
        },
        help: "Give the units, or leave the posting out.",
        page: "docs/RULES.md, Refusals of a posting with braces",
    },
];
