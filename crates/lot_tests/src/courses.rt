//! What is done to books whose disks stop: ledgers are sent to them, and they are made, migrated and verified.

use crate::disk::PAGES;

/// Commands that are sent to a book, or one other call of the program, done over again until all is done.
#[derive(Drop)]
pub(crate) struct Course {
    pub name: &'static str,
    /// The calls by which the book is made before, and the text that they are given. Without a call there is no book.
    pub made_by: &'static [&'static str],
    pub before: &'static str,
    pub call: Call,
    /// How many written pages are kept in memory before they go to the log.
    pub pages: usize,
    /// Commands, or the text of one other call, each with what is said where nothing stops.
    pub sent: &'static [(&'static str, &'static str)],
    /// What is posted before the book is asked what it says.
    pub behind: &'static str,
    /// How that begins before, and in the end.
    pub first: &'static str,
    pub last: &'static str,
}

/// What is called.
#[derive(Drop)]
pub(crate) enum Call {
    /// The post of commands, from the first without a reply on. Each line of the answer has the number of its command.
    Post,
    /// A call that keeps commands all or none, by its words, and what it says where all are kept.
    AllOrNone(&'static str, &'static str),
    /// Another call, by its words, and what it says where all is done.
    Other(&'static str, &'static str),
}

/// A new book is made, and commands are posted to it.
const MADE: &[&str] = &[
    "lotbook init --book b",
    "lotbook post --book b --batch before",
];

/// Two purchases, and a sale that takes the first of them whole and a part of the second.
pub(crate) const SALE: Course = Course {
    name: "sale",
    made_by: MADE,
    before: "",
    call: Call::Post,
    pages: PAGES,
    sent: &[
        ("2020-01-01 open Assets:Broker \"FIFO\"\n", "1 accepted\n"),
        ("2020-01-01 open Assets:Cash\n", "2 accepted\n"),
        ("2020-01-01 open Income:Gains\n", "3 accepted\n"),
        ("2020-01-01 open Equity:Start\n", "4 accepted\n"),
        (
            "2020-01-01 *\n  Assets:Broker 10 HOOL {100 USD}\n  Equity:Start\n",
            "5 accepted\n",
        ),
        (
            "2020-02-01 *\n  Assets:Broker 10 HOOL {120 USD}\n  Equity:Start\n",
            "6 accepted\n",
        ),
        (
            "2020-03-15 *\n  Assets:Broker -12 HOOL {} @ 130 USD\n  Assets:Cash 1560 USD\n  Income:Gains\n",
            "7 accepted\n",
        ),
    ],
    behind: "",
    first: "",
    last: "",
};

/// A sale that is refused as its lot isn't there yet, a purchase of that lot, and a sale of another.
pub(crate) const DOUBT: Course = Course {
    name: "doubt",
    made_by: MADE,
    before: "\
2020-01-01 open Assets:Broker \"FIFO\"
2020-01-01 open Assets:Cash
2020-01-01 open Income:Gains
2020-01-01 open Equity:Start
2020-01-01 *
  Assets:Broker 10 HOOL {100 USD}
  Equity:Start
",
    call: Call::Post,
    pages: PAGES,
    sent: &[
        (
            "2020-02-01 *\n  Assets:Broker -5 HOOL {120 USD} @ 130 USD\n  Assets:Cash 650 USD\n  Income:Gains\n",
            "1 refused B1 NoMatch posting 1\n",
        ),
        (
            "2020-02-01 *\n  Assets:Broker 10 HOOL {120 USD}\n  Equity:Start\n",
            "2 accepted\n",
        ),
        (
            "2020-02-01 *\n  Assets:Broker -2 HOOL {100 USD} @ 130 USD\n  Assets:Cash 260 USD\n  Income:Gains\n",
            "3 accepted\n",
        ),
    ],
    behind: "",
    first: "",
    last: "",
};

/// Two purchases.
const TWO_LOTS: &str = "\
2020-01-01 open Assets:Broker \"FIFO\"
2020-01-01 open Assets:Cash
2020-01-01 open Income:Gains
2020-01-01 open Equity:Start
2020-01-01 *
  Assets:Broker 10 HOOL {100 USD}
  Equity:Start
2020-02-01 *
  Assets:Broker 10 HOOL {120 USD}
  Equity:Start
";

/// Prices of a lot's commodity, the second in the place of the first.
pub(crate) const PRICES: Course = Course {
    name: "prices",
    made_by: MADE,
    before: TWO_LOTS,
    call: Call::Post,
    pages: PAGES,
    sent: &[
        ("2020-02-10 price HOOL 125 USD\n", "1 accepted\n"),
        ("2020-02-10 price HOOL 126 USD\n", "2 accepted\n"),
        ("2020-03-01 price HOOL 130 USD\n", "3 accepted\n"),
    ],
    behind: "",
    first: "",
    last: "",
};

/// Every kind of command, and each refusal that a short text meets.
pub(crate) const EVERY_KIND: Course = Course {
    name: "every kind",
    made_by: MADE,
    before: "",
    call: Call::Post,
    pages: PAGES,
    sent: &[
        (
            "2020-01-01 open Assets:Broker USD,HOOL,GOLD \"FIFO\"\n",
            "1 accepted\n",
        ),
        ("2020-01-01 open Assets:Strict\n", "2 accepted\n"),
        ("2020-01-01 open Assets:Cash\n", "3 accepted\n"),
        ("2020-01-01 open Assets:Euro EUR\n", "4 accepted\n"),
        ("2020-02-01 open Assets:Later\n", "5 accepted\n"),
        (
            "2020-01-31 close Assets:Later\n",
            "6 refused L4 NotOpenYet\n",
        ),
        ("2020-02-29 close Assets:Later\n", "7 accepted\n"),
        ("2020-01-01 commodity HOOL\n", "8 accepted\n"),
        ("2020-01-01 price HOOL 101.5 USD\n", "9 accepted\n"),
        (
            "2020-01-02 * \"Broker\" \"two lots\"\n  Assets:Broker 10 HOOL {100 USD, \"a\"}\n  \
            Assets:Broker 5 HOOL {{512.5 USD}}\n  Assets:Cash\n",
            "10 accepted\n",
        ),
        (
            "2020-01-03 ! \"a sale\"\n  Assets:Broker -12 HOOL {} @ 130 USD\n  Assets:Cash\n",
            "11 accepted\n",
        ),
        (
            "2020-01-04 *\n  Assets:Strict 1 GOLD {7 USD}\n  Assets:Strict 1 GOLD {8 USD}\n  \
            Assets:Strict 9999999999 SAND\n  Assets:Cash\n",
            "12 accepted\n",
        ),
        (
            "2020-01-01 open Assets:Cash\n",
            "13 refused L2 AlreadyOpen\n",
        ),
        (
            "2020-01-05 *\n  Assets:None 1 USD\n",
            "14 refused L3 UnknownAccount posting 1\n",
        ),
        (
            "2020-01-05 *\n  Assets:Later 1 USD\n",
            "15 refused L4 NotOpenYet posting 1\n",
        ),
        ("2020-03-01 close Assets:Later\n", "16 refused L5 Closed\n"),
        (
            "2020-01-05 commodity HOOL\n",
            "17 refused L6 AlreadyDeclared\n",
        ),
        (
            "2020-01-05 *\n  Assets:Cash 1 CHF\n  Assets:Euro -1 CHF\n",
            "18 refused L7 CurrencyNotAllowed posting 2\n",
        ),
        (
            "2020-01-05 *\n  Assets:Cash\n  Assets:Cash\n",
            "19 refused L9 TwoElided\n",
        ),
        (
            "2020-01-02 *\n  Assets:Broker -1 HOOL {}\n  Assets:Cash\n",
            "20 refused L10 BackDated posting 1\n",
        ),
        (
            "2020-01-05 *\n  Assets:Strict 9 SAND\n  Assets:Cash\n",
            "21 refused L11 Range posting 1\n",
        ),
        (
            "2020-01-05 *\n  Assets:Cash 0.1 GOLD @ 0.00000001 USD\n  Assets:Cash\n",
            "22 refused L12 InexactFill USD\n",
        ),
        (
            "2020-01-05 *\n  Assets:Cash 1 CHF\n  Assets:Euro\n",
            "23 refused L13 FillNotAllowed CHF\n",
        ),
        (
            "2020-01-05 *\n  Assets:Cash 1 CHF\n",
            "24 refused L14 NotBalanced CHF\n",
        ),
        (
            "2020-01-05 *\n  Assets:Broker -1 HOOL {1 USD}\n  Assets:Cash\n",
            "25 refused B1 NoMatch posting 1\n",
        ),
        (
            "2020-01-05 *\n  Assets:Strict -1 GOLD {}\n  Assets:Cash\n",
            "26 refused B2 Ambiguous posting 1\n",
        ),
        (
            "2020-01-05 *\n  Assets:Broker -9 HOOL {}\n  Assets:Cash\n",
            "27 refused B3 NotEnough posting 1\n",
        ),
        (
            "2020-01-05 *\n  Assets:Broker 1 GOLD {}\n  Assets:Cash\n",
            "28 refused B4 IncompleteCost posting 1\n",
        ),
        (
            "2020-01-05 *\n  Assets:Broker 3 GOLD {{1 USD}}\n  Assets:Cash\n",
            "29 refused B5 InexactCost posting 1\n",
        ),
        (
            "2020-01-05 *\n  Assets:Broker 0 HOOL {}\n  Assets:Cash\n",
            "30 refused B6 ZeroUnits posting 1\n",
        ),
        (
            "2020-01-06 *\n  Assets:Broker -3 HOOL {} @@ 400 USD\n  Assets:Cash\n",
            "31 accepted\n",
        ),
    ],
    behind: "",
    first: "",
    last: "",
};

/// A new book is made of no files.
pub(crate) const MAKING: Course = Course {
    name: "making",
    made_by: &[],
    before: "",
    call: Call::Other("lotbook init --book b", "fault S1 NotABook"),
    pages: PAGES,
    sent: &[("", "book ready\n")],
    behind: "",
    first: "fault S1 NotABook\nfault S1 NotABook\nfault S1 NotABook\nfault S1 NotABook\n",
    last: "no gains\nnothing held\n",
};

/// A book is made of its dump, of no files.
pub(crate) const RESTORING: Course = Course {
    name: "restoring",
    made_by: &[],
    before: "",
    call: Call::Other("lotbook restore --book b", "fault S1 NotABook"),
    pages: PAGES,
    sent: &[(DUMP, "book restored\n")],
    behind: "",
    first: "fault S1 NotABook\nfault S1 NotABook\nfault S1 NotABook\nfault S1 NotABook\n",
    last: "\
2020-03-15 Assets:Broker -12 HOOL proceeds 1560.00 cost 1240.00 gain 320.00 USD
  -10 HOOL {100 USD, 2020-01-01}
  -2 HOOL {120 USD, 2020-02-01}
total gain 320.00 USD
",
};

/// The same where written pages go to the log before the commit.
pub(crate) const RESTORING_SPILLED: Course = Course {
    name: "restoring, spilled",
    pages: 3,
    ..RESTORING
};

/// The dump of a book with two lots, of which one and a part of the other were sold.
const DUMP: &str = "\
; lotbook dump 1 edition 2 migrated 0 entries 6
; entry 1 key post:before 1
2020-01-01 open Assets:Broker \"FIFO\"
; entry 2 key post:before 2
2020-01-01 open Equity:Start
; entry 3 key import:deals D 1
2020-01-01 *
  Assets:Broker 10 HOOL {100 USD}
  Equity:Start
; entry 4 key import:deals D 2
2020-02-01 *
  Assets:Broker 10 HOOL {120 USD}
  Equity:Start
; entry 5 key post:before 3
2020-02-10 price HOOL 125 USD
; entry 6 key post:before 4
2020-03-15 *
  Assets:Broker -12 HOOL {} @ 130 USD
  Equity:Start
; end 6 sha256 6896750daba64fecf8223601c682cd722a18054a2015d7b6fa727413d17e804f
";

/// A book of edition 1 is migrated, in which both editions choose the same lots so far. Of three that are alike the second by its key
/// was bought first, and the last was emptied and opened again. A sale behind it is of the lot that was opened first.
pub(crate) const MIGRATING: Course = Course {
    name: "migrating",
    made_by: &[
        "lotbook init --book b",
        "lotbook post --book b --batch before",
        "sql BEGIN; DROP TABLE opening; DROP TABLE migration; UPDATE book SET edition = 1; COMMIT",
    ],
    before: "\
2020-01-01 open Assets:Broker \"FIFO\"
2020-01-01 open Assets:Cash
2020-01-01 open Equity:Start
2020-01-01 open Income:Gains
2020-01-02 *
  Equity:Start
  Assets:Broker 5 HOOL {100 USD, \"b\"}
2020-01-02 *
  Assets:Broker 5 HOOL {100 USD, \"a\"}
  Assets:Broker 3 HOOL {100 USD, \"c\"}
  Equity:Start
2020-01-03 *
  Assets:Broker -3 HOOL {\"c\"} @ 110 USD
  Assets:Cash 330 USD
  Income:Gains
2020-01-04 *
  Assets:Broker 4 HOOL {100 USD, 2020-01-02, \"c\"}
  Equity:Start
2020-01-05 close Equity:Start
",
    call: Call::Other("lotbook migrate --book b", "book migrated"),
    pages: PAGES,
    sent: &[("", "book migrated\n")],
    behind: "\
2020-01-06 *
  Assets:Broker -1 HOOL {} @ 120 USD
  Assets:Cash 120 USD
  Income:Gains
",
    first: "fault S3 OlderEdition\nfault S3 OlderEdition\nfault S3 OlderEdition\nfault S3 OlderEdition\n",
    last: "\
1 accepted
2020-01-03 Assets:Broker -3 HOOL proceeds 330.00 cost 300.00 gain 30.00 USD
  -3 HOOL {100 USD, 2020-01-02, \"c\"}
2020-01-06 Assets:Broker -1 HOOL proceeds 120.00 cost 100.00 gain 20.00 USD
  -1 HOOL {100 USD, 2020-01-02, \"b\"}
total gain 50.00 USD
Assets:Broker 5 HOOL {100 USD, 2020-01-02, \"a\"} value none
Assets:Broker 4 HOOL {100 USD, 2020-01-02, \"b\"} value none
Assets:Broker 4 HOOL {100 USD, 2020-01-02, \"c\"} value none
Assets:Cash 450.00 USD
Equity:Start -1700.00 USD
Income:Gains -50.00 USD
total cost 1300.00 USD
; entry 1 ",
};

/// A good book is verified.
pub(crate) const VERIFYING: Course = Course {
    name: "verifying",
    made_by: MADE,
    before: TWO_LOTS,
    call: Call::Other("lotbook verify --book b", "book verified"),
    pages: PAGES,
    sent: &[("", "book verified\n")],
    behind: "",
    first: "no gains\n",
    last: "no gains\n",
};

/// A damaged one is verified: its accounts have no lots.
pub(crate) const FINDING_DAMAGE: Course = Course {
    name: "finding damage",
    made_by: &[
        "lotbook init --book b",
        "lotbook post --book b --batch before",
        "sql DELETE FROM lot",
    ],
    before: TWO_LOTS,
    call: Call::Other("lotbook verify --book b", "fault S7 Damaged"),
    pages: PAGES,
    sent: &[("", "fault S7 Damaged\n")],
    behind: "",
    first: "",
    last: "",
};

/// How commands are posted of which all are kept or none.
const POST_ALL: &str = "lotbook post --book b --batch q --all-or-none";

/// A book with two lots, and a price.
const TWO_LOTS_AND_A_PRICE: &str = "\
2020-01-01 open Assets:Broker \"FIFO\"
2020-01-01 open Assets:Cash
2020-01-01 open Income:Gains
2020-01-01 open Equity:Start
2020-01-01 *
  Assets:Broker 10 HOOL {100 USD}
  Equity:Start
2020-02-01 *
  Assets:Broker 10 HOOL {120 USD}
  Equity:Start
2020-02-10 price HOOL 125 USD
";

/// A purchase, a price, and a sale that takes one lot whole, kept all or none.
pub(crate) const BATCH: Course = Course {
    name: "batch",
    made_by: MADE,
    before: TWO_LOTS_AND_A_PRICE,
    call: Call::AllOrNone(POST_ALL, "1 repeat\n2 repeat\n3 repeat"),
    pages: PAGES,
    sent: &[(
        "\
2020-03-01 *
  Assets:Broker 5 HOOL {130 USD}
  Equity:Start
2020-03-02 price HOOL 140 USD
2020-03-15 *
  Assets:Broker -12 HOOL {} @ 140 USD
  Assets:Cash 1680 USD
  Income:Gains
",
        "1 accepted\n2 accepted\n3 accepted\n",
    )],
    behind: "",
    first: "no gains\n",
    last: "2020-03-15 Assets:Broker -12 HOOL proceeds 1680.00 cost 1240.00 gain 440.00 USD\n",
};

/// The same where written pages go to the log before the commit.
pub(crate) const SPILLED: Course = Course {
    name: "spilled",
    pages: 3,
    ..BATCH
};

/// Rows of a broker file, kept all or none, but for one that is left out.
pub(crate) const ROWS: Course = Course {
    name: "rows",
    made_by: MADE,
    before: TWO_LOTS_AND_A_PRICE,
    call: Call::AllOrNone(
        "lotbook import --book b --batch q --invest Assets:Broker --cash Assets:Cash --fees Equity:Start --gains Income:Gains \
        --except x2 --all-or-none",
        "1 repeat\n3 repeat",
    ),
    pages: PAGES,
    sent: &[(
        "\
ref,date,action,symbol,units,price,currency,fee
x1,2020-03-01,BUY,HOOL,5,130,USD,1
x2,2020-03-01,SELL,HOOL,99,130,USD,1
x3,2020-03-15,SELL,HOOL,12,140,USD,1
",
        "1 accepted\n3 accepted\n",
    )],
    behind: "",
    first: "no gains\n",
    last: "2020-03-15 Assets:Broker -12 HOOL proceeds 1680.00 cost 1240.00 gain 440.00 USD\n",
};

/// Commands of which one is refused: none is kept.
pub(crate) const DROPPED: Course = Course {
    name: "dropped",
    made_by: MADE,
    before: TWO_LOTS_AND_A_PRICE,
    call: Call::AllOrNone(
        POST_ALL,
        "1 accepted\n2 refused B3 NotEnough posting 1\n3 accepted",
    ),
    pages: PAGES,
    sent: &[(
        "\
2020-03-01 *
  Assets:Broker 5 HOOL {130 USD}
  Equity:Start
2020-03-02 *
  Assets:Broker -99 HOOL {}
  Equity:Start
2020-03-15 *
  Assets:Broker -12 HOOL {} @ 140 USD
  Assets:Cash 1680 USD
  Income:Gains
",
        "1 accepted\n2 refused B3 NotEnough posting 1\n3 accepted\n",
    )],
    behind: "",
    first: "no gains\n",
    last: "no gains\n",
};
