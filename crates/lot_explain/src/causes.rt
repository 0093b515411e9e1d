//! The causes for which a row is faulty, as data: of a broker file, of an export that is imported by a profile, and of a statement
//! (docs/FORMATS.md, Faults).

use std::fmt;

/// A cause for which a row is faulty.
pub struct Cause {
    /// The name, such as `NoKind`, as it stands behind `C2 BadRow`.
    pub name: &'static str,
    /// What is wrong, in a few words.
    pub brief: &'static str,
    /// What helps.
    pub help: &'static str,
}

/// The start of a line on a cause: the code and the name.
impl fmt::Display for Cause {
    ghost use Rattle.std.specs.Prelude.{Some};
    ghost use Rattle.lot_explain.specs.Explained.{cause_start};

    ghost output = { λ cause. Some (cause_start cause) };

    fn fmt<W: fmt::Write>(&self, f: &mut fmt::Formatter<W>) -> fmt::Result {
        let name = self.name;
        write!(f, "C2 BadRow {name}")
    }
}

/// Returns all causes.
pub(crate) fn causes() -> &'static [Cause] {
    &CAUSES
}

/// Those of an export, then those of a broker file alone, then one of a statement alone.
pub(crate) static CAUSES: [Cause; 39] = [
    Cause {
        name: "NoTable",
        brief: "it is a row of no table of the profile",
        help: "let `rows` of a [[table]] say what such a row has",
    },
    Cause {
        name: "TwoTables",
        brief: "it is a row of two tables of the profile",
        help: "let `rows` of one of them say more",
    },
    Cause {
        name: "Length",
        brief: "it has more fields than its header, in a broker file also fewer",
        help: "a field with a comma, or with the delimiter of the profile, stands in quotes",
    },
    Cause {
        name: "NoKind",
        brief: "it is of no kind",
        help: "the profile wants a [[kind]] that says what such a row is, or skips it",
    },
    Cause {
        name: "TwoKinds",
        brief: "it is of two kinds of the profile",
        help: "let `when` of one of them ask for more",
    },
    Cause {
        name: "Missing",
        brief: "a role that its kind needs has no value",
        help: "name another column for the role, or a constant",
    },
    Cause {
        name: "Number",
        brief: "the value is no number, or too large",
        help: "[file] says how numbers are written: decimal, grouping and currency-signs",
    },
    Cause {
        name: "Decimals",
        brief: "units have more than eight decimals",
        help: "make its kind by-hand",
    },
    Cause {
        name: "Range",
        brief: "what a number comes to is out of range",
        help: "[file] says how numbers are written: a point may be read as a group",
    },
    Cause {
        name: "BelowZero",
        brief: "a price or a rate is below zero",
        help: "`turn` names the roles that are printed the other way",
    },
    Cause {
        name: "Commodity",
        brief: "the value is no commodity",
        help: "[symbols] names one for a symbol; a currency stands as it is",
    },
    Cause {
        name: "Day",
        brief: "the value is no day in the form of the profile",
        help: "`day` in [file] says in which form days stand",
    },
    Cause {
        name: "Time",
        brief: "the value is no time",
        help: "a time is H:MM or HH:MM, perhaps with seconds",
    },
    Cause {
        name: "NoAccount",
        brief: "no account is named, or a part of its name has no value",
        help: "[accounts] names it; {currency}, {symbol} and {account} want the columns of these roles",
    },
    Cause {
        name: "Account",
        brief: "the name comes to no account",
        help: "what {currency}, {symbol} or {account} says in this row is no part of a name",
    },
    Cause {
        name: "Signs",
        brief: "its numbers don't have the signs of its kind",
        help: "`turn` names the roles that are printed the other way",
    },
    Cause {
        name: "TaxSign",
        brief: "the tax has another sign than the amount",
        help: "`turn` names the roles that are printed the other way",
    },
    Cause {
        name: "BookedSign",
        brief: "what was booked has another sign than the amount",
        help: "`turn` names the roles that are printed the other way",
    },
    Cause {
        name: "PriceSign",
        brief: "what the price comes to has another sign than the amount",
        help: "a fee may have another sign: `turn` names the roles that are printed the other way",
    },
    Cause {
        name: "Booked",
        brief: "what was booked isn't the amount, and is in its currency",
        help: "`booked` is for what was booked in another currency",
    },
    Cause {
        name: "Disagree",
        brief: "units, price, fee, rate and amount disagree",
        help: "a column may be another, a fee have another sign, or a number be rounded, which `rounded` says",
    },
    Cause {
        name: "Rate",
        brief: "the rate of exchange isn't above zero",
        help: "name another column for `rate`",
    },
    Cause {
        name: "PriceApart",
        brief: "there is no amount, and the price is in another currency",
        help: "name the column of the amount",
    },
    Cause {
        name: "SameCurrency",
        brief: "a currency is exchanged for itself",
        help: "name the columns of both currencies",
    },
    Cause {
        name: "CostDay",
        brief: "cost-day is behind the day of the row",
        help: "name another column for `cost-day`",
    },
    Cause {
        name: "CancelledSale",
        brief: "it cancels a sale",
        help: "make its kind by-hand, and leave the sale out by --except",
    },
    Cause {
        name: "Ratio",
        brief: "its ratio isn't two whole numbers with a colon between",
        help: "a ratio is new units before old ones, as 4:1",
    },
    Cause {
        name: "RatioTooLarge",
        brief: "its ratio has a number above 100",
        help: "units before or behind it may be missing",
    },
    Cause {
        name: "NothingAdded",
        brief: "a split adds no units",
        help: "name the column of the units that it adds",
    },
    Cause {
        name: "Ref",
        brief: "ref isn't a label",
        help: "a ref is 1 to 64 bytes without quotes, backslashes and control bytes",
    },
    Cause {
        name: "Date",
        brief: "date isn't a day",
        help: "the year stands first, as in 2024-01-15",
    },
    Cause {
        name: "Action",
        brief: "action is neither BUY nor SELL",
        help: "take rows of other kinds out, or import by a profile",
    },
    Cause {
        name: "Symbol",
        brief: "symbol isn't a commodity",
        help: "a commodity has capital letters, digits and ' . _ -, a letter first",
    },
    Cause {
        name: "Units",
        brief: "units isn't a number of units, or is below zero",
        help: "decimals stand behind a point; in a broker file SELL says that they go out",
    },
    Cause {
        name: "Price",
        brief: "price isn't a rate",
        help: "decimals stand behind a point",
    },
    Cause {
        name: "Currency",
        brief: "currency isn't a commodity",
        help: "a currency is as USD",
    },
    Cause {
        name: "Fee",
        brief: "fee is neither empty nor a rate",
        help: "decimals stand behind a point",
    },
    Cause {
        name: "Lot",
        brief: "lot isn't the label of a lot",
        help: "of a purchase lot is empty or its ref",
    },
    Cause {
        name: "Repeated",
        brief: "the commodity stands in a row above, in a statement",
        help: "give each commodity once, with the sum of its units",
    },
];
