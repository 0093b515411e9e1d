ghost use Rattle.std.specs.Prelude.{◌≡◌, None};
ghost use Rattle.std.specs.List.{list_any};
ghost use Rattle.lot_syntax.specs.Form.{has_number, is_day, is_label, is_money};
ghost use Rattle.lot_syntax.specs.Shape.{are_distinct, clash_listed, listed, part_seen, parts_seen};

use arrayvec::ArrayVec;
use lot_command::Flag;

/// A posting: its account, and perhaps an amount.
#[derive(Drop)]
pub struct PostingForm<'w, 'a> {
    pub account: &'a str,
    pub amount: Option<AmountForm<'w, 'a>>,
}

/// Units and a commodity, and perhaps a cost and a price.
#[derive(Drop)]
pub struct AmountForm<'w, 'a> {
    pub units: &'a str,
    pub commodity: &'a str,
    pub cost: Option<CostForm<'w, 'a>>,
    pub price: Option<PriceForm<'a>>,
}

/// What stands in the braces of a posting.
#[derive(Drop)]
pub enum CostForm<'w, 'a> {
    /// In single braces.
    Each(&'w Parts<'a>),
    /// In double braces.
    Whole(&'w Parts<'a>),
}

/// A number and a currency.
#[derive(Drop)]
pub enum PriceForm<'a> {
    /// Behind `@`.
    Each(&'a str, &'a str),
    /// Behind `@@`.
    Whole(&'a str, &'a str),
}

/// A part of a cost.
#[derive(Clone, Copy)]
pub enum Part<'a> {
    /// A number and a currency.
    Money(&'a str, &'a str),
    Number(&'a str),
    Currency(&'a str),
    Day(&'a str),
    Label(&'a str),
}

/// The parts of a cost, in the order in which they are written. There are no more than three.
#[derive(Clone, Copy)]
pub struct Parts<'a> {
    pub first: Option<Part<'a>>,
    pub second: Option<Part<'a>>,
    pub third: Option<Part<'a>>,
}

impl<'a> Parts<'a> {
    /// Returns no parts.
    pub fn none() -> Parts<'a>
        ensures { result ≡ record { first = None; second = None; third = None } }
    {
        Parts {
            first: None,
            second: None,
            third: None,
        }
    }

    /// Returns whether the parts can stand in one cost. At most one part may give a number or a currency, one a day, and one a
    /// label.
    pub(crate) fn are_distinct(&self) -> bool
        ensures { result ≡ are_distinct (parts_seen self.now) }
    {
        !clash(&self.first, &self.second)
            && !clash(&self.first, &self.third)
            && !clash(&self.second, &self.third)
    }

    /// Returns whether one of the parts gives a number.
    pub(crate) fn have_number(&self) -> bool
        ensures { result ≡ list_any has_number (parts_seen self.now) }
    {
        has_number(&self.first) || has_number(&self.second) || has_number(&self.third)
    }
}

/// Returns whether there are two parts that can't stand in one cost.
fn clash(first: &Option<Part<'_>>, second: &Option<Part<'_>>) -> bool
    ensures { result ≡ clash_listed (listed first.now) (listed second.now) }
{
    match (first, second) {
        (Some(first), Some(second)) => {
            first.is_money() && second.is_money()
                || first.is_day() && second.is_day()
                || first.is_label() && second.is_label()
        }
        _ => false,
    }
}

fn has_number(part: &Option<Part<'_>>) -> bool
    ensures { result ≡ list_any has_number (listed part.now) }
{
    matches!(part, Some(Part::Money(_, _) | Part::Number(_)))
}

impl<'a> Part<'a> {
    fn is_money(&self) -> bool
        ensures { result ≡ is_money (part_seen self.now) }
    {
        matches!(
            self,
            Part::Money(_, _) | Part::Number(_) | Part::Currency(_)
        )
    }

    fn is_day(&self) -> bool
        ensures { result ≡ is_day (part_seen self.now) }
    {
        matches!(self, Part::Day(_))
    }

    fn is_label(&self) -> bool
        ensures { result ≡ is_label (part_seen self.now) }
    {
        matches!(self, Part::Label(_))
    }
}

/// A line that isn't indented: a day, and what is done on it.
#[derive(Drop)]
pub struct HeaderForm<'w, 'a> {
    pub day: &'a str,
    pub directive: DirectiveForm<'w, 'a>,
}

/// The most currencies that an opening may have (`most_currencies` of the definitions).
const MOST_CURRENCIES: usize = 64;

/// The currencies of an opening, as they are written.
pub type CurrencyWords<'a> = ArrayVec<&'a str, MOST_CURRENCIES>;

/// What is done on a day.
#[derive(Drop)]
pub enum DirectiveForm<'w, 'a> {
    /// An account, its currencies, and perhaps a method.
    Opening(&'a str, &'w CurrencyWords<'a>, Option<&'a str>),
    /// An account.
    Closing(&'a str),
    /// A commodity.
    Declaring(&'a str),
    /// A base, a rate and a quote.
    Quoting(&'a str, &'a str, &'a str),
    /// A flag, and perhaps notes.
    Transaction(Flag, Option<NotesForm<'a>>),
}

/// A narration, and perhaps a payee before it.
#[derive(Drop)]
pub struct NotesForm<'a> {
    pub payee: Option<&'a str>,
    pub narration: &'a str,
}
