ghost use Rattle.std.specs.Prelude.{◌≡◌, ◌∷◌, ◌++◌, [], decimal, IfOk, IsErrOf, OnOk, ◌-ℤ◌, zip};
ghost use Rattle.std.specs.String.{string_bytes};
ghost use Rattle.lot_csv.specs.Gains.{gain_fields, gains_header, lot_record, money_field, sale_records, taken_fields, term_fields};
ghost use Rattle.lot_csv.specs.Record.{field_text, others_text};
ghost use Rattle.lot_io.specs.Writes.{HasFailed, NoneFailed};
ghost use Rattle.lot_report.specs.Written.{WritesEach, WritesLine};

use crate::lots::lot_gains;
use crate::record::{push_cost, push_field, push_others};
use crate::shares::lot_cost;
use itoa::Buffer;
use lot_base::Day;
use lot_book::{Gain, LotKey, Sale};
use lot_io::CountedWrite;
use lot_num::{Units, Wide};
use lot_period::term_of;
use lot_report::{PrintFault, print_texts};
use std::alloc::{AllocError, Global};

/// Identifies the posting of a book that sells.
#[derive(Clone, Copy, Debug, PartialEq, Eq)]
pub struct Seller {
    /// The number of its entry, from 1.
    pub entry: u32,
    /// Its place among the postings of the entry, from 1.
    pub posting: u32,
}

/// Returns the line with the names of the columns.
pub fn gains_header() -> &'static str
    ensures { result.now ≡ gains_header }
{
    "entry,posting,account,commodity,units,acquired,sold,days_held,label,unit_cost,currency,proceeds,cost,gain,term\n"
}

/// Writes the records of a sale: one for each lot, in the order in which the lots were taken.
///
/// Where memory ends, whole records are written, but not all. Where the writer fails, a prefix of
/// the records is written, but not all of it.
pub fn write_sale<W: CountedWrite>(
    alloc: Global,
    writer: &mut W,
    seller: Seller,
    sale: &Sale,
) -> Result<(), PrintFault>
    ensures records { WritesEach (λ text. text) (sale_records seller.entry seller.posting sale.now)
        (W.contents writer.old) (W.contents writer.new) result }
    ensures cause { IsErrOf result PrintFault.Write → HasFailed (W.calls writer.new) }
    ensures none_failed { OnOk result (NoneFailed (W.calls writer.old) (W.calls writer.new)) }
{
    let legs = sale.legs();
    let gains = lot_gains(alloc, sale)?;
    write_lots(alloc, writer, seller, sale, legs, &gains)
}

/// Writes the records of legs of a sale, each with what its lot gains.
fn write_lots<W: CountedWrite>(
    alloc: Global,
    writer: &mut W,
    seller: Seller,
    sale: &Sale,
    legs: &[(LotKey, Units)],
    gains: &[Option<Gain>],
) -> Result<(), PrintFault>
    ensures records { WritesEach (lot_record seller.entry seller.posting sale.now)
        (zip legs.now gains.now) (W.contents writer.old) (W.contents writer.new) result }
    ensures cause { IsErrOf result PrintFault.Write → HasFailed (W.calls writer.new) }
    ensures none_failed { OnOk result (NoneFailed (W.calls writer.old) (W.calls writer.new)) }
{
    for (leg, gain) in legs.iter().zip(gains) {
        write_lot(alloc, writer, seller, sale, leg, gain)?;
    }
    Ok(())
}

/// Writes the record of a lot. Out of memory nothing is written.
fn write_lot<W: CountedWrite>(
    alloc: Global,
    writer: &mut W,
    seller: Seller,
    sale: &Sale,
    leg: &(LotKey, Units),
    gain: &Option<Gain>,
) -> Result<(), PrintFault>
    ensures line { WritesLine (W.contents writer.old) (W.contents writer.new) result
        (lot_record seller.entry seller.posting sale.now (leg.now, gain.now)) }
    ensures cause { IsErrOf result PrintFault.Write → HasFailed (W.calls writer.new) }
    ensures none_failed { OnOk result (NoneFailed (W.calls writer.old) (W.calls writer.new)) }
{
    let record = lot_record(alloc, seller, sale, leg, gain)?;
    print_texts(writer, &[record.as_str()])
}

/// Returns the record of a lot of a sale. The only error is out of memory.
fn lot_record(
    alloc: Global,
    seller: Seller,
    sale: &Sale,
    leg: &(LotKey, Units),
    gain: &Option<Gain>,
) -> Result<String, AllocError>
    ensures { IfOk result (λ text. string_bytes text
        ≡ lot_record seller.entry seller.posting sale.now (leg.now, gain.now)) }
{
    let day = sale.day();
    let mut text = String::new(alloc);
    push_seller(&mut text, seller)?;
    push_others(
        &mut text,
        &[sale.account().as_str(), sale.commodity().as_str()],
    )?;
    push_taken(alloc, &mut text, day, leg)?;
    push_cost(alloc, &mut text, &leg.0)?;
    push_gain(alloc, &mut text, leg, gain)?;
    push_term(&mut text, day, leg)?;
    text.push_str("\n")?;
    Ok(text)
}

/// Appends the numbers of an entry and of its posting. The only error is out of memory.
fn push_seller(text: &mut String, seller: Seller) -> Result<(), AllocError>
    ensures { OnOk result (string_bytes text.new
        ≡ string_bytes text.old ++ (field_text (decimal seller.entry)
        ++ others_text (decimal seller.posting ∷ []))) }
{
    let mut digits = Buffer::new();
    push_field(text, digits.format(seller.entry))?;
    push_others(text, &[digits.format(seller.posting)])
}

/// Appends the units that were taken of a lot on a day, the days on which they were acquired and
/// sold, and how many days lie between. The only error is out of memory.
fn push_taken(
    alloc: Global,
    text: &mut String,
    sold: Day,
    leg: &(LotKey, Units),
) -> Result<(), AllocError>
    ensures { OnOk result (string_bytes text.new
        ≡ string_bytes text.old ++ others_text (taken_fields sold leg.now)) }
{
    let acquired = leg.0.day;
    let mut digits = Buffer::new();
    let days_held = digits.format(days_between(acquired, sold));
    let units = leg.1.text(alloc)?;
    let first = acquired.text(alloc)?;
    let last = sold.text(alloc)?;
    push_others(
        text,
        &[units.as_str(), first.as_str(), last.as_str(), days_held],
    )
}

/// Returns the days from one day to another.
fn days_between(first: Day, last: Day) -> i32
    ensures { result ≡ last -ℤ first }
{
    last.number() - first.number()
}

/// Appends the proceeds, the cost and the gain of a lot. Of a lot without a gain only the cost is
/// known. The only error is out of memory.
fn push_gain(
    alloc: Global,
    text: &mut String,
    leg: &(LotKey, Units),
    gain: &Option<Gain>,
) -> Result<(), AllocError>
    ensures { OnOk result (string_bytes text.new
        ≡ string_bytes text.old ++ others_text (gain_fields leg.now gain.now)) }
{
    let Some(gain) = gain else {
        push_money(alloc, text, None)?;
        push_money(alloc, text, Some(lot_cost(leg)))?;
        return push_money(alloc, text, None);
    };
    push_money(alloc, text, Some(gain.proceeds))?;
    push_money(alloc, text, Some(lot_cost(leg)))?;
    push_money(alloc, text, Some(gain.gain))
}

/// Appends how long a lot was held that was sold on a day. The only error is out of memory.
fn push_term(text: &mut String, sold: Day, leg: &(LotKey, Units)) -> Result<(), AllocError>
    ensures { OnOk result (string_bytes text.new
        ≡ string_bytes text.old ++ others_text (term_fields sold leg.now)) }
{
    push_others(text, &[term_of(leg.0.day, sold).as_str()])
}

/// Appends an amount of money, or an empty field where there is none. The only error is out of
/// memory.
fn push_money(alloc: Global, text: &mut String, amount: Option<Wide>) -> Result<(), AllocError>
    ensures { OnOk result (string_bytes text.new
        ≡ string_bytes text.old ++ others_text (money_field amount ∷ [])) }
{
    let Some(amount) = amount else {
        return push_others(text, &[""]);
    };
    let money = amount.text_money(alloc)?;
    push_others(text, &[money.as_str()])
}
