//! Lots of a report of holdings that have no price, and the total value of the others.

ghost use Rattle.std.specs.Prelude.{◌≡◌, IfOk, OnErr, OnOk, false, take};
ghost use Rattle.std.specs.Io.{WritesAtMost};
ghost use Rattle.std.specs.Io.KnownBytes.{Keeps, WriteAppends};
ghost use Rattle.lot_output.specs.Heard.{ends_line};

use crate::call::Call;
use crate::sums::{SumFault, Sums};
use lot_args::{Action, Format, Report};
use lot_base::{Commodity, Day};
use lot_num::{Rate, Units, weight};
use lot_output::{Heard, WriteOut};
use std::alloc::{AllocError, Global};
use std::io::{self, Write};
use std::str;

/// A writer that hears which lots of a report of holdings have no price.
#[derive(Drop)]
pub struct Appraiser<W> {
    pub writer: W,
    /// What was heard of a report with prices. `None` of any other call, and where a sum was out of range or memory ended.
    appraisal: Option<Appraisal>,
    /// Whether the next byte is the first of a line.
    begins: bool,
}

impl<W> Appraiser<W> {
    /// Returns a writer for what a call writes.
    pub fn new(call: &Call<'_>, writer: W) -> Appraiser<W>
        ensures { result.writer ≡ writer }
    {
        Appraiser {
            writer,
            appraisal: Appraisal::of(call),
            begins: true,
        }
    }

    /// Says on standard error how many lots of a report that was written whole have no price and what they cost, beside the total
    /// value of the others. Returns the writer.
    pub fn say_unpriced(self, call: &Call<'_>, heard: &Heard) -> W
        ensures { result ≡ self.writer }
    {
        let Appraiser {
            writer,
            appraisal,
            ..
        } = self;
        if let Some(appraisal) = &appraisal
            && heard.course.faults == 0
            && heard.failure.is_none()
        {
            let _ = appraisal.say(call);
        }
        writer
    }
}

/// Each row of a report is handed to the writer whole. It is heard once, also where it is written in pieces, or tried again. What the
/// writer took of it is told, and nothing else is written.
impl<W: WriteOut> Write for Appraiser<W> {
    ghost contents = { λ appraiser. W.contents appraiser.writer };

    fn write(&mut self, buf: &[u8]) -> io::Result<usize>
        ensures bound { WritesAtMost result buf.now }
        ensures bytes { WriteAppends (W.contents self.old.writer) (W.contents self.new.writer)
            result buf.now }
        ensures once { self.old.begins ≡ false → self.new.appraisal ≡ self.old.appraisal }
        ensures begins { IfOk result (λ count. self.new.begins ≡ ends_line (take count buf.now)) }
        ensures failed { OnErr result (self.new.begins ≡ false) }
    {
        if self.begins {
            hear(&mut self.appraisal, buf);
        }
        let outcome = self.writer.write(buf);
        self.begins = match outcome {
            Ok(count) => buf[..count].last() == Some(&b'\n'),
            Err(_) => false,
        };
        outcome
    }

    fn flush(&mut self) -> io::Result<()>
        ensures bytes { Keeps (W.contents self.old.writer) (W.contents self.new.writer) }
        ensures written_out { OnOk result (W.is_written_out self.new.writer) }
    {
        self.writer.write_out()
    }
}

impl<W: WriteOut> WriteOut for Appraiser<W> {
    ghost is_written_out = { λ appraiser. W.is_written_out appraiser.writer };

    fn write_out(&mut self) -> io::Result<()> {
        self.flush()
    }
}

/// Hears a line of a report, where one is heard. Once a sum is out of range or memory ends, nothing is known.
fn hear(known: &mut Option<Appraisal>, line: &[u8]) {
    let Some(appraisal) = known else {
        return;
    };
    if appraisal.hear(line).is_err() {
        *known = None;
    }
}

/// What is heard of a report of holdings with the prices of a day.
#[derive(Drop)]
struct Appraisal {
    alloc: Global,
    day: Day,
    format: Format,
    /// How many lots have no price.
    count: u64,
    /// What they cost.
    costs: Sums,
    /// What the others are worth, by the records of a table.
    values: Sums,
    /// The same, by the last lines of a text.
    totals: String,
}

impl Appraisal {
    /// Returns that of a report with prices before its first line. Of any other call, and of one that is to say nothing, it is `None`.
    fn of(call: &Call<'_>) -> Option<Appraisal> {
        let Action::Report { report, .. } = call.action else {
            return None;
        };
        let (day, format) = match report {
            Report::Holdings {
                day: Some(day),
                format,
            } => (*day, *format),
            Report::HoldingsOn { day, format, .. } => (*day, *format),
            _ => return None,
        };
        if call.is_quiet() {
            return None;
        }
        let alloc = call.rt.alloc();
        Some(Appraisal {
            alloc,
            day,
            format,
            count: 0,
            costs: Sums::new(alloc),
            values: Sums::new(alloc),
            totals: String::new(alloc),
        })
    }

    /// Hears a line. After an error nothing is known.
    fn hear(&mut self, line: &[u8]) -> Result<(), SumFault> {
        let Ok(line) = str::from_utf8(line) else {
            return Ok(());
        };
        let lot = match self.format {
            Format::Text => unpriced_in(line),
            Format::Csv => lot_in(line),
        };
        match (lot, total_in(line)) {
            (Some(lot), _) => self.add_lot(lot),
            (None, Some(total)) => Ok(self.add_total(total)?),
            (None, None) => Ok(()),
        }
    }

    /// Adds a lot to what it is counted in.
    fn add_lot(&mut self, lot: ValuedLot<'_>) -> Result<(), SumFault> {
        let Ok(currency) = Commodity::new(self.alloc, lot.currency) else {
            return Err(SumFault::Memory);
        };
        match lot.price {
            Some(price) => self.values.add(&currency, weight(lot.units, price)),
            None => {
                self.count = self.count.saturating_add(1);
                self.costs.add(&currency, weight(lot.units, lot.number))
            }
        }
    }

    /// Adds a total value. The only error is out of memory.
    fn add_total(&mut self, total: &str) -> Result<(), AllocError> {
        if !self.totals.is_empty() {
            self.totals.push_str(", ")?;
        }
        self.totals.push_str(total)
    }

    /// Says it on standard error, where a lot has no price. The only error is out of memory.
    fn say(&self, call: &Call<'_>) -> Result<(), AllocError> {
        let (count, day) = (self.count, self.day);
        if count == 0 {
            return Ok(());
        }
        let cost = self.costs.text(self.alloc)?;
        let values = self.values.text(self.alloc)?;
        let worth = worth_of(values.as_str(), self.totals.as_str());
        let _ = eprintln!(call.rt;
            "lotbook: warning: lots without a price in their currency at {day}: {count}, total cost {cost}; total value of the others: {worth}"
        );
        Ok(())
    }
}

/// Returns what the others are worth, as the records of a table come to it, or the last lines of a text say it.
fn worth_of<'a>(values: &'a str, totals: &'a str) -> &'a str {
    if !values.is_empty() {
        return values;
    }
    if totals.is_empty() { "none" } else { totals }
}

/// A lot, as a line of a report says it.
#[derive(Clone, Copy)]
struct ValuedLot<'a> {
    units: Units,
    /// What one unit of it cost.
    number: Rate,
    currency: &'a str,
    price: Option<Rate>,
}

/// Returns the lot of a line of a text that has no price: `ACCOUNT UNITS COMMODITY {NUMBER CURRENCY, ..} value none`.
fn unpriced_in(line: &str) -> Option<ValuedLot<'_>> {
    let mut words = line.strip_suffix(" value none\n")?.split(' ');
    let _account = words.next()?;
    let units = Units::parse(words.next()?).ok()?;
    let _commodity = words.next()?;
    let number = Rate::parse(words.next()?.strip_prefix("{")?).ok()?;
    let currency = words.next()?.strip_suffix(",")?;
    Some(ValuedLot {
        units,
        number,
        currency,
        price: None,
    })
}

/// Returns the total value of a line of a text: `total value T CURRENCY`.
fn total_in(line: &str) -> Option<&str> {
    line.strip_prefix("total value ")?.strip_suffix("\n")
}

/// Returns the lot of a record of a table: `ACCOUNT,COMMODITY,UNITS,DAY,LABEL,NUMBER,CURRENCY,COST,PRICE,VALUE`. The label may have
/// commas.
fn lot_in(record: &str) -> Option<ValuedLot<'_>> {
    let (_account, rest) = record.split_once(',')?;
    let (_commodity, rest) = rest.split_once(',')?;
    let (units, rest) = rest.split_once(',')?;
    let (rest, _value) = rest.rsplit_once(',')?;
    let (rest, price) = rest.rsplit_once(',')?;
    let (rest, _cost) = rest.rsplit_once(',')?;
    let (rest, currency) = rest.rsplit_once(',')?;
    let (_label, number) = rest.rsplit_once(',')?;
    Some(ValuedLot {
        units: Units::parse(units).ok()?,
        number: Rate::parse(number).ok()?,
        currency,
        price: Rate::parse(price).ok(),
    })
}
