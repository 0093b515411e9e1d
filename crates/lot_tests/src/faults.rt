//! What no text of the program shows of faults: their own texts, for people, and which of several faults of a number is told.

use crate::assert_text;
use lot_base::{DayFault, NameFault};
use lot_booking::{BookingFault, TakeFault};
use lot_import::{Cause, CommandFault, KeyedFault, RowsFault};
use lot_inv::InventoryFault;
use lot_num::NumberFault::{Negative, Syntax, TooLarge, TooManyDecimals};
use lot_num::{NumberFault, Rate, Units};
use lot_read::LineFault;
use lot_report::{JournalFault, PrintFault, ReportFault, RowFault};
use lot_stream::{Fault, SlurpFault};
use std::fmt::{Debug, Display};
use std::process::Abort;

/// Asserts the name and the text of each fault.
fn assert_told<E: Debug + Display>(rt: &(impl Abort + AllocGlobal), faults: &[(E, &str)]) {
    for (fault, want) in faults {
        let told = format!(in rt.alloc(); "{fault:?}: {fault}").expect(rt, want);
        assert_text(rt, told.as_str(), want);
    }
}

const OF_NUMBERS: &[(NumberFault, &str)] = &[
    (Syntax, "Syntax: this is not a number"),
    (
        TooManyDecimals,
        "TooManyDecimals: a number has at most eight decimals",
    ),
    (TooLarge, "TooLarge: this number is too large"),
    (Negative, "Negative: this number may not be negative"),
];

const OF_NAMES: &[(NameFault, &str)] = &[
    (NameFault::BadAccount, "BadAccount: not an account"),
    (NameFault::BadCommodity, "BadCommodity: not a commodity"),
    (NameFault::BadLabel, "BadLabel: not a label"),
    (NameFault::BadNote, "BadNote: not a note"),
    (NameFault::Memory, "Memory: out of memory"),
];

const OF_DAYS: &[(DayFault, &str)] = &[(
    DayFault::BadDay,
    "BadDay: not a day of the years 1 to 9999",
)];

const OF_INVENTORIES: &[(InventoryFault, &str)] = &[
    (InventoryFault::Range, "Range: the sum is out of range"),
    (InventoryFault::Memory, "Memory: out of memory"),
];

const OF_BOOKING: &[(BookingFault, &str)] = &[
    (BookingFault::ZeroUnits, "ZeroUnits: the units are zero"),
    (
        BookingFault::InexactCost,
        "InexactCost: the whole cost by the units is not exactly a rate",
    ),
    (
        BookingFault::IncompleteCost,
        "IncompleteCost: the cost has no number or no currency",
    ),
    (BookingFault::NoMatch, "NoMatch: no lot fits"),
    (BookingFault::Ambiguous, "Ambiguous: several lots fit"),
    (
        BookingFault::NotEnough,
        "NotEnough: the lots that fit hold less",
    ),
    (BookingFault::Memory, "Memory: out of memory"),
];

const OF_TAKING: &[(TakeFault, &str)] = &[
    (TakeFault::NotEnough, "NotEnough: the lots hold less"),
    (TakeFault::Memory, "Memory: out of memory"),
];

const OF_CAUSES: &[(Cause, &str)] = &[
    (
        Cause::Length,
        "Length: another number of fields than the header",
    ),
    (Cause::Ref, "Ref: ref isn't a label"),
    (Cause::Date, "Date: date isn't a day"),
    (Cause::Action, "Action: action is neither BUY nor SELL"),
    (Cause::Symbol, "Symbol: symbol isn't a commodity"),
    (
        Cause::Units,
        "Units: units isn't a number of units, or is below zero",
    ),
    (Cause::Price, "Price: price isn't a rate"),
    (Cause::Currency, "Currency: currency isn't a commodity"),
    (Cause::Fee, "Fee: fee is neither empty nor a rate"),
    (Cause::Lot, "Lot: lot isn't the label of a lot"),
];

const OF_FILES: &[(RowsFault, &str)] = &[
    (
        RowsFault::BadHeader,
        "BadHeader: not the header of a broker file",
    ),
    (
        RowsFault::BadRow {
            row: 7,
            cause: Cause::Ref,
        },
        "BadRow { row: 7, cause: Ref }: row 7: ref isn't a label",
    ),
    (
        RowsFault::TooManyRows,
        "TooManyRows: more than 100,000 rows",
    ),
    (RowsFault::Memory, "Memory: out of memory"),
];

const OF_ROWS: &[(CommandFault, &str)] = &[
    (
        CommandFault::InexactAmount,
        "InexactAmount: the cash amount isn't exact at eight decimals, or too large",
    ),
    (CommandFault::Memory, "Memory: out of memory"),
];

const OF_KEYED_ROWS: &[(KeyedFault, &str)] = &[
    (
        KeyedFault::InexactAmount { row: 3 },
        "InexactAmount { row: 3 }: row 3: the cash amount isn't exact at eight decimals, or too large",
    ),
    (KeyedFault::Memory, "Memory: out of memory"),
];

const OF_LINES: &[(PrintFault, &str)] = &[
    (PrintFault::Write, "Write: the output can't be written"),
    (PrintFault::Memory, "Memory: out of memory"),
];

const OF_REPORTS: &[(RowFault, &str)] = &[
    (
        RowFault::Report(ReportFault::Range),
        "Report(Range): a total is too large",
    ),
    (
        RowFault::Report(ReportFault::Write),
        "Report(Write): the output can't be written",
    ),
    (
        RowFault::Report(ReportFault::Memory),
        "Report(Memory): out of memory",
    ),
    (RowFault::Spent, "Spent: the report has ended with a fault"),
];

const OF_JOURNALS: &[(JournalFault, &str)] = &[
    (JournalFault::Write, "Write: the output can't be written"),
    (
        JournalFault::Spent,
        "Spent: the journal has ended with a fault",
    ),
];

const OF_INPUTS: &[(SlurpFault, &str)] = &[
    (SlurpFault::Read, "Read: the input can't be read"),
    (
        SlurpFault::TooLong,
        "TooLong: the input is longer than 16 MiB",
    ),
    (SlurpFault::Memory, "Memory: out of memory"),
];

const OF_RUNS: &[(Fault, &str)] = &[
    (Fault::Read, "Read: the input can't be read"),
    (Fault::TooLong, "TooLong: the input is longer than 16 MiB"),
    (
        Fault::Text {
            line: 1_000,
            fault: LineFault::TooLong,
        },
        "Text { line: 1000, fault: TooLong }: line 1000: longer than 4,096 bytes",
    ),
    (Fault::Range, "Range: a total is too large"),
    (Fault::Write, "Write: the output can't be written"),
    (Fault::Memory, "Memory: out of memory"),
    (
        Fault::MemoryAt { number: 27 },
        "MemoryAt { number: 27 }: out of memory at command 27",
    ),
];

#[test]
fn faults_say_what_they_are(rt: HostRuntime) {
    assert_told(&rt, OF_NUMBERS);
    assert_told(&rt, OF_NAMES);
    assert_told(&rt, OF_DAYS);
    assert_told(&rt, OF_INVENTORIES);
    assert_told(&rt, OF_BOOKING);
    assert_told(&rt, OF_TAKING);
    assert_told(&rt, OF_CAUSES);
    assert_told(&rt, OF_FILES);
    assert_told(&rt, OF_ROWS);
    assert_told(&rt, OF_KEYED_ROWS);
    assert_told(&rt, OF_LINES);
    assert_told(&rt, OF_REPORTS);
    assert_told(&rt, OF_JOURNALS);
    assert_told(&rt, OF_INPUTS);
    assert_told(&rt, OF_RUNS);
}

/// Texts, each with its first fault as units, as a total and as a rate. The program tells all four alike.
const NUMBERS: &[(&str, &str)] = &[
    ("1.a23456789", "Some(Syntax) Some(Syntax) Some(Syntax)"),
    (
        "-10000000000.000000001",
        "Some(TooManyDecimals) Some(TooManyDecimals) Some(TooManyDecimals)",
    ),
    (
        "-10000000000",
        "Some(TooLarge) Some(TooLarge) Some(TooLarge)",
    ),
    ("-1", "None Some(Negative) Some(Negative)"),
];

#[test]
fn the_first_fault_of_a_number_is_told(rt: HostRuntime) {
    for (text, want) in NUMBERS {
        let (units, total) = (Units::parse(text).err(), Units::parse_total(text).err());
        let rate = Rate::parse(text).err();
        let told = format!(in rt.alloc(); "{units:?} {total:?} {rate:?}").expect(&rt, want);
        assert_text(&rt, told.as_str(), want);
    }
}
