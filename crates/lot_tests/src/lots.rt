//! What an inventory holds, and which lots units take in each order, by the calls that a booking does without.

use crate::assert_text;
use crate::copies::{commodity, lot};
use lot_base::{Day, Label};
use lot_booking::{
    Highest, HighestOpened, LotOrder, Newest, NewestOpened, Oldest, OldestOpened, TakeFault,
    fitting, take,
};
use lot_cost::LotKey;
use lot_inv::{CostSpec, Inventory, Lot};
use lot_num::{Rate, Units};
use std::process::Abort;

/// The lots of the inventory, in the order in which they were opened: the label, the day in January 2024, the cost of a unit and the
/// units, at scale 8. The last one was sold short.
const HELD: &[(&str, i8, u64, i64)] = &[
    ("d", 2, 300, 10),
    ("a", 2, 300, 10),
    ("c", 1, 100, 10),
    ("b", 3, 200, 10),
    ("s", 3, 200, -7),
];

/// Which lots a sale of so many units takes in each order: by edition 1, then by edition 2.
const TAKEN: &[(i64, [&str; 6])] = &[
    (
        -15,
        [
            "c -10 a -5 ",
            "b -10 a -5 ",
            "a -10 d -5 ",
            "c -10 d -5 ",
            "b -10 d -5 ",
            "d -10 a -5 ",
        ],
    ),
    (
        -40,
        [
            "c -10 a -10 d -10 b -10 ",
            "b -10 a -10 d -10 c -10 ",
            "a -10 d -10 b -10 c -10 ",
            "c -10 d -10 a -10 b -10 ",
            "b -10 d -10 a -10 c -10 ",
            "d -10 a -10 b -10 c -10 ",
        ],
    ),
    (-41, ["NotEnough"; 6]),
    (7, ["s 7 "; 6]),
    (8, ["NotEnough"; 6]),
    (0, [""; 6]),
];

/// The key of a lot.
fn key(rt: &(impl Abort + AllocGlobal), held: &(&str, i8, u64, i64)) -> LotKey {
    let (label, day, number, _) = *held;
    let mut key = lot(rt);
    key.day = Day::new(2024, 1, day).expect(rt, "day");
    key.number = Rate::from_mantissa(number).expect(rt, "rate");
    key.label = Some(Label::new(rt.alloc(), label).expect(rt, label));
    key
}

/// The inventory that has these lots, and plain units.
fn inventory(rt: &(impl Abort + AllocGlobal)) -> Inventory {
    let mut inventory = Inventory::new(rt.alloc());
    let hool = commodity(rt, "HOOL");
    let mut opening = 0;
    for held in HELD {
        opening = u64::saturating_add(opening, 1);
        let units = Units::from_mantissa(held.3).expect(rt, "units");
        let added = inventory.add(&hool, Some(&key(rt, held)), units, opening);
        added.expect(rt, "lot");
    }
    let plain = Units::from_mantissa(99).expect(rt, "units");
    inventory.add(&hool, None, plain, 0).expect(rt, "plain");
    inventory
}

/// A specification that every lot fits, or those on a day.
fn spec(day: Option<Day>) -> CostSpec {
    CostSpec {
        number: None,
        currency: None,
        day,
        label: None,
    }
}

/// Adds the label of a lot and units to a text.
fn push(rt: &(impl Abort + AllocGlobal), text: &mut String, key: &LotKey, units: Units) {
    let label = key.label.as_ref().expect(rt, "label");
    let mantissa = units.mantissa();
    let part = format!(in rt.alloc(); "{label} {mantissa} ").expect(rt, "part");
    text.push_str(part.as_str()).expect(rt, "text");
}

/// What units take in an order, leg by leg, or why they take nothing.
fn taken<O: LotOrder>(rt: &(impl Abort + AllocGlobal), units: i64) -> String {
    let (inventory, hool) = (inventory(rt), commodity(rt, "HOOL"));
    let units = Units::from_mantissa(units).expect(rt, "units");
    let lots = fitting(&inventory, &hool, units, &spec(None)).expect(rt, "lots");
    let mut text = String::new(rt.alloc());
    match take::<O>(rt.alloc(), lots, units) {
        Ok(legs) => {
            for (key, units) in &legs {
                push(rt, &mut text, key, *units);
            }
        }
        Err(TakeFault::NotEnough) => text.push_str("NotEnough").expect(rt, "text"),
        Err(TakeFault::Memory) => text.push_str("Memory").expect(rt, "text"),
    }
    text
}

/// The lots that a specification fits, with what they hold.
fn matching(rt: &(impl Abort + AllocGlobal), day: Option<Day>) -> String {
    let (inventory, hool) = (inventory(rt), commodity(rt, "HOOL"));
    let lots: Vec<Lot> = inventory.matching(&hool, &spec(day)).expect(rt, "lots");
    let mut text = String::new(rt.alloc());
    for lot in &lots {
        push(rt, &mut text, &lot.key, lot.units);
    }
    text
}

#[test]
fn units_take_lots_in_each_order(rt: HostRuntime) {
    for (units, want) in TAKEN {
        assert_text(&rt, taken::<Oldest>(&rt, *units).as_str(), want[0]);
        assert_text(&rt, taken::<Newest>(&rt, *units).as_str(), want[1]);
        assert_text(&rt, taken::<Highest>(&rt, *units).as_str(), want[2]);
        assert_text(&rt, taken::<OldestOpened>(&rt, *units).as_str(), want[3]);
        assert_text(&rt, taken::<NewestOpened>(&rt, *units).as_str(), want[4]);
        assert_text(&rt, taken::<HighestOpened>(&rt, *units).as_str(), want[5]);
    }
}

#[test]
fn lots_that_fit_are_listed_by_their_keys_and_summed(rt: HostRuntime) {
    let second = Day::new(2024, 1, 2).expect(&rt, "day");
    assert_text(
        &rt,
        matching(&rt, None).as_str(),
        "c 10 a 10 d 10 b 10 s -7 ",
    );
    assert_text(&rt, matching(&rt, Some(second)).as_str(), "a 10 d 10 ");
    let sum = inventory(&rt).sum(&commodity(&rt, "HOOL"));
    let text = sum.expect(&rt, "sum").text_money(rt.alloc());
    assert_text(&rt, text.expect(&rt, "text").as_str(), "0.00000033");
}
