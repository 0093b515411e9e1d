//! Opening numbers, of legs at lots that are added to, emptied, opened again or below zero, and of plain units.

ghost use Rattle.std.specs.Prelude.{All, ◌≤◌, unsigned_abs};
ghost use Rattle.lot_book.specs.OpeningNumber.{IsNumbered, StayInRange};

use crate::assert_text;
use crate::copies::{account, commodity, lot};
use lot_base::Label;
use lot_book::{Leg, Position};
use lot_cost::LotKey;
use lot_migrate::{LotOpening, openings};
use lot_num::Units;
use std::process::Abort;

/// Legs, and the lots that they leave. A leg is given by its entry, its posting, the label of its lot (`-` for plain units) and
/// its units. A lot is given by its label and its opening number.
const CASES: &[(&[(u64, usize, &str, i64)], &str)] = &[
    (&[], ""),
    (&[(5, 1, "b", 5), (6, 1, "a", 5)], "a 321 b 257 "),
    (
        &[(5, 1, "b", 5), (6, 1, "a", 5), (7, 1, "b", 1)],
        "a 321 b 257 ",
    ),
    (&[(5, 1, "b", 5), (6, 1, "a", 5), (7, 1, "b", -5)], "a 321 "),
    (
        &[
            (5, 1, "b", 5),
            (6, 1, "a", 5),
            (7, 1, "b", -5),
            (8, 1, "b", 5),
        ],
        "a 321 b 449 ",
    ),
    (
        &[
            (5, 1, "b", 5),
            (6, 1, "a", 5),
            (7, 1, "b", -5),
            (7, 2, "b", 5),
        ],
        "a 321 b 386 ",
    ),
    (
        &[
            (1, 64, "b", -5),
            (1, 64, "a", 2),
            (2, 1, "-", 9),
            (3, 1, "b", 7),
        ],
        "a 64 b 64 ",
    ),
    (&[(2_000_000_000, 64, "a", -1)], "a 128000000000 "),
];

/// The lot with a label, or none for `-`.
fn lot_of(rt: &(impl Abort + AllocGlobal), text: &str) -> Option<LotKey> {
    if text == "-" {
        return None;
    }
    let mut key = lot(rt);
    key.label = Some(Label::new(rt.alloc(), text).expect(rt, text));
    Some(key)
}

/// A leg in a book, of few units.
fn leg(rt: &(impl Abort + AllocGlobal), case: &(u64, usize, &str, i64)) -> Leg
    ensures numbered { IsNumbered result }
    ensures few { unsigned_abs result.units ≤ 100 }
{
    let (entry, posting, lot, units) = *case;
    assert!(rt; 1 <= entry && entry <= 2_000_000_000);
    assert!(rt; 1 <= posting && posting <= 64);
    assert!(rt; -100 <= units && units <= 100);
    Leg {
        entry,
        posting,
        place: 0,
        position: Position {
            account: account(rt),
            commodity: commodity(rt, "HOOL"),
            lot: lot_of(rt, lot),
        },
        units: Units::from_mantissa(units).expect(rt, "units"),
    }
}

/// Legs in a book, so few that no sum of them leaves the range of units.
fn legs(rt: &(impl Abort + AllocGlobal), cases: &[(u64, usize, &str, i64)]) -> Vec<Leg>
    ensures numbered { All IsNumbered result.items }
    ensures in_range { StayInRange result.items }
{
    assert!(rt; cases.len() <= 100);
    let mut legs = Vec::new(rt.alloc());
    for case in cases {
        legs.push(leg(rt, case)).expect(rt, "leg");
    }
    legs
}

/// The label and the opening number of each row.
fn text_of(rt: &(impl Abort + AllocGlobal), rows: &[LotOpening]) -> String {
    let mut text = String::new(rt.alloc());
    for row in rows {
        let label = row.lot.label.as_ref().expect(rt, "label");
        let row = format!(in rt.alloc(); "{label} {} ", row.opening).expect(rt, "row");
        text.push_str(row.as_str()).expect(rt, "text");
    }
    text
}

#[test]
fn a_lot_has_the_number_of_its_last_opening(rt: HostRuntime) {
    for (cases, want) in CASES {
        let legs = legs(&rt, cases);
        let rows = openings(rt.alloc(), legs.as_slice()).expect(&rt, want);
        assert_text(&rt, text_of(&rt, rows.as_slice()).as_str(), want);
    }
}
