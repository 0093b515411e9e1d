//! Copies of the values that the program doesn't copy. That a copy has every part of its source is its contract; that it is made
//! is shown here.

use crate::assert_that;
use lot_base::{Account, Commodity, Day, Label};
use lot_book::{Holding, Sale, Standing};
use lot_command::{Currencies, Key, Method, Price, UnitPrice};
use lot_cost::LotKey;
use lot_import::{Accounts, read_rows};
use lot_num::{Rate, Units};
use lot_read::read;
use std::process::Abort;

pub(crate) fn account(rt: &(impl Abort + AllocGlobal)) -> Account {
    Account::new(rt.alloc(), "Assets:Broker").expect(rt, "account")
}

pub(crate) fn commodity(rt: &(impl Abort + AllocGlobal), text: &str) -> Commodity {
    Commodity::new(rt.alloc(), text).expect(rt, text)
}

fn label(rt: &(impl Abort + AllocGlobal)) -> Label {
    Label::new(rt.alloc(), "x").expect(rt, "label")
}

fn rate(rt: &impl Abort) -> Rate {
    Rate::parse("100").expect(rt, "rate")
}

fn units(rt: &impl Abort) -> Units {
    Units::parse("-10").expect(rt, "units")
}

fn day(rt: &impl Abort) -> Day {
    Day::parse("2020-01-02").expect(rt, "day")
}

pub(crate) fn lot(rt: &(impl Abort + AllocGlobal)) -> LotKey {
    LotKey {
        day: day(rt),
        currency: commodity(rt, "USD"),
        number: rate(rt),
        label: Some(label(rt)),
    }
}

/// The sale of a lot, at a price for each unit.
fn sale(rt: &(impl Abort + AllocGlobal)) -> Sale {
    let mut legs = Vec::new(rt.alloc());
    legs.push((lot(rt), units(rt))).expect(rt, "leg");
    let price = UnitPrice {
        rate: rate(rt),
        currency: commodity(rt, "USD"),
    };
    Sale::new(
        day(rt),
        account(rt),
        commodity(rt, "HOOL"),
        units(rt),
        Some(Price::Each(price)),
        legs,
    )
    .expect(rt, "sale")
}

/// An account that was closed.
fn standing(rt: &(impl Abort + AllocGlobal)) -> Standing {
    let mut usd = Vec::new(rt.alloc());
    usd.push(commodity(rt, "USD")).expect(rt, "USD");
    Standing {
        opened: day(rt),
        closed: Some(day(rt)),
        method: Method::Hifo,
        allowed: Currencies::new(usd).expect(rt, "currencies"),
    }
}

/// Commands of each kind.
const COMMANDS: &[u8] = b"2020-01-01 open Assets:Broker USD \"HIFO\"\n\
    2020-01-01 close Assets:Broker\n2020-01-01 commodity HOOL\n2020-01-01 price HOOL 1 USD\n\
    2020-01-01 * \"a\" \"b\"\n  Assets:Broker 1 HOOL {{1 USD, \"x\"}} @ 2 USD\n  Assets:Cash\n";

/// The file of a broker.
const FILE: &[u8] = b"ref,date,action,symbol,units,price,currency,fee,lot\n\
    A1,2020-02-03,SELL,HOOL,4,130,USD,1.5,B1\n";

#[test]
fn copies_of_what_is_read_are_made(rt: HostRuntime) {
    let rt = &rt;
    for command in &read(rt.alloc(), COMMANDS).expect(rt, "commands") {
        assert_that(rt, command.copy(rt.alloc()).is_ok(), "command");
    }
    for row in &read_rows(rt.alloc(), FILE).expect(rt, "rows") {
        assert_that(rt, row.copy().is_ok(), "row");
    }
}

#[test]
fn copies_are_made(rt: HostRuntime) {
    let rt = &rt;
    let key = Key {
        source: label(rt),
        name: label(rt),
    };
    assert_that(rt, key.copy().is_ok(), "key");
    let accounts = Accounts {
        invest: account(rt),
        cash: account(rt),
        fees: account(rt),
        gains: account(rt),
    };
    assert_that(rt, accounts.copy().is_ok(), "accounts");
    let holding = Holding {
        account: account(rt),
        commodity: commodity(rt, "HOOL"),
        lot: Some(lot(rt)),
        units: units(rt),
    };
    assert_that(rt, holding.copy().is_ok(), "holding");
    assert_that(rt, sale(rt).copy(rt.alloc()).is_ok(), "sale");
    assert_that(rt, standing(rt).copy(rt.alloc()).is_ok(), "standing");
}
