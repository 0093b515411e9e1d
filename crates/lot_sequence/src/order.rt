//! The order of judging.
ghost use Rattle.std.specs.Prelude.{◌≡◌, length, MatchOption};
ghost use Rattle.std.specs.Option.{option_copied};
ghost use Rattle.std.specs.List.Sorted.{IsPermutation, IsSorted};
ghost use Rattle.lot_sequence.specs.Order.{IsFirstAgainst, StandInOrder, goes_back, is_against, next_above, order_of, row_cmp, table_cmp, time_of};

use crate::row::Row;
use lot_base::Day;
use lot_profile::Order;
use std::cmp::Ordering;

/// Puts rows into the order of judging: by day, the oldest first; of one day by table; of one table as its order in
/// `orders` says. A table without one counts as `OldestFirst`.
pub fn sort_rows(rows: &mut [Row<'_>], orders: &[Order])
    ensures same { IsPermutation rows.old rows.new }
    ensures sorted { IsSorted (row_cmp orders.now) rows.new }
{
    rows.sort_unstable_by(|a, b| compare_rows(orders, a, b));
}

/// Returns the number of the first of the rows of a file whose day stands against the order of its table, or `None`
/// where there is none. The rows are given as they stand in the file.
///
/// In a table of `OldestFirst` that is a row of an earlier day than the row of this table next above it, in one of
/// `NewestFirst` a row of a later day. Days of other tables stand in any order.
pub fn first_against(rows: &[Row<'_>], orders: &[Order]) -> Option<usize>
    ensures { MatchOption result (StandInOrder orders.now rows.now (length rows.now))
        (λ number. IsFirstAgainst orders.now rows.now number) }
{
    for (place, row) in rows.iter().enumerate() {
        if is_against(orders, &rows[..place], row) {
            return Some(row.number);
        }
    }
    None
}

/// Returns whether the day of a row stands against the order of its table, where these rows stand above it.
fn is_against(orders: &[Order], above: &[Row<'_>], row: &Row<'_>) -> bool
    ensures { result ≡ is_against orders.now above.now row.now }
{
    match next_above(above, row.table) {
        Some(other) => goes_back(order_of(orders, row.table), other.day, row.day),
        None => false,
    }
}

/// Returns the row of a table that stands next above, of the rows above.
fn next_above<'a, 'r>(above: &'a [Row<'r>], table: usize) -> Option<&'a Row<'r>>
    ensures { option_copied result ≡ next_above table above.now }
{
    above.iter().rev().find(|row| row.table == table)
}

/// Returns whether a day may not stand next below another in a table of that order.
fn goes_back(order: Order, above: Day, day: Day) -> bool
    ensures { result ≡ goes_back order above day }
{
    match order {
        Order::OldestFirst => day < above,
        Order::NewestFirst => above < day,
        Order::ByDay | Order::ByDayNewestFirst => false,
    }
}

/// Returns how two rows compare: the row that is judged first is less.
fn compare_rows(orders: &[Order], a: &Row<'_>, b: &Row<'_>) -> Ordering
    ensures { result ≡ row_cmp orders.now a.now b.now }
{
    a.day
        .cmp(&b.day)
        .then(a.table.cmp(&b.table))
        .then(compare_in_table(order_of(orders, a.table), a, b))
}

/// Returns the order of a table.
fn order_of(orders: &[Order], table: usize) -> Order
    ensures { result ≡ order_of orders.now table }
{
    match orders.get(table) {
        Some(order) => *order,
        None => Order::OldestFirst,
    }
}

/// Returns how two rows of one day and one table of that order compare.
fn compare_in_table(order: Order, a: &Row<'_>, b: &Row<'_>) -> Ordering
    ensures { result ≡ table_cmp order a.now b.now }
{
    match order {
        Order::OldestFirst => a.number.cmp(&b.number),
        Order::NewestFirst => b.number.cmp(&a.number),
        Order::ByDay => time_of(a).cmp(&time_of(b)).then(a.number.cmp(&b.number)),
        Order::ByDayNewestFirst => time_of(a).cmp(&time_of(b)).then(b.number.cmp(&a.number)),
    }
}

/// Returns the time of a row. A row without one stands with the smallest.
fn time_of(row: &Row<'_>) -> u32
    ensures { result ≡ time_of row.now }
{
    row.time.unwrap_or(0)
}
