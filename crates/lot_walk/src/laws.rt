//! Laws of what a book holds, of its sales and what they take, and of its prices at a day. They are on the entries of a book
//! and on the tables that stand for it. Tables stand for at most one book. Each law is the contract of a function that does
//! nothing.
ghost use Rattle.std.specs.Prelude.{◌≡◌, ◌+ℤ◌, ◌<ℤ◌, ℕ, ℤ, [], List, Option, Some, map};
ghost use Rattle.std.specs.List.{AllByRecursion};
ghost use Rattle.std.specs.Map.{lookup};
ghost use Rattle.lot_inv.specs.Inventory.{non_zero};
ghost use Rattle.lot_cost.specs.declared.lot_key.LotKey.{LotKey};
ghost use Rattle.lot_book.specs.Book.{IsBook, IsBookIn};
ghost use Rattle.lot_book.specs.Booking.{Booked};
ghost use Rattle.lot_book.specs.Edition.{Migration};
ghost use Rattle.lot_book.specs.Facts.{Entry, legs_of};
ghost use Rattle.lot_book.specs.Holding.{entry_of};
ghost use Rattle.lot_book.specs.Leg.{same_position};
ghost use Rattle.lot_book.specs.Sale.{SaleParts};
ghost use Rattle.lot_book.specs.declared.holding.Holding.{Holding};
ghost use Rattle.lot_book.specs.declared.leg.Position.{Position};
ghost use Rattle.lot_stored.specs.Kept.{SalesOf};
ghost use Rattle.lot_stored.specs.StandFor.{StandFor, sum_in};
ghost use Rattle.lot_laws.specs.Laws.{BooksEntries, bought_into, lot_at};
ghost use Rattle.lot_rows.specs.Tables.{Tables};
ghost use Rattle.lot_walk.specs.Gains.{AreSalesWithin, HasItsLegs, Range};
ghost use Rattle.lot_walk.specs.Holdings.{IsHoldings, merged};
ghost use Rattle.lot_walk.specs.Prices.{ArePrices, IsPriceAt, prices_by};
ghost use Rattle.lot_walk.specs.Sold.{left_of, taken_of};
ghost use Rattle.lot_walk.specs.declared.gains.NumberedSale.{NumberedSale};
ghost use Rattle.lot_walk.specs.declared.price.PairPrice.{PairPrice};

/// Tables stand for at most one book: what a file says leaves no choice of its commands, of their keys or of their legs.
pub fn tables_stand_for_at_most_one_book()
    ensures { (tables : Tables) (a b : List Entry) → IsBook a → IsBook b → StandFor tables a
        → StandFor tables b → a ≡ b }
{}

/// What a book holds at a position is the sum of all legs there, and has no row where that is zero.
pub fn a_holding_is_the_sum_of_its_legs()
    ensures { (entries : List Entry) (rows : List Holding) (position : Position)
        → IsHoldings entries rows
        → lookup (same_position position) (map entry_of rows) ≡ non_zero (sum_in entries position) }
{}

/// At most one list of rows is what a book holds.
pub fn a_book_has_one_list_of_holdings()
    ensures { (entries : List Entry) (a b : List Holding) → IsHoldings entries a
        → IsHoldings entries b → a ≡ b }
{}

/// The units that a book's sales took of a lot, with their sign, and the units that its holdings say are left add up to those
/// that were bought into it. A lot is named by its account, commodity and key.
///
/// All three are over all entries, so that they hold of a lot that was sold out and opened again under its key. Under NONE
/// there are no sales: a posting of the other sign counts as bought, with its sign.
pub fn what_was_bought_into_a_lot_was_sold_or_is_held()
    ensures { (migration : Migration) (entries : List Entry) (booked : List Booked)
        (sales : List (ℕ × (ℕ × SaleParts))) (rows : List Holding)
        (account commodity : List ℕ) (lot : LotKey)
        → BooksEntries migration [] entries booked → SalesOf migration entries sales
        → IsHoldings entries rows
        → left_of rows (lot_at account commodity lot)
        ≡ bought_into booked (lot_at account commodity lot) +ℤ taken_of sales
        (lot_at account commodity lot) }
{}

/// A pair has at most one price at a day.
pub fn a_pair_has_one_price_at_a_day()
    ensures { (entries : List Entry) (day : ℤ) (pair : List ℕ × List ℕ) (a b : Option ℕ)
        → IsPriceAt entries day pair a → IsPriceAt entries day pair b → a ≡ b }
{}

/// At most one list of rows is the prices of a book at a day.
pub fn a_book_has_one_list_of_prices_at_a_day()
    ensures { (entries : List Entry) (day : ℤ) (a b : List PairPrice) → ArePrices entries day a
        → ArePrices entries day b → a ≡ b }
{}

/// The rows of plain units and of lots of tables that stand for a book, merged in the order of positions, are what the book
/// holds.
pub fn merged_rows_are_what_a_book_holds()
    ensures { (tables : Tables) (entries : List Entry) → StandFor tables entries
        → IsHoldings entries (merged tables.plain tables.lot) }
{}

/// Take the rows of prices of tables that stand for a book, up to a day. The last row of each pair is the price of that pair at
/// the day, and these are all prices at the day.
pub fn last_rows_of_pairs_are_the_prices_at_a_day()
    ensures { (tables : Tables) (entries : List Entry) (day : ℤ) → StandFor tables entries
        → ArePrices entries day (prices_by day tables.price) }
{}

/// A book has at most one list of sales on the days of a range, whatever its place of migration.
pub fn a_book_has_one_list_of_sales_in_a_range()
    ensures { (entries : List Entry) (range : Range) (a b : List NumberedSale)
        → AreSalesWithin range entries a → AreSalesWithin range entries b → a ≡ b }
{}

/// A range whose last day is before its first has no sales.
pub fn a_range_that_ends_before_it_begins_has_no_sales()
    ensures { (entries : List Entry) (first last : ℤ) (sales : List NumberedSale) → last <ℤ first
        → AreSalesWithin (Some first, Some last) entries sales
        → sales ≡ [] }
{}

/// The legs of a sale of a book are all the legs of its posting, in the order in which they were booked.
pub fn a_sale_has_the_legs_of_its_posting()
    ensures { (migration : Migration) (entries : List Entry) (sales : List (ℕ × (ℕ × SaleParts)))
        → IsBookIn migration entries → SalesOf migration entries sales
        → AllByRecursion (HasItsLegs (legs_of entries)) sales }
{}
