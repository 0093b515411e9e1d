//! Laws of what migration keeps. Each is the contract of a function that does nothing.
ghost use Rattle.std.specs.Prelude.{◌≡◌, ◌↔◌, ℕ, List, length, map};
ghost use Rattle.lot_book.specs.Edition.{After, NotYet};
ghost use Rattle.lot_book.specs.Facts.{Entry};
ghost use Rattle.lot_book.specs.Sale.{SaleParts};
ghost use Rattle.lot_migrate.specs.First.{StandForFirst};
ghost use Rattle.lot_rows.specs.Tables.{Tables};
ghost use Rattle.lot_stored.specs.Kept.{SalesOf};
ghost use Rattle.lot_stored.specs.Rows.{sale_row};

/// Once the place of migration stands behind all entries of edition 1, their sales, and the legs that each takes, are the same
/// as before.
pub fn old_sales_keep_their_legs()
    ensures { (entries : List Entry) (sales : List (ℕ × (ℕ × SaleParts)))
        → SalesOf NotYet entries sales ↔ SalesOf (After (length entries)) entries sales }
{}

/// Tables of edition 1 that stand for a book hold the sales that the book has by edition 1.
pub fn old_tables_hold_the_sales_of_edition_1()
    ensures { (tables : Tables) (entries : List Entry) → StandForFirst tables entries
        → (sales : List (ℕ × (ℕ × SaleParts))) × SalesOf NotYet entries sales
        × (tables.sale ≡ map sale_row sales) }
{}
