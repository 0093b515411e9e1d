//! Laws of tables that stand for a book. Each is the contract of a function that does nothing.
ghost use Rattle.std.specs.Prelude.{◌≡◌, List};
ghost use Rattle.lot_book.specs.Facts.{Entry};
ghost use Rattle.lot_stored.specs.StandFor.{StandFor};
ghost use Rattle.lot_rows.specs.Tables.{Tables};

/// At most one list of rows in each table stands for a book with its place of migration. No table has a row more or a row less.
pub fn a_book_has_one_list_of_rows_in_each_table()
    ensures { (a b : Tables) (entries : List Entry) (these : StandFor a entries)
        (those : StandFor b entries)
        → these.place ≡ those.place → a ≡ b }
{}
