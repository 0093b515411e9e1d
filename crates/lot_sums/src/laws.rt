//! Laws of what is written of a past day. Each is the contract of a function that does nothing.
ghost use Rattle.std.specs.Prelude.{◌≡◌, ◌↔◌, List, ℕ, Ok, Option, Some, ℤ};
ghost use Rattle.lot_book.specs.Book.{IsBook};
ghost use Rattle.lot_book.specs.Facts.{Entry};
ghost use Rattle.lot_position.specs.Held.{IsPastAll};
ghost use Rattle.lot_sums.specs.Held.{ShowsHoldingsAt, ShowsHoldingsOn};
ghost use Rattle.lot_tally.specs.declared.key.TableForm.{TableForm};

/// On a day that no entry is behind, what is written of what was held is what is written of what the book holds, at the same
/// prices: byte for byte, as text and as CSV.
pub fn a_day_past_all_entries_is_written_as_what_the_book_holds()
    ensures same { (form : TableForm) (entries : List Entry) (on day : ℤ)
        (start now : Option (List ℕ)) → IsBook entries → IsPastAll on entries
        → ShowsHoldingsOn form on day entries start now (Ok tt)
        ↔ ShowsHoldingsAt form day entries start now (Ok tt) }
    ensures bytes { (form : TableForm) (entries : List Entry) (on day : ℤ)
        (start : List ℕ) (now other : Option (List ℕ)) → IsPastAll on entries
        → ShowsHoldingsOn form on day entries (Some start) now (Ok tt)
        → ShowsHoldingsAt form day entries (Some start) other (Ok tt) → now ≡ other }
{}
