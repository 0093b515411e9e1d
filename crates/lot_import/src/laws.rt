//! Laws of the definitions that the contracts of this crate cite. Each is the contract of a function that does nothing.
ghost use Rattle.std.specs.Prelude.{◌≡◌, ◌≢◌, ◌≤◌, ◌<◌, ◌*◌, ◌⊎◌, ◌∷◌, ◌++◌, ◌-◌, [], ℕ, ℤ, List, Option, Some, drop, length, unsigned_abs};
ghost use Rattle.std.specs.List.{range_with_len};
ghost use Rattle.lot_num.specs.Amount.{one, units_limit};
ghost use Rattle.lot_command.specs.declared.command.Command.{Command};
ghost use Rattle.lot_command.specs.declared.command.Command.TheVariants.{Transaction};
ghost use Rattle.lot_command.specs.declared.key.Key.{Key};
ghost use Rattle.lot_command.specs.declared.transaction.Transaction.{Transaction as TransactionOf};
ghost use Rattle.lot_rounding.specs.Asked.{IsAtSomeDecimals};
ghost use Rattle.lot_rounding.specs.Nearest.{IsRounded, most_decimals};
ghost use Rattle.lot_rounding.specs.declared.asked.Asked.{Asked};
ghost use Rattle.lot_import.specs.Deal.{HasCash, IsAskedOf, IsCommandOf, MayBeGiven, cash_weight};
ghost use Rattle.lot_import.specs.File.{AreRows, HasFault};
ghost use Rattle.lot_import.specs.Keyed.{AreKeyed, AreKeyedFrom, remaining};
ghost use Rattle.lot_import.specs.Row.{IsFaulty, IsRow};
ghost use Rattle.lot_import.specs.declared.accounts.Accounts.{Accounts};
ghost use Rattle.lot_import.specs.declared.fault.Cause.{Cause};
ghost use Rattle.lot_import.specs.declared.fault.RowsFault.{RowsFault};
ghost use Rattle.lot_import.specs.declared.fault.RowsFault.TheVariants as Faults;
ghost use Rattle.lot_import.specs.declared.row.Row.{Row};
ghost use Rattle.lot_import.specs.declared.version.Version.{Version};
ghost use Rattle.lot_import.specs.declared.version.Version.TheVariants.{First, Second};

/// Each record says one row, or has one first faulty column; never both.
pub fn a_record_says_one_thing()
    ensures some { (version : Version) (written : List (List ℕ)) → ((row : Row)
        × IsRow version written row) ⊎ ((cause : Cause) × IsFaulty version written cause) }
    ensures either { (version : Version) (written : List (List ℕ)) (row : Row) (cause : Cause)
        → IsRow version written row → IsFaulty version written cause → ⊥ }
    ensures row { (version : Version) (written : List (List ℕ)) (a b : Row)
        → IsRow version written a → IsRow version written b → a ≡ b }
    ensures cause { (version : Version) (written : List (List ℕ)) (a b : Cause)
        → IsFaulty version written a → IsFaulty version written b → a ≡ b }
{}

/// Each file has one list of rows, or one first fault, and never both. Out of memory is no fault of a file.
pub fn a_file_has_one_answer()
    ensures some { (bytes : List ℕ) → ((rows : List Row) × AreRows bytes rows)
        ⊎ ((fault : RowsFault) × (fault ≢ Faults.Memory) × HasFault bytes fault) }
    ensures either { (bytes : List ℕ) (rows : List Row) (fault : RowsFault) → AreRows bytes rows
        → HasFault bytes fault → fault ≡ Faults.Memory }
    ensures rows { (bytes : List ℕ) (a b : List Row) → AreRows bytes a → AreRows bytes b → a ≡ b }
    ensures fault { (bytes : List ℕ) (a b : RowsFault) → a ≢ Faults.Memory → b ≢ Faults.Memory
        → HasFault bytes a → HasFault bytes b → a ≡ b }
{}

/// A record of the first version says a row. With an empty lot behind it, it says the same row in the second version.
pub fn an_empty_lot_changes_no_row()
    ensures { (written : List (List ℕ)) (row : Row) → IsRow First written row
        → IsRow Second (written ++ [] ∷ []) row }
{}

/// With the same accounts, a row has at most one command, and different rows have different commands, whatever their cash is
/// rounded to. So a row is handed in as one thing.
pub fn a_row_has_one_command()
    ensures command { (accounts : Accounts) (decimals : Option ℕ) (row : Row) (a b : Command)
        → IsCommandOf accounts decimals row a → IsCommandOf accounts decimals row b → a ≡ b }
    ensures asked { (accounts : Accounts) (decimals : Option ℕ) (row : Row) (a b : Asked)
        → IsAskedOf accounts decimals row a → IsAskedOf accounts decimals row b → a ≡ b }
    ensures row { (accounts : Accounts) (decimals others : Option ℕ) (a b : Row) (command : Command)
        → IsCommandOf accounts decimals a command → IsCommandOf accounts others b command → a ≡ b }
{}

/// A row whose cash is rounded has no cash only where that is out of the range of units.
pub fn rounded_cash_is_units()
    ensures { (decimals : ℕ) (row : Row) (rounded : ℤ) → decimals ≤ most_decimals
        → IsRounded decimals (cash_weight row) rounded → unsigned_abs rounded < units_limit * one
        → HasCash (Some decimals) row }
{}

/// A row whose cash is rounded is known as it was posted, whatever its cash was rounded to then, also where it was posted
/// exactly. And each row is known as it is handed in.
pub fn a_row_is_known_at_other_decimals()
    ensures others { (accounts : Accounts) (decimals : ℕ) (earlier : Option ℕ) (row : Row)
        (asked : Asked) (t written : TransactionOf)
        → IsAskedOf accounts (Some decimals) row asked → asked.command ≡ Transaction t
        → MayBeGiven earlier → IsCommandOf accounts earlier row (Transaction written)
        → IsAtSomeDecimals asked.cash t written }
    ensures itself { (accounts : Accounts) (decimals : Option ℕ) (row : Row)
        (asked : Asked) (t : TransactionOf)
        → MayBeGiven decimals → IsAskedOf accounts decimals row asked
        → asked.command ≡ Transaction t → IsAtSomeDecimals asked.cash t t }
{}

/// Where no row is left out, what is given of rows is the commands of all of them without those before a number, and the
/// numbers follow one another from this number.
pub fn what_is_given_without_rows_left_out()
    ensures numbers { (source : List ℕ) (accounts : Accounts) (decimals : Option ℕ) (from : ℕ)
        (rows : List Row) (given : List ℕ × List (Key × Asked))
        → AreKeyedFrom source accounts decimals from [] rows given
        → 1 ≤ from → given.0 ≡ range_with_len from (length given.1) }
    ensures commands { (source : List ℕ) (accounts : Accounts) (decimals : Option ℕ) (from : ℕ)
        (rows : List Row) (given : List ℕ × List (Key × Asked))
        → AreKeyedFrom source accounts decimals from [] rows given
        → (all : List (Key × Asked)) × AreKeyed source accounts decimals rows all
        × (given.1 ≡ drop (from - 1) all) }
    ensures remain { (rows : List Row) → remaining [] rows ≡ rows }
{}
