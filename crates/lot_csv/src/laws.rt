//! Laws of tables. Each is the contract of a function that does nothing.
ghost use Rattle.std.specs.Prelude.{◌≡◌, ◌++◌, ◌∷◌, [], ℕ, List, Some, map};
ghost use Rattle.csv.specs.Machine.{next_record};
ghost use Rattle.csv.specs.Reading.{default_config};
ghost use Rattle.csv.specs.declared.parser.State.TheVariants as st;
ghost use Rattle.lot_book.specs.Gain.{gain_of};
ghost use Rattle.lot_book.specs.Sale.{AreLegsOf, SaleParts};
ghost use Rattle.lot_book.specs.declared.gain.Gain.{Gain};
ghost use Rattle.lot_csv.specs.Record.{record_text};
ghost use Rattle.lot_csv.specs.Shares.{AddUpTo, gain_in, lots_of};

/// The records of a priced sale add up exactly to it. Each has a gain, and their proceeds, costs
/// and gains add up to those of the sale.
pub fn records_add_up_to_the_sale()
    ensures { (sale : SaleParts) (gain : Gain)
        → AreLegsOf sale.units sale.legs → gain_of sale ≡ Some gain
        → (gains : List Gain) × (map (gain_in sale.units) (lots_of sale) ≡ map Some gains)
        × AddUpTo gains gain }
{}

/// A record of two fields or more reads back as these fields, whatever they hold. What stands
/// behind the record is left to be read.
pub fn a_record_reads_back()
    ensures { (first second : List ℕ) (others : List (List ℕ)) (behind : List ℕ)
        → next_record default_config st.StartRecord [] []
        (record_text (first ∷ second ∷ others) ++ behind)
        ≡ Some (first ∷ second ∷ others, st.StartRecord, behind) }
{}
