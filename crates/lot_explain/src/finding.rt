//! What was found of the crumbs and the splits of refused commands as they were judged.

ghost use Rattle.std.specs.Prelude.{◌≡◌, ◌≢◌, ℕ, None, OnOk, Some};
ghost use Rattle.std.specs.BTreeMap.{btree_map_len};
ghost use Rattle.std.specs.Option.{option_copied};
ghost use Rattle.lot_explain.specs.Finding.{finding_of};

use lot_base::Commodity;
use lot_num::Wide;
use lot_split::SplitFault;
use std::alloc::{AllocError, Global};
use std::collections::BTreeMap;

/// What was found of the crumbs or the split of a command as it was judged.
#[derive(Drop)]
pub enum Finding {
    /// No account takes crumbs, and the transaction with this canonical text would balance it: its
    /// completion. The largest of its crumbs is so large, sign aside, at scale 16.
    Balances { completion: String, largest: Wide },
    /// A crumb of its completion is beyond the bound: that of this currency, at scale 16.
    Beyond { currency: Commodity, crumb: Wide },
    /// Its completion, or its split, is refused: the reply to that, with its line end.
    Refused { reply: Vec<u8> },
    /// It asks for a split, and the lots that are held can't be split, for this.
    Unsplit(SplitFault),
}

/// What was found of commands, by their numbers.
#[derive(Drop)]
pub struct Findings {
    by_number: BTreeMap<usize, Finding>,
}

impl Findings {
    /// Returns none.
    pub fn new(alloc: Global) -> Findings
        ensures { (number : ℕ) → finding_of result number ≡ None }
    {
        Findings {
            by_number: BTreeMap::new(alloc),
        }
    }

    /// Returns of how many commands something was found.
    pub fn len(&self) -> usize
        ensures { result ≡ btree_map_len self.now.by_number }
    {
        self.by_number.len()
    }

    /// Keeps what was found of the command of that number, in the place of what was found of it
    /// before. The only error is out of memory.
    pub fn keep(&mut self, number: usize, finding: Finding) -> Result<(), AllocError>
        ensures kept { OnOk result (finding_of self.new number ≡ Some finding) }
        ensures others { (other : ℕ) → other ≢ number
            → finding_of self.new other ≡ finding_of self.old other }
    {
        self.by_number.insert(number, finding)?;
        Ok(())
    }

    /// Returns what was found of the command of that number.
    pub(crate) fn of(&self, number: usize) -> Option<&Finding>
        ensures { option_copied result ≡ finding_of self.now number }
    {
        self.by_number.get(&number)
    }
}
