//! Names and notes that were kept before, of which a further one shares the text.
ghost use Rattle.std.specs.Prelude.{◌≡◌, ◌<◌, IfOk, IfSome, IsTrue};

use crate::name::out_of_memory;
use lot_base::{AccountGrammar, CommodityGrammar, Grammar, LabelGrammar, Name, NoteGrammar};
use std::alloc::{AllocError, Global};

/// How many names of one grammar are known at most.
const PLACES: usize = 32;

/// Names that were kept before, and the memory for further ones. A name that is known takes none.
#[derive(Drop)]
pub struct KnownNames {
    pub(crate) alloc: Global,
    pub(crate) accounts: Known<AccountGrammar>,
    pub(crate) commodities: Known<CommodityGrammar>,
    pub(crate) labels: Known<LabelGrammar>,
    pub(crate) notes: Known<NoteGrammar>,
}

impl KnownNames {
    /// Returns no names.
    pub fn new(alloc: Global) -> KnownNames {
        KnownNames {
            alloc,
            accounts: Known::new(alloc),
            commodities: Known::new(alloc),
            labels: Known::new(alloc),
            notes: Known::new(alloc),
        }
    }
}

/// Names of the grammar `G`, each at the place of its text.
#[derive(Drop)]
pub(crate) struct Known<G: Grammar> {
    alloc: Global,
    names: [Option<Name<G>>; PLACES],
}

impl<G: Grammar> Known<G> {
    fn new(alloc: Global) -> Known<G> {
        Known {
            alloc,
            names: Default::default(),
        }
    }

    /// Returns a copy of the known name with that text, or none where no such name is known.
    pub(crate) fn find(&self, text: &str) -> Option<Name<G>>
        ensures name { IfSome result (λ name. name ≡ text.now) }
        ensures grammar { IfSome result (λ _. IsTrue (G.is_name text.now)) }
    {
        if let Some(name) = &self.names[place_of(text)]
            && name.as_str() == text
        {
            return name.copy().ok();
        }
        None
    }

    /// Returns the name with that text, which is of the grammar. The only error is out of memory.
    pub(crate) fn keep(&mut self, text: &str) -> Result<Name<G>, AllocError>
        requires { IsTrue (G.is_name text.now) }
        ensures { IfOk result (λ name. name ≡ text.now) }
    {
        if let Some(name) = self.find(text) {
            return Ok(name);
        }
        let name = Name::new(self.alloc, text).map_err(out_of_memory)?;
        self.names[place_of(text)] = name.copy().ok();
        Ok(name)
    }
}

/// Returns the place of a text.
fn place_of(text: &str) -> usize
    ensures { result < 32 }
{
    let mut sum = 0usize;
    for b in text.as_bytes() {
        sum = sum.wrapping_mul(31).wrapping_add(usize::from(*b));
    }
    sum % PLACES
}
