ghost use Rattle.std.specs.Prelude.{◌≡◌, ◌↔◌, ◌⊎◌, false, IsTrue, IfOk, IfErr, IsOk, IsErrOf, Some};
ghost use Rattle.std.proofs.Common.{rules};
ghost use Rattle.std.specs.Cmp.Rules.{comparing, hashing};
ghost use Rattle.std.specs.Cmp.{partial_order_from_own_ties};
ghost use Rattle.std.specs.Ordering.{as_partial_cmp};
ghost use Rattle.std.specs.Hash as fed;
ghost use Rattle.lot_base.specs.Text.{same_text, text_cmp};

use crate::fault::NameFault;
use crate::grammars::{AccountGrammar, CommodityGrammar, Grammar, LabelGrammar, NoteGrammar};
use std::alloc::{AllocError, Global};
use std::cmp::Ordering;
use std::fmt;
use std::hash::{Hash, Hasher};
use std::marker::{Model, PhantomData};
use std::rc::RcStr;

/// An account, as `Assets:Broker`. Its grammar is that of `AccountGrammar`.
pub type Account = Name<AccountGrammar>;

/// A commodity or currency, as `HOOL` or `USD`. Its grammar is that of `CommodityGrammar`.
pub type Commodity = Name<CommodityGrammar>;

/// A label of a lot, given where it is bought. Its grammar is that of `LabelGrammar`.
pub type Label = Name<LabelGrammar>;

/// A note on a transaction, its payee or its narration. Its grammar is that of `NoteGrammar`.
pub type Note = Name<NoteGrammar>;

/// A text of the grammar `G`, kept as it was given. Its copies share the text.
///
/// A contract sees a name as the list of its bytes. Names are equal where their bytes are, and are ordered by them.
pub struct Name<G: Grammar> {
    text: RcStr,
    grammar: PhantomData<G>,
}

impl<G: Grammar> Model for Name<G> {
    ghost use Rattle.std.specs.Prelude.{ℕ, List, IsTrue};
    ghost use Rattle.std.specs.Rc.{rc_str_bytes};

    ghost Value = { List ℕ };

    ghost view = { λ n. rc_str_bytes n.text };

    ghost invariant = { λ n. IsTrue (G.is_name (rc_str_bytes n.text)) };
}

impl<G: Grammar> Name<G> {
    /// Returns the name with that text.
    ///
    /// The error is `BadAccount`, `BadCommodity`, `BadLabel` or `BadNote` exactly where the text isn't of the grammar: each
    /// grammar has its own. Else it is `Memory`, where there is no memory for a copy of the text.
    pub fn new(alloc: Global, text: &str) -> Result<Name<G>, NameFault>
        ensures ok { IfOk result (λ a. a ≡ text.now) }
        ensures good { IsOk result → IsTrue (G.is_name text.now) }
        ensures bad { IsErrOf result G.bad ↔ (G.is_name text.now ≡ false) }
        ensures fault { IfErr result (λ e. (e ≡ G.bad) ⊎ (e ≡ NameFault.Memory)) }
        ensures memory { IsErrOf result NameFault.Memory → IsTrue (G.is_name text.now) }
    {
        if !G::accepts(text) {
            return Err(G::fault());
        }
        Ok(Name {
            text: RcStr::from_str(alloc, text)?,
            grammar: PhantomData,
        })
    }

    /// Returns whether the text is of the grammar, so that there is a name with it.
    pub fn is_name(text: &str) -> bool
        ensures { result ≡ G.is_name text.now }
    {
        G::accepts(text)
    }

    /// Returns the text of the name, which is of the grammar.
    pub fn as_str(&self) -> &str
        ensures value { result.now ≡ self.now }
        ensures grammar { IsTrue (G.is_name self.now) }
    {
        self.text.as_str()
    }

    /// Returns a copy of the name, which shares its text and takes no memory.
    ///
    /// The only error is `AllocError`, where the copies of a text are more than can be counted.
    pub fn copy(&self) -> Result<Name<G>, AllocError>
        ensures { IfOk result (λ a. a ≡ self.now) }
    {
        Ok(Name {
            text: self.text.clone()?,
            grammar: PhantomData,
        })
    }
}

impl<G: Grammar> Drop for Name<G> {
    /// It is written out, so that callers don't prove again how each part is dropped.
    fn drop(self) {
        let Name {
            text: _text,
            grammar: _grammar,
        } = self;
    }
}

impl<G: Grammar> PartialEq for Name<G> {
    ghost eq = { same_text };

    ghost laws = { Prim.search (comparing, rules) };

    fn eq(&self, other: &Name<G>) -> bool {
        self.as_str() == other.as_str()
    }
}

impl<G: Grammar> Eq for Name<G> {
    ghost laws = { Prim.search (comparing, rules) };
}

impl<G: Grammar> PartialOrd for Name<G> {
    ghost partial_cmp = { as_partial_cmp text_cmp };

    ghost laws = { partial_order_from_own_ties (Prim.search (comparing, rules)) (Prim.search (comparing, rules)) };

    fn partial_cmp(&self, other: &Name<G>) -> Option<Ordering> {
        Some(self.cmp(other))
    }
}

impl<G: Grammar> Ord for Name<G> {
    ghost cmp = { text_cmp };

    ghost total = { Prim.search (comparing, rules) };

    ghost matches_partial_cmp = { Prim.search (comparing, rules) };

    ghost matches_eq = { Prim.search (comparing, rules) };

    fn cmp(&self, other: &Name<G>) -> Ordering {
        self.as_str().cmp(other.as_str())
    }
}

impl<G: Grammar> Hash for Name<G> {
    ghost hash_input = { fed.str };

    ghost respects_eq = { Prim.search (hashing, rules) };

    fn hash<H: Hasher>(&self, state: &mut H) {
        self.as_str().hash(state);
    }
}

impl<G: Grammar> fmt::Display for Name<G> {
    ghost output = { λ n. Some n };

    fn fmt<W: fmt::Write>(&self, f: &mut fmt::Formatter<W>) -> fmt::Result {
        fmt::Display::fmt(&self.text, f)
    }
}

impl<G: Grammar> fmt::Debug for Name<G> {
    fn fmt<W: fmt::Write>(&self, f: &mut fmt::Formatter<W>) -> fmt::Result {
        fmt::Debug::fmt(&self.as_str(), f)
    }
}
