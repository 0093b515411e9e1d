//! Parts that are names. What they mean isn't kept yet.
ghost use Rattle.std.specs.Prelude.{◌≡◌, false, ℕ, List, IfErr, IfOk, IsTrue};
ghost use Rattle.lot_base.specs.Name.{is_account, is_commodity, is_label};
ghost use Rattle.lot_base.specs.declared.fault.NameFault.TheVariants.{Memory};
ghost use Rattle.lot_read.specs.declared.fault.ValueFault.TheVariants.{BadName};
ghost use Rattle.lot_read.specs.Meaning.{Item, Names, Quotes, account_item, commodity_item, label_item};
ghost use Rattle.lot_read.specs.NameLaws.{account_outside, commodity_outside, label_is_quoted, label_outside, names_itself};
ghost use Rattle.lot_read.specs.Outside.{IsOutside};

use crate::fault::ValueFault;
use crate::known::Known;
use lot_base::{AccountGrammar, CommodityGrammar, Grammar, LabelGrammar, Name, NameFault};
use std::alloc::AllocError;
use std::marker::Model;

/// A part that is an account.
pub(crate) type AccountPart<'a> = NamePart<'a, AccountGrammar>;

/// A part that is a commodity.
pub(crate) type CommodityPart<'a> = NamePart<'a, CommodityGrammar>;

/// A part that is a label.
pub(crate) type LabelPart<'a> = NamePart<'a, LabelGrammar>;

/// A grammar whose names are parts of lines.
pub(crate) trait PartGrammar: Grammar {
    // What a part means as such a name.
    ghost Means: { List ℕ → List ℕ → Type 0 };

    // The part, as such a name.
    ghost item: { List ℕ → Item };

    // A part of the grammar means the name with its text.
    ghost as_it_stands: { (part : List ℕ) → IsTrue (Self.is_name part) → Means part part };

    // Any other part means none.
    ghost outside: { (part : List ℕ) → Self.is_name part ≡ false → IsOutside (item part) BadName };
}

impl PartGrammar for AccountGrammar {
    ghost Means = { Names is_account };

    ghost item = { account_item };

    ghost as_it_stands = { names_itself is_account };

    ghost outside = { account_outside };
}

impl PartGrammar for CommodityGrammar {
    ghost Means = { Names is_commodity };

    ghost item = { commodity_item };

    ghost as_it_stands = { names_itself is_commodity };

    ghost outside = { commodity_outside };
}

impl PartGrammar for LabelGrammar {
    ghost Means = { Quotes is_label };

    ghost item = { label_item };

    ghost as_it_stands = { label_is_quoted };

    ghost outside = { label_outside };
}

/// A part that is a name of the grammar `G`.
#[derive(Drop)]
pub(crate) struct NamePart<'a, G: Grammar> {
    text: &'a str,
    /// A copy of the name, where it is known.
    known: Option<Name<G>>,
}

impl<'a, G: Grammar> Model for NamePart<'a, G> {
    ghost use Rattle.std.specs.Prelude.{ℕ, List, IsTrue, IfSome, ◌≡◌};

    ghost Value = { List ℕ };

    ghost view = { λ p. p.text.now };

    ghost invariant = { λ p. IsTrue (G.is_name p.text.now)
        × IfSome p.known (λ name. name ≡ p.text.now) };
}

impl<'a, G: PartGrammar> NamePart<'a, G> {
    /// Returns the name that a part means. The error is `BadName`, exactly where it means none.
    pub(crate) fn new(known: &Known<G>, part: &'a str) -> Result<NamePart<'a, G>, ValueFault>
        ensures means { IfOk result (λ name. G.Means part.now name) }
        ensures outside { IfErr result (λ fault. IsOutside (G.item part.now) fault) }
    {
        match known.find(part) {
            Some(name) => Ok(NamePart {
                text: part,
                known: Some(name),
            }),
            None => NamePart::unknown(part),
        }
    }

    /// Returns the same of a part that is no known name.
    fn unknown(part: &'a str) -> Result<NamePart<'a, G>, ValueFault>
        ensures means { IfOk result (λ name. G.Means part.now name) }
        ensures outside { IfErr result (λ fault. IsOutside (G.item part.now) fault) }
    {
        if !G::accepts(part) {
            return Err(ValueFault::BadName);
        }
        Ok(NamePart {
            text: part,
            known: None,
        })
    }

    /// Returns the name, which is kept. The only error is out of memory.
    pub(crate) fn keep(&self, known: &mut Known<G>) -> Result<Name<G>, AllocError>
        ensures { IfOk result (λ name. name ≡ self.now) }
    {
        match &self.known {
            Some(name) => name.copy(),
            None => known.keep(self.text),
        }
    }
}

/// Returns the error of a name whose text is of its grammar.
pub(crate) fn out_of_memory(_fault: NameFault) -> AllocError
    requires { _fault ≡ Memory }
{
    AllocError
}
