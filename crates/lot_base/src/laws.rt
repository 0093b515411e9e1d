//! Laws of the definitions that the contracts of this crate cite, and of its types. Each law is the contract of a
//! function that does nothing, or that returns what the law is about.
ghost use Rattle.std.specs.Prelude.{◌≡◌, IsTrue};
ghost use Rattle.lot_base.specs.Day.{TextIsOfTheDate, TextReadsBack};
ghost use Rattle.lot_base.specs.Name.{is_account, is_commodity, is_label, is_note};
ghost use Rattle.lot_base.specs.declared.fault.NameFault.TheVariants.{BadAccount, BadCommodity, BadLabel, BadNote};

use crate::grammars::{AccountGrammar, CommodityGrammar, Grammar, LabelGrammar, NoteGrammar};
use crate::{Account, Commodity, Label, NameFault, Note};

/// Each kind of name has a grammar of its own.
pub fn names_are_of_their_grammars(
    account: &Account,
    commodity: &Commodity,
    label: &Label,
    note: &Note,
)
    ensures account { IsTrue (is_account account.now) }
    ensures commodity { IsTrue (is_commodity commodity.now) }
    ensures label { IsTrue (is_label label.now) }
    ensures note { IsTrue (is_note note.now) }
{
    account.as_str();
    commodity.as_str();
    label.as_str();
    note.as_str();
}

/// Returns the faults of the grammars of accounts, commodities, labels and notes. Each grammar has its own.
pub fn faults_of_the_grammars() -> (NameFault, NameFault, NameFault, NameFault)
    ensures { result ≡ (BadAccount, BadCommodity, BadLabel, BadNote) }
{
    (
        AccountGrammar::fault(),
        CommodityGrammar::fault(),
        LabelGrammar::fault(),
        NoteGrammar::fault(),
    )
}

/// The text of a day is the text of its date.
pub fn day_text_is_of_the_date()
    ensures { TextIsOfTheDate }
{}

/// The text of a day names that day.
pub fn day_text_reads_back()
    ensures { TextReadsBack }
{}
