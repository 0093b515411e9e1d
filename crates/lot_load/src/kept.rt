ghost use Rattle.std.specs.Prelude.{◌≡◌, ◌<◌, [], ◌∷◌, ◌++◌, IfOk, List, Some, length, option_map};
ghost use Rattle.std.specs.String.{string_bytes};
ghost use Rattle.lot_book.specs.Book.{IsBook, entry_of};
ghost use Rattle.lot_book.specs.Change.{IsAcceptedUnder};
ghost use Rattle.lot_book.specs.Edition.{Edition};
ghost use Rattle.lot_book.specs.Facts.{Entry};
ghost use Rattle.lot_book.specs.Openings.{AgreesWithOpenings, facts_with_openings, ties_for};
ghost use Rattle.lot_book.specs.Refusals.{most_entries};
ghost use Rattle.lot_command.specs.declared.key.Key.{Key};
ghost use Rattle.lot_load.specs.Kept.{Keeps, seen, seen_with_openings};
ghost use Rattle.lot_load.specs.Known.{turned_to};
ghost use Rattle.lot_load.specs.Paired.{whole_pairs};

use lot_book::Change;
use lot_command::Command;
use lot_view::{Touched, View};
use std::alloc::{AllocError, Global};
use std::collections::BTreeSet;

/// What is known of a book between commands: a view, and which things it knows whole. The view holds nothing but what the book
/// says. Of a thing known whole it knows all that the book says.
///
/// It grows with the accounts and commodities that the commands touch, and with what is held there.
#[derive(Drop)]
pub struct Kept {
    pub(crate) view: View,
    /// What the view knows whole.
    pub(crate) whole: Touched,
}

impl Kept {
    /// Returns what is known of a book with so many entries, of which nothing else is known.
    pub(crate) fn new(alloc: Global, entries: u32) -> Kept
        ensures keeps { (book : List Entry) → entries ≡ length book → Keeps result book }
        ensures none { whole_pairs (Some result) ≡ [] }
    {
        let whole = Touched {
            accounts: BTreeSet::new(alloc),
            declared: BTreeSet::new(alloc),
            pairs: BTreeSet::new(alloc),
            plain: BTreeSet::new(alloc),
        };
        Kept {
            view: View::new(alloc, entries),
            whole,
        }
    }

    /// Puts the text that stands under the next command's key, or that there is none.
    pub(crate) fn turn_to(&mut self, text: Option<String>)
        ensures seen { seen self.new ≡ turned_to (option_map string_bytes text) (seen self.old) }
        ensures openings { (seen_with_openings self.new).opening
            ≡ (seen_with_openings self.old).opening }
        ensures whole { self.new.whole ≡ self.old.whole }
    {
        match text {
            Some(text) => self.view.put_text(text),
            None => self.view.clear_text(),
        }
    }

    /// Returns the view, to judge a command on.
    pub fn view(&self) -> &View
        ensures { result.now ≡ self.now.view }
    {
        &self.view
    }

    /// Records a command that an edition accepts, and what it changes. The error is out of memory, and what was known is then
    /// lost.
    pub fn record(self, command: &Command, change: &Change) -> Result<Kept, AllocError>
        requires { (seen self).entries < most_entries }
        ensures keeps { IfOk result (λ after. (edition : Edition) (entries : List Entry) (key : Key)
            → IsBook entries → Keeps self entries
            → AgreesWithOpenings (seen_with_openings self) (facts_with_openings entries key)
            command.now
            → IsAcceptedUnder (ties_for edition (seen_with_openings self)) (seen self)
            command.now change.now
            → Keeps after (entries ++ entry_of key command.now change.now.legs ∷ [])) }
        // Of no further pair all is known then.
        ensures whole { IfOk result (λ after.
            whole_pairs (Some after) ≡ whole_pairs (Some self)) }
    {
        let Kept { view, whole } = self;
        let view = view.record(command, change)?;
        Ok(Kept { view, whole })
    }
}
