//! What hears the text of each entry that is written.
ghost use Rattle.std.specs.Prelude.{◌++◌, ⊤, ℕ, List, flat_map};
ghost use Rattle.lot_report.specs.Journal.{entry_text};
ghost use Rattle.sha2.specs.Hashers.{Holds256};

use itoa::Buffer;
use lot_report::Entry;
use sha2::{Digest, Sha256};

/// What hears the text of each entry that is written.
pub(crate) trait Hear {
    // It has heard this text so far.
    ghost has_heard: { Self → List ℕ → Type 0 };

    /// Hears the text of one more entry.
    fn hear(&mut self, entry: &Entry)
        ensures { (text : List ℕ) → has_heard self.old text
            → has_heard self.new (text ++ entry_text entry.now) };
}

/// Nobody hears anything.
#[derive(Drop)]
pub(crate) struct Nobody {}

impl Hear for Nobody {
    ghost has_heard = { λ _ _. ⊤ };

    fn hear(&mut self, _entry: &Entry) {}
}

/// The text becomes part of the message that is hashed.
impl Hear for Sha256 {
    ghost has_heard = { Holds256 };

    fn hear(&mut self, entry: &Entry) {
        let mut digits = Buffer::new();
        let texts = [
            "; entry ",
            digits.format(entry.number),
            " key ",
            entry.key.source.as_str(),
            " ",
            entry.key.name.as_str(),
            "\n",
            entry.body.as_str(),
        ];
        add_texts(self, &texts);
    }
}

/// Adds texts to the message that is hashed, one behind another.
pub(crate) fn add_texts(hasher: &mut Sha256, texts: &[&str])
    ensures { (message : List ℕ) → Holds256 hasher.old message
        → Holds256 hasher.new (message ++ flat_map (λ text. text.now) texts.now) }
{
    for text in texts {
        hasher.update(*text);
    }
}
