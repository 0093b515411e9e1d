ghost use Rattle.std.specs.Prelude.{◌≡◌, ◌≢◌, ℕ, List, Bool};
ghost use Rattle.std.specs.List.{list_all};
ghost use Rattle.lot_base.specs.Name.{components, is_account, is_commodity, is_label, is_label_byte, is_note, is_root, is_component, is_component_byte, is_commodity_byte, is_note_byte};
ghost use Rattle.lot_base.specs.declared.fault.NameFault.{NameFault};
ghost use Rattle.lot_base.specs.declared.fault.NameFault.TheVariants.{BadAccount, BadCommodity, BadLabel, BadNote, Memory};

use crate::fault::NameFault;

/// The longest account, in bytes.
const MAX_ACCOUNT: usize = 128;

/// The longest commodity, in bytes, which are also its characters.
const MAX_COMMODITY: usize = 24;

/// The longest label, in bytes.
const MAX_LABEL: usize = 64;

/// The longest note, in bytes.
const MAX_NOTE: usize = 1_000;

/// The rule of one kind of names. A further kind of names is a further type with this trait.
pub trait Grammar {
    // Whether a list of bytes is a name of this kind.
    ghost is_name: { List ℕ → Bool };

    // The fault of a text that is no such name.
    ghost bad: { NameFault };

    /// Returns whether the text is a name of this kind.
    fn accepts(text: &str) -> bool
        ensures { result ≡ is_name text.now };

    /// Returns the fault of a text that is no name of this kind.
    fn fault() -> NameFault
        ensures { result ≡ bad };

    // The fault of a text isn't out of memory.
    ghost blames_the_text: { bad ≢ Memory };
}

/// The grammar of accounts: at least two components joined by colons, at most `MAX_ACCOUNT` bytes.
///
/// The first component is Assets, Liabilities, Equity, Income or Expenses. Each other one begins with a capital letter or
/// a digit and goes on with letters, digits or dashes, all ASCII. After Beancount, Language Syntax; the bound on the
/// length and ASCII alone are this project's own.
pub struct AccountGrammar;

impl Grammar for AccountGrammar {
    ghost is_name = { is_account };

    ghost bad = { BadAccount };

    ghost blames_the_text = { λ e. Prim.cc };

    #[tactic(auto, unfolding(crate::specs::Name::is_account))]
    fn accepts(text: &str) -> bool {
        text.len() <= MAX_ACCOUNT
            && match text.split_once(':') {
                Some((root, rest)) => is_root(root) && are_components(rest),
                None => false,
            }
    }

    fn fault() -> NameFault {
        NameFault::BadAccount
    }
}

/// Returns whether the text is the first component of an account.
#[tactic(auto, unfolding(crate::specs::Name::is_root))]
fn is_root(text: &str) -> bool
    ensures { result ≡ is_root text.now }
{
    matches!(
        text,
        "Assets" | "Liabilities" | "Equity" | "Income" | "Expenses"
    )
}

/// Returns whether the text is later components of an account, joined by colons.
fn are_components(text: &str) -> bool
    ensures { result ≡ list_all is_component (components text.now) }
{
    text.split(':').all(|part| is_component(part))
}

/// Returns whether the text is a later component of an account.
#[tactic(auto, unfolding(crate::specs::Name::is_component))]
fn is_component(text: &str) -> bool
    ensures { result ≡ is_component text.now }
{
    match text.as_bytes() {
        [first, rest @ ..] => {
            (first.is_ascii_uppercase() || first.is_ascii_digit()) && are_component_bytes(rest)
        }
        [] => false,
    }
}

/// Returns whether each byte may stand in a component of an account.
fn are_component_bytes(bytes: &[u8]) -> bool
    ensures { result ≡ list_all is_component_byte bytes.now }
{
    bytes.iter().all(|b| is_component_byte(*b))
}

/// Returns whether the byte may stand in a component of an account.
fn is_component_byte(b: u8) -> bool
    ensures { result ≡ is_component_byte b }
{
    b.is_ascii_alphanumeric() || b == b'-'
}

/// The grammar of commodities: one character or more, at most `MAX_COMMODITY`.
///
/// The first is a capital letter, the last a capital letter or a digit, and each is a capital letter, a digit or one of
/// `'`, `.`, `_` and `-`. After Beancount, Language Syntax.
pub struct CommodityGrammar;

impl Grammar for CommodityGrammar {
    ghost is_name = { is_commodity };

    ghost bad = { BadCommodity };

    ghost blames_the_text = { λ e. Prim.cc };

    #[tactic(auto, unfolding(crate::specs::Name::is_commodity))]
    fn accepts(text: &str) -> bool {
        let bytes = text.as_bytes();
        let ([first, ..], [.., last]) = (bytes, bytes) else {
            return false;
        };
        bytes.len() <= MAX_COMMODITY
            && are_commodity_bytes(bytes)
            && first.is_ascii_uppercase()
            && (last.is_ascii_uppercase() || last.is_ascii_digit())
    }

    fn fault() -> NameFault {
        NameFault::BadCommodity
    }
}

/// Returns whether each byte may stand in a commodity.
fn are_commodity_bytes(bytes: &[u8]) -> bool
    ensures { result ≡ list_all is_commodity_byte bytes.now }
{
    bytes.iter().all(|b| is_commodity_byte(*b))
}

/// Returns whether the byte may stand in a commodity.
fn is_commodity_byte(b: u8) -> bool
    ensures { result ≡ is_commodity_byte b }
{
    b.is_ascii_uppercase() || b.is_ascii_digit() || matches!(b, b'\'' | b'.' | b'_' | b'-')
}

/// The grammar of labels: one byte of UTF-8 or more, at most `MAX_LABEL`, none of them a control byte (below 32, or 127),
/// a quote or a backslash.
///
/// This project's own.
pub struct LabelGrammar;

impl Grammar for LabelGrammar {
    ghost is_name = { is_label };

    ghost bad = { BadLabel };

    ghost blames_the_text = { λ e. Prim.cc };

    #[tactic(auto, unfolding(crate::specs::Name::is_label))]
    fn accepts(text: &str) -> bool {
        !text.is_empty() && text.len() <= MAX_LABEL && are_label_bytes(text.as_bytes())
    }

    fn fault() -> NameFault {
        NameFault::BadLabel
    }
}

/// Returns whether each byte may stand in a label.
fn are_label_bytes(bytes: &[u8]) -> bool
    ensures { result ≡ list_all is_label_byte bytes.now }
{
    bytes.iter().all(|b| is_label_byte(*b))
}

/// Returns whether the byte may stand in a label.
fn is_label_byte(b: u8) -> bool
    ensures { result ≡ is_label_byte b }
{
    !(b.is_ascii_control() || b == b'"' || b == b'\\')
}

/// The grammar of notes: at most `MAX_NOTE` bytes of UTF-8, none of them a control byte (below 32, or 127) but the tab.
///
/// This project's own.
pub struct NoteGrammar;

impl Grammar for NoteGrammar {
    ghost is_name = { is_note };

    ghost bad = { BadNote };

    ghost blames_the_text = { λ e. Prim.cc };

    #[tactic(auto, unfolding(crate::specs::Name::is_note))]
    fn accepts(text: &str) -> bool {
        text.len() <= MAX_NOTE && are_note_bytes(text.as_bytes())
    }

    fn fault() -> NameFault {
        NameFault::BadNote
    }
}

/// Returns whether each byte may stand in a note.
fn are_note_bytes(bytes: &[u8]) -> bool
    ensures { result ≡ list_all is_note_byte bytes.now }
{
    bytes.iter().all(|b| is_note_byte(*b))
}

/// Returns whether the byte may stand in a note.
fn is_note_byte(b: u8) -> bool
    ensures { result ≡ is_note_byte b }
{
    b == b'\t' || !b.is_ascii_control()
}
