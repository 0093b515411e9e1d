//! All that a profile may say, as it is explained.
ghost use Rattle.std.specs.Prelude.{◌≡◌, ◌++◌, map, IfOk, OnOk};
ghost use Rattle.std.specs.List.{flat_map};
ghost use Rattle.std.specs.String.{string_bytes};
ghost use Rattle.lot_profile_text.specs.Explained.{accounts_explained, entry_text, explained, kind_text, kinds_explained, need_text, next_word, note_text, plain_words, roles_explained, section_text, under, words_explained};

use crate::entry::{Entry, Need};
use crate::keys::Section;
use crate::needs::{accounts_needed, roles_needed};
use crate::said::{push_all, push_form};
use crate::word::Word;
use lot_profile::{AccountRole, Kind, Role};
use std::alloc::{AllocError, Global};

/// Returns all that the sections of a profile may say, for `lotbook explain profile`, which passes `SECTIONS` and `NOTES`: section by
/// section each key, what it says, what has to stand there, and what is meant where nothing does; then the roles, the accounts, and
/// what each kind needs; then the notes. Each line has its end. The only error is out of memory.
#[tactic(auto, unfolding(crate::specs::Explained::explained))]
pub fn explain_profile(
    alloc: Global,
    sections: &[Section],
    notes: &[&str],
) -> Result<String, AllocError>
    ensures { IfOk result (λ text.
        string_bytes text ≡ explained sections.now (map (λ note. note.now) notes.now)) }
{
    let mut text = String::new(alloc);
    push_sections(&mut text, sections)?;
    push_all_words(&mut text)?;
    push_notes(&mut text, notes)?;
    Ok(text)
}

/// Appends notes, a line each. The only error is out of memory.
fn push_notes(text: &mut String, notes: &[&str]) -> Result<(), AllocError>
    ensures { OnOk result (string_bytes text.new
        ≡ string_bytes text.old ++ flat_map note_text (map (λ note. note.now) notes.now)) }
{
    for note in notes {
        push_all(text, &[*note, "\n"])?;
    }
    Ok(())
}

/// Appends what sections may say. The only error is out of memory.
fn push_sections(text: &mut String, sections: &[Section]) -> Result<(), AllocError>
    ensures { OnOk result (string_bytes text.new
        ≡ string_bytes text.old ++ flat_map section_text sections.now) }
{
    for section in sections {
        push_section(text, section)?;
    }
    Ok(())
}

/// Appends what a section may say. The only error is out of memory.
#[tactic(auto, unfolding(crate::specs::Explained::section_text))]
fn push_section(text: &mut String, section: &Section) -> Result<(), AllocError>
    ensures { OnOk result (string_bytes text.new
        ≡ string_bytes text.old ++ section_text section.now) }
{
    text.push_str(section.says)?;
    push_under(text, section.key)?;
    push_entries(text, section.entries)?;
    text.push_str("\n")
}

/// Appends under which key a section stands. The only error is out of memory.
fn push_under(text: &mut String, key: &str) -> Result<(), AllocError>
    ensures { OnOk result (string_bytes text.new ≡ string_bytes text.old ++ under key.now) }
{
    if key.is_empty() {
        return text.push_str(":\n");
    }
    push_all(text, &[", under ", key, ":\n"])
}

/// Appends what may stand under keys. The only error is out of memory.
fn push_entries(text: &mut String, entries: &[Entry]) -> Result<(), AllocError>
    ensures { OnOk result (string_bytes text.new
        ≡ string_bytes text.old ++ flat_map entry_text entries.now) }
{
    for entry in entries {
        push_entry(text, entry)?;
    }
    Ok(())
}

/// Appends what may stand under a key. The only error is out of memory.
#[tactic(auto, unfolding(crate::specs::Explained::entry_text))]
fn push_entry(text: &mut String, entry: &Entry) -> Result<(), AllocError>
    ensures { OnOk result (string_bytes text.new
        ≡ string_bytes text.old ++ entry_text entry.now) }
{
    push_all(text, &["  ", entry.key, ": ", entry.says, "\n    "])?;
    push_form(text, entry.form)?;
    push_need(text, entry.need)
}

/// Appends what is meant where nothing stands under a key. The only error is out of memory.
#[tactic(auto, unfolding(crate::specs::Explained::need_text))]
fn push_need(text: &mut String, need: Need) -> Result<(), AllocError>
    ensures { OnOk result (string_bytes text.new ≡ string_bytes text.old ++ need_text need) }
{
    match need {
        Need::Required => text.push_str("; required\n"),
        Need::Text(meant) => push_all(text, &["; without it \"", meant, "\"\n"]),
        Need::EmptyText => text.push_str("; without it [\"\"]\n"),
        Need::EmptyList => text.push_str("; without it []\n"),
        Need::EmptyTable => text.push_str("; without it {}\n"),
        Need::Optional => text.push_str("; optional\n"),
    }
}

// ---- Words.

/// Appends the words that are keys, and what each kind needs. The only error is out of memory.
#[tactic(auto, unfolding(crate::specs::Explained::words_explained))]
fn push_all_words(text: &mut String) -> Result<(), AllocError>
    ensures { OnOk result (string_bytes text.new ≡ string_bytes text.old ++ words_explained) }
{
    text.push_str("Roles, the keys of columns: ")?;
    push_roles(text)?;
    text.push_str("\nAccounts, the keys of accounts: ")?;
    push_accounts(text)?;
    text.push_str("\nKinds, and what each needs:\n")?;
    push_all_kinds(text)
}

/// Appends all roles. The only error is out of memory.
fn push_roles(text: &mut String) -> Result<(), AllocError>
    ensures { OnOk result (string_bytes text.new ≡ string_bytes text.old ++ roles_explained) }
{
    push_each::<Role>(text)
}

/// Appends what all accounts are for. The only error is out of memory.
fn push_accounts(text: &mut String) -> Result<(), AllocError>
    ensures { OnOk result (string_bytes text.new ≡ string_bytes text.old ++ accounts_explained) }
{
    push_each::<AccountRole>(text)
}

/// Appends all words of a kind, with commas between. The only error is out of memory.
fn push_each<W: Word>(text: &mut String) -> Result<(), AllocError>
    ensures { OnOk result (string_bytes text.new
        ≡ string_bytes text.old ++ plain_words W.word W.all) }
{
    push_plain(text, W::all())
}

/// Appends what all kinds need. The only error is out of memory.
fn push_all_kinds(text: &mut String) -> Result<(), AllocError>
    ensures { OnOk result (string_bytes text.new ≡ string_bytes text.old ++ kinds_explained) }
{
    push_kinds(text, Kind::all())
}

/// Appends what kinds need. The only error is out of memory.
fn push_kinds(text: &mut String, kinds: &[Kind]) -> Result<(), AllocError>
    ensures { OnOk result (string_bytes text.new
        ≡ string_bytes text.old ++ flat_map kind_text kinds.now) }
{
    for kind in kinds {
        push_kind(text, *kind)?;
    }
    Ok(())
}

/// Appends what a kind needs. The only error is out of memory.
#[tactic(auto, unfolding(crate::specs::Explained::kind_text))]
fn push_kind(text: &mut String, kind: Kind) -> Result<(), AllocError>
    ensures { OnOk result (string_bytes text.new ≡ string_bytes text.old ++ kind_text kind) }
{
    push_all(text, &["  ", kind.word(), ": "])?;
    push_plain(text, roles_needed(kind))?;
    text.push_str("; accounts ")?;
    push_plain(text, accounts_needed(kind))?;
    text.push_str("\n")
}

/// Appends words, with commas between. The only error is out of memory.
fn push_plain<W: Word>(text: &mut String, words: &[W]) -> Result<(), AllocError>
    ensures { OnOk result (string_bytes text.new
        ≡ string_bytes text.old ++ plain_words W.word words.now) }
{
    let [first, more @ ..] = words else {
        return text.push_str("none");
    };
    text.push_str(first.word())?;
    push_next(text, more)
}

/// Appends words behind another. The only error is out of memory.
fn push_next<W: Word>(text: &mut String, more: &[W]) -> Result<(), AllocError>
    ensures { OnOk result (string_bytes text.new
        ≡ string_bytes text.old ++ flat_map (next_word W.word) more.now) }
{
    for value in more {
        push_all(text, &[", ", value.word()])?;
    }
    Ok(())
}
