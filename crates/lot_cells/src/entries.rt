ghost use Rattle.std.specs.Prelude.{◌≡◌, ◌++◌, IfOk, OnOk};
ghost use Rattle.std.specs.Char.{encode_utf8};
ghost use Rattle.std.specs.String.{string_bytes};
ghost use Rattle.lot_cells.specs.Entry.{GoesOn, command_html, end_html, entry_html, inside, outside, place_of};
ghost use Rattle.lot_html.specs.Text.{escaped};

use lot_html::{push_character, push_name, push_text};
use lot_plot::push_count;
use lot_report::Entry;
use std::alloc::AllocError;

/// Appends an entry as the journal lists it: its number and its key, and its text, in which what
/// stands in quotes is a name. What the page says with it is the text of the journal, byte for byte.
/// The only error is out of memory.
pub fn push_entry(text: &mut String, entry: &Entry) -> Result<(), AllocError>
    ensures { OnOk result (string_bytes text.new
        ≡ string_bytes text.old ++ entry_html entry.now) }
{
    text.push_str("<i>; entry ")?;
    push_count(text, entry.number)?;
    text.push_str(" key ")?;
    push_text(text, entry.key.source.as_str())?;
    text.push_str(" ")?;
    push_name(text, entry.key.name.as_str())?;
    text.push_str("</i>\n")?;
    push_command(text, entry.body.as_str())
}

/// Where a character of a command stands.
#[derive(Clone, Copy)]
enum Place {
    /// Outside of quotes.
    Outside,
    /// In quotes.
    Inside,
    /// In quotes, behind a backslash.
    Escaped,
}

/// Appends the text of a command, with what stands in quotes in an element of its own.
fn push_command(text: &mut String, body: &str) -> Result<(), AllocError>
    ensures { OnOk result (string_bytes text.new
        ≡ string_bytes text.old ++ command_html outside body.now) }
{
    let mut place = Place::Outside;
    for character in body.chars() {
        place = push_at(text, place, character)?;
    }
    push_end(text, place)
}

/// Appends a character of a command, and returns where the next one stands.
fn push_at(text: &mut String, place: Place, character: char) -> Result<Place, AllocError>
    ensures { IfOk result (λ next. GoesOn (string_bytes text.old) (place_of place)
        (encode_utf8 character) (string_bytes text.new) (place_of next)) }
{
    match place {
        Place::Outside => push_outside(text, character),
        Place::Inside => push_inside(text, character),
        Place::Escaped => push_same(text, character, Place::Inside),
    }
}

/// Appends a character that stands outside of quotes.
fn push_outside(text: &mut String, character: char) -> Result<Place, AllocError>
    ensures { IfOk result (λ next. GoesOn (string_bytes text.old) outside
        (encode_utf8 character) (string_bytes text.new) (place_of next)) }
{
    match character {
        '"' => {
            text.push_str("&quot;<bdi>")?;
            Ok(Place::Inside)
        }
        _ => push_same(text, character, Place::Outside),
    }
}

/// Appends a character that stands in quotes, but not behind a backslash.
fn push_inside(text: &mut String, character: char) -> Result<Place, AllocError>
    ensures { IfOk result (λ next. GoesOn (string_bytes text.old) inside
        (encode_utf8 character) (string_bytes text.new) (place_of next)) }
{
    match character {
        '"' => {
            text.push_str("</bdi>&quot;")?;
            Ok(Place::Outside)
        }
        '\\' => push_same(text, character, Place::Escaped),
        _ => push_same(text, character, Place::Inside),
    }
}

/// Appends a character as it is said, and returns where the next one stands.
fn push_same(text: &mut String, character: char, next: Place) -> Result<Place, AllocError>
    ensures { IfOk result (λ place. (place ≡ next) × (string_bytes text.new
        ≡ string_bytes text.old ++ escaped (encode_utf8 character))) }
{
    push_character(text, character)?;
    Ok(next)
}

/// Appends what is open at the end of a command.
fn push_end(text: &mut String, place: Place) -> Result<(), AllocError>
    ensures { OnOk result (string_bytes text.new
        ≡ string_bytes text.old ++ end_html (place_of place)) }
{
    match place {
        Place::Outside => Ok(()),
        Place::Inside | Place::Escaped => text.push_str("</bdi>"),
    }
}
