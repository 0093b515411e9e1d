ghost use Rattle.std.specs.Prelude.{◌≡◌, ◌++◌, OnOk};
ghost use Rattle.std.specs.Char.{encode_utf8};
ghost use Rattle.std.specs.String.{string_bytes};
ghost use Rattle.lot_html.specs.Text.{escaped};

use std::alloc::AllocError;

/// Appends what a page says, in an element or in the value of an attribute, so that no byte of it
/// is markup. The only error is out of memory.
pub fn push_text(text: &mut String, said: &str) -> Result<(), AllocError>
    ensures { OnOk result (string_bytes text.new
        ≡ string_bytes text.old ++ escaped said.now) }
{
    for character in said.chars() {
        push_character(text, character)?;
    }
    Ok(())
}

/// Appends a character, by its reference where it would be markup. The only error is out of memory.
pub fn push_character(text: &mut String, character: char) -> Result<(), AllocError>
    ensures { OnOk result (string_bytes text.new
        ≡ string_bytes text.old ++ escaped (encode_utf8 character)) }
{
    match character {
        '&' => text.push_str("&amp;"),
        '<' => text.push_str("&lt;"),
        '>' => text.push_str("&gt;"),
        '"' => text.push_str("&quot;"),
        '\r' => text.push_str("&#13;"),
        _ => text.push(character),
    }
}
