ghost use Rattle.std.specs.Prelude.{◌≡◌, ◌++◌, [], codes, map, OnOk};
ghost use Rattle.std.specs.String.{string_bytes};
ghost use Rattle.lot_html.specs.Html.{attributes_text, close_tag, element_text, open_tag};

use crate::text::push_text;
use std::alloc::AllocError;

/// Appends the tag that opens an element, with its attributes. The only error is out of memory.
pub fn push_open(
    text: &mut String,
    tag: &str,
    attributes: &[(&str, &str)],
) -> Result<(), AllocError>
    ensures { OnOk result (string_bytes text.new ≡ string_bytes text.old
        ++ open_tag tag.now (map (λ pair. (pair.0.now, pair.1.now)) attributes.now)) }
{
    text.push_str("<")?;
    text.push_str(tag)?;
    push_attributes(text, attributes)?;
    text.push_str(">")
}

/// Appends attributes, each behind a space. The only error is out of memory.
fn push_attributes(text: &mut String, attributes: &[(&str, &str)]) -> Result<(), AllocError>
    ensures { OnOk result (string_bytes text.new ≡ string_bytes text.old
        ++ attributes_text (map (λ pair. (pair.0.now, pair.1.now)) attributes.now)) }
{
    for (name, value) in attributes {
        text.push_str(" ")?;
        text.push_str(name)?;
        text.push_str("=\"")?;
        push_text(text, value)?;
        text.push_str("\"")?;
    }
    Ok(())
}

/// Appends the tag that closes an element. The only error is out of memory.
pub fn push_close(text: &mut String, tag: &str) -> Result<(), AllocError>
    ensures { OnOk result (string_bytes text.new
        ≡ string_bytes text.old ++ close_tag tag.now) }
{
    text.push_str("</")?;
    text.push_str(tag)?;
    text.push_str(">")
}

/// Appends an element that holds a text and nothing else. The only error is out of memory.
pub fn push_said(
    text: &mut String,
    tag: &str,
    attributes: &[(&str, &str)],
    said: &str,
) -> Result<(), AllocError>
    ensures { OnOk result (string_bytes text.new ≡ string_bytes text.old
        ++ element_text tag.now (map (λ pair. (pair.0.now, pair.1.now)) attributes.now)
        said.now) }
{
    push_open(text, tag, attributes)?;
    push_text(text, said)?;
    push_close(text, tag)
}

/// Appends a name, in an element of its own, so that its direction of writing stays its own. The
/// only error is out of memory.
pub fn push_name(text: &mut String, name: &str) -> Result<(), AllocError>
    ensures { OnOk result (string_bytes text.new
        ≡ string_bytes text.old ++ element_text (codes "bdi") [] name.now) }
{
    push_said(text, "bdi", &[], name)
}
