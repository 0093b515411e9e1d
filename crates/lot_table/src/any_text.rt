ghost use Rattle.std.specs.Prelude.{◌≡◌, IsUtf8};
ghost use Rattle.std.specs.String.{string_bytes};

use std::marker::Model;

/// A text of UTF-8. A contract sees its bytes.
#[derive(Debug)]
pub struct AnyText {
    text: String,
}

impl Model for AnyText {
    ghost use Rattle.std.specs.Prelude.{ℕ, List};
    ghost use Rattle.std.specs.String.{string_bytes};

    ghost Value = { List ℕ };

    ghost view = { λ t. string_bytes t.text };
}

impl AnyText {
    /// Returns the text of that string.
    pub fn new(text: String) -> AnyText
        ensures { result ≡ string_bytes text }
    {
        AnyText { text }
    }

    /// Returns the text.
    pub fn as_str(&self) -> &str
        ensures { result.now ≡ self.now }
    {
        self.text.as_str()
    }
}

impl Drop for AnyText {
    /// It is written out, so that callers don't prove again how each part is dropped.
    fn drop(self) {
        let AnyText { text: _text } = self;
    }
}
