ghost use Rattle.std.specs.Prelude.{◌≡◌, IfOk};

use std::alloc::{AllocError, Global};
use std::marker::Model;
use std::rc::RcStr;

/// A text that a profile or a file has, kept as it was given. Its copies share it. A contract sees it as the list of its bytes.
pub struct Text {
    text: RcStr,
}

impl Model for Text {
    ghost use Rattle.std.specs.Prelude.{ℕ, List};
    ghost use Rattle.std.specs.Rc.{rc_str_bytes};

    ghost Value = { List ℕ };

    ghost view = { λ t. rc_str_bytes t.text };
}

impl Text {
    /// Returns the text. The only error is out of memory.
    pub fn new(alloc: Global, text: &str) -> Result<Text, AllocError>
        ensures { IfOk result (λ made. made ≡ text.now) }
    {
        Ok(Text {
            text: RcStr::from_str(alloc, text)?,
        })
    }

    /// Returns the text as it was given.
    pub fn as_str(&self) -> &str
        ensures { result.now ≡ self.now }
    {
        self.text.as_str()
    }

    /// Returns a copy, which shares the text and takes no memory.
    ///
    /// The only error is `AllocError`, where the copies of a text are more than can be counted.
    pub fn copy(&self) -> Result<Text, AllocError>
        ensures { IfOk result (λ copy. copy ≡ self.now) }
    {
        Ok(Text {
            text: self.text.clone()?,
        })
    }
}

impl Drop for Text {
    /// It is written out, so that callers don't prove again how each part is dropped.
    fn drop(self) {
        let Text { text: _text } = self;
    }
}
