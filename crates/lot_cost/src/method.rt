ghost use Rattle.std.specs.Prelude.{◌≡◌, ◌↔◌, Some};
ghost use Rattle.lot_cost.specs.declared.method.Method.{Method};
ghost use Rattle.lot_cost.specs.Method.{word_of};

/// How a posting chooses the lots that it takes among those that fit.
///
/// STRICT, FIFO and LIFO are Beancount's. HIFO is this project's own, and so is what NONE does.
#[derive(Clone, Copy, Debug, PartialEq, Eq)]
pub enum Method {
    /// STRICT: the one lot that fits, or all of several, each whole.
    Strict,
    /// FIFO: the oldest lots first.
    Fifo,
    /// LIFO: the newest lots first.
    Lifo,
    /// HIFO: the lots of the highest cost first.
    Hifo,
    /// NONE: no lot is ever taken. Each posting opens a lot or adds to one.
    Unmatched,
}

impl Method {
    /// Returns the method's word, in capitals: STRICT, FIFO, LIFO, HIFO or NONE.
    pub fn name(self) -> &'static str
        ensures { result.now ≡ word_of self }
    {
        match self {
            Method::Strict => "STRICT",
            Method::Fifo => "FIFO",
            Method::Lifo => "LIFO",
            Method::Hifo => "HIFO",
            Method::Unmatched => "NONE",
        }
    }

    /// Returns the method of that word, or `None` for every other text. A word in small letters is another text.
    pub fn from_name(name: &str) -> Option<Method>
        ensures { (method : Method) → result ≡ Some method ↔ name.now ≡ word_of method }
    {
        match name {
            "STRICT" => Some(Method::Strict),
            "FIFO" => Some(Method::Fifo),
            "LIFO" => Some(Method::Lifo),
            "HIFO" => Some(Method::Hifo),
            "NONE" => Some(Method::Unmatched),
            _ => None,
        }
    }
}
