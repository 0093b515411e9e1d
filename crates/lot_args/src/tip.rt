ghost use Rattle.std.specs.Prelude.{◌≡◌, codes, map, option_map};
ghost use Rattle.std.specs.String.{string_bytes};
ghost use Rattle.std.specs.List.{list_any};
ghost use Rattle.lot_args.specs.Tip.{gives, given_for, is_plain, meant_by, subcommand_in, tip_for};
ghost use Rattle.lot_args.specs.Tip.{tip_of};

use std::fmt;

/// An option that a subcommand has under another name.
#[derive(Clone, Copy)]
pub enum Tip {
    /// `--last` in place of `--as-of`: of a report of a range of days.
    Last,
    /// `--as-of` in place of `--last`: of a report of what is held at the end of a day.
    AsOf,
    /// `--gains` in place of `--sales`: of `post`.
    Gains,
}

impl Tip {
    /// Returns the option that the subcommand has, with its dashes.
    pub fn meant(self) -> &'static str
        ensures { result.now ≡ meant_by self }
    {
        match self {
            Tip::Last => "--last",
            Tip::AsOf => "--as-of",
            Tip::Gains => "--gains",
        }
    }

    /// Returns the option in place of which it stands, with its dashes.
    pub fn given(self) -> &'static str
        ensures { result.now ≡ given_for self }
    {
        match self {
            Tip::Last => "--as-of",
            Tip::AsOf => "--last",
            Tip::Gains => "--sales",
        }
    }

    /// Returns whether an argument gives that option, alone or with a value behind an equals sign.
    fn is_given_by(self, word: &str) -> bool
        ensures { result ≡ gives (given_for self) word.now }
    {
        match self {
            Tip::Last => word == "--as-of" || word.as_bytes().starts_with(b"--as-of="),
            Tip::AsOf => word == "--last" || word.as_bytes().starts_with(b"--last="),
            Tip::Gains => word == "--sales" || word.as_bytes().starts_with(b"--sales="),
        }
    }
}

impl fmt::Display for Tip {
    ghost use Rattle.std.specs.Prelude.{Some};
    ghost use Rattle.lot_args.specs.Tip.{tip_text};

    ghost output = { λ tip. Some (tip_text tip) };

    /// Writes which option stands in place of which.
    fn fmt<W: fmt::Write>(&self, f: &mut fmt::Formatter<W>) -> Result<(), fmt::Error> {
        let (meant, given) = (self.meant(), self.given());
        write!(f, "'{meant}' stands here in place of '{given}'")
    }
}

/// Returns the option that the subcommand has under another name than it is given by these arguments, where that is so. The first
/// argument is the program's name.
pub fn tip_for(words: &[String]) -> Option<Tip>
    ensures { result ≡ tip_for (map string_bytes words.now) }
{
    let tip = tip_of(subcommand_in(words)?)?;
    if is_given(words, tip) {
        Some(tip)
    } else {
        None
    }
}

/// Returns the first argument behind the program's name that is no option.
fn subcommand_in(words: &[String]) -> Option<&str>
    ensures { option_map (λ word. word.now) result ≡ subcommand_in (map string_bytes words.now) }
{
    text_of(words.iter().skip(1).find(|word| is_plain(word.as_str())))
}

/// Returns an argument as a text, where there is one.
fn text_of<'a>(word: Option<&'a String>) -> Option<&'a str>
    ensures { option_map (λ text. text.now) result
        ≡ option_map (λ text. string_bytes text.now) word.entry }
{
    match word {
        Some(word) => Some(word.as_str()),
        None => None,
    }
}

/// Returns whether an argument is no option.
fn is_plain(word: &str) -> bool
    ensures { result ≡ is_plain word.now }
{
    !word.as_bytes().starts_with(b"-")
}

/// Returns which option of a subcommand has another name elsewhere, where one has.
fn tip_of(word: &str) -> Option<Tip>
    ensures { result ≡ tip_of word.now }
{
    match word {
        "page" | "gains" | "register" | "activity" => Some(Tip::Last),
        "holdings" | "reconcile" => Some(Tip::AsOf),
        "post" => Some(Tip::Gains),
        _ => None,
    }
}

/// Returns whether one of the arguments gives the option in place of which another one stands.
fn is_given(words: &[String], tip: Tip) -> bool
    ensures { result ≡ list_any (gives (given_for tip)) (map string_bytes words.now) }
{
    words.iter().any(|word| tip.is_given_by(word.as_str()))
}
