//! The commodities that a row says.
ghost use Rattle.std.specs.Prelude.{◌≡◌, Ok, find};
ghost use Rattle.std.specs.Option.{option_map};
ghost use Rattle.lot_base.specs.Text.{same_text};
ghost use Rattle.lot_roles.specs.Names.{as_commodity, commodity_of, meaning, symbol_of, symbol_text_of};
ghost use Rattle.lot_roles.specs.Reading.{Gives};

use crate::fault::RowFault;
use crate::parts::text;
use crate::rules::Rules;
use lot_base::{Commodity, NameFault};
use lot_field::Text;
use lot_profile::{Role, Symbol};
use lot_sheet::Row;
use std::alloc::Global;

/// Returns the commodity that a row says for a role, or `None` where it says nothing.
///
/// The error is `NotCommodity` exactly where the text of the role is no commodity. Else it is `Memory`.
pub fn commodity(
    alloc: Global,
    rules: &Rules,
    row: &Row,
    role: Role,
) -> Result<Option<Commodity>, RowFault>
    ensures { Gives result (commodity_of rules.now row.now role) }
{
    match text(alloc, rules, row, role)? {
        Some(text) => Ok(Some(as_commodity(alloc, text.as_str(), role)?)),
        None => Ok(None),
    }
}

/// Returns the symbol of a row: what the profile says that the text of the role means, or else that text. It is `None` where
/// the row says nothing.
///
/// The error is `NotCommodity` exactly where that is no commodity. Else it is `Memory`.
pub fn symbol(alloc: Global, rules: &Rules, row: &Row) -> Result<Option<Commodity>, RowFault>
    ensures { Gives result (symbol_of rules.now row.now) }
{
    match symbol_text(alloc, rules, row)? {
        Some(text) => Ok(Some(as_commodity(alloc, text.as_str(), Role::Symbol)?)),
        None => Ok(None),
    }
}

/// Returns the same as a text, commodity or not. The only error is `Memory`.
pub fn symbol_text(alloc: Global, rules: &Rules, row: &Row) -> Result<Option<Text>, RowFault>
    ensures { Gives result (Ok (symbol_text_of rules.now row.now)) }
{
    match text(alloc, rules, row, Role::Symbol)? {
        Some(text) => {
            let meaning = meaning(rules.profile.symbols.as_slice(), text.as_str());
            Ok(Some(Text::new(alloc, meaning)?))
        }
        None => Ok(None),
    }
}

/// Returns what a text of the column `symbol` means.
fn meaning<'a>(symbols: &'a [Symbol], text: &'a str) -> &'a str
    ensures { result.now ≡ meaning symbols.now text.now }
{
    match named_symbol(symbols, text) {
        Some(symbol) => symbol.commodity.as_str(),
        None => text,
    }
}

/// Returns the symbol that says what a text means, if one does.
fn named_symbol<'a>(symbols: &'a [Symbol], text: &str) -> Option<&'a Symbol>
    ensures { option_map (λ symbol. symbol.now) result
        ≡ find (λ symbol. same_text symbol.field text.now) symbols.now }
{
    symbols.iter().find(|symbol| is_named(symbol, text))
}

/// Returns whether a symbol says what a text means.
fn is_named(symbol: &Symbol, text: &str) -> bool
    ensures { result ≡ same_text symbol.now.field text.now }
{
    symbol.field.as_str() == text
}

/// Returns a text of a role as a commodity.
fn as_commodity(alloc: Global, text: &str, role: Role) -> Result<Commodity, RowFault>
    ensures { Gives result (as_commodity role text.now) }
{
    match Commodity::new(alloc, text) {
        Ok(commodity) => Ok(commodity),
        Err(NameFault::Memory) => Err(RowFault::Memory),
        Err(_) => Err(RowFault::NotCommodity(role)),
    }
}
