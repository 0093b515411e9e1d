ghost use Rattle.std.specs.Prelude.{◌≡◌, ◌≤◌, ℕ, List, [], ◌∷◌, length, map, option_map, IfErr, IfOk, IsErrOf};
ghost use Rattle.lot_command.specs.Currencies.{most_currencies};
ghost use Rattle.lot_syntax.specs.Form.{opening, closing, declaring, quoting, transaction};
ghost use Rattle.lot_syntax.specs.Header.{directive_seen, notes_seen, seen_text};
ghost use Rattle.lot_read.specs.declared.fault.MeaningFault.TheVariants.{Memory, Outside};
ghost use Rattle.lot_read.specs.declared.fault.ValueFault.{ValueFault};
ghost use Rattle.lot_read.specs.Meaning.{AreInside, FirstOutside, MeansDay, MeansHeader, MeansMethod, directive_items, header_items, listed_by, method_item};
ghost use Rattle.lot_read.specs.Refusal.{IsRefusal};

use crate::currencies::CurrencyParts;
use crate::fault::{MeaningFault, ValueFault};
use crate::known::KnownNames;
use crate::name::{AccountPart, CommodityPart};
use crate::note::NotesPart;
use crate::value::{day, rate};
use lot_base::Day;
use lot_command::{
    Closing, Command, Declaring, Flag, Items, Method, Opening, Quoting, Transaction,
};
use lot_syntax::{DirectiveForm, HeaderForm, NotesForm};

/// Returns the command that begins on a line that isn't indented, by its parts. A transaction has no posting yet.
///
/// The error is the fault of the first part, from left to right, that is outside its rule. Where all parts are within their
/// rules, it is `Memory`: no memory for the names and notes.
pub fn command(names: &mut KnownNames, form: &HeaderForm<'_, '_>) -> Result<Command, MeaningFault>
    ensures means { IfOk result
        (λ command. MeansHeader form.now.day.now (directive_seen form.now.directive) command) }
    ensures outside { (fault : ValueFault) → IsErrOf result (Outside fault)
        → FirstOutside (header_items form.now.day.now (directive_seen form.now.directive)) fault }
    ensures memory { IsErrOf result Memory
        → AreInside (header_items form.now.day.now (directive_seen form.now.directive)) }
{
    let day = day(form.day)?;
    directive(names, day, &form.directive)
}

/// Returns the command that is given on that day.
fn directive(
    names: &mut KnownNames,
    day: Day,
    form: &DirectiveForm<'_, '_>,
) -> Result<Command, MeaningFault>
    ensures means { IfOk result (λ command. (when : List ℕ) → MeansDay when day
        → MeansHeader when (directive_seen form.now) command) }
    ensures refused { IfErr result
        (λ fault. IsRefusal (directive_items (directive_seen form.now)) fault) }
{
    match form {
        DirectiveForm::Opening(account, currencies, method) => {
            opening(names, day, account, currencies.as_slice(), method)
        }
        DirectiveForm::Closing(account) => closing(names, day, account),
        DirectiveForm::Declaring(commodity) => declaring(names, day, commodity),
        DirectiveForm::Quoting(base, rate, quote) => quoting(names, day, base, rate, quote),
        DirectiveForm::Transaction(flag, notes) => transaction(names, day, *flag, notes),
    }
}

/// Returns an opening on that day.
#[tactic(auto, using(crate::proofs::ItemLemmas::outside_first, crate::proofs::DirectiveLemmas::opening_currency_outside, crate::proofs::DirectiveLemmas::opening_method_outside))]
fn opening(
    names: &mut KnownNames,
    day: Day,
    account: &str,
    currencies: &[&str],
    method: &Option<&str>,
) -> Result<Command, MeaningFault>
    requires { length currencies.now ≤ most_currencies }
    ensures means { let directive = opening account.now (map seen_text currencies.now)
        (option_map seen_text method.now) in IfOk result
        (λ command. (when : List ℕ) → MeansDay when day → MeansHeader when directive command) }
    ensures refused { let directive = opening account.now (map seen_text currencies.now)
        (option_map seen_text method.now) in
        IfErr result (λ fault. IsRefusal (directive_items directive) fault) }
{
    let account = AccountPart::new(&names.accounts, account)?;
    let currencies = CurrencyParts::new(currencies)?;
    let method = method_of(method)?;
    Ok(Command::Opening(Opening {
        day,
        account: account.keep(&mut names.accounts)?,
        currencies: currencies.keep(names)?,
        method,
    }))
}

/// Returns the method that a part means, STRICT where there is none. The error is `BadName`, exactly where it means none.
fn method_of(part: &Option<&str>) -> Result<Method, ValueFault>
    ensures means { IfOk result (λ method. MeansMethod (option_map seen_text part.now) method) }
    ensures outside { IfErr result (λ fault.
        FirstOutside (listed_by (λ m. method_item m ∷ []) (option_map seen_text part.now)) fault) }
{
    let Some(word) = part else {
        return Ok(Method::Strict);
    };
    match Method::from_name(word) {
        Some(method) => Ok(method),
        None => Err(ValueFault::BadName),
    }
}

/// Returns a closing on that day.
#[tactic(auto, using(crate::proofs::ItemLemmas::outside_first, crate::proofs::ItemLemmas::outside_later))]
fn closing(names: &mut KnownNames, day: Day, account: &str) -> Result<Command, MeaningFault>
    ensures means { IfOk result (λ command. (when : List ℕ) → MeansDay when day
        → MeansHeader when (closing account.now) command) }
    ensures refused { IfErr result
        (λ fault. IsRefusal (directive_items (closing account.now)) fault) }
{
    let account = AccountPart::new(&names.accounts, account)?;
    Ok(Command::Closing(Closing {
        day,
        account: account.keep(&mut names.accounts)?,
    }))
}

/// Returns a declaring on that day.
#[tactic(auto, using(crate::proofs::ItemLemmas::outside_first, crate::proofs::ItemLemmas::outside_later))]
fn declaring(names: &mut KnownNames, day: Day, commodity: &str) -> Result<Command, MeaningFault>
    ensures means { IfOk result (λ command. (when : List ℕ) → MeansDay when day
        → MeansHeader when (declaring commodity.now) command) }
    ensures refused { IfErr result
        (λ fault. IsRefusal (directive_items (declaring commodity.now)) fault) }
{
    let commodity = CommodityPart::new(&names.commodities, commodity)?;
    Ok(Command::Declaring(Declaring {
        day,
        commodity: commodity.keep(&mut names.commodities)?,
    }))
}

/// Returns a quoting on that day.
#[tactic(auto, using(crate::proofs::ItemLemmas::outside_first, crate::proofs::ItemLemmas::outside_later))]
fn quoting(
    names: &mut KnownNames,
    day: Day,
    base: &str,
    rate_part: &str,
    quote: &str,
) -> Result<Command, MeaningFault>
    ensures means { IfOk result (λ command. (when : List ℕ) → MeansDay when day
        → MeansHeader when (quoting base.now rate_part.now quote.now) command) }
    ensures refused { IfErr result
        (λ fault. IsRefusal (directive_items (quoting base.now rate_part.now quote.now)) fault) }
{
    let base = CommodityPart::new(&names.commodities, base)?;
    let rate = rate(rate_part)?;
    let quote = CommodityPart::new(&names.commodities, quote)?;
    Ok(Command::Quoting(Quoting {
        day,
        base: base.keep(&mut names.commodities)?,
        rate,
        quote: quote.keep(&mut names.commodities)?,
    }))
}

/// Returns a transaction on that day, with no posting.
#[tactic(auto, using(crate::proofs::ItemLemmas::outside_first, crate::proofs::ItemLemmas::outside_later))]
fn transaction(
    names: &mut KnownNames,
    day: Day,
    flag: Flag,
    notes: &Option<NotesForm<'_>>,
) -> Result<Command, MeaningFault>
    ensures means { IfOk result (λ command. (when : List ℕ) → MeansDay when day
        → MeansHeader when (transaction flag (option_map notes_seen notes.now)) command) }
    ensures refused { IfErr result (λ fault.
        IsRefusal (directive_items (transaction flag (option_map notes_seen notes.now))) fault) }
{
    let narration = match notes {
        Some(notes) => Some(NotesPart::new(notes)?.keep(names)?),
        None => None,
    };
    Ok(Command::Transaction(Transaction {
        day,
        flag,
        narration,
        postings: Items::new(names.alloc),
    }))
}
