//! What a row says by the rules of its table and its kind.
ghost use Rattle.std.specs.Prelude.{◌≡◌, ◌≢◌, IfOk, IfErr, IfSome, MatchOption, Ok, Err};
ghost use Rattle.lot_roles.specs.Reading.{Gives};
ghost use Rattle.lot_roles.specs.declared.fault.RowFault.{RowFault};
ghost use Rattle.lot_roles.specs.declared.fault.RowFault.TheVariants.{Memory};
ghost use Rattle.lot_roles.specs.declared.rules.Rules.{Rules};
ghost use Rattle.lot_profile.specs.declared.account.AccountRole.TheVariants as account;
ghost use Rattle.std.specs.List.{slice_get};
ghost use Rattle.lot_deal_read.specs.Cash.{movement_of};
ghost use Rattle.lot_deal_read.specs.Kinds.{AreTermsOf, HasNoTerms, IsOfKind, SaidByKind, SaysByKind};
ghost use Rattle.lot_deal_read.specs.Signs.{HasSign, HaveSigns, SaidWithSigns, SaysWithSigns};
ghost use Rattle.lot_deal_read.specs.Row.{AreRules, HasNoRules, cancellation_of, purchase_of, terms_of, Says, SaysNothing, deal_on, dated_of, note_of, saying_of, says_of, split_of, word_of};
ghost use Rattle.lot_deal_read.specs.Rounded.{IsRounded};

use crate::exchanges::exchange;
use crate::incomes::income;
use crate::incomings::{reward, transfer};
use crate::movements::{Sign, movement};
use crate::needed::symbol_in;
use crate::quotes::quote;
use crate::rounded::amount_roles;
use crate::says::{Dated, RowSays, Saying};
use crate::splits::change;
use crate::trades::{Direction, Traded, sale, trade};
use crate::words::word;
use lot_base::{Day, Note};
use lot_deal::{Deal, Movement, Terms};
use lot_profile::{AccountRole, Kind, Profile, Role};
use lot_roles::{
    RowFault, Rules, account, commodity, key_text, kind_of, moment, narration, rounded_in,
};
use lot_sheet::Row;
use std::alloc::Global;

/// Returns what a row says, by the rules of its table and of its kind (docs/FORMATS.md, Profiles).
///
/// The error is the first fault of the row: `NoKind` where it meets the conditions of no kind of its table, or is of no table;
/// `TwoKinds` where it meets those of two. Else it is that of the first value that isn't as the kind needs it, in this order: the
/// day and the time; the values; their signs; the comparison of units, price, fee and amount; the accounts. A cancelled sale
/// is always `CancelledSale`, once its day was read. Else it is `Memory`, but never in place of `NoKind` or `TwoKinds`, nor of a row
/// that a rule passes over.
pub fn read_row(alloc: Global, profile: &Profile, row: &Row) -> Result<RowSays, RowFault>
    ensures says { IfOk result (Says profile.now row.now) }
    ensures fault { IfErr result
        (λ fault. fault ≢ Memory → SaysNothing profile.now row.now fault) }
    ensures kind { IfOk result (IsOfKind profile.now row.now) }
    ensures signs { IfOk result SaysWithSigns }
    ensures no_rules { (fault : RowFault)
        → HasNoRules profile.now row.now fault (slice_get profile.now.tables row.now.table)
        → result ≡ Err fault }
    ensures skipped { (rules : Rules) → AreRules profile.now row.now rules
        → rules.kind.now.kind ≡ Kind.Skip → result ≡ Ok RowSays.Skipped }
{
    let rules = rules_of(profile, row)?;
    says(alloc, &rules, row)
}

/// Returns how many amounts and prices of a row were rounded to eight decimals as they were read. There are none of a row that is of
/// no kind, or of two.
pub fn rounded_numbers(profile: &Profile, row: &Row) -> usize
    ensures { IsRounded profile.now row.now result }
{
    match rules_of(profile, row) {
        Ok(rules) => rounded_in(&rules, row, amount_roles(&rules, row)),
        Err(_) => 0,
    }
}

/// Returns the rules of a row: those of its table, and of its one kind.
fn rules_of<'a>(profile: &'a Profile, row: &Row) -> Result<Rules<'a>, RowFault>
    ensures ok { IfOk result (AreRules profile.now row.now) }
    ensures fault { IfErr result (λ fault. HasNoRules profile.now row.now fault
        (slice_get profile.now.tables row.now.table)) }
{
    let Some(table) = profile.tables.as_slice().get(row.table()) else {
        return Err(RowFault::NoKind);
    };
    let kind = kind_of(&profile.file, table, row)?;
    Ok(Rules {
        profile,
        table,
        kind,
    })
}

/// Returns what a row says by its rules.
fn says(alloc: Global, rules: &Rules, row: &Row) -> Result<RowSays, RowFault>
    ensures gives { Gives result (says_of rules.now row.now) }
    ensures kind { IfOk result (SaysByKind rules.now.kind.now.kind) }
    ensures signs { IfOk result SaysWithSigns }
    ensures skipped { rules.now.kind.now.kind ≡ Kind.Skip → result ≡ Ok RowSays.Skipped }
{
    match rules.kind.kind {
        Kind::Skip => Ok(RowSays::Skipped),
        kind => Ok(RowSays::Dated(dated(alloc, rules, row, kind)?)),
    }
}

/// Returns what a row with a day says.
#[tactic(auto, unfolding(crate::specs::Row::dated_of))]
fn dated(alloc: Global, rules: &Rules, row: &Row, kind: Kind) -> Result<Dated, RowFault>
    ensures gives { Gives result (dated_of kind rules.now row.now) }
    ensures kind { kind ≢ Kind.Skip → IfOk result (λ dated. SaidByKind kind dated.saying) }
    ensures signs { IfOk result (λ dated. SaidWithSigns dated.saying) }
{
    let moment = moment(alloc, rules, row)?;
    let saying = saying(alloc, rules, row, kind, moment.day)?;
    Ok(Dated {
        day: moment.day,
        time: moment.time,
        text: key_text(alloc, rules, row)?,
        saying,
    })
}

/// Returns what a row of a kind says, on its day.
fn saying(alloc: Global, rules: &Rules, row: &Row, kind: Kind, day: Day) -> Result<Saying, RowFault>
    ensures gives { Gives result (saying_of kind rules.now row.now day) }
    ensures kind { kind ≢ Kind.Skip → IfOk result (SaidByKind kind) }
    ensures signs { IfOk result SaidWithSigns }
{
    match kind {
        Kind::Buy => purchase(alloc, rules, row, day),
        Kind::CancelBuy => cancellation(alloc, rules, row),
        Kind::CancelSell => Err(RowFault::CancelledSale),
        Kind::Split => split(alloc, rules, row),
        _ => match terms(alloc, rules, row, kind, day)? {
            Some(terms) => Ok(Saying::Deal {
                deal: deal(alloc, rules, row, kind, (day, terms))?,
                bought: None,
            }),
            None => Ok(Saying::ByHand),
        },
    }
}

/// Returns the terms of a deal that stands alone, by its kind, or `None` of another kind.
#[tactic(auto, unfolding(crate::specs::Row::terms_of))]
fn terms(
    alloc: Global,
    rules: &Rules,
    row: &Row,
    kind: Kind,
    day: Day,
) -> Result<Option<Terms>, RowFault>
    ensures gives { Gives result (terms_of kind rules.now row.now day) }
    ensures kind { IfOk result
        (λ terms. MatchOption terms (HasNoTerms kind) (AreTermsOf kind)) }
    ensures signs { IfOk result (λ terms. IfSome terms HaveSigns) }
{
    let terms = match kind {
        Kind::Sell => Terms::Sell(sale(alloc, rules, row)?),
        Kind::Dividend => Terms::Dividend(income(alloc, rules, row, AccountRole::Dividends)?),
        Kind::Interest => Terms::Interest(income(alloc, rules, row, AccountRole::Interest)?),
        Kind::Tax => Terms::Tax(movement(alloc, rules, row, Sign::Any, AccountRole::Tax)?),
        Kind::Fee => Terms::Fee(movement(alloc, rules, row, Sign::Any, AccountRole::Fees)?),
        Kind::Deposit => Terms::Deposit(transferred(alloc, rules, row, Sign::Above)?),
        Kind::Withdrawal => Terms::Withdrawal(transferred(alloc, rules, row, Sign::Below)?),
        Kind::Exchange => Terms::Exchange(exchange(alloc, rules, row)?),
        Kind::Reward => Terms::Reward(reward(alloc, rules, row)?),
        Kind::TransferIn => Terms::TransferIn(transfer(alloc, rules, row, day)?),
        Kind::Price => Terms::Price(quote(alloc, rules, row)?),
        _ => return Ok(None),
    };
    Ok(Some(terms))
}

/// Returns the movement of a row between the cash and the account of transfers.
fn transferred(alloc: Global, rules: &Rules, row: &Row, sign: Sign) -> Result<Movement, RowFault>
    ensures gives { Gives result (movement_of sign account.Transfers rules.now row.now) }
    ensures sign { IfOk result (λ movement. HasSign sign movement.amount) }
{
    movement(alloc, rules, row, sign, AccountRole::Transfers)
}

/// Returns a deal of those terms, on that day.
fn deal(
    alloc: Global,
    rules: &Rules,
    row: &Row,
    kind: Kind,
    of: (Day, Terms),
) -> Result<Deal, RowFault>
    ensures gives { Gives result (Ok (deal_on of.0 kind rules.now row.now of.1)) }
    ensures terms { IfOk result (λ deal. deal.terms ≡ of.1) }
{
    let (day, terms) = of;
    Ok(Deal {
        day,
        note: note(alloc, rules, row, kind)?,
        terms,
    })
}

/// Returns what a row of a kind is narrated as.
fn note(alloc: Global, rules: &Rules, row: &Row, kind: Kind) -> Result<Note, RowFault>
    ensures { Gives result (Ok (note_of kind rules.now row.now)) }
{
    narration(alloc, rules, row, word(kind))
}

/// Returns what a purchase says, on its day.
#[tactic(auto, unfolding(crate::specs::Row::purchase_of))]
fn purchase(alloc: Global, rules: &Rules, row: &Row, day: Day) -> Result<Saying, RowFault>
    ensures gives { Gives result (purchase_of rules.now row.now day) }
    ensures kind { IfOk result (SaidByKind Kind.Buy) }
    ensures signs { IfOk result SaidWithSigns }
{
    let Traded { trade, compared } = trade(alloc, rules, row, Direction::In)?;
    Ok(Saying::Deal {
        deal: deal(alloc, rules, row, Kind::Buy, (day, Terms::Buy(trade)))?,
        bought: Some(compared),
    })
}

/// Returns what a row says that takes a purchase back.
#[tactic(auto, unfolding(crate::specs::Row::cancellation_of))]
fn cancellation(alloc: Global, rules: &Rules, row: &Row) -> Result<Saying, RowFault>
    ensures gives { Gives result (cancellation_of rules.now row.now) }
    ensures kind { IfOk result (SaidByKind Kind.CancelBuy) }
    ensures signs { IfOk result SaidWithSigns }
{
    let Traded { trade, compared } = trade(alloc, rules, row, Direction::Out)?;
    Ok(Saying::CancelBuy {
        note: note(alloc, rules, row, Kind::CancelBuy)?,
        trade,
        compared,
    })
}

/// Returns what a row of a split says.
#[tactic(auto, unfolding(crate::specs::Row::split_of))]
fn split(alloc: Global, rules: &Rules, row: &Row) -> Result<Saying, RowFault>
    ensures gives { Gives result (split_of rules.now row.now) }
    ensures kind { IfOk result (SaidByKind Kind.Split) }
    ensures signs { IfOk result SaidWithSigns }
{
    let symbol = symbol_in(alloc, rules, row)?;
    let change = change(alloc, rules, row)?;
    let currency = commodity(alloc, rules, row, Role::Currency)?;
    let name = match &currency {
        Some(currency) => currency.as_str(),
        None => "",
    };
    let account = account(alloc, rules, row, AccountRole::Invest, name)?;
    Ok(Saying::Split {
        note: note(alloc, rules, row, Kind::Split)?,
        account,
        symbol,
        change,
    })
}
