ghost use Rattle.std.specs.Prelude.{◌≡◌, None, Some, IfSome, IfNone, MatchOption, option_map};
ghost use Rattle.lot_syntax.specs.Form.{WrittenPosting, IsPosting};
ghost use Rattle.lot_syntax.specs.Shape.{amount_of, amount_seen, cost_at, cost_seen, distinct_at, each_at, money_of, part_at, part_seen, parts_at, parts_seen, posting_of, posting_seen, price_of, price_seen, whole_at};

use crate::form::{AmountForm, CostForm, Part, Parts, PostingForm, PriceForm};
use crate::take::{close, close_close, comma, is_end, number, word};
use crate::token::{Mark, Token};
use crate::tokens::Tokens;

/// Returns the parts of a posting, by the tokens of its line, or `None` where they have no such form (docs/FORMATS.md, Forms).
///
/// `room` takes the parts of its cost.
pub fn posting<'w, 'a>(
    room: &'w mut Parts<'a>,
    tokens: &Tokens<'_, 'a>,
) -> Option<PostingForm<'w, 'a>>
    ensures is { IfSome result (λ form. IsPosting tokens.now (posting_seen form)) }
    ensures none { IfNone result ((written : WrittenPosting) → IsPosting tokens.now written → ⊥) }
{
    written(room, tokens)
}

/// Returns the same, by the tokens from the first on.
#[tactic(auto, unfolding(crate::specs::Shape::posting_of))]
fn written<'w, 'a>(room: &'w mut Parts<'a>, tokens: &Tokens<'_, 'a>) -> Option<PostingForm<'w, 'a>>
    ensures { posting_of tokens.now ≡ option_map posting_seen result }
{
    let (account, rest) = word(tokens)?;
    let amount = if is_end(&rest) {
        None
    } else {
        Some(amount(room, &rest)?)
    };
    Some(PostingForm { account, amount })
}

/// Returns units and a commodity, with a cost and a price where there are such.
#[tactic(auto, unfolding(crate::specs::Shape::amount_of))]
fn amount<'w, 'a>(room: &'w mut Parts<'a>, tokens: &Tokens<'_, 'a>) -> Option<AmountForm<'w, 'a>>
    ensures { amount_of tokens.now ≡ option_map amount_seen result }
{
    let (units, rest) = number(tokens)?;
    let (commodity, rest) = word(&rest)?;
    let (cost, rest) = cost(room, rest)?;
    let price = price(&rest)?;
    Some(AmountForm {
        units,
        commodity,
        cost,
        price,
    })
}

/// Returns the price at the end of a posting, where there is one.
#[tactic(auto, unfolding(crate::specs::Shape::price_of))]
fn price<'a>(tokens: &Tokens<'_, 'a>) -> Option<Option<PriceForm<'a>>>
    ensures { price_of tokens.now ≡ option_map (λ price. option_map price_seen price) result }
{
    let Some((token, rest)) = tokens.split_first() else {
        return Some(None);
    };
    match token {
        Token::Mark(Mark::At) => {
            let (rate, currency) = money(&rest)?;
            Some(Some(PriceForm::Each(rate, currency)))
        }
        Token::Mark(Mark::AtAt) => {
            let (total, currency) = money(&rest)?;
            Some(Some(PriceForm::Whole(total, currency)))
        }
        _ => None,
    }
}

/// Returns a number and a word, behind which there is nothing.
fn money<'a>(tokens: &Tokens<'_, 'a>) -> Option<(&'a str, &'a str)>
    ensures { MatchOption result (money_of tokens.now ≡ None)
        (λ money. money_of tokens.now ≡ Some (money.0.now, money.1.now)) }
{
    let (number, rest) = number(tokens)?;
    let (currency, rest) = word(&rest)?;
    if is_end(&rest) {
        Some((number, currency))
    } else {
        None
    }
}

/// Returns the cost at the front and the tokens behind it; without braces there is no cost.
#[tactic(auto, unfolding(crate::specs::Shape::cost_at))]
fn cost<'w, 't, 'a>(
    room: &'w mut Parts<'a>,
    tokens: Tokens<'t, 'a>,
) -> Option<(Option<CostForm<'w, 'a>>, Tokens<'t, 'a>)>
    ensures { MatchOption result (cost_at tokens.entry ≡ None)
        (λ found. cost_at tokens.entry ≡ Some (option_map cost_seen found.0, found.1)) }
{
    match tokens.split_first() {
        Some((Token::Mark(Mark::Open), rest)) => each(room, rest),
        Some((Token::Mark(Mark::OpenOpen), rest)) => whole(room, rest),
        _ => Some((None, tokens)),
    }
}

/// Returns the cost of each unit, behind its opening brace. Mostly nothing stands between the braces of a sale.
#[tactic(auto, using(crate::proofs::PostingLemmas::nothing_between))]
fn each<'w, 't, 'a>(
    room: &'w mut Parts<'a>,
    tokens: Tokens<'t, 'a>,
) -> Option<(Option<CostForm<'w, 'a>>, Tokens<'t, 'a>)>
    ensures { MatchOption result (each_at tokens.entry ≡ None)
        (λ found. each_at tokens.entry ≡ Some (option_map cost_seen found.0, found.1)) }
{
    if let Some(rest) = close(&tokens) {
        *room = Parts::none();
        return Some((Some(CostForm::Each(room)), rest));
    }
    let rest = distinct_parts(room, tokens)?;
    let rest = close(&rest)?;
    Some((Some(CostForm::Each(room)), rest))
}

/// Returns the cost of all units, behind its opening braces. It gives a number.
fn whole<'w, 't, 'a>(
    room: &'w mut Parts<'a>,
    tokens: Tokens<'t, 'a>,
) -> Option<(Option<CostForm<'w, 'a>>, Tokens<'t, 'a>)>
    ensures { MatchOption result (whole_at tokens.entry ≡ None)
        (λ found. whole_at tokens.entry ≡ Some (option_map cost_seen found.0, found.1)) }
{
    let rest = distinct_parts(room, tokens)?;
    if !room.have_number() {
        return None;
    }
    let rest = close_close(&rest)?;
    Some((Some(CostForm::Whole(room)), rest))
}

/// Puts the parts of a cost, which can stand in one, into their room, and returns the tokens behind them.
#[tactic(auto, unfolding(crate::specs::Shape::distinct_at))]
fn distinct_parts<'t, 'a>(room: &mut Parts<'a>, tokens: Tokens<'t, 'a>) -> Option<Tokens<'t, 'a>>
    ensures { MatchOption result (distinct_at tokens.entry ≡ None)
        (λ rest. distinct_at tokens.entry ≡ Some (parts_seen room.new, rest)) }
{
    let rest = parts(room, tokens)?;
    if room.are_distinct() {
        Some(rest)
    } else {
        None
    }
}

/// Puts the parts of a cost, with commas between them, into their room, and returns the tokens behind them. More than three can't
/// stand in one cost.
#[tactic(auto, unfolding(crate::specs::Shape::parts_at))]
fn parts<'t, 'a>(parts: &mut Parts<'a>, tokens: Tokens<'t, 'a>) -> Option<Tokens<'t, 'a>>
    ensures { MatchOption result (parts_at tokens.entry ≡ None)
        (λ rest. parts_at tokens.entry ≡ Some (parts_seen parts.new, rest)) }
{
    *parts = Parts::none();
    let Some((first, rest)) = part(&tokens) else {
        return Some(tokens);
    };
    parts.first = Some(first);
    let Some(behind) = comma(&rest) else {
        return Some(rest);
    };
    let (second, rest) = part(&behind)?;
    parts.second = Some(second);
    let Some(behind) = comma(&rest) else {
        return Some(rest);
    };
    let (third, rest) = part(&behind)?;
    parts.third = Some(third);
    Some(rest)
}

/// Returns the part of a cost at the front and the tokens behind it, or none where there is no part.
#[tactic(auto, unfolding(crate::specs::Shape::part_at))]
fn part<'t, 'a>(tokens: &Tokens<'t, 'a>) -> Option<(Part<'a>, Tokens<'t, 'a>)>
    ensures { MatchOption result (part_at tokens.now ≡ None)
        (λ found. part_at tokens.now ≡ Some (part_seen found.0, found.1)) }
{
    let (token, rest) = tokens.split_first()?;
    match token {
        Token::Word(currency) => Some((Part::Currency(currency), rest)),
        Token::Number(number) => match word(&rest) {
            Some((currency, rest)) => Some((Part::Money(number, currency), rest)),
            None => Some((Part::Number(number), rest)),
        },
        Token::Date(day) => Some((Part::Day(day), rest)),
        Token::Text(label) => Some((Part::Label(label), rest)),
        Token::Mark(_) => None,
    }
}
