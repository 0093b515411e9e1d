//! The words that stand for values of a few kinds, each in one table.
ghost use Rattle.std.specs.Prelude.{◌≡◌, ℕ, List, Some, refl};
ghost use Rattle.lot_profile_text.specs.Reading.{Gives, named, word_of};
ghost use Rattle.toml.specs.View.{view};
ghost use Rattle.lot_profile_text.specs.Words as words;
ghost use Rattle.lot_profile_text.specs.declared.entry.Form.{Form as FormValue};
ghost use Rattle.lot_profile_text.specs.declared.entry.Form.TheVariants as form;
ghost use Rattle.lot_profile.specs.declared.file.Encoding.TheVariants as encoding;
ghost use Rattle.lot_profile.specs.declared.file.Delimiter.TheVariants as delimiter;
ghost use Rattle.lot_field.specs.declared.numbers.DecimalMark.TheVariants as decimal_mark;
ghost use Rattle.lot_profile.specs.declared.table.Order.TheVariants as order;
ghost use Rattle.lot_profile.specs.declared.basis.CostBasis.TheVariants as cost_basis;
ghost use Rattle.lot_profile.specs.declared.basis.Rewards.TheVariants as rewards;
ghost use Rattle.lot_profile.specs.declared.kind.Kind.TheVariants as kind;
ghost use Rattle.lot_profile.specs.declared.account.AccountRole.TheVariants as account_role;
ghost use Rattle.lot_profile.specs.declared.role.Role.TheVariants as role;

use crate::entry::Form;
use crate::fault::ProfileFault;
use crate::part::{Part, wrong};
use lot_field::DecimalMark;
use lot_profile::{AccountRole, CostBasis, Delimiter, Encoding, Kind, Order, Rewards, Role};
use std::alloc::Global;
use toml::Value;

/// Values that stand under words, each under one of its own.
pub trait Word: Copy + 'static {
    // The word of each value.
    ghost word: { Self → List ℕ };

    // All values.
    ghost all: { List Self };

    // What a text has to be, to be one of the words.
    ghost form: { FormValue };

    /// Returns the word that a value stands under.
    fn word(self) -> &'static str
        ensures { result.now ≡ word self };

    /// Returns all values, in the order in which they are listed.
    fn all() -> &'static [Self]
        ensures { result.now ≡ all };

    /// Returns what a text has to be, to be one of the words.
    fn form() -> Form
        ensures { result ≡ form };

    // Each value is read of its word.
    ghost reads_back: { (value : Self) → named word all (word value) ≡ Some value };
}

/// Returns the value that stands under a word, if there is one.
pub fn named<W: Word>(text: &str) -> Option<W>
    ensures { result ≡ named W.word W.all text.now }
{
    W::all().iter().copied().find(|value| value.word() == text)
}

/// Returns the value that stands under the word that the value at a place is, or the fault that it is none.
pub(crate) fn word_at<W: Word>(alloc: Global, place: &str, value: &Value) -> Result<W, ProfileFault>
    ensures { Gives result (word_of W.word W.all W.form place.now (view value.now)) }
{
    match value.as_str() {
        Some(text) => match named(text) {
            Some(value) => Ok(value),
            None => Err(wrong(alloc, place, W::form())),
        },
        None => Err(wrong(alloc, place, W::form())),
    }
}

impl Word for Encoding {
    ghost word = { words.encoding_word };

    ghost all = { words.encoding_all };

    ghost form = { form.Encoding };

    fn word(self) -> &'static str {
        match self {
            Encoding::Utf8 => "utf-8",
            Encoding::Latin1 => "latin-1",
        }
    }

    fn all() -> &'static [Encoding] {
        &[Encoding::Utf8, Encoding::Latin1]
    }

    fn form() -> Form {
        Form::Encoding
    }

    ghost reads_back = { elim [ encoding.Utf8 ↦ refl | encoding.Latin1 ↦ refl ] };
}

impl Part for Encoding {
    ghost said = { word_of words.encoding_word words.encoding_all form.Encoding };

    fn read(alloc: Global, place: &str, value: &Value) -> Result<Encoding, ProfileFault> {
        word_at(alloc, place, value)
    }
}

impl Word for Delimiter {
    ghost word = { words.delimiter_word };

    ghost all = { words.delimiter_all };

    ghost form = { form.Delimiter };

    fn word(self) -> &'static str {
        match self {
            Delimiter::Comma => ",",
            Delimiter::Semicolon => ";",
            Delimiter::Tab => "\t",
        }
    }

    fn all() -> &'static [Delimiter] {
        &[Delimiter::Comma, Delimiter::Semicolon, Delimiter::Tab]
    }

    fn form() -> Form {
        Form::Delimiter
    }

    ghost reads_back = { elim [ delimiter.Comma ↦ refl | delimiter.Semicolon ↦ refl | delimiter.Tab ↦ refl ] };
}

impl Part for Delimiter {
    ghost said = { word_of words.delimiter_word words.delimiter_all form.Delimiter };

    fn read(alloc: Global, place: &str, value: &Value) -> Result<Delimiter, ProfileFault> {
        word_at(alloc, place, value)
    }
}

impl Word for DecimalMark {
    ghost word = { words.decimal_mark_word };

    ghost all = { words.decimal_mark_all };

    ghost form = { form.DecimalMark };

    fn word(self) -> &'static str {
        match self {
            DecimalMark::Point => ".",
            DecimalMark::Comma => ",",
        }
    }

    fn all() -> &'static [DecimalMark] {
        &[DecimalMark::Point, DecimalMark::Comma]
    }

    fn form() -> Form {
        Form::DecimalMark
    }

    ghost reads_back = { elim [ decimal_mark.Point ↦ refl | decimal_mark.Comma ↦ refl ] };
}

impl Part for DecimalMark {
    ghost said = { word_of words.decimal_mark_word words.decimal_mark_all form.DecimalMark };

    fn read(alloc: Global, place: &str, value: &Value) -> Result<DecimalMark, ProfileFault> {
        word_at(alloc, place, value)
    }
}

impl Word for Order {
    ghost word = { words.order_word };

    ghost all = { words.order_all };

    ghost form = { form.Order };

    fn word(self) -> &'static str {
        match self {
            Order::OldestFirst => "oldest-first",
            Order::NewestFirst => "newest-first",
            Order::ByDay => "by-day",
            Order::ByDayNewestFirst => "by-day-newest-first",
        }
    }

    fn all() -> &'static [Order] {
        &[
            Order::OldestFirst,
            Order::NewestFirst,
            Order::ByDay,
            Order::ByDayNewestFirst,
        ]
    }

    fn form() -> Form {
        Form::Order
    }

    ghost reads_back = { elim [ order.OldestFirst ↦ refl | order.NewestFirst ↦ refl | order.ByDay ↦ refl | order.ByDayNewestFirst ↦ refl ] };
}

impl Part for Order {
    ghost said = { word_of words.order_word words.order_all form.Order };

    fn read(alloc: Global, place: &str, value: &Value) -> Result<Order, ProfileFault> {
        word_at(alloc, place, value)
    }
}

impl Word for CostBasis {
    ghost word = { words.cost_basis_word };

    ghost all = { words.cost_basis_all };

    ghost form = { form.CostBasis };

    fn word(self) -> &'static str {
        match self {
            CostBasis::Amount => "amount",
            CostBasis::Price => "price",
        }
    }

    fn all() -> &'static [CostBasis] {
        &[CostBasis::Amount, CostBasis::Price]
    }

    fn form() -> Form {
        Form::CostBasis
    }

    ghost reads_back = { elim [ cost_basis.Amount ↦ refl | cost_basis.Price ↦ refl ] };
}

impl Part for CostBasis {
    ghost said = { word_of words.cost_basis_word words.cost_basis_all form.CostBasis };

    fn read(alloc: Global, place: &str, value: &Value) -> Result<CostBasis, ProfileFault> {
        word_at(alloc, place, value)
    }
}

impl Word for Rewards {
    ghost word = { words.rewards_word };

    ghost all = { words.rewards_all };

    ghost form = { form.Rewards };

    fn word(self) -> &'static str {
        match self {
            Rewards::Value => "value",
            Rewards::Zero => "zero",
        }
    }

    fn all() -> &'static [Rewards] {
        &[Rewards::Value, Rewards::Zero]
    }

    fn form() -> Form {
        Form::Rewards
    }

    ghost reads_back = { elim [ rewards.Value ↦ refl | rewards.Zero ↦ refl ] };
}

impl Part for Rewards {
    ghost said = { word_of words.rewards_word words.rewards_all form.Rewards };

    fn read(alloc: Global, place: &str, value: &Value) -> Result<Rewards, ProfileFault> {
        word_at(alloc, place, value)
    }
}

impl Word for Kind {
    ghost word = { words.kind_word };

    ghost all = { words.kind_all };

    ghost form = { form.Kind };

    fn word(self) -> &'static str {
        match self {
            Kind::Buy => "buy",
            Kind::Sell => "sell",
            Kind::CancelBuy => "cancel-buy",
            Kind::CancelSell => "cancel-sell",
            Kind::Dividend => "dividend",
            Kind::Interest => "interest",
            Kind::Tax => "tax",
            Kind::Fee => "fee",
            Kind::Deposit => "deposit",
            Kind::Withdrawal => "withdrawal",
            Kind::Exchange => "exchange",
            Kind::Reward => "reward",
            Kind::TransferIn => "transfer-in",
            Kind::Split => "split",
            Kind::Price => "price",
            Kind::ByHand => "by-hand",
            Kind::Skip => "skip",
        }
    }

    fn all() -> &'static [Kind] {
        &[
            Kind::Buy,
            Kind::Sell,
            Kind::CancelBuy,
            Kind::CancelSell,
            Kind::Dividend,
            Kind::Interest,
            Kind::Tax,
            Kind::Fee,
            Kind::Deposit,
            Kind::Withdrawal,
            Kind::Exchange,
            Kind::Reward,
            Kind::TransferIn,
            Kind::Split,
            Kind::Price,
            Kind::ByHand,
            Kind::Skip,
        ]
    }

    fn form() -> Form {
        Form::Kind
    }

    ghost reads_back = { elim [ kind.Buy ↦ refl | kind.Sell ↦ refl | kind.CancelBuy ↦ refl | kind.CancelSell ↦ refl | kind.Dividend ↦ refl | kind.Interest ↦ refl | kind.Tax ↦ refl | kind.Fee ↦ refl | kind.Deposit ↦ refl | kind.Withdrawal ↦ refl | kind.Exchange ↦ refl | kind.Reward ↦ refl | kind.TransferIn ↦ refl | kind.Split ↦ refl | kind.Price ↦ refl | kind.ByHand ↦ refl | kind.Skip ↦ refl ] };
}

impl Part for Kind {
    ghost said = { word_of words.kind_word words.kind_all form.Kind };

    fn read(alloc: Global, place: &str, value: &Value) -> Result<Kind, ProfileFault> {
        word_at(alloc, place, value)
    }
}

impl Word for AccountRole {
    ghost word = { words.account_role_word };

    ghost all = { words.account_role_all };

    ghost form = { form.AccountRole };

    fn word(self) -> &'static str {
        match self {
            AccountRole::Invest => "invest",
            AccountRole::Cash => "cash",
            AccountRole::Fees => "fees",
            AccountRole::Gains => "gains",
            AccountRole::Dividends => "dividends",
            AccountRole::Interest => "interest",
            AccountRole::Rewards => "rewards",
            AccountRole::Tax => "tax",
            AccountRole::Transfers => "transfers",
            AccountRole::Rounding => "rounding",
        }
    }

    fn all() -> &'static [AccountRole] {
        &[
            AccountRole::Invest,
            AccountRole::Cash,
            AccountRole::Fees,
            AccountRole::Gains,
            AccountRole::Dividends,
            AccountRole::Interest,
            AccountRole::Rewards,
            AccountRole::Tax,
            AccountRole::Transfers,
            AccountRole::Rounding,
        ]
    }

    fn form() -> Form {
        Form::AccountRole
    }

    ghost reads_back = { elim [ account_role.Invest ↦ refl | account_role.Cash ↦ refl | account_role.Fees ↦ refl | account_role.Gains ↦ refl | account_role.Dividends ↦ refl | account_role.Interest ↦ refl | account_role.Rewards ↦ refl | account_role.Tax ↦ refl | account_role.Transfers ↦ refl | account_role.Rounding ↦ refl ] };
}

impl Part for AccountRole {
    ghost said = { word_of words.account_role_word words.account_role_all form.AccountRole };

    fn read(alloc: Global, place: &str, value: &Value) -> Result<AccountRole, ProfileFault> {
        word_at(alloc, place, value)
    }
}

impl Word for Role {
    ghost word = { words.role_word };

    ghost all = { words.role_all };

    ghost form = { form.Role };

    fn word(self) -> &'static str {
        match self {
            Role::Account => "account",
            Role::Amount => "amount",
            Role::Booked => "booked",
            Role::BookedCurrency => "booked-currency",
            Role::Cost => "cost",
            Role::CostDay => "cost-day",
            Role::Currency => "currency",
            Role::Day => "day",
            Role::Fee => "fee",
            Role::FeeCurrency => "fee-currency",
            Role::Note => "note",
            Role::Other => "other",
            Role::OtherCurrency => "other-currency",
            Role::Price => "price",
            Role::PriceCurrency => "price-currency",
            Role::Rate => "rate",
            Role::Ratio => "ratio",
            Role::Ref => "ref",
            Role::Symbol => "symbol",
            Role::Tax => "tax",
            Role::TaxCurrency => "tax-currency",
            Role::Time => "time",
            Role::Units => "units",
        }
    }

    fn all() -> &'static [Role] {
        &[
            Role::Account,
            Role::Amount,
            Role::Booked,
            Role::BookedCurrency,
            Role::Cost,
            Role::CostDay,
            Role::Currency,
            Role::Day,
            Role::Fee,
            Role::FeeCurrency,
            Role::Note,
            Role::Other,
            Role::OtherCurrency,
            Role::Price,
            Role::PriceCurrency,
            Role::Rate,
            Role::Ratio,
            Role::Ref,
            Role::Symbol,
            Role::Tax,
            Role::TaxCurrency,
            Role::Time,
            Role::Units,
        ]
    }

    fn form() -> Form {
        Form::Role
    }

    ghost reads_back = { elim [ role.Account ↦ refl | role.Amount ↦ refl | role.Booked ↦ refl | role.BookedCurrency ↦ refl | role.Cost ↦ refl | role.CostDay ↦ refl | role.Currency ↦ refl | role.Day ↦ refl | role.Fee ↦ refl | role.FeeCurrency ↦ refl | role.Note ↦ refl | role.Other ↦ refl | role.OtherCurrency ↦ refl | role.Price ↦ refl | role.PriceCurrency ↦ refl | role.Rate ↦ refl | role.Ratio ↦ refl | role.Ref ↦ refl | role.Symbol ↦ refl | role.Tax ↦ refl | role.TaxCurrency ↦ refl | role.Time ↦ refl | role.Units ↦ refl ] };
}
