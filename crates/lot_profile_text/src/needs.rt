//! What a kind of rows needs of its profile.
ghost use Rattle.std.specs.Prelude.{◌≡◌, find, not};
ghost use Rattle.lot_profile_text.specs.Needs.{account_beside, account_beside_for, account_with, accounts_needed, has_account, has_role, is_account_role, is_by_price, is_by_value, is_role, missing_account, missing_role, name_account, name_role, reward_role, role_beside, role_beside_for, role_with, role_without, roles_needed, trade_account, trade_role};

use crate::word::Word;
use lot_profile::{
    AccountOf, AccountRole, Basis, CostBasis, Kind, KindRule, Profile, Rewards, Role, Sources,
    Table,
};

// ---- What is named.

/// Returns whether two roles are the same.
#[tactic(auto, unfolding(crate::specs::Needs::is_role))]
fn is_role(one: Role, other: Role) -> bool
    ensures { result ≡ is_role one other }
{
    one.word() == other.word()
}

/// Returns whether two accounts are for the same.
#[tactic(auto, unfolding(crate::specs::Needs::is_account_role))]
fn is_account_role(one: AccountRole, other: AccountRole) -> bool
    ensures { result ≡ is_account_role one other }
{
    one.word() == other.word()
}

/// Returns whether columns name a role.
fn name_role(columns: &[Sources], role: Role) -> bool
    ensures { result ≡ name_role columns.now role }
{
    columns.iter().any(|sources| is_role(sources.role, role))
}

/// Returns whether accounts name one for something.
fn name_account(accounts: &[AccountOf], role: AccountRole) -> bool
    ensures { result ≡ name_account accounts.now role }
{
    accounts
        .iter()
        .any(|account| is_account_role(account.role, role))
}

/// Returns whether a kind, or its table, names a role.
#[tactic(auto, unfolding(crate::specs::Needs::has_role))]
fn has_role(table: &Table, rule: &KindRule, role: Role) -> bool
    ensures { result ≡ has_role table.now rule.now role }
{
    name_role(rule.columns.as_slice(), role) || name_role(table.columns.as_slice(), role)
}

/// Returns whether a kind, or the profile, which has these accounts, names an account.
#[tactic(auto, unfolding(crate::specs::Needs::has_account))]
fn has_account(accounts: &[AccountOf], rule: &KindRule, role: AccountRole) -> bool
    ensures { result ≡ has_account accounts.now rule.now role }
{
    name_account(rule.accounts.as_slice(), role) || name_account(accounts, role)
}

// ---- Roles.

/// The roles of units against something.
const UNIT_ROLES: &[Role] = &[Role::Day, Role::Symbol, Role::Units, Role::Currency];

/// The roles of cash alone.
const CASH_ROLES: &[Role] = &[Role::Day, Role::Amount, Role::Currency];

/// Returns the roles that a kind needs in any profile.
pub(crate) fn roles_needed(kind: Kind) -> &'static [Role]
    ensures { result.now ≡ roles_needed kind }
{
    match kind {
        Kind::Buy | Kind::Sell | Kind::CancelBuy | Kind::CancelSell | Kind::Reward => UNIT_ROLES,
        Kind::Dividend | Kind::Interest | Kind::Tax | Kind::Fee => CASH_ROLES,
        Kind::Deposit | Kind::Withdrawal | Kind::Exchange => CASH_ROLES,
        Kind::TransferIn => &[
            Role::Day,
            Role::Symbol,
            Role::Units,
            Role::Currency,
            Role::Cost,
            Role::CostDay,
        ],
        Kind::Split => &[Role::Day, Role::Symbol],
        Kind::Price => &[Role::Day, Role::Symbol, Role::Price],
        Kind::ByHand => &[Role::Day],
        Kind::Skip => &[],
    }
}

/// Returns whether the price is the cost.
fn is_by_price(cost: CostBasis) -> bool
    ensures { result ≡ is_by_price cost }
{
    matches!(cost, CostBasis::Price)
}

/// Returns whether the value of rewards counts.
fn is_by_value(rewards: Rewards) -> bool
    ensures { result ≡ is_by_value rewards }
{
    matches!(rewards, Rewards::Value)
}

/// Returns the price, where a trade needs it: where that is the cost, or where there is no amount.
fn trade_role(basis: &Basis, table: &Table, rule: &KindRule) -> Option<Role>
    ensures { result ≡ trade_role basis.now table.now rule.now }
{
    if is_by_price(basis.cost) || !has_role(table, rule, Role::Amount) {
        Some(Role::Price)
    } else {
        None
    }
}

/// Returns the price, where a reward needs it: where its value counts and there is no amount.
fn reward_role(basis: &Basis, table: &Table, rule: &KindRule) -> Option<Role>
    ensures { result ≡ reward_role basis.now table.now rule.now }
{
    if is_by_value(basis.rewards) && !has_role(table, rule, Role::Amount) {
        Some(Role::Price)
    } else {
        None
    }
}

/// Returns a role that is needed where there is another.
fn role_with(table: &Table, rule: &KindRule, other: Role, needed: Role) -> Option<Role>
    ensures { result ≡ role_with table.now rule.now other needed }
{
    if has_role(table, rule, other) {
        Some(needed)
    } else {
        None
    }
}

/// Returns a role that is needed where there isn't another.
fn role_without(table: &Table, rule: &KindRule, other: Role, needed: Role) -> Option<Role>
    ensures { result ≡ role_without table.now rule.now other needed }
{
    if has_role(table, rule, other) {
        None
    } else {
        Some(needed)
    }
}

/// Returns the role that a kind needs beside those of any profile, by what its own profile says.
#[tactic(auto, unfolding(crate::specs::Needs::role_beside))]
fn role_beside(basis: &Basis, table: &Table, rule: &KindRule) -> Option<Role>
    ensures { result ≡ role_beside basis.now table.now rule.now }
{
    match rule.kind {
        Kind::Buy | Kind::Sell | Kind::CancelBuy | Kind::CancelSell => {
            trade_role(basis, table, rule)
        }
        Kind::Dividend | Kind::Interest => {
            role_with(table, rule, Role::Booked, Role::BookedCurrency)
        }
        Kind::Exchange => role_with(table, rule, Role::Other, Role::OtherCurrency),
        Kind::Reward => reward_role(basis, table, rule),
        Kind::Split => role_without(table, rule, Role::Ratio, Role::Units),
        Kind::Price => role_without(table, rule, Role::PriceCurrency, Role::Currency),
        _ => None,
    }
}

/// Returns the first role that a kind needs and that neither it nor its table names.
#[tactic(auto, unfolding(crate::specs::Needs::missing_role))]
pub(crate) fn missing_role(basis: &Basis, table: &Table, rule: &KindRule) -> Option<Role>
    ensures { result ≡ missing_role basis.now table.now rule.now }
{
    if let Some(role) = missing_of(table, rule, roles_needed(rule.kind)) {
        return Some(role);
    }
    match role_beside(basis, table, rule) {
        Some(role) if !has_role(table, rule, role) => Some(role),
        _ => None,
    }
}

/// Returns the first of some roles that neither a kind nor its table names.
fn missing_of(table: &Table, rule: &KindRule, roles: &[Role]) -> Option<Role>
    ensures { result ≡ find (λ role. not (has_role table.now rule.now role)) roles.now }
{
    roles
        .iter()
        .copied()
        .find(|role| !has_role(table, rule, *role))
}

// ---- Accounts.

/// Returns the accounts that a kind needs in any profile.
pub(crate) fn accounts_needed(kind: Kind) -> &'static [AccountRole]
    ensures { result.now ≡ accounts_needed kind }
{
    match kind {
        Kind::Buy | Kind::CancelBuy => &[
            AccountRole::Invest,
            AccountRole::Cash,
            AccountRole::Rounding,
        ],
        Kind::Sell | Kind::CancelSell => &[
            AccountRole::Invest,
            AccountRole::Cash,
            AccountRole::Rounding,
            AccountRole::Gains,
        ],
        Kind::Dividend => &[AccountRole::Cash, AccountRole::Dividends],
        Kind::Interest => &[AccountRole::Cash, AccountRole::Interest],
        Kind::Tax => &[AccountRole::Cash, AccountRole::Tax],
        Kind::Fee => &[AccountRole::Cash, AccountRole::Fees],
        Kind::Deposit | Kind::Withdrawal | Kind::Exchange => {
            &[AccountRole::Cash, AccountRole::Transfers]
        }
        Kind::Reward | Kind::Split => &[AccountRole::Invest, AccountRole::Rounding],
        Kind::TransferIn => &[
            AccountRole::Invest,
            AccountRole::Transfers,
            AccountRole::Rounding,
        ],
        Kind::Price | Kind::ByHand | Kind::Skip => &[],
    }
}

/// Returns the account of fees, where a trade needs it: where the price is the cost, or where the fee may be in another currency.
fn trade_account(basis: &Basis, table: &Table, rule: &KindRule) -> Option<AccountRole>
    ensures { result ≡ trade_account basis.now table.now rule.now }
{
    if !has_role(table, rule, Role::Fee) {
        return None;
    }
    if is_by_price(basis.cost) || has_role(table, rule, Role::FeeCurrency) {
        Some(AccountRole::Fees)
    } else {
        None
    }
}

/// Returns an account that is needed where there is a role.
fn account_with(
    table: &Table,
    rule: &KindRule,
    other: Role,
    needed: AccountRole,
) -> Option<AccountRole>
    ensures { result ≡ account_with table.now rule.now other needed }
{
    if has_role(table, rule, other) {
        Some(needed)
    } else {
        None
    }
}

/// Returns the account that a kind needs beside those of any profile, by what its own profile says.
#[tactic(auto, unfolding(crate::specs::Needs::account_beside))]
fn account_beside(basis: &Basis, table: &Table, rule: &KindRule) -> Option<AccountRole>
    ensures { result ≡ account_beside basis.now table.now rule.now }
{
    match rule.kind {
        Kind::Buy | Kind::Sell | Kind::CancelBuy | Kind::CancelSell => {
            trade_account(basis, table, rule)
        }
        Kind::Dividend | Kind::Interest => {
            account_with(table, rule, Role::Tax, AccountRole::Tax)
        }
        Kind::Exchange => account_with(table, rule, Role::Fee, AccountRole::Fees),
        Kind::Reward if is_by_value(basis.rewards) => Some(AccountRole::Rewards),
        _ => None,
    }
}

/// Returns the first account that a kind needs and that neither it nor the profile names.
#[tactic(auto, unfolding(crate::specs::Needs::missing_account))]
pub(crate) fn missing_account(
    profile: &Profile,
    table: &Table,
    rule: &KindRule,
) -> Option<AccountRole>
    ensures { result ≡ missing_account profile.now table.now rule.now }
{
    let accounts = profile.accounts.as_slice();
    if let Some(role) = missing_among(accounts, rule, accounts_needed(rule.kind)) {
        return Some(role);
    }
    match account_beside(&profile.basis, table, rule) {
        Some(role) if !has_account(accounts, rule, role) => Some(role),
        _ => None,
    }
}

/// Returns the first of some accounts that neither a kind nor the profile names.
fn missing_among(
    accounts: &[AccountOf],
    rule: &KindRule,
    needed: &[AccountRole],
) -> Option<AccountRole>
    ensures { result ≡ find (λ role. not (has_account accounts.now rule.now role)) needed.now }
{
    needed
        .iter()
        .copied()
        .find(|role| !has_account(accounts, rule, *role))
}
