//! What a profile may say of each role.
ghost use Rattle.std.specs.Prelude.{◌≡◌};
ghost use Rattle.lot_profile_text.specs.Roles.{may_be_rounded, may_be_several, may_be_turned, turned_of, turned_role};

use crate::entry::Form;
use crate::fault::ProfileFault;
use crate::part::{Part, wrong};
use crate::word::named;
use lot_profile::Role;
use std::alloc::Global;
use toml::Value;

/// Returns whether a role may have several sources: numbers are added, references and notes joined.
pub(crate) fn may_be_several(role: Role) -> bool
    ensures { result ≡ may_be_several role }
{
    matches!(
        role,
        Role::Amount
            | Role::Booked
            | Role::Cost
            | Role::Fee
            | Role::Note
            | Role::Other
            | Role::Price
            | Role::Rate
            | Role::Ref
            | Role::Tax
            | Role::Units
    )
}

/// Returns whether the sign of a role may be printed the other way.
fn may_be_turned(role: Role) -> bool
    ensures { result ≡ may_be_turned role }
{
    matches!(
        role,
        Role::Amount
            | Role::Booked
            | Role::Cost
            | Role::Fee
            | Role::Other
            | Role::Price
            | Role::Tax
            | Role::Units
    )
}

/// Returns whether a role is one of the numbers of a trade, which the broker may round.
pub(crate) fn may_be_rounded(role: Role) -> bool
    ensures { result ≡ may_be_rounded role }
{
    matches!(
        role,
        Role::Amount | Role::Fee | Role::Price | Role::Rate | Role::Units
    )
}

/// A role whose sign is printed the other way.
impl Part for Role {
    ghost said = { turned_of };

    fn read(alloc: Global, place: &str, value: &Value) -> Result<Role, ProfileFault> {
        let Some(text) = value.as_str() else {
            return Err(wrong(alloc, place, Form::TurnedRole));
        };
        match turned_role(text) {
            Some(role) => Ok(role),
            None => Err(wrong(alloc, place, Form::TurnedRole)),
        }
    }
}

/// Returns the role of which a text is the word, where its sign may be printed the other way.
#[tactic(auto, unfolding(crate::specs::Roles::turned_role))]
fn turned_role(text: &str) -> Option<Role>
    ensures { result ≡ turned_role text.now }
{
    let role = named(text)?;
    if may_be_turned(role) {
        Some(role)
    } else {
        None
    }
}
