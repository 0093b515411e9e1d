//! What is watched of a call's commands as they are judged.

ghost use Rattle.std.specs.Prelude.{◌≡◌, [], false};
ghost use Rattle.lot_call.specs.Sums.{KeepsSums};

use crate::call::Call;
use crate::crumbs::Crumbs;
use crate::remembered::Remembered;

/// What is watched of a call's commands.
#[derive(Drop)]
pub struct Watched {
    pub crumbs: Crumbs,
    /// What is remembered of those that aren't kept.
    pub remembered: Remembered,
}

impl Watched {
    /// Returns nothing yet, of a call.
    pub fn of(call: &Call<'_>) -> Watched
        ensures crumbs { KeepsSums [] result.crumbs }
        ensures remembered { result.remembered.is_dropped ≡ false }
    {
        Watched {
            crumbs: Crumbs::of(call),
            remembered: Remembered::of(call),
        }
    }
}
