//! Which commands of a dump are left out, and what leaves out none.
ghost use Rattle.std.specs.Prelude.{◌≡◌, filter, map, not};
ghost use Rattle.lot_restore.specs.LeftOut.{is_left_out, is_of};

use lot_parts::Dumped;
use lot_without::Without;

/// Returns whether one of these leaves out a command.
pub(crate) fn is_left_out(without: &[Without], dumped: &Dumped) -> bool
    ensures { result ≡ is_left_out without.now dumped.now }
{
    without
        .iter()
        .any(|it| it.meets(dumped.number, &dumped.key))
}

/// Takes away those that leave out a command.
pub(crate) fn meet(unmet: &mut Vec<&Without>, dumped: &Dumped)
    ensures { map (λ it. it.now) unmet.new.items
        ≡ filter (λ it. not (is_of dumped.now it)) (map (λ it. it.now) unmet.old.items) }
{
    unmet.retain(|it| !it.meets(dumped.number, &dumped.key));
}
