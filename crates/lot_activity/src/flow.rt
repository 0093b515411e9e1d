ghost use Rattle.std.specs.Prelude.{◌≡◌, [], IsTrue, SomeIff};
ghost use Rattle.lot_activity.specs.Rows.{flow_of, has_room, in_of, out_of, with_units};

use lot_num::{Units, Wide};

/// What legs put into an account and took out of it, as weights. Neither is below zero.
#[derive(Clone, Copy, Debug, PartialEq, Eq)]
pub(crate) struct Flow {
    /// The sum of the units above zero.
    pub incoming: Wide,
    /// The sum of those below zero, with its sign turned.
    pub outgoing: Wide,
}

impl Flow {
    /// Returns the sums over no legs.
    pub fn none() -> Flow
        ensures { result ≡ flow_of [] }
    {
        Flow {
            incoming: Wide::ZERO,
            outgoing: Wide::ZERO,
        }
    }

    /// Returns the sums with the units of one more leg, or `None` where a sum leaves its range.
    pub fn with(self, units: Units) -> Option<Flow>
        ensures { SomeIff result (IsTrue (has_room self units)) (with_units self units) }
    {
        let incoming = self.incoming.checked_add(incoming_of(units))?;
        let outgoing = self.outgoing.checked_add(outgoing_of(units))?;
        Some(Flow { incoming, outgoing })
    }
}

/// Returns the units above zero, as a weight.
fn incoming_of(units: Units) -> Wide
    ensures { result ≡ in_of units }
{
    if units.mantissa() < 0 {
        Wide::ZERO
    } else {
        units.wide()
    }
}

/// Returns the units below zero with their sign turned, as a weight.
fn outgoing_of(units: Units) -> Wide
    ensures { result ≡ out_of units }
{
    if units.mantissa() < 0 {
        units.negated().wide()
    } else {
        Wide::ZERO
    }
}
