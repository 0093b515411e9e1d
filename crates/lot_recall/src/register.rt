ghost use Rattle.lot_recall.specs.Place.{IsAnyNoted, shown_noted};
ghost use Rattle.lot_recall.specs.Wanted.{AreWanted, AreWantedRows, IsBehindWanted, IsBehindWantedRows, Wanted};
ghost use Rattle.lot_register.specs.declared.leg.NotedLeg.{NotedLeg as NotedLegOf};

use crate::ordered::OrderedPlace;
use crate::place::RecallPlace;
use lot_register::NotedLeg;
use lot_table::Fault;
use lot_walk::Place;
use sqlite::{Alter, Connection};
use std::alloc::Global;

/// The place of a walk over the legs of a register, in its order.
#[derive(Drop)]
pub enum RegisterPlace {
    /// Those at keys, which are looked up.
    AtKeys(RecallPlace),
    /// Those that the book has in the order of days.
    InOrder(OrderedPlace),
}

impl Place for RegisterPlace {
    type Row = NotedLeg;

    ghost Asked = { Wanted };

    ghost Shown = { NotedLegOf };

    ghost shown = { shown_noted };

    ghost IsGood = { IsAnyNoted };

    ghost AreAll = { AreWanted };

    ghost IsBehind = { IsBehindWanted };

    ghost AreAllRows = { AreWantedRows };

    ghost IsBehindRows = { IsBehindWantedRows };

    fn next<S: Alter>(
        &mut self,
        alloc: Global,
        conn: &mut Connection<S>,
    ) -> Result<Option<NotedLeg>, Fault> {
        match self {
            RegisterPlace::AtKeys(place) => place.next(alloc, conn),
            RegisterPlace::InOrder(place) => place.next(alloc, conn),
        }
    }
}
