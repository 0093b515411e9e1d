ghost use Rattle.std.specs.Prelude.{◌≡◌, [], false, true, Err, IfErr, IfOk, List, Some};
ghost use Rattle.lot_book.specs.Facts.{Entry};
ghost use Rattle.lot_noted.specs.Book.{Asked, NeverFall, asked_in, days_of};
ghost use Rattle.lot_noted.specs.Keys.{key_of};
ghost use Rattle.lot_recall.specs.Ordered.{AreOrdered, AreOrderedRows, IsBehindOrdered, IsBehindOrderedRows, is_above};
ghost use Rattle.lot_recall.specs.Place.{IsAnyNoted, shown_noted};
ghost use Rattle.lot_recall.specs.Scope.{owned};
ghost use Rattle.lot_register.specs.declared.leg.NotedLeg.{NotedLeg as NotedLegOf};
ghost use Rattle.lot_rows.specs.Tables.{Tables};
ghost use Rattle.lot_stored.specs.StandFor.{StandFor};
ghost use Rattle.lot_walk.specs.Step.{IsPrefix};

use crate::noted::NotedPlace;
use crate::scope::OwnedScope;
use lot_noted::laws::{legs_stay_where_days_never_fall, the_legs_are_in_the_order_of_days};
use lot_noted::{LegKey, RegisterScope};
use lot_register::NotedLeg;
use lot_table::Fault;
use lot_walk::Place;
use sqlite::{Alter, Connection};
use std::alloc::{AllocError, Global};

/// The place of a walk over the legs of a register, where the days of the entries never fall: the
/// book has its legs in the order of days then, and they are read once.
#[derive(Drop)]
pub struct OrderedPlace {
    scope: OwnedScope,
    noted: NotedPlace,
    /// Where the leg stands that was given last.
    last: Option<LegKey>,
}

impl OrderedPlace {
    /// Returns the place before the first leg. The only error is out of memory.
    pub fn new(alloc: Global, scope: &RegisterScope<'_>) -> Result<OrderedPlace, AllocError>
        ensures begun { IfOk result (λ place. (tables : Tables) (entries : List Entry)
            → StandFor tables entries → NeverFall (days_of entries)
            → IsPrefix AreOrdered (asked_in scope.now) entries []
            × IsBehindOrdered place tables (asked_in scope.now) entries []) }
        ensures rows { IfOk result (λ place. (tables : Tables)
            → IsBehindOrderedRows place tables (asked_in scope.now) []) }
    {
        let scope = OwnedScope::of(alloc, scope)?;
        Ok(OrderedPlace {
            scope,
            noted: NotedPlace::new(alloc),
            last: None,
        })
    }

    /// Gives a leg that is asked for.
    ///
    /// The error is `Damaged`, where the leg doesn't stand behind the one that was given last.
    fn give(&mut self, leg: NotedLeg) -> Result<Option<NotedLeg>, Fault>
        ensures noted { self.new.noted ≡ self.old.noted }
        ensures scope { owned self.new.scope ≡ owned self.old.scope }
        ensures gives { IfOk result (λ found. (found ≡ Some leg)
            × (self.new.last ≡ Some (key_of leg)) × (is_above self.old.last (key_of leg) ≡ true)) }
        ensures damaged { IfErr result (λ fault. (fault ≡ Fault.Damaged)
            × (is_above self.old.last (key_of leg) ≡ false)) }
    {
        if !is_above(self.last, LegKey::of(&leg)) {
            return Err(Fault::Damaged);
        }
        self.last = Some(LegKey::of(&leg));
        Ok(Some(leg))
    }
}

/// Returns whether a key is behind the last one, if there was one.
fn is_above(last: Option<LegKey>, key: LegKey) -> bool
    ensures { result ≡ is_above last key }
{
    match last {
        Some(last) => last.cmp(&key).is_lt(),
        None => true,
    }
}

impl Place for OrderedPlace {
    type Row = NotedLeg;

    ghost Asked = { Asked };

    ghost Shown = { NotedLegOf };

    ghost shown = { shown_noted };

    ghost IsGood = { IsAnyNoted };

    ghost AreAll = { AreOrdered };

    ghost IsBehind = { IsBehindOrdered };

    ghost AreAllRows = { AreOrderedRows };

    ghost IsBehindRows = { IsBehindOrderedRows };

    /// `Damaged` is returned also where the entry of a leg has no row, or a text that is that of no
    /// command, and where a leg that is asked for stands before the one that was given last. `Memory`
    /// is returned also where more legs are passed over than a `u64` counts.
    fn next<S: Alter>(
        &mut self,
        alloc: Global,
        conn: &mut Connection<S>,
    ) -> Result<Option<NotedLeg>, Fault> {
        legs_stay_where_days_never_fall();
        the_legs_are_in_the_order_of_days();
        'legs: for _ in 0..u64::MAX {
            let Some(leg) = self.noted.next(alloc, conn)? else {
                return Ok(None);
            };
            if self.scope.has(&leg) {
                return self.give(leg);
            }
        }
        Err(Fault::Memory)
    }
}
