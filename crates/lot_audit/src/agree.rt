ghost use Rattle.lot_audit.specs.Told.{TellsAccount, TellsAllowed, TellsCommodity, TellsHead, TellsLot, TellsOpening, TellsPlain};

use crate::pass::Replayed;
use lot_rows::account::AccountRow;
use lot_rows::allowed::AllowedRow;
use lot_rows::commodity::CommodityRow;
use lot_rows::head::HeadRow;
use lot_rows::lot::LotRow;
use lot_rows::opening::OpeningRow;
use lot_rows::plain::PlainRow;
use lot_table::TableRow;

/// A row of a table that is compared with what is known of the entries.
pub(crate) trait ToldRow: TableRow {
    ghost use Rattle.std.specs.Prelude.{◌↔◌, IsTrue, List};
    ghost use Rattle.lot_audit.specs.declared.pass.Replayed.{Replayed as KnownOf};
    ghost use Rattle.lot_rows.specs.Tables.{Tables};

    // The rows of the table, and what each of them has to say.
    ghost rows: { Tables → List Self };

    ghost Tells: { KnownOf → Self → Type 0 };

    /// Returns whether the row says what is known.
    fn agrees(self, known: &Replayed) -> bool
        ensures { IsTrue result ↔ Tells known.now self };
}

/// The account stands as the row says.
impl ToldRow for AccountRow {
    ghost rows = { λ b. b.account };

    ghost Tells = { λ known. TellsAccount known.replay.view };

    fn agrees(self, known: &Replayed) -> bool {
        match known.replay.view().standing(&self.name) {
            Some(standing) => {
                standing.opened == self.opened
                    && standing.closed == self.closed
                    && standing.method == self.method
            }
            None => false,
        }
    }
}

/// The account of the row was opened.
impl ToldRow for AllowedRow {
    ghost rows = { λ b. b.allowed };

    ghost Tells = { λ known. TellsAllowed known.replay.view };

    fn agrees(self, known: &Replayed) -> bool {
        known.replay.view().standing(&self.account).is_some()
    }
}

/// The commodity of the row was declared.
impl ToldRow for CommodityRow {
    ghost rows = { λ b. b.commodity };

    ghost Tells = { λ known. TellsCommodity known.replay.view };

    fn agrees(self, known: &Replayed) -> bool {
        known.replay.view().is_declared(&self.name)
    }
}

/// The latest day at cost is that of the row.
impl ToldRow for HeadRow {
    ghost rows = { λ b. b.head };

    ghost Tells = { λ known. TellsHead known.replay.view };

    fn agrees(self, known: &Replayed) -> bool {
        let view = known.replay.view();
        view.latest_at_cost(&self.account, &self.commodity) == Some(self.day)
    }
}

/// So many units are held in the lot as the row says.
impl ToldRow for LotRow {
    ghost rows = { λ b. b.lot };

    ghost Tells = { λ known. TellsLot known.replay.view };

    fn agrees(self, known: &Replayed) -> bool {
        let view = known.replay.view();
        view.units(&self.account, &self.commodity, Some(&self.lot)) == self.units.units()
    }
}

/// So many plain units are held as the row says.
impl ToldRow for PlainRow {
    ghost rows = { λ b. b.plain };

    ghost Tells = { λ known. TellsPlain known.replay.view };

    fn agrees(self, known: &Replayed) -> bool {
        let view = known.replay.view();
        view.units(&self.account, &self.commodity, None) == self.units.units()
    }
}

/// The lot is held, and its opening number is that of the row.
impl ToldRow for OpeningRow {
    ghost rows = { λ b. b.opening };

    ghost Tells = { λ known. TellsOpening known.replay.view };

    fn agrees(self, known: &Replayed) -> bool {
        let Some(held) = known.replay.view().held(&self.account) else {
            return false;
        };
        held.opening(&self.commodity, &self.lot) == Some(self.opening.number())
    }
}
