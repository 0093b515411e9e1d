//! Looking at a book that commands would have made which aren't kept.
ghost use Rattle.std.specs.Prelude.{◌≡◌, ◌⊎◌, length};
ghost use Rattle.lot_atomic.specs.AllOrNone.{together};
ghost use Rattle.lot_atomic.specs.declared.all_or_none.Together.TheVariants.{Refuses};
ghost use Rattle.lot_table.specs.Book.{IsUndone};
ghost use Rattle.sqlite.specs.State.{HasCleanDisk, Survives};

use lot_command::Key;
use lot_ledger::Verdict;
use lot_rounding::Asked;
use lot_table::Queryable;

/// What looks at the book that commands would have made which aren't kept.
pub trait Look {
    /// Looks at it, before what they made is dropped. It is called once, where one of them is
    /// refused, with all of them, their numbers and their verdicts, and only reads.
    fn look<D: Queryable>(
        &mut self,
        db: &mut D,
        commands: &[(Key, Asked)],
        numbers: &[usize],
        verdicts: &[Verdict],
    )
        requires each { length verdicts.now ≡ length commands.now }
        requires numbers { length numbers.now ≡ length commands.now }
        requires refused { together verdicts.now ≡ Refuses }
        ensures same_reference { D.reference db.new ≡ D.reference db.old }
        ensures reads { HasCleanDisk (D.shown db.new)
            → (db.new ≡ db.old) ⊎ IsUndone (D.shown db.old) (D.shown db.new) }
        ensures crash { Survives (D.shown db.old) (D.shown db.new) (λ _. ⊥) };
}
