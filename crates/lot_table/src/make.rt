ghost use Rattle.std.specs.Prelude.{◌≡◌, ◌⊎◌, [], IfErr, IfOk, IsTrue, Ok, OnErr, OnOk, map};
ghost use Rattle.lot_table.specs.Book.{IsUndone, StaysInside};
ghost use Rattle.lot_table.specs.Make.{HaltedIn, RanEach, RefusedMaking};
ghost use Rattle.sqlite.specs.Held.{state};
ghost use Rattle.sqlite.specs.State.{Executes, HasCleanDisk, KeepsCommit, Survives};

use crate::fault::Fault;
use sqlite::{Alter, Error, Transaction};
use sqlite_resolve::CompileError;
use thiserror::Error as FaultError;

/// Why tables weren't made.
#[derive(Clone, Copy, Debug, PartialEq, Eq, FaultError)]
pub enum MakeFault {
    /// The name of a table is taken, by a table or a view, without regard to the case of ASCII letters.
    #[error("the name of a table is taken")]
    Taken,
    /// A statement failed.
    #[error("{0}")]
    Failed(Fault),
}

impl From<Error> for MakeFault {
    ghost use Rattle.lot_table.specs.Make.{make_fault_of};

    ghost from_gives = { λ error fault. fault ≡ make_fault_of error };

    fn from(error: Error) -> MakeFault {
        match error {
            Error::SqlInputError(CompileError::Exists) => MakeFault::Taken,
            error => MakeFault::Failed(Fault::from(error)),
        }
    }
}

/// Makes tables in a transaction, each by its text, up to the first that is refused.
///
/// After an error the last commit stands; the caller drops the transaction, which rolls back what was made.
pub fn make_each<S: Alter>(tx: &mut Transaction<'_, S>, texts: &[&str]) -> Result<(), MakeFault>
    requires { HasCleanDisk (state S.Store tx.old.conn.now)
        → IsTrue (state S.Store tx.old.conn.now).in_transaction }
    ensures same_reference { tx.new.conn.ghost_name ≡ tx.old.conn.ghost_name }
    ensures inside { HasCleanDisk (state S.Store tx.new.conn.now)
        → OnOk result (IsTrue (state S.Store tx.new.conn.now).in_transaction) }
    ensures ran { HasCleanDisk (state S.Store tx.new.conn.now) → OnOk result
        (RanEach S.Store (map (λ t. t.now) texts.now) tx.old.conn.now tx.new.conn.now) }
    ensures halted { HasCleanDisk (state S.Store tx.new.conn.now) → IfErr result
        (HaltedIn S.Store (map (λ t. t.now) texts.now) tx.old.conn.now tx.new.conn.now) }
    ensures kept { HasCleanDisk (state S.Store tx.new.conn.now)
        → KeepsCommit (state S.Store tx.old.conn.now) (state S.Store tx.new.conn.now) }
    ensures crash { Survives (state S.Store tx.old.conn.now) (state S.Store tx.new.conn.now)
        (λ _. ⊥) }
{
    'each: for text in texts {
        make_one(tx, text)?;
    }
    Ok(())
}

/// Makes one table.
fn make_one<S: Alter>(tx: &mut Transaction<'_, S>, text: &str) -> Result<usize, MakeFault>
    requires { HasCleanDisk (state S.Store tx.old.conn.now)
        → IsTrue (state S.Store tx.old.conn.now).in_transaction }
    ensures same_reference { tx.new.conn.ghost_name ≡ tx.old.conn.ghost_name }
    ensures inside { HasCleanDisk (state S.Store tx.new.conn.now) → OnOk result
        (StaysInside (state S.Store tx.old.conn.now) (state S.Store tx.new.conn.now)) }
    ensures ran { HasCleanDisk (state S.Store tx.new.conn.now) → IfOk result (λ changed. Executes
        text.now [] (state S.Store tx.old.conn.now) (state S.Store tx.new.conn.now) (Ok changed)) }
    ensures refused { HasCleanDisk (state S.Store tx.new.conn.now) → IfErr result
        (RefusedMaking text.now (state S.Store tx.old.conn.now) (state S.Store tx.new.conn.now)) }
    ensures err { HasCleanDisk (state S.Store tx.new.conn.now)
        → OnErr result (IsUndone (state S.Store tx.old.conn.now) (state S.Store tx.new.conn.now)) }
    ensures crash { Survives (state S.Store tx.old.conn.now) (state S.Store tx.new.conn.now)
        (λ _. ⊥) }
{
    let changed = tx.execute(text, &[])?;
    Ok(changed)
}
