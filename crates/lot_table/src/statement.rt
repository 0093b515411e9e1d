ghost use Rattle.std.specs.Borrow.{GName};
ghost use Rattle.std.specs.Prelude.{◌≡◌, IsTrue, IfOk, IfErr, OnOk, OnErr};
ghost use Rattle.sqlite.specs.Held.{state};
ghost use Rattle.sqlite.specs.State.{HasCleanDisk, IsUnchanged, Shown, State, Survives};
ghost use Rattle.sqlite.specs.Values.{bound};
ghost use Rattle.lot_table.specs.Book.{IsUndone};
ghost use Rattle.lot_table.specs.Call.{Runs};
ghost use Rattle.lot_table.specs.Statement.{DiskFailed, IsSelect, Refused};

use crate::fault::Fault;
use sqlite::types::ValueRef;
use sqlite::{Alter, Connection, Row, Transaction};

/// Runs one statement that changes rows, in a transaction.
///
/// After an error nothing changed, or the transaction is rolled back. A crash during the call leaves only what a crash before
/// it could leave.
pub fn change<S: Alter>(
    tx: &mut Transaction<'_, S>,
    text: &str,
    params: &[ValueRef<'_>],
) -> Result<(), Fault>
    requires { HasCleanDisk (state S.Store tx.old.conn.now)
        → IsTrue (state S.Store tx.old.conn.now).in_transaction }
    ensures same_reference { tx.new.conn.ghost_name ≡ tx.old.conn.ghost_name }
    ensures runs { Runs text.now (bound params.now) (state S.Store tx.old.conn.now)
        (state S.Store tx.new.conn.now) result }
{
    tx.execute(text, params)?;
    Ok(())
}

/// What a query is asked of: a connection, or an open transaction, whose changes the query sees.
pub trait Queryable {
    // The database that a query sees.
    ghost shown: { Self → State };

    // Which connection a transaction is of.
    ghost reference: { Self → GName };

    /// Returns the rows that a query answers.
    ///
    /// The query changes nothing. After an error nothing changed, or a transaction that was open is rolled back.
    fn ask(&mut self, text: &str, params: &[ValueRef<'_>]) -> Result<Vec<Row>, Fault>
        requires { IsSelect text.now }
        ensures same_reference { reference self.new ≡ reference self.old }
        ensures shown { HasCleanDisk (shown self.new)
            → IfOk result
            (λ rows. Shown text.now (bound params.now) (shown self.old) (shown self.new)
            rows.items) }
        ensures same { HasCleanDisk (shown self.new)
            → OnOk result (IsUnchanged (shown self.old) (shown self.new)) }
        ensures refused { HasCleanDisk (shown self.new)
            → IfErr result (Refused text.now (bound params.now) (shown self.old) (shown self.new)) }
        ensures device { HasCleanDisk (shown self.new) → result ≡ Err Fault.Device
            → DiskFailed (shown self.old) (shown self.new) }
        ensures err { HasCleanDisk (shown self.new)
            → OnErr result (IsUndone (shown self.old) (shown self.new)) }
        ensures crash { Survives (shown self.old) (shown self.new) (λ _. ⊥) };
}

impl<S: Alter> Queryable for Connection<S> {
    ghost shown = { state S.Store };

    ghost reference = { λ _. 0 };

    fn ask(&mut self, text: &str, params: &[ValueRef<'_>]) -> Result<Vec<Row>, Fault> {
        let rows = self.query_all(text, params)?;
        Ok(rows)
    }
}

impl<S: Alter> Queryable for Transaction<'_, S> {
    ghost shown = { λ tx. state S.Store tx.conn.now };

    ghost reference = { λ tx. tx.conn.ghost_name };

    fn ask(&mut self, text: &str, params: &[ValueRef<'_>]) -> Result<Vec<Row>, Fault> {
        let rows = self.query_all(text, params)?;
        Ok(rows)
    }
}

/// Returns the rows that a query answers.
///
/// The query changes nothing. After an error nothing changed, or a transaction that was open is rolled back.
pub fn ask<D: Queryable>(
    conn: &mut D,
    text: &str,
    params: &[ValueRef<'_>],
) -> Result<Vec<Row>, Fault>
    requires { IsSelect text.now }
    ensures same_reference { D.reference conn.new ≡ D.reference conn.old }
    ensures shown { HasCleanDisk (D.shown conn.new)
        → IfOk result
        (λ rows. Shown text.now (bound params.now) (D.shown conn.old) (D.shown conn.new)
        rows.items) }
    ensures same { HasCleanDisk (D.shown conn.new)
        → OnOk result (IsUnchanged (D.shown conn.old) (D.shown conn.new)) }
    ensures refused { HasCleanDisk (D.shown conn.new)
        → IfErr result (Refused text.now (bound params.now) (D.shown conn.old) (D.shown conn.new)) }
    ensures device { HasCleanDisk (D.shown conn.new) → result ≡ Err Fault.Device
        → DiskFailed (D.shown conn.old) (D.shown conn.new) }
    ensures err { HasCleanDisk (D.shown conn.new)
        → OnErr result (IsUndone (D.shown conn.old) (D.shown conn.new)) }
    ensures crash { Survives (D.shown conn.old) (D.shown conn.new) (λ _. ⊥) }
{
    conn.ask(text, params)
}
