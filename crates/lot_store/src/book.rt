ghost use Rattle.std.specs.Prelude.{◌≡◌, ◌≢◌, ◌↔◌, false, Err, IsTrue, None, OnErr, option_copied};
ghost use Rattle.lot_load.specs.Kept.{IsOf};
ghost use Rattle.lot_load.specs.Paired.{FindsPaired, KeepsPaired};
ghost use Rattle.lot_store.specs.Apply.{AppliesWith, RefusedByDeviceWith, condition_after, ready_of};
ghost use Rattle.std.specs.Result.{result_ok};
ghost use Rattle.lot_store.specs.ByText.{IsByText};
ghost use Rattle.lot_store.specs.Damage.{MeetsDamage, MeetsUnpaired};
ghost use Rattle.lot_store.specs.Extent.{Measures};
ghost use Rattle.lot_store.specs.Step.{LeavesTables, condition_from};
ghost use Rattle.lot_store.specs.Turned.{TurnsTo};
ghost use Rattle.lot_walk.specs.Step.{Steps, StepsOverRows};
ghost use Rattle.lot_table.specs.Statement.{DiskFailed};
ghost use Rattle.sqlite.specs.Held.{state};
ghost use Rattle.sqlite.specs.State.{HasCleanDisk};
ghost use Rattle.sqlite.specs.Tree.{Trees};

use crate::commit::commit;
use crate::extent::{Extent, measure};
use crate::fault::StoreFault;
use crate::turn::{Turn, turn_of};
use lot_command::{Command, Key, is_sayable};
use lot_ledger::{Edition, Outcome, Stop, Verdict, decide};
use lot_load::{Kept, look_on};
use lot_rounding::{Asked, Rounding};
use lot_table::Fault;
use lot_walk::Place;
use lot_write::laws::what_is_written_stands_for_the_book;
use lot_write::writes;
use sqlite::{Alter, Connection};
use std::alloc::Global;

/// Whether a book can be used.
#[derive(Clone, Copy)]
pub(crate) enum Condition {
    Ready,
    /// The device failed, or a commit is in doubt.
    NeedsReopen,
}

/// A book in a file, over a connection of its own.
pub struct Book<S: Alter> {
    conn: Connection<S>,
    condition: Condition,
    alloc: Global,
    ghost outside: { HasCleanDisk (state S.Store conn) → conn.in_transaction ≡ false },
    ghost unlimited: { conn.step_limit ≡ None },
}

impl<S: Alter> Book<S> {
    /// Applies a command under a key, on what is kept of the book: judges it by edition 2 and, where it is accepted, makes it an
    /// entry in one commit. It reads and writes only the rows that the command touches. Then it keeps what is known of the book.
    ///
    /// On a book `Device` comes only where the disk failed, or the database has no room for what the command writes. After
    /// `Device` and `InDoubt`, and only then, the book needs reopening.
    ///
    /// Where the text under the key is the canonical text of no command, the call fails: with `Damaged`, unless memory or the
    /// disk fails before. So it does where the tables don't have the same lots and opening numbers of an account and a commodity
    /// that the command posts to, unless all of these was known already. Whatever the tables stand for, a verdict is by the
    /// text that they have under the key. After `Accepted` the canonical text of the command stands there.
    pub(crate) fn apply(
        &mut self,
        kept: &mut Option<Kept>,
        key: &Key,
        command: &Command,
    ) -> Result<Verdict, StoreFault>
        requires { self.old.condition ≡ Condition.Ready }
        ensures applies { AppliesWith (IsOf kept.old) (IsOf kept.new) key.now command.now
            (state S.Store self.old.conn) (state S.Store self.new.conn) result }
        ensures forgets { result_ok result ≡ None → kept.new ≡ None }
        // With the connection open a crash leaves the last commit, and nothing else.
        ensures safe { IsTrue (state S.Store self.new.conn).is_open → (trees : Trees)
            → (state S.Store self.new.conn).may_leave trees
            → trees ≡ (state S.Store self.new.conn).committed.trees }
        ensures device { HasCleanDisk (state S.Store self.new.conn)
            → result ≡ Err StoreFault.Device
            → RefusedByDeviceWith (IsOf kept.old) key.now command.now (state S.Store self.old.conn)
            (state S.Store self.new.conn) }
        ensures in_doubt { HasCleanDisk (state S.Store self.new.conn)
            → result ≡ Err StoreFault.InDoubt
            → DiskFailed (state S.Store self.old.conn) (state S.Store self.new.conn) }
        ensures usable { result ≢ Err StoreFault.NeedsReopen }
        ensures condition { self.new.condition ≡ condition_after result }
        ensures damage { MeetsDamage key.now
            (state S.Store self.old.conn) (state S.Store self.new.conn) result }
        ensures text { IsByText key.now command.now
            (state S.Store self.old.conn) (state S.Store self.new.conn) result }
        ensures unpaired { MeetsUnpaired kept.old command.now
            (state S.Store self.old.conn) (state S.Store self.new.conn) result }
        ensures paired { FindsPaired kept.old command.now
            (state S.Store self.old.conn) (state S.Store self.new.conn) result }
        ensures whole { KeepsPaired kept.old kept.new
            (state S.Store self.old.conn) (state S.Store self.new.conn) }
    {
        let applied = apply_to(self.alloc, &mut self.conn, kept, key, command);
        self.condition = condition_after(&applied);
        applied
    }

    /// Works out what is judged in the place of a command that was handed in, on what is kept of the book. Then keeps what is
    /// known of it.
    pub(crate) fn turn(
        &mut self,
        kept: &mut Option<Kept>,
        rounding: Option<&Rounding>,
        key: &Key,
        asked: &Asked,
    ) -> Result<Turn, StoreFault>
        ensures turns { TurnsTo (IsOf kept.old) (IsOf kept.new) (option_copied rounding.entry)
            (key.now, asked.now) (state S.Store self.old.conn)
            (state S.Store self.new.conn) result }
        ensures safe { IsTrue (state S.Store self.new.conn).is_open
            → (trees : Trees) → (state S.Store self.new.conn).may_leave trees
            → trees ≡ (state S.Store self.new.conn).committed.trees }
        ensures condition { self.new.condition ≡ condition_from self.old.condition result }
        ensures whole { KeepsPaired kept.old kept.new
            (state S.Store self.old.conn) (state S.Store self.new.conn) }
    {
        let turned = turn_of(self.alloc, &mut self.conn, kept, rounding, key, asked);
        if let Err(StoreFault::Device) = turned {
            self.condition = Condition::NeedsReopen;
        }
        turned
    }

    /// Returns the connection, every row as it was.
    pub fn into_connection(self) -> Connection<S>
        ensures same { result ≡ self.conn }
        ensures outside { HasCleanDisk (state S.Store result) → result.in_transaction ≡ false }
    {
        let Book {
            conn,
            condition: _,
            alloc: _,
        } = self;
        conn
    }

    /// Returns the book over a connection, ready for use. It reads nothing: `adopt` tells whether the database is marked as a
    /// book.
    pub fn ready_over(alloc: Global, conn: Connection<S>) -> Book<S>
        requires outside { HasCleanDisk (state S.Store conn) → conn.in_transaction ≡ false }
        requires unlimited { conn.step_limit ≡ None }
        ensures { (result.conn ≡ conn) × (result.condition ≡ Condition.Ready) }
    {
        Book {
            conn,
            condition: Condition::Ready,
            alloc,
        }
    }

    /// Returns the row that comes next at a place, or `None` past the last. It changes nothing.
    ///
    /// After `Device`, and only then, the book needs reopening.
    pub(crate) fn read_next<P: Place>(
        &mut self,
        place: &mut P,
    ) -> Result<Option<P::Row>, StoreFault>
        ensures steps { Steps P.Place.shown P.Place.IsGood P.Place.AreAll P.Place.IsBehind
            StoreFault.Damaged StoreFault.Device
            place.old place.new (state S.Store self.old.conn) (state S.Store self.new.conn) result }
        ensures rows { StepsOverRows P.Place.shown P.Place.AreAllRows P.Place.IsBehindRows place.old
            place.new (state S.Store self.old.conn) (state S.Store self.new.conn) result }
        ensures reopen { (result ≡ Err StoreFault.NeedsReopen)
            ↔ (self.old.condition ≡ Condition.NeedsReopen) }
        ensures condition { self.new.condition ≡ condition_from self.old.condition result }
        ensures sure { result ≢ Err StoreFault.InDoubt }
        ensures left { HasCleanDisk (state S.Store self.new.conn) → OnErr result
            (LeavesTables (state S.Store self.old.conn) (state S.Store self.new.conn)) }
    {
        self.ready()?;
        let found = place.next(self.alloc, &mut self.conn);
        if let Err(Fault::Device) = found {
            self.condition = Condition::NeedsReopen;
        }
        Ok(found?)
    }

    /// Returns how far the book goes: how many entries it has, and its place of migration. It reads two rows, and changes
    /// nothing.
    ///
    /// After `Device`, and only then, the book needs reopening. The error is `Damaged` only where the tables stand for no book.
    pub fn extent(&mut self) -> Result<Extent, StoreFault>
        ensures measures { Measures (state S.Store self.old.conn)
            (state S.Store self.new.conn) result }
        ensures reopen { (result ≡ Err StoreFault.NeedsReopen)
            ↔ (self.old.condition ≡ Condition.NeedsReopen) }
        ensures condition { self.new.condition ≡ condition_from self.old.condition result }
        ensures sure { result ≢ Err StoreFault.InDoubt }
        ensures left { HasCleanDisk (state S.Store self.new.conn)
            → OnErr result
            (LeavesTables (state S.Store self.old.conn) (state S.Store self.new.conn)) }
    {
        self.ready()?;
        let measured = measure(self.alloc, &mut self.conn);
        if let Err(Fault::Device) = measured {
            self.condition = Condition::NeedsReopen;
        }
        Ok(measured?)
    }

    /// Returns the allocator that the book was made with.
    pub(crate) fn allocator(&self) -> Global
        ensures { result ≡ self.now.alloc }
    {
        self.alloc
    }

    /// Returns an error where the book needs reopening.
    pub(crate) fn ready(&self) -> Result<(), StoreFault>
        ensures value { result ≡ ready_of self.now.condition }
        ensures settled { HasCleanDisk (state S.Store self.now.conn)
            → IsTrue (state S.Store self.now.conn).is_open
            → (state S.Store self.now.conn).now ≡ (state S.Store self.now.conn).committed }
    {
        // Outside a transaction the tables are those of the last commit.
        let _settled = self.conn.is_autocommit();
        match self.condition {
            Condition::Ready => Ok(()),
            Condition::NeedsReopen => Err(StoreFault::NeedsReopen),
        }
    }
}

/// Applies a command to a book that doesn't need reopening, on what is kept of the book.
///
/// With a verdict it keeps what the command was judged on, and what it changed, as far as memory suffices. Without a verdict
/// nothing is kept.
fn apply_to<S: Alter>(
    alloc: Global,
    conn: &mut Connection<S>,
    kept: &mut Option<Kept>,
    key: &Key,
    command: &Command,
) -> Result<Verdict, StoreFault>
    requires outside { HasCleanDisk (state S.Store conn.old) → conn.old.in_transaction ≡ false }
    requires unlimited { conn.old.step_limit ≡ None }
    ensures outside { HasCleanDisk (state S.Store conn.new) → conn.new.in_transaction ≡ false }
    ensures applies { AppliesWith (IsOf kept.old) (IsOf kept.new) key.now command.now
        (state S.Store conn.old) (state S.Store conn.new) result }
    ensures forgets { result_ok result ≡ None → kept.new ≡ None }
    ensures device { HasCleanDisk (state S.Store conn.new) → result ≡ Err StoreFault.Device
        → RefusedByDeviceWith (IsOf kept.old) key.now command.now (state S.Store conn.old)
        (state S.Store conn.new) }
    ensures in_doubt { HasCleanDisk (state S.Store conn.new) → result
        ≡ Err StoreFault.InDoubt → DiskFailed (state S.Store conn.old) (state S.Store conn.new) }
    ensures usable { result ≢ Err StoreFault.NeedsReopen }
    ensures damage { MeetsDamage key.now
        (state S.Store conn.old) (state S.Store conn.new) result }
    ensures text { IsByText key.now command.now
        (state S.Store conn.old) (state S.Store conn.new) result }
    ensures unpaired { MeetsUnpaired kept.old command.now
        (state S.Store conn.old) (state S.Store conn.new) result }
    ensures paired { FindsPaired kept.old command.now
        (state S.Store conn.old) (state S.Store conn.new) result }
    ensures whole { KeepsPaired kept.old kept.new
        (state S.Store conn.old) (state S.Store conn.new) }
{
    is_sayable(command);
    what_is_written_stands_for_the_book();
    // Outside a transaction the tables are those of the last commit.
    let _settled = conn.is_autocommit();
    let looked = look_on(alloc, conn, kept.take(), key, command)?;
    match decide(alloc, Edition::Second, looked.view(), command) {
        Ok(Outcome::Accept(change)) => {
            let writes = writes(alloc, looked.view(), key, command, &change)?;
            commit(conn, &writes)?;
            *kept = looked.record(command, &change).ok();
            Ok(Verdict::Accepted)
        }
        Ok(Outcome::Repeat) => {
            *kept = Some(looked);
            Ok(Verdict::Repeated)
        }
        Err(Stop::Refused(refusal)) => {
            *kept = Some(looked);
            Ok(Verdict::Refused(refusal))
        }
        Err(Stop::Memory) => Err(StoreFault::Memory),
    }
}

/// Returns the condition of a book that could be used, after applying a command.
fn condition_after(applied: &Result<Verdict, StoreFault>) -> Condition
    ensures { result ≡ condition_after applied.now }
{
    match applied {
        Err(StoreFault::Device | StoreFault::InDoubt | StoreFault::NeedsReopen) => {
            Condition::NeedsReopen
        }
        _ => Condition::Ready,
    }
}
