//! The commands of a dump so far, and what came of them.
ghost use Rattle.std.specs.Prelude.{◌≡◌, ◌++◌, ◌∷◌, [], ℕ, IfErr, IsTrue, List, None, OnErr, OnOk, Option};
ghost use Rattle.lot_parts.specs.declared.dumped.Dumped.{Dumped as DumpedValue};
ghost use Rattle.lot_io.specs.Writes.{HasFailed, NoneFailed};
ghost use Rattle.lot_restore.specs.Restored.{NeverFall};
ghost use Rattle.lot_restore.specs.SoFar.{JudgeFails, SoFar, refused_with};
ghost use Rattle.lot_restore.specs.Stopped.{SaysSomeOf};
ghost use Rattle.sqlite.specs.Held.{state};
ghost use Rattle.sqlite.specs.State.{HasCleanDisk, KeepsCommit, Survives};

use crate::fault::RestoreFault;
use crate::left_out::{is_left_out, meet};
use crate::restorer::Restorer;
use crate::said::print_verdict;
use lot_book::Verdict;
use lot_io::CountedWrite;
use lot_parts::Dumped;
use lot_without::Without;
use sqlite::{Alter, Transaction};
use std::alloc::Global;

/// What came of the commands of a dump so far.
#[derive(Drop)]
pub(crate) struct Restoration<'a> {
    pub(crate) restorer: Restorer,
    /// What leaves commands out.
    pub(crate) without: &'a [Without],
    /// Of that, what has left out none so far.
    pub(crate) unmet: Vec<&'a Without>,
    pub(crate) refused: Refused,
}

/// Whether commands were refused.
#[derive(Clone, Copy)]
pub(crate) enum Refused {
    None,
    Some,
}

impl Restoration<'_> {
    /// Judges the next command of the dump, unless it is left out, in the open transaction. Where it is refused, that is
    /// written. Nothing is flushed.
    ///
    /// After an error the last commit stands, and the caller drops the transaction.
    pub(crate) fn take<S: Alter, W: CountedWrite>(
        &mut self,
        alloc: Global,
        tx: &mut Transaction<'_, S>,
        dumped: &Dumped,
        writer: &mut W,
    ) -> Result<(), RestoreFault>
        requires inside { HasCleanDisk (state S.Store tx.old.conn.now)
            → IsTrue (state S.Store tx.old.conn.now).in_transaction }
        requires unlimited { tx.old.conn.now.step_limit ≡ None }
        ensures same_reference { tx.new.conn.ghost_name ≡ tx.old.conn.ghost_name }
        ensures terms { self.new.without ≡ self.old.without }
        ensures inside { HasCleanDisk (state S.Store tx.new.conn.now)
            → OnOk result (IsTrue (state S.Store tx.new.conn.now).in_transaction) }
        ensures goes_on { OnOk result ((place : ℕ) (start : Option (List ℕ))
            (done : List DumpedValue) → NeverFall 0 (done ++ dumped.now ∷ [])
            → SoFar place start (W.contents writer.old) done
            self.old (state S.Store tx.old.conn.now)
            → SoFar place start (W.contents writer.new) (done ++ dumped.now ∷ [])
            self.new (state S.Store tx.new.conn.now)) }
        ensures kept { HasCleanDisk (state S.Store tx.new.conn.now)
            → KeepsCommit (state S.Store tx.old.conn.now) (state S.Store tx.new.conn.now) }
        ensures crash { Survives (state S.Store tx.old.conn.now) (state S.Store tx.new.conn.now)
            (λ _. ⊥) }
        ensures fault { IfErr result (JudgeFails self.old dumped.now
            (state S.Store tx.old.conn.now) (state S.Store tx.new.conn.now) (W.calls writer.new)) }
        ensures said { OnErr result (SaysSomeOf self.old dumped.now
            (W.contents writer.old) (W.contents writer.new)
            (state S.Store tx.old.conn.now) (state S.Store tx.new.conn.now)) }
        ensures none_failed { OnOk result (NoneFailed (W.calls writer.old) (W.calls writer.new)) }
    {
        meet(&mut self.unmet, dumped);
        if is_left_out(self.without, dumped) {
            return Ok(());
        }
        let (number, key) = (dumped.number, &dumped.key);
        let verdict = self
            .restorer
            .judge(alloc, tx, number, key, &dumped.command)?;
        self.refused = self.refused.with(&verdict);
        print_verdict(writer, dumped, &verdict)?;
        Ok(())
    }
}

impl Refused {
    /// Returns whether commands were refused, with one more verdict.
    fn with(self, verdict: &Verdict) -> Refused
        ensures { result ≡ refused_with self verdict.now }
    {
        match verdict {
            Verdict::Accepted => self,
            Verdict::Repeated | Verdict::Refused(_) => Refused::Some,
        }
    }
}
