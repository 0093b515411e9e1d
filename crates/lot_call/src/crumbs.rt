//! What became of the crumbs of a call's commands, kept for what is said of it.

ghost use Rattle.std.specs.Prelude.{◌≡◌, ◌++◌, [], List, ℕ, ℤ};
ghost use Rattle.lot_call.specs.Sums.{HasSums, KeepsSums, nonzero, taken_by};

use crate::call::Call;
use crate::taken::Taken;
use lot_base::Commodity;
use lot_book::Verdict;
use lot_command::canonical::body;
use lot_command::{Command, Items};
use lot_completion::{Completion, Note, Watch};
use lot_explain::{Finding, Findings};
use lot_num::Wide;
use lot_output::Record;
use lot_report::print_reply;
use std::alloc::{AllocError, Global};

/// What became of the crumbs of a call's commands.
#[derive(Drop)]
pub struct Crumbs {
    alloc: Global,
    /// Of how many refused commands it is kept what was found.
    most: u64,
    pub(crate) findings: Findings,
    /// What an account took. `None` where nothing is to be said of it, or memory ended.
    pub(crate) taken: Option<Taken>,
}

impl Crumbs {
    /// Returns none yet, of a call. Where it is to say nothing, nothing will be kept.
    pub fn of(call: &Call<'_>) -> Crumbs
        ensures { KeepsSums [] result }
    {
        let alloc = call.rt.alloc();
        let findings = Findings::new(alloc);
        if call.is_quiet() {
            return Crumbs {
                alloc,
                most: 0,
                findings,
                taken: None,
            };
        }
        Crumbs {
            alloc,
            most: call.most(),
            findings,
            taken: Some(Taken::new(alloc)),
        }
    }

    /// Keeps what was found of the crumbs of the command of that number, which is refused. Where memory
    /// ended it isn't kept.
    fn find(&mut self, number: usize, found: Result<Finding, AllocError>)
        ensures { self.new.taken ≡ self.old.taken }
    {
        if let Ok(finding) = found
            && self.asks()
        {
            let _ = self.findings.keep(number, finding);
        }
    }
}

impl Watch for Crumbs {
    /// Returns whether more is kept of refused commands.
    fn asks(&self) -> bool {
        (self.findings.len() as u64) < self.most
    }

    fn tell(&mut self, number: usize, note: Note)
        ensures sums { (amounts : List (List ℕ × ℤ)) → KeepsSums amounts self.old
            → KeepsSums (amounts ++ taken_by note) self.new }
    {
        let alloc = self.alloc;
        match note {
            Note::Taken(crumbs) => take(&mut self.taken, number, crumbs),
            Note::Beyond { currency, crumb } => {
                self.find(number, Ok(Finding::Beyond { currency, crumb }));
            }
            Note::Refused(refusal) => {
                self.find(number, reply_of(alloc, number, &Verdict::Refused(refusal)));
            }
            Note::Unsplit(fault) => self.find(number, Ok(Finding::Unsplit(fault))),
            Note::Untaken(completion) => self.find(number, balancing(alloc, completion)),
        }
    }
}

/// Adds the crumbs of the command of that number to what an account took. Where memory ended nothing is
/// known of it any more.
fn take(taken: &mut Option<Taken>, number: usize, crumbs: Items<(Commodity, Wide)>)
    ensures { (amounts : List (List ℕ × ℤ)) → HasSums amounts taken.old
        → HasSums (amounts ++ nonzero crumbs) taken.new }
{
    let Some(known) = taken else {
        return;
    };
    match known.add(number, crumbs) {
        Ok(()) => {}
        Err(AllocError) => *taken = None,
    }
}

/// Returns as what was found of a command the reply that its completion gets. The only error is out of
/// memory.
fn reply_of(alloc: Global, number: usize, verdict: &Verdict) -> Result<Finding, AllocError> {
    let mut line = Record::new(alloc);
    let _ = print_reply(&mut line, number, verdict);
    match line.bytes {
        Some(reply) => Ok(Finding::Refused { reply }),
        None => Err(AllocError),
    }
}

/// Returns as what was found of a command a completion that balances it. The only error is out of memory.
fn balancing(alloc: Global, completion: Completion) -> Result<Finding, AllocError> {
    let Completion {
        transaction,
        crumbs,
    } = completion;
    Ok(Finding::Balances {
        completion: body(alloc, &Command::Transaction(transaction))?,
        largest: largest(crumbs.as_slice()),
    })
}

/// Returns the largest of crumbs, sign aside; it is zero where there is none.
fn largest(crumbs: &[(Commodity, Wide)]) -> Wide {
    let mut largest = Wide::ZERO;
    for (_, crumb) in crumbs {
        largest = largest.max(magnitude(*crumb));
    }
    largest
}

/// Returns a crumb without its sign.
fn magnitude(crumb: Wide) -> Wide {
    if crumb < Wide::ZERO {
        crumb.negated()
    } else {
        crumb
    }
}
