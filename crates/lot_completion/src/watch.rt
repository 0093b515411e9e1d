//! Who is told what becomes of crumbs.

use crate::completion::Completion;
use lot_base::Commodity;
use lot_command::Items;
use lot_ledger::Refusal;
use lot_num::Wide;
use lot_split::SplitFault;

/// What became of the crumbs of a command.
#[derive(Drop)]
pub enum Note {
    /// The account took them: one of each currency in which a product weighs, which may be zero; of a split
    /// what each of its postings took.
    Taken(Items<(Commodity, Wide)>),
    /// The command stays as it was handed in, since a crumb is beyond the bound: that of this currency.
    Beyond { currency: Commodity, crumb: Wide },
    /// The command stays as it was handed in, since its completion is refused for this.
    Refused(Refusal),
    /// The command asks for a split, and the lots that are held can't be split, for this.
    Unsplit(SplitFault),
    /// The command was refused, and this would balance it. No account takes crumbs.
    Untaken(Completion),
}

/// Receives what becomes of the crumbs of commands.
pub trait Watch {
    /// Whether it is to be told what would balance a command where no account takes crumbs.
    fn asks(&self) -> bool;

    /// This became of the crumbs of the command of that number.
    fn tell(&mut self, number: usize, note: Note);
}
