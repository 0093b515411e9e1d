ghost use Rattle.std.specs.Prelude.{◌≡◌};
ghost use Rattle.lot_args.specs.Preview.{preview_of};

use crate::action::{Action, AskedImport};

/// What the arguments ask for.
#[derive(Drop)]
pub enum Request {
    /// Something is done with a book, or with a ledger text alone.
    Act {
        action: Action,
        effect: Effect,
        notes: Notes,
    },
    /// The rows of a broker's file are posted to a book, as the profile in the file of that path says.
    Import {
        profile: String,
        import: AskedImport,
        effect: Effect,
        notes: Notes,
    },
    /// The ledger text is written that the rows of a broker's file come to, as the profile in the file of that path says. No
    /// book is opened.
    Show {
        profile: String,
        notes: Notes,
    },
    /// The meaning of the codes that the program prints is written: of one code, given as it was
    /// written, or of all.
    Explain {
        code: Option<String>,
    },
}

/// What a call may leave in the book.
#[derive(Clone, Copy)]
pub enum Effect {
    /// What is accepted is kept.
    Keep,
    /// Nothing is kept. Behind the answer that is told of the book which the call would leave.
    DryRun(Preview),
}

impl Effect {
    /// Returns what is told of the book that a call leaves: nothing where that is kept.
    pub fn preview(self) -> Preview
        ensures { result ≡ preview_of self }
    {
        match self {
            Effect::Keep => Preview::Nothing,
            Effect::DryRun(preview) => preview,
        }
    }
}

/// What is told of the book that a dry run would leave, behind its answer.
#[derive(Clone, Copy)]
pub enum Preview {
    /// Nothing.
    Nothing,
    /// What the sales gained that it would add.
    Gains,
    /// What the book would hold.
    Holdings,
    /// Both, the gains first.
    GainsAndHoldings,
}

/// Which of its refusals and faults a call explains on standard error.
#[derive(Clone, Copy)]
pub enum Notes {
    /// The first ten.
    Ten,
    /// All of them.
    All,
    /// None.
    Quiet,
}
