//! How far a host is with a call.

ghost use Rattle.std.specs.Prelude.{◌≡◌};
ghost use Rattle.lot_host.specs.Stage.{served_of, stage_of};

use lot_files::Opened;

/// How far a host is with a call.
///
/// What a host does leads from one stage to a later one, and is done at no other. So a call opens one book, and one beside which a new
/// one is made; serves it once; closes its file where that is to be closed, and nothing else; tells once why there is none.
#[derive(Clone, Copy)]
pub enum Stage {
    /// Nothing is done.
    Begun,
    /// What the words may have been meant for is said.
    Warned,
    /// The profile that they name is read.
    Loaded,
    /// The book beside which a new one is made is opened.
    OldOpened,
    /// It is taken up.
    OldTaken,
    /// None is opened, which isn't told yet.
    Refused,
    /// The file of a book is opened.
    InFile,
    /// A copy is opened, or an empty database.
    InCopy,
    /// The file is served, and is to be closed.
    Served,
    /// All is done.
    Over,
}

/// Which book is opened.
#[derive(Clone, Copy)]
pub enum Part {
    /// The one that an action names.
    Own,
    /// The one beside which that is made.
    Old,
}

/// Returns the stage once that is opened.
pub fn stage_of<D>(part: Part, opened: &Opened<D>) -> Stage
    ensures { result ≡ stage_of part opened.now }
{
    match part {
        Part::Old => Stage::OldOpened,
        Part::Own => match opened {
            Opened::File(_) => Stage::InFile,
            Opened::Copy(_) => Stage::InCopy,
        },
    }
}

/// Returns the stage once what was opened is served to its end.
pub fn served_of(stage: Stage) -> Stage
    ensures { result ≡ served_of stage }
{
    match stage {
        Stage::InFile => Stage::Served,
        _ => Stage::Over,
    }
}
