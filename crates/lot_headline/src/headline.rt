//! The headline.
ghost use Rattle.std.specs.Prelude.{◌≤◌, ℕ, List, [], Option, length};
ghost use Rattle.lot_args.specs.declared.action.Action.{Action};
ghost use Rattle.lot_args.specs.declared.request.Preview.TheVariants.{Nothing};
ghost use Rattle.lot_book.specs.Book.{IsBookIn};
ghost use Rattle.lot_book.specs.Edition.{After};
ghost use Rattle.lot_book.specs.Facts.{Entry};
ghost use Rattle.lot_cli.specs.Init.{IsMade};
ghost use Rattle.lot_cli.specs.Preview.{Outcome, ServesWithPreview};
ghost use Rattle.lot_cli.specs.Reopen.{LeavesOneOf, StandsForOneOf};
ghost use Rattle.lot_cli.specs.Sessions.{Sent, SessionLeaves, StopsLeave};
ghost use Rattle.lot_headline.specs.Calls.{CallsFollow, IsCall, IsFound, IsOnBook};
ghost use Rattle.lot_headline.specs.Calls.{IsReopened, IsSettled};
ghost use Rattle.lot_headline.specs.Headline.{Headline};
ghost use Rattle.lot_input.specs.Input.{Reading};
ghost use Rattle.lot_io.specs.Writes.{WriteCalls};
ghost use Rattle.lot_stored.specs.StandFor.{Stands};
ghost use Rattle.sqlite.specs.Files.{file_state};
ghost use Rattle.sqlite.specs.Held.{Held};
ghost use Rattle.sqlite.specs.State.{HasCleanDisk, Survives};
ghost use Rattle.sqlite_store.specs.declared.store.FileStore.{FileStore};

use sqlite_disk::Disk;

/// The headline. Sessions follow one another on a book. Each may be stopped within any write, and the next one begins on what
/// the stop left.
///
/// What stands in the end is the book of a prefix of the accepted commands of each session. The prefix holds every acknowledged
/// command. In that book each commodity's units at cost are those bought less those sold. Each realised gain is its proceeds
/// less the cost of the lots its method names.
///
/// A session may keep each of its commands in a commit of its own. Then the prefix has at most one more than was acknowledged.
/// Or it keeps them in one commit, all or none. Then the prefix is none of them or, where none is refused, all; and its replies
/// acknowledge all together, or nothing.
///
/// A book that was made has no entries before the first session, and place of migration 0.
pub fn the_headline()
    ensures made { (sessions : List Sent) (book : List Entry)
        → StopsLeave [] sessions book → Headline 0 [] sessions book }
    ensures goes_on { (place : ℕ) (before : List Entry) (sessions : List Sent) (book : List Entry)
        → place ≤ length before → IsBookIn (After place) before
        → StopsLeave before sessions book → Headline place before sessions book }
{}

/// The headline, from the disk to the book. Calls of `serve` follow one another on the two files of a book. Each does an action: it
/// posts, imports, reports, or does anything else that the program does to a book. It ends or is stopped, before, within or behind
/// any write, and the next call opens what the stop left.
///
/// What stands in the file in the end is a book with the five properties of `Headline`, over what the calls sent and replied.
///
/// A book may stand there before the first call, or the first call makes it.
pub fn calls_keep_the_headline<D: Disk>()
    ensures goes_on { (opened last : Held (FileStore D D.Disk)) (sessions : List Sent)
        (before : List Entry) (stands : Stands (file_state opened) before)
        → IsFound opened → CallsFollow opened sessions last
        → StandsForOneOf (Headline stands.book.place before sessions) (file_state last) }
    ensures made { (opened stopped next last : Held (FileStore D D.Disk)) (sessions : List Sent)
        → IsMade (file_state opened) (file_state stopped) → IsSettled stopped
        → IsReopened stopped next → CallsFollow next sessions last
        → StandsForOneOf (Headline 0 [] sessions) (file_state last) }
{}

/// An action that is served with nothing told behind its answer, as on a book that is kept, is one of
/// these calls. What is told of a dry run is told of a copy.
pub fn what_is_served_alone_is_a_call<D: Disk>()
    ensures { (action : Action) (input : Reading) (opened : Held (FileStore D D.Disk))
        (before : Option (List ℕ)) (calls : Option WriteCalls)
        (to : Outcome (Held (FileStore D D.Disk)))
        → ServesWithPreview file_state action input Nothing opened before calls to
        → IsOnBook action → HasCleanDisk (file_state to.conn)
        → (sent : Sent) × IsCall opened to.conn sent }
{}

/// What only looks at a book behind a call, as what is said of it does, or a comparison with an old book, may leave the books
/// that the call may leave, and no other.
pub fn looking_leaves_what_a_call_left<D: Disk>()
    ensures { (served left : Held (FileStore D D.Disk)) (before : List Entry) (sent : Sent)
        → HasCleanDisk (file_state left)
        → Survives (file_state served) (file_state left) (λ _. ⊥)
        → LeavesOneOf (SessionLeaves before sent) (file_state served).may_leave
        → LeavesOneOf (SessionLeaves before sent) (file_state left).may_leave }
{}
