//! Commands that are sent again.
ghost use Rattle.std.specs.Prelude.{List};
ghost use Rattle.lot_book.specs.Facts.{Entry};
ghost use Rattle.lot_book.specs.Judged.{JudgesAll};
ghost use Rattle.lot_book.specs.declared.verdict.Verdict.{Verdict};
ghost use Rattle.lot_command.specs.declared.command.Command.{Command};
ghost use Rattle.lot_command.specs.declared.key.Key.{Key};
ghost use Rattle.lot_cli.specs.Sessions.{AllOrNoneLeaves};
ghost use Rattle.lot_headline.specs.Again.{
  AllSentAgain,
  AreKeptOnce,
  ComesAgain,
  IsOneRun,
  SentAgain,
};

/// Commands that are each kept in a commit are sent again from the first one without a reply, as often as a session is stopped.
/// Once a session is complete, the book is that of one uninterrupted run. The replies are those of that run, but the first
/// command of a session may get `repeat` in place of `accepted`.
///
/// Nothing else is sent in between. A list that is sent again from its first command may come to another book. A sale that was
/// refused may then be accepted, since what was bought after it is there now.
pub fn sending_again_is_one_run()
    ensures { (before book : List Entry) (commands : List (Key × Command)) (replied : List Verdict)
        (again : List (List Verdict))
        → SentAgain before commands replied again book
        → IsOneRun before commands replied again book }
{}

/// Commands that are kept all or none are sent again, all of them, as often as a session is stopped, and nothing else in
/// between. They are kept once, or not at all; and where a session acknowledged them, they are kept.
///
/// Where they had been kept, each is a repeat when they come again, and the book stays as it is. Else it is as if they hadn't
/// been sent.
pub fn sending_all_or_none_again_acts_once()
    ensures often { (before book : List Entry) (commands : List (Key × Command))
        (sessions : List (List Verdict))
        → AllSentAgain before commands sessions book → AreKeptOnce before commands sessions book }
    ensures comes { (before book after : List Entry) (commands : List (Key × Command))
        (replied again : List Verdict)
        → AllOrNoneLeaves before commands replied book → JudgesAll book commands again after
        → ComesAgain before commands book again after }
{}
