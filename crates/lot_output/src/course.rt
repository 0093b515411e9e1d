//! How far a run came, by its replies.

ghost use Rattle.std.specs.Prelude.{◌≡◌};
ghost use Rattle.lot_output.specs.Course.{Says, course_after, said_by, said_of};

use std::str;

/// What a line says of the command of that number, or of the whole call.
#[derive(Clone, Copy)]
pub(crate) enum Said {
    Accepted(u64),
    Repeated(u64),
    Refused(u64),
    /// A fault at which a run stopped.
    Stopped(u64),
    /// Any other fault.
    Fault,
    /// That a book is made of a dump.
    Restored,
}

/// How far a run came, by the replies and the faults that were handed over.
#[derive(Clone, Copy)]
pub struct Course {
    pub accepted: u64,
    pub repeated: u64,
    pub refused: u64,
    pub faults: u64,
    /// The number of the last command that was accepted or stood already.
    pub standing: Option<u64>,
    /// The number of the command of the last line.
    pub last: Option<u64>,
    /// Whether a book is made of a dump.
    pub restored: bool,
}

impl Course {
    /// That of a run without a reply.
    pub(crate) const BEGUN: Course = Course {
        accepted: 0,
        repeated: 0,
        refused: 0,
        faults: 0,
        standing: None,
        last: None,
        restored: false,
    };

    /// Returns how far the run came with one more line.
    pub(crate) fn after(self, said: Said) -> Course
        ensures { result ≡ course_after said self }
    {
        match said {
            Said::Accepted(number) => Course {
                accepted: self.accepted.saturating_add(1),
                standing: Some(number),
                last: Some(number),
                ..self
            },
            Said::Repeated(number) => Course {
                repeated: self.repeated.saturating_add(1),
                standing: Some(number),
                last: Some(number),
                ..self
            },
            Said::Refused(number) => Course {
                refused: self.refused.saturating_add(1),
                last: Some(number),
                ..self
            },
            Said::Stopped(number) => Course {
                faults: self.faults.saturating_add(1),
                last: Some(number),
                ..self
            },
            Said::Fault => Course {
                faults: self.faults.saturating_add(1),
                ..self
            },
            Said::Restored => Course {
                restored: true,
                ..self
            },
        }
    }
}

/// Returns what a line says, where it is a reply or a fault, or says that a book is made of a dump.
pub(crate) fn said_in(line: &[u8]) -> Option<Said>
    ensures { Says line.now result }
{
    let Ok(text) = str::from_utf8(line) else {
        return None;
    };
    let Some((first, rest)) = text.split_once(' ') else {
        return None;
    };
    match first.parse() {
        Ok(number) => said_of(number, rest.as_bytes()),
        Err(_) => said_by(first, rest),
    }
}

/// Returns what a line says that begins with a word which is no number.
fn said_by(word: &str, rest: &str) -> Option<Said>
    ensures { result ≡ said_by word.now rest.now }
{
    if word == "fault" {
        Some(Said::Fault)
    } else if word == "book" && rest == "restored\n" {
        Some(Said::Restored)
    } else {
        None
    }
}

/// Returns what is said of the command of that number.
fn said_of(number: u64, rest: &[u8]) -> Option<Said>
    ensures { result ≡ said_of number rest.now }
{
    if rest.starts_with(b"accepted\n") {
        Some(Said::Accepted(number))
    } else if rest.starts_with(b"repeat\n") {
        Some(Said::Repeated(number))
    } else if rest.starts_with(b"refused ") {
        Some(Said::Refused(number))
    } else if rest.starts_with(b"fault ") {
        Some(Said::Stopped(number))
    } else {
        None
    }
}
