//! How far a run is, on standard error.

use std::io::IsTerminal;
use std::time::{Duration, Instant};

/// How many milliseconds pass at least between two lines.
const PAUSE: u64 = 300;

/// How far a run is: how many of something there were so far, and how many a second. Where standard
/// error is a terminal, one line there shows it, which each later one is written over.
#[derive(Drop)]
pub struct Meter<'a> {
    rt: &'a HostRuntime,
    /// What is counted, in the plural, where it is shown.
    counted: Option<&'static str>,
    /// How many there were.
    count: u64,
    /// When the clock began to run.
    begun: Option<Instant>,
    /// How long after that the next line is due.
    due: Duration,
    /// Whether the cursor stands behind a line.
    is_shown: bool,
}

impl<'a> Meter<'a> {
    /// Returns a meter of replies to what is named, in the plural. The clock runs from the first
    /// one on. Where standard output is a terminal too, the replies themselves show how far the run
    /// is.
    pub fn of_replies(rt: &'a HostRuntime, counted: Option<&'static str>) -> Meter<'a> {
        let is_shown = rt.stderr().is_terminal() && !rt.stdout().is_terminal();
        Meter {
            rt,
            counted: if is_shown { counted } else { None },
            count: 0,
            begun: None,
            due: Duration::from_millis(PAUSE),
            is_shown: false,
        }
    }

    /// Returns a meter of the legs of a book that is migrated. The clock runs from now on, and the
    /// first line is due at once.
    pub fn of_legs(rt: &'a HostRuntime) -> Meter<'a> {
        Meter {
            rt,
            counted: rt.stderr().is_terminal().then_some("legs"),
            count: 0,
            begun: Instant::now(rt).ok(),
            due: Duration::ZERO,
            is_shown: false,
        }
    }

    /// Counts so many more, and shows how many there were and how many a second, if it is time.
    pub fn add(&mut self, more: u64) {
        self.count = self.count.saturating_add(more);
        let Some(counted) = self.counted else {
            return;
        };
        let Some(begun) = self.begun else {
            self.begun = Instant::now(self.rt).ok();
            return;
        };
        let Ok(passed) = begun.elapsed(self.rt) else {
            return;
        };
        if passed < self.due {
            return;
        }
        let millis = u64::try_from(passed.as_millis()).unwrap_or(u64::MAX).max(1);
        let (count, rate) = (self.count, self.count.saturating_mul(1000) / millis);
        // The blanks cover the end of a longer line that stood there.
        let _ = eprint!(self.rt; "\r{count} {counted}, {rate} a second   ");
        self.due = passed.saturating_add(Duration::from_millis(PAUSE));
        self.is_shown = true;
    }

    /// Ends the line that shows how far the run is, if there is one.
    pub fn end(&mut self) {
        if self.is_shown {
            let _ = eprintln!(self.rt; "");
            self.is_shown = false;
        }
    }
}
