//! Readers and writers that give or take few bytes a call, or whose calls in turn are interrupted, fail or give or take nothing.
//! A flush that fails, and a reader that is interrupted for ever.

use crate::assert_that;
use crate::nobody::Nobody;
use lot_check::check;
use lot_stream::slurp;
use std::io::{Error, ErrorKind, Read, Result, Write};
use std::process::Abort;

/// A reader, or a writer, whose calls meet trouble by a script.
#[derive(Drop)]
struct Stream<'a> {
    /// What isn't read yet.
    rest: &'a [u8],
    written: Vec<u8>,
    /// How many bytes a call gives or takes at most.
    step: usize,
    /// The first call that meets trouble, counted from 0, and the first behind it that doesn't.
    from: usize,
    until: usize,
    /// How such a call fails. Without an error it gives or takes nothing.
    trouble: Option<ErrorKind>,
    /// How many calls there were, of `flush` too.
    calls: usize,
}

impl Stream<'_> {
    /// Counts one more call: how many bytes it may give or take at most, or how it fails.
    fn call(&mut self) -> Result<usize> {
        let call = self.calls;
        self.calls = call.saturating_add(1);
        if call < self.from || call >= self.until {
            return Ok(self.step);
        }
        match self.trouble {
            Some(kind) => Err(Error::from(kind)),
            None => Ok(0),
        }
    }
}

impl Read for Stream<'_> {
    fn read(&mut self, buf: &mut [u8]) -> Result<usize> {
        let most = self.call()?;
        let count = most.min(self.rest.len()).min(buf.len());
        let (given, rest) = self.rest.split_at(count);
        buf[..count].copy_from_slice(given);
        self.rest = rest;
        Ok(count)
    }
}

impl Write for Stream<'_> {
    fn write(&mut self, buf: &[u8]) -> Result<usize> {
        let most = self.call()?;
        let count = most.min(buf.len());
        self.written.extend_from_slice(&buf[..count])?;
        Ok(count)
    }

    fn flush(&mut self) -> Result<()> {
        match self.call() {
            Ok(_) => Ok(()),
            Err(error) => Err(error),
        }
    }
}

/// A stream by a script: of so many bytes a call. The calls from that one on, up to another, meet trouble.
fn by_script<'a>(
    rt: &impl AllocGlobal,
    rest: &'a [u8],
    step: usize,
    (from, until): (usize, usize),
    trouble: Option<ErrorKind>,
) -> Stream<'a> {
    Stream {
        rest,
        written: Vec::new(rt.alloc()),
        step,
        from,
        until,
        trouble,
        calls: 0,
    }
}

/// A text, what is printed for it, and the status.
type Case = (&'static [u8], &'static [u8], u8);

/// A command that is refused, and each kind of row.
const MIXED: Case = (
    b"2020-01-01 open Assets:Cash\n\
    2020-01-01 open Assets:Cash\n\
    2020-01-02 *\n  Assets:Cash 5 HOOL {1 USD}\n  Assets:Cash\n",
    b"1 accepted\n2 refused L2 AlreadyOpen\n3 accepted\n\
    Assets:Cash 5 HOOL {1 USD, 2020-01-02}\nAssets:Cash -5.00 USD\ntotal cost 5.00 USD\n",
    1,
);

const CASES: &[Case] = &[
    MIXED,
    (b"x", b"fault line 1 X3 UnknownDirective\n", 3),
    (b"", b"nothing held\n", 0),
];

/// Asserts what is printed where a reader gives a text, and the status. Returns how many calls of it there were.
fn assert_read(
    rt: &(impl Abort + AllocGlobal),
    reader: Stream<'_>,
    printed: &[u8],
    status: u8,
) -> usize {
    let mut reader = reader;
    let mut written = Vec::new(rt.alloc());
    let ended = check(rt.alloc(), &mut reader, &mut written, &mut Nobody);
    assert_that(rt, written.as_slice() == printed, "written");
    assert_that(rt, ended == status, "status");
    reader.calls
}

const NOT_READ: &[u8] = b"fault K1 Read\n";

/// Asserts what is made of a reader one call of which meets trouble. An interrupted call is made again. A call that fails is a
/// fault, after which no more are made. A call that gives nothing is the end.
fn assert_call_of_reader(rt: &(impl Abort + AllocGlobal), at: usize) {
    let (text, printed, status) = MIXED;
    let behind = at.saturating_add(1);
    let reader = by_script(rt, text, 1, (at, behind), Some(ErrorKind::Interrupted));
    assert_read(rt, reader, printed, status);
    let reader = by_script(rt, text, 1, (at, behind), Some(ErrorKind::BrokenPipe));
    assert_that(rt, assert_read(rt, reader, NOT_READ, 3) == behind, "calls");
    let mut reader = by_script(rt, text, 1, (at, behind), None);
    let bytes = slurp(rt.alloc(), &mut reader).expect(rt, "an early end");
    assert_that(
        rt,
        bytes.len() == at && text.starts_with(&bytes),
        "an early end",
    );
}

#[test]
fn each_call_of_a_reader_may_meet_trouble(rt: HostRuntime) {
    let rt = &rt;
    for (text, printed, status) in CASES {
        for step in &[1, 2, 5, 1_000] {
            assert_read(
                rt,
                by_script(rt, text, *step, (0, 0), None),
                printed,
                *status,
            );
        }
    }
    for at in 0..=MIXED.0.len() {
        assert_call_of_reader(rt, at);
    }
    let reader = by_script(
        rt,
        MIXED.0,
        1,
        (3, usize::MAX),
        Some(ErrorKind::Interrupted),
    );
    assert_that(
        rt,
        assert_read(rt, reader, NOT_READ, 3) == 20_000_000,
        "for ever",
    );
}

/// The writer to which a text was answered, and the status.
fn written<'a>(rt: &impl AllocGlobal, text: &[u8], writer: Stream<'a>) -> (Stream<'a>, u8) {
    let (mut reader, mut writer) = (text, writer);
    let status = check(rt.alloc(), &mut reader, &mut writer, &mut Nobody);
    (writer, status)
}

/// Asserts that all was written to a writer. Returns how many calls of it there were.
fn assert_whole(rt: &(impl Abort + AllocGlobal), case: &Case, writer: Stream<'_>) -> usize {
    let (text, printed, status) = case;
    let (writer, ended) = written(rt, text, writer);
    assert_that(rt, writer.written.as_slice() == *printed, "written");
    assert_that(rt, ended == *status, "status");
    writer.calls
}

/// Asserts that a writer one call of which failed was left alone then, and holds a prefix of the answer. Returns its length.
fn assert_cut(rt: &(impl Abort + AllocGlobal), case: &Case, writer: Stream<'_>) -> usize {
    let (text, printed, _) = case;
    let (writer, ended) = written(rt, text, writer);
    assert_that(
        rt,
        ended == 4 && writer.calls == writer.until,
        "a call that fails",
    );
    assert_that(rt, printed.starts_with(&writer.written), "written");
    writer.written.len()
}

/// Asserts what is made of a writer that takes so many bytes a call, and each of whose calls in turn meets trouble. The last of them
/// is a flush.
fn assert_calls_of_writer(rt: &(impl Abort + AllocGlobal), step: usize, case: &Case) {
    let calls = assert_whole(rt, case, by_script(rt, b"", step, (0, 0), None));
    let (_, printed, _) = case;
    for behind in 1..calls {
        let call = (behind.saturating_sub(1), behind);
        assert_whole(
            rt,
            case,
            by_script(rt, b"", step, call, Some(ErrorKind::Interrupted)),
        );
        let failed = assert_cut(
            rt,
            case,
            by_script(rt, b"", step, call, Some(ErrorKind::BrokenPipe)),
        );
        let full = assert_cut(rt, case, by_script(rt, b"", step, call, None));
        assert_that(
            rt,
            failed < printed.len() && full < printed.len(),
            "a prefix",
        );
    }
    let call = (calls.saturating_sub(1), calls);
    let flushed = assert_cut(
        rt,
        case,
        by_script(rt, b"", step, call, Some(ErrorKind::BrokenPipe)),
    );
    assert_that(rt, flushed == printed.len(), "a flush that fails");
}

#[test]
fn each_call_of_a_writer_may_meet_trouble(rt: HostRuntime) {
    for case in CASES {
        for step in &[1, 4, 1_000] {
            assert_calls_of_writer(&rt, *step, case);
        }
    }
}
