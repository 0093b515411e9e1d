//! Each file of a book stops at its calls while a course is gone through, and again while the rest of it is. After each stop the
//! files are opened again, once with all that was written and once with what was synced alone. The book is then that of what was
//! replied to, or has one more, whose commit was in doubt. Gone on with from the first without a reply, the course comes to the
//! book of one uninterrupted run. Where that leaves the files as they were, each stop does.

use crate::assert_that;
use crate::courses::{
    BATCH, Call, Course, DOUBT, DROPPED, EVERY_KIND, FINDING_DAMAGE, MAKING, MIGRATING, PRICES,
    RESTORING, RESTORING_SPILLED, ROWS, SALE, SPILLED, VERIFYING,
};
use crate::disk::{Image, NO_STOP, Stop, all_written, run};
use std::process::Abort;

/// More calls of a file than a run makes.
const CALLS: u64 = 1_000;

/// What tells what a book says: what it answers to a post, its gains, what it holds, with what that is worth, and its journal.
const ASKED: &[&str] = &[
    "lotbook post --book b --batch behind",
    "lotbook gains --book b",
    "lotbook holdings --book b --day 2020-02-15",
    "lotbook journal --book b",
];

/// What a run told.
#[derive(Clone, Copy)]
struct Told {
    /// The first of a course that is to be sent next.
    next: usize,
    /// How many of a course the book has at least, and at most.
    least: usize,
    most: usize,
    /// Whether all were replied to, with nothing behind.
    is_whole: bool,
}

/// What is left of a book on which a course was begun.
#[derive(Drop)]
struct Left {
    image: Image,
    told: Told,
    /// How many of the course the book has, refused commands included.
    kept: usize,
}

/// A course, and what an uninterrupted run makes of it.
#[derive(Drop)]
struct Whole<'a> {
    course: &'a Course,
    /// All commands that are sent.
    text: Vec<u8>,
    /// The book before them.
    start: Left,
    /// What the book says before them and after each of them, one after another.
    books: Vec<Vec<u8>>,
    /// Whether they leave the files as they were.
    is_unchanged: bool,
}

/// Asserts what was written.
fn assert_written(rt: &impl Abort, written: &[u8], want: &[u8], at: &str) {
    assert_eq!(rt; written, want, "{at}");
}

/// What the book of an image says.
fn said(rt: &(impl Abort + AllocGlobal), course: &Course, image: &Image) -> Vec<u8> {
    let (written, _) = run(rt, image, &NO_STOP, ASKED, course.behind.as_bytes());
    written
}

/// The words by which a course is gone through from an index on.
fn words(rt: &(impl Abort + AllocGlobal), course: &Course, next: usize) -> String {
    let from = next.saturating_add(1);
    let words = match course.call {
        Call::Post => format!(in rt.alloc(); "lotbook post --book b --batch q --from {from}"),
        Call::AllOrNone(words, _) | Call::Other(words, _) => String::from_str(rt.alloc(), words),
    };
    words.expect(rt, "memory")
}

/// A line that is said at an index of a course. It has a number where commands are posted.
fn line(rt: &(impl Abort + AllocGlobal), course: &Course, index: usize, said: &str) -> String {
    let number = index.saturating_add(1);
    let line = match course.call {
        Call::Post | Call::AllOrNone(_, _) => format!(in rt.alloc(); "{number} {said}\n"),
        Call::Other(_, _) => format!(in rt.alloc(); "{said}\n"),
    };
    line.expect(rt, "memory")
}

/// A text and a line end.
fn ended(rt: &(impl Abort + AllocGlobal), said: &str) -> String {
    format!(in rt.alloc(); "{said}\n").expect(rt, "memory")
}

/// The reply at an index of a course, where the book has so many already.
fn reply(rt: &(impl Abort + AllocGlobal), course: &Course, index: usize, kept: usize) -> String {
    if index < kept {
        return match course.call {
            Call::Post => line(rt, course, index, "repeat"),
            Call::AllOrNone(_, again) | Call::Other(_, again) => ended(rt, again),
        };
    }
    let (_, reply) = course.sent.get(index).expect(rt, "a reply");
    String::from_str(rt.alloc(), reply).expect(rt, "memory")
}

/// The book before a course.
fn start(rt: &(impl Abort + AllocGlobal), course: &Course) -> Image {
    let none = Image {
        log: Vec::new(rt.alloc()),
        db: Vec::new(rt.alloc()),
    };
    if course.made_by.is_empty() {
        return none;
    }
    let before = course.before.as_bytes();
    let (_, remains) = run(rt, &none, &NO_STOP, course.made_by, before);
    all_written(rt, remains)
}

/// Goes through a course without a stop: first through none of it, then the first, then the first two, and so on.
fn uninterrupted<'a>(rt: &(impl Abort + AllocGlobal), course: &'a Course) -> Whole<'a> {
    let start = start(rt, course);
    let (mut text, mut replies) = (Vec::new(rt.alloc()), Vec::new(rt.alloc()));
    let mut books = Vec::new(rt.alloc());
    let mut book = said(rt, course, &start);
    assert_that(rt, book.starts_with(course.first.as_bytes()), course.name);
    let mut is_unchanged = true;
    let words = words(rt, course, 0);
    for (command, reply) in course.sent {
        books.push(book).expect(rt, "memory");
        text.extend_from_slice(command.as_bytes())
            .expect(rt, "memory");
        replies
            .extend_from_slice(reply.as_bytes())
            .expect(rt, "memory");
        let (written, remains) = run(rt, &start, &NO_STOP, &[words.as_str()], &text);
        assert_written(rt, &written, &replies, course.name);
        let image = all_written(rt, remains);
        is_unchanged = image == start;
        book = said(rt, course, &image);
    }
    assert_that(rt, book.starts_with(course.last.as_bytes()), course.name);
    books.push(book).expect(rt, "memory");
    Whole {
        course,
        text,
        start: Left {
            image: start,
            told: Told {
                next: 0,
                least: 0,
                most: 0,
                is_whole: false,
            },
            kept: 0,
        },
        books,
        is_unchanged,
    }
}

/// Whether what was written are replies to the first of some commands, and that the disk failed at the next.
fn is_stopped_inside(rt: &(impl Abort + AllocGlobal), replies: &str, written: &[u8]) -> bool {
    let mut before = String::new(rt.alloc());
    for reply in replies.split_inclusive('\n') {
        let number = reply.split(' ').next().unwrap_or("");
        let stopped = format!(in rt.alloc(); "{before}{number} fault S4 Device\n");
        if stopped.expect(rt, "memory").as_bytes() == written {
            return true;
        }
        before.push_str(reply).expect(rt, "memory");
    }
    false
}

/// What a run told that may have been stopped. Asserts that nothing stands behind the replies, where all were replied to or the
/// files weren't opened, or else the line of a fault of the disk.
fn judge(
    rt: &(impl Abort + AllocGlobal),
    course: &Course,
    from: &Left,
    written: &[u8],
    at: &str,
) -> Told {
    let (mut replied, mut rest) = (from.told.next, written);
    for index in from.told.next..course.sent.len() {
        let reply = reply(rt, course, index, from.kept);
        match rest.strip_prefix(reply.as_bytes()) {
            Some(behind) => {
                rest = behind;
                replied = replied.saturating_add(1);
            }
            None => break,
        }
    }
    let is_in_doubt = rest == line(rt, course, replied, "fault S5 InDoubt").as_bytes();
    let is_device = match course.call {
        Call::AllOrNone(_, _) => is_stopped_inside(rt, &reply(rt, course, 0, from.kept), rest),
        _ => rest == line(rt, course, replied, "fault S4 Device").as_bytes(),
    };
    let is_at_once = rest.len() == written.len();
    let is_all = replied == course.sent.len();
    let is_told = match rest {
        b"" => is_at_once || is_all,
        b"fault S4 Device\n" => is_at_once,
        _ => is_in_doubt || is_device,
    };
    if !is_told {
        assert_written(rt, written, b"replies, and a fault of the disk", at);
    }
    let least = replied.max(from.kept);
    let most = replied.saturating_add(usize::from(is_in_doubt));
    Told {
        next: match course.call {
            Call::Post => replied,
            Call::AllOrNone(_, _) | Call::Other(_, _) => 0,
        },
        least,
        most: most.max(least),
        is_whole: is_all && rest.is_empty(),
    }
}

/// How many of a course the book of an image has: as few as come to what it says.
fn kept(
    rt: &(impl Abort + AllocGlobal),
    whole: &Whole<'_>,
    image: &Image,
    told: &Told,
    at: &str,
) -> usize {
    let found = said(rt, whole.course, image);
    for count in told.least..=told.most {
        if whole.books.get(count) == Some(&found) {
            return count;
        }
    }
    assert_written(rt, &found, b"the book of the commands replied to", at);
    told.least
}

/// Asserts that a course, gone on with without a stop, comes to the book of one uninterrupted run.
fn assert_comes_whole(rt: &(impl Abort + AllocGlobal), whole: &Whole<'_>, left: &Left, at: &str) {
    let words = words(rt, whole.course, left.told.next);
    let (written, remains) = run(rt, &left.image, &NO_STOP, &[words.as_str()], &whole.text);
    let told = judge(rt, whole.course, left, &written, at);
    assert_that(rt, told.is_whole, at);
    let book = said(rt, whole.course, &all_written(rt, remains));
    assert_that(rt, whole.books.last() == Some(&book), at);
}

/// Whether a run left such an image before, with as many of a course as this one may have. Notes a doubt.
fn is_met(met: &mut [Left], told: &Told, image: &Image) -> bool {
    for left in met {
        let is_as_many = told.least <= left.kept && left.kept <= told.most;
        if left.told.next == told.next && is_as_many && left.image == *image {
            left.told.most = left.told.most.max(told.most);
            return true;
        }
    }
    false
}

/// Asserts what a stop leaves of a book while a course is gone on with. Adds that to what was met. Returns whether there was a stop.
fn assert_stop(
    rt: &(impl Abort + AllocGlobal),
    whole: &Whole<'_>,
    from: &Left,
    stop: &Stop,
    met: &mut Vec<Left>,
) -> bool {
    let (name, next) = (whole.course.name, from.told.next);
    let at = format!(in rt.alloc(); "{name} from {next}: {} and {} calls", stop.log, stop.db);
    let at = at.expect(rt, "memory");
    let at = at.as_str();
    let words = words(rt, whole.course, next);
    let (written, remains) = run(rt, &from.image, stop, &[words.as_str()], &whole.text);
    let told = judge(rt, whole.course, from, &written, at);
    assert_that(rt, remains.is_stopped || told.is_whole, at);
    for image in remains.images {
        assert_that(rt, !whole.is_unchanged || image == from.image, at);
        if !is_met(met, &told, &image) {
            let kept = kept(rt, whole, &image, &told, at);
            let left = Left { image, told, kept };
            assert_comes_whole(rt, whole, &left, at);
            met.push(left).expect(rt, "memory");
        }
    }
    remains.is_stopped
}

/// Has each file stop at one in so many of its calls, from that one on, while a course is gone on with, up to the first run without
/// a stop. Returns all that is left, each once.
fn stops(
    rt: &(impl Abort + AllocGlobal),
    whole: &Whole<'_>,
    from: &Left,
    first: u64,
    step: u64,
) -> Vec<Left> {
    let mut met = Vec::new(rt.alloc());
    let (mut stops_log, mut stops_db) = (true, true);
    for index in 0..CALLS {
        let calls = step.saturating_mul(index).saturating_add(first);
        if stops_log {
            let stop = Stop {
                log: calls,
                db: u64::MAX,
                pages: whole.course.pages,
            };
            stops_log = assert_stop(rt, whole, from, &stop, &mut met);
        }
        if stops_db {
            let stop = Stop {
                log: u64::MAX,
                db: calls,
                pages: whole.course.pages,
            };
            stops_db = assert_stop(rt, whole, from, &stop, &mut met);
        }
    }
    assert_that(rt, !stops_log && !stops_db, "more calls than there may be");
    met
}

/// Has each file stop twice: at one in `firsts` of its calls while a course is gone through, then at one in `seconds` while it is
/// gone on with. From one of what the first stops left to the next, the second stops begin one call later. Returns what the first
/// stops left.
fn stops_twice(
    rt: &(impl Abort + AllocGlobal),
    whole: &Whole<'_>,
    firsts: u64,
    seconds: u64,
) -> Vec<Left> {
    let lefts = stops(rt, whole, &whole.start, 0, firsts);
    let mut first = 0;
    for left in &lefts {
        stops(rt, whole, left, first, seconds);
        first = first.saturating_add(1).checked_rem(seconds).unwrap_or(0);
    }
    lefts
}

/// A stop at each call.
const COURSES: &[&Course] = &[
    &DOUBT,
    &PRICES,
    &SALE,
    &EVERY_KIND,
    &MIGRATING,
    &VERIFYING,
    &FINDING_DAMAGE,
];

#[test]
fn a_stop_at_each_call(rt: HostRuntime) {
    for course in COURSES {
        let whole = uninterrupted(&rt, course);
        stops(&rt, &whole, &whole.start, 0, 1);
    }
}

/// Commands that are kept all or none.
const KEPT_WHOLE: &[&Course] = &[&BATCH, &SPILLED, &ROWS, &DROPPED];

/// The book before them or behind them, never one between.
#[test]
fn stops_of_commands_that_are_kept_all_or_none(rt: HostRuntime) {
    for course in KEPT_WHOLE {
        let whole = uninterrupted(&rt, course);
        stops(&rt, &whole, &whole.start, 0, 2);
    }
}

#[test]
fn two_stops_on_a_grid_of_a_batch(rt: HostRuntime) {
    stops_twice(&rt, &uninterrupted(&rt, &BATCH), 3, 7);
}

#[test]
fn two_stops_on_a_grid_of_a_spilled_batch(rt: HostRuntime) {
    stops_twice(&rt, &uninterrupted(&rt, &SPILLED), 5, 11);
}

#[test]
fn two_stops_on_a_grid_of_rows(rt: HostRuntime) {
    stops_twice(&rt, &uninterrupted(&rt, &ROWS), 4, 5);
}

/// No file or an empty one is left, or the book.
#[test]
fn a_stop_at_each_call_while_a_dump_is_restored(rt: HostRuntime) {
    for course in [&RESTORING, &RESTORING_SPILLED].as_slice() {
        let whole = uninterrupted(&rt, course);
        stops(&rt, &whole, &whole.start, 0, 1);
    }
}

#[test]
fn two_stops_on_a_grid_of_restoring(rt: HostRuntime) {
    stops_twice(&rt, &uninterrupted(&rt, &RESTORING), 2, 3);
}

/// All pairs of stops while a book is made.
#[test]
fn two_stops_while_a_book_is_made(rt: HostRuntime) {
    stops_twice(&rt, &uninterrupted(&rt, &MAKING), 1, 1);
}

/// What is held where the smallest ledger was sent again from the first command: its sale finds its lot now.
const SENT_FROM_THE_FIRST: &[u8] = b"Assets:Broker 8 HOOL {100 USD, 2020-01-01}\n\
    Assets:Broker 5 HOOL {120 USD, 2020-02-01}\n\
    Assets:Cash 910.00 USD\n\
    Equity:Start -2200.00 USD\n\
    Income:Gains -110.00 USD\n\
    total cost 1400.00 USD\n";

/// Asserts what becomes of the smallest ledger where it is sent from its first command to a book that has the second.
fn assert_sent_from_the_first(rt: &(impl Abort + AllocGlobal), text: &[u8], left: &Left) {
    let calls = &["lotbook post --book b --batch q"];
    let (written, remains) = run(rt, &left.image, &NO_STOP, calls, text);
    let last = if left.kept == 3 { "repeat" } else { "accepted" };
    let want = format!(in rt.alloc(); "1 accepted\n2 repeat\n3 {last}\n").expect(rt, "memory");
    assert_written(rt, &written, want.as_bytes(), "sent from the first");
    let calls = &["lotbook holdings --book b"];
    let (held, _) = run(rt, &all_written(rt, remains), &NO_STOP, calls, b"");
    assert_written(rt, &held, SENT_FROM_THE_FIRST, "sent from the first");
}

/// All pairs of stops of the smallest ledger. Its last commit is met in doubt, once kept and once lost.
#[test]
fn two_stops_and_a_commit_in_doubt(rt: HostRuntime) {
    let rt = &rt;
    let whole = uninterrupted(rt, &DOUBT);
    let (mut is_kept, mut is_lost) = (false, false);
    for left in &stops_twice(rt, &whole, 1, 1) {
        if left.told.next == 2 && left.told.most == 3 {
            assert_sent_from_the_first(rt, &whole.text, left);
            is_kept = is_kept || left.kept == 3;
            is_lost = is_lost || left.kept == 2;
        }
    }
    assert_that(rt, is_kept && is_lost, "a commit in doubt");
}

// The two steps of a ledger share no factor, so that the pairs fall on different calls of a commit.

#[test]
fn two_stops_on_a_grid_of_prices(rt: HostRuntime) {
    stops_twice(&rt, &uninterrupted(&rt, &PRICES), 2, 3);
}

#[test]
fn two_stops_on_a_grid_of_a_sale(rt: HostRuntime) {
    stops_twice(&rt, &uninterrupted(&rt, &SALE), 3, 4);
}

#[test]
fn two_stops_on_a_grid_of_every_kind(rt: HostRuntime) {
    stops_twice(&rt, &uninterrupted(&rt, &EVERY_KIND), 4, 7);
}
