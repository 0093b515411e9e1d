//! What the codes mean, and why the commands of a call were refused.

ghost use Rattle.std.specs.Prelude.{◌≡◌, OnOk, option_copied, option_map};
ghost use Rattle.std.specs.Io.Buffered.{writer_contents};
ghost use Rattle.lot_explain.specs.Explained.{Lists};
ghost use Rattle.lot_host.specs.Answers.{IsShown, unusable};
ghost use Rattle.lot_call.specs.Except.{except_of};
ghost use Rattle.lot_call.specs.Help.{help_of};
ghost use Rattle.lot_call.specs.Looks.{IsLookedAt};
ghost use Rattle.lot_call.specs.Status.{status_shown, status_told};
ghost use Rattle.lot_call.specs.Told.{AppendsProfile, IsShownSo, Tells, TellsTo, TellsWord};
ghost use Rattle.lot_call.specs.Told.{names_profile};
ghost use Rattle.sqlite.specs.Held.{state};

use crate::call::{Call, rounding_of};
use crate::crumbs::Crumbs;
use crate::exported::Exported;
use crate::facts::look_up;
use crate::misnamed::warn_of_account;
use crate::remains::say_cut_short;
use crate::remembered::Remembered;
use crate::status::status_behind;
use lot_args::Action;
use lot_base::Label;
use lot_command::Key;
use lot_explain::{Explanation, ExportRows, Source, Transcript, list, nearest_code};
use lot_output::{Ended, Heard, Meter, Output, Pace, Record};
use lot_profile_text::{NOTES, SECTIONS, explain_profile};
use lot_rounding::Asked;
use lot_stream::{DONE, STOPPED, UNUSABLE};
use sqlite::{Alter, Connection};
use std::alloc::{AllocError, Global};
use std::collections::BTreeMap;
use std::io::{self, Write};

/// Tells what a code means, or what all do, or what a profile may say, and returns the status.
pub fn tell(rt: &HostRuntime, code: Option<&str>) -> u8
    ensures { Tells (option_copied code.entry) result }
{
    let replies = Meter::of_replies(rt, None);
    let output = Output::new(rt.alloc(), rt.stdout(), Pace::Buffered, replies);
    let (status, _stdout) = tell_to(rt, code, output);
    status
}

/// Writes to an output what a code means, or what all do, or what a profile may say. Returns the
/// status, and what the output was written to.
fn tell_to<W: Write + Drop>(rt: &HostRuntime, code: Option<&str>, output: Output<'_, W>) -> (u8, W)
    ensures { TellsTo (option_copied code.entry)
        (writer_contents W.contents output.entry.buffer) (W.contents result.1) result.0 }
{
    let Some(word) = code else {
        return list_to(rt, output);
    };
    if names_profile(word) {
        return profile_to(rt, output);
    }
    word_to(rt, word, output)
}

/// Returns whether a word stands for all that a profile may say.
fn names_profile(word: &str) -> bool
    ensures { result ≡ names_profile word.now }
{
    word == "profile"
}

/// Writes all codes to an output. Returns the status, and what the output was written to.
fn list_to<W: Write + Drop>(rt: &HostRuntime, output: Output<'_, W>) -> (u8, W)
    ensures { IsShownSo (Lists (writer_contents W.contents output.entry.buffer))
        (W.contents result.1) result.0 }
{
    let mut output = output;
    let shown = list(&mut output);
    let Ended { writer, is_whole } = output.end();
    (status_behind(end_shown(rt, shown), is_whole), writer)
}

/// Writes to an output all that a profile may say. Returns the status, and what the output was
/// written to.
fn profile_to<W: Write + Drop>(rt: &HostRuntime, output: Output<'_, W>) -> (u8, W)
    ensures { IsShownSo (AppendsProfile (writer_contents W.contents output.entry.buffer))
        (W.contents result.1) result.0 }
{
    let mut output = output;
    let shown = tell_profile(rt, &mut output);
    let Ended { writer, is_whole } = output.end();
    (status_behind(end_shown(rt, shown), is_whole), writer)
}

/// Writes to an output what a word means, where it names a code or a cause of a faulty row. Returns
/// the status, and what the output was written to.
fn word_to<W: Write + Drop>(rt: &HostRuntime, word: &str, output: Output<'_, W>) -> (u8, W)
    ensures { TellsWord word.now (writer_contents W.contents output.entry.buffer)
        (W.contents result.1) result.0 }
{
    let mut output = output;
    let told = lot_explain::explain(&mut output, word);
    let Ended { writer, is_whole } = output.end();
    (status_behind(end_told(rt, word, told), is_whole), writer)
}

/// Says that the output is cut short, where it couldn't be written. Returns the status.
pub(crate) fn end_shown(rt: &HostRuntime, shown: io::Result<()>) -> u8
    ensures status { result ≡ status_shown shown }
    ensures shown { IsShown result }
{
    match shown {
        Ok(()) => DONE,
        Err(error) => {
            say_cut_short(rt, error);
            STOPPED
        }
    }
}

/// Says that a word is no code, where it is none, or that the output is cut short. Returns the status.
fn end_told(rt: &HostRuntime, word: &str, told: io::Result<bool>) -> u8
    ensures { result ≡ status_told told }
{
    match told {
        Ok(true) => DONE,
        Ok(false) => unknown(rt, word),
        Err(error) => end_shown(rt, Err(error)),
    }
}

/// Writes all that a profile may say.
fn tell_profile<W: Write>(rt: &HostRuntime, output: &mut W) -> io::Result<()>
    ensures { OnOk result (AppendsProfile (W.contents output.old) (W.contents output.new)) }
{
    let text = explain_profile(rt.alloc(), &SECTIONS, &NOTES)?;
    output.write_all(text.as_bytes())?;
    output.flush()
}

/// Says of a word that it is no code, and which is nearest to it.
fn unknown(rt: &HostRuntime, word: &str) -> u8
    ensures { result ≡ unusable }
{
    let _ = match nearest_code(rt.alloc(), word) {
        Ok(nearest) => eprintln!(rt;
            "lotbook: there is no code '{word}'; the nearest is {nearest}: lotbook explain {nearest}"
        ),
        Err(_) => eprintln!(rt; "lotbook: there is no code '{word}': lotbook explain lists all"),
    };
    UNUSABLE
}

/// Says on standard error why commands were refused, what a fault means, which rows were left out, and what was perhaps meant or
/// read otherwise. What is said of commands that aren't kept is by the book that they had made, else by the book as
/// it is, which is looked at alone. Where memory ends or that can't be written, less is said.
pub fn explain<'a, S: Alter>(
    call: &'a Call<'a>,
    read: &'a Record,
    heard: &'a Heard,
    crumbs: &'a Crumbs,
    remembered: &mut Remembered,
    conn: &mut Connection<S>,
)
    ensures { IsLookedAt (state S.Store conn.old) (state S.Store conn.new) }
{
    warn_of_account(call, heard, conn);
    explain_lines(call, read, heard, crumbs, remembered, conn)
}

/// Says on standard error what there is to say of what a call read, and of the lines that it wrote.
fn explain_lines<'a, S: Alter>(
    call: &'a Call<'a>,
    read: &'a Record,
    heard: &'a Heard,
    crumbs: &'a Crumbs,
    remembered: &mut Remembered,
    conn: &mut Connection<S>,
)
    ensures { IsLookedAt (state S.Store conn.old) (state S.Store conn.new) }
{
    let (Some(input), Some(lines)) = (&read.bytes, &heard.lines.bytes) else {
        return;
    };
    let alloc = call.rt.alloc();
    let cause = match call.failure.cause() {
        Some(cause) => format!(in alloc; "{cause}").ok(),
        None => None,
    };
    let most = call.most();
    let Ok(exported) = Exported::of(alloc, call.action, input.as_slice(), lines.as_slice()) else {
        return;
    };
    let Ok(rows) = rows_of(alloc, &exported) else {
        return;
    };
    let commands = match &exported {
        Some(exported) => exported.commands(),
        None => &[],
    };
    let (source, from) = source_of(call.action, &rows, commands);
    let transcript = Transcript {
        source,
        input: input.as_slice(),
        from,
        except: except_of(call.action),
        lines: lines.as_slice(),
        left_out: heard.course.refused.saturating_sub(most),
        cause: cause.as_deref(),
        help: help_of(call.action),
        rounding: rounding_of(call.action),
        findings: &crumbs.findings,
    };
    write_explanation(call.rt, &transcript, most, remembered, conn);
}

/// Writes on standard error what there is to say of what a call read and said, as much as is wanted.
fn write_explanation<'a, S: Alter>(
    rt: &HostRuntime,
    transcript: &'a Transcript<'a>,
    most: u64,
    remembered: &mut Remembered,
    conn: &mut Connection<S>,
)
    ensures { IsLookedAt (state S.Store conn.old) (state S.Store conn.new) }
{
    let alloc = rt.alloc();
    let Ok(explanation) = Explanation::of(alloc, transcript) else {
        return;
    };
    if !remembered.is_dropped {
        let Ok(wanted) = explanation.wanted(alloc) else {
            return;
        };
        look_up(alloc, conn, &wanted, &mut remembered.known);
    }
    let _ = explanation.write(alloc, &mut rt.stderr(), &remembered.known, most);
}

/// Returns the rows of an export, none where there is none. The only error is out of memory.
fn rows_of(alloc: Global, exported: &Option<Exported>) -> Result<ExportRows, AllocError> {
    match exported {
        Some(exported) => exported.rows(alloc),
        None => Ok(BTreeMap::new(alloc)),
    }
}

/// Returns what an action is given, of an export these rows and commands, and the number of the first command or row that it runs.
fn source_of<'a>(
    action: &'a Action,
    rows: &'a ExportRows,
    commands: &'a [(Key, Asked)],
) -> (Source<'a>, u32) {
    match action {
        Action::Import(import) => {
            let (batch, accounts) = (import.batch.as_str(), &import.accounts);
            (Source::Rows { batch, accounts }, import.from.number())
        }
        Action::ImportBy(import) => {
            let batch = import.batch.as_str();
            (
                Source::Export {
                    batch,
                    rows,
                    commands,
                },
                1,
            )
        }
        Action::Post(post) => {
            let batch = post.batch.as_str();
            (Source::Text { batch }, post.from.number())
        }
        Action::PostRow {
            batch,
            reference,
            ..
        } => {
            let (batch, reference) = (batch.as_str(), reference.as_str());
            (Source::Row { batch, reference }, 1)
        }
        Action::Restore(_) => (Source::Dump, 1),
        Action::Reconcile(_) => (Source::Statement, 1),
        Action::Check { .. }
        | Action::Init { .. }
        | Action::Migrate { .. }
        | Action::Report { .. }
        | Action::Verify { .. } => (Source::Text { batch: "check" }, 1),
    }
}

/// Returns what helps where the book that an action takes up is damaged. Of an action that judges a whole book, or makes one, it is
/// `None`.
fn help_of(action: &Action) -> Option<&'static str>
    ensures { option_map (λ text. text.now) result ≡ help_of action.now }
{
    match action {
        Action::Post(_)
        | Action::PostRow { .. }
        | Action::Import(_)
        | Action::ImportBy(_)
        | Action::Report { .. }
        | Action::Reconcile(_) => Some("lotbook verify says where the damage shows"),
        Action::Check { .. }
        | Action::Init { .. }
        | Action::Migrate { .. }
        | Action::Restore(_)
        | Action::Verify { .. } => None,
    }
}

/// Returns the `ref` of each row that an action leaves out, of an export the name of its key.
fn except_of(action: &Action) -> &[Label]
    ensures { result.now ≡ except_of action.now }
{
    match action {
        Action::Import(import) => import.except.as_slice(),
        Action::ImportBy(import) => import.except.as_slice(),
        _ => &[],
    }
}
