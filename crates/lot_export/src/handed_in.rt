//! The rows of a file as they are handed in, each under its key.
ghost use Rattle.std.specs.Prelude.{◌≡◌, ◌≤◌, IfOk, IfErr, IsSome, IsTrue, length};
ghost use Rattle.lot_sheet.specs.Sheet.{most_rows};
ghost use Rattle.lot_export.specs.Entries.{dated_at};
ghost use Rattle.lot_export.specs.HandedIn.{AreHandedIn, FailsAmong, HaveDays, HaveNext, IsHandedIn, IsToFail, judged_of};
ghost use Rattle.lot_export.specs.Named.{is_posted};

use crate::cancel::bought_on;
use crate::deal::asked_of;
use crate::entry::{Entry, dated_at};
use crate::fault::ExportFault;
use crate::named::{Named, is_posted};
use lot_base::Label;
use lot_command::Key;
use lot_rounding::Asked;
use std::alloc::Global;

/// The rows of a file, and which purchases of it are taken back.
#[derive(Clone, Copy)]
pub(crate) struct Sheet<'a> {
    pub(crate) entries: &'a [Entry],
    /// Those that are judged, in this order, also those that are left out.
    pub(crate) rows: &'a [Named],
    /// Of each of these the place among them of the purchase that it takes back.
    pub(crate) partners: &'a [Option<usize>],
    /// The names of those that are left out.
    pub(crate) except: &'a [Label],
}

/// Commands with the numbers of their rows, as many of one as of the other.
pub struct Given {
    pub numbers: Vec<usize>,
    pub commands: Vec<(Key, Asked)>,
}

impl Drop for Given {
    /// It is written out, so that callers don't prove again how each part is dropped.
    fn drop(self) {
        let Given {
            numbers: _numbers,
            commands: _commands,
        } = self;
    }
}

/// Returns what rows ask for, but for those that are left out or posted by hand: each under its key in the source, and with its
/// number.
pub(crate) fn handed_in(
    alloc: Global,
    source: &Label,
    sheet: &Sheet<'_>,
) -> Result<Given, ExportFault>
    requires days { HaveDays sheet.now.entries.now sheet.now.rows.now }
    requires few { length sheet.now.entries.now ≤ most_rows }
    ensures ok { IfOk result (λ given. AreHandedIn source.now sheet.now (judged_of sheet.now)
        (given.numbers.items, given.commands.items)) }
    ensures next { IfOk result (λ given. HaveNext given.numbers.items) }
    ensures as_many { IfOk result (λ given.
        length given.numbers.items ≡ length given.commands.items) }
    ensures fault { IfErr result (FailsAmong sheet.now (judged_of sheet.now)) }
{
    let mut numbers = Vec::new(alloc);
    let mut commands = Vec::new(alloc);
    for (named, partner) in sheet.rows.iter().zip(sheet.partners) {
        if is_posted(sheet.entries, sheet.except, named) {
            let given = match keyed(alloc, source, sheet, named, *partner) {
                Ok(given) => given,
                Err(fault) => return Err(fault),
            };
            commands.push(given)?;
            numbers.push(named.number)?;
        }
    }
    Ok(Given { numbers, commands })
}

/// Returns what a row asks for, under its key. The place of the purchase that it takes back is given, if it takes one back.
fn keyed(
    alloc: Global,
    source: &Label,
    sheet: &Sheet<'_>,
    named: &Named,
    partner: Option<usize>,
) -> Result<(Key, Asked), ExportFault>
    requires day { IsSome (dated_at sheet.now.entries.now named.now.number) }
    requires posted { IsTrue (is_posted sheet.now.entries.now sheet.now.except.now named.now) }
    ensures ok { IfOk result (IsHandedIn source.now sheet.now (named.now, partner)) }
    ensures fault { IfErr result (IsToFail sheet.now (named.now, partner)) }
{
    let Some(dated) = dated_at(sheet.entries, named.number) else {
        unreachable!()
    };
    let bought = bought_on(sheet.rows, sheet.except, partner);
    let asked = asked_of(alloc, named.number, dated, bought)?;
    let key = Key {
        source: source.copy()?,
        name: named.name.copy()?,
    };
    Ok((key, asked))
}
