//! The entries of the range, folded by month.

ghost use Rattle.std.specs.Prelude.{◌≡◌, ◌++◌, [], OnOk, true};
ghost use Rattle.std.specs.BTreeSet.{contains, Updates};
ghost use Rattle.std.specs.Ordering.{nat_cmp};
ghost use Rattle.std.specs.String.{string_bytes};
ghost use Rattle.lot_page_report.specs.Listed.{HasListedEntries, month_number};
ghost use Rattle.lot_page_report.specs.Sections.{entry_piece, fold_end, fold_with, is_month, journal_end, summary_html};
ghost use Rattle.lot_rows.specs.declared.entry.EntryRow.{EntryRow as EntryRowOf};
ghost use Rattle.lot_walk.specs.Gains.{Range};
ghost use Rattle.lot_walk.specs.Journal.{said};

use crate::list::Listing;
use crate::sales::push_target;
use crate::scope::is_within;
use lot_base::Day;
use lot_cells::push_entry;
use lot_legs::day_at_front;
use lot_months::month_of;
use lot_plot::{Month, push_month};
use lot_report::Entry;
use std::alloc::{AllocError, Global};
use std::collections::BTreeSet;

/// The entries of a range, as they are written: neighbours of one month in one fold.
#[derive(Drop)]
pub(crate) struct JournalList {
    alloc: Global,
    first: Option<Day>,
    last: Option<Day>,
    /// The month of the last fold.
    month: Option<Month>,
    /// The months that have a fold.
    months: BTreeSet<u32>,
}

impl JournalList {
    /// The list before its first entry. It takes no memory.
    pub fn new(alloc: Global, first: Option<Day>, last: Option<Day>) -> JournalList
        ensures { HasListedEntries (first, last) [] result }
    {
        JournalList {
            alloc,
            first,
            last,
            month: None,
            months: BTreeSet::new(alloc),
        }
    }
}

impl Listing<Entry> for JournalList {
    // The range.
    ghost Terms = { Range };

    ghost Told = { EntryRowOf };

    ghost told = { said };

    ghost piece = { entry_piece };

    ghost end_of = { journal_end };

    ghost HasListed = { HasListedEntries };

    /// The text of each entry that a walk gives begins with a day.
    fn next_text(&mut self, entry: Entry) -> Result<String, AllocError> {
        let Some(day) = day_at_front(entry.body.as_str()) else {
            return Err(AllocError);
        };
        let mut text = String::new(self.alloc);
        if !is_within(self.first, self.last, day) {
            return Ok(text);
        }
        let month = month_of(day);
        push_fold(&mut text, &mut self.months, self.month, month)?;
        push_entry(&mut text, &entry)?;
        self.month = Some(month);
        Ok(text)
    }

    fn end_text(&self) -> &'static str {
        match self.month {
            Some(_) => "</pre>\n</details>\n</section>\n</main>\n</body>\n</html>\n",
            None => "<p>No entries</p>\n</section>\n</main>\n</body>\n</html>\n",
        }
    }
}

/// Appends the begin of a fold, where the last entry is of another month, and keeps its month.
fn push_fold(
    text: &mut String,
    months: &mut BTreeSet<u32>,
    last: Option<Month>,
    month: Month,
) -> Result<(), AllocError>
    ensures text { OnOk result (string_bytes text.new ≡ string_bytes text.old
        ++ fold_with (month_number last) (contains nat_cmp months.old month.0) month.0) }
    ensures months { OnOk result (Updates nat_cmp months.old months.new month.0 true) }
{
    if is_month(last, month) {
        months.insert(month.0)?;
        return Ok(());
    }
    push_fold_end(text, last)?;
    text.push_str("<details>\n")?;
    let is_first = months.insert(month.0)?;
    push_summary(text, is_first, month)
}

/// Returns whether a month is the last one.
fn is_month(last: Option<Month>, month: Month) -> bool
    ensures { result ≡ is_month month.0 (month_number last) }
{
    match last {
        Some(last) => last.0 == month.0,
        None => false,
    }
}

/// Appends the end of the last fold, if there is one.
fn push_fold_end(text: &mut String, last: Option<Month>) -> Result<(), AllocError>
    ensures { OnOk result (string_bytes text.new
        ≡ string_bytes text.old ++ fold_end (month_number last)) }
{
    match last {
        Some(_) => text.push_str("</pre>\n</details>\n"),
        None => Ok(()),
    }
}

/// Appends the summary of a fold. Sales are linked to that of the first fold of a month.
fn push_summary(text: &mut String, is_first: bool, month: Month) -> Result<(), AllocError>
    ensures { OnOk result (string_bytes text.new
        ≡ string_bytes text.old ++ summary_html is_first month.0) }
{
    if is_first {
        return push_first_summary(text, month);
    }
    text.push_str("<summary>")?;
    push_month(text, month)?;
    text.push_str("</summary>\n<pre>")
}

/// Appends the summary of the first fold of a month.
fn push_first_summary(text: &mut String, month: Month) -> Result<(), AllocError>
    ensures { OnOk result (string_bytes text.new
        ≡ string_bytes text.old ++ summary_html true month.0) }
{
    text.push_str("<summary id=\"")?;
    push_target(text, month)?;
    text.push_str("\">")?;
    push_month(text, month)?;
    text.push_str("</summary>\n<pre>")
}
