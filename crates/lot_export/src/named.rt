//! Rows with the names of their keys, and which of them are posted.
ghost use Rattle.std.specs.Prelude.{◌≡◌, IfOk};
ghost use Rattle.lot_export.specs.Named.{by_hand_of, is_by_hand, is_left_out, is_posted, named_of};

use crate::entry::{Entry, dated_at};
use lot_base::{Day, Label};
use lot_command::Items;
use lot_deal_read::Saying;
use lot_sequence::Row as Line;
use std::alloc::{AllocError, Global};

/// A row with the name of its key.
pub struct Named {
    /// Its number in the file, counted from 1.
    pub number: usize,
    pub day: Day,
    pub name: Label,
}

impl Drop for Named {
    /// It is written out, so that callers don't prove again how each part is dropped.
    fn drop(self) {
        let Named {
            number: _number,
            day: _day,
            name: _name,
        } = self;
    }
}

impl Named {
    /// Returns a copy. The only error is out of memory.
    fn copy(&self) -> Result<Named, AllocError>
        ensures { IfOk result (λ named. named ≡ self.now) }
    {
        Ok(Named {
            number: self.number,
            day: self.day,
            name: self.name.copy()?,
        })
    }
}

/// Returns rows with these names. The only error is out of memory.
pub(crate) fn with_names(
    alloc: Global,
    lines: &[Line<'_>],
    names: &[Label],
) -> Result<Items<Named>, AllocError>
    ensures { IfOk result (λ rows. rows ≡ named_of lines.now names.now) }
{
    let mut rows = Items::new(alloc);
    for (line, name) in lines.iter().zip(names) {
        rows.push(Named {
            number: line.number,
            day: line.day,
            name: name.copy()?,
        })?;
    }
    Ok(rows)
}

/// Returns copies of those that are posted by hand, and aren't left out. The only error is out of memory.
pub(crate) fn by_hand(
    alloc: Global,
    entries: &[Entry],
    except: &[Label],
    rows: &[Named],
) -> Result<Items<Named>, AllocError>
    ensures { IfOk result (λ left. left ≡ by_hand_of entries.now except.now rows.now) }
{
    let mut left = Items::new(alloc);
    for named in rows {
        if !is_left_out(except, named) && is_by_hand(entries, named) {
            left.push(named.copy()?)?;
        }
    }
    Ok(left)
}

/// Returns whether a row is handed in: it isn't left out, nor posted by hand.
pub(crate) fn is_posted(entries: &[Entry], except: &[Label], named: &Named) -> bool
    ensures { result ≡ is_posted entries.now except.now named.now }
{
    !is_left_out(except, named) && !is_by_hand(entries, named)
}

/// Returns whether a row has one of the names that are left out.
pub(crate) fn is_left_out(except: &[Label], named: &Named) -> bool
    ensures { result ≡ is_left_out except.now named.now }
{
    except.contains(&named.name)
}

/// Returns whether a row is posted by hand.
fn is_by_hand(entries: &[Entry], named: &Named) -> bool
    ensures { result ≡ is_by_hand entries.now named.now }
{
    match dated_at(entries, named.number) {
        Some(dated) => matches!(dated.saying, Saying::ByHand),
        None => false,
    }
}
