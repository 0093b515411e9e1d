//! What is read of each item of an array, and of each member of a table.
ghost use Rattle.std.specs.Prelude.{◌≡◌, ℕ, List};
ghost use Rattle.toml.specs.Data.{Data};
ghost use Rattle.toml.specs.View.{array_view, table_view, view};
ghost use Rattle.lot_profile_text.specs.Reading.{Gives, Read, items_of, keyed_of, list_of, members_of, only_list_of, some_of};

use crate::entry::Form;
use crate::fault::ProfileFault;
use crate::part::{Part, wrong};
use crate::place::numbered;
use lot_command::Items;
use lot_field::Text;
use std::alloc::Global;
use toml::value::{Array, Table, Value};

/// A part of what a profile says, which a key and the value under it say together.
pub(crate) trait Member: Drop {
    // What the key and the value say at the place of their table, or the first fault.
    ghost said_at: { List ℕ → List ℕ → Data → Read Self };

    /// Returns what a key and the value under it say, in the table at a place, or the first fault.
    fn read(alloc: Global, place: &str, key: &str, value: &Value) -> Result<Self, ProfileFault>
        ensures { Gives result (said_at place.now key.now (view value.now)) };
}

/// Returns what each item of the array at a place says, or the first fault.
pub(crate) fn items<P: Part>(
    alloc: Global,
    place: &str,
    array: &Array,
) -> Result<Items<P>, ProfileFault>
    ensures { Gives result (items_of P.said place.now (array_view array.now)) }
{
    let mut all = Items::new(alloc);
    for (index, value) in array.iter().enumerate() {
        let place = numbered(alloc, place, index + 1)?;
        all.push(P::read(alloc, place.as_str(), value)?)?;
    }
    Ok(all)
}

/// Returns what each member of the table at a place says, in the order of their keys, or the first fault.
pub(crate) fn members<M: Member>(
    alloc: Global,
    place: &str,
    table: &Table,
) -> Result<Items<M>, ProfileFault>
    ensures { Gives result (members_of M.said_at place.now (table_view table.now)) }
{
    let mut all = Items::new(alloc);
    for (key, value) in table.iter() {
        all.push(M::read(alloc, place, key.as_str(), value)?)?;
    }
    Ok(all)
}

impl<P: Part> Part for Items<P> {
    ghost said = { list_of P.said };

    fn read(alloc: Global, place: &str, value: &Value) -> Result<Items<P>, ProfileFault> {
        if let Some(array) = value.as_array() {
            return items(alloc, place, array);
        }
        let mut one = Items::new(alloc);
        one.push(P::read(alloc, place, value)?)?;
        Ok(one)
    }
}

/// What the items of a list say.
pub(crate) struct Listed<P: Part> {
    pub items: Items<P>,
}

impl<P: Part> Drop for Listed<P> {
    fn drop(self) {
        let Listed { items: _items } = self;
    }
}

impl<P: Part> Part for Listed<P> {
    ghost said = { only_list_of P.said };

    fn read(alloc: Global, place: &str, value: &Value) -> Result<Listed<P>, ProfileFault> {
        match value.as_array() {
            Some(array) => Ok(Listed {
                items: items(alloc, place, array)?,
            }),
            None => Err(wrong(alloc, place, Form::List)),
        }
    }
}

impl<P: Part> Listed<P> {
    /// Returns what the items say.
    pub(crate) fn into_items(self) -> Items<P>
        ensures { result ≡ self.items }
    {
        let Listed { items } = self;
        items
    }
}

/// Returns the items of the list at a place, of which there have to be one or more, or the fault that it is missing.
pub(crate) fn some<T: Drop>(
    alloc: Global,
    place: &str,
    items: Items<T>,
) -> Result<Items<T>, ProfileFault>
    ensures { Gives result (some_of place.now items) }
{
    if items.as_slice().is_empty() {
        return Err(ProfileFault::Missing(Text::new(alloc, place)?));
    }
    Ok(items)
}

/// What the members of a table say, in the order of their keys.
pub(crate) struct Keyed<M: Member> {
    pub members: Items<M>,
}

impl<M: Member> Drop for Keyed<M> {
    fn drop(self) {
        let Keyed { members: _members } = self;
    }
}

impl<M: Member> Part for Keyed<M> {
    ghost said = { keyed_of M.said_at };

    fn read(alloc: Global, place: &str, value: &Value) -> Result<Keyed<M>, ProfileFault> {
        match value.as_table() {
            Some(table) => Ok(Keyed {
                members: members(alloc, place, table)?,
            }),
            None => Err(wrong(alloc, place, Form::Table)),
        }
    }
}

impl<M: Member> Keyed<M> {
    /// Returns what the members say.
    pub(crate) fn into_members(self) -> Items<M>
        ensures { result ≡ self.members }
    {
        let Keyed { members } = self;
        members
    }
}
