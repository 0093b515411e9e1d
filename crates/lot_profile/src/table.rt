use crate::file::Condition;
use crate::kind::KindRule;
use crate::role::{Role, Sources};
use lot_command::Items;
use lot_field::Text;

/// A table of a file.
pub struct Table {
    pub header: Header,
    /// What is asked of a line that is a row of this table; nothing where the file has one table.
    pub rows: Items<Condition>,
    pub order: Order,
    /// Where each role is found, each at most once.
    pub columns: Items<Sources>,
    /// The roles whose sign the broker prints the other way.
    pub turn: Items<Role>,
    pub kinds: Items<KindRule>,
}

impl Drop for Table {
    /// It is written out, so that callers don't prove again how each part is dropped.
    fn drop(self) {
        let Table {
            header: _header,
            rows: _rows,
            order: _order,
            columns: _columns,
            turn: _turn,
            kinds: _kinds,
        } = self;
    }
}

/// Which line is the header of a table.
pub enum Header {
    /// None: its columns have no names.
    Absent,
    /// That line, counted from 1 among the lines that aren't blank.
    Number(usize),
    /// The lines whose fields, with the delimiter between them, begin so.
    Begins(Text),
}

impl Drop for Header {
    /// It is written out, so that callers don't prove again how each part is dropped.
    fn drop(self) {
        match self {
            Header::Absent => {}
            Header::Number(_number) => {}
            Header::Begins(_text) => {}
        }
    }
}

/// In which order the rows of a table stand.
#[derive(Clone, Copy, Debug, PartialEq, Eq)]
pub enum Order {
    /// The oldest first.
    OldestFirst,
    /// The newest first.
    NewestFirst,
    /// In any order of days; those of a day the oldest first.
    ByDay,
    /// In any order of days; those of a day the newest first.
    ByDayNewestFirst,
}
