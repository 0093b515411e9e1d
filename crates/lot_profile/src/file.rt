use lot_command::Items;
use lot_field::{DayForm, NumberForm, Test, Text};

/// How the bytes of a file are read as text.
#[derive(Clone, Copy, Debug, PartialEq, Eq)]
pub enum Encoding {
    Utf8,
    Latin1,
}

/// What stands between the fields of a line.
#[derive(Clone, Copy, Debug, PartialEq, Eq)]
pub enum Delimiter {
    Comma,
    Semicolon,
    Tab,
}

/// How a file is written.
pub struct FileForm {
    pub encoding: Encoding,
    pub delimiter: Delimiter,
    pub numbers: NumberForm,
    /// Fields that mean no value.
    pub nothing: Items<Text>,
    pub day: DayForm,
    /// The names of columns that some files of this broker lack.
    pub optional: Items<Text>,
}

impl Drop for FileForm {
    /// It is written out, so that callers don't prove again how each part is dropped.
    fn drop(self) {
        let FileForm {
            encoding: _encoding,
            delimiter: _delimiter,
            numbers: _numbers,
            nothing: _nothing,
            day: _day,
            optional: _optional,
        } = self;
    }
}

/// Which column is meant.
pub enum Column {
    /// That column, counted from 1.
    Number(usize),
    /// The column of which the header has that name.
    Named(Text),
}

impl Drop for Column {
    /// It is written out, so that callers don't prove again how each part is dropped.
    fn drop(self) {
        match self {
            Column::Number(_number) => {}
            Column::Named(_name) => {}
        }
    }
}

/// What is asked of a column: that one of these tests holds of its field.
pub struct Condition {
    pub column: Column,
    pub tests: Items<Test>,
}

impl Drop for Condition {
    /// It is written out, so that callers don't prove again how each part is dropped.
    fn drop(self) {
        let Condition {
            column: _column,
            tests: _tests,
        } = self;
    }
}
