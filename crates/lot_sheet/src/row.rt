ghost use Rattle.std.specs.Prelude.{◌≡◌, get_or, [], length};
ghost use Rattle.csv.specs.Records.{fields_of};
ghost use Rattle.std.specs.List.{slice_get};
ghost use Rattle.std.specs.Option.{option_map};

use csv::StringRecord;
use lot_command::Items;
use lot_field::Text;
use std::marker::Model;
use std::rc::Rc;

/// The names of the fields of a header, without the blanks at their ends. Rows share them.
pub(crate) type Names = Rc<Items<Text>>;

/// A row of a table of a broker's file.
pub struct Row {
    number: usize,
    table: usize,
    header: Option<Names>,
    fields: StringRecord,
}

impl Model for Row {
    ghost use Rattle.std.specs.Option.{option_map};
    ghost use Rattle.csv.specs.Records.{fields_of};
    ghost use Rattle.lot_sheet.specs.Sheet.{SheetRow};

    ghost Value = { SheetRow };

    ghost view = { λ row. record {
      number = row.number;
      table = row.table;
      header = option_map (λ names. names.value) row.header;
      fields = fields_of row.fields;
    } };
}

impl Row {
    /// Returns a row.
    pub(crate) fn new(
        number: usize,
        table: usize,
        header: Option<Names>,
        fields: StringRecord,
    ) -> Row
        ensures { result ≡ record {
          number = number;
          table = table;
          header = option_map (λ names. names.value) header;
          fields = fields_of fields;
        } }
    {
        Row {
            number,
            table,
            header,
            fields,
        }
    }

    /// Returns its number, counted from 1 over the rows of all tables.
    pub fn number(&self) -> usize
        ensures { result ≡ self.now.number }
    {
        self.number
    }

    /// Returns the place of its table, counted from 0.
    pub fn table(&self) -> usize
        ensures { result ≡ self.now.table }
    {
        self.table
    }

    /// Returns how many fields it has.
    pub fn len(&self) -> usize
        ensures { result ≡ length self.now.fields }
    {
        self.fields.len()
    }

    /// Returns the field at a place, counted from 0, as it stands; it is empty where the row is shorter.
    pub fn at(&self, place: usize) -> &str
        ensures { result.now ≡ get_or self.now.fields place [] }
    {
        field_at(&self.fields, place)
    }

    /// Returns the names of its header, if its table has one.
    pub fn header(&self) -> Option<&Items<Text>>
        ensures { option_map (λ names. names.now) result ≡ self.now.header }
    {
        names(&self.header)
    }

    /// Returns its fields.
    pub(crate) fn fields(&self) -> &StringRecord
        ensures { fields_of result.now ≡ self.now.fields }
    {
        &self.fields
    }
}

/// Returns the names of a header, if there is one.
pub(crate) fn names(header: &Option<Names>) -> Option<&Items<Text>>
    ensures { option_map (λ names. names.now) result
        ≡ option_map (λ names. names.value) header.now }
{
    match header {
        Some(names) => Some(names.as_ref()),
        None => None,
    }
}

/// Returns the field of a line at a place, counted from 0; it is empty where the line is shorter.
pub(crate) fn field_at(line: &StringRecord, place: usize) -> &str
    ensures { result.now ≡ get_or (fields_of line.now) place [] }
{
    match line.get(place) {
        Some(field) => field,
        None => "",
    }
}

/// Returns the field of a line at a place, counted from 0, or `None` where the line is shorter.
pub(crate) fn field_there(line: &StringRecord, place: usize) -> Option<&str>
    ensures { option_map (λ field. field.now) result ≡ slice_get (fields_of line.now) place }
{
    line.get(place)
}

impl Drop for Row {
    /// It is written out, so that callers don't prove again how each part is dropped.
    fn drop(self) {
        let Row {
            number: _number,
            table: _table,
            header: _header,
            fields: _fields,
        } = self;
    }
}
