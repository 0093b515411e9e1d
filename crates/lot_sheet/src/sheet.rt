//! The rows of the bytes of a file.
ghost use Rattle.std.specs.Prelude.{◌≡◌, ◌++◌, ◌∷◌, ◌+◌, [], List, ℕ, true, false, length, IfOk, IfErr, IfSome, IfNone, OnOk};
ghost use Rattle.std.specs.List.{list_any};
ghost use Rattle.csv.specs.Records.{AllText, fields_of};
ghost use Rattle.lot_profile.specs.declared.table.Table.{Table};
ghost use Rattle.lot_sheet.specs.Column.{names_in};
ghost use Rattle.lot_sheet.specs.Header.{is_header_of};
ghost use Rattle.lot_sheet.specs.Part.{first_bad, header_columns};
ghost use Rattle.lot_sheet.specs.Reading.{GivesRow, IsAt, IsHeaderFault, IsOpen, IsReadFault, lines_left};
ghost use Rattle.lot_sheet.specs.Sheet.{AreRows, HasFault, HaveFault, SayAll, text_lines};

use crate::fault::SheetFault;
use crate::header::{Standing, at_start, behind_header, has_begun, is_header, names_of};
use crate::lines::{ReadFault, decoded, next_line, reader, without_mark};
use crate::names::{Given, name_of};
use crate::part::table_of;
use crate::row::{Names, Row};
use csv::{Reader, StringRecord};
use lot_command::Items;
use lot_profile::{Encoding, FileForm, Table};
use std::alloc::Global;
use std::rc::Rc;

/// The most rows that a file may have (`most_rows` of the definitions).
const MOST_ROWS: usize = 100_000;

/// Returns the rows of a broker's file of that form with these tables, in the order of the file.
///
/// The error is the first of these in the order of the lines:
///
/// - `NotText`: a line isn't UTF-8;
/// - `BadHeader`: a header lacks a column that a table uses, or has its name twice;
/// - `BadRow`: one of the first 100,000 lines that have to be rows is a row of no table or of two, or is too long;
/// - `TooManyRows`: there is one more;
/// - `NoHeader`: the lines are at their end, and no table has begun.
///
/// Or it is `Memory`: out of memory.
pub fn read_sheet(
    alloc: Global,
    form: &FileForm,
    tables: &Items<Table>,
    bytes: &[u8],
) -> Result<Vec<Row>, SheetFault>
    ensures rows { IfOk result (λ rows. AreRows form.now tables.now bytes.now rows.items) }
    ensures fault { IfErr result (λ fault. HasFault form.now tables.now bytes.now fault) }
{
    match form.encoding {
        Encoding::Utf8 => read_text(alloc, form, tables.as_slice(), bytes),
        Encoding::Latin1 => {
            let text = decoded(alloc, without_mark(bytes))?;
            read_text(alloc, form, tables.as_slice(), text.as_bytes())
        }
    }
}

/// Returns the rows of a text.
fn read_text(
    alloc: Global,
    form: &FileForm,
    tables: &[Table],
    text: &[u8],
) -> Result<Vec<Row>, SheetFault>
    ensures rows { IfOk result
        (λ rows. SayAll form.now tables.now (text_lines form.now text.now) rows.items) }
    ensures fault { IfErr result
        (λ fault. HaveFault form.now tables.now (text_lines form.now text.now) fault) }
{
    let mut reader = reader(alloc, form.delimiter, text);
    read_lines(alloc, form, tables, &mut reader)
}

/// Returns the rows of the lines that a reader has left.
fn read_lines(
    alloc: Global,
    form: &FileForm,
    tables: &[Table],
    reader: &mut Reader<&[u8]>,
) -> Result<Vec<Row>, SheetFault>
    requires { IsOpen reader.old }
    ensures rows { IfOk result
        (λ rows. SayAll form.now tables.now (lines_left reader.old) rows.items) }
    ensures fault { IfErr result
        (λ fault. HaveFault form.now tables.now (lines_left reader.old) fault) }
{
    let mut sheet = Sheet {
        tables: at_start(alloc, tables)?,
        number: 1,
        rows: Vec::new(alloc),
    };
    while let Some(line) = line_at(alloc, reader, sheet.number)? {
        sheet.add(alloc, form, line)?;
    }
    if has_begun(&sheet.tables) {
        Ok(sheet.rows)
    } else {
        Err(SheetFault::NoHeader)
    }
}

/// Reads the next line, which has that number, or returns `None` where there is none.
fn line_at(
    alloc: Global,
    reader: &mut Reader<&[u8]>,
    number: usize,
) -> Result<Option<StringRecord>, SheetFault>
    requires { IsOpen reader.old }
    ensures open { IfOk result (λ found. IfSome found (λ line. IsOpen reader.new)) }
    ensures some { IfOk result
        (λ found. IfSome found
        (λ line. lines_left reader.old ≡ fields_of line ∷ lines_left reader.new)) }
    ensures text { IfOk result (λ found. IfSome found (λ line. AllText (fields_of line))) }
    ensures none { IfOk result (λ found. IfNone found (lines_left reader.old ≡ [])) }
    ensures fault { IfErr result (λ fault. IsReadFault number (lines_left reader.old) fault) }
{
    match next_line(alloc, reader) {
        Ok(found) => Ok(found),
        Err(ReadFault::NotText) => Err(SheetFault::NotText { line: number }),
        Err(ReadFault::Memory) => Err(SheetFault::Memory),
    }
}

/// The rows of the lines that were read, and how the tables stand behind them.
#[derive(Drop)]
pub(crate) struct Sheet<'a> {
    pub(crate) tables: Vec<Standing<'a>>,
    /// The number of the next line, counted from 1.
    pub(crate) number: usize,
    pub(crate) rows: Vec<Row>,
}

impl Sheet<'_> {
    /// Adds the next line.
    fn add(&mut self, alloc: Global, form: &FileForm, line: StringRecord) -> Result<(), SheetFault>
        ensures ok { OnOk result
            ((tables : List Table) (above : List (List (List ℕ))) → AllText (fields_of line)
            → IsAt form.now tables above self.old
            → IsAt form.now tables (above ++ fields_of line ∷ []) self.new) }
        ensures fault { IfErr result
            (λ fault. (tables : List Table) (lines above below : List (List (List ℕ)))
            → AllText (fields_of line)
            → IsAt form.now tables above self.old → lines ≡ above ++ fields_of line ∷ below
            → HaveFault form.now tables lines fault) }
    {
        if is_header(form.delimiter, self.number, &line, &self.tables) {
            self.add_header(alloc, form, &line)
        } else {
            self.add_row(form, line)
        }
    }

    /// Adds the next line, which is a header.
    fn add_header(
        &mut self,
        alloc: Global,
        form: &FileForm,
        line: &StringRecord,
    ) -> Result<(), SheetFault>
        requires { list_any
            (is_header_of form.now.delimiter self.old.number
            (fields_of line.now)) self.old.tables.items ≡ true }
        ensures ok { OnOk result
            ((tables : List Table) (above : List (List (List ℕ))) → AllText (fields_of line.now)
            → IsAt form.now tables above self.old
            → IsAt form.now tables (above ++ fields_of line.now ∷ []) self.new) }
        ensures fault { IfErr result
            (λ fault. (tables : List Table) (lines above below : List (List (List ℕ)))
            → AllText (fields_of line.now)
            → IsAt form.now tables above self.old → lines ≡ above ++ fields_of line.now ∷ below
            → HaveFault form.now tables lines fault) }
    {
        let Some(next) = self.number.checked_add(1) else {
            // No memory has so many lines.
            return Err(SheetFault::Memory);
        };
        let names = shared_names(alloc, line)?;
        check_columns(alloc, form, self.number, line, &names, &self.tables)?;
        self.tables = behind_header(
            alloc,
            form.delimiter,
            self.number,
            line,
            &names,
            &self.tables,
        )?;
        self.number = next;
        Ok(())
    }

    /// Adds the next line, which is no header.
    fn add_row(&mut self, form: &FileForm, line: StringRecord) -> Result<(), SheetFault>
        requires { list_any
            (is_header_of form.now.delimiter self.old.number (fields_of line)) self.old.tables.items
            ≡ false }
        ensures ok { OnOk result
            ((tables : List Table) (above : List (List (List ℕ))) → AllText (fields_of line)
            → IsAt form.now tables above self.old
            → IsAt form.now tables (above ++ fields_of line ∷ []) self.new) }
        ensures fault { IfErr result
            (λ fault. (tables : List Table) (lines above below : List (List (List ℕ)))
            → AllText (fields_of line)
            → IsAt form.now tables above self.old → lines ≡ above ++ fields_of line ∷ below
            → HaveFault form.now tables lines fault) }
    {
        let Some(next) = self.number.checked_add(1) else {
            // No memory has so many lines.
            return Err(SheetFault::Memory);
        };
        let found = row_of(form, self.rows.len() + 1, &self.tables, line)?;
        self.number = next;
        if let Some(row) = found {
            self.rows.push(row)?;
        }
        Ok(())
    }
}

/// Returns the names of a header, which rows share. The only error is out of memory.
fn shared_names(alloc: Global, line: &StringRecord) -> Result<Names, SheetFault>
    ensures ok { IfOk result (λ names. names.value ≡ names_in (fields_of line.now)) }
    ensures memory { IfErr result (λ fault. fault ≡ SheetFault.Memory) }
{
    let names = names_of(alloc, line)?;
    Ok(Rc::new(alloc, names)?)
}

/// Tests the columns that the tables use of which the line of that number is a header.
fn check_columns(
    alloc: Global,
    form: &FileForm,
    number: usize,
    line: &StringRecord,
    names: &Names,
    tables: &[Standing],
) -> Result<(), SheetFault>
    ensures ok { OnOk result
        (None ≡ first_bad form.now.optional names.now.value
        (header_columns form.now.delimiter number (fields_of line.now) tables.now)) }
    ensures fault { IfErr result (λ fault. IsHeaderFault number
        (first_bad form.now.optional names.now.value
        (header_columns form.now.delimiter number (fields_of line.now) tables.now)) fault) }
{
    let given = Given {
        header: names.as_ref(),
        optional: &form.optional,
    };
    match given.in_tables(form.delimiter, number, line, tables) {
        None => Ok(()),
        Some(bad) => Err(SheetFault::BadHeader {
            line: number,
            name: name_of(alloc, bad.column)?,
            cause: bad.cause,
        }),
    }
}

/// Returns the row of that number that a line is, which is no header, or `None` where no table has begun.
fn row_of(
    form: &FileForm,
    number: usize,
    tables: &[Standing],
    line: StringRecord,
) -> Result<Option<Row>, SheetFault>
    ensures { GivesRow form.now tables.now number (fields_of line) result }
{
    match table_of(form, tables, &line) {
        Ok(None) => Ok(None),
        Ok(Some((place, table))) => {
            if number > MOST_ROWS {
                return Err(SheetFault::TooManyRows);
            }
            Ok(Some(Row::new(number, place, table.header()?, line)))
        }
        Err(cause) => {
            if number > MOST_ROWS {
                return Err(SheetFault::TooManyRows);
            }
            Err(SheetFault::BadRow { row: number, cause })
        }
    }
}
