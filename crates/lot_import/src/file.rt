ghost use Rattle.std.specs.Prelude.{◌≡◌, ◌≤◌, ◌+◌, ◌++◌, ◌∷◌, [], length, true, false, Err, IfOk, IfErr, OnOk};
ghost use Rattle.csv.specs.Reading.{has_failed};
ghost use Rattle.csv.specs.Records.{fields_of};
ghost use Rattle.lot_import.specs.File.{AreRows, HasFault, SayRows, file_records, most_rows};
ghost use Rattle.lot_import.specs.Reading.{EndsInRows, GivesRow, HasFileFault, HasHeaderFault, HasRecordFault, IsOpen, SayFile, records_left};
ghost use Rattle.lot_import.specs.Row.{columns};

use crate::fault::RowsFault;
use crate::header::may_have_header;
use crate::row::Row;
use crate::version::Version;
use crate::written::said;
use csv::{ByteRecord, ErrorKind, Reader, ReaderBuilder};
use std::alloc::Global;

/// The most rows that a file may have (`most_rows` of the definitions).
const MOST_ROWS: usize = 100_000;

/// Returns the rows of a broker file, in their order (docs/FORMATS.md, Broker files).
///
/// The error is one of these:
///
/// - `BadHeader` exactly where the header of the file is that of no version;
/// - `BadRow` exactly where one of the first 100,000 rows is faulty. It has the number of the first such row, and the first
///   faulty column of that row;
/// - `TooManyRows` exactly where there are more than 100,000 rows and none of the first 100,000 is faulty;
/// - `Memory`: out of memory.
///
/// Memory may end while a record is read, or where a row is kept. A row is tested before it is kept, so a faulty record that
/// was read is never reported as out of memory. Nor is a file whose first line shows that it has no header: that line is looked
/// at before memory is asked for.
pub fn read_rows(alloc: Global, bytes: &[u8]) -> Result<Vec<Row>, RowsFault>
    ensures rows { IfOk result (λ rows. AreRows bytes.now rows.items) }
    ensures fault { IfErr result (λ fault. HasFault bytes.now fault) }
{
    if !may_have_header(bytes) {
        return Err(RowsFault::BadHeader);
    }
    let mut reader = reader(alloc, bytes);
    rows_of(alloc, &mut reader)
}

/// Returns a reader at the start of a file, which takes records of any length.
fn reader(alloc: Global, bytes: &[u8]) -> Reader<&[u8]>
    ensures open { IsOpen result }
    ensures left { records_left result ≡ file_records bytes.now }
{
    ReaderBuilder::new()
        .has_headers(false)
        .flexible(true)
        .from_reader(alloc, bytes)
}

/// Returns the rows of the file. The reader stands at its start.
fn rows_of(alloc: Global, reader: &mut Reader<&[u8]>) -> Result<Vec<Row>, RowsFault>
    requires { IsOpen reader.old }
    ensures rows { IfOk result (λ rows. SayFile (records_left reader.old) rows.items) }
    ensures fault { IfErr result (HasFileFault (records_left reader.old) reader.new) }
{
    let version = version(alloc, reader)?;
    rows_behind(alloc, version, reader)
}

/// Reads the next record, and returns whether there is one. The only error is out of memory.
fn next(reader: &mut Reader<&[u8]>, written: &mut ByteRecord) -> Result<bool, RowsFault>
    requires { IsOpen reader.old }
    ensures open { IfOk result (λ found. found ≡ true → IsOpen reader.new) }
    ensures some { IfOk result (λ found. found ≡ true
        → records_left reader.old ≡ fields_of written.new ∷ records_left reader.new) }
    ensures none { IfOk result (λ found. found ≡ false → records_left reader.old ≡ []) }
    ensures memory { IfErr result (λ fault. fault ≡ RowsFault.Memory) }
    ensures failed { IfErr result (λ fault. has_failed reader.new ≡ true) }
{
    match reader.read_byte_record(written) {
        Ok(found) => Ok(found),
        Err(error) => match error.into_kind() {
            ErrorKind::OutOfMemory | ErrorKind::Io(_) => Err(RowsFault::Memory),
            // Records may be of any length, and bytes aren't looked at as text.
            _ => unreachable!(),
        },
    }
}

/// Reads the header, and returns the version that has it.
fn version(alloc: Global, reader: &mut Reader<&[u8]>) -> Result<Version, RowsFault>
    requires { IsOpen reader.old }
    ensures open { OnOk result (IsOpen reader.new) }
    ensures some { IfOk result (λ version. records_left reader.old
        ≡ columns version ∷ records_left reader.new) }
    ensures fault { IfErr result (HasHeaderFault (records_left reader.old) reader.new) }
{
    let mut header = ByteRecord::new(alloc);
    if !next(reader, &mut header)? {
        return Err(RowsFault::BadHeader);
    }
    match Version::of(&header) {
        Some(version) => Ok(version),
        None => Err(RowsFault::BadHeader),
    }
}

/// Returns the rows behind the header.
fn rows_behind(
    alloc: Global,
    version: Version,
    reader: &mut Reader<&[u8]>,
) -> Result<Vec<Row>, RowsFault>
    requires { IsOpen reader.old }
    ensures said { IfOk result (λ rows. SayRows version (records_left reader.old) rows.items) }
    ensures few { OnOk result (length (records_left reader.old) ≤ most_rows) }
    ensures fault { IfErr result (λ fault. HasRecordFault version (records_left reader.old) fault) }
    ensures memory { result ≡ Err RowsFault.Memory
        → EndsInRows version (records_left reader.old) reader.new }
{
    let mut written = ByteRecord::new(alloc);
    let mut rows = Vec::new(alloc);
    while next(reader, &mut written)? {
        let row = row_at(alloc, version, rows.len() + 1, &written)?;
        rows.push(row)?;
    }
    Ok(rows)
}

/// Returns the row of that number, counted from 1, that a record says.
fn row_at(
    alloc: Global,
    version: Version,
    number: usize,
    written: &ByteRecord,
) -> Result<Row, RowsFault>
    ensures { GivesRow version number (fields_of written.now) result }
{
    if number > MOST_ROWS {
        return Err(RowsFault::TooManyRows);
    }
    match said(version, written) {
        Ok(said) => said.kept(alloc),
        Err(cause) => Err(RowsFault::BadRow { row: number, cause }),
    }
}
