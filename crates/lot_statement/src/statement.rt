//! The units of each commodity that the rows of a file say.
ghost use Rattle.std.specs.Prelude.{◌≡◌, ◌∷◌, [], IfErr, IfOk, List, OnOk, true, false, ℕ};
ghost use Rattle.std.specs.BTreeMap.{insert_entry};
ghost use Rattle.csv.specs.Records.{fields_of};
ghost use Rattle.lot_base.specs.Text.{same_text, text_cmp};
ghost use Rattle.lot_import.specs.File.{file_records};
ghost use Rattle.lot_import.specs.Reading.{IsOpen, records_left};
ghost use Rattle.lot_import.specs.Row.{at_column};
ghost use Rattle.lot_statement.specs.Line.{Line, columns, is_header};
ghost use Rattle.lot_statement.specs.Reading.{HasFileFault, HasRowFault, Keeps, SayAll, Takes, TakesRow, fault_at};
ghost use Rattle.lot_statement.specs.Statement.{HasFault, HasSaid, IsStatement};

use crate::fault::{LineCause, LineFault, StatementFault};
use crate::record::{COLUMNS, line_of};
use csv::{ByteRecord, ErrorKind, Reader, ReaderBuilder};
use lot_base::Commodity;
use lot_import::field;
use lot_num::Units;
use std::alloc::Global;
use std::collections::BTreeMap;

/// The units of each commodity that a statement names.
pub type Statement = BTreeMap<Commodity, Units>;

/// Returns what a file says as a statement: its first record is `commodity,units`, and each other one has a commodity that stands
/// in no record above, and the units of it, which are below zero where they are owed (docs/FORMATS.md, Reconciling).
///
/// The error is one of these:
///
/// - `BadHeader` exactly where the first record is another one, or there is none;
/// - `BadRow` exactly where a row is faulty. It has the number of the first such row, and the first cause;
/// - `Memory`: out of memory.
pub fn read_statement(alloc: Global, bytes: &[u8]) -> Result<Statement, StatementFault>
    ensures said { IfOk result
        (λ said. (lines : List Line) × IsStatement bytes.now lines × HasSaid lines said) }
    ensures fault { IfErr result (λ fault. HasFault bytes.now fault) }
{
    let mut reader = reader(alloc, bytes);
    said_by(alloc, &mut reader)
}

/// Returns a reader at the start of a file, which takes records of any length.
fn reader(alloc: Global, bytes: &[u8]) -> Reader<&[u8]>
    ensures open { IsOpen result }
    ensures left { records_left result ≡ file_records bytes.now }
{
    ReaderBuilder::new()
        .has_headers(false)
        .flexible(true)
        .from_reader(alloc, bytes)
}

/// Returns what the records of a file say, the header first.
fn said_by(alloc: Global, reader: &mut Reader<&[u8]>) -> Result<Statement, StatementFault>
    requires { IsOpen reader.old }
    ensures said { IfOk result (λ said. (written : List (List (List ℕ)))
        × (records_left reader.old ≡ columns ∷ written) × SayAll written said) }
    ensures fault { IfErr result (λ fault. HasFileFault (records_left reader.old) fault) }
{
    pass_header(alloc, reader)?;
    rows_behind(alloc, reader)
}

/// Reads the next record, and returns whether there is one. The only error is out of memory.
fn next(reader: &mut Reader<&[u8]>, written: &mut ByteRecord) -> Result<bool, StatementFault>
    requires { IsOpen reader.old }
    ensures open { IfOk result (λ found. found ≡ true → IsOpen reader.new) }
    ensures some { IfOk result (λ found. found ≡ true
        → records_left reader.old ≡ fields_of written.new ∷ records_left reader.new) }
    ensures none { IfOk result (λ found. found ≡ false → records_left reader.old ≡ []) }
    ensures memory { IfErr result (λ fault. fault ≡ StatementFault.Memory) }
{
    match reader.read_byte_record(written) {
        Ok(found) => Ok(found),
        Err(error) => match error.into_kind() {
            ErrorKind::OutOfMemory | ErrorKind::Io(_) => Err(StatementFault::Memory),
            // Records may be of any length, and bytes aren't looked at as text.
            _ => unreachable!(),
        },
    }
}

/// Reads the header.
fn pass_header(alloc: Global, reader: &mut Reader<&[u8]>) -> Result<(), StatementFault>
    requires { IsOpen reader.old }
    ensures open { OnOk result (IsOpen reader.new) }
    ensures passed { OnOk result (records_left reader.old ≡ columns ∷ records_left reader.new) }
    ensures fault { IfErr result (λ fault. HasFileFault (records_left reader.old) fault) }
{
    let mut header = ByteRecord::new(alloc);
    if !next(reader, &mut header)? {
        return Err(StatementFault::BadHeader);
    }
    if !is_header(&header) {
        return Err(StatementFault::BadHeader);
    }
    Ok(())
}

/// Returns whether a record is the header.
fn is_header(written: &ByteRecord) -> bool
    ensures { result ≡ is_header (fields_of written.now) }
{
    written.len() == COLUMNS && is_at(written, 0, "commodity") && is_at(written, 1, "units")
}

/// Returns whether a field of a record is that text.
fn is_at(written: &ByteRecord, column: usize, text: &str) -> bool
    ensures { result ≡ same_text (at_column (fields_of written.now) column) text.now }
{
    field(written, column) == text.as_bytes()
}

/// Returns what the records behind the header say.
fn rows_behind(alloc: Global, reader: &mut Reader<&[u8]>) -> Result<Statement, StatementFault>
    requires { IsOpen reader.old }
    ensures said { IfOk result (λ said. SayAll (records_left reader.old) said) }
    ensures fault { IfErr result (λ fault. HasRowFault (records_left reader.old) fault) }
{
    let mut written = ByteRecord::new(alloc);
    let mut said = BTreeMap::new(alloc);
    'records: while next(reader, &mut written)? {
        take_row(&mut said, alloc, &written)?;
    }
    Ok(said)
}

/// Keeps what a record says, below those above it. A faulty one is told with its number, counted from 1.
fn take_row(said: &mut Statement, alloc: Global, written: &ByteRecord) -> Result<(), StatementFault>
    ensures { (lines : List Line) → HasSaid lines said.old
        → TakesRow lines (fields_of written.now) said.new result }
{
    let row = said.len() + 1;
    match take(said, alloc, written) {
        Ok(()) => Ok(()),
        Err(fault) => Err(fault_at(row, fault)),
    }
}

/// Returns the fault of a row with that number.
fn fault_at(row: usize, fault: LineFault) -> StatementFault
    ensures { result ≡ fault_at row fault }
{
    match fault {
        LineFault::Bad(cause) => StatementFault::BadRow { row, cause },
        LineFault::Memory => StatementFault::Memory,
    }
}

/// Keeps what a record says, below those above it. A faulty one is told as such, never as out of
/// memory.
fn take(said: &mut Statement, alloc: Global, written: &ByteRecord) -> Result<(), LineFault>
    ensures { (lines : List Line) → HasSaid lines said.old
        → Takes lines (fields_of written.now) said.new result }
{
    match line_of(alloc, written) {
        Ok((commodity, units)) => keep(said, commodity, units),
        Err(fault) => Err(fault),
    }
}

/// Keeps the units of a commodity that isn't kept yet.
fn keep(said: &mut Statement, commodity: Commodity, units: Units) -> Result<(), LineFault>
    ensures { (lines : List Line) → HasSaid lines said.old
        → Keeps lines (commodity, units) said.new result }
{
    if said.contains_key(&commodity) {
        Err(LineFault::Bad(LineCause::Repeated))
    } else {
        set(said, commodity, units)
    }
}

/// Sets the units of a commodity. The only error is out of memory.
fn set(said: &mut Statement, commodity: Commodity, units: Units) -> Result<(), LineFault>
    ensures entries { OnOk result
        (said.new.entries ≡ insert_entry text_cmp said.old.entries commodity units) }
    ensures cause { IfErr result (λ fault. fault ≡ LineFault.Memory) }
{
    said.insert(commodity, units)?;
    Ok(())
}
