//! The keys of rows.
ghost use Rattle.std.specs.Prelude.{◌≡◌, ◌+◌, ◌<◌, ◌^◌, ◌≤◌, take, length, map, ℕ, if◌then◌else◌, IfOk, OnOk};
ghost use Rattle.std.specs.String.{string_bytes};
ghost use Rattle.hex.specs.Hex.{encode_lower};
ghost use Rattle.lot_sequence.specs.Count.{counted};
ghost use Rattle.lot_sequence.specs.Key.{Said, is_same, as_key, full_key, keys_of, said, short_digest};

use crate::row::Row;
use lot_base::{Day, Label, NameFault};
use sha2::{Digest, Sha256};
use std::alloc::{AllocError, Global};
use std::collections::BTreeMap;

/// How many bytes of a digest stand for a text: two digits a byte.
const SHORT: usize = 16;

/// What a key is made of.
#[derive(Clone, Copy, PartialEq, Eq, PartialOrd, Ord)]
struct Mark<'a> {
    day: Day,
    text: &'a str,
}

/// Returns the key of each row, of rows in the order of judging: its day, the number of its occurrence and its text, with
/// blanks between them. Of one day and one text the row that is judged first is the first occurrence.
///
/// Where that is no label, its key is the first 32 digits of its SHA-256. The only error is out of memory.
pub fn keys(alloc: Global, rows: &[Row<'_>]) -> Result<Vec<Label>, AllocError>
    ensures { IfOk result (λ keys. keys.items ≡ keys_of (map said rows.now)) }
{
    let mut counts = BTreeMap::new(alloc);
    let mut keys = Vec::with_capacity(alloc, rows.len())?;
    for row in rows {
        let number = count(&mut counts, row)?;
        keys.push(key(alloc, row, number)?)?;
    }
    Ok(keys)
}

/// Counts one more row with that day and text. Returns how many there are.
fn count<'a>(counts: &mut BTreeMap<Mark<'a>, u64>, row: &Row<'a>) -> Result<u64, AllocError>
    requires { counted counts.old (said row.now) + 1 < 2 ^ 64 }
    ensures number { IfOk result (λ number. number ≡ counted counts.old (said row.now) + 1) }
    ensures counted { OnOk result ((other : Said) → counted counts.new other
        ≡ (if is_same (said row.now) other then counted counts.old other + 1
        else counted counts.old other)) }
{
    let number = match counts.get(&mark_of(row)) {
        Some(number) => *number + 1,
        None => 1,
    };
    match counts.insert(mark_of(row), number) {
        Ok(_) => Ok(number),
        Err(_) => Err(AllocError),
    }
}

/// Returns what the key of a row is made of.
fn mark_of<'a>(row: &Row<'a>) -> Mark<'a>
    ensures day { result.day ≡ row.now.day }
    ensures text { result.text.now ≡ row.now.text.now }
{
    Mark {
        day: row.day,
        text: row.text,
    }
}

/// Returns the key of a row that is that occurrence.
fn key(alloc: Global, row: &Row<'_>, number: u64) -> Result<Label, AllocError>
    ensures { IfOk result (λ key. key ≡ as_key (full_key row.now.day number row.now.text.now)) }
{
    let full = full_key(alloc, row.day, number, row.text)?;
    match Label::new(alloc, full.as_str()) {
        Ok(label) => Ok(label),
        Err(NameFault::BadLabel) => short_digest(alloc, full.as_bytes()),
        Err(_) => Err(AllocError),
    }
}

/// Returns a day, a number and a text, with blanks between them.
fn full_key(alloc: Global, day: Day, number: u64, text: &str) -> Result<String, AllocError>
    ensures { IfOk result (λ full. string_bytes full ≡ full_key day number text.now) }
{
    format!(in alloc; "{day} {number} {text}")
}

/// Returns the first 32 digits of the SHA-256 of some bytes.
fn short_digest(alloc: Global, bytes: &[u8]) -> Result<Label, AllocError>
    ensures { IfOk result (λ label. label ≡ short_digest bytes.now) }
{
    let digest = Sha256::digest(bytes);
    first_digits(alloc, &digest)
}

/// Returns the first 32 digits of a digest.
fn first_digits(alloc: Global, digest: &[u8]) -> Result<Label, AllocError>
    requires { 16 ≤ length digest.now }
    ensures { IfOk result (λ label. label ≡ take 32 (encode_lower digest.now)) }
{
    let digits = hex::encode(alloc, &digest[..SHORT])?;
    match Label::new(alloc, digits.as_str()) {
        Ok(label) => Ok(label),
        Err(NameFault::BadLabel) => unreachable!(),
        Err(_) => Err(AllocError),
    }
}
