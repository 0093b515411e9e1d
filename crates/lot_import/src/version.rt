ghost use Rattle.std.specs.Prelude.{◌≡◌, ◌↔◌, length, map, IsTrue, IfSome, IfNone};
ghost use Rattle.csv.specs.Records.{fields_of};
ghost use Rattle.lot_import.specs.Row.{columns};
ghost use Rattle.lot_import.specs.declared.version.Version.{Version};

use crate::column::field;
use csv::ByteRecord;

/// The versions of a broker file. The header says which one it is.
#[derive(Clone, Copy)]
pub enum Version {
    /// Without the column `lot`.
    First,
    /// With the column `lot`.
    Second,
}

/// The columns of the first version.
const FIRST: [&str; 8] = [
    "ref", "date", "action", "symbol", "units", "price", "currency", "fee",
];

/// The columns of the second version.
const SECOND: [&str; 9] = [
    "ref", "date", "action", "symbol", "units", "price", "currency", "fee", "lot",
];

impl Version {
    /// Returns the version that has this header, or `None` where none has it.
    pub fn of(header: &ByteRecord) -> Option<Version>
        ensures some { IfSome result (λ version. fields_of header.now ≡ columns version) }
        ensures none { IfNone result ((version : Version) → fields_of header.now ≡ columns version
            → ⊥) }
    {
        if has_fields(header, &FIRST) {
            Some(Version::First)
        } else if has_fields(header, &SECOND) {
            Some(Version::Second)
        } else {
            None
        }
    }

    /// Returns how many fields each record of this version has.
    pub(crate) fn columns(self) -> usize
        ensures { result ≡ length (columns self) }
    {
        match self {
            Version::First => FIRST.len(),
            Version::Second => SECOND.len(),
        }
    }
}

/// Returns whether these are the fields of the record.
fn has_fields(written: &ByteRecord, names: &[&str]) -> bool
    ensures { IsTrue result ↔ (fields_of written.now ≡ map (λ name. name.now) names.now) }
{
    if written.len() != names.len() {
        return false;
    }
    for (column, name) in names.iter().enumerate() {
        if field(written, column) != name.as_bytes() {
            return false;
        }
    }
    true
}
