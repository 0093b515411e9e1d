//! All causes for which a record is faulty.
ghost use Rattle.std.specs.Prelude.{◌≡◌, ◌↔◌, ◌∷◌, List, IfOk, IsTrue};
ghost use Rattle.csv.specs.Records.{fields_of};
ghost use Rattle.lot_import.specs.Row.{AreFailing, HasCauses, IsFaulty, IsMeant, PassesAlone};
ghost use Rattle.lot_import.specs.declared.fault.Cause.{Cause};

use crate::column::{action, commodity, day, fee, field, label, rate, units};
use crate::fault::Cause;
use crate::row::Action;
use crate::version::Version;
use crate::written::lot_in;
use csv::ByteRecord;
use std::alloc::{AllocError, Global};

/// The causes, in the order in which a record is looked at (`causes` of the definitions).
const CAUSES: [Cause; 10] = [
    Cause::Length,
    Cause::Ref,
    Cause::Date,
    Cause::Action,
    Cause::Symbol,
    Cause::Units,
    Cause::Price,
    Cause::Currency,
    Cause::Fee,
    Cause::Lot,
];

/// Returns all causes for which a record of a file of this version is faulty, in the order in which `read_rows` looks for them:
/// none where it says a row. Of a record with another number of fields than the header that is the only one. Beside an action
/// that is faulty a lot is judged as that of a sale. The only error is out of memory.
pub fn causes_of(
    alloc: Global,
    version: Version,
    written: &ByteRecord,
) -> Result<Vec<Cause>, AllocError>
    ensures all { IfOk result (λ causes. HasCauses version (fields_of written.now) causes.items) }
    ensures first { IfOk result (λ causes. (cause : Cause)
        → IsFaulty version (fields_of written.now) cause
        → (others : List Cause) × (causes.items ≡ cause ∷ others)) }
{
    if passes(version, written, Cause::Length) {
        failing(alloc, version, written, &CAUSES)
    } else {
        let mut causes = Vec::new(alloc);
        causes.push(Cause::Length)?;
        Ok(causes)
    }
}

/// Returns those of the causes for which a record is faulty.
fn failing(
    alloc: Global,
    version: Version,
    written: &ByteRecord,
    causes: &[Cause],
) -> Result<Vec<Cause>, AllocError>
    ensures { IfOk result (λ failing. AreFailing
        (PassesAlone version (fields_of written.now)) causes.now failing.items) }
{
    let mut failing = Vec::new(alloc);
    for cause in causes {
        if !passes(version, written, *cause) {
            failing.push(*cause)?;
        }
    }
    Ok(failing)
}

/// Returns whether a record isn't faulty for that cause, whatever stands in its other columns.
fn passes(version: Version, written: &ByteRecord, cause: Cause) -> bool
    ensures { IsTrue result ↔ PassesAlone version (fields_of written.now) cause }
{
    match cause {
        Cause::Length => written.len() == version.columns(),
        Cause::Ref => label(field(written, 0), cause).is_ok(),
        Cause::Date => day(field(written, 1), cause).is_ok(),
        Cause::Action => action(field(written, 2), cause).is_ok(),
        Cause::Symbol => commodity(field(written, 3), cause).is_ok(),
        Cause::Units => units(field(written, 4), cause).is_ok(),
        Cause::Price => rate(field(written, 5), cause).is_ok(),
        Cause::Currency => commodity(field(written, 6), cause).is_ok(),
        Cause::Fee => fee(field(written, 7), cause).is_ok(),
        Cause::Lot => lot_in(version, meant(field(written, 2)), written).is_ok(),
    }
}

/// Returns the action that a field says: a sale where it says none.
fn meant(field: &[u8]) -> Action
    ensures { IsMeant field.now result }
{
    match action(field, Cause::Action) {
        Ok(action) => action,
        Err(_) => Action::Sell,
    }
}
