ghost use Rattle.std.specs.String.{string_bytes};
ghost use Rattle.sqlite.specs.Values.{or_null};
ghost use Rattle.std.specs.Prelude.{⊤, length, ◌≡◌, ◌≢◌, ◌<◌, ◌^◌, pos, IfOk, IfErr, IsTrue, IsUtf8, List, ℕ, ℤ, FitsSigned};
ghost use Rattle.std.specs.Int.{w64};
ghost use Rattle.sqlite_value.specs.declared.value.Value.{Value};
ghost use Rattle.sqlite.specs.declared.types.Value.TheVariants.{Int, Text};
ghost use Rattle.sqlite_value.specs.Order.{column};
ghost use Rattle.sqlite_value.specs.Value.{owned};
ghost use Rattle.lot_base.specs.Day.{IsDayNumber};
ghost use Rattle.lot_num.specs.Amount.{IsRate, IsUnits};
ghost use Rattle.lot_cost.specs.Method.{word_of};
ghost use Rattle.lot_base.specs.Name.{IsName, is_account, is_commodity, is_label};
ghost use Rattle.lot_table.specs.Cell.{IsLabelOrNone, IsDayOrNone, IsOpeningNumber, IsOrdinal, IsPlace, IsSum, label_text};

use crate::any_text::AnyText;
use crate::fault::Fault;
use crate::opening_number::OpeningNumber;
use crate::ordinal::Ordinal;
use crate::sum::Sum;
use lot_base::{Account, Commodity, Day, Label};
use lot_cost::Method;
use lot_num::{Rate, Units};
use sqlite::Row;
use sqlite::types::ValueRef;
use std::alloc::Global;

/// A value that one column holds.
pub trait Cell: Sized {
    // What the column holds for the value, and which values a book can have there.
    ghost cell: { Self → Value };

    ghost IsGood: { Self → Type 0 };

    /// Returns what the column holds for the value.
    fn to_cell(&self) -> ValueRef<'_>
        ensures { owned result ≡ cell self.now };

    /// Returns the value that the column holds.
    ///
    /// The error is `Memory`, or `Damaged` exactly where the column holds no value that a book can have.
    fn of_cell(alloc: Global, column: ValueRef<'_>) -> Result<Self, Fault>
        ensures ok { IfOk result (λ x. owned column.entry ≡ Self.cell x) }
        ensures good { IfOk result IsGood }
        ensures damaged { result ≡ Err Fault.Damaged → (x : Self) → IsGood x
            → owned column.entry ≢ Self.cell x }
        ensures no_device { result ≢ Err Fault.Device };
}

/// Returns the whole number that a column holds.
fn number(column: ValueRef<'_>) -> Result<i64, Fault>
    ensures ok { IfOk result (λ n. owned column.entry ≡ Int n) }
    ensures err { IfErr result
        (λ fault. (fault ≡ Fault.Damaged) × ((n : ℤ) → owned column.entry ≢ Int n)) }
{
    match column {
        ValueRef::Int(n) => Ok(n),
        _ => Err(Fault::Damaged),
    }
}

/// Returns the text that a column holds, which is UTF-8.
fn text<'a>(column: ValueRef<'a>) -> Result<&'a str, Fault>
    ensures ok { IfOk result (λ t. owned column.entry ≡ Text t.now) }
    ensures err { IfErr result (λ fault.
        (fault ≡ Fault.Damaged) × ((t : List ℕ) → IsUtf8 t → owned column.entry ≢ Text t)) }
{
    match column {
        ValueRef::Text(bytes) => match std::str::from_utf8(bytes) {
            Ok(text) => Ok(text),
            Err(_) => Err(Fault::Damaged),
        },
        _ => Err(Fault::Damaged),
    }
}

impl Cell for Day {
    ghost cell = { Int };

    ghost IsGood = { IsDayNumber };

    fn to_cell(&self) -> ValueRef<'_> {
        ValueRef::Int(i64::from(self.number()))
    }

    fn of_cell(_alloc: Global, column: ValueRef<'_>) -> Result<Day, Fault> {
        let Ok(number) = i32::try_from(number(column)?) else {
            return Err(Fault::Damaged);
        };
        Day::from_number(number).ok_or(Fault::Damaged)
    }
}

impl Cell for Units {
    ghost cell = { Int };

    ghost IsGood = { IsUnits };

    fn to_cell(&self) -> ValueRef<'_> {
        ValueRef::Int(self.mantissa())
    }

    fn of_cell(_alloc: Global, column: ValueRef<'_>) -> Result<Units, Fault> {
        Units::from_mantissa(number(column)?).ok_or(Fault::Damaged)
    }
}

impl Cell for Rate {
    ghost cell = { λ rate. Int (pos rate) };

    ghost IsGood = { IsRate };

    fn to_cell(&self) -> ValueRef<'_> {
        ValueRef::Int(self.mantissa() as i64)
    }

    fn of_cell(_alloc: Global, column: ValueRef<'_>) -> Result<Rate, Fault> {
        let Ok(mantissa) = u64::try_from(number(column)?) else {
            return Err(Fault::Damaged);
        };
        Rate::from_mantissa(mantissa).ok_or(Fault::Damaged)
    }
}

impl Cell for Account {
    ghost cell = { Text };

    ghost IsGood = { IsName is_account };

    fn to_cell(&self) -> ValueRef<'_> {
        ValueRef::Text(self.as_str().as_bytes())
    }

    fn of_cell(alloc: Global, column: ValueRef<'_>) -> Result<Account, Fault> {
        let account = Account::new(alloc, text(column)?)?;
        Ok(account)
    }
}

impl Cell for Commodity {
    ghost cell = { Text };

    ghost IsGood = { IsName is_commodity };

    fn to_cell(&self) -> ValueRef<'_> {
        ValueRef::Text(self.as_str().as_bytes())
    }

    fn of_cell(alloc: Global, column: ValueRef<'_>) -> Result<Commodity, Fault> {
        let commodity = Commodity::new(alloc, text(column)?)?;
        Ok(commodity)
    }
}

impl Cell for Label {
    ghost cell = { Text };

    ghost IsGood = { IsName is_label };

    fn to_cell(&self) -> ValueRef<'_> {
        ValueRef::Text(self.as_str().as_bytes())
    }

    fn of_cell(alloc: Global, column: ValueRef<'_>) -> Result<Label, Fault> {
        let label = Label::new(alloc, text(column)?)?;
        Ok(label)
    }
}

/// No label is the empty text.
impl Cell for Option<Label> {
    ghost cell = { λ label. Text (label_text label) };

    ghost IsGood = { IsLabelOrNone };

    fn to_cell(&self) -> ValueRef<'_> {
        match self {
            Some(label) => ValueRef::Text(label.as_str().as_bytes()),
            None => ValueRef::Text(&[]),
        }
    }

    fn of_cell(alloc: Global, column: ValueRef<'_>) -> Result<Option<Label>, Fault> {
        let text = text(column)?;
        if text.is_empty() {
            return Ok(None);
        }
        let label = Label::new(alloc, text)?;
        Ok(Some(label))
    }
}

/// No day is `NULL`.
impl Cell for Option<Day> {
    ghost cell = { or_null Int };

    ghost IsGood = { IsDayOrNone };

    fn to_cell(&self) -> ValueRef<'_> {
        match self {
            Some(day) => day.to_cell(),
            None => ValueRef::Null,
        }
    }

    fn of_cell(alloc: Global, column: ValueRef<'_>) -> Result<Option<Day>, Fault> {
        match column {
            ValueRef::Null => Ok(None),
            _ => Ok(Some(Day::of_cell(alloc, column)?)),
        }
    }
}

/// A method is its word.
impl Cell for Method {
    ghost cell = { λ method. Text (word_of method) };

    ghost IsGood = { λ _. ⊤ };

    fn to_cell(&self) -> ValueRef<'_> {
        ValueRef::Text(self.name().as_bytes())
    }

    fn of_cell(_alloc: Global, column: ValueRef<'_>) -> Result<Method, Fault> {
        Method::from_name(text(column)?).ok_or(Fault::Damaged)
    }
}

/// A number that counts from zero.
impl Cell for u32 {
    ghost cell = { λ n. Int (pos n) };

    ghost IsGood = { IsPlace };

    fn to_cell(&self) -> ValueRef<'_> {
        ValueRef::Int(i64::from(*self))
    }

    fn of_cell(_alloc: Global, column: ValueRef<'_>) -> Result<u32, Fault> {
        let Ok(n) = u32::try_from(number(column)?) else {
            return Err(Fault::Damaged);
        };
        Ok(n)
    }
}

/// Any whole number of 64 bits.
impl Cell for i64 {
    ghost cell = { Int };

    ghost IsGood = { λ _. ⊤ };

    fn to_cell(&self) -> ValueRef<'_> {
        ValueRef::Int(*self)
    }

    fn of_cell(_alloc: Global, column: ValueRef<'_>) -> Result<i64, Fault> {
        number(column)
    }
}

impl Cell for AnyText {
    ghost cell = { Text };

    ghost IsGood = { IsUtf8 };

    fn to_cell(&self) -> ValueRef<'_> {
        ValueRef::Text(self.as_str().as_bytes())
    }

    fn of_cell(alloc: Global, column: ValueRef<'_>) -> Result<AnyText, Fault> {
        Ok(AnyText::new(String::from_str(alloc, text(column)?)?))
    }
}

impl Cell for Ordinal {
    ghost cell = { λ n. Int (pos n) };

    ghost IsGood = { IsOrdinal };

    fn to_cell(&self) -> ValueRef<'_> {
        ValueRef::Int(i64::from(self.number()))
    }

    fn of_cell(alloc: Global, column: ValueRef<'_>) -> Result<Ordinal, Fault> {
        Ordinal::new(u32::of_cell(alloc, column)?).ok_or(Fault::Damaged)
    }
}

impl Cell for OpeningNumber {
    ghost cell = { λ n. Int (pos n) };

    ghost IsGood = { IsOpeningNumber };

    fn to_cell(&self) -> ValueRef<'_> {
        ValueRef::Int(self.number() as i64)
    }

    fn of_cell(_alloc: Global, column: ValueRef<'_>) -> Result<OpeningNumber, Fault> {
        let Ok(number) = u64::try_from(number(column)?) else {
            return Err(Fault::Damaged);
        };
        OpeningNumber::new(number).ok_or(Fault::Damaged)
    }
}

impl Cell for Sum {
    ghost cell = { Int };

    ghost IsGood = { IsSum };

    fn to_cell(&self) -> ValueRef<'_> {
        ValueRef::Int(self.units().mantissa())
    }

    fn of_cell(alloc: Global, column: ValueRef<'_>) -> Result<Sum, Fault> {
        Sum::new(Units::of_cell(alloc, column)?).ok_or(Fault::Damaged)
    }
}

/// Returns the value that a column of a row holds; columns count from 0.
pub fn column<T: Cell>(alloc: Global, row: &Row, at: usize) -> Result<T, Fault>
    requires { at < length row.now }
    ensures ok { IfOk result (λ x. column row.now at ≡ T.Cell.cell x) }
    ensures good { IfOk result T.Cell.IsGood }
    ensures damaged { result ≡ Err Fault.Damaged → (x : T) → T.Cell.IsGood x
        → column row.now at ≢ T.Cell.cell x }
    ensures no_device { result ≢ Err Fault.Device }
{
    T::of_cell(alloc, row.get_ref(at)?)
}
