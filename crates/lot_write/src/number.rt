ghost use Rattle.std.specs.Prelude.{◌≡◌, ◌<◌, ◌^◌, IfErr, IfOk, OnErr};
ghost use Rattle.lot_table.specs.Cell.{IsOpeningNumber, IsOrdinal, IsPlace};
ghost use Rattle.lot_table.specs.declared.fault.Fault.TheVariants.{Device};

use lot_table::{Fault, OpeningNumber, Ordinal};

/// Returns a number that counts from 1, as its column holds it. The error is `Device`, exactly where it doesn't fit.
pub fn ordinal(number: u64) -> Result<Ordinal, Fault>
    ensures value { IfOk result (λ ordinal. ordinal ≡ number) }
    ensures none { OnErr result (¬ IsOrdinal number) }
    ensures fault { IfErr result (λ fault. fault ≡ Device) }
{
    let Ok(number) = u32::try_from(number) else {
        return Err(Fault::Device);
    };
    Ordinal::new(number).ok_or(Fault::Device)
}

/// Returns a number that counts from 0, as its column holds it. The error is `Device`, exactly where it doesn't fit.
pub fn place(number: usize) -> Result<u32, Fault>
    ensures value { IfOk result (λ place. place ≡ number) }
    ensures none { OnErr result (¬ IsPlace number) }
    ensures fault { IfErr result (λ fault. fault ≡ Device) }
{
    u32::try_from(number).map_err(|_| Fault::Device)
}

/// Returns the number of a posting in its book, as its column holds it. The error is `Device`, exactly where it doesn't fit.
pub fn opening_number(number: u64) -> Result<OpeningNumber, Fault>
    ensures value { IfOk result (λ opening. opening ≡ number) }
    ensures none { OnErr result (¬ IsOpeningNumber number) }
    ensures fault { IfErr result (λ fault. fault ≡ Device) }
{
    OpeningNumber::new(number).ok_or(Fault::Device)
}
