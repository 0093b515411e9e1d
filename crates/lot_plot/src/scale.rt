ghost use Rattle.std.specs.Prelude.{◌≡◌};
ghost use Rattle.lot_plot.specs.Plot.{from_top, greater, lesser, scale_at, scale_with, span_of, step_of, step_over};

use lot_num::Wide;

/// How many parts a plot has in each direction.
pub(crate) const THOUSAND: u64 = 1_000;

/// Returns the least step of which a span has at most a thousand.
pub fn step_of(span: i128) -> i128
    ensures { result ≡ step_of span }
{
    if span <= 0 {
        return 1;
    }
    step_over(span.unsigned_abs()) as i128
}

/// Returns the least step of which a span has at most a thousand.
fn step_over(span: u128) -> u128
    ensures { result ≡ step_over span }
{
    span.div_ceil(1_000).max(1)
}

/// Returns the lesser of two values.
pub(crate) fn lesser(a: Wide, b: Wide) -> Wide
    ensures { result ≡ lesser a b }
{
    if b.mantissa() < a.mantissa() { b } else { a }
}

/// Returns the greater of two values.
pub(crate) fn greater(a: Wide, b: Wide) -> Wide
    ensures { result ≡ greater a b }
{
    if a.mantissa() < b.mantissa() { b } else { a }
}

/// The values between which a plot draws.
#[derive(Clone, Copy)]
pub(crate) struct Scale {
    pub low: Wide,
    pub high: Wide,
}

impl Scale {
    /// Returns the scale of a value alone.
    pub fn at(value: Wide) -> Scale
        ensures { result ≡ scale_at value }
    {
        Scale {
            low: value,
            high: value,
        }
    }

    /// Returns the scale that has room for one more value.
    pub fn with(self, value: Wide) -> Scale
        ensures { result ≡ scale_with self value }
    {
        Scale {
            low: lesser(self.low, value),
            high: greater(self.high, value),
        }
    }

    /// Returns the distance between the least value and the greatest.
    pub fn span(&self) -> u128
        ensures { result ≡ span_of self.now }
    {
        self.high.mantissa().abs_diff(self.low.mantissa())
    }

    /// Returns how far below the upper edge a value is drawn, in thousandths of the height: its
    /// distance from the lower edge is rounded down.
    pub fn from_top(&self, value: Wide) -> u64
        ensures { result ≡ from_top self.now value }
    {
        let distance = value.mantissa().abs_diff(self.low.mantissa());
        let steps = (distance / step_over(self.span())).min(1_000) as u64;
        THOUSAND - steps
    }
}
