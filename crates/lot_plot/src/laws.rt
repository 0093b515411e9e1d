//! Laws of plots. Each is the contract of a function that does nothing.
ghost use Rattle.std.specs.Prelude.{ℕ, List};
ghost use Rattle.lot_html.specs.Html.{IsBalanced};
ghost use Rattle.lot_plot.specs.Bars.{IsBarsPlot};
ghost use Rattle.lot_plot.specs.Lines.{IsLinesPlot};
ghost use Rattle.lot_plot.specs.declared.bars.YearBar.{YearBar as YearBarOf};
ghost use Rattle.lot_plot.specs.declared.lines.MonthPoint.{MonthPoint as MonthPointOf};

/// Plots are elements and text and nothing else, whatever their currency is called.
pub fn plots_are_balanced()
    ensures bars { (currency : List ℕ) (bars : List YearBarOf) (text : List ℕ)
        → IsBarsPlot currency bars text → IsBalanced text }
    ensures lines { (currency : List ℕ) (first : ℕ) (points : List MonthPointOf) (text : List ℕ)
        → IsLinesPlot currency first points text → IsBalanced text }
{}
