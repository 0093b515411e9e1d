//! Laws of pages. Each is the contract of a function that does nothing.
ghost use Rattle.std.specs.Prelude.{ℕ, List};
ghost use Rattle.lot_html.specs.Html.{IsBalanced};
ghost use Rattle.lot_page_report.specs.Parts.{PageOf, Parts};
ghost use Rattle.lot_page_report.specs.Sections.{IsTextOf};

/// Behind its first line a page is elements and text and nothing else, whatever its parts say.
pub fn pages_are_balanced()
    ensures { (page : PageOf) (parts : Parts) (text : List ℕ)
        → IsTextOf page parts text → IsBalanced text }
{}
