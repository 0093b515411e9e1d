/// Why a line has no form.
#[derive(Clone, Copy)]
pub enum FormFault {
    /// A line that isn't indented doesn't begin with a date, or what follows is no directive.
    UnknownDirective,
    /// The line has none of the forms.
    Syntax,
}
