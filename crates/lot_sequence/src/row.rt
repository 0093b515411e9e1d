use lot_base::Day;

/// What is asked of a row of a broker's file.
#[derive(Clone, Copy)]
pub struct Row<'a> {
    /// Its number in the file, which no other row has.
    pub number: usize,
    /// Its table, counted from 0.
    pub table: usize,
    pub day: Day,
    /// Its time, in seconds since midnight, where it has one.
    pub time: Option<u32>,
    /// The broker's name of the deal, or all that the row says.
    pub text: &'a str,
}
