//! What ends the reading of a query before its last parameter.
use exception_report::Code;

/// What ends the reading of a query before its last row.
#[derive(Clone, Copy)]
pub enum ReadingEnd<'a> {
    /// The document of the service's capabilities is asked for.
    Document,
    /// The code of a refusal and its locator.
    Refusal(Code, &'a [u8]),
}
