//! The exception codes, and the locator of an exception.
use exact_ratio::Words;

/// Why a request was refused (OGC 07-057r7, section 7.2.3, and OGC 06-121r3, section 8.3).
#[derive(Clone, Copy, PartialEq, Eq)]
pub enum Code {
    /// The operation isn't one of the service's.
    OperationNotSupported,
    /// A parameter is missing that has no default.
    MissingParameterValue,
    /// The value of a parameter isn't one that it may have.
    InvalidParameterValue,
    /// A row or a column is outside its matrix.
    TileOutOfRange,
    /// No other code fits, as where a picture can't be had.
    NoApplicableCode,
}

/// Where in the request the reason lies.
#[derive(Drop)]
pub enum Locator {
    /// No part of the request is named.
    Nowhere,
    /// The name of a parameter, or the operation that isn't supported, in UTF-8.
    At(Words),
}
