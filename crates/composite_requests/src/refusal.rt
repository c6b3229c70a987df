//! Why the place of a composite is refused.
use exception_report::Code;

/// Why a place is refused.
#[derive(Clone, Copy)]
pub enum Refusal {
    /// The code, and the name of the parameter at fault.
    At(Code, &'static [u8]),
}
