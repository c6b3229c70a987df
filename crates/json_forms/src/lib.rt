//! Forms of a JSON text (RFC 8259) that more than one format asks for.
//!
//! Promises: `object_in` gives the value of a text exactly where the text is one JSON object; `values_of` gives the values of
//! a list, and `decimal_text` the decimal number of a text, exactly where the value is one (`specs/`).
//! Stands on exact_ratio and serde_json.
#![tactic(auto)]

mod decimal;
mod list;
mod object;

pub use decimal::{DecimalText, decimal_text};
pub use list::values_of;
pub use object::object_in;
