//! The records of a journal as bytes.
//!
//! Promises: `encode` writes the one spelling of a record of version 2, and `decode` reads a body exactly where it is the
//! spelling of a record whose numbers fit their fields; `decode_old` does so for version 1, which knows neither moments nor
//! uses. No two records share a spelling (`laws_of_spellings`).
//! Stands on truncation_list, metatile_plan and matrix_geometry for the types of the fields, and on byteorder for numbers.
#![tactic(auto)]

mod draft;
mod entries;
mod laws;
mod reading;
mod writing;

pub use entries::Record;
pub use laws::laws_of_spellings;
pub use reading::{decode, decode_old};
pub use writing::encode;
