//! Exception reports of a map service (OGC 06-121r3, section 8): what is told of a refused request.
//!
//! Promises: `report` is the report of a code and a locator, byte for byte, with the locator escaped (`specs/Report.antt`);
//! `status_of` is the status of HTTP that goes with a code.
//! Stands on exact_ratio.
#![tactic(auto)]

mod code;
mod escape;
mod report_text;

pub use code::{Code, Locator};
pub use report_text::{report, status_of};
