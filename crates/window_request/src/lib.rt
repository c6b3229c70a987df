//! The request for the picture of a window: a template of a renderer's URL, filled with what the window is, and the decimal texts of
//! its edges.
//!
//! Promises: `Template::read` gives the template that a text is, piece by piece, or the place where it goes wrong
//! (`specs/Templates.antt`); `Template::target` and `Template::request` are that text with each name's value escaped in its place, and
//! the whole request (`specs/Requests.antt`); `decimal_text` writes a fraction rounded to 12 places (`specs/Decimals.antt`).
//! Stands on exact_ratio, percent_encoding and itoa.
#![tactic(auto)]

mod address;
mod decimal;
mod fault;
mod field;
mod piece;
mod request;
mod rounding;
mod template;
mod values;

pub use crate::decimal::decimal_text;
pub use crate::fault::TemplateFault;
pub use crate::field::TemplateField;
pub use crate::piece::Piece;
pub use crate::template::Template;
pub use crate::values::{DimensionValue, Values};
