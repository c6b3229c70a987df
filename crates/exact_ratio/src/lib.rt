//! Decimals as they are written, fractions in lowest terms, and the two containers that carry every text and list.
//!
//! Promises: `Decimal::read` gives the value of a decimal, or the first place at which a text leaves the form of one, or
//! tells that it has too many digits; `Ratio::new` gives the fraction in lowest terms; `floor_div` is the floor of the
//! true quotient. Contracts see `Words` as a list of bytes and `Items<T>` as a list.
//! Stands on nothing.
#![tactic(auto)]

mod decimal;
mod floor;
mod items;
mod lowest;
mod ratio;
mod read;
mod words;

pub use decimal::{Decimal, DecimalFault};
pub use floor::floor_div;
pub use items::Items;
pub use ratio::Ratio;
pub use words::Words;
