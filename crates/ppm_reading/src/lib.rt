//! Reading of a binary portable pixmap (PPM, P6, as Netpbm's ppm(5) describes it) of a known width and height, three bytes a pixel.
//!
//! Promises: `pixels_at` tells where the pixels begin exactly where the bytes are such a pixmap with nothing behind it
//! (`specs/Form.antt`).
//! Stands on the standard library only.
#![tactic(auto)]

mod gaps;
mod head;
mod numbers;
mod pixels;

pub use crate::pixels::pixels_at;
