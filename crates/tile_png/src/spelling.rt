//! The PNG spelling of a tile.
ghost use Rattle.std.specs.Option.{option_map};
ghost use Rattle.std.specs.Prelude.{◌≡◌, IfOk};
ghost use Rattle.tile_png.specs.Reading.{png_of_tile};

use crate::head::pixels_in;
use crate::numbers::{height_in, width_in};
use png_text::{CrcTables, write_png};
use std::alloc::{AllocError, Global};

/// The PNG spelling of the pixmap that a text is, with the same width, height and pixels; `None` where the text is no pixmap from 1 to 16,384
/// pixels wide and high, as the encoded tiles are. `AllocError` where memory runs out.
#[tactic(auto, unfolding(crate::specs::Reading::png_of_tile))]
pub fn png_of_tile(
    alloc: Global,
    tables: &CrcTables,
    text: &[u8],
) -> Result<Option<Vec<u8>>, AllocError>
    ensures { IfOk result (λ made. option_map (λ png. png.items) made ≡ png_of_tile text.now) }
{
    let width = width_in(text);
    let height = height_in(text);
    match pixels_in(width, height, text) {
        None => Ok(None),
        Some(pixels) => Ok(Some(write_png(alloc, tables, width, height, pixels)?)),
    }
}
