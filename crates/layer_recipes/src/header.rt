//! An encoded tile that is black all over (the Netpbm description of PPM).
ghost use Rattle.std.specs.Prelude.{◌≡◌, ◌≤◌, ◌*◌, ◌++◌, IfOk, OnOk, replicate};
ghost use Rattle.matrix_geometry.specs.Limits.{IsWithinLimits};
ghost use Rattle.metatile_plan.specs.Texts.{header};

use itoa::Buffer;
use matrix_geometry::Matrix;
use std::alloc::{AllocError, Global};

fn add(text: &mut Vec<u8>, bytes: &[u8]) -> Result<(), AllocError>
    ensures { OnOk result (text.new.items ≡ text.old.items ++ bytes.now) }
{
    text.extend_from_slice(bytes)
}

fn add_number(text: &mut Vec<u8>, number: u32) -> Result<(), AllocError>
    ensures { OnOk result (text.new.items ≡ text.old.items ++ Rattle.std.specs.Prelude.decimal number) }
{
    let mut buffer = Buffer::new();
    add(text, buffer.format(number).as_bytes())
}

fn add_header(text: &mut Vec<u8>, m: &Matrix) -> Result<(), AllocError>
    ensures { OnOk result (text.new.items ≡ text.old.items ++ header m.now) }
{
    add(text, b"P6\n")?;
    add_number(text, m.tile_w)?;
    add(text, b" ")?;
    add_number(text, m.tile_h)?;
    add(text, b"\n255\n")
}

/// How many pixels a tile has.
pub fn pixel_count(m: &Matrix) -> usize
    requires { IsWithinLimits m.now }
    ensures value { result ≡ m.now.tile_h * m.now.tile_w }
    ensures most { result ≤ 262144 }
{
    m.tile_h as usize * m.tile_w as usize
}

/// The encoded tile of which each pixel is black. `AllocError` where memory runs out.
pub fn black_text(alloc: Global, m: &Matrix) -> Result<Vec<u8>, AllocError>
    requires { IsWithinLimits m.now }
    ensures { IfOk result (λ text. text.items ≡ header m.now ++ replicate (3 * (m.now.tile_h * m.now.tile_w)) 0) }
{
    let black = vec![in alloc; 0; 3 * pixel_count(m)]?;
    let mut text = Vec::with_capacity(alloc, black.len() + 16)?;
    add_header(&mut text, m)?;
    add(&mut text, black.as_slice())?;
    Ok(text)
}
