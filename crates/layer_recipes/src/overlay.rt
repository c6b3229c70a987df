//! An encoded tile on which parts are laid, one at a time.
ghost use Rattle.std.specs.Prelude.{◌≡◌, ◌∷◌, ◌++◌, true, ℕ, IfOk, List, [], replicate};
ghost use Rattle.layer_recipes.specs.Composite.{laid_over};
ghost use Rattle.layer_recipes.specs.Overlaid.{Lays};
ghost use Rattle.matrix_geometry.specs.Limits.{IsWithinLimits};
ghost use Rattle.raster_field.specs.declared.colour.Colour.{Colour};

use crate::header::{black_text, pixel_count};
use crate::pixels::lay_pixels;
use matrix_geometry::Matrix;
use raster_field::Colour;
use std::alloc::{AllocError, Global};
use std::marker::Model;

/// The encoded tile of the parts that were laid on it so far, from the top down. It takes one encoded tile and a byte a pixel, whatever the
/// number of parts. Contracts see its matrix, its text, and where each part so far shows its key.
#[derive(Drop)]
pub struct Overlay {
    matrix: Matrix,
    /// Where the pixels begin in the text.
    start: usize,
    text: Vec<u8>,
    clear: Vec<bool>,
}

impl Model for Overlay {
    ghost use Rattle.layer_recipes.specs.Overlaid.{IsSheet, OverlaySheet};

    ghost Value = { OverlaySheet };

    ghost view = { λ o. record { matrix = o.matrix; text = o.text.items; clear = o.clear.items } };

    ghost invariant = { λ o. IsSheet o.matrix o.start o.text.items o.clear.items };
}

fn all_clear(alloc: Global, count: usize) -> Result<Vec<bool>, AllocError>
    ensures { IfOk result (λ clear. clear.items ≡ replicate count true) }
{
    Ok(vec![in alloc; true; count]?)
}

impl Overlay {
    /// One without a part. `AllocError` where memory runs out.
    pub fn new(alloc: Global, matrix: &Matrix) -> Result<Overlay, AllocError>
        requires { IsWithinLimits matrix.now }
        ensures matrix { IfOk result (λ overlay. overlay.matrix ≡ matrix.now) }
        ensures none { IfOk result (λ overlay. Lays overlay []) }
    {
        let count = pixel_count(matrix);
        let text = black_text(alloc, matrix)?;
        let clear = all_clear(alloc, count)?;
        Ok(Overlay {
            matrix: *matrix,
            start: text.len() - 3 * count,
            text,
            clear,
        })
    }

    /// Lays a part under those so far: an encoded tile with the colour through which the parts below are seen.
    pub fn lay(&mut self, key: Colour, text: &[u8])
        ensures matrix { self.new.matrix ≡ self.old.matrix }
        ensures laid { (parts : List (Colour × List ℕ)) → Lays self.old parts → Lays self.new (parts ++ (key, text.now) ∷ []) }
    {
        lay_pixels(text, self.start, key, &mut self.text, &mut self.clear);
    }

    /// The encoded tile of the parts.
    pub fn into_text(self) -> Vec<u8>
        ensures { (parts : List (Colour × List ℕ)) → Lays self parts → result.items ≡ laid_over self.matrix parts }
    {
        self.text
    }
}
