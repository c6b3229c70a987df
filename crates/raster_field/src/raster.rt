//! Rasters: the pixels of a window.
ghost use Rattle.std.specs.Prelude.{IfOk, ℕ, ◌+◌, ◌*◌, ◌<◌, ◌≡◌, ◌≤◌, ◌++◌, drop, length, take};
ghost use Rattle.raster_field.specs.Rasters.{HasSize, IsWhole, blank, colour_in, part_of_row, place_of, spliced, with_bytes, with_row};

use crate::colour::Colour;
use metatile_plan::Window;
use std::alloc::{AllocError, Global};
use std::marker::Model;

/// The pixels of a window, three bytes each, by rows from the top. Contracts see an `Image`.
#[derive(Drop)]
pub struct Raster {
    width: u32,
    height: u32,
    bytes: Vec<u8>,
}

impl Model for Raster {
    ghost use Rattle.std.specs.Prelude.{◌≡◌, ◌*◌, ◌≤◌, length};
    ghost use Rattle.raster_field.specs.Rasters.{Image};

    ghost Value = { Image };

    ghost view = { λ r. record { width = r.width; height = r.height; bytes = r.bytes.items } };

    ghost invariant = { λ r. (r.width ≤ 4224) × (r.height ≤ 4224) × (length r.bytes.items ≡ r.height * (r.width * 3)) };
}

/// Puts bytes in place of what stands from a place on.
fn splice(bytes: &mut [u8], at: usize, with: &[u8])
    requires { at + length with.now ≤ length bytes.old }
    ensures { bytes.new ≡ spliced at with.now bytes.old }
{
    bytes[at..at + with.len()].copy_from_slice(with);
}

impl Raster {
    /// A black raster of the size of a window. `AllocError` where memory runs out.
    pub fn new(alloc: Global, window: &Window) -> Result<Raster, AllocError>
        requires width { window.now.width ≤ 4224 }
        requires height { window.now.height ≤ 4224 }
        ensures black { IfOk result (λ r. r ≡ blank window.now) }
        ensures size { IfOk result (λ r. HasSize r window.now) }
    {
        let size = window.height as usize * (window.width as usize * 3);
        Ok(Raster {
            width: window.width,
            height: window.height,
            bytes: vec![in alloc; 0; size]?,
        })
    }

    /// How many columns it has.
    pub fn width(&self) -> u32
        ensures width { result ≡ self.now.width }
        ensures most { result ≤ 4224 }
        ensures whole { IsWhole self.now }
    {
        self.width
    }

    /// How many rows it has.
    pub fn height(&self) -> u32
        ensures height { result ≡ self.now.height }
        ensures most { result ≤ 4224 }
        ensures whole { IsWhole self.now }
    {
        self.height
    }

    /// Where the bytes of a pixel begin.
    fn place(&self, x: u32, y: u32) -> usize
        requires x { x ≤ self.now.width }
        requires y { y < self.now.height }
        ensures value { result ≡ place_of self.now x y }
        ensures inside { result + (self.now.width * 3) ≤ length self.now.bytes + x * 3 }
        ensures whole { IsWhole self.now }
    {
        y as usize * (self.width as usize * 3) + x as usize * 3
    }

    /// Puts bytes in place of those from a place on.
    fn put(&mut self, at: usize, with: &[u8])
        requires { at + length with.now ≤ length self.old.bytes }
        ensures { self.new ≡ with_bytes at with.now self.old }
    {
        splice(&mut self.bytes, at, with);
    }

    /// The colour of a pixel.
    pub fn get(&self, x: u32, y: u32) -> Colour
        requires x { x < self.now.width }
        requires y { y < self.now.height }
        ensures { result ≡ colour_in self.now x y }
    {
        let at = self.place(x, y);
        Colour {
            r: self.bytes[at],
            g: self.bytes[at + 1],
            b: self.bytes[at + 2],
        }
    }

    /// Sets the colour of a pixel. All others stay.
    pub fn set(&mut self, x: u32, y: u32, colour: Colour)
        requires x { x < self.old.width }
        requires y { y < self.old.height }
        ensures width { self.new.width ≡ self.old.width }
        ensures height { self.new.height ≡ self.old.height }
        ensures set { colour_in self.new x y ≡ colour }
        ensures rest { (i j : ℕ) → i < self.old.width → j < self.old.height → (i ≡ x → j ≡ y → ⊥) → colour_in self.new i j ≡ colour_in self.old i j }
    {
        let at = self.place(x, y);
        self.put(at, &[colour.r, colour.g, colour.b]);
    }

    /// The bytes of so many pixels of a row, from (x, y) to the right.
    pub fn part(&self, x: u32, y: u32, count: u32) -> &[u8]
        requires x { x + count ≤ self.now.width }
        requires y { y < self.now.height }
        ensures part { result.now ≡ part_of_row self.now x y count }
        ensures len { length result.now ≡ count * 3 }
    {
        let at = self.place(x, y);
        &self.bytes[at..at + count as usize * 3]
    }

    /// Sets the bytes of a whole row. All other rows stay.
    pub fn set_row(&mut self, y: u32, row: &[u8])
        requires y { y < self.old.height }
        requires row { length row.now ≡ self.old.width * 3 }
        ensures { self.new ≡ with_row y row.now self.old }
    {
        let at = self.place(0, y);
        self.put(at, row);
    }
}
