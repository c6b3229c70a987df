//! What a renderer is asked for a window.
ghost use Rattle.std.specs.Prelude.{◌≡◌, ◌+◌, ◌*◌, ◌≤◌, decimal, IfOk};
ghost use Rattle.catalog.specs.Valid.{IsValid};
ghost use Rattle.http_source.specs.Asked.{AreTextsOf, Asks, IsValuesOf, matrix_name, template_for};
ghost use Rattle.matrix_geometry.specs.Limits.{IsWithinLimits};
ghost use Rattle.raster_field.specs.Blocks.{IsMeta};
ghost use Rattle.raster_field.specs.Rasters.{IsWindowOf};

use crate::config::RendererConfig;
use crate::edges::{left_text, top_text};
use crate::values::theme_values;
use catalog::{Catalogue, Grid};
use itoa::Buffer;
use matrix_geometry::Matrix;
use metatile_plan::{MetaKey, Window};
use std::alloc::{AllocError, Global};
use window_request::{DimensionValue, Template, Values};

/// The numbers of a window as texts: its edges in units of the grid, its size in pixels, and the number of the render.
#[derive(Drop)]
pub struct WindowTexts {
    pub min_x: Vec<u8>,
    pub min_y: Vec<u8>,
    pub max_x: Vec<u8>,
    pub max_y: Vec<u8>,
    pub width: Vec<u8>,
    pub height: Vec<u8>,
    pub number: Vec<u8>,
}

fn number_text(alloc: Global, number: u64) -> Result<Vec<u8>, AllocError>
    ensures { IfOk result (λ text. text.items ≡ decimal number) }
{
    let mut buffer = Buffer::new();
    Vec::from_slice(alloc, buffer.format(number).as_bytes())
}

impl WindowTexts {
    fn new(
        alloc: Global,
        matrix: &Matrix,
        number: u64,
        window: &Window,
    ) -> Result<WindowTexts, AllocError>
        requires limits { IsWithinLimits matrix.now }
        requires right { window.now.x + window.now.width ≤ matrix.now.cols * matrix.now.tile_w }
        requires bottom { window.now.y + window.now.height ≤ matrix.now.rows * matrix.now.tile_h }
        ensures { IfOk result (AreTextsOf matrix.now number window.now) }
    {
        Ok(WindowTexts {
            min_x: left_text(alloc, matrix, window.x)?,
            min_y: top_text(alloc, matrix, window.y + u64::from(window.height))?,
            max_x: left_text(alloc, matrix, window.x + u64::from(window.width))?,
            max_y: top_text(alloc, matrix, window.y)?,
            width: number_text(alloc, u64::from(window.width))?,
            height: number_text(alloc, u64::from(window.height))?,
            number: number_text(alloc, number)?,
        })
    }
}

/// The name of a matrix of a grid; empty where the grid hasn't the matrix.
fn matrix_name(grid: &Grid, z: u32) -> &[u8]
    ensures { result.now ≡ matrix_name grid.now z }
{
    match grid.names.get(z as usize) {
        Some(name) => name.bytes(),
        None => &[],
    }
}

/// What the names of a template stand for at a window of a metatile.
fn values_of<'a>(
    catalogue: &'a Catalogue,
    meta: &MetaKey,
    texts: &'a WindowTexts,
    dimensions: &'a [DimensionValue<'a>],
) -> Values<'a>
    requires valid { IsValid catalogue.now }
    requires meta { IsMeta catalogue.now meta.now }
    ensures { IsValuesOf catalogue.now meta.now texts.now dimensions.now result }
{
    let grid = catalogue.grid(meta.grid);
    Values {
        layer: catalogue.layer_of(&meta.theme).id.bytes(),
        style: catalogue.style_of(&meta.theme).id.bytes(),
        grid: grid.id.bytes(),
        matrix: matrix_name(grid, meta.z),
        min_x: texts.min_x.as_slice(),
        min_y: texts.min_y.as_slice(),
        max_x: texts.max_x.as_slice(),
        max_y: texts.max_y.as_slice(),
        width: texts.width.as_slice(),
        height: texts.height.as_slice(),
        number: texts.number.as_slice(),
        dimensions,
    }
}

impl RendererConfig {
    /// The template by which the windows of a layer are asked for.
    pub fn template_for(&self, layer: u32) -> &Template
        ensures { result.now ≡ template_for self.now layer }
    {
        match self.own_place(layer) {
            Some(place) => &self.layers[place].template,
            None => &self.template,
        }
    }

    /// The request for a window of a metatile of the catalogue, under the number of its render, by a `tile_server` of this version.
    /// `AllocError` where memory runs out.
    pub fn request(
        &self,
        alloc: Global,
        catalogue: &Catalogue,
        number: u64,
        meta: &MetaKey,
        window: &Window,
        version: &[u8],
    ) -> Result<Vec<u8>, AllocError>
        requires valid { IsValid catalogue.now }
        requires meta { IsMeta catalogue.now meta.now }
        requires window { IsWindowOf catalogue.now meta.now window.now }
        ensures { IfOk result (λ text. Asks self.now catalogue.now number meta.now window.now version.now text.items) }
    {
        let layer = meta.theme.layer;
        let matrix = catalogue.matrix(meta.grid, meta.z);
        let texts = WindowTexts::new(alloc, matrix, number, window)?;
        let dimensions = catalogue.dimensions_of(layer);
        let dimensions = theme_values(alloc, dimensions, &meta.theme.dims)?;
        let values = values_of(catalogue, meta, &texts, dimensions.as_slice());
        self.template_for(layer).request(alloc, &values, version)
    }
}
