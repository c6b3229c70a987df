//! The line of a metatile that is kept.
ghost use Rattle.std.specs.Prelude.{◌≡◌, ◌++◌, IfOk, OnOk};
ghost use Rattle.catalog.specs.Valid.{IsValid};
ghost use Rattle.kept_lines.specs.Lines.{figures, line_of, names, place_columns};
ghost use Rattle.raster_field.specs.Blocks.{IsMeta};

use crate::names::{grid_id, layer_id, matrix_name, style_id};
use crate::numbers::{add_number, add_word};
use crate::values::add_values_column;
use cabinet::Kept;
use catalog::Catalogue;
use metatile_plan::MetaKey;
use raster_field::first_tile;
use std::alloc::{AllocError, Global};

/// Adds the names of a metatile behind that of its layer.
#[tactic(auto, unfolding(crate::specs::Lines::names))]
fn add_names(text: &mut Vec<u8>, catalogue: &Catalogue, meta: &MetaKey) -> Result<(), AllocError>
    ensures { OnOk result (text.new.items ≡ text.old.items ++ names catalogue.now meta.now) }
{
    add_word(text, style_id(catalogue, meta))?;
    add_values_column(
        text,
        catalogue.dimensions_of(meta.theme.layer),
        &meta.theme.dims,
    )?;
    add_word(text, grid_id(catalogue, meta))?;
    add_word(text, matrix_name(catalogue, meta))
}

/// Adds the row and the column of the first tile of a metatile.
fn add_place(text: &mut Vec<u8>, catalogue: &Catalogue, meta: &MetaKey) -> Result<(), AllocError>
    requires valid { IsValid catalogue.now }
    requires meta { IsMeta catalogue.now meta.now }
    ensures { OnOk result (text.new.items ≡ text.old.items ++ place_columns catalogue.now meta.now) }
{
    let tile = first_tile(catalogue, meta);
    add_number(text, u64::from(tile.row))?;
    add_number(text, u64::from(tile.col))
}

/// Adds the number, the moment, the uses and the bytes of what is kept, and the end of the line.
fn add_figures(text: &mut Vec<u8>, kept: &Kept) -> Result<(), AllocError>
    ensures { OnOk result (text.new.items ≡ text.old.items ++ figures kept.now) }
{
    add_number(text, kept.number)?;
    add_number(text, kept.moment)?;
    add_number(text, kept.uses)?;
    add_number(text, u64::from(kept.length))?;
    text.extend_from_slice(b"\n")
}

/// The line of a metatile of the catalogue that is kept. `AllocError` where memory runs out.
#[tactic(auto, unfolding(crate::specs::Lines::line_of))]
pub fn line_of(alloc: Global, catalogue: &Catalogue, kept: &Kept) -> Result<Vec<u8>, AllocError>
    requires valid { IsValid catalogue.now }
    requires meta { IsMeta catalogue.now kept.now.meta }
    ensures { IfOk result (λ line. line.items ≡ line_of catalogue.now kept.now) }
{
    let mut text = Vec::from_slice(alloc, layer_id(catalogue, &kept.meta))?;
    add_names(&mut text, catalogue, &kept.meta)?;
    add_place(&mut text, catalogue, &kept.meta)?;
    add_figures(&mut text, kept)?;
    Ok(text)
}
