//! The lines that a drill makes by draws.
ghost use Rattle.std.specs.Prelude.{◌≡◌, ◌<◌, ◌++◌, IfOk, OnOk, IfSome, IsSome, codes, decimal, flat_map, option_map, slice_get, is_some};
ghost use Rattle.catalog.specs.Valid.{IsGrid, IsNamedGrid, IsValid};
ghost use Rattle.tile_drill.specs.Drilling.{shown_aim};
ghost use Rattle.tile_drill.specs.Made.{aimed_at, cols_at, cover_text, dimension_text, drawn, line_of_actor, made_idle, made_line, name_at, rows_at, said, target_of, value_of};
ghost use Rattle.tile_service.specs.Seats.{pending_at};

use crate::draws::Draws;
use catalog::{Catalogue, Dimension, Grid, Layer, Style};
use std::alloc::{AllocError, Global};
use tile_requests::push_number;
use tile_service::{ActorPlace, is_busy};

/// What a drill asks for: the first layer, its first style, and the first of its grids.
#[derive(Clone, Copy)]
pub struct DrillAim<'a> {
    pub layer: &'a Layer,
    pub style: &'a Style,
    pub grid: &'a Grid,
}

fn aim_of(catalogue: &Catalogue) -> Option<DrillAim<'_>>
    requires { IsValid catalogue.now }
    ensures aim { option_map shown_aim result ≡ aimed_at catalogue.now }
    ensures some { IsSome result }
    ensures grid { IfSome result (λ a. IsGrid a.grid.now × IsNamedGrid a.grid.now) }
{
    let layer = catalogue.layers.get(0)?;
    let style = layer.styles.get(0)?;
    let number = layer.grids.get(0)?;
    let grid = catalogue.grids.get(*number as usize)?;
    Some(DrillAim { layer, style, grid })
}

/// The name of a matrix.
fn name_at(grid: &Grid, z: u32) -> &[u8]
    ensures { result.now ≡ name_at grid.now z }
{
    match grid.names.get(z as usize) {
        Some(name) => name.bytes(),
        None => b"",
    }
}

/// How many rows a matrix has.
fn rows_at(grid: &Grid, z: u32) -> u32
    requires { IsGrid grid.now }
    ensures value { result ≡ rows_at grid.now z }
    ensures above { 0 < result }
{
    match grid.matrices.get(z as usize) {
        Some(matrix) => matrix.rows,
        None => 1,
    }
}

/// How many columns a matrix has.
fn cols_at(grid: &Grid, z: u32) -> u32
    requires { IsGrid grid.now }
    ensures value { result ≡ cols_at grid.now z }
    ensures above { 0 < result }
{
    match grid.matrices.get(z as usize) {
        Some(matrix) => matrix.cols,
        None => 1,
    }
}

/// Adds a label and the text after it.
fn add_pair(text: &mut Vec<u8>, label: &[u8], value: &[u8]) -> Result<(), AllocError>
    ensures { OnOk result (text.new.items ≡ text.old.items ++ label.now ++ value.now) }
{
    text.extend_from_slice(label)?;
    text.extend_from_slice(value)
}

/// Adds a label and the number after it.
fn add_count(text: &mut Vec<u8>, label: &[u8], number: u32) -> Result<(), AllocError>
    ensures { OnOk result (text.new.items ≡ text.old.items ++ label.now ++ decimal number) }
{
    text.extend_from_slice(label)?;
    push_number(text, u64::from(number))
}

/// The default of a dimension, or else its first value.
fn value_of(dimension: &Dimension) -> &[u8]
    ensures { result.now ≡ value_of dimension.now }
{
    match dimension
        .values
        .get(dimension.default.unwrap_or(0) as usize)
    {
        Some(value) => value.bytes(),
        None => b"",
    }
}

/// Adds a dimension with its value.
fn add_dimension(text: &mut Vec<u8>, dimension: &Dimension) -> Result<(), AllocError>
    ensures { OnOk result (text.new.items ≡ text.old.items ++ dimension_text dimension.now) }
{
    add_pair(text, b"&", dimension.id.bytes())?;
    add_pair(text, b"=", value_of(dimension))
}

/// Adds the dimensions of a layer.
fn add_dimensions(text: &mut Vec<u8>, dimensions: &[Dimension]) -> Result<(), AllocError>
    ensures { OnOk result (text.new.items ≡ text.old.items ++ flat_map dimension_text dimensions.now) }
{
    'adding: for dimension in dimensions {
        add_dimension(text, dimension)?;
    }
    Ok(())
}

/// Adds the target of a tile, by key-value pairs.
#[tactic(auto, unfolding(crate::specs::Made::target_of))]
fn add_target(
    text: &mut Vec<u8>,
    aim: &DrillAim<'_>,
    z: u32,
    row: u32,
    col: u32,
) -> Result<(), AllocError>
    ensures { OnOk result (text.new.items ≡ text.old.items ++ target_of (shown_aim aim.now) z row col) }
{
    add_pair(
        text,
        b"/wmts?service=WMTS&request=GetTile&version=1.0.0&layer=",
        aim.layer.id.bytes(),
    )?;
    add_pair(text, b"&style=", aim.style.id.bytes())?;
    add_pair(
        text,
        b"&format=image/x-portable-pixmap&TileMatrixSet=",
        aim.grid.id.bytes(),
    )?;
    add_pair(text, b"&TileMatrix=", name_at(aim.grid, z))?;
    add_count(text, b"&TileRow=", row)?;
    add_count(text, b"&TileCol=", col)?;
    add_dimensions(text, aim.layer.dims.as_slice())
}

/// Adds the cover of the layer on this one matrix of the grid.
#[tactic(auto, unfolding(crate::specs::Made::cover_text))]
fn add_cover(text: &mut Vec<u8>, aim: &DrillAim<'_>, z: u32) -> Result<(), AllocError>
    ensures { OnOk result (text.new.items ≡ text.old.items ++ cover_text (shown_aim aim.now) z) }
{
    add_pair(text, b"{\"layer\":\"", aim.layer.id.bytes())?;
    add_pair(text, b"\",\"grid\":\"", aim.grid.id.bytes())?;
    add_count(text, b"\",\"zoomStart\":", z)?;
    add_count(text, b",\"zoomStop\":", z)?;
    text.extend_from_slice(b"}")?;
    Ok(())
}

/// Adds a verb and the target of a tile.
fn add_request(
    text: &mut Vec<u8>,
    verb: &[u8],
    aim: &DrillAim<'_>,
    z: u32,
    row: u32,
    col: u32,
) -> Result<(), AllocError>
    ensures { OnOk result (text.new.items ≡ text.old.items ++ verb.now ++ target_of (shown_aim aim.now) z row col) }
{
    text.extend_from_slice(verb)?;
    add_target(text, aim, z, row, col)
}

/// Adds a truncation of the layer on this one matrix of the grid.
fn add_truncation(text: &mut Vec<u8>, aim: &DrillAim<'_>, z: u32) -> Result<(), AllocError>
    ensures { OnOk result (text.new.items ≡ text.old.items ++ codes "TRUNCATE " ++ cover_text (shown_aim aim.now) z) }
{
    text.extend_from_slice(b"TRUNCATE ")?;
    add_cover(text, aim, z)
}

/// Adds what an idle actor does, by the draw from 16.
#[tactic(auto, unfolding(crate::specs::Made::said))]
fn add_said(
    text: &mut Vec<u8>,
    aim: &DrillAim<'_>,
    kind: u32,
    z: u32,
    row: u32,
    col: u32,
) -> Result<(), AllocError>
    ensures { OnOk result (text.new.items ≡ text.old.items ++ said (shown_aim aim.now) kind z row col) }
{
    match kind {
        0..=9 => add_request(text, b"ASK ", aim, z, row, col),
        10 => add_request(text, b"GET ", aim, z, row, col),
        11 => add_request(text, b"FORCE ", aim, z, row, col),
        12 | 13 => text.extend_from_slice(b"EXPIRE"),
        _ => add_truncation(text, aim, z),
    }
}

/// The actor and a space, with which its line begins.
fn front_of(alloc: Global, actor: u32) -> Result<Vec<u8>, AllocError>
    ensures { IfOk result (λ v. v.items ≡ decimal actor ++ codes " ") }
{
    let mut text = Vec::new(alloc);
    push_number(&mut text, u64::from(actor))?;
    text.extend_from_slice(b" ")?;
    Ok(text)
}

/// The line of an actor that is not busy.
fn idle_line(
    alloc: Global,
    aim: &DrillAim<'_>,
    actor: u32,
    draws: &mut Draws,
) -> Result<Vec<u8>, AllocError>
    requires grid { IsGrid aim.now.grid.now }
    requires named { IsNamedGrid aim.now.grid.now }
    ensures { IfOk result (λ v. record { line = v.items; x = draws.new.x } ≡ made_idle (shown_aim aim.now) actor draws.old.x) }
{
    let kind = draws.draw(16);
    let z = draws.draw(aim.grid.matrices.len() as u32);
    let row = draws.draw(rows_at(aim.grid, z));
    let col = draws.draw(cols_at(aim.grid, z));
    let mut text = front_of(alloc, actor)?;
    add_said(&mut text, aim, kind, z, row, col)?;
    Ok(text)
}

/// The line that a drill makes next: the drawn actor makes its next event where it is busy, and else starts what is drawn.
/// `AllocError` where memory runs out.
pub fn made_line(
    alloc: Global,
    catalogue: &Catalogue,
    seats: &[ActorPlace],
    draws: &mut Draws,
) -> Result<Vec<u8>, AllocError>
    requires { IsValid catalogue.now }
    ensures { IfOk result (λ v. record { line = v.items; x = draws.new.x } ≡ made_line catalogue.now (is_some (pending_at (slice_get seats.now (drawn 4 draws.old.x)))) draws.old.x) }
{
    let actor = draws.draw(4);
    if is_busy(seats, actor) {
        let mut text = front_of(alloc, actor)?;
        text.extend_from_slice(b"STEP")?;
        return Ok(text);
    }
    let Some(aim) = aim_of(catalogue) else {
        unreachable!()
    };
    idle_line(alloc, &aim, actor, draws)
}
