//! The matrices of a grid, each made of a span or a scale denominator. A fault of its numbers becomes one of the text.
ghost use Rattle.std.specs.Prelude.{◌≡◌, ◌<◌, ◌≤◌, ◌^◌, [], Ok, length, map, IfOk};
ghost use Rattle.catalog.specs.FirstFault.{each, matrix_test};
ghost use Rattle.config_text.specs.Grids.{spacing_of, or_fault, made, matrix_of};
ghost use Rattle.config_text.specs.Matrices.{named_matrix_test};
ghost use Rattle.config_text.specs.Reading.{Gives, entries};
ghost use Rattle.matrix_geometry.specs.Limits.{IsWithinLimits};
ghost use Rattle.serde_json.specs.View.{view};

use crate::each::{Entry, each};
use crate::name::required_id;
use crate::shape::{corner_or, required_decimal, required_size};
use crate::spacing::{Ground, NamedMatrix, Spacing};
use crate::span::span_if_any;
use catalog::{CatalogueFault, Field, Named};
use exact_ratio::{Decimal, Words};
use matrix_geometry::{Corner, GridFault, Matrix, Size};
use serde_json::Value;
use std::alloc::{AllocError, Global};

impl Named for NamedMatrix {
    ghost name = { λ m. m.id };

    fn name(&self) -> &[u8] {
        self.id.bytes()
    }
}

/// How far apart the pixels are; the scale is read where there is no span.
#[tactic(auto, unfolding(crate::specs::Grids::spacing_of))]
fn spacing_of(at: u32, object: &Value) -> Result<Spacing, CatalogueFault>
    ensures { Gives (λ s. s) result (spacing_of at (view object.now)) }
{
    let span = span_if_any(object, "span", Field::Span, at)?;
    match span {
        Some(ratio) => Ok(Spacing::BySpan(ratio)),
        None => {
            let scale = required_decimal(object, "scale", Field::Scale, at)?;
            Ok(Spacing::ByScale(scale))
        }
    }
}

/// The matrix that was made, or the fault of the text, where `field` gave the span.
fn or_fault(
    field: Field,
    at: u32,
    making: Result<Matrix, GridFault>,
) -> Result<Matrix, CatalogueFault>
    requires { IfOk making (λ m. IsWithinLimits m) }
    ensures gives { Gives (λ m. m) result (or_fault field at making) }
    ensures limits { IfOk result (λ m. IsWithinLimits m) }
{
    match making {
        Ok(matrix) => Ok(matrix),
        Err(GridFault::CoordinateTooLarge) => Err(CatalogueFault::Limit(Field::MatrixCorner, at)),
        Err(GridFault::ZeroSpan) => Err(CatalogueFault::Bad(field, at)),
        Err(GridFault::NumberTooFine) => Err(CatalogueFault::Limit(field, at)),
        Err(GridFault::TileSize) => Err(CatalogueFault::Limit(Field::Tile, at)),
        Err(GridFault::TooManyTiles) => Err(CatalogueFault::Limit(Field::Size, at)),
        Err(GridFault::ExtentTooLarge) => Err(CatalogueFault::Limit(Field::Size, at)),
    }
}

fn matrix_of_spacing(
    at: u32,
    spacing: &Spacing,
    meters: &Decimal,
    corner: &Corner,
    tile: Size,
    size: Size,
) -> Result<Matrix, CatalogueFault>
    ensures gives { Gives (λ m. m) result (made at spacing.now meters.now corner.now tile size) }
    ensures limits { IfOk result (λ m. IsWithinLimits m) }
{
    match spacing {
        Spacing::BySpan(ratio) => {
            let making = Matrix::from_span(ratio, corner, tile, size);
            or_fault(Field::Span, at, making)
        }
        Spacing::ByScale(scale) => {
            let making = Matrix::from_scale(scale, meters, corner, tile, size);
            or_fault(Field::Scale, at, making)
        }
    }
}

/// A matrix of a grid, after the matrices before it.
#[tactic(auto, unfolding(crate::specs::Grids::matrix_of, crate::specs::Matrices::named_matrix_test), using(crate::proofs::NamedMatrices::matrix_met))]
fn matrix_of(
    alloc: Global,
    ground: &Ground,
    before: &[NamedMatrix],
    object: &Value,
) -> Result<NamedMatrix, CatalogueFault>
    requires { length before.now < 2 ^ 32 }
    ensures gives { Gives (λ m. m) result (matrix_of ground.now.meters ground.now.corner before.now (view object.now)) }
    ensures met { IfOk result (λ m. named_matrix_test before.now m ≡ Ok tt) }
{
    let at = before.len() as u32;
    let id = required_id(alloc, before, object, Field::MatrixId, at)?;
    let corner = corner_or(object, "corner", Field::MatrixCorner, at, ground.corner)?;
    let spacing = spacing_of(at, object)?;
    let tile = required_size(object, "tile", Field::Tile, at)?;
    let size = required_size(object, "size", Field::Size, at)?;
    let matrix = matrix_of_spacing(at, &spacing, &ground.meters, &corner, tile, size)?;
    Ok(NamedMatrix { id, matrix })
}

impl Entry for NamedMatrix {
    type Owner = Ground;

    ghost entry = { λ ground before d. matrix_of ground.meters ground.corner before d };

    ghost met = { λ before m. named_matrix_test before m };

    fn read(
        alloc: Global,
        owner: &Ground,
        before: &[NamedMatrix],
        value: &Value,
    ) -> Result<NamedMatrix, CatalogueFault> {
        matrix_of(alloc, owner, before, value)
    }
}

/// The matrices of a grid.
pub(crate) fn matrices_of(
    alloc: Global,
    ground: Ground,
    values: &[Value],
) -> Result<Vec<NamedMatrix>, CatalogueFault>
    requires { length values.now ≤ 30 }
    ensures gives { Gives (λ v. v.items) result (entries (matrix_of ground.meters ground.corner) [] (map view values.now)) }
    ensures met { IfOk result (λ v. each named_matrix_test [] v.items ≡ Ok tt) }
    ensures count { IfOk result (λ v. length v.items ≡ length values.now) }
{
    each(alloc, &ground, values)
}

/// The names and the matrices apart.
pub(crate) fn parted(
    alloc: Global,
    all: Vec<NamedMatrix>,
) -> Result<(Vec<Words>, Vec<Matrix>), AllocError>
    ensures names { IfOk result (λ p. p.0.items ≡ map (λ m. m.id) all.items) }
    ensures matrices { IfOk result (λ p. p.1.items ≡ map (λ m. m.matrix) all.items) }
{
    let mut names = Vec::new(alloc);
    let mut matrices = Vec::new(alloc);
    for named in all {
        let NamedMatrix { id, matrix } = named;
        names.push(id)?;
        matrices.push(matrix)?;
    }
    Ok((names, matrices))
}
