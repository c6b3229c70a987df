//! The place of a composite: its matrix, its row and its column, by their numbers.
ghost use Rattle.std.specs.Prelude.{◌≡◌, ◌<◌, IfOk, codes, true};
ghost use Rattle.std.specs.Str.Parse.{digits_value};
ghost use Rattle.catalog.specs.Valid.{IsValid};
ghost use Rattle.composite_requests.specs.Places.{count_of_matrices, digits_row, number_below, place_in, row_of};
ghost use Rattle.exception_report.specs.declared.code.Code.TheVariants.{InvalidParameterValue, TileOutOfRange};
ghost use Rattle.layer_recipes.specs.OfCatalogue.{IsPlaceIn};
ghost use Rattle.wmts_kvp.specs.Rows.{below, cols_of, is_number, rows_of, some_or};

use crate::refusal::Refusal;
use catalog::Catalogue;
use exception_report::Code;
use layer_recipes::TilePlace;
use wmts_kvp::{below, is_number};

// What a row gives, or else its refusal: `?` less its conversion of the error, which each row's proof would pay for.
macro_rules! row {
    ($row:expr) => {
        match $row {
            Ok(given) => given,
            Err(refusal) => return Err(refusal),
        }
    };
}

/// How many matrices a grid has.
fn count_of_matrices(catalogue: &Catalogue, grid: u32) -> u32
    requires { IsValid catalogue.now }
    ensures { result ≡ count_of_matrices catalogue.now grid }
{
    match catalogue.grids.get(grid as usize) {
        Some(grid) => grid.matrices.len() as u32,
        None => 0,
    }
}

/// How many rows a matrix has.
fn rows_of(catalogue: &Catalogue, grid: u32, z: u32) -> u32
    ensures { result ≡ rows_of catalogue.now grid z }
{
    match catalogue.matrix_in(grid, z) {
        Some(matrix) => matrix.rows,
        None => 0,
    }
}

/// How many columns a matrix has.
fn cols_of(catalogue: &Catalogue, grid: u32, z: u32) -> u32
    ensures { result ≡ cols_of catalogue.now grid z }
{
    match catalogue.matrix_in(grid, z) {
        Some(matrix) => matrix.cols,
        None => 0,
    }
}

/// The number that a text is, where it is below a limit.
fn number_below(limit: u32, text: &[u8]) -> Option<u32>
    ensures { result ≡ number_below limit text.now }
{
    if !is_number(text) {
        return None;
    }
    below(limit, text)
}

/// The number of a matrix of a grid that has so many.
fn matrix_number(count: u32, text: &[u8]) -> Result<u32, Refusal>
    ensures { row_of result ≡ some_or InvalidParameterValue (codes "TileMatrix") (number_below count text.now) }
{
    match number_below(count, text) {
        Some(number) => Ok(number),
        None => Err(Refusal::At(Code::InvalidParameterValue, b"TileMatrix")),
    }
}

/// A text has to be digits.
fn digits(name: &'static [u8], text: &[u8]) -> Result<(), Refusal>
    ensures value { row_of result ≡ digits_row name.now text.now }
    ensures digits { IfOk result (λ _. is_number text.now ≡ true) }
{
    if is_number(text) {
        Ok(())
    } else {
        Err(Refusal::At(Code::InvalidParameterValue, name))
    }
}

/// The number that digits spell, which has to be below the limit.
fn in_range(name: &'static [u8], limit: u32, digits: &[u8]) -> Result<u32, Refusal>
    requires { is_number digits.now ≡ true }
    ensures value { row_of result ≡ some_or TileOutOfRange name.now (below limit (digits_value 10 digits.now)) }
    ensures below { IfOk result (λ number. number < limit) }
{
    match below(limit, digits) {
        Some(number) => Ok(number),
        None => Err(Refusal::At(Code::TileOutOfRange, name)),
    }
}

/// The place of a grid that three texts name: the number of its matrix, its row and its column.
#[tactic(auto, unfolding(crate::specs::Places::place_in), using(crate::proofs::Placed::is_place))]
pub fn place_in(
    catalogue: &Catalogue,
    grid: u32,
    z: &[u8],
    row: &[u8],
    col: &[u8],
) -> Result<TilePlace, Refusal>
    requires { IsValid catalogue.now }
    ensures value { row_of result ≡ place_in catalogue.now grid z.now row.now col.now }
    ensures grid { IfOk result (λ place. place.grid ≡ grid) }
    ensures of { IfOk result (IsPlaceIn catalogue.now) }
{
    let z = row!(matrix_number(count_of_matrices(catalogue, grid), z));
    row!(digits(b"TileRow", row));
    row!(digits(b"TileCol", col));
    let row = row!(in_range(b"TileRow", rows_of(catalogue, grid, z), row));
    let col = row!(in_range(b"TileCol", cols_of(catalogue, grid, z), col));
    Ok(TilePlace { grid, z, row, col })
}
