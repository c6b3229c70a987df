//! The parameters of a query, each read by a function of its own.
ghost use Rattle.std.specs.Prelude.{◌≡◌, ◌<◌, ℕ, true, Contains, IfOk, IfSome, IsSomeAnd, length, slice_get};
ghost use Rattle.std.specs.Str.Parse.{digits_value};
ghost use Rattle.catalog.specs.LookUp.{layer_named, matrix_named, served_grid_named};
ghost use Rattle.catalog.specs.Valid.{IsValid};
ghost use Rattle.exception_report.specs.declared.code.Code.TheVariants.{MissingParameterValue, InvalidParameterValue, TileOutOfRange};
ghost use Rattle.wmts_kvp.specs.Ends.{row_of, text_row, number_row};
ghost use Rattle.wmts_kvp.specs.Pairs.{value_of};
ghost use Rattle.wmts_kvp.specs.Rows.{some_or, parameter, equal, requested, style_or_first, number, is_number, rows_of, cols_of, below};

use crate::end::ReadingEnd;
use crate::number::{below, is_number};
use crate::pairs::value_of;
use catalog::Catalogue;
use exact_ratio::Words;
use exception_report::Code;

/// The value of a parameter that must be there.
fn value_given<'a>(pairs: &'a [(Words, Words)], name: &'a [u8]) -> Result<&'a [u8], ReadingEnd<'a>>
    ensures { text_row result ≡ some_or MissingParameterValue name.now (value_of pairs.now name.now) }
{
    match value_of(pairs, name) {
        Some(value) => Ok(value),
        None => Err(ReadingEnd::Refusal(Code::MissingParameterValue, name)),
    }
}

/// What the value of a parameter names, where it names something.
fn named<'a>(name: &'a [u8], found: Option<u32>) -> Result<u32, ReadingEnd<'a>>
    ensures value { row_of result ≡ some_or InvalidParameterValue name.now found }
    ensures number { IfOk result (λ number. found ≡ Some number) }
{
    match found {
        Some(number) => Ok(number),
        None => Err(ReadingEnd::Refusal(Code::InvalidParameterValue, name)),
    }
}

/// A parameter that has one value only.
pub fn fixed<'a>(
    pairs: &'a [(Words, Words)],
    name: &'a [u8],
    text: &[u8],
) -> Result<(), ReadingEnd<'a>>
    ensures { row_of result ≡ parameter pairs.now name.now MissingParameterValue InvalidParameterValue (equal text.now) }
{
    let value = value_given(pairs, name)?;
    if value == text {
        Ok(())
    } else {
        Err(ReadingEnd::Refusal(Code::InvalidParameterValue, name))
    }
}

/// The operation: GetTile is read on.
pub fn operation<'a>(pairs: &'a [(Words, Words)], name: &'a [u8]) -> Result<(), ReadingEnd<'a>>
    ensures { row_of result ≡ requested pairs.now name.now MissingParameterValue }
{
    let value = value_given(pairs, name)?;
    if value == b"GetCapabilities".as_slice() {
        return Err(ReadingEnd::Document);
    }
    if value == b"GetTile".as_slice() {
        Ok(())
    } else {
        Err(ReadingEnd::Refusal(Code::OperationNotSupported, value))
    }
}

/// The number of the layer.
pub fn layer<'a>(
    catalogue: &Catalogue,
    pairs: &'a [(Words, Words)],
    name: &'a [u8],
) -> Result<u32, ReadingEnd<'a>>
    requires { IsValid catalogue.now }
    ensures value { row_of result ≡ parameter pairs.now name.now MissingParameterValue InvalidParameterValue (layer_named catalogue.now) }
    ensures there { IfOk result (λ layer. layer < length catalogue.now.layers) }
{
    let value = value_given(pairs, name)?;
    named(name, catalogue.layer_named(value))
}

fn style_or_first(catalogue: &Catalogue, layer: u32, name: &[u8]) -> Option<u32>
    requires valid { IsValid catalogue.now }
    requires layer { layer < length catalogue.now.layers }
    ensures value { result ≡ style_or_first catalogue.now layer name.now }
    ensures there { IfSome result (λ style. IsSomeAnd (slice_get catalogue.now.layers layer) (λ l. style < length l.styles)) }
{
    if name.is_empty() {
        Some(0)
    } else {
        catalogue.style_named(layer, name)
    }
}

/// The number of the style in its layer.
pub fn style<'a>(
    catalogue: &Catalogue,
    layer: u32,
    pairs: &'a [(Words, Words)],
    name: &'a [u8],
) -> Result<u32, ReadingEnd<'a>>
    requires valid { IsValid catalogue.now }
    requires layer { layer < length catalogue.now.layers }
    ensures value { row_of result ≡ parameter pairs.now name.now MissingParameterValue InvalidParameterValue (style_or_first catalogue.now layer) }
    ensures there { IfOk result (λ style. IsSomeAnd (slice_get catalogue.now.layers layer) (λ l. style < length l.styles)) }
{
    let value = value_given(pairs, name)?;
    named(name, style_or_first(catalogue, layer, value))
}

/// The number of the grid, one of the layer's.
pub fn grid<'a>(
    catalogue: &Catalogue,
    layer: u32,
    pairs: &'a [(Words, Words)],
    name: &'a [u8],
) -> Result<u32, ReadingEnd<'a>>
    requires { IsValid catalogue.now }
    ensures value { row_of result ≡ parameter pairs.now name.now MissingParameterValue InvalidParameterValue (served_grid_named catalogue.now layer) }
    ensures there { IfOk result (λ grid. grid < length catalogue.now.grids) }
    ensures served { IfOk result (λ grid. IsSomeAnd (slice_get catalogue.now.layers layer) (λ l. Contains l.grids grid)) }
{
    let value = value_given(pairs, name)?;
    named(name, catalogue.served_grid_named(layer, value))
}

/// The number of the matrix in its grid.
pub fn matrix<'a>(
    catalogue: &Catalogue,
    grid: u32,
    pairs: &'a [(Words, Words)],
    name: &'a [u8],
) -> Result<u32, ReadingEnd<'a>>
    requires valid { IsValid catalogue.now }
    requires grid { grid < length catalogue.now.grids }
    ensures { row_of result ≡ parameter pairs.now name.now MissingParameterValue InvalidParameterValue (matrix_named catalogue.now grid) }
{
    let value = value_given(pairs, name)?;
    named(name, catalogue.matrix_named(grid, value))
}

/// A row or a column as its digits.
pub fn digits<'a>(pairs: &'a [(Words, Words)], name: &'a [u8]) -> Result<&'a [u8], ReadingEnd<'a>>
    ensures value { number_row result ≡ parameter pairs.now name.now MissingParameterValue InvalidParameterValue number }
    ensures form { IfOk result (λ text. is_number text.now ≡ true) }
{
    let value = value_given(pairs, name)?;
    if is_number(value) {
        Ok(value)
    } else {
        Err(ReadingEnd::Refusal(Code::InvalidParameterValue, name))
    }
}

/// How many rows a matrix has.
pub fn rows_of(catalogue: &Catalogue, grid: u32, z: u32) -> u32
    ensures { result ≡ rows_of catalogue.now grid z }
{
    match catalogue.matrix_in(grid, z) {
        Some(matrix) => matrix.rows,
        None => 0,
    }
}

/// How many columns a matrix has.
pub fn cols_of(catalogue: &Catalogue, grid: u32, z: u32) -> u32
    ensures { result ≡ cols_of catalogue.now grid z }
{
    match catalogue.matrix_in(grid, z) {
        Some(matrix) => matrix.cols,
        None => 0,
    }
}

/// The number that digits spell, below the limit.
pub fn in_range<'a>(name: &'a [u8], limit: u32, digits: &[u8]) -> Result<u32, ReadingEnd<'a>>
    requires { is_number digits.now ≡ true }
    ensures value { row_of result ≡ some_or TileOutOfRange name.now (below limit (digits_value 10 digits.now)) }
    ensures below { IfOk result (λ number. number < limit) }
{
    match below(limit, digits) {
        Some(number) => Ok(number),
        None => Err(ReadingEnd::Refusal(Code::TileOutOfRange, name)),
    }
}
