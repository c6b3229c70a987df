//! The order of a line, read.
ghost use Rattle.std.specs.Prelude.{◌≡◌, ◌<◌, IfOk, IfSome, length, option_map};
ghost use Rattle.catalog.specs.Valid.{IsValid};
ghost use Rattle.compose_words.specs.Orders.{IsOrderOf, IsReadAs, behind, digits_and_rest, number_below, order_of, place_in, place_of, truncation};
ghost use Rattle.job_forms.specs.Cover.{cover_of};
ghost use Rattle.layer_recipes.specs.OfCatalogue.{IsPlaceIn};
ghost use Rattle.served_covers.specs.OfCatalogue.{IsCoverOf};

use catalog::Catalogue;
use job_forms::{JobFault, read_cover};
use layer_recipes::TilePlace;
use schedule_text::{LINE_LIMIT, digits_len};
use std::alloc::Global;
use truncation_list::Cover;
use wmts_kvp::{below, is_number};

/// What a line orders.
#[derive(Clone, Copy)]
pub enum CompositionOrder {
    /// The composite at a place of the recipe's grid.
    Get(TilePlace),
    /// The truncation of what a cover is for.
    Truncate(Cover),
}

/// Why a line gives no order.
#[derive(Clone, Copy, PartialEq, Eq)]
pub enum UnreadOrder {
    /// It has the form of no order, names no place of the grid, or its cover is refused.
    Refused,
    /// Memory ran out.
    OutOfMemory,
}

/// The number of 1 to 10 digits that a text is, where it is below a limit.
fn number_below(limit: u32, digits: &[u8]) -> Option<u32>
    ensures value { result ≡ number_below limit digits.now }
    ensures bound { IfSome result (λ number. number < limit) }
{
    if digits.len() > 10 {
        return None;
    }
    if !is_number(digits) {
        return None;
    }
    below(limit, digits)
}

/// The place of the grid of this number that three texts name: its matrix, its row and its column.
#[tactic(auto, unfolding(crate::specs::Orders::place_in))]
fn place_in(catalogue: &Catalogue, grid: u32, z: &[u8], row: &[u8], col: &[u8]) -> Option<TilePlace>
    requires { IsValid catalogue.now }
    ensures value { result ≡ place_in catalogue.now grid z.now row.now col.now }
    ensures of { IfSome result (λ place. (place.grid ≡ grid) × IsPlaceIn catalogue.now place) }
{
    let found = catalogue.grids.get(grid as usize)?;
    let z = number_below(found.matrices.len() as u32, z)?;
    let matrix = *found.matrices.get(z as usize)?;
    let row = number_below(matrix.rows, row)?;
    let col = number_below(matrix.cols, col)?;
    Some(TilePlace { grid, z, row, col })
}

/// The digits that a text begins with, and what stands behind the blank after them; `None` where no blank stands there.
fn digits_and_rest(text: &[u8]) -> Option<(&[u8], &[u8])>
    ensures { option_map (λ both. (both.0.now, both.1.now)) result ≡ digits_and_rest text.now }
{
    let (digits, rest) = text.split_at(digits_len(text));
    let [b' ', rest @ ..] = rest else {
        return None;
    };
    Some((digits, rest))
}

/// The place of a grid that a text names: three numbers with one blank between them.
#[tactic(auto, unfolding(crate::specs::Orders::place_of))]
fn place_of(catalogue: &Catalogue, grid: u32, text: &[u8]) -> Option<TilePlace>
    requires { IsValid catalogue.now }
    ensures value { result ≡ place_of catalogue.now grid text.now }
    ensures of { IfSome result (λ place. (place.grid ≡ grid) × IsPlaceIn catalogue.now place) }
{
    let Some((z, rest)) = digits_and_rest(text) else {
        return None;
    };
    let Some((row, col)) = digits_and_rest(rest) else {
        return None;
    };
    place_in(catalogue, grid, z, row, col)
}

/// What stands behind a word in a line that begins with it.
fn behind<'a>(word: &[u8], line: &'a [u8]) -> Option<&'a [u8]>
    ensures { option_map (λ rest. rest.now) result ≡ behind word.now line.now }
{
    line.strip_prefix(word)
}

/// The order of a composite at the place that a text names.
fn read_get(catalogue: &Catalogue, grid: u32, text: &[u8]) -> Result<CompositionOrder, UnreadOrder>
    requires { IsValid catalogue.now }
    ensures reads { IsReadAs (option_map CompositionOrder.Get (place_of catalogue.now grid text.now)) result }
    ensures of { IfOk result (IsOrderOf catalogue.now grid) }
{
    match place_of(catalogue, grid, text) {
        Some(place) => Ok(CompositionOrder::Get(place)),
        None => Err(UnreadOrder::Refused),
    }
}

/// The order of a truncation by the cover that a text is.
fn read_truncation(
    alloc: Global,
    catalogue: &Catalogue,
    grid: u32,
    text: &[u8],
) -> Result<CompositionOrder, UnreadOrder>
    requires { IsValid catalogue.now }
    ensures reads { IsReadAs (truncation (cover_of catalogue.now text.now)) result }
    ensures of { IfOk result (IsOrderOf catalogue.now grid) }
{
    match read_cover(alloc, catalogue, text) {
        Ok(cover) => Ok(CompositionOrder::Truncate(cover)),
        Err(JobFault::OutOfMemory) => Err(UnreadOrder::OutOfMemory),
        Err(_) => Err(UnreadOrder::Refused),
    }
}

/// The order of a line, for a recipe on the grid of this number.
#[tactic(auto, unfolding(crate::specs::Orders::order_of))]
pub(crate) fn read_order(
    alloc: Global,
    catalogue: &Catalogue,
    grid: u32,
    line: &[u8],
) -> Result<CompositionOrder, UnreadOrder>
    requires { IsValid catalogue.now }
    ensures reads { IsReadAs (order_of catalogue.now grid line.now) result }
    ensures of { IfOk result (IsOrderOf catalogue.now grid) }
{
    if line.len() > LINE_LIMIT {
        return Err(UnreadOrder::Refused);
    }
    match behind(b"GET ", line) {
        Some(place) => read_get(catalogue, grid, place),
        None => match behind(b"TRUNCATE ", line) {
            Some(cover) => read_truncation(alloc, catalogue, grid, cover),
            None => Err(UnreadOrder::Refused),
        },
    }
}
