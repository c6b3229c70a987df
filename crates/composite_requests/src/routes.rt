//! Where a message leads under the path of composites.
ghost use Rattle.std.specs.Prelude.{◌≡◌, IfOk, IfSome, IsSomeAnd, map, slice_get};
ghost use Rattle.catalog.specs.Valid.{IsValid};
ghost use Rattle.composite_requests.specs.Places.{place_in};
ghost use Rattle.composite_requests.specs.Routes.{IsOf, by_get, composite_or, inside, of_inside, of_recipe, of_segments, request_for};
ghost use Rattle.layer_recipes.specs.Books.{IsBookOf, recipe_named};
ghost use Rattle.tile_requests.specs.Shown.{shown_message};
ghost use Rattle.wmts_rest.specs.Paths.{text_of};

use crate::place::place_in;
use crate::refusal::Refusal;
use crate::request::CompositeRequest;
use crate::segments::{inside, segments_of, text_of};
use catalog::Catalogue;
use exact_ratio::Words;
use exception_report::Locator;
use http_wire::Method;
use layer_recipes::{Recipe, RecipeBook};
use std::alloc::{AllocError, Global};
use tile_requests::{MessageRef, path_of};

/// The number of the grid of a recipe.
fn grid_of(recipe: &Recipe) -> u32
    ensures { result ≡ recipe.now.grid }
{
    recipe.grid
}

/// What is asked of the recipe of a number, which is on this grid. `AllocError` where memory runs out.
fn on_grid(
    alloc: Global,
    catalogue: &Catalogue,
    book: &RecipeBook,
    number: u32,
    grid: u32,
    z: &[u8],
    row: &[u8],
    col: &[u8],
) -> Result<CompositeRequest, AllocError>
    requires valid { IsValid catalogue.now }
    requires there { IsSomeAnd (slice_get book.now.recipes.items number) (λ n. grid ≡ n.recipe.grid) }
    ensures value { IfOk result (λ r. r ≡ composite_or number (place_in catalogue.now grid z.now row.now col.now)) }
    ensures of { IfOk result (IsOf catalogue.now book.now) }
{
    match place_in(catalogue, grid, z, row, col) {
        Ok(place) => Ok(CompositeRequest::Composite(number, place)),
        Err(Refusal::At(code, name)) => {
            let locator = Locator::At(Words::new(alloc, name)?);
            Ok(CompositeRequest::Refused(code, locator))
        }
    }
}

/// What is asked of the recipe of a name. `AllocError` where memory runs out.
fn of_recipe(
    alloc: Global,
    catalogue: &Catalogue,
    book: &RecipeBook,
    name: &[u8],
    z: &[u8],
    row: &[u8],
    col: &[u8],
) -> Result<CompositeRequest, AllocError>
    requires valid { IsValid catalogue.now }
    requires book { IsBookOf catalogue.now book.now }
    ensures value { IfOk result (λ r. r ≡ of_recipe catalogue.now book.now (recipe_named book.now name.now) z.now row.now col.now) }
    ensures of { IfOk result (IsOf catalogue.now book.now) }
{
    let Some(number) = book.recipe_named(name) else {
        return Ok(CompositeRequest::NotFound);
    };
    let Some(named) = book.recipes.get(number as usize) else {
        return Ok(CompositeRequest::NotFound);
    };
    let grid = grid_of(&named.recipe);
    on_grid(alloc, catalogue, book, number, grid, z, row, col)
}

/// What four segments ask for. `AllocError` where memory runs out.
fn of_texts(
    alloc: Global,
    catalogue: &Catalogue,
    book: &RecipeBook,
    name: &[u8],
    z: &[u8],
    row: &[u8],
    col: &[u8],
) -> Result<CompositeRequest, AllocError>
    requires valid { IsValid catalogue.now }
    requires book { IsBookOf catalogue.now book.now }
    ensures value { IfOk result (λ r. r ≡ of_recipe catalogue.now book.now (recipe_named book.now (text_of name.now)) (text_of z.now) (text_of row.now) (text_of col.now)) }
    ensures of { IfOk result (IsOf catalogue.now book.now) }
{
    let name = text_of(alloc, name)?;
    let z = text_of(alloc, z)?;
    let row = text_of(alloc, row)?;
    let col = text_of(alloc, col)?;
    of_recipe(
        alloc,
        catalogue,
        book,
        name.bytes(),
        z.bytes(),
        row.bytes(),
        col.bytes(),
    )
}

/// What segments ask for. `AllocError` where memory runs out.
fn of_segments(
    alloc: Global,
    catalogue: &Catalogue,
    book: &RecipeBook,
    segments: &[&[u8]],
) -> Result<CompositeRequest, AllocError>
    requires valid { IsValid catalogue.now }
    requires book { IsBookOf catalogue.now book.now }
    ensures value { IfOk result (λ r. r ≡ of_segments catalogue.now book.now (map (λ s. s.now) segments.now)) }
    ensures of { IfOk result (IsOf catalogue.now book.now) }
{
    match segments {
        [name, z, row, col] => of_texts(alloc, catalogue, book, *name, *z, *row, *col),
        _ => Ok(CompositeRequest::NotFound),
    }
}

/// What a path below `/composites/` asks for by GET. `AllocError` where memory runs out.
fn by_path(
    alloc: Global,
    catalogue: &Catalogue,
    book: &RecipeBook,
    path: &[u8],
) -> Result<CompositeRequest, AllocError>
    requires valid { IsValid catalogue.now }
    requires book { IsBookOf catalogue.now book.now }
    ensures value { IfOk result (λ r. r ≡ of_inside catalogue.now book.now (inside path.now)) }
    ensures of { IfOk result (IsOf catalogue.now book.now) }
{
    match inside(path) {
        None => Ok(CompositeRequest::NotFound),
        Some(text) => {
            let segments = segments_of(alloc, text)?;
            of_segments(alloc, catalogue, book, segments.as_slice())
        }
    }
}

/// What a path below `/composites/` asks for by this method. `AllocError` where memory runs out.
fn by_get(
    alloc: Global,
    catalogue: &Catalogue,
    book: &RecipeBook,
    method: Method,
    path: &[u8],
) -> Result<CompositeRequest, AllocError>
    requires valid { IsValid catalogue.now }
    requires book { IsBookOf catalogue.now book.now }
    ensures value { IfOk result (λ r. r ≡ by_get method (of_inside catalogue.now book.now (inside path.now))) }
    ensures of { IfOk result (IsOf catalogue.now book.now) }
{
    match method {
        Method::Get => by_path(alloc, catalogue, book, path),
        Method::Post | Method::Delete | Method::Other => Ok(CompositeRequest::WrongMethod),
    }
}

/// What a message asks for below `/composites/`; none if there is no recipe, or its path isn't below that. A place outside the grid is
/// refused as a tile outside is by its RESTful path. `AllocError` where memory runs out.
#[tactic(auto, unfolding(crate::specs::Routes::request_for))]
pub fn read_composite_request(
    alloc: Global,
    catalogue: &Catalogue,
    book: &RecipeBook,
    message: &MessageRef<'_>,
) -> Result<Option<CompositeRequest>, AllocError>
    requires valid { IsValid catalogue.now }
    requires book { IsBookOf catalogue.now book.now }
    ensures value { IfOk result (λ r. r ≡ request_for catalogue.now book.now (shown_message message.now)) }
    ensures of { IfOk result (λ r. IfSome r (IsOf catalogue.now book.now)) }
{
    if book.recipes.is_empty() {
        return Ok(None);
    }
    let path = path_of(message.target);
    if !path.starts_with(b"/composites/") {
        return Ok(None);
    }
    match by_get(alloc, catalogue, book, message.method, path) {
        Ok(request) => Ok(Some(request)),
        Err(_) => Err(AllocError),
    }
}
