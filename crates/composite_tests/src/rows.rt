//! A catalogue of three layers on one grid, a recipe of two of them, and their composites at zoom 0.
ghost use Rattle.std.specs.Prelude.{IfSome, true, ◌≡◌};
ghost use Rattle.catalog.specs.Valid.{IsValid};
ghost use Rattle.composite_layers.specs.Parts.{place_of};
ghost use Rattle.layer_recipes.specs.OfCatalogue.{IsPlaceIn, IsRecipeOf};

use catalog::Catalogue;
use config_text::read_catalogue;
use layer_recipes::{ComposeFault, Composed, Recipe};
use matrix_geometry::{Filter, Matrix};
use std::alloc::Global;
use truncation_list::Cover;

/// The built-in catalogue with two layers more.
const ROWS: &[u8] = br#"{"source":0,"keptLimit":64,"cutLimit":16,"blobBytes":4096,"policy":"lru",
"grids":[{"id":"tiny","corner":["0","16"],"matrices":[
{"id":"0","span":"8","tile":[2,2],"size":[1,1]},
{"id":"1","span":"4","tile":[2,2],"size":[2,2]},
{"id":"2","span":"2","tile":[2,2],"size":[4,4]}]}],
"layers":[
{"id":"demo","grids":["tiny"],"styles":[{"id":"grey","breaks":[]}],"meta":[1,1]},
{"id":"sea","grids":["tiny"],"styles":[{"id":"grey","breaks":[]}],"meta":[2,2],"gutter":1},
{"id":"wood","grids":["tiny"],"styles":[{"id":"grey","breaks":[]}],"meta":[1,1],"quota":46}]}"#;

/// Tiles of demo over tiles of wood.
const DEMO_OVER_WOOD: &[u8] = br#"{"grid":"tiny","parts":[
{"layer":"demo","style":"grey","key":[127,127,127]},
{"layer":"wood","style":"grey","key":[0,0,0]}]}"#;

/// The layers of the recipe.
pub const DEMO: u32 = 0;

pub const WOOD: u32 = 2;

/// The composite of demo's picture 1 over wood's picture 2.
pub const AT_FIRST: &[u8] = b"P6\n2 2\n255\n\xc4\xc4\xc4\x07\x07\x07\xe7\xe7\xe7\x6f\x6f\x6f";

/// The composite of demo's picture 1 over wood's picture 4.
pub const AFTER_A_CUT: &[u8] = b"P6\n2 2\n255\n\xd2\xd2\xd2\x07\x07\x07\xe7\xe7\xe7\x6f\x6f\x6f";

/// The same recipe under a name.
pub const RECIPES: &[u8] = br#"{"over":{"grid":"tiny","parts":[
{"layer":"demo","style":"grey","key":[127,127,127]},
{"layer":"wood","style":"grey","key":[0,0,0]}]}}"#;

/// Its composite as a pixmap and as PNG, a row that isn't there, a name that no recipe has, another method, and a tile of demo.
pub const MESSAGES: &[u8] = b"GET /composites/over/0/0/0.ppm HTTP/1.1\r\n\r\n\
    GET /composites/over/0/0/0.png HTTP/1.1\r\n\r\n\
    GET /composites/over/0/1/0.ppm HTTP/1.1\r\n\r\n\
    GET /composites/under/0/0/0.ppm HTTP/1.1\r\n\r\n\
    POST /composites/over/0/0/0.ppm HTTP/1.1\r\nContent-Length: 0\r\n\r\n\
    GET /rest/wmts/demo/grey/tiny/0/0/0.ppm HTTP/1.1\r\n\r\n";

/// The composite of demo's picture 1 over wood's picture 2, and that demo's tile is kept.
pub const RESPONSES: &[u8] =
    b"HTTP/1.1 200 OK\r\nContent-Type: image/x-portable-pixmap\r\nContent-Length: 23\r\n\
    composite-renders: 1,2\r\n\r\nP6\n2 2\n255\n\xc4\xc4\xc4\x07\x07\x07\xe7\xe7\xe7ooo\
    HTTP/1.1 200 OK\r\nContent-Type: image/png\r\nContent-Length: 87\r\ncomposite-renders: 1,2\r\n\r\n\
    \x89PNG\r\n\x1a\n\x00\x00\x00\rIHDR\x00\x00\x00\x02\x00\x00\x00\x02\x08\x02\x00\x00\x00\xfd\xd4\x9as\
    \x00\x00\x00\x1eIDATx\x01\x00\x07\x00\xf8\xff\x00\xc4\xc4\xc4\x07\x07\x07\x01\x07\x00\xf8\xff\x00\xe7\xe7\xe7ooo\
    ,~\x06dc\xcd\x8d-\x00\x00\x00\x00IEND\xaeB`\x82\
    HTTP/1.1 400 Bad Request\r\nContent-Type: text/xml\r\nContent-Length: 193\r\n\r\n\
    <?xml version=\"1.0\" encoding=\"UTF-8\"?>\n<ExceptionReport xmlns=\"http://www.opengis.net/ows/1.1\" version=\"1.1.0\">\n\
    <Exception exceptionCode=\"TileOutOfRange\" locator=\"TileRow\"/>\n</ExceptionReport>\n\
    HTTP/1.1 404 Not Found\r\nContent-Length: 0\r\n\r\n\
    HTTP/1.1 405 Method Not Allowed\r\nContent-Length: 0\r\n\r\n\
    HTTP/1.1 200 OK\r\nContent-Type: image/x-portable-pixmap\r\nContent-Length: 23\r\n\
    geowebcache-cache-result: HIT\r\ntile-render: 1\r\n\r\nP6\n2 2\n255\n\x7f\x7f\x7f\x07\x07\x07\xe7\xe7\xe7ooo";

/// The catalogue; none where its text is refused or memory runs out.
pub fn rows_catalogue(alloc: Global) -> Option<Catalogue>
    ensures { IfSome result (λ c. IsValid c) }
{
    read_catalogue(alloc, ROWS).ok()
}

/// The recipe; none where its text is refused or memory runs out.
pub fn demo_over_wood(alloc: Global, catalogue: &Catalogue) -> Option<Recipe>
    requires { IsValid catalogue.now }
    ensures { IfSome result (IsRecipeOf catalogue.now) }
{
    Recipe::read(alloc, catalogue, DEMO_OVER_WOOD).ok()
}

/// All of a layer at zoom 0.
pub fn zoom_0_of(layer: u32) -> Cover {
    Cover {
        layer,
        grid: 0,
        z_start: 0,
        z_stop: 0,
        bounds: None,
        filter: Filter {
            style: None,
            dims: [None; 4],
        },
    }
}

/// Whether the matrix at zoom 0 of the recipe's grid has a tile.
pub fn has_first(catalogue: &Catalogue, recipe: &Recipe) -> bool
    ensures { result ≡ true → IsPlaceIn catalogue.now (place_of recipe.now.grid 0 0 0) }
{
    let Some(Matrix { rows, cols, .. }) = catalogue.matrix_in(recipe.grid, 0) else {
        return false;
    };
    *rows > 0 && *cols > 0
}

/// What a call for a composite came to; none where the place isn't in the grid.
pub type Outcome = Option<Result<Composed, ComposeFault>>;

/// Whether it came to a composite of the pictures of these numbers.
pub fn has_numbers(outcome: &Outcome, numbers: [u64; 2]) -> bool {
    match outcome {
        Some(Ok(composed)) => composed.numbers.as_slice() == numbers.as_slice(),
        _ => false,
    }
}

/// Whether it came to a composite of this text.
pub fn has_text(outcome: &Outcome, text: &[u8]) -> bool {
    match outcome {
        Some(Ok(composed)) => composed.bytes.as_slice() == text,
        _ => false,
    }
}

/// Whether the source failed.
pub fn has_failed(outcome: &Outcome) -> bool {
    match outcome {
        Some(Err(fault)) => *fault == ComposeFault::SourceFault,
        _ => false,
    }
}
