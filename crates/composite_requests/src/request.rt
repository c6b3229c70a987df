//! What is asked for under the path of composites.
use exception_report::{Code, Locator};
use layer_recipes::TilePlace;

/// What a message below `/composites/` asks for.
#[derive(Drop)]
pub enum CompositeRequest {
    /// The composite of the recipe of this number, at a place of its grid.
    Composite(u32, TilePlace),
    /// What the reading of the place refuses.
    Refused(Code, Locator),
    /// Its path leads nowhere.
    NotFound,
    /// Its path takes another method.
    WrongMethod,
}
