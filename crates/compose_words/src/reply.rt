//! The type of what a line is answered.
use layer_recipes::Composed;

/// What an order is answered.
#[derive(Drop)]
pub enum CompositionReply {
    /// The composite was made.
    Tile(Composed),
    /// The source failed at the rendering of a part.
    Fault,
    /// No number is left, for the render of a part or for a truncation.
    Spent,
    /// The truncation was made, and has this number.
    Cut(u64),
    /// As many truncations would stay in force as may be; none was made.
    Full,
}
