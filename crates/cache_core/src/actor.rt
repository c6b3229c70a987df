//! The state of a request for a tile between two of its events, and what an event comes to.
use crate::outcome::{Tile, TileOutcome};
use base::SharedText;
use matrix_geometry::Address;
use metatile_locks::Ticket;

/// Who makes a request for a tile, between two of its events. It holds a ticket or none, and a ticket must be spent.
pub enum Actor {
    /// Nothing is under way.
    Idle,
    /// A render of the tile's metatile runs elsewhere, and the actor will ask again; with `true` it will force.
    Waiting(Address, bool),
    /// It is to render the metatile of the ticket, for this tile.
    Holding(Ticket, Address),
    /// It is to hand in the blob of the ticket's metatile, and then to answer the tile.
    Rendered(Ticket, SharedText, Tile),
    /// The source failed, and the ticket is to be given back.
    Failed(Ticket),
}

/// What an event came to.
pub struct Step {
    pub actor: Actor,
    /// The outcome, where the request ended.
    pub outcome: Option<TileOutcome>,
}
