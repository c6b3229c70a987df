//! What a path of the RESTful interface may lead to.

/// What a path is routed to.
#[derive(Clone, Copy, PartialEq, Eq)]
pub enum Route {
    /// The document of the service's capabilities.
    Capabilities,
    /// A tile, which the segments after `/rest/wmts/` name.
    Tile,
}
