//! What one thread serves with: a cabinet, the tables of requests, and the capabilities document.
use cabinet::Keeper;
use exact_ratio::Words;
use tile_requests::Tables;

/// Where one thread is served.
#[derive(Drop)]
pub struct Counter<C: Keeper> {
    pub cabinet: C,
    /// What requests are read by and responses are spelt by.
    pub tables: Tables,
    /// The document of the service's capabilities, as the operator wrote it.
    pub capabilities: Words,
}
