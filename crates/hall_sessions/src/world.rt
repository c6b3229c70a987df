//! What many threads serve with.
use base::Traffic;
use cabinet::Keeper;
use cache_hall::Hall;
use exact_ratio::Words;
use job_board::Board;
use layer_recipes::RecipeBook;
use tile_requests::Tables;

/// Where many threads are served: a hall, the tables of requests, the capabilities document, a board of jobs, the counts of requests, and
/// the recipes of composites.
#[derive(Drop)]
pub struct World<K: Keeper> {
    pub hall: Hall<K>,
    /// What requests are read by and responses are spelt by.
    pub tables: Tables,
    /// The document of the service's capabilities, as the operator wrote it.
    pub capabilities: Words,
    /// The jobs that were submitted.
    pub board: Board,
    /// How many requests are being served, for work that can wait.
    pub traffic: Traffic,
    /// The recipes of the composites that are served; without one there is nothing below `/composites/`.
    pub recipes: RecipeBook,
}
