//! Sessions over a hall and a board of jobs: the messages of connections, served by many threads at one cache.
//!
//! Promises: a session writes the responses to the messages of its link's bytes, in order, and ends as the stream does, after its last
//! message or at a fault (`specs/Sessions.antt`); for each message its pass made the turns of that message's commands, and what
//! they were answered is the outcome of its response (`specs/Served.antt`): for a tile those of a get, for a truncation and an
//! expiry one, and for what is kept one for each line; for a composite those of a get for each part (`specs/Composites.antt`). For a message
//! for jobs the turns are the board's, by its own pass.
//! Each blob that the turns hand in to the cache is cut out of an image that the source gave for its ticket (`specs/Exchanges.antt`).
//! Who asks for a tile gets it, but for the causes that `specs/Caused.antt` lists, and each other answer has its cause there.
//! Stands on sessions, cache_hall, tile_service, job_requests, composite_hall and composite_requests.
#![tactic(auto)]

mod composites;
mod hall_server;
mod requests;
mod session;
mod world;

pub use requests::serve;
pub use session::serve_session;
pub use world::World;
