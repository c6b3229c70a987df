//! Sessions: the messages of one connection (RFC 9112), served one after the other by whatever serves a message.
//!
//! Promises: a session reads the messages of its link in order and serves each before the next is looked for; what it served stands
//! one behind the other, each response went out behind those before it, and the session ends as the stream does, after its last
//! message or at a fault (`specs/Sessions.antt`, `specs/SessionEnds.antt`); of the bytes after the last message it takes less than one
//! take may bring. What a message comes to is said by who serves it (`server::MessageServer`).
//! Stands on tile_requests, source_render and http_wire.
#![tactic(auto)]

mod coming;
mod responses;
mod server;
mod session;

pub use coming::next_message;
pub use responses::{write_refusal, write_response};
pub use server::{MessageServer, NoJobs};
pub use session::{SESSION_LIMIT, SessionEnd, hold_session};
