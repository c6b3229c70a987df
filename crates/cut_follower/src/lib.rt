//! A follower of a leader's changes: it takes the packets that a leader sends, in whatever order they come and however often, and makes
//! each change once, in the order of the posts.
//!
//! Promises: `take` answers by its row (`specs/Takes.antt`): a change is made as `Feed::apply` makes it, and what is told as seen is the
//! last change whose cut is in force and whose mark is durable. `laws_of_lossy_links` says what follows over every list of events of a
//! leader, a follower and a lossy link between them, stops and openings of either side among them (`specs/Lossy.antt`): the follower
//! stays in step with the leader (`specs/InStep.antt`). So for each change that it acknowledged its book answers for the cut, also after
//! each opening; each tile that it answers afterwards is above each such cut that covers it; and what it applied is a prefix of the
//! posts, in their order.
//! `lead_link` and `follow_link` are the two sides of a link over which packets go: what each sends and takes, in which order, and which
//! cause each end has (`specs/Leading.antt`, `specs/Following.antt`).
//! Stands on change_feed and outbox, on http_wire for links, on cache_core for what outlasts a crash, and on cabinet with the crates of its
//! types.
#![tactic(auto)]

mod ends;
mod following;
mod laws;
mod leading;
mod packets;
mod taken;
mod taking;

pub use ends::LinkEnd;
pub use following::{Arrived, follow_link};
pub use laws::laws_of_lossy_links;
pub use leading::{Exchanged, lead_link};
pub use packets::Missed;
pub use taken::Taken;
pub use taking::take;
