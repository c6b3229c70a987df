//! The outbox of a leader: the covers that it posted, numbered 1, 2, 3 and so on, in a file of their own; and the packets of 64 bytes that
//! a leader and a follower send each other.
//!
//! Promises: `read_packet` reads exactly what `write_packet` writes (`specs/Packets.antt`). `Outbox::post`, `next` and `heard` answer by
//! their rows (`specs/Posts.antt`). At every moment each image of the disk opens to the posts from before a call, to these and the one that
//! a failed call may have left, or to what the call brings (`specs/Files.antt`).
//! Stands on cache_file and record_text, and on the crates of the types of a cover.
#![tactic(auto)]

mod hearing;
mod images;
mod laws;
mod opening;
mod outbox;
mod packet;
mod posted;
mod posting;
mod ranges;
mod reader;
mod reading;
mod writing;
mod written;

pub use laws::{laws_of_outboxes, laws_of_packets};
pub use outbox::Outbox;
pub use packet::{PACKET_SIZE, Packet};
pub use posted::Posted;
pub use reading::read_packet;
pub use writing::write_packet;
