//! The queue in which the links of a listener wait for workers, the hands at it, and the acceptor that hands in what a listener gives.
//!
//! Promises: a hand knows what it has put and taken; what all hands put is, however links are weighed, what they took and what the queue
//! holds, so a hand that has taken over all others, and finds no more, has taken all that was put (`specs/Hands.antt`). The acceptor
//! hands in each link that the listener gives, as many as are asked for or until an accept fails (`specs/Accepted.antt`), and then closes
//! the listener. In which order links are taken, and that a sleeper wakes, no clause says.
//! Stands on http_wire, base and `crossbeam_queue`, and on the crates whose types its calls name; what a link is served with it
//! doesn't know.
#![tactic(auto)]

mod accepting;
mod hand;
mod queue;

pub use accepting::accept_all;
pub use hand::{Fair, QueueHand};
pub use queue::{LinkHand, LinkQueue};
