//! Tests of sets on the loopback: answers in order, messages by single bytes, connections that close, rest too long or find no room,
//! messages that pause while others are served, and the end of a server by its last link and by its switch.
//!
//! It has no code of its own and promises nothing. What the system gives and takes isn't modelled, so that what sets do with
//! it is tested here and not proved.
//! Stands on tcp_sets, and on tcp_lanes, http_wire, exact_ratio and base for a session over a link.
#![tactic(auto)]

#[cfg(test)]
mod client;
#[cfg(test)]
mod ends;
#[cfg(test)]
mod keeping;
#[cfg(test)]
mod pauses;
#[cfg(test)]
mod rests;
#[cfg(test)]
mod server;
#[cfg(test)]
mod session;
