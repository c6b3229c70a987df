//! Tests of a server, over connections in memory and over sockets of the loopback.
//!
//! It has no code of its own and promises nothing.
//! Stands on server_command and tcp_lanes, and on the crates of what they are called with.
#![tactic(auto)]

#[cfg(test)]
mod answers;
#[cfg(test)]
mod client;
#[cfg(test)]
mod composites;
#[cfg(test)]
mod door;
#[cfg(test)]
mod ending;
#[cfg(test)]
mod held;
#[cfg(test)]
mod loopback;
#[cfg(test)]
mod servers;
#[cfg(test)]
mod slow;
#[cfg(test)]
mod stage;
#[cfg(test)]
mod texts;
