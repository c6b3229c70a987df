//! Tests of lanes on the loopback: messages that are cut and mixed in every way, clients that are silent, slow, deaf or wrong, the
//! order in which clients are served, each limit, made short, and the end of a server.
//!
//! It has no code of its own and promises nothing. What the system gives and takes isn't modelled, so that what lanes do with
//! it is tested here and not proved.
//! Stands on tcp_lanes, and on http_wire, exact_ratio and base for a session over a lane.
#![tactic(auto)]

#[cfg(test)]
mod client;
#[cfg(test)]
mod crowds;
#[cfg(test)]
mod cuts;
#[cfg(test)]
mod ends;
#[cfg(test)]
mod hindrances;
#[cfg(test)]
mod limits;
#[cfg(test)]
mod links;
#[cfg(test)]
mod odd_bytes;
#[cfg(test)]
mod one_go;
#[cfg(test)]
mod order;
#[cfg(test)]
mod refusals;
#[cfg(test)]
mod server;
#[cfg(test)]
mod session;
#[cfg(test)]
mod waits;
#[cfg(test)]
mod winding_up;
