//! Tests of the cabinet on a disk: its calls one after the other, and its disk stopped after each call, and copies of its files; of a cache that another
//! catalogue takes over; of sums that are written anew; and of a follower.
//!
//! It has no code of its own and promises nothing: what the cabinet and the follower promise is proved in their crates. No disk here is
//! modelled, so that what comes back is read from the bytes alone.
//! Stands on durable_cabinet, summed_disk, cache_seal, carry_over, cut_follower, config_text and fixtures, and on the crates of what they are called with.
#![tactic(auto)]

#[cfg(test)]
mod cabinets;
#[cfg(test)]
mod carries;
#[cfg(test)]
mod carry_cases;
#[cfg(test)]
mod copies;
#[cfg(test)]
mod followers;
#[cfg(test)]
mod seals;
#[cfg(test)]
mod stops;
