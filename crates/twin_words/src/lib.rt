//! The words of a twin: `twin make` makes a cache, its marks and an outbox, and `twin` runs the lines of its input on a leader and a
//! follower that stand in one place, over a link that loses, repeats and reorders what is sent.
//!
//! Promises: each status of `run_twin` has its cause (`specs/Ends.antt`). What happened is a list of steps that the lines order one by one,
//! the stops among them, and what went out is their texts. Whatever lossy link the three files stand for, the openings and the steps are
//! events of it: where it is in step, so is what each step leaves, and each tile that is answered has a number above each cut that was
//! applied before and covers it (`specs/Promised.antt`); and what a crash leaves at the end is what it may leave of the link then, so
//! that the next run goes on from there. A stop opens its side again: the cabinet under a greater number, and the outbox with nothing
//! heard (`specs/Opens.antt`). At every moment a crash leaves a cache that answers for every truncation that was in force, marks of a
//! stand along the steps, and posts along them.
//! Stands on twin_lines, by which it runs lines, on twin_events for the twin, on opened_cache and feed_words for caches, marks and
//! outboxes that are lent, on cut_follower for what a lossy link promises, on command_setup for the catalogue, on command_status for how it ends, and on the
//! crates whose types its calls name.
#![tactic(auto)]

mod cabinets;
mod disks;
mod feeds;
mod making;
mod opening;
mod running;
mod stopping;
mod twin;
mod words;

pub use cabinets::{Closed, closed_with_clock, opened_cabinet};
pub use disks::{TwinDisks, Unfollowed, Unopened};
pub use feeds::opened_feed;
pub use twin::run_twin;
pub use words::{TwinWord, twin_word};
