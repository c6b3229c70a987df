//! The words of a link: `lead` sends what a leader has posted to a follower, and `follow` makes the changes that a leader sends.
//!
//! Promises: each end of `run_link` has its cause (`specs/Ends.antt`). A leader's outbox is opened, and its posts go over the link, each
//! once for each time that it was the first that wasn't heard as seen. A follower's cache and marks are opened, and each change that
//! arrives is made by its row and told as seen; at every moment an image of the marks ends in a mark of a stand that the arrivals led
//! through, and a crash leaves a cache that answers for every truncation that was in force. That both sides stay in step over any
//! such links is a law of cut_follower's.
//! Stands on cut_follower, whose two calls it makes, on outbox, change_feed and opened_cache for what they work on, on feed_words for marks
//! and outboxes that are lent, on command_setup for the catalogue, on command_status for how it ends, and on the crates whose types its
//! calls name.
#![tactic(auto)]

mod ends;
mod follow;
mod followed;
mod lead;
mod link;
mod words;

pub use ends::LinkingEnd;
pub use link::run_link;
pub use words::{LinkWord, link_word};
