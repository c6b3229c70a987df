//! The words of a feed: `feed make` makes the file of its marks, and `feed` makes the numbered changes of its input on the cache.
//!
//! Promises: each status of `run_feed` has its cause (`specs/Ends.antt`): each line is answered by the row of its change, from the marks
//! and the cache as they were opened on, and what is written is these answers in the order of the lines (`specs/Run.antt`). At every
//! moment an image of the marks ends in a mark of a stand that the run led through, and a crash leaves a cache that answers for every
//! truncation that was in force. An outbox that is lent is opened and closed here too, for the words that work on one beside marks.
//! Stands on change_feed, whose feed it runs, on opened_cache, by which it opens the cache and closes it, on command_setup for the
//! catalogue, on command_status for how it ends, on job_forms for covers, on tile_service and tile_requests for lines and small texts,
//! and on the crates whose types its calls name.
#![tactic(auto)]

mod fed;
mod feeding;
mod line;
mod lines;
mod making;
mod marks;
mod orders;
mod outboxes;
mod text;
mod word;
mod words;

pub use line::FeedLineEnd;
pub use lines::FeedLinesEnd;
pub use marks::{closed_marks, opened_marks};
pub use orders::UnreadChange;
pub use outboxes::{closed_outbox, opened_outbox};
pub use word::run_feed;
pub use words::{FeedWord, feed_word};
