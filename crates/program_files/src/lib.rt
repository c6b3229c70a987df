//! The files, the streams, the connection and the source of pictures that the program works with.
//!
//! Promises: a call of the cache's file, of an input, of a connection, of a listener, or of the source fails only where its count of faults
//! rose in that call. What the files hold, what comes over a connection, and what the system does with them, no clause says: this is trusted, and tried.
//! Stands on disk_model, http_wire, source_render and renderer_link, whose forms of a file, of standard input and of a source it chooses
//! among, on http_source, by which it reads which renderer is asked, on summed_disk, and on base.
#![tactic(auto)]

mod cache_disk;
mod cells_form;
mod counted_disk;
mod counted_source;
mod input;
mod program_source;
mod source_choice;
mod source_fault;
mod stream_link;
mod watched_cache;
mod watched_listener;

pub use cache_disk::CacheDisk;
pub use cells_form::{CellsFault, cells_fault};
pub use counted_disk::CountedDisk;
pub use counted_source::CountedSource;
pub use input::Input;
pub use program_source::ProgramSource;
pub use source_choice::{RENDERER_LIMIT, SourceChoice};
pub use source_fault::SourceFault;
pub use stream_link::StreamLink;
pub use watched_cache::{CacheFiles, Watch, WatchedCache};
pub use watched_listener::WatchedListener;
