//! The file of a cache: a journal of records, with the blobs behind it, on one disk.
//!
//! Promises: `CacheFile::open` shows a visitor the records that the disk opens to, or says what it is instead. At every moment
//! of `ready` and `record` each image opens to the records from before the call, to what an undecided gate gave before it, or to
//! the records that the call brings (`Brings`), and at every moment of `put` and `read` to one of the first two (`Stays`). Each
//! image has the journal whole, and each blob that was held before the call but where `put` writes (`HasHeld`): all in
//! `specs/File.antt`. `laws_of_files` says what the images between two calls open to.
//! Stands on gate_journal, blob_store, disk_model, metatile_plan and base.
#![tactic(auto)]

mod file;
mod laws;
mod making;

pub use file::CacheFile;
pub use laws::laws_of_files;
pub use making::make;
