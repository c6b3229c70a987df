//! The words of the command line: what they ask for.
//!
//! Promises: `top_call` tells which top call words are for, by the first of them, or the first two (`specs/TopCalls.antt`); `word_of` reads the words of a
//! command that runs once, in memory or on the cache of a disk (`specs/Words.antt`); `serve_words` reads those of a server
//! (`specs/ServeWords.antt`). It does nothing with them.
//! Stands on wmts_kvp for numbers, and on `clap` for the words of a server.
#![tactic(auto)]

mod server_words;
mod top_calls;
mod words;

pub use server_words::{ServeFault, ServeWords, serve_words};
pub use top_calls::{TopCall, top_call};
pub use words::{KeptWord, MemoryWord, UpkeepWord, Word, word_of};
