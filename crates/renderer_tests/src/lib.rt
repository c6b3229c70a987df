//! Tests of a renderer over HTTP: of the text that names one, and of the source that asks it, over the loopback.
//!
//! It has no code of its own and promises nothing.
//! Stands on http_source and renderer_link, and on the crates of what they are called with.
#![tactic(auto)]

#[cfg(test)]
mod renders;
#[cfg(test)]
mod stand;
#[cfg(test)]
mod texts;
