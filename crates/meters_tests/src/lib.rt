//! Tests of what a server tells its operator: the counts of several threads, the text of families, and names that are refused.
//!
//! It has no code of its own and promises nothing: what the text is, is proved in metrics_text.
//! Stands on metrics_text and server_meters, and on exact_ratio for the texts that they are called with.
#![tactic(auto)]

#[cfg(test)]
mod counts;
#[cfg(test)]
mod names;
#[cfg(test)]
mod texts;
