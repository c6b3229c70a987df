//! Tests of the crates of texts and numbers: values from outside, and one call of each of their public functions.
//!
//! It has no code of its own and promises nothing: what the crates promise is proved in each of them. What a whole run of the
//! program shows is tested there.
//! Stands on exact_ratio, matrix_geometry, catalog, json_forms, config_text, dimension_key, exception_report and command_words.
#![tactic(auto)]

#[cfg(test)]
mod catalogue_texts;
#[cfg(test)]
mod catalogues;
#[cfg(test)]
mod dimensions;
#[cfg(test)]
mod json;
#[cfg(test)]
mod matrices;
#[cfg(test)]
mod numbers;
#[cfg(test)]
mod reports;
#[cfg(test)]
mod serve_words;
