//! Tests of the crates of requests: streams in all their pieces, faults of links and files, and one call of each reader. Tests of
//! jobs too: their texts, and their places on a catalogue with dimensions and metatiles of four tiles.
//!
//! It has no code of its own and promises nothing: what the crates promise is proved in each of them. What a whole run of the
//! program shows, as most refusals, is tested there.
//! Stands on wmts_kvp, wmts_rest, http_wire, http_answer, window_request, schedule_text, job_forms and served_covers, and on exception_report,
//! truncation_list, metatile_plan, catalog, matrix_geometry and exact_ratio for what they give and take.
#![tactic(auto)]

#[cfg(test)]
mod answers;
#[cfg(test)]
mod covers;
#[cfg(test)]
mod job_places;
#[cfg(test)]
mod job_texts;
#[cfg(test)]
mod lines;
#[cfg(test)]
mod messages;
#[cfg(test)]
mod paths;
#[cfg(test)]
mod queries;
#[cfg(test)]
mod streams;
#[cfg(test)]
mod windows;
