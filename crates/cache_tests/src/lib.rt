//! Tests of the crates of truncations, of the cache and of threads: their calls one after the other, and two threads at one
//! turnstile and at one sheet of places.
//!
//! It has no code of its own and promises nothing: what the crates promise is proved in each of them. What a whole run of the
//! program shows, as an expiry or a full list of cuts, is tested there.
//! Stands on truncation_list, metatile_locks, kept_areas, quota_ledger, expiry_policy, cabinet, cache_core, turnstile and job_board, and on
//! source_render, raster_field, metatile_plan, catalog, matrix_geometry and exact_ratio for what they are called with.
#![tactic(auto)]

#[cfg(test)]
mod accounts;
#[cfg(test)]
mod areas;
#[cfg(test)]
mod cabinets;
#[cfg(test)]
mod counter;
#[cfg(test)]
mod expiries;
#[cfg(test)]
mod fairness;
#[cfg(test)]
mod pair;
#[cfg(test)]
mod renders;
#[cfg(test)]
mod requests;
#[cfg(test)]
mod shares;
#[cfg(test)]
mod single;
#[cfg(test)]
mod truncations;
#[cfg(test)]
mod turnstiles;
