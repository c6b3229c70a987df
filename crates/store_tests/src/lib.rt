//! Tests of the crates of the store: layouts to the byte, each moment at which a disk stops, and one real file.
//!
//! It has no code of its own and promises nothing: what the crates promise is proved in each of them.
//! Stands on disk_model, gate_journal, record_text, extent_map, blob_store, cache_file, summed_disk and outbox, on metatile_plan, truncation_list and
//! matrix_geometry for the fields of records, and on fixtures, catalog and served_covers for an outbox.
#![tactic(auto)]

#[cfg(test)]
mod blobs;
#[cfg(test)]
mod disks;
#[cfg(test)]
mod extents;
#[cfg(test)]
mod files;
#[cfg(test)]
mod images;
#[cfg(test)]
mod journals;
#[cfg(test)]
mod outboxes;
#[cfg(test)]
mod packets;
#[cfg(test)]
mod records;
#[cfg(test)]
mod sums;
#[cfg(test)]
mod values;
