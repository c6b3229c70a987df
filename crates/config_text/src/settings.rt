//! What the outermost object says before its lists, as one value.
use catalog::Policy;

/// The members of the outermost object before its lists.
#[derive(Clone, Copy)]
pub struct Settings {
    pub source: u32,
    pub kept_limit: u32,
    pub cut_limit: u32,
    pub blob_bytes: u64,
    pub quota: Option<u64>,
    pub policy: Policy,
}
