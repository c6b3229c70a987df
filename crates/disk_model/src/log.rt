//! The types of a log: a content with all that was ever done to it. Its calls stand in `make`: their clauses cite
//! definitions that name these types.
ghost use Rattle.std.specs.Prelude.{◌≡◌};
ghost use Rattle.disk_model.specs.Replay.{first_of, seen_after};

/// What one call did.
#[derive(Drop)]
pub enum Call {
    /// These bytes were written from this place on.
    Written(u64, Vec<u8>),
    /// These bytes were to be written from this place on, and the call failed.
    WriteFailed(u64, Vec<u8>),
    /// It was cut or grown to this length.
    Resized(u64),
    /// It was to be cut or grown to this length, and the call failed.
    CutFailed(u64),
    /// What was pending is on the disk.
    Synced,
}

/// A content with all that was ever done to it.
#[derive(Drop)]
pub struct Log {
    /// What it was at first. `None` where that is what it is.
    pub first: Option<Vec<u8>>,
    /// What each call since did, in order.
    pub calls: Vec<Call>,
    /// What it is now.
    pub bytes: Vec<u8>,
    ghost replayed: { bytes.items ≡ seen_after calls.items (first_of first bytes.items) },
}
