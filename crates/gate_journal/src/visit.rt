//! The trait of those that are shown the records of a journal while it is opened.
ghost use Rattle.std.specs.Prelude.{ℕ, List, OnOk, OnErr};

use std::alloc::{AllocError, Global};

/// A visitor of records.
pub trait Visit {
    /// What a visit of a slot with this body makes of a visitor.
    ghost visits: { ℕ → List ℕ → Self → Self → Type 0 };

    /// What a visitor is left as that refuses a visit, since memory ran out.
    ghost leaves: { Self → Self → Type 0 };

    /// Visits a record: the slot of its half that it stands in, counted from 0, and its body.
    fn body(&mut self, alloc: Global, slot: u64, body: &[u8; 63]) -> Result<(), AllocError>
        ensures visited { OnOk result (visits slot body.now self.old self.new) }
        ensures left { OnErr result (leaves self.old self.new) };
}
