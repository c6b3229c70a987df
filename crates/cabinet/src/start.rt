//! What a cabinet is opened with, for contracts.
ghost use Rattle.std.specs.Prelude.{[], Some, length, slice_get, ◌<◌, ◌≡◌};

use crate::kept::Kept;
use base::Trace;
use truncation_list::{Cut, CutList};

/// The opening of a cabinet: its number and its floor, and what was kept and which cuts were in force then, which contracts alone
/// read.
#[derive(Drop)]
pub struct TracedOpening {
    pub number: u32,
    pub floor: u64,
    pub kept: Trace<Kept>,
    pub cuts: Trace<Cut>,
}

/// A trace of what is kept.
fn trace_of_kept(kept: &[Kept]) -> Trace<Kept>
    ensures { result.entries ≡ kept.now }
{
    let mut notes = Trace::new();
    'noting: for at in 0..kept.len() {
        notes = notes.and(&kept[at]);
    }
    notes
}

/// A cut of a list, by its place.
fn cut_of(cuts: &CutList, at: u32) -> Cut
    requires { at < length cuts.now.book.cuts }
    ensures { slice_get cuts.now.book.cuts at ≡ Some result }
{
    let (number, cover) = cuts.cut_at(at);
    Cut { number, cover }
}

/// A trace of the cuts in force.
fn trace_of_cuts(cuts: &CutList) -> Trace<Cut>
    ensures { result.entries ≡ cuts.now.book.cuts }
{
    let mut notes = Trace::new();
    'noting: for at in 0..cuts.count() {
        notes = notes.and(&cut_of(cuts, at));
    }
    notes
}

impl TracedOpening {
    /// An opening with nothing in it, under the number 0.
    pub fn bare() -> TracedOpening
        ensures number { result.number ≡ 0 }
        ensures floor { result.floor ≡ 0 }
        ensures kept { result.kept.entries ≡ [] }
        ensures cuts { result.cuts.entries ≡ [] }
    {
        TracedOpening {
            number: 0,
            floor: 0,
            kept: Trace::new(),
            cuts: Trace::new(),
        }
    }

    /// An opening under a number, with what is kept and the cuts in force.
    pub fn of(number: u32, kept: &[Kept], cuts: &CutList) -> TracedOpening
        ensures number { result.number ≡ number }
        ensures floor { result.floor ≡ cuts.now.book.floor }
        ensures kept { result.kept.entries ≡ kept.now }
        ensures cuts { result.cuts.entries ≡ cuts.now.book.cuts }
    {
        TracedOpening {
            number,
            floor: cuts.floor(),
            kept: trace_of_kept(kept),
            cuts: trace_of_cuts(cuts),
        }
    }
}
