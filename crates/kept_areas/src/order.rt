//! The order in which keys are laid down, so that those near each other come to stand in one chunk. It only tells where to look
//! first: nothing that is promised rests on it.
ghost use Rattle.std.specs.Prelude.{length, ◌≤◌};

use crate::spot::KeptSpot;
use metatile_plan::MetaKey;

/// Whether one place comes before another along the curve that goes through the four quarters of each square in turn: the one
/// in the upper half does, or else the left one, of the largest square that parts them.
fn is_before_on_curve(a: &MetaKey, b: &MetaKey) -> bool {
    let rows = a.row ^ b.row;
    let cols = a.col ^ b.col;
    if rows < cols && rows < (rows ^ cols) {
        return a.col < b.col;
    }
    a.row < b.row
}

/// Whether two keys are of one place.
fn is_same_place(a: &MetaKey, b: &MetaKey) -> bool {
    a.row == b.row && a.col == b.col
}

/// Whether a key comes before another one.
pub fn is_before(a: &MetaKey, b: &MetaKey) -> bool {
    if a.theme.layer != b.theme.layer {
        return a.theme.layer < b.theme.layer;
    }
    if a.grid != b.grid {
        return a.grid < b.grid;
    }
    if a.z != b.z {
        return a.z < b.z;
    }
    if is_same_place(a, b) {
        return a.theme < b.theme;
    }
    is_before_on_curve(a, b)
}

/// How many of the spots come before a key.
pub fn place_in(spots: &[KeptSpot], meta: &MetaKey) -> usize
    ensures { result ≤ length spots.now }
{
    let mut low = 0;
    let mut high = spots.len();
    'halving: while low < high {
        let middle = low + (high - low) / 2;
        if is_before(&spots[middle].meta, meta) {
            low = middle + 1;
        } else {
            high = middle;
        }
    }
    low
}
