//! Where a key stands, or is meant to stand, among the chunks.
ghost use Rattle.std.specs.Prelude.{IfNone, IfSome, None, length, slice_index_or, take, true, ◌<◌, ◌≡◌};
ghost use Rattle.kept_areas.specs.Areas.{all_spots, number_in};
ghost use Rattle.kept_areas.specs.Kept.{chunk_at};
ghost use Rattle.metatile_plan.specs.Keys.{same_meta};

use crate::area::Area;
use crate::spot::KeptSpot;
use metatile_plan::MetaKey;

/// Where a key stands.
#[derive(Clone, Copy)]
pub struct Place {
    /// The number of its chunk.
    pub chunk: usize,
    pub index: usize,
    /// Whether it isn't where it is meant to stand.
    pub is_stray: bool,
}

/// The first so many chunks; all of them where there are no more.
pub fn first_of(chunks: &[Area], used: usize) -> &[Area]
    ensures { result.now ≡ take used chunks.now }
{
    if used >= chunks.len() {
        return chunks;
    }
    &chunks[..used]
}

/// The chunk in which a key is meant to stand: the last one that is for it, or else the first.
pub fn chunk_for(chunks: &[Area], meta: &MetaKey) -> usize
    requires some { 0 < length chunks.now }
    ensures { result < length chunks.now }
{
    let mut low = 0;
    let mut high = chunks.len();
    'halving: while high - low > 1 {
        let middle = low + (high - low) / 2;
        if chunks[middle].is_for(meta) {
            low = middle;
        } else {
            high = middle;
        }
    }
    low
}

/// The place of a metatile, looked for in all chunks.
fn search(chunks: &[Area], meta: &MetaKey) -> Option<Place>
    ensures known { IfSome result (λ place. place.chunk < length chunks.now) }
    ensures within { IfSome result (λ place. place.index < length (chunk_at chunks.now place.chunk)) }
    ensures at { IfSome result (λ place. (d : KeptSpot) → same_meta (slice_index_or (chunk_at chunks.now place.chunk) place.index d).meta meta.now ≡ true) }
    ensures none { IfNone result (number_in (all_spots chunks.now) meta.now ≡ None) }
{
    let mut chunk = 0;
    'searching: while chunk < chunks.len() {
        match chunks[chunk].index_of(meta) {
            Some(index) => {
                return Some(Place {
                    chunk,
                    index,
                    is_stray: true,
                });
            }
            None => chunk += 1,
        }
    }
    None
}

/// The place of a metatile; `None` exactly where it isn't there.
pub fn place_of(chunks: &[Area], meta: &MetaKey) -> Option<Place>
    ensures known { IfSome result (λ place. place.chunk < length chunks.now) }
    ensures within { IfSome result (λ place. place.index < length (chunk_at chunks.now place.chunk)) }
    ensures at { IfSome result (λ place. (d : KeptSpot) → same_meta (slice_index_or (chunk_at chunks.now place.chunk) place.index d).meta meta.now ≡ true) }
    ensures none { IfNone result (number_in (all_spots chunks.now) meta.now ≡ None) }
{
    if chunks.is_empty() {
        return None;
    }
    let chunk = chunk_for(chunks, meta);
    match chunks[chunk].guess(meta) {
        Some(index) => Some(Place {
            chunk,
            index,
            is_stray: false,
        }),
        None => search(chunks, meta),
    }
}
