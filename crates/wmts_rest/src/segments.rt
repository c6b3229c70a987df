//! The segments of a tile's path, and their texts.
ghost use Rattle.std.specs.List.{list_all, slice_split};
ghost use Rattle.std.specs.Prelude.{◌≡◌, ◌==◌, nat_lt, IfOk, length, map, option_copied};
ghost use Rattle.wmts_rest.specs.Paths.{after, before, inside, inside_picture, are_segments, text_of};

use exact_ratio::Words;
use percent_encoding::percent_decode;
use std::alloc::{AllocError, Global};

fn after<'a>(front: &[u8], text: &'a [u8]) -> Option<&'a [u8]>
    ensures { option_copied result ≡ after front.now text.now }
{
    text.strip_prefix(front)
}

fn before<'a>(ending: &[u8], text: &'a [u8]) -> Option<&'a [u8]>
    ensures { option_copied result ≡ before ending.now text.now }
{
    text.strip_suffix(ending)
}

/// What stands between `/rest/wmts/` and `.ppm`, where a path begins and ends so.
#[tactic(auto, unfolding(crate::specs::Paths::inside))]
pub fn inside(path: &[u8]) -> Option<&[u8]>
    ensures { option_copied result ≡ inside path.now }
{
    before(b".ppm", after(b"/rest/wmts/", path)?)
}

/// What stands between `/png/` and `.png`, where a path begins and ends so.
#[tactic(auto, unfolding(crate::specs::Paths::inside_picture))]
pub fn inside_picture(path: &[u8]) -> Option<&[u8]>
    ensures { option_copied result ≡ inside_picture path.now }
{
    before(b".png", after(b"/png/", path)?)
}

/// The parts of a text between its slashes. `AllocError` where memory runs out.
pub fn segments_of(alloc: Global, text: &[u8]) -> Result<Vec<&[u8]>, AllocError>
    ensures { IfOk result (λ segments. map (λ s. s.now) segments.items ≡ slice_split (λ b. b == 47) text.now) }
{
    text.split(|byte| *byte == b'/').collect(alloc)
}

fn are_filled(segments: &[&[u8]]) -> bool
    ensures { result ≡ list_all (λ s. nat_lt 0 (length s)) (map (λ s. s.now) segments.now) }
{
    for segment in segments {
        if segment.is_empty() {
            return false;
        }
    }
    true
}

/// Whether these segments, of which the last one lost its ending, are those of a tile: 6 to 10, and none of them was empty.
#[tactic(auto, unfolding(crate::specs::Paths::are_segments))]
pub fn are_segments(segments: &[&[u8]]) -> bool
    ensures { result ≡ are_segments (map (λ s. s.now) segments.now) }
{
    match segments.len() {
        6..=10 => are_filled(&segments[..segments.len() - 1]),
        _ => false,
    }
}

/// A segment as text, its escapes decoded, with U+FFFD for each sequence that isn't UTF-8. `AllocError` where memory runs out.
pub fn text_of(alloc: Global, segment: &[u8]) -> Result<Words, AllocError>
    ensures { IfOk result (λ text. text ≡ text_of segment.now) }
{
    let text = percent_decode(segment).decode_utf8_lossy(alloc)?;
    Ok(Words::of(text.into_owned(alloc)?.into_bytes()))
}

/// Each segment as text. `AllocError` where memory runs out.
pub fn texts_of(alloc: Global, segments: &[&[u8]]) -> Result<Vec<Words>, AllocError>
    ensures { IfOk result (λ texts. texts.items ≡ map text_of (map (λ s. s.now) segments.now)) }
{
    let mut texts = Vec::new(alloc);
    for segment in segments {
        texts.push(text_of(alloc, segment)?)?;
    }
    Ok(texts)
}
