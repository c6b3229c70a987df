//! The path of a composite, in its segments.
ghost use Rattle.std.specs.List.{slice_split};
ghost use Rattle.std.specs.Prelude.{◌≡◌, ◌==◌, IfOk, codes, map, option_copied};
ghost use Rattle.composite_requests.specs.Routes.{before_ending, inside};
ghost use Rattle.wmts_rest.specs.Paths.{after, text_of};

use exact_ratio::Words;
use percent_encoding::percent_decode;
use std::alloc::{AllocError, Global};

/// What stands before `.ppm` or `.png`, where a text ends so.
fn before_ending(text: &[u8]) -> Option<&[u8]>
    ensures { option_copied result ≡ before_ending text.now }
{
    match text.strip_suffix(b".ppm") {
        Some(rest) => Some(rest),
        None => text.strip_suffix(b".png"),
    }
}

/// What stands behind `/composites/`, where a path begins so.
fn behind(path: &[u8]) -> Option<&[u8]>
    ensures { option_copied result ≡ after (codes "/composites/") path.now }
{
    path.strip_prefix(b"/composites/")
}

/// What stands between `/composites/` and the ending of a path that begins and ends so.
#[tactic(auto, unfolding(crate::specs::Routes::inside))]
pub fn inside(path: &[u8]) -> Option<&[u8]>
    ensures { option_copied result ≡ inside path.now }
{
    before_ending(behind(path)?)
}

/// The parts of a text between its slashes. `AllocError` where memory runs out.
pub fn segments_of(alloc: Global, text: &[u8]) -> Result<Vec<&[u8]>, AllocError>
    ensures { IfOk result (λ segments. map (λ s. s.now) segments.items ≡ slice_split (λ b. b == 47) text.now) }
{
    text.split(|byte| *byte == b'/').collect(alloc)
}

/// A segment as text, its escapes decoded, with U+FFFD for each sequence that isn't UTF-8. `AllocError` where memory runs out.
pub fn text_of(alloc: Global, segment: &[u8]) -> Result<Words, AllocError>
    ensures { IfOk result (λ text. text ≡ text_of segment.now) }
{
    let text = percent_decode(segment).decode_utf8_lossy(alloc)?;
    Ok(Words::of(text.into_owned(alloc)?.into_bytes()))
}
