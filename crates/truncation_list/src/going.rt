//! Whether a cut goes by itself at a purge: by the cover that comes, or by its number.
ghost use Rattle.std.specs.Prelude.{◌≡◌};
ghost use Rattle.truncation_list.specs.Purge.{is_old, is_within};
ghost use Rattle.truncation_list.specs.Slots.{stays};

use crate::book::Cut;
use crate::containing::contains;
use crate::cover::Cover;

fn is_within(cover: &Option<Cover>, cut: &Cut) -> bool
    ensures { result ≡ is_within cover.now cut.now }
{
    match cover {
        None => false,
        Some(outer) => contains(outer, &cut.cover),
    }
}

/// Whether a cut meets the test on numbers.
pub fn is_old(least: Option<u64>, cut: &Cut) -> bool
    ensures { result ≡ is_old least cut.now }
{
    match least {
        None => true,
        Some(least) => cut.number < least,
    }
}

/// Whether a cut stays by itself.
pub fn stays(cover: &Option<Cover>, least: Option<u64>, cut: &Cut) -> bool
    ensures { result ≡ stays cover.now least cut.now }
{
    !(is_within(cover, cut) || is_old(least, cut))
}
