//! The change that a line of a feed orders.
ghost use Rattle.std.specs.Prelude.{◌≡◌, IfOk};
ghost use Rattle.catalog.specs.Valid.{IsValid};
ghost use Rattle.feed_words.specs.Orders.{IsReadAs, change_in, number_in, with_cover, with_number};
ghost use Rattle.job_forms.specs.Cover.{cover_of};
ghost use Rattle.served_covers.specs.OfCatalogue.{IsCoverOf};

use catalog::Catalogue;
use change_feed::Change;
use job_forms::{JobFault, read_cover};
use schedule_text::{LINE_LIMIT, digits_len};
use std::alloc::Global;
use wmts_kvp::{is_number, short_number};

/// Why a line gives no change.
#[derive(Clone, Copy, PartialEq, Eq)]
pub enum UnreadChange {
    /// It isn't a number, one blank and a cover, or the cover is refused.
    Refused,
    /// Memory ran out.
    OutOfMemory,
}

/// The number of 1 to 18 digits without a leading zero; none where a text is no such number.
#[tactic(auto, using(wmts_kvp::proofs::Numbers::digits_of_number))]
fn number_in(text: &[u8]) -> Option<u64>
    ensures { result ≡ number_in text.now }
{
    if text.len() > 18 {
        return None;
    }
    if !is_number(text) {
        return None;
    }
    if text[0] == b'0' {
        return None;
    }
    Some(short_number(text))
}

/// The change of a number, and of the cover that a text is.
fn change_with(
    alloc: Global,
    catalogue: &Catalogue,
    number: u64,
    text: &[u8],
) -> Result<Change, UnreadChange>
    requires { IsValid catalogue.now }
    ensures reads { IsReadAs (with_cover number (cover_of catalogue.now text.now)) result }
    ensures of { IfOk result (λ change. IsCoverOf catalogue.now change.cover) }
{
    match read_cover(alloc, catalogue, text) {
        Ok(cover) => Ok(Change { number, cover }),
        Err(JobFault::OutOfMemory) => Err(UnreadChange::OutOfMemory),
        Err(_) => Err(UnreadChange::Refused),
    }
}

/// The change that a line orders.
#[tactic(auto, unfolding(crate::specs::Orders::change_in))]
pub(crate) fn read_change(
    alloc: Global,
    catalogue: &Catalogue,
    line: &[u8],
) -> Result<Change, UnreadChange>
    requires { IsValid catalogue.now }
    ensures reads { IsReadAs (change_in catalogue.now line.now) result }
    ensures of { IfOk result (λ change. IsCoverOf catalogue.now change.cover) }
{
    if line.len() > LINE_LIMIT {
        return Err(UnreadChange::Refused);
    }
    let (digits, behind) = line.split_at(digits_len(line));
    let [b' ', text @ ..] = behind else {
        return Err(UnreadChange::Refused);
    };
    match number_in(digits) {
        Some(number) => change_with(alloc, catalogue, number, text),
        None => Err(UnreadChange::Refused),
    }
}
