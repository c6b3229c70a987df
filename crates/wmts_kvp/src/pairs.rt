//! The decoded pairs of a query, and the value of a name among them.
ghost use Rattle.std.specs.Prelude.{◌≡◌, IfOk, option_copied};
ghost use Rattle.wmts_kvp.specs.Pairs.{pairs_of, value_of};

use catalog::is_same;
use exact_ratio::Words;
use form_urlencoded::parse;
use std::alloc::{AllocError, Global};

/// The pairs of names and values of a query in order, decoded as a form is (URL Standard, section 5.1). `AllocError` where
/// memory runs out.
#[tactic(auto, unfolding(crate::specs::Pairs::pairs_of))]
pub fn pairs_of(alloc: Global, query: &[u8]) -> Result<Vec<(Words, Words)>, AllocError>
    ensures { IfOk result (λ pairs. pairs.items ≡ pairs_of query.now) }
{
    let mut pairs = Vec::new(alloc);
    for pair in parse(alloc, query).into_owned() {
        let (name, value) = pair?;
        pairs.push((Words::of(name.into_bytes()), Words::of(value.into_bytes())))?;
    }
    Ok(pairs)
}

/// The value of the first pair of this name, in whatever case.
pub fn value_of<'a>(pairs: &'a [(Words, Words)], name: &[u8]) -> Option<&'a [u8]>
    ensures { option_copied result ≡ value_of pairs.now name.now }
{
    for (key, value) in pairs {
        if is_same(key.bytes(), name) {
            return Some(value.bytes());
        }
    }
    None
}
