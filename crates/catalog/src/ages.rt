//! The age limit of a layer at a zoom.
ghost use Rattle.std.specs.Prelude.{◌≡◌};
ghost use Rattle.catalog.specs.AgeLimits.{age_limit, last_at, limit_of};

use crate::layer::{Age, Layer};

/// The last of these whose zoom is at most `z`.
#[tactic(auto, using(crate::proofs::Found::or_or))]
fn last_at(z: u32, ages: &[Age]) -> Option<Age>
    ensures { result ≡ last_at z ages.now }
{
    let mut found = None;
    for age in ages {
        if age.zoom <= z {
            found = Some(*age);
        }
    }
    found
}

/// No seconds are no limit.
fn limit_of(found: Option<Age>) -> Option<u32>
    ensures { result ≡ limit_of found }
{
    match found {
        None => None,
        Some(age) => if age.seconds == 0 {
            None
        } else {
            Some(age.seconds)
        },
    }
}

impl Layer {
    /// The greatest age in seconds at which a kept metatile of the layer may answer at zoom `z`: that of the last of its
    /// `ages` whose zoom is at most `z`. `None` exactly where there is no limit: no zoom of them is at most `z`, or the
    /// seconds there are 0.
    pub fn age_limit(&self, z: u32) -> Option<u32>
        ensures { result ≡ age_limit self.now z }
    {
        limit_of(last_at(z, self.ages.as_slice()))
    }
}
