//! Upkeep over any access: uses are saved, and metatiles are dropped, one turn each.
ghost use Rattle.cache_access.specs.KeepsUp.{KeepsUp, dropping, saving};
ghost use Rattle.cache_access.specs.Turned.{Goes};

use crate::access::Access;
use crate::upkept::Upkept;
use cabinet::{Expired, Saved};

/// Saves the uses of one metatile after the other, one turn each, until all are saved, the disk fails, or `most` turns were made. It takes
/// no memory.
pub fn save_uses_of<A: Access>(access: &A, cache: &mut A::Cache, most: u64) -> Upkept
    requires { A.reaches access.now cache.old }
    ensures keeps_up { KeepsUp (A.gains access.now) saving most cache.old cache.new result }
    ensures goes { Goes (A.catalogue access.now) (A.reaches access.now) (A.owes access.now) (A.lasts access.now) cache.old cache.new }
    ensures still { A.sound access.now cache.old → A.sound access.now cache.new }
    ensures rests { A.rests access.now cache.old → A.rests access.now cache.new }
{
    'saving: for metatiles in 0..most {
        match access.save_uses(cache) {
            Saved::Done(_) => {}
            Saved::Within => return Upkept::Done(metatiles),
            Saved::DiskFault(_, _) => return Upkept::DiskFault(metatiles),
        }
    }
    Upkept::Stopped
}

/// Drops one metatile after the other, one turn each, until no quota is exceeded, the disk fails, or `most` turns were made. It takes no
/// memory.
pub fn expire_until_within<A: Access>(access: &A, cache: &mut A::Cache, most: u64) -> Upkept
    requires { A.reaches access.now cache.old }
    ensures keeps_up { KeepsUp (A.gains access.now) dropping most cache.old cache.new result }
    ensures goes { Goes (A.catalogue access.now) (A.reaches access.now) (A.owes access.now) (A.lasts access.now) cache.old cache.new }
    ensures still { A.sound access.now cache.old → A.sound access.now cache.new }
    ensures rests { A.rests access.now cache.old → A.rests access.now cache.new }
{
    'dropping: for metatiles in 0..most {
        match access.expire(cache) {
            Expired::Dropped(_) => {}
            Expired::Within => return Upkept::Done(metatiles),
            Expired::DiskFault(_, _) => return Upkept::DiskFault(metatiles),
        }
    }
    Upkept::Stopped
}
