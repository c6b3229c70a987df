//! What becomes of the sum of one tile.
ghost use Rattle.std.specs.Prelude.{◌≡◌, ◌≢◌, ◌⊎◌, ◌≤◌, ◌<◌, ◌+◌, ◌/◌, ◌^◌, ◌∷◌, [], ℕ, true, false, IfOk, IsTrue, OnOk, length};
ghost use Rattle.base.specs.Causes.{HasCause, Rose};
ghost use Rattle.cache_seal.specs.Fates.{Becomes};
ghost use Rattle.cache_seal.specs.Seals.{AreSealed};
ghost use Rattle.disk_model.specs.Content.{Same};
ghost use Rattle.disk_model.specs.Images.{ChangesBy};
ghost use Rattle.summed_disk.specs.Entries.{entry_at, sum_at};

use crate::counting::Fate;
use crate::tiles::DiskTile;
use disk_model::{BlobPart, Disk, Failed};
use summed_disk::{part_sum, read_sum, write_sum};

/// How sums are looked after.
#[derive(Clone, Copy, PartialEq, Eq)]
pub struct SealRule {
    /// No tile has fewer bytes, so that no two begin in one grain of so many.
    pub grain: u32,
    /// Whether a sum that isn't that of its tile is written anew.
    pub anew: bool,
}

/// Whether another sum than that of the tile stays: one was written, and none is made anew.
fn stays(found: u64, anew: bool) -> bool
    ensures there { result ≡ true → found ≢ 0 }
    ensures kept { result ≡ true → anew ≡ false }
    ensures goes { result ≡ false → (found ≡ 0) ⊎ IsTrue anew }
{
    found != 0 && !anew
}

/// What becomes of the sum at a place of the disk, where the tile that begins there has this one. `Failed` only where the count of faults of the
/// sums rose.
fn judge<S: Disk>(sums: &mut S, rule: SealRule, at: u64, sum: u64) -> Result<Fate, Failed>
    requires grain { 8 < rule.grain }
    requires at { at ≤ 2 ^ 62 }
    ensures told { S.told sums.new ≡ S.told sums.old }
    ensures becomes { IsTrue (S.told sums.old) → IfOk result (Becomes rule.anew sum (sum_at (S.state sums.old).seen rule.grain at) (sum_at (S.state sums.new).seen rule.grain at)) }
    ensures others { IsTrue (S.told sums.old) → OnOk result ((k : ℕ) → k ≢ at / rule.grain → entry_at (S.state sums.new).seen k ≡ entry_at (S.state sums.old).seen k) }
    ensures unread { IfOk result (λ fate. fate ≡ Fate.Unread → Rose (S.faults sums.old) (S.faults sums.new)) }
    ensures cause { HasCause (S.faults sums.old) (S.faults sums.new) result }
{
    let found = match read_sum(sums, rule.grain, at) {
        Err(_) => return Ok(Fate::Unread),
        Ok(found) => found,
    };
    if found == sum {
        return Ok(Fate::Fitted);
    }
    if stays(found, rule.anew) {
        return Ok(Fate::Unfit);
    }
    match write_sum(sums, rule.grain, at, sum) {
        Err(fault) => Err(fault),
        Ok(()) => Ok(Fate::Sealed),
    }
}

/// Reads a tile, and looks after its sum. The disk is only read, and no other sum is written. `Failed` only where the count of faults of the
/// sums rose.
pub(crate) fn seal_tile<D: Disk, S: Disk>(
    rule: SealRule,
    disk: &mut D,
    sums: &mut S,
    tile: DiskTile,
    into: &mut [u8],
) -> Result<Fate, Failed>
    requires grain { 8 < rule.grain }
    requires at { tile.at + tile.length ≤ 2 ^ 62 }
    requires size { length into.old ≡ tile.length }
    ensures disk_told { D.told disk.new ≡ D.told disk.old }
    ensures quiet { IsTrue (D.told disk.old) → ChangesBy Same (D.state disk.old) (D.state disk.new) }
    ensures disk_later { D.faults disk.old ≤ D.faults disk.new }
    ensures told { S.told sums.new ≡ S.told sums.old }
    ensures sealed { IsTrue (D.told disk.old) → IsTrue (S.told sums.old) → IfOk result (λ fate. AreSealed rule.grain rule.anew (D.state disk.old).seen (tile ∷ []) (fate ∷ []) (S.state sums.old).seen (S.state sums.new).seen) }
    ensures unread { IfOk result (λ fate. fate ≡ Fate.Unread → Rose (D.faults disk.old) (D.faults disk.new) ⊎ Rose (S.faults sums.old) (S.faults sums.new)) }
    ensures cause { HasCause (S.faults sums.old) (S.faults sums.new) result }
{
    let part = BlobPart {
        number: tile.number,
        from: tile.from,
    };
    match disk.read_of(part, tile.at, into) {
        Err(_) => Ok(Fate::Unread),
        Ok(()) => judge(sums, rule, tile.at, part_sum(part, into)),
    }
}
