//! The sums of the tiles of one blob.
ghost use Rattle.std.specs.Prelude.{◌≡◌, ◌≤◌, ◌<◌, ◌+◌, ◌*◌, ◌^◌, IsTrue, OnOk, length};
ghost use Rattle.base.specs.Causes.{HasCause};
ghost use Rattle.cache_seal.specs.Fates.{AddsUp};
ghost use Rattle.cache_seal.specs.Seals.{HasSealed};
ghost use Rattle.cache_seal.specs.Tiles.{tiles_in};
ghost use Rattle.cache_seal.specs.Unread.{HaveFaults};
ghost use Rattle.disk_model.specs.Content.{Same};
ghost use Rattle.disk_model.specs.Images.{ChangesBy};

use crate::counting::SealTally;
use crate::judging::{SealRule, seal_tile};
use crate::tiles::{BlobTiles, nth_tile};
use disk_model::{Disk, Failed};

/// Looks after the sum of each tile of a blob, and counts what it came to. A tile is read into `into`, which is of its length. The disk is only
/// read, and no other sum is written. `Failed` only where the count of faults of the sums rose; the tiles before the one at which that happened
/// were looked after.
pub(crate) fn seal_blob<D: Disk, S: Disk>(
    rule: SealRule,
    disk: &mut D,
    sums: &mut S,
    tiles: BlobTiles,
    into: &mut [u8],
    tally: &mut SealTally,
) -> Result<(), Failed>
    requires grain { 8 < rule.grain }
    requires long { rule.grain ≤ tiles.length }
    requires size { length into.old ≡ tiles.length }
    requires within { tiles.count * tiles.length < 2 ^ 32 }
    requires end { tiles.at + tiles.count * tiles.length ≤ 2 ^ 62 }
    requires sum { AddsUp tally.old }
    requires room { tally.old.tiles < 2 ^ 62 }
    ensures disk_told { D.told disk.new ≡ D.told disk.old }
    ensures quiet { IsTrue (D.told disk.old) → ChangesBy Same (D.state disk.old) (D.state disk.new) }
    ensures disk_later { D.faults disk.old ≤ D.faults disk.new }
    ensures told { S.told sums.new ≡ S.told sums.old }
    ensures sealed { OnOk result (HasSealed (D.told disk.old) (S.told sums.old) rule.grain rule.anew (D.state disk.old).seen (tiles_in tiles) (S.state sums.old).seen (S.state sums.new).seen tally.old tally.new) }
    ensures sum { OnOk result (AddsUp tally.new) }
    ensures many { OnOk result (tally.new.tiles ≡ tally.old.tiles + tiles.count) }
    ensures unread { OnOk result (HaveFaults tally.old.unread tally.new.unread (D.faults disk.old) (D.faults disk.new) (S.faults sums.old) (S.faults sums.new)) }
    ensures cause { HasCause (S.faults sums.old) (S.faults sums.new) result }
{
    'sealing: for place in 0..tiles.count {
        let tile = nth_tile(tiles, place);
        let fate = match seal_tile(rule, disk, sums, tile, into) {
            Err(fault) => return Err(fault),
            Ok(fate) => fate,
        };
        tally.note(fate);
    }
    Ok(())
}
