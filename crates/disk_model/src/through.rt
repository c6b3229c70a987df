//! A write that is on the disk once it has succeeded.
ghost use Rattle.std.specs.Prelude.{◌≡◌, ◌≤◌, ◌+◌, ◌^◌, IsTrue, length, OnOk};
ghost use Rattle.base.specs.Causes.{HasCause};
ghost use Rattle.disk_model.specs.Content.{written, TornWrite};
ghost use Rattle.disk_model.specs.Images.{Only, ChangesBy};

use crate::blob_part::BlobPart;
use crate::disk::{Disk, Failed};

/// Writes from a place on, and syncs. After `Ok` the bytes are on the disk; at each moment nothing but their range, and the
/// part past the old end, may be other than before. `Failed` only where the disk's count of faults rose.
pub fn write_through<D: Disk>(disk: &mut D, at: u64, bytes: &[u8]) -> Result<(), Failed>
    requires { at + length bytes.now ≤ 2 ^ 62 }
    ensures told { D.told disk.new ≡ D.told disk.old }
    ensures written { IsTrue (D.told disk.old)
        → OnOk result ((D.state disk.new).seen ≡ written at bytes.now (D.state disk.old).seen) }
    ensures durable { IsTrue (D.told disk.old)
        → OnOk result (Only (D.state disk.new).seen (D.state disk.new).may_leave) }
    ensures changes { IsTrue (D.told disk.old)
        → ChangesBy (TornWrite at (length bytes.now)) (D.state disk.old) (D.state disk.new) }
    ensures cause { HasCause (D.faults disk.old) (D.faults disk.new) result }
{
    disk.write_at(at, bytes)?;
    disk.sync()?;
    Ok(())
}

/// Writes a part of a blob, which will be read in pieces of this length, from a place on, and syncs, as `write_through` does.
pub fn write_through_of<D: Disk>(
    disk: &mut D,
    part: BlobPart,
    piece: u32,
    at: u64,
    bytes: &[u8],
) -> Result<(), Failed>
    requires { at + length bytes.now ≤ 2 ^ 62 }
    ensures told { D.told disk.new ≡ D.told disk.old }
    ensures written { IsTrue (D.told disk.old)
        → OnOk result ((D.state disk.new).seen ≡ written at bytes.now (D.state disk.old).seen) }
    ensures durable { IsTrue (D.told disk.old)
        → OnOk result (Only (D.state disk.new).seen (D.state disk.new).may_leave) }
    ensures changes { IsTrue (D.told disk.old)
        → ChangesBy (TornWrite at (length bytes.now)) (D.state disk.old) (D.state disk.new) }
    ensures cause { HasCause (D.faults disk.old) (D.faults disk.new) result }
{
    disk.write_of(part, piece, at, bytes)?;
    disk.sync()
}
