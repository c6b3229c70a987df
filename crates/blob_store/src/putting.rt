//! How a blob is put on a disk: written at its place, then synced.
ghost use Rattle.std.specs.Prelude.{◌≡◌, ◌<◌, ◌+◌, ◌^◌, IsTrue, length, OnOk};
ghost use Rattle.base.specs.Causes.{HasCause};
ghost use Rattle.blob_store.specs.Blob.{HasBlob};
ghost use Rattle.disk_model.specs.Content.{TornWrite};
ghost use Rattle.disk_model.specs.Images.{ChangesBy, Every, Only};

use disk_model::{BlobPart, Disk, Failed, write_through_of};

/// Writes the blob of the render of this number at a place, and syncs. Its tiles, of `piece` bytes each, will be read one by one. It may
/// lie past the disk's end, which then grows. Its end is below 2^62. `Failed` only where the disk's count of faults rose; the range, and
/// what is past the old end, may then hold any bytes.
pub fn put<D: Disk>(
    disk: &mut D,
    number: u64,
    piece: u32,
    place: u64,
    bytes: &[u8],
) -> Result<(), Failed>
    requires { place + length bytes.now < 2 ^ 62 }
    ensures told { D.told disk.new ≡ D.told disk.old }
    ensures put { IsTrue (D.told disk.old)
        → OnOk result (Every (D.state disk.new).may_leave (HasBlob place bytes.now (D.state disk.old).seen)) }
    ensures durable { IsTrue (D.told disk.old) → OnOk result (Only (D.state disk.new).seen (D.state disk.new).may_leave) }
    // Whatever comes of it, at each moment.
    ensures changes { IsTrue (D.told disk.old)
        → ChangesBy (TornWrite place (length bytes.now)) (D.state disk.old) (D.state disk.new) }
    ensures cause { HasCause (D.faults disk.old) (D.faults disk.new) result }
{
    let whole = BlobPart { number, from: 0 };
    write_through_of(disk, whole, piece, place, bytes)
}
