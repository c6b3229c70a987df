//! How a part of a blob, as an encoded tile, is read from a disk.
ghost use Rattle.std.specs.Prelude.{◌≡◌, ◌≤◌, ◌<◌, ◌+◌, ◌^◌, ℕ, List, IsTrue, length, take, drop, OnOk};
ghost use Rattle.base.specs.Causes.{HasCause};
ghost use Rattle.disk_model.specs.Content.{bytes_at, Same};
ghost use Rattle.disk_model.specs.Images.{Steps};

use disk_model::{BlobPart, Disk, Failed};
use metatile_plan::Span;

/// Reads a part of the blob of the render of this number at a place, which is of the length of `into`. Its end is below 2^62. `Failed`
/// only where the disk's count of faults rose. The disk is only read.
pub fn read_tile<D: Disk>(
    disk: &mut D,
    number: u64,
    place: u64,
    span: &Span,
    into: &mut [u8],
) -> Result<(), Failed>
    requires size { length into.old ≡ span.now.length }
    requires end { place + span.now.start + span.now.length < 2 ^ 62 }
    ensures told { D.told disk.new ≡ D.told disk.old }
    ensures bytes { IsTrue (D.told disk.old)
        → OnOk result (into.new ≡ bytes_at (D.state disk.old).seen (place + span.now.start) span.now.length) }
    // That is the part of the blob that stands there.
    ensures part { IsTrue (D.told disk.old) → (blob : List ℕ) → bytes_at (D.state disk.old).seen place (length blob) ≡ blob
        → span.now.start + span.now.length ≤ length blob → OnOk result (into.new ≡ take span.now.length (drop span.now.start blob)) }
    ensures steps { IsTrue (D.told disk.old) → Steps Same (D.state disk.old) (D.state disk.new) }
    ensures cause { HasCause (D.faults disk.old) (D.faults disk.new) result }
{
    let start = u64::from(span.start);
    let part = BlobPart {
        number,
        from: span.start,
    };
    disk.read_of(part, place + start, into)
}
