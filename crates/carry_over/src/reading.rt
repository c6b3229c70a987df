//! How a blob is read from the disk of the old cache, in the pieces that it was written for.
ghost use Rattle.std.specs.Prelude.{◌≡◌, ◌≤◌, ◌<◌, ◌^◌, ◌+◌, ◌++◌, true, false, IfOk, IfSome, IsTrue, None, length};
ghost use Rattle.base.specs.Causes.{Rose};
ghost use Rattle.disk_model.specs.Content.{Same, bytes_at};
ghost use Rattle.disk_model.specs.Images.{ChangesBy};

use disk_model::{BlobPart, Disk};
use std::alloc::{AllocError, Global};

/// Reads a part of a blob and puts it behind what was read of it; `false` only where the disk's count of faults rose. `AllocError` where memory runs out.
fn read_more<D: Disk>(
    alloc: Global,
    disk: &mut D,
    part: BlobPart,
    at: u64,
    count: u32,
    blob: &mut Vec<u8>,
) -> Result<bool, AllocError>
    requires { at + count ≤ 2 ^ 62 }
    ensures told { D.told disk.new ≡ D.told disk.old }
    ensures quiet { IsTrue (D.told disk.old) → ChangesBy Same (D.state disk.old) (D.state disk.new) }
    ensures long { IfOk result (λ is. is ≡ true → length blob.new.items ≡ length blob.old.items + count) }
    ensures read { IfOk result (λ is. is ≡ true → IsTrue (D.told disk.old) → blob.new.items ≡ blob.old.items ++ bytes_at (D.state disk.old).seen at count) }
    ensures failed { IfOk result (λ is. is ≡ false → Rose (D.faults disk.old) (D.faults disk.new)) }
    ensures later { D.faults disk.old ≤ D.faults disk.new }
{
    let mut tile = match vec![in alloc; 0; count as usize] {
        Err(fault) => return Err(fault),
        Ok(tile) => tile,
    };
    match disk.read_of(part, at, tile.as_mut_slice()) {
        Err(_) => Ok(false),
        Ok(()) => match blob.extend_from_slice(tile.as_slice()) {
            Err(_) => Err(AllocError),
            Ok(()) => Ok(true),
        },
    }
}

/// Reads so many bytes of the blob of the render of a number from a place of the disk on, in pieces; `None` only where the disk's count of faults rose.
/// `AllocError` where memory runs out. The disk is only read.
pub fn read_blob<D: Disk>(
    alloc: Global,
    disk: &mut D,
    number: u64,
    at: u64,
    size: u32,
    piece: u32,
) -> Result<Option<Vec<u8>>, AllocError>
    requires some { 1 ≤ piece }
    requires end { at + size ≤ 2 ^ 62 }
    ensures told { D.told disk.new ≡ D.told disk.old }
    ensures quiet { IsTrue (D.told disk.old) → ChangesBy Same (D.state disk.old) (D.state disk.new) }
    ensures long { IfOk result (λ text. IfSome text (λ blob. length blob.items ≡ size)) }
    ensures read { IsTrue (D.told disk.old) → IfOk result (λ text. IfSome text (λ blob. blob.items ≡ bytes_at (D.state disk.old).seen at size)) }
    ensures failed { IfOk result (λ text. text ≡ None → Rose (D.faults disk.old) (D.faults disk.new)) }
    ensures later { D.faults disk.old ≤ D.faults disk.new }
{
    let mut blob = Vec::new(alloc);
    let mut from = 0;
    'reading: while from < size {
        let left = size - from;
        let count = if piece < left { piece } else { left };
        let part = BlobPart { number, from };
        let is = match read_more(alloc, disk, part, at + u64::from(from), count, &mut blob) {
            Err(fault) => return Err(fault),
            Ok(is) => is,
        };
        if !is {
            return Ok(None);
        }
        from += count;
    }
    Ok(Some(blob))
}
