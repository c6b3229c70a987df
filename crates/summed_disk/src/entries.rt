//! The entries of a file of sums.
ghost use Rattle.std.specs.Prelude.{◌≡◌, ◌≢◌, ◌≤◌, ◌<◌, ◌+◌, ◌*◌, ◌/◌, ◌^◌, ℕ, IfOk, IsTrue, OnOk, drop, length, take};
ghost use Rattle.base.specs.Causes.{HasCause};
ghost use Rattle.byteorder.specs.Endian.{little_number};
ghost use Rattle.summed_disk.specs.Entries.{AreSummed, entry_at, sum_at};
ghost use Rattle.summed_disk.specs.Sum.{part_sum};

use crate::sum::part_sum;
use byteorder::{ByteOrder, LittleEndian};
use disk_model::{BlobPart, Disk, Failed};

/// The bytes of an entry.
fn entry_of(sum: u64) -> [u8; 8]
    ensures { little_number 8 result ≡ sum }
{
    let mut entry = [0; 8];
    LittleEndian::write_u64(&mut entry, sum);
    entry
}

/// Where the entry stands for what begins at a place of the disk. A grain is more than the eight bytes of an entry, so that the entries
/// end before the disk does.
fn entry_place(grain: u32, at: u64) -> u64
    requires grain { 8 < grain }
    requires at { at ≤ 2 ^ 62 }
    ensures place { result ≡ 8 * (at / grain) }
    ensures end { result + 8 ≤ 2 ^ 62 }
{
    8 * (at / u64::from(grain))
}

/// Reads the sum that stands for what begins at a place of the disk; 0 where none was written. `Failed` only where the count of faults of the
/// sums rose. They are only read.
pub fn read_sum<S: Disk>(sums: &mut S, grain: u32, at: u64) -> Result<u64, Failed>
    requires grain { 8 < grain }
    requires at { at ≤ 2 ^ 62 }
    ensures told { S.told sums.new ≡ S.told sums.old }
    ensures sum { IsTrue (S.told sums.old) → IfOk result (λ sum. sum ≡ sum_at (S.state sums.old).seen grain at) }
    ensures seen { IsTrue (S.told sums.old) → (S.state sums.new).seen ≡ (S.state sums.old).seen }
    ensures cause { HasCause (S.faults sums.old) (S.faults sums.new) result }
{
    let mut entry = [0; 8];
    sums.read(entry_place(grain, at), &mut entry)?;
    Ok(LittleEndian::read_u64(&entry))
}

/// Writes the sum for what begins at a place of the disk, and no other. `Failed` only where the count of faults of the sums rose; this one may
/// then be any.
pub fn write_sum<S: Disk>(sums: &mut S, grain: u32, at: u64, sum: u64) -> Result<(), Failed>
    requires grain { 8 < grain }
    requires at { at ≤ 2 ^ 62 }
    ensures told { S.told sums.new ≡ S.told sums.old }
    ensures sum { IsTrue (S.told sums.old) → OnOk result (sum_at (S.state sums.new).seen grain at ≡ sum) }
    ensures others { IsTrue (S.told sums.old) → OnOk result ((k : ℕ) → k ≢ at / grain
        → entry_at (S.state sums.new).seen k ≡ entry_at (S.state sums.old).seen k) }
    ensures cause { HasCause (S.faults sums.old) (S.faults sums.new) result }
{
    sums.write_at(entry_place(grain, at), &entry_of(sum))
}

/// Writes the sum of the piece of some bytes that begins at one of them.
fn write_piece<S: Disk>(
    sums: &mut S,
    grain: u32,
    part: BlobPart,
    piece: u32,
    at: u64,
    bytes: &[u8],
    start: usize,
) -> Result<(), Failed>
    requires grain { 8 < grain }
    requires within { start + piece ≤ length bytes.now }
    requires from { part.from + length bytes.now < 2 ^ 32 }
    requires end { at + length bytes.now ≤ 2 ^ 62 }
    ensures told { S.told sums.new ≡ S.told sums.old }
    ensures sum { IsTrue (S.told sums.old) → OnOk result
        (sum_at (S.state sums.new).seen grain (at + start) ≡ part_sum part.number (part.from + start) (take piece (drop start bytes.now))) }
    ensures others { IsTrue (S.told sums.old) → OnOk result ((k : ℕ) → k ≢ (at + start) / grain
        → entry_at (S.state sums.new).seen k ≡ entry_at (S.state sums.old).seen k) }
    ensures cause { HasCause (S.faults sums.old) (S.faults sums.new) result }
{
    let of = BlobPart {
        number: part.number,
        from: part.from + start as u32,
    };
    let sum = part_sum(of, &bytes[start..start + piece as usize]);
    write_sum(sums, grain, at + start as u64, sum)
}

/// Writes the sum of each whole piece of some bytes, which are those of a part of a blob and stand on the disk from a place on. A piece is
/// at least a grain, so that no two begin in one.
pub(crate) fn write_sums<S: Disk>(
    sums: &mut S,
    grain: u32,
    part: BlobPart,
    piece: u32,
    at: u64,
    bytes: &[u8],
) -> Result<(), Failed>
    requires grain { 8 < grain }
    requires piece { grain ≤ piece }
    requires from { part.from + length bytes.now < 2 ^ 32 }
    requires end { at + length bytes.now ≤ 2 ^ 62 }
    ensures told { S.told sums.new ≡ S.told sums.old }
    ensures sums { IsTrue (S.told sums.old) → OnOk result
        (AreSummed grain part.number part.from piece at bytes.now (S.state sums.old).seen (S.state sums.new).seen) }
    ensures cause { HasCause (S.faults sums.old) (S.faults sums.new) result }
{
    let size = piece as usize;
    for i in 0..bytes.len() / size {
        write_piece(sums, grain, part, piece, at, bytes, i * size)?;
    }
    Ok(())
}
