//! Tests of summed_disk, on disks of which contracts know the count of faults alone: what comes back is read from bytes. A tile has sixteen of
//! them, and a blob two tiles.
ghost use Rattle.std.specs.Prelude.{◌≤◌};

use disk_model::{BlobPart, Disk, Failed};
use fixtures::SilentDisk;
use std::alloc::{AllocError, Global};
use std::test::Fail;
use summed_disk::{SummedDisk, part_sum};

const BLOB: &[u8; 32] = b"first tile, 16 bsecond tile, 16b";

/// The render that the blob is of.
const NUMBER: u64 = 7;

/// Where the blob begins on the disk.
const PLACE: u64 = 37;

/// A disk with the blob and its sums, of which these calls on the sums fail, counted from 1.
fn with_blob(
    alloc: Global,
    checked: bool,
    fails: Vec<u64>,
) -> Result<SummedDisk<SilentDisk, SilentDisk>, AllocError> {
    let disk = SilentDisk::new(alloc, Vec::new(alloc), Vec::new(alloc));
    let sums = SilentDisk::new(alloc, Vec::new(alloc), fails);
    let mut summed = SummedDisk::new(disk, sums, checked, 16);
    let _ = write_blob(&mut summed);
    Ok(summed)
}

/// Writes the blob.
fn write_blob<D: Disk>(disk: &mut D) -> Result<(), Failed> {
    let whole = BlobPart {
        number: NUMBER,
        from: 0,
    };
    disk.write_of(whole, 16, PLACE, BLOB)
}

/// Whether a tile is given as that of a render, from a byte of its blob on.
fn gives<D: Disk>(disk: &mut D, number: u64, from: u32, at: u64) -> bool
    requires { at ≤ 1000 }
{
    let mut tile = [0; 16];
    disk.read_of(BlobPart { number, from }, at, &mut tile)
        .is_ok()
}

/// Whether the two tiles are given.
fn gives_both<D: Disk>(disk: &mut D) -> bool {
    let first = gives(disk, NUMBER, 0, PLACE);
    let second = gives(disk, NUMBER, 16, PLACE + 16);
    first && second
}

/// Turns a bit of the second tile, without its sum.
fn turn<D: Disk>(disk: &mut D, bit: u64) -> bool
    requires { bit ≤ 127 }
{
    let at = PLACE + 16 + bit / 8;
    let mut byte = [0];
    let read = disk.read(at, &mut byte);
    let [byte] = byte;
    let turned = [byte ^ (1 << (bit % 8) as u32)];
    let written = disk.write_at(at, &turned);
    read.is_ok() && written.is_ok()
}

/// Whether the second tile isn't given while one of its bits is turned, and is given again once that is turned back.
fn notices<D: Disk>(disk: &mut D, bit: u64) -> bool
    requires { bit ≤ 127 }
{
    let turned = turn(disk, bit);
    let given = gives(disk, NUMBER, 16, PLACE + 16);
    let turned_back = turn(disk, bit);
    let again = gives_both(disk);
    turned && turned_back && again && !given
}

#[test]
fn a_sum_is_as_another_program_makes_it(rt: HostRuntime) -> Result<(), Fail> {
    let bytes = (0..100).collect::<Vec<u8>>(rt.alloc())?;
    let none = BlobPart { number: 0, from: 0 };
    let some = BlobPart {
        number: NUMBER,
        from: 0,
    };
    let later = BlobPart {
        number: 1_099_511_627_777,
        from: 46,
    };
    assert!(rt; part_sum(none, b"") == 0xA852_9ED2_90FD_4A1B);
    assert!(rt; part_sum(some, &bytes) == 0x5E92_527A_5619_2DEF);
    assert!(rt;
        part_sum(
            later,
            b"P6\n2 2\n255\n\0\x01\x02\x03\x04\x05\x06\x07\x08\x09\x0A\x0B"
        ) == 0x8DF4_37D7_7E61_9CDE
    );
    Ok(())
}

#[test]
fn a_tile_is_given_as_what_it_was_written(rt: HostRuntime) -> Result<(), Fail> {
    let alloc = rt.alloc();
    let mut disk = with_blob(alloc, true, Vec::new(alloc))?;
    assert!(rt; gives_both(&mut disk));
    assert!(rt; gives_both(&mut &mut disk));
    assert!(rt; disk.unfit() == 0);
    assert!(rt; !gives(&mut disk, 8, 16, PLACE + 16));
    assert!(rt; !gives(&mut disk, NUMBER, 0, PLACE + 16));
    assert!(rt; !gives(&mut disk, NUMBER, 16, PLACE + 32));
    assert!(rt; disk.unfit() == 3);
    assert!(rt; disk.fault_count() == 3);
    Ok(())
}

#[test]
fn each_turned_bit_is_noticed(rt: HostRuntime) -> Result<(), Fail> {
    let alloc = rt.alloc();
    let mut disk = with_blob(alloc, true, Vec::new(alloc))?;
    for bit in 0..128 {
        assert!(rt; notices(&mut disk, bit));
    }
    Ok(())
}

#[test]
fn without_sums_a_tile_is_given_as_it_is_read(rt: HostRuntime) -> Result<(), Fail> {
    let alloc = rt.alloc();
    let mut disk = with_blob(alloc, false, Vec::new(alloc))?;
    assert!(rt; turn(&mut disk, 5));
    assert!(rt; gives_both(&mut disk));
    assert!(rt; disk.sums.bytes().is_empty());
    Ok(())
}

// The calls on the sums are two writes, and then a read for each tile that is asked for.
#[test]
fn a_tile_whose_sum_fails_is_not_given(rt: HostRuntime) -> Result<(), Fail> {
    let alloc = rt.alloc();
    for call in 1..5 {
        let mut disk = with_blob(alloc, true, [call].to_vec(alloc)?)?;
        assert!(rt; !gives_both(&mut disk));
    }
    let mut disk = with_blob(alloc, true, [5].to_vec(alloc)?)?;
    assert!(rt; gives_both(&mut disk));
    assert!(rt; disk.fault_count() == 0);
    Ok(())
}
