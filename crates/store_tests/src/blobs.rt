//! Tests of blob_store.
use blob_store::{put, read_tile};
use disk_model::{Disk, MemoryDisk, Pick};
use metatile_plan::Span;
use std::test::Fail;

#[test]
fn a_blob_past_the_end_is_read_in_parts(rt: HostRuntime) -> Result<(), Fail> {
    let alloc = rt.alloc();
    let mut disk = MemoryDisk::new(alloc, b"ab".to_vec(alloc)?, Vec::new(alloc));
    put(&mut disk, 7, 4, 4, b"metatile")?;
    let mut image = disk.crash(alloc, Pick::Noise)?;
    assert!(rt; image.bytes() == b"ab\0\0metatile".as_slice());
    let span = Span {
        start: 4,
        length: 4,
    };
    let mut tile = [0; 4];
    read_tile(&mut image, 7, 4, &span, &mut tile)?;
    assert!(rt; &tile == b"tile");
    Ok(())
}

/// Whether a put of two bytes fails.
fn put_fails<D: Disk>(disk: &mut D) -> bool {
    put(disk, 7, 2, 1, b"XY").is_err()
}

#[test]
fn a_put_whose_sync_fails_is_there_or_not(rt: HostRuntime) -> Result<(), Fail> {
    let alloc = rt.alloc();
    for (pick, left) in [
        (Pick::Old, b"abcd".as_slice()),
        (Pick::New, b"aXYd".as_slice()),
        (Pick::Noise, b"a\xA5\xA5d".as_slice()),
    ] {
        let mut disk = MemoryDisk::new(alloc, b"abcd".to_vec(alloc)?, [2].to_vec(alloc)?);
        assert!(rt; put_fails(&mut disk));
        assert!(rt; disk.crash(alloc, pick)?.bytes() == left);
    }
    Ok(())
}
