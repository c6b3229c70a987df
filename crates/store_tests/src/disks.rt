//! Tests of disk_model.
use disk_model::{Disk, Failed, FileDisk, MemoryDisk, Pick, write_through};
use std::fs::File;
use std::test::Fail;
use std::{fs, process};

/// A disk of eight bytes `.` with these calls failing.
fn dots(rt: &HostRuntime, fail: Vec<u64>) -> Result<MemoryDisk, Fail> {
    let bytes = vec![in rt.alloc(); b'.'; 8]?;
    Ok(MemoryDisk::new(rt.alloc(), bytes, fail))
}

/// What is read over the end, once three bytes were written at the seventh place and the file was cut to nine.
fn read_over_the_end<D: Disk>(disk: &mut D) -> Result<[u8; 5], Failed> {
    disk.write_at(7, b"abc")?;
    disk.cut(9)?;
    disk.sync()?;
    let mut into = [1; 5];
    disk.read(6, &mut into)?;
    Ok(into)
}

#[test]
fn a_read_gives_what_was_written_and_zeros_past_the_end(rt: HostRuntime) -> Result<(), Fail> {
    let mut disk = dots(&rt, Vec::new(rt.alloc()))?;
    let read = read_over_the_end(&mut disk);
    assert!(rt; read == Ok([b'.', b'a', b'b', 0, 0]));
    Ok(())
}

#[test]
fn a_crash_leaves_old_new_or_noise(rt: HostRuntime) -> Result<(), Fail> {
    for (pick, left) in [
        (Pick::Old, b"aa......".as_slice()),
        (Pick::New, b"aabbb".as_slice()),
        (Pick::Noise, b"aa\xA5\xA5\xA5\xA5\xA5\xA5".as_slice()),
    ] {
        let mut disk = dots(&rt, Vec::new(rt.alloc()))?;
        disk.write_at(0, b"aa")?;
        disk.sync()?;
        disk.write_at(2, b"bbb")?;
        disk.cut(5)?;
        assert!(rt; disk.crash(rt.alloc(), pick)?.bytes() == left);
    }
    Ok(())
}

/// Whether of a write and two syncs the first sync alone fails.
fn one_sync_fails<D: Disk>(disk: &mut D) -> bool {
    let write = disk.write_at(0, b"a");
    let first = disk.sync();
    let second = disk.sync();
    write.is_ok() && first.is_err() && second.is_ok()
}

#[test]
fn a_listed_call_fails_and_is_counted(rt: HostRuntime) -> Result<(), Fail> {
    let mut disk = dots(&rt, [2].to_vec(rt.alloc())?)?;
    assert!(rt; one_sync_fails(&mut disk));
    assert!(rt; disk.fault_count() == 1);
    assert!(rt; disk.shortages() == 0);
    Ok(())
}

/// Whether of three writes the second one alone fails.
fn one_write_fails<D: Disk>(disk: &mut D) -> bool {
    let first = disk.write_at(0, b"aaaa");
    let second = disk.write_at(2, b"bbbb");
    let third = disk.write_at(3, b"c");
    first.is_ok() && second.is_err() && third.is_ok()
}

/// Whether these are the bytes of a disk.
fn has_bytes(disk: &MemoryDisk, bytes: &[u8]) -> bool {
    disk.bytes() == bytes
}

#[test]
fn a_failed_write_is_left_where_it_was_the_last(rt: HostRuntime) -> Result<(), Fail> {
    let mut disk = dots(&rt, [2].to_vec(rt.alloc())?)?;
    assert!(rt; one_write_fails(&mut disk));
    assert!(rt; has_bytes(&disk, b"aaac...."));
    let image = disk.crash(rt.alloc(), Pick::New)?;
    assert!(rt; has_bytes(&image, b"aabcbb.."));
    Ok(())
}

/// Whether a write with its sync fails, and a read after it.
fn both_fail<D: Disk>(disk: &mut D) -> bool {
    let written = write_through(disk, 0, b"a");
    let read = disk.read(0, &mut [0; 1]);
    written.is_err() && read.is_err()
}

#[test]
fn a_stopped_disk_fails(rt: HostRuntime) -> Result<(), Fail> {
    let mut disk = dots(&rt, Vec::new(rt.alloc()))?;
    disk.stop_after(1);
    assert!(rt; both_fail(&mut disk));
    Ok(())
}

/// What the bytes from the second one on are, once three were written after the third and the file was cut to five, and whether a read from the
/// third one on fails, which isn't padded.
fn read_back<D: Disk>(mut disk: D) -> Result<([u8; 7], bool), Failed> {
    write_through(&mut disk, 3, b"abc")?;
    disk.cut(5)?;
    disk.sync()?;
    let mut into = [1; 7];
    disk.read(1, &mut into)?;
    let short = disk.read(2, &mut [1; 4]);
    Ok((into, short.is_err()))
}

#[test]
fn a_real_file_is_read_back(rt: HostRuntime) -> Result<(), Fail> {
    let path = format!(in rt.alloc(); "/tmp/disk_{}", process::id(rt.process()))?;
    let file = File::options()
        .read(true)
        .write(true)
        .create_new(true)
        .open(&rt, path.as_str())?;
    let read = read_back(FileDisk::new(file, 2));
    fs::remove_file(&rt, path.as_str())?;
    assert!(rt; read == Ok(([0, 0, b'a', b'b', 0, 0, 0], true)));
    Ok(())
}
