//! Tests of source_render.
use crate::renders::{FIRST_BLOB, renders};
use source_render::{AnySource, Numbered, Scripted};
use std::test::Fail;
use std::{fs, process};

#[test]
fn a_numbered_source_renders_the_first_tile(rt: HostRuntime) -> Result<(), Fail> {
    let mut source = Numbered::new(0);
    assert!(rt; renders(rt.alloc(), &mut &mut source, Some(FIRST_BLOB))?);
    Ok(())
}

#[test]
fn a_scripted_source_fails_at_its_listed_call(rt: HostRuntime) -> Result<(), Fail> {
    let mut source = Scripted::new(0, vec![in rt.alloc(); 2]?);
    for expected in [Some(FIRST_BLOB), None, Some(FIRST_BLOB)] {
        assert!(rt; renders(rt.alloc(), &mut source, expected)?);
    }
    Ok(())
}

/// A file of three by two cells.
const CELLS: &[u8] = b"WGRD0001\0\0\0\x03\0\0\0\x02\x01\x02\x03\x04\x05\x06";

/// The same with a cell too many.
const LONGER: &[u8] = b"WGRD0001\0\0\0\x03\0\0\0\x02\x01\x02\x03\x04\x05\x06\x07";

// The ground cells of the columns and of the rows are 4 and 12, which are cells 1 and 0 of three, and cell 0 of two.
const CELLS_BLOB: &[u8] = b"P6\n2 2\n255\n\x02\x02\x02\x01\x01\x01\x02\x02\x02\x01\x01\x01";

/// The same cells in the other order.
const TURNED: &[u8] = b"WGRD0001\0\0\0\x03\0\0\0\x02\x06\x05\x04\x03\x02\x01";

const TURNED_BLOB: &[u8] = b"P6\n2 2\n255\n\x05\x05\x05\x06\x06\x06\x05\x05\x05\x06\x06\x06";

/// The name of a file of cells of this process.
fn path_of(rt: &HostRuntime, name: &str) -> Result<String, Fail> {
    Ok(format!(in rt.alloc(); "/tmp/cells_{}_{name}", process::id(rt.process()))?)
}

#[test]
fn a_file_of_cells_has_its_form_alone(rt: HostRuntime) -> Result<(), Fail> {
    let path = path_of(&rt, "form")?;
    for (cells, expected) in [(CELLS, Some(CELLS_BLOB)), (LONGER, None)] {
        fs::write(&rt, path.as_str(), cells)?;
        let mut source = AnySource::of_a_run(rt, path.as_str(), 0);
        assert!(rt; renders(rt.alloc(), &mut source, expected)?);
        fs::remove_file(&rt, path.as_str())?;
    }
    Ok(())
}

#[test]
fn a_file_of_cells_is_the_one_that_has_its_name(rt: HostRuntime) -> Result<(), Fail> {
    let path = path_of(&rt, "named")?;
    let next = path_of(&rt, "next")?;
    fs::write(&rt, path.as_str(), CELLS)?;
    fs::write(&rt, next.as_str(), TURNED)?;
    let mut source = AnySource::of_a_server(rt, path.as_str(), 0);
    assert!(rt; renders(rt.alloc(), &mut source, Some(CELLS_BLOB))?);
    fs::rename(&rt, next.as_str(), path.as_str())?;
    assert!(rt; renders(rt.alloc(), &mut source, Some(TURNED_BLOB))?);
    fs::remove_file(&rt, path.as_str())?;
    assert!(rt; renders(rt.alloc(), &mut source, None)?);
    Ok(())
}

#[test]
fn a_server_without_a_file_of_cells_takes_one_that_comes(rt: HostRuntime) -> Result<(), Fail> {
    let path = path_of(&rt, "late")?;
    let mut run = AnySource::of_a_run(rt, path.as_str(), 0);
    assert!(rt; renders(rt.alloc(), &mut run, Some(FIRST_BLOB))?);
    let mut source = AnySource::of_a_server(rt, path.as_str(), 0);
    assert!(rt; renders(rt.alloc(), &mut source, Some(FIRST_BLOB))?);
    fs::write(&rt, path.as_str(), CELLS)?;
    assert!(rt; renders(rt.alloc(), &mut source, Some(CELLS_BLOB))?);
    fs::remove_file(&rt, path.as_str())?;
    Ok(())
}
