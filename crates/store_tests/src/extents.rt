//! Tests of extent_map.
use extent_map::Extents;
use std::test::Fail;

#[test]
fn the_lowest_hole_is_taken(rt: HostRuntime) -> Result<(), Fail> {
    let alloc = rt.alloc();
    let mut extents = Extents::new(alloc, 10)?;
    extents.reserve(alloc, 4)?;
    assert!(rt; extents.take(3) == Some(0));
    assert!(rt; extents.claim_at(5, 3));
    assert!(rt; !extents.claim_at(4, 3));
    assert!(rt; extents.take(3) == None);
    extents.give(5, 3);
    assert!(rt; extents.take(7) == Some(3));
    Ok(())
}
