//! What a source renders of a metatile.
ghost use Rattle.std.specs.Prelude.{[], ◌<◌, ◌≡◌, IfOk};
ghost use Rattle.catalog.specs.Valid.{IsValid};

use catalog::Catalogue;
use fixtures::FIRST;
use metatile_locks::{Begin, Locks};
use metatile_plan::MetaKey;
use ppm_slice::blob_of;
use raster_field::{Raster, is_meta, window_at};
use source_render::Source;
use std::alloc::{AllocError, Global};
use std::test::Fail;

/// The blob of the first metatile under number 1. The first grey is 7 + 17 * 4 + 13 * 4, and the ground cells are 4 and 12 both ways.
pub const FIRST_BLOB: &[u8] = b"P6\n2 2\n255\n\x7f\x7f\x7f\x07\x07\x07\xe7\xe7\xe7\x6f\x6f\x6f";

/// A table in which no render runs, with room for one.
fn table(alloc: Global) -> Result<Locks, AllocError>
    ensures { IfOk result (λ locks. (locks.renders ≡ []) × (0 < locks.spare)) }
{
    let mut locks = Locks::new(alloc)?;
    locks.reserve(alloc)?;
    Ok(locks)
}

/// The blob of a metatile that a source renders under number 1; `None` where the source failed.
pub fn rendered<S: Source>(
    alloc: Global,
    catalogue: &Catalogue,
    source: &mut S,
    meta: &MetaKey,
) -> Result<Option<Vec<u8>>, Fail>
    requires { IsValid catalogue.now }
{
    if !is_meta(catalogue, meta) {
        return Err("no metatile")?;
    }
    let window = window_at(catalogue, meta);
    let mut raster = Raster::new(alloc, &window)?;
    let mut locks = table(alloc)?;
    let ticket = match locks.begin(meta, 1, 0) {
        Begin::Ticket(ticket) => ticket,
        Begin::Busy(_) => return Err("busy")?,
    };
    let done = source.render(catalogue, &ticket, &window, &mut raster);
    locks.end(ticket);
    drop(locks);
    match done {
        Ok(()) => Ok(Some(blob_of(alloc, catalogue, meta, &raster)?)),
        Err(_) => Ok(None),
    }
}

fn is_expected(blob: &[u8], expected: Option<&[u8]>) -> bool {
    match expected {
        Some(expected) => blob == expected,
        None => false,
    }
}

/// Whether a source renders the first metatile of the demo catalogue to this blob, where none is a failure.
pub fn renders<S: Source>(
    alloc: Global,
    source: &mut S,
    expected: Option<&[u8]>,
) -> Result<bool, Fail> {
    let catalogue = Catalogue::demo(alloc)?;
    match rendered(alloc, &catalogue, source, &FIRST)? {
        Some(blob) => Ok(is_expected(blob.as_slice(), expected)),
        None => Ok(expected.is_none()),
    }
}
