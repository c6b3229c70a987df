//! A cabinet on a disk in memory.
ghost use Rattle.std.specs.Prelude.{IfOk, IfSome, ◌≡◌};
ghost use Rattle.catalog.specs.Demo.{demo};

use base::Clock;
use catalog::Catalogue;
use durable_cabinet::{Cabinet, make};
use fixtures::SilentDisk;
use std::alloc::{AllocError, Global};

/// A cabinet on a disk of which contracts know the count of faults alone.
pub type OnDisk = Cabinet<SilentDisk>;

/// The bytes of an empty cache of the built-in catalogue.
fn made(alloc: Global) -> Result<Vec<u8>, AllocError> {
    let mut disk = SilentDisk::new(alloc, Vec::new(alloc), Vec::new(alloc));
    let _ = make(&Catalogue::demo(alloc)?, &mut disk);
    Vec::from_slice(alloc, disk.bytes())
}

/// A cabinet over such bytes on a disk that fails at these calls; `None` where its opening is refused.
pub fn opened(alloc: Global, fails: Vec<u64>) -> Result<Option<OnDisk>, AllocError>
    ensures { IfOk result (λ o. IfSome o (λ c. c.state.catalogue ≡ demo)) }
{
    let disk = SilentDisk::new(alloc, made(alloc)?, fails);
    let clock = Clock::listed(Vec::new(alloc));
    match Cabinet::open(alloc, Catalogue::demo(alloc)?, clock, disk) {
        Ok(cabinet) => Ok(Some(cabinet)),
        Err(_) => Ok(None),
    }
}
