//! Tests of an outbox. Its disk isn't modelled, so that what an opening finds is read from the bytes alone.
ghost use Rattle.std.specs.Prelude.{◌≡◌, IfOk};
ghost use Rattle.catalog.specs.Demo.{demo};

use catalog::Catalogue;
use disk_model::Disk;
use fixtures::SilentDisk;
use matrix_geometry::Filter;
use outbox::{Outbox, Packet, Posted};
use served_covers::is_cover_of;
use std::alloc::{AllocError, Global};
use std::test::Fail;
use truncation_list::Cover;

/// The zooms of the demo layer up to this one.
fn up_to(z_stop: u32) -> Cover {
    Cover {
        layer: 0,
        grid: 0,
        z_start: 0,
        z_stop,
        bounds: None,
        filter: Filter {
            style: None,
            dims: [None; 4],
        },
    }
}

/// A disk with an outbox without posts.
fn made(alloc: Global) -> Result<SilentDisk, Fail> {
    let mut disk = SilentDisk::new(alloc, Vec::new(alloc), Vec::new(alloc));
    if Outbox::make(&Catalogue::demo(alloc)?, &mut disk).is_err() {
        return Err(Fail::from("the outbox is not made"));
    }
    Ok(disk)
}

/// The outbox of a disk.
fn opened(alloc: Global, disk: SilentDisk) -> Result<Outbox<SilentDisk>, Fail>
    ensures { IfOk result (λ o. o.catalogue ≡ demo) }
{
    let catalogue = Catalogue::demo(alloc)?;
    match Outbox::open(alloc, &catalogue, disk) {
        Ok(outbox) => Ok(outbox),
        Err((fault, _)) => Err(fault.into()),
    }
}

/// Posts a cover: whether it has this number.
fn is_posted<D: Disk>(
    alloc: Global,
    outbox: &mut Outbox<D>,
    number: u64,
    z_stop: u32,
) -> Result<bool, AllocError>
    requires { outbox.old.catalogue ≡ demo }
    ensures { outbox.new.catalogue ≡ demo }
{
    let catalogue = Catalogue::demo(alloc)?;
    let cover = up_to(z_stop);
    if !is_cover_of(&catalogue, &cover) {
        return Ok(false);
    }
    Ok(outbox.post(alloc, &cover)? == Posted::Done(number))
}

/// Posts three covers: whether they have the numbers 1, 2 and 3.
fn posts<D: Disk>(alloc: Global, outbox: &mut Outbox<D>) -> Result<bool, AllocError>
    requires { outbox.old.catalogue ≡ demo }
{
    let first = is_posted(alloc, outbox, 1, 0)?;
    let second = is_posted(alloc, outbox, 2, 1)?;
    let third = is_posted(alloc, outbox, 3, 2)?;
    Ok(first && second && third && outbox.count() == 3)
}

/// Whether the packet to be sent next is this change.
fn is_next<D: Disk>(outbox: &Outbox<D>, number: u64, z_stop: u32) -> bool {
    outbox.next() == Some(Packet::Change(number, up_to(z_stop)))
}

/// Whether an outbox with three posts hears what is above the greatest heard and at most the count of posts, and nothing else.
fn hears<D: Disk>(outbox: &mut Outbox<D>) -> bool {
    let is_first = is_next(outbox, 1, 0);
    let second = outbox.heard(&Packet::Seen(2));
    let is_third = is_next(outbox, 3, 2);
    let lower = outbox.heard(&Packet::Seen(1));
    let higher = outbox.heard(&Packet::Seen(4));
    let is_still_third = is_next(outbox, 3, 2);
    is_first && second && is_third && !lower && !higher && is_still_third
}

#[test]
fn posts_are_there_after_an_opening_and_not_heard(rt: HostRuntime) -> Result<(), Fail> {
    let alloc = rt.alloc();
    let mut outbox = opened(alloc, made(alloc)?)?;
    assert!(rt; posts(alloc, &mut outbox)?);
    assert!(rt; outbox.heard(&Packet::Seen(3)));
    assert!(rt; outbox.next().is_none());
    let mut outbox = opened(alloc, outbox.close())?;
    assert!(rt; outbox.count() == 3);
    assert!(rt; hears(&mut outbox));
    Ok(())
}
