//! Tests of cabinet.
ghost use Rattle.std.specs.Prelude.{IfOk, ◌≡◌};
ghost use Rattle.catalog.specs.Demo.{demo};
ghost use Rattle.raster_field.specs.Blocks.{IsMeta};

use base::{Clock, SharedText};
use cabinet::{Asked, Cabinet, Finished, Forced, Saved};
use catalog::Catalogue;
use fixtures::corner_tile;
use metatile_locks::Ticket;
use metatile_plan::MetaKey;
use raster_field::{blob_size, block_of, laws_of_metatiles};
use std::alloc::{AllocError, Global};
use std::marker::Send;
use std::test::Fail;

/// The bytes that are handed in.
const SEVENS: [u8; 23] = [7; 23];

/// A cabinet of the demo catalogue.
pub fn new(alloc: Global) -> Result<Cabinet, AllocError>
    ensures { IfOk result (λ c. c.catalogue ≡ demo) }
{
    let catalogue = Catalogue::demo(alloc)?;
    let clock = Clock::listed(Vec::new(alloc));
    Cabinet::memory(alloc, catalogue, clock)
}

/// The metatile of the corner.
fn corner(cabinet: &Cabinet) -> MetaKey
    requires { cabinet.now.catalogue ≡ demo }
    ensures { IsMeta cabinet.now.catalogue result }
{
    cabinet.known();
    laws_of_metatiles();
    block_of(cabinet.catalogue(), &corner_tile())
}

/// Begins a render of the corner in one cabinet, and hands a blob of its length to another.
fn handed(alloc: Global, from: &mut Cabinet, to: &mut Cabinet) -> Result<Finished, AllocError>
    requires from { from.old.catalogue ≡ demo }
    requires to { to.old.catalogue ≡ demo }
    ensures { to.new.catalogue ≡ demo }
{
    to.known();
    let meta = corner(to);
    let size = blob_size(to.catalogue(), &meta);
    let blob = SharedText::of(alloc, vec![in alloc; 7; size as usize]?)?;
    match from.force(alloc, &meta)? {
        Forced::Ticket(ticket) => Ok(to.finish(ticket, blob)),
        Forced::Busy(_) => Ok(Finished::Kept),
        Forced::Spent => Ok(Finished::Kept),
    }
}

/// Begins a render of the corner, and hands in a blob of its length.
fn kept(alloc: Global, cabinet: &mut Cabinet) -> Result<Finished, AllocError>
    requires { cabinet.old.catalogue ≡ demo }
    ensures { cabinet.new.catalogue ≡ demo }
{
    cabinet.known();
    let meta = corner(cabinet);
    let size = blob_size(cabinet.catalogue(), &meta);
    let blob = SharedText::of(alloc, vec![in alloc; 7; size as usize]?)?;
    match cabinet.force(alloc, &meta)? {
        Forced::Ticket(ticket) => Ok(cabinet.finish(ticket, blob)),
        Forced::Busy(_) => Ok(Finished::Stranger),
        Forced::Spent => Ok(Finished::Stranger),
    }
}

/// Whether a tile has these bytes.
fn is_text(tile: &SharedText, bytes: &[u8]) -> bool {
    tile.bytes() == bytes
}

/// Gives up a render: its number.
fn given_up(cabinet: &mut Cabinet, ticket: Ticket) -> u64
    ensures { cabinet.new.catalogue ≡ cabinet.old.catalogue }
{
    let number = ticket.number();
    cabinet.abandon(ticket);
    number
}

/// Asks for the corner: whether it is a hit with the bytes that were handed in, and the number of its render, which is
/// given up where it is none.
fn asked(alloc: Global, cabinet: &mut Cabinet) -> Result<(bool, u64), AllocError>
    requires { cabinet.old.catalogue ≡ demo }
    ensures { cabinet.new.catalogue ≡ demo }
{
    match cabinet.ask(alloc, &corner_tile())? {
        Asked::Hit(number, text) => Ok((is_text(&text, &SEVENS), number)),
        Asked::Ticket(ticket) => Ok((false, given_up(cabinet, ticket))),
        Asked::Busy(_) => Ok((false, 0)),
        Asked::Spent => Ok((false, 0)),
    }
}

/// Saves uses twice: whether there were some of one metatile alone.
fn saved_once(cabinet: &mut Cabinet) -> bool {
    match cabinet.save_uses() {
        Saved::Done(_) => matches!(cabinet.save_uses(), Saved::Within),
        Saved::DiskFault(_, _) | Saved::Within => false,
    }
}

/// A render that is given up, one that is kept, and a hit: what the two asks were answered, and the finish between them.
fn given_up_then_kept(
    alloc: Global,
    cabinet: &mut Cabinet,
) -> Result<((bool, u64), Finished, (bool, u64)), AllocError>
    requires { cabinet.old.catalogue ≡ demo }
{
    let first = asked(alloc, cabinet)?;
    let finished = kept(alloc, cabinet)?;
    let second = asked(alloc, cabinet)?;
    Ok((first, finished, second))
}

/// A metatile that is kept and hit: whether its use is saved once.
fn used_then_saved(alloc: Global, cabinet: &mut Cabinet) -> Result<bool, AllocError>
    requires { cabinet.old.catalogue ≡ demo }
{
    let finished = kept(alloc, cabinet)?;
    let hit = asked(alloc, cabinet)?;
    if finished != Finished::Kept || hit != (true, 1) {
        return Ok(false);
    }
    Ok(saved_once(cabinet))
}

fn sent<T: Send>(value: T) -> T {
    value
}

// In each test a cabinet is dropped before anything else can end it: each place at which it may be dropped has to be proved.

#[test]
fn a_cabinet_may_go_to_another_thread(rt: HostRuntime) -> Result<(), Fail> {
    let cabinet = sent(new(rt.alloc())?);
    let kept = cabinet.kept();
    drop(cabinet);
    assert!(rt; kept == 0);
    Ok(())
}

#[test]
fn a_render_is_given_up_and_the_next_one_kept(rt: HostRuntime) -> Result<(), Fail> {
    let mut cabinet = new(rt.alloc())?;
    let told = given_up_then_kept(rt.alloc(), &mut cabinet);
    drop(cabinet);
    let (first, finished, second) = told?;
    assert!(rt; first == (false, 1));
    assert!(rt; finished == Finished::Kept);
    assert!(rt; second == (true, 2));
    Ok(())
}

#[test]
fn a_use_is_saved_once(rt: HostRuntime) -> Result<(), Fail> {
    let mut cabinet = new(rt.alloc())?;
    let told = used_then_saved(rt.alloc(), &mut cabinet);
    drop(cabinet);
    assert!(rt; told?);
    Ok(())
}

/// A ticket of one cabinet handed to another: what that is answered, how many metatiles it keeps then, and what it is answered
/// to its own.
fn strange_then_kept(
    alloc: Global,
    one: &mut Cabinet,
    other: &mut Cabinet,
) -> Result<(Finished, u32, Finished), AllocError>
    requires one { one.old.catalogue ≡ demo }
    requires other { other.old.catalogue ≡ demo }
{
    let strange = handed(alloc, other, one)?;
    let count = one.kept();
    Ok((strange, count, kept(alloc, one)?))
}

/// Two cabinets, and a ticket of one handed to the other.
fn told_of_two(alloc: Global) -> Result<(Finished, u32, Finished), AllocError> {
    let mut one = new(alloc)?;
    match new(alloc) {
        Err(fault) => {
            drop(one);
            Err(fault)
        }
        Ok(mut other) => {
            let told = strange_then_kept(alloc, &mut one, &mut other);
            drop(other);
            drop(one);
            told
        }
    }
}

#[test]
fn the_ticket_of_another_cabinet_is_strange(rt: HostRuntime) -> Result<(), Fail> {
    let (strange, count, own) = told_of_two(rt.alloc())?;
    assert!(rt; strange == Finished::Stranger);
    assert!(rt; count == 0);
    assert!(rt; own == Finished::Kept);
    Ok(())
}
