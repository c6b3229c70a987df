//! What an ask comes to where nothing that is kept answers it, and what a force comes to.
ghost use Rattle.std.specs.Prelude.{IfOk, IfSome, None, OnOk, length, ℕ, ◌+◌, ◌<◌, ◌≡◌, ◌≤◌};
ghost use Rattle.cabinet.specs.Commands.{IsAskedOf, IsForcedOf, IsTrueHit, IsUnread};
ghost use Rattle.cabinet.specs.Shelved.{IsAlike};
ghost use Rattle.cabinet.specs.State.{State};
ghost use Rattle.cabinet.specs.Turns.{IsReady, IsTaken, IsTurn};
ghost use Rattle.catalog.specs.declared.catalogue.Catalogue.{Catalogue};
ghost use Rattle.matrix_geometry.specs.declared.address.Address.{Address};
ghost use Rattle.raster_field.specs.Blocks.{block_of};

use crate::entry::HistoryEntry;
use crate::replies::{Asked, Forced};
use crate::shelf::KeptShelf;
use base::Trace;
use metatile_locks::{Begin, Locks};
use metatile_plan::MetaKey;
use std::alloc::{AllocError, Global};

/// What is to come of an ask or a force, before its clock is read.
#[derive(Clone, Copy, PartialEq, Eq)]
pub enum Turn {
    /// A render of the metatile runs that is not overtaken, with this number.
    Busy(u64),
    /// None runs, and no number is left.
    Spent,
    /// None runs, and one is to begin under this number. There is room for it.
    Given(u64),
}

/// Makes room for one more render, and for each running one and that one to be kept. `AllocError` where memory runs out;
/// what is kept and runs is then as before, and no room is lost.
fn make_room(alloc: Global, shelf: &mut KeptShelf, locks: &mut Locks) -> Result<(), AllocError>
    ensures shelf { IsAlike shelf.old shelf.new }
    ensures renders { locks.new.renders ≡ locks.old.renders }
    ensures no_less { shelf.old.room ≤ shelf.new.room }
    ensures lock { OnOk result (0 < locks.new.spare) }
    ensures room { OnOk result (length locks.old.renders + 1 ≤ shelf.new.room) }
{
    let running = locks.count();
    if running >= u32::MAX as usize {
        return Err(AllocError);
    }
    match locks.reserve(alloc) {
        Err(fault) => return Err(fault),
        Ok(()) => {}
    }
    shelf.reserve(alloc, running as u32 + 1)
}

/// What is to come of an ask or a force of a metatile, where this number is the next, with room made where it is given.
/// `AllocError` where memory runs out; what is kept and runs is then as before, and no room is lost.
pub fn turn_for(
    alloc: Global,
    shelf: &mut KeptShelf,
    locks: &mut Locks,
    meta: &MetaKey,
    next: Option<u64>,
) -> Result<Turn, AllocError>
    ensures shelf { IsAlike shelf.old shelf.new }
    ensures renders { locks.new.renders ≡ locks.old.renders }
    ensures no_less { shelf.old.room ≤ shelf.new.room }
    ensures turn { IfOk result (λ turn. IsTurn meta.now next locks.new shelf.new turn) }
{
    match locks.running_for(meta) {
        Some(number) => return Ok(Turn::Busy(number)),
        None => {}
    }
    match next {
        None => Ok(Turn::Spent),
        Some(number) => match make_room(alloc, shelf, locks) {
            Err(fault) => Err(fault),
            Ok(()) => Ok(Turn::Given(number)),
        },
    }
}

/// The same where there is an age limit, by which what is kept may be too old to answer.
pub fn turn_where(
    limit: Option<u32>,
    alloc: Global,
    shelf: &mut KeptShelf,
    locks: &mut Locks,
    meta: &MetaKey,
    next: Option<u64>,
) -> Result<Option<Turn>, AllocError>
    ensures shelf { IsAlike shelf.old shelf.new }
    ensures renders { locks.new.renders ≡ locks.old.renders }
    ensures no_less { shelf.old.room ≤ shelf.new.room }
    ensures turn { IfOk result (λ turn. IfSome turn (IsTurn meta.now next locks.new shelf.new)) }
    ensures none { IfOk result (λ turn. turn ≡ None → limit ≡ None) }
{
    match limit {
        None => Ok(None),
        Some(_) => match turn_for(alloc, shelf, locks, meta, next) {
            Err(fault) => Err(fault),
            Ok(turn) => Ok(Some(turn)),
        },
    }
}

/// Takes a turn at a moment: begins a render where a number is given for it, which becomes the last one and an entry of the
/// history. It takes no memory.
pub fn take_turn(
    meta: &MetaKey,
    moment: u64,
    turn: Turn,
    locks: &mut Locks,
    last: &mut u64,
    past: &mut Trace<HistoryEntry>,
) -> Forced
    requires { IsReady meta.now locks.old turn }
    ensures { IsTaken meta.now moment (record { renders = locks.old.renders; last = last.old; past = past.old.entries }) turn result (record { renders = locks.new.renders; last = last.new; past = past.new.entries }) }
{
    match turn {
        Turn::Busy(number) => Forced::Busy(number),
        Turn::Spent => Forced::Spent,
        Turn::Given(number) => match locks.begin(meta, number, moment) {
            Begin::Busy(_) => unreachable!(),
            Begin::Ticket(ticket) => {
                *last = number;
                *past = past.and(&HistoryEntry::Started(number, *meta));
                Forced::Ticket(ticket)
            }
        },
    }
}

/// What an ask comes to where nothing that is kept answers it.
pub fn as_asked(forced: Forced) -> Asked
    ensures asked { (before after : ℕ) (s : State) (a : Address) (new : State) → IsUnread before after s a → IsForcedOf s (block_of s.catalogue a) forced new → IsAskedOf before after s a result new }
    ensures no_hit { (c : Catalogue) (a : Address) → IsTrueHit c a result }
{
    match forced {
        Forced::Ticket(ticket) => Asked::Ticket(ticket),
        Forced::Busy(number) => Asked::Busy(number),
        Forced::Spent => Asked::Spent,
    }
}
