//! A cache that is taken over by a changed catalogue: what stays is given as it was, under its number, and nothing else is kept.
ghost use Rattle.std.specs.Prelude.{IfOk};
ghost use Rattle.catalog.specs.Valid.{IsValid};

use crate::cabinets::{OnDisk, disk_of};
use crate::carry_cases::{ALL, Case, OLD, ROOMY, Step, Text, Tile, cases, gone, steps, tiles};
use base::{Clock, SharedText};
use cabinet::{Asked, CutReply, Finished, Forced, Keeper};
use carry_over::{Carried, CarryEnd, CarryFault, carry};
use catalog::Catalogue;
use config_text::read_catalogue;
use disk_model::Pick;
use durable_cabinet::{Cabinet, Parts, make};
use fixtures::SilentDisk;
use gate_journal::OpenFault;
use raster_field::{blob_size, first_tile, is_meta};
use served_covers::is_cover_of;
use std::alloc::{AllocError, Global};
use std::test::Fail;
use truncation_list::Cover;

/// How many bytes each tile has.
const LENGTH: usize = 23;

/// The last number of the opening that a carry gives, and of those before it.
const LAST: u64 = 0x02ff_ffff_ffff;

/// The catalogue of a text.
fn catalogue_of(alloc: Global, text: &Text) -> Result<Catalogue, Fail>
    ensures { IfOk result (λ c. IsValid c) }
{
    let text = text.whole(alloc)?;
    match read_catalogue(alloc, text.as_slice()) {
        Ok(catalogue) => Ok(catalogue),
        Err(_) => Err(Fail::from("a catalogue is refused")),
    }
}

/// A cabinet over these bytes, at this moment.
fn opened(alloc: Global, text: &Text, moment: u64, bytes: Vec<u8>) -> Result<OnDisk, Fail> {
    let catalogue = catalogue_of(alloc, text)?;
    let clock = Clock::listed(vec![in alloc; moment; 1]?);
    match Cabinet::open(alloc, catalogue, clock, disk_of(alloc, bytes)) {
        Ok(cabinet) => Ok(cabinet),
        Err(refusal) => {
            drop(refusal);
            Err(Fail::from("a cache is refused"))
        }
    }
}

/// Keeps a tile: whether it is kept, under its number.
fn keep<C: Keeper>(alloc: Global, cabinet: &mut C, tile: &Tile) -> Result<bool, AllocError> {
    cabinet.known();
    if !is_meta(cabinet.catalogue(), &tile.meta) {
        return Ok(false);
    }
    let size = blob_size(cabinet.catalogue(), &tile.meta);
    let blob = SharedText::of(alloc, vec![in alloc; tile.byte; size as usize]?)?;
    match cabinet.force(alloc, &tile.meta)? {
        Forced::Ticket(ticket) => {
            let is_own = ticket.number() == tile.number;
            Ok(cabinet.finish(ticket, blob) == Finished::Kept && is_own)
        }
        Forced::Busy(_) => Ok(false),
        Forced::Spent => Ok(false),
    }
}

/// Truncates: whether that was done.
fn cut<C: Keeper>(alloc: Global, cabinet: &mut C, cover: &Cover) -> Result<bool, AllocError> {
    cabinet.known();
    if !is_cover_of(cabinet.catalogue(), cover) {
        return Ok(false);
    }
    match cabinet.cut(alloc, cover)? {
        CutReply::Done(_) => Ok(true),
        CutReply::Full | CutReply::Spent | CutReply::DiskFault(_, _) => Ok(false),
    }
}

/// Does all that is done to the old cache.
fn fill<C: Keeper>(alloc: Global, cabinet: &mut C) -> Result<bool, AllocError> {
    for step in steps() {
        let done = match step {
            Step::Keeps(tile) => keep(alloc, cabinet, &tile)?,
            Step::Cuts(cover) => cut(alloc, cabinet, &cover)?,
        };
        if !done {
            return Ok(false);
        }
    }
    Ok(true)
}

/// The bytes of the old cache.
fn old_cache(alloc: Global) -> Result<Vec<u8>, Fail> {
    let mut disk = disk_of(alloc, Vec::new(alloc));
    if make(&catalogue_of(alloc, &OLD)?, &mut disk).is_err() {
        return Err(Fail::from("the cache is not made"));
    }
    let empty = Vec::from_slice(alloc, disk.bytes())?;
    let mut cabinet = opened(alloc, &OLD, 100, empty)?;
    let done = fill(alloc, &mut cabinet);
    let Parts { clock, disk } = cabinet.take_apart();
    drop(clock);
    if !done? {
        return Err(Fail::from("the cache is not filled"));
    }
    Ok(disk.left(alloc, Pick::Old)?)
}

/// How a tile is answered.
#[derive(Clone, Copy, PartialEq, Eq)]
enum Answer {
    /// As it was kept, byte for byte and by its number.
    Same,
    /// By a new render, whose number is above all that were given before; or the catalogue has no such metatile.
    New,
    Other,
}

/// How a tile is answered.
fn answer_to<C: Keeper>(alloc: Global, cabinet: &mut C, tile: &Tile) -> Result<Answer, AllocError> {
    cabinet.known();
    if !is_meta(cabinet.catalogue(), &tile.meta) {
        return Ok(Answer::New);
    }
    let address = first_tile(cabinet.catalogue(), &tile.meta);
    match cabinet.ask(alloc, &address)? {
        Asked::Hit(number, text) => Ok(kind_of_hit(tile, number, text.bytes())),
        Asked::Ticket(ticket) => {
            let is_new = ticket.number() > LAST;
            cabinet.abandon(ticket);
            Ok(if is_new { Answer::New } else { Answer::Other })
        }
        Asked::Busy(_) => Ok(Answer::Other),
        Asked::Spent => Ok(Answer::Other),
    }
}

/// How a tile is answered that is answered by this number and these bytes.
fn kind_of_hit(tile: &Tile, number: u64, text: &[u8]) -> Answer {
    let bytes = [tile.byte; LENGTH];
    if number == tile.number && text == bytes.as_slice() {
        return Answer::Same;
    }
    Answer::Other
}

/// Whether just these tiles are given as they were kept, and the others, and one that was truncated, by new renders.
fn gives<C: Keeper>(alloc: Global, cabinet: &mut C, hits: [bool; 4]) -> Result<bool, AllocError> {
    for (tile, hit) in tiles().iter().zip(hits) {
        let wanted = if hit { Answer::Same } else { Answer::New };
        if answer_to(alloc, cabinet, tile)? != wanted {
            return Ok(false);
        }
    }
    Ok(answer_to(alloc, cabinet, &gone())? == Answer::New)
}

/// Whether a cache with these bytes keeps so many metatiles, and gives just these tiles.
fn has(
    alloc: Global,
    text: &Text,
    bytes: Vec<u8>,
    kept: u64,
    hits: [bool; 4],
) -> Result<bool, Fail> {
    let mut cabinet = opened(alloc, text, 150, bytes)?;
    let count = cabinet.kept();
    let given = gives(alloc, &mut cabinet, hits);
    drop(cabinet);
    Ok(given? && u64::from(count) == kept)
}

/// How a carry ended, and the bytes of its two disks then: of the old one as it reads, of the new one as a crash leaves it.
#[derive(Drop)]
struct Left {
    end: Result<Carried, CarryFault>,
    old: Vec<u8>,
    new: Vec<u8>,
}

/// Carries from one disk to another one.
fn carry_with(
    alloc: Global,
    texts: (&Text, &Text),
    old: SilentDisk,
    new: SilentDisk,
    pick: Pick,
) -> Result<Left, Fail> {
    let from = catalogue_of(alloc, texts.0)?;
    let to = catalogue_of(alloc, texts.1)?;
    let CarryEnd { end, old, new } = carry(alloc, &from, &to, old, new);
    Ok(Left {
        end,
        old: Vec::from_slice(alloc, old.bytes())?,
        new: new.left(alloc, pick)?,
    })
}

/// Carries from a cache of one catalogue to a new one of another.
fn carried_on(alloc: Global, from: &Text, to: &Text, bytes: &[u8]) -> Result<Left, Fail> {
    let old = disk_of(alloc, Vec::from_slice(alloc, bytes)?);
    let new = disk_of(alloc, Vec::new(alloc));
    let left = carry_with(alloc, (from, to), old, new, Pick::Old)?;
    if left.old.as_slice() != bytes {
        return Err(Fail::from("the old cache is another one"));
    }
    Ok(left)
}

/// Whether what was carried is carried again, whole. Truncations from before all that is kept are in force no more.
fn is_carried_again(
    alloc: Global,
    case: &Case,
    first: Carried,
    bytes: &[u8],
) -> Result<bool, Fail> {
    let second = carried_on(alloc, &case.text, &case.text, bytes)?;
    let has_sea = case.hits[0];
    let wanted = Carried {
        cuts: if has_sea { first.cuts } else { 0 },
        roomless: 0,
        ..first
    };
    Ok(second.end == Ok(wanted) && has(alloc, &case.text, second.new, first.kept, case.hits)?)
}

/// Whether the old cache is taken over as a case says, and then once more.
fn is_carried(alloc: Global, old: &[u8], case: &Case) -> Result<bool, Fail> {
    let left = carried_on(alloc, &OLD, &case.text, old)?;
    if left.end != case.end {
        return Ok(false);
    }
    let Ok(first) = left.end else {
        return Ok(true);
    };
    Ok(
        is_carried_again(alloc, case, first, left.new.as_slice())?
            && has(alloc, &case.text, left.new, first.kept, case.hits)?,
    )
}

#[test]
fn what_a_change_leaves_alone_is_given_as_it_was(rt: HostRuntime) -> Result<(), Fail> {
    let alloc = rt.alloc();
    let old = old_cache(alloc)?;
    for case in cases() {
        assert!(rt; is_carried(alloc, old.as_slice(), &case)?);
    }
    Ok(())
}

/// A disk with these bytes, of which one call fails.
fn failing(alloc: Global, bytes: &[u8], call: u64) -> Result<SilentDisk, AllocError> {
    let bytes = Vec::from_slice(alloc, bytes)?;
    Ok(SilentDisk::new(alloc, bytes, vec![in alloc; call; 1]?))
}

/// What a carry comes to where one call of the old disk fails, or one of the new disk.
fn carried_with_faults(
    alloc: Global,
    old: &[u8],
    calls: (u64, u64),
    pick: Pick,
) -> Result<Left, Fail> {
    let old = failing(alloc, old, calls.0)?;
    let new = failing(alloc, &[], calls.1)?;
    carry_with(alloc, (&OLD, &ROOMY), old, new, pick)
}

/// Whether the old disk may fail at any call: the carry then ends with its fault, or tells the one metatile that it lacks.
fn may_old_fail(alloc: Global, old: &[u8]) -> Result<bool, Fail> {
    let mut lacking: u32 = 0;
    for call in 1..200 {
        let left = carried_with_faults(alloc, old, (call, 0), Pick::Old)?;
        match left.end {
            _ if left.old.as_slice() != old => return Ok(false),
            Err(CarryFault::Old(OpenFault::DiskFault)) => {}
            Ok(
                Carried {
                    kept: 3,
                    unread: 1,
                    ..
                },
            ) => lacking = lacking.saturating_add(1),
            end => return Ok(end == Ok(ALL) && lacking == 4 && call > 6),
        }
    }
    Ok(false)
}

/// Whether the new disk may fail at any call: the carry then ends with its fault, and where it ends well a crash leaves all.
fn may_new_fail(alloc: Global, old: &[u8], pick: Pick) -> Result<bool, Fail> {
    for call in 1..200 {
        let left = carried_with_faults(alloc, old, (0, call), pick)?;
        match left.end {
            Err(CarryFault::NewDisk) => {}
            end => {
                let whole = has(alloc, &ROOMY, left.new, 4, [true; 4])?;
                return Ok(end == Ok(ALL) && whole && call > 8);
            }
        }
    }
    Ok(false)
}

#[test]
fn a_disk_that_fails_in_a_carry_is_told(rt: HostRuntime) -> Result<(), Fail> {
    let alloc = rt.alloc();
    let old = old_cache(alloc)?;
    assert!(rt; may_old_fail(alloc, old.as_slice())?);
    for pick in [Pick::Old, Pick::New, Pick::Noise] {
        assert!(rt; may_new_fail(alloc, old.as_slice(), pick)?);
    }
    Ok(())
}
