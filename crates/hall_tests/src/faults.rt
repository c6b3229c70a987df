//! Sessions one of whose objects fails: at its first call, at its second, and so on up to a session without a fault. Behind each
//! session another one is held in the same hall.
ghost use Rattle.std.specs.Prelude.{IfOk, ◌≡◌, []};
ghost use Rattle.catalog.specs.Demo.{demo};
ghost use Rattle.hall_tests.specs.Fit.{IsFit};
ghost use Rattle.job_board.specs.Calls.{IsBoardPass};

use crate::on_disk::opened;
use crate::pair::pair_of;
use crate::texts::{
    CUT, LAST_MESSAGE, LOST, LOST_LAST, MESSAGES, TILE, TILE_AGAIN, TILE_HEAD, TILE_OLD, UNCUT,
};
use crate::visit::{Visit, held, visit_of};
use cabinet::Keeper;
use cabinet_chest::CabinetChest;
use hall_sessions::World;
use http_wire::{MemoryLink, MemorySink, MemorySource};
use job_board::BoardPass;
use sessions::SessionEnd;
use source_render::Scripted;
use std::alloc::{AllocError, Global};
use std::sync::Wait;
use std::test::Fail;
use turnstile::Pass;

/// More calls than an object has in such a session.
const CALLS: u64 = 64;

/// What fails.
#[derive(Clone, Copy, PartialEq, Eq)]
enum Object {
    Source,
    Reads,
    Writes,
    Disk,
}

/// What came of a session, and what the one behind it answered.
#[derive(Drop)]
struct Seen {
    end: SessionEnd,
    output: Vec<u8>,
    later: Vec<u8>,
}

/// Whether these bytes are those texts, one after the other.
fn is_made_of(bytes: &[u8], texts: &[&[u8]]) -> bool {
    let mut rest = bytes;
    for text in texts {
        let Some(behind) = rest.strip_prefix(*text) else {
            return false;
        };
        rest = behind;
    }
    rest.is_empty()
}

/// Whether these bytes are the front of those texts, one after the other.
fn is_front_of(bytes: &[u8], texts: &[&[u8]]) -> bool {
    let mut rest = bytes;
    for text in texts {
        let Some(behind) = rest.strip_prefix(*text) else {
            return text.starts_with(rest);
        };
        rest = behind;
    }
    rest.is_empty()
}

impl Seen {
    /// Whether this is a session without a fault, as far as it shows.
    fn is_whole(&self) -> bool {
        self.end == SessionEnd::Closed
            && is_made_of(self.output.as_slice(), &[TILE, CUT, TILE_AGAIN])
    }

    /// Whether a session comes to this where a read of its link fails: it has answered the messages that it had.
    fn is_cut_short(&self) -> bool {
        let output = self.output.as_slice();
        self.end == SessionEnd::ReadFault
            && (is_made_of(output, &[])
                || is_made_of(output, &[TILE])
                || is_made_of(output, &[TILE, CUT]))
    }

    /// Whether a session may come to this where a call of this object fails.
    fn is_right(&self, object: Object) -> bool {
        let output = self.output.as_slice();
        match object {
            Object::Source => {
                self.end == SessionEnd::Closed
                    && (is_made_of(output, &[LOST, CUT, TILE_AGAIN])
                        || is_made_of(output, &[TILE, CUT, LOST_LAST]))
            }
            Object::Reads => self.is_cut_short(),
            Object::Writes => {
                self.end == SessionEnd::WriteFault && is_front_of(output, &[TILE, CUT, TILE_AGAIN])
            }
            Object::Disk => {
                self.end == SessionEnd::Closed && is_made_of(output, &[TILE, UNCUT, TILE_OLD])
            }
        }
    }

    /// Whether the session behind it answers the tile, and not the one of before where the truncation was answered.
    fn goes_on(&self) -> bool {
        let later = self.later.as_slice();
        let is_old = later == TILE_OLD;
        later.starts_with(TILE_HEAD) && !(is_old && has_cut(self.output.as_slice()))
    }
}

/// Whether the truncation was answered behind the first message.
fn has_cut(output: &[u8]) -> bool {
    if let Some(behind) = output.strip_prefix(TILE) {
        return behind.starts_with(CUT);
    }
    if let Some(behind) = output.strip_prefix(LOST) {
        return behind.starts_with(CUT);
    }
    false
}

/// The call that fails, where it is one of this object.
fn fails_of(alloc: Global, is_this: bool, call: u64) -> Result<Vec<u64>, AllocError> {
    let mut fails = Vec::new(alloc);
    if is_this {
        fails.push(call)?;
    }
    Ok(fails)
}

/// A link of these bytes, of which a call fails where that is one of its sides.
fn link_of(
    alloc: Global,
    bytes: &[u8],
    object: Object,
    call: u64,
) -> Result<MemoryLink, AllocError> {
    let reads = fails_of(alloc, object == Object::Reads, call)?;
    let writes = fails_of(alloc, object == Object::Writes, call)?;
    Ok(MemoryLink::new(
        MemorySource::new(Vec::from_slice(alloc, bytes)?, 64, reads),
        MemorySink::new(alloc, writes),
    ))
}

/// Holds a session over these bytes, in which this call of an object fails, and tells its end and what was written.
fn session<R: Wait, K: Keeper>(
    rt: &R,
    alloc: Global,
    world: &World<K>,
    pass: &mut Pass<CabinetChest<K>>,
    board: &mut BoardPass,
    bytes: &[u8],
    object: Object,
    call: u64,
) -> Result<(SessionEnd, Vec<u8>), AllocError>
    requires fit { IsFit world.now.hall.turnstile world.now.hall.catalogue pass.old }
    requires board { IsBoardPass world.now.board.turnstile.table board.old }
    requires no_recipes { world.now.recipes.recipes.items ≡ [] }
    ensures { IfOk result (λ _. IsBoardPass world.now.board.turnstile.table board.new) }
{
    let mut source = Scripted::new(0, fails_of(alloc, object == Object::Source, call)?);
    let link = link_of(alloc, bytes, object, call)?;
    held(rt, alloc, world, pass, board, &mut source, link)
}

/// Holds a session in which this call of an object fails, and then another one over the same cabinet, whose objects don't fail but for
/// its disk.
fn seen_of<R: Wait, K: Keeper>(
    rt: &R,
    alloc: Global,
    visit: &mut Visit<K>,
    object: Object,
    call: u64,
) -> Result<Seen, AllocError>
    requires a { IsFit visit.old.world.hall.turnstile visit.old.world.hall.catalogue visit.old.a }
    requires b { IsFit visit.old.world.hall.turnstile visit.old.world.hall.catalogue visit.old.b }
    requires board { IsBoardPass visit.old.world.board.turnstile.table visit.old.board }
    requires no_recipes { visit.old.world.recipes.recipes.items ≡ [] }
{
    let world = &visit.world;
    let (a, b, board) = (&mut visit.a, &mut visit.b, &mut visit.board);
    let (end, output) = session(rt, alloc, world, a, board, MESSAGES, object, call)?;
    let other = Object::Disk;
    let (_, later) = session(rt, alloc, world, b, board, LAST_MESSAGE, other, call)?;
    Ok(Seen { end, output, later })
}

/// The same over a cabinet of the built-in catalogue.
fn seen_over<R: Wait, K: Keeper>(
    rt: &R,
    alloc: Global,
    keeper: K,
    object: Object,
    call: u64,
) -> Result<Option<Seen>, AllocError>
    requires demo { (K.state keeper).catalogue ≡ demo }
{
    let Some(pair) = pair_of(alloc, keeper)? else {
        return Ok(None);
    };
    let Some(mut visit) = visit_of(alloc, pair)? else {
        return Ok(None);
    };
    let seen = seen_of(rt, alloc, &mut visit, object, call);
    drop(visit);
    Ok(Some(seen?))
}

/// Holds such sessions over a cabinet on a disk; `None` where the cache can't be opened for that.
fn held_with<R: Wait>(
    rt: &R,
    alloc: Global,
    object: Object,
    call: u64,
) -> Result<Option<Seen>, AllocError> {
    match opened(alloc, fails_of(alloc, object == Object::Disk, call)?)? {
        Some(cabinet) => seen_over(rt, alloc, cabinet, object, call),
        None => Ok(None),
    }
}

/// Whether all sessions in which one call of this object fails come to what they may, one of them to less than a whole one, and the
/// last of them, whose object has no such call any more, to a whole one.
fn is_right_at_each_call<R: Wait>(
    rt: &R,
    alloc: Global,
    object: Object,
) -> Result<bool, AllocError> {
    let (mut is_whole, mut has_failed) = (false, false);
    for call in 1..=CALLS {
        let Some(seen) = held_with(rt, alloc, object, call)? else {
            continue;
        };
        is_whole = seen.is_whole();
        has_failed = has_failed || !is_whole;
        if !seen.goes_on() || !(is_whole || seen.is_right(object)) {
            return Ok(false);
        }
    }
    Ok(is_whole && has_failed)
}

#[test]
fn a_source_may_fail_at_each_call(rt: HostRuntime) -> Result<(), Fail> {
    assert!(rt; is_right_at_each_call(&rt, rt.alloc(), Object::Source)?);
    Ok(())
}

#[test]
fn a_read_of_a_link_may_fail_at_each_call(rt: HostRuntime) -> Result<(), Fail> {
    assert!(rt; is_right_at_each_call(&rt, rt.alloc(), Object::Reads)?);
    Ok(())
}

#[test]
fn a_write_of_a_link_may_fail_at_each_call(rt: HostRuntime) -> Result<(), Fail> {
    assert!(rt; is_right_at_each_call(&rt, rt.alloc(), Object::Writes)?);
    Ok(())
}

#[test]
fn a_disk_may_fail_at_each_call(rt: HostRuntime) -> Result<(), Fail> {
    assert!(rt; is_right_at_each_call(&rt, rt.alloc(), Object::Disk)?);
    Ok(())
}
