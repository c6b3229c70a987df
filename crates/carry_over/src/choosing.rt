//! What is chosen of what an old cache kept, and of its cuts.
ghost use Rattle.std.specs.Prelude.{◌≡◌, ◌≤◌, ◌<◌, ◌^◌, ◌↔◌, ◌+◌, true, IfOk, OnOk, Some, length, slice_get};
ghost use Rattle.carry_over.specs.Chosen.{Chooses, ChoosesCuts, HasRoomIn};
ghost use Rattle.carry_over.specs.Copied.{Adds, IsChoice};

use cabinet::Kept;
use catalog::Catalogue;
use catalogue_change::stays;
use served_covers::is_cover_of;
use std::alloc::{AllocError, Global};
use truncation_list::{Cut, CutList};

/// Why a kept metatile is taken over or not.
#[derive(Clone, Copy, PartialEq, Eq)]
pub enum Choice {
    /// The change of the catalogue doesn't leave it alone.
    Gone,
    /// It stays, but its region ends past the room of the new catalogue.
    Roomless,
    Taken,
}

/// Whether a kept metatile's region ends within the room of a catalogue's blobs.
fn has_room(to: &Catalogue, kept: &Kept) -> bool
    ensures { (result ≡ true) ↔ HasRoomIn to.now kept.now }
{
    let room = to.blob_bytes;
    let size = u64::from(kept.length);
    if size > room {
        return false;
    }
    kept.place <= room - size
}

fn choice_of(from: &Catalogue, to: &Catalogue, kept: &Kept) -> Choice
    ensures { IsChoice from.now to.now kept.now result }
{
    if !stays(from, to, &kept.meta) {
        return Choice::Gone;
    }
    if !has_room(to, kept) {
        return Choice::Roomless;
    }
    Choice::Taken
}

/// Adds a metatile to the chosen ones, or counts it as one without room. `AllocError` where memory runs out.
fn add(
    chosen: &mut Vec<Kept>,
    roomless: &mut u64,
    kept: Kept,
    choice: Choice,
) -> Result<(), AllocError>
    requires { roomless.old < 2 ^ 63 }
    ensures { OnOk result (Adds kept choice chosen.old.items roomless.old chosen.new.items roomless.new) }
{
    match choice {
        Choice::Gone => Ok(()),
        Choice::Roomless => {
            *roomless += 1;
            Ok(())
        }
        Choice::Taken => match chosen.push(kept) {
            Err(_) => Err(AllocError),
            Ok(()) => Ok(()),
        },
    }
}

/// The one at a place of a list.
pub(crate) fn kept_at(kept: &[Kept], at: usize) -> Kept
    requires { at < length kept.now }
    ensures { slice_get kept.now at ≡ Some result }
{
    kept[at]
}

/// What was chosen of a kept list, and how many stay and have no room.
#[derive(Drop)]
pub struct Chosen {
    pub kept: Vec<Kept>,
    pub roomless: u64,
}

/// The metatiles of a kept list that stay and have room under a new catalogue, as they are. `AllocError` where memory runs out.
pub fn choose(
    alloc: Global,
    from: &Catalogue,
    to: &Catalogue,
    kept: &[Kept],
) -> Result<Chosen, AllocError>
    ensures { IfOk result (λ chosen. Chooses from.now to.now kept.now chosen.kept.items chosen.roomless) }
{
    let mut chosen = Vec::new(alloc);
    let mut roomless = 0;
    'choosing: for at in 0..kept.len() {
        let t = kept_at(kept, at);
        let choice = choice_of(from, to, &t);
        match add(&mut chosen, &mut roomless, t, choice) {
            Err(fault) => return Err(fault),
            Ok(()) => {}
        }
    }
    Ok(Chosen {
        kept: chosen,
        roomless,
    })
}

/// The cuts of a list whose covers are of a catalogue, as they are. `AllocError` where memory runs out.
pub fn choose_cuts(alloc: Global, to: &Catalogue, cuts: &CutList) -> Result<Vec<Cut>, AllocError>
    ensures { IfOk result (λ chosen. ChoosesCuts to.now cuts.now.book.cuts chosen.items) }
{
    let mut chosen = Vec::new(alloc);
    'choosing: for at in 0..cuts.count() {
        let (number, cover) = cuts.cut_at(at);
        if is_cover_of(to, &cover) {
            match chosen.push(Cut { number, cover }) {
                Err(_) => return Err(AllocError),
                Ok(()) => {}
            }
        }
    }
    Ok(chosen)
}
