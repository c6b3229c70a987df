//! What a carry is to take over, reckoned before anything is written.
ghost use Rattle.std.specs.Option.{option_map_or};
ghost use Rattle.std.specs.Prelude.{◌≡◌, ◌≤◌, ◌<◌, ◌-◌, ◌^◌, ◌+◌, drop, IfErr, IfNone, IfOk, IfSome, length};
ghost use Rattle.carry_over.specs.Planned.{IsPlanFault, IsPlanned};
ghost use Rattle.catalog.specs.Valid.{IsValid};

use crate::choosing::{Chosen, choose, choose_cuts};
use crate::fault::CarryFault;
use cabinet::Kept;
use catalog::Catalogue;
use gate_journal::OpenFault;
use std::alloc::Global;
use truncation_list::{Cut, CutList};

/// What is to be taken over: the number of the opening that the new cache begins with, its floor and cuts, and the metatiles that were chosen.
#[derive(Drop)]
pub struct CarryPlan {
    pub number: u32,
    pub floor: u64,
    pub cuts: Vec<Cut>,
    pub chosen: Chosen,
}

/// The number of the opening that follows the last one; `None` where it would not fit 24 bits.
fn number_after(opening: Option<u32>) -> Option<u32>
    ensures some { IfSome result (λ n. (n ≡ option_map_or (λ e. e) opening 0 + 1) × (n < 2 ^ 24)) }
    ensures none { IfNone result (2 ^ 24 ≤ option_map_or (λ e. e) opening 0 + 1) }
{
    let last = match opening {
        Some(number) => number,
        None => 0,
    };
    if last < 0x00ff_ffff {
        return Some(last + 1);
    }
    None
}

/// The last ones of a kept list, no more than so many.
fn last_of(kept: &[Kept], limit: usize) -> &[Kept]
    ensures { result.now ≡ drop (length kept.now - limit) kept.now }
{
    kept.split_at(kept.len().saturating_sub(limit)).1
}

/// Plans what is taken over of what an old cache was restored to. A fault is that no number of an opening is left, that more cuts are of the new catalogue than
/// may be listed, or that memory ran out.
pub fn plan(
    alloc: Global,
    from: &Catalogue,
    to: &Catalogue,
    opening: Option<u32>,
    kept: &[Kept],
    cuts: &CutList,
) -> Result<CarryPlan, CarryFault>
    ensures planned { IfOk result (λ p. IsPlanned from.now to.now opening kept.now cuts.now.book p.number p.floor p.cuts.items p.chosen.kept.items p.chosen.roomless) }
    ensures cause { IfErr result (IsPlanFault to.now opening cuts.now.book) }
{
    let number = match number_after(opening) {
        None => return Err(CarryFault::Old(OpenFault::Spent)),
        Some(number) => number,
    };
    let listed = match choose_cuts(alloc, to, cuts) {
        Err(_) => return Err(CarryFault::OutOfMemory),
        Ok(listed) => listed,
    };
    if listed.len() > to.cut_limit as usize {
        return Err(CarryFault::CutsFull);
    }
    match choose(alloc, from, to, last_of(kept, to.kept_limit as usize)) {
        Err(_) => Err(CarryFault::OutOfMemory),
        Ok(chosen) => Ok(CarryPlan {
            number,
            floor: cuts.floor(),
            cuts: listed,
            chosen,
        }),
    }
}
