//! Aims cuts at the metatiles of zooms, and looks for one that hits a metatile. What a cover reaches is reckoned once for a zoom, and not for each metatile.
ghost use Rattle.std.specs.List.{All, AllByRecursion};
ghost use Rattle.std.specs.Prelude.{[], IfOk, IfSome, OnErr, OnOk, length, take, true, ◌++◌, ◌<◌, ◌∷◌, ◌≡◌, ◌≤◌, if◌then◌else◌};
ghost use Rattle.cabinet_records.specs.Aiming.{AreAimed, IsOfZoom, IsZoomOn, NumbersFall, aimed_at, is_aimed_at, is_aimed_since, is_for};
ghost use Rattle.matrix_geometry.specs.Ranges.{is_in_some_range};
ghost use Rattle.metatile_locks.specs.Running.{block};
ghost use Rattle.truncation_list.specs.Covers.{IsWithinReach};
ghost use Rattle.truncation_list.specs.Listed.{is_hit_since};

use crate::replay::aimed::{AimedCut, Aims, Zoom};
use catalog::Grid;
use matrix_geometry::Range;
use metatile_locks::reach;
use metatile_plan::MetaKey;
use std::alloc::{AllocError, Global};
use truncation_list::{Cover, CutList};

/// How many zooms have a list at most: each is looked for along all of them.
const MOST_ZOOMS: usize = 1024;

fn is_for(zoom: &Zoom, cover: &Cover) -> bool
    ensures { result ≡ is_for zoom.now cover.now }
{
    cover.layer == zoom.layer
        && cover.grid == zoom.grid
        && cover.z_start <= zoom.z
        && zoom.z <= cover.z_stop
}

/// A cut with the metatiles of a zoom that its cover reaches.
fn aimed_at(zoom: &Zoom, grid: &Grid, number: u64, cover: &Cover) -> AimedCut
    requires zoom { IsZoomOn grid.now zoom.now }
    requires reach { IsWithinReach cover.now }
    ensures { result ≡ aimed_at zoom.now (record { number = number; cover = cover.now }) }
{
    AimedCut {
        number,
        reach: reach(&zoom.factors, grid, zoom.z, cover),
        filter: cover.filter,
    }
}

/// Adds a cut behind the others, where it is for their zoom, and tells how many were added. `AllocError` where memory runs out.
fn put(aims: &mut Aims, grid: &Grid, number: u64, cover: &Cover) -> Result<u32, AllocError>
    requires zoom { IsZoomOn grid.now aims.old.zoom }
    requires reach { IsWithinReach cover.now }
    ensures zoom { aims.new.zoom ≡ aims.old.zoom }
    ensures left { aims.new.left ≡ aims.old.left }
    ensures cuts { OnOk result (aims.new.cuts.items ≡ (if is_for aims.old.zoom cover.now then aims.old.cuts.items ++ aimed_at aims.old.zoom (record { number = number; cover = cover.now }) ∷ [] else aims.old.cuts.items)) }
    ensures one { IfOk result (λ count. count ≤ 1) }
    ensures same { OnErr result (aims.new.cuts.items ≡ aims.old.cuts.items) }
{
    if !is_for(&aims.zoom, cover) {
        return Ok(0);
    }
    let cut = aimed_at(&aims.zoom, grid, number, cover);
    match aims.cuts.push(cut) {
        Err(_) => Err(AllocError),
        Ok(()) => Ok(1),
    }
}

/// Looks at the cuts before those that were looked at, the last one first, down to one of a lesser number. It ends before that where memory runs out, or
/// where no more may be aimed than `room` tells, which falls with each.
fn aim_down(aims: &mut Aims, cuts: &CutList, grid: &Grid, number: u64, room: &mut u32)
    requires zoom { IsZoomOn grid.now aims.old.zoom }
    requires aimed { AreAimed cuts.now.book.cuts aims.old }
    ensures { AreAimed cuts.now.book.cuts aims.new }
{
    let _count = cuts.count();
    'aiming: while aims.left > 0 && *room > 0 {
        let (last, cover) = cuts.cut_at(aims.left - 1);
        if last < number {
            return;
        }
        match put(aims, grid, last, &cover) {
            Err(_) => return,
            Ok(count) => *room -= count,
        }
        aims.left -= 1;
    }
}

/// Whether two zooms are one.
fn is_same(zoom: &Zoom, other: &Zoom) -> bool
    ensures { result ≡ true → zoom.now ≡ other.now }
{
    *zoom == *other
}

/// The place of a zoom's list, `None` where it has none.
fn find(lists: &[Aims], zoom: &Zoom) -> Option<usize>
    ensures { IfSome result (λ at. at < length lists.now) }
{
    'finding: for at in 0..lists.len() {
        if is_same(&lists[at].zoom, zoom) {
            return Some(at);
        }
    }
    None
}

/// The place of a zoom's list, which is made where it is missing; `None` where there are many, or no memory.
fn place_of(lists: &mut Vec<Aims>, alloc: Global, cuts: &CutList, zoom: &Zoom) -> Option<usize>
    requires { All (AreAimed cuts.now.book.cuts) lists.old.items }
    ensures aimed { All (AreAimed cuts.now.book.cuts) lists.new.items }
    ensures place { IfSome result (λ at. at < length lists.new.items) }
{
    match find(lists.as_slice(), zoom) {
        Some(at) => return Some(at),
        None => {}
    }
    let at = lists.len();
    if at >= MOST_ZOOMS {
        return None;
    }
    let aims = Aims {
        zoom: *zoom,
        left: cuts.count(),
        cuts: Vec::new(alloc),
    };
    match lists.push(aims) {
        Err(_) => None,
        Ok(()) => Some(at),
    }
}

/// Aims the cuts at a zoom, from the last one down to those of lesser numbers than this, and tells the place of its list. There is none at that place, or
/// it doesn't go so far, where there is no memory, or no `room`.
pub fn aim_at(
    lists: &mut Vec<Aims>,
    alloc: Global,
    cuts: &CutList,
    zoom: &Zoom,
    grid: &Grid,
    number: u64,
    room: &mut u32,
) -> usize
    requires zoom { IsZoomOn grid.now zoom.now }
    requires aimed { All (AreAimed cuts.now.book.cuts) lists.old.items }
    ensures { All (AreAimed cuts.now.book.cuts) lists.new.items }
{
    match place_of(lists, alloc, cuts, zoom) {
        None => lists.len(),
        Some(at) => {
            let aims = &mut lists[at];
            if is_same(&aims.zoom, zoom) {
                aim_down(aims, cuts, grid, number, room);
            }
            at
        }
    }
}

fn is_within(reach: Option<Range>, row: u32, col: u32) -> bool
    ensures { result ≡ is_in_some_range reach row col }
{
    match reach {
        None => false,
        Some(r) => r.row_min <= row && row <= r.row_max && r.col_min <= col && col <= r.col_max,
    }
}

/// Whether an aimed cut hits a metatile of its zoom.
fn is_aimed_at(cut: &AimedCut, meta: &MetaKey) -> bool
    ensures { result ≡ is_aimed_at cut.now meta.now }
{
    is_within(cut.reach, meta.row, meta.col) && cut.filter.admits(&meta.theme)
}

/// Whether one of the aimed cuts, of this number or a greater one, hits a metatile of their zoom. None is looked at behind the first one of a lesser number.
fn is_aimed_since(cuts: &[AimedCut], number: u64, meta: &MetaKey) -> bool
    requires { NumbersFall cuts.now }
    ensures { result ≡ is_aimed_since cuts.now number meta.now }
{
    'looking: for i in 0..cuts.len() {
        let cut = &cuts[i];
        if cut.number < number {
            return false;
        }
        if is_aimed_at(cut, meta) {
            return true;
        }
    }
    false
}

/// Whether each cut that wasn't looked at is of a lesser number than this.
fn goes_down_to(aims: &Aims, cuts: &CutList, number: u64) -> bool
    requires { AreAimed cuts.now.book.cuts aims.now }
    ensures { result ≡ true → AllByRecursion (λ cut. cut.number < number) (take aims.now.left cuts.now.book.cuts) }
{
    let _count = cuts.count();
    if aims.left == 0 {
        return true;
    }
    let (last, _) = cuts.cut_at(aims.left - 1);
    last < number
}

/// Whether a cut of this number or a greater one hits a metatile of the zoom; `None` where the list is another zoom's, or doesn't go down to that number.
pub fn hit_since(
    aims: &Aims,
    cuts: &CutList,
    zoom: &Zoom,
    number: u64,
    meta: &MetaKey,
) -> Option<bool>
    requires aimed { AreAimed cuts.now.book.cuts aims.now }
    requires meta { IsOfZoom zoom.now meta.now }
    ensures { IfSome result (λ is. is ≡ is_hit_since cuts.now.book.cuts zoom.now.matrix (block zoom.now.factors zoom.now.matrix meta.now) number) }
{
    if !is_same(&aims.zoom, zoom) {
        return None;
    }
    if !goes_down_to(aims, cuts, number) {
        return None;
    }
    let _count = cuts.count();
    Some(is_aimed_since(&aims.cuts, number, meta))
}
