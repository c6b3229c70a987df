//! The work on plain lists of renders.
ghost use Rattle.std.specs.Prelude.{◌≡◌, ◌≤◌, find, option_copied, vec_capacity, vec_len};
ghost use Rattle.catalog.specs.Valid.{IsGrid};
ghost use Rattle.metatile_locks.specs.Reach.{IsAimed};
ghost use Rattle.metatile_locks.specs.Running.{IsLeast, IsPlanOn, NumbersRise, hits_in, marked, overtaken, render_of, running_for, runs_for, without};
ghost use Rattle.truncation_list.specs.Covers.{IsWithinReach};

use crate::aim::Aim;
use crate::render::Render;
use catalog::Grid;
use metatile_plan::{Factors, MetaKey, same_meta};
use truncation_list::Cover;

fn find_running<'a>(renders: &'a [Render], meta: &MetaKey) -> Option<&'a Render>
    ensures { option_copied result ≡ find (runs_for meta.now) renders.now }
{
    renders.iter().find(|render| same_meta(&render.meta, meta) && render.mark.is_none())
}

/// The number of the render that runs for the metatile and is not overtaken.
pub fn running_for(renders: &[Render], meta: &MetaKey) -> Option<u64>
    ensures { result ≡ running_for meta.now renders.now }
{
    match find_running(renders, meta) {
        None => None,
        Some(render) => Some(render.number),
    }
}

/// The render of this number and metatile.
pub fn render_of<'a>(renders: &'a [Render], number: u64, meta: &MetaKey) -> Option<&'a Render>
    ensures { option_copied result ≡ render_of (record { number = number; meta = meta.now }) renders.now }
{
    renders.iter().find(|render| render.number == number && same_meta(&render.meta, meta))
}

/// The render, with this mark where the cover hits it.
fn marked_render(
    aim: &mut Aim,
    f: &Factors,
    grid: &Grid,
    cover: &Cover,
    number: u64,
    render: Render,
) -> Render
    requires grid { IsGrid grid.now }
    requires plan { IsPlanOn f.now grid.now }
    requires reach { IsWithinReach cover.now }
    requires aimed { IsAimed f.now grid.now cover.now aim.old }
    ensures aimed { IsAimed f.now grid.now cover.now aim.new }
    ensures marked { result ≡ marked (hits_in f.now grid.now cover.now) number render }
{
    if aim.hits(f, grid, cover, &render.meta) {
        return Render {
            mark: Some(number),
            ..render
        };
    }
    render
}

/// Marks each render that the cover hits.
fn mark_each(renders: &mut [Render], f: &Factors, grid: &Grid, cover: &Cover, number: u64)
    requires grid { IsGrid grid.now }
    requires plan { IsPlanOn f.now grid.now }
    requires reach { IsWithinReach cover.now }
    ensures { renders.new ≡ overtaken (hits_in f.now grid.now cover.now) number renders.old }
{
    let mut aim = Aim::at(f, grid, cover, cover.z_start);
    'marking: for i in 0..renders.len() {
        renders[i] = marked_render(&mut aim, f, grid, cover, number, renders[i]);
    }
}

/// Marks each render that the cover hits, with no memory taken.
pub fn overtake(renders: &mut Vec<Render>, f: &Factors, grid: &Grid, cover: &Cover, number: u64)
    requires grid { IsGrid grid.now }
    requires plan { IsPlanOn f.now grid.now }
    requires reach { IsWithinReach cover.now }
    ensures items { renders.new.items ≡ overtaken (hits_in f.now grid.now cover.now) number renders.old.items }
    ensures len { vec_len renders.new ≡ vec_len renders.old }
    ensures capacity { vec_capacity renders.new ≡ vec_capacity renders.old }
{
    mark_each(renders.as_mut_slice(), f, grid, cover, number);
}

/// Takes out the render of this number.
pub fn take_off(renders: &mut Vec<Render>, number: u64)
    ensures items { renders.new.items ≡ without number renders.old.items }
    ensures len { vec_len renders.new ≤ vec_len renders.old }
    ensures capacity { vec_capacity renders.new ≡ vec_capacity renders.old }
{
    renders.retain(|render| render.number != number);
}

/// The least number of a render.
pub fn least(renders: &[Render]) -> Option<u64>
    requires { NumbersRise renders.now }
    ensures { IsLeast result renders.now }
{
    if renders.is_empty() {
        return None;
    }
    let first = renders[0];
    Some(first.number)
}
