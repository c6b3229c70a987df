//! Which covers have numbers that a catalogue may have.
ghost use Rattle.std.specs.List.{AllByRecursion};
ghost use Rattle.std.specs.Prelude.{◌≡◌, ◌↔◌, ◌<◌, ◌≤◌, ◌^◌, true, length, unsigned_abs, IfSome};
ghost use Rattle.matrix_geometry.specs.Limits.{IsReachable};
ghost use Rattle.outbox.specs.Packets.{IsRanged, IsRangedCover};
ghost use Rattle.outbox.specs.declared.packet.Packet.TheVariants as packet;

use matrix_geometry::Box9;
use truncation_list::Cover;

/// The farthest that an edge of a box may lie from 0, in billionths of a unit: 10^8 units.
const REACH: u64 = 100_000_000_000_000_000;

fn is_near(edge: i64) -> bool
    ensures { (result ≡ true) ↔ (unsigned_abs edge ≤ 10 ^ 17) }
{
    edge.unsigned_abs() <= REACH
}

fn is_reachable(bounds: &Box9) -> bool
    ensures { (result ≡ true) ↔ IsReachable bounds.now }
{
    is_near(bounds.min_x) && is_near(bounds.min_y) && is_near(bounds.max_x) && is_near(bounds.max_y)
}

fn are_reachable(bounds: Option<Box9>) -> bool
    ensures { (result ≡ true) ↔ IfSome bounds IsReachable }
{
    match bounds {
        Some(bounds) => is_reachable(&bounds),
        None => true,
    }
}

/// Whether a number is below a limit, where there is one.
fn is_below(number: Option<u32>, limit: u32) -> bool
    ensures { (result ≡ true) ↔ IfSome number (λ n. n < limit) }
{
    match number {
        Some(number) => number < limit,
        None => true,
    }
}

fn are_values(values: [Option<u32>; 4]) -> bool
    ensures four { length values ≡ 4 }
    ensures values { (result ≡ true) ↔ AllByRecursion (λ wanted. IfSome wanted (λ value. value < 1024)) values }
{
    let [first, second, third, fourth] = values;
    is_below(first, 1024)
        && is_below(second, 1024)
        && is_below(third, 1024)
        && is_below(fourth, 1024)
}

fn are_numbers(cover: &Cover) -> bool
    ensures { (result ≡ true) ↔ ((cover.now.layer < 64) × (cover.now.grid < 16) × (cover.now.z_start < 30) × (cover.now.z_stop < 30)) }
{
    cover.layer < 64 && cover.grid < 16 && cover.z_start < 30 && cover.z_stop < 30
}

/// Whether the numbers of a cover are such as a catalogue may have.
fn is_ranged_cover(cover: &Cover) -> bool
    ensures { (result ≡ true) ↔ IsRangedCover cover.now }
{
    if !are_numbers(cover) {
        return false;
    }
    if !is_below(cover.filter.style, 32) {
        return false;
    }
    if !are_values(cover.filter.dims) {
        return false;
    }
    are_reachable(cover.bounds)
}

/// Whether a change of this number and cover is one that a packet may have.
pub(crate) fn is_ranged(number: u64, cover: &Cover) -> bool
    ensures { (result ≡ true) ↔ IsRanged (packet.Change number cover.now) }
{
    if number < 1 {
        return false;
    }
    is_ranged_cover(cover)
}
