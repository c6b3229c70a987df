//! Passes are dealt out when a turnstile is made, and gathered when it is closed.
ghost use Rattle.std.specs.List.{Contains};
ghost use Rattle.std.specs.Prelude.{◌≡◌, ◌-◌, ◌<◌, ◌≤◌, [], All, IfOk, length};
ghost use Rattle.truncation_list.specs.Books.{last_seen};
ghost use Rattle.turnstile.specs.Line.{AreAmong};
ghost use Rattle.turnstile.specs.Passes.{Holding, IsDealer, IsReady, fresh_pass, known_by, knows};
ghost use Rattle.turnstile.specs.Steps.{Found};
ghost use Rattle.turnstile.specs.Views.{first_view, turns_in};

use crate::chest::Chest;
use crate::pass::Pass;
use crate::turn_queue::TurnQueue;
use crate::view::{Lodged, Opening, View};
use atomic_table::Seat;
use std::alloc::{AllocError, Global};

/// Deals out one pass of a new table from a seat with so many parts left. `latest` is the greatest cut that its chest has
/// seen.
fn deal_one<C: Chest>(
    queue: &TurnQueue<C>,
    opening: &Opening<C>,
    seat: &mut Seat<Option<Lodged<C, C::Command, C::Reply>>, View<C, C::Charter, C::Note>>,
    left: u32,
    latest: u64,
) -> Pass<C>
    requires some { 0 < left }
    requires dealer { IsDealer C.charter C.book queue.now.table.shared.table_id opening.now left seat.old }
    requires latest { latest ≡ last_seen (C.book opening.now.start.chest).book }
    ensures dealer { IsDealer C.charter C.book queue.now.table.shared.table_id opening.now (left - 1) seat.new }
    ensures pass { result ≡ fresh_pass C.charter C.book queue.now.table.shared.table_id opening.now.start.chest opening.now.start.told }
{
    Pass::of(queue.deal(seat), latest)
}

/// All passes of a new table, from its first seat. `latest` is the greatest cut that its chest has seen.
pub fn deal_out<C: Chest>(
    alloc: Global,
    queue: &TurnQueue<C>,
    opening: &Opening<C>,
    seat: Seat<Option<Lodged<C, C::Command, C::Reply>>, View<C, C::Charter, C::Note>>,
    passes: u32,
    latest: u64,
) -> Result<Vec<Pass<C>>, AllocError>
    requires count { (0 < passes) × (passes ≡ opening.now.passes) }
    requires own { seat.table_id ≡ queue.now.table.shared.table_id }
    requires first { seat.me ≡ (first_view C.charter C.book opening.now, []) }
    requires latest { latest ≡ last_seen (C.book opening.now.start.chest).book }
    ensures count { IfOk result (λ all. length all.items ≡ passes) }
    ensures each { IfOk result (λ all. All (λ p. p ≡ fresh_pass C.charter C.book queue.now.table.shared.table_id opening.now.start.chest opening.now.start.told) all.items) }
{
    let mut seat = seat;
    let mut all = Vec::with_capacity(alloc, passes as usize)?;
    let mut left = passes;
    'dealing: while left > 1 {
        all.push(deal_one(queue, opening, &mut seat, left, latest))?;
        left -= 1;
    }
    all.push(Pass::of(seat, latest))?;
    Ok(all)
}

/// One seat that has heard of all passes, and has their parts.
pub fn gather<C: Chest>(
    queue: &TurnQueue<C>,
    passes: Vec<Pass<C>>,
) -> Seat<Option<Lodged<C, C::Command, C::Reply>>, View<C, C::Charter, C::Note>>
    requires own { All (λ p. p.table ≡ queue.now.table.shared.table_id) passes.items }
    requires some { 0 < length passes.items }
    ensures own { result.table_id ≡ queue.now.table.shared.table_id }
    ensures ready { IsReady (length passes.items) result }
    ensures turns { (p : Holding C.Charter C.Note) → Contains passes.items p → AreAmong p.made (turns_in (knows result)) }
    ensures known { (chest : C) → Found C.charter C.sound C.book (knows result).own chest → All (λ p. Found C.charter C.sound C.book (known_by p) chest) passes.items }
{
    let mut rest = passes;
    let Some(first) = rest.pop() else {
        unreachable!()
    };
    let mut all = first.into_seat();
    while let Some(next) = rest.pop() {
        queue.hear(&mut all, next.into_seat());
    }
    rest.destroy_empty();
    all
}
