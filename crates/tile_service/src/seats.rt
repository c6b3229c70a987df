//! The seats of the actors, and the pending request of each busy one.
ghost use Rattle.std.specs.Prelude.{◌≡◌, IfOk, IsSome, None, ◌<◌, is_some, length, replicate, slice_get, slice_set};
ghost use Rattle.cache_core.specs.Lasting.{Lasting};
ghost use Rattle.cache_core.specs.Steps.{given_up};
ghost use Rattle.tile_requests.specs.Events.{GoesOn};
ghost use Rattle.tile_service.specs.Seats.{all_left, action_end_of, pending_at, is_free, next_seat};

use crate::action_end::{ActionEnd, LineAnswer};
use cabinet::Keeper;
use cache_core::{Actor, Step, give_up, laws_of_lasting};
use matrix_geometry::Address;
use std::alloc::{AllocError, Global};
use std::mem;
use tile_requests::{Spelling, outcome_of};

/// How many actors a schedule has.
pub const ACTORS: usize = 64;

/// A pending request for a tile: it was asked for, and is not answered yet.
pub struct Pending {
    /// The line in which it started, counted from 1.
    pub start: u64,
    /// How a tile is spelt in its answer.
    pub spelling: Spelling,
    pub address: Address,
    pub actor: Actor,
}

/// What an actor is busy with.
pub enum ActorPlace {
    Free,
    Busy(Pending),
}

/// Seats at which no actor is busy. `AllocError` where memory runs out.
pub fn free_seats(alloc: Global) -> Result<Vec<ActorPlace>, AllocError>
    ensures { IfOk result (λ v. v.items ≡ replicate ACTORS ActorPlace.Free) }
{
    let mut seats = Vec::with_capacity(alloc, ACTORS)?;
    for _ in 0..ACTORS {
        seats.push_reserved(ActorPlace::Free);
    }
    Ok(seats)
}

/// Whether there is the seat of this actor, and it is not busy.
pub fn is_free(seats: &[ActorPlace], actor: u32) -> bool
    ensures { result ≡ is_free (slice_get seats.now actor) }
{
    match seats.get(actor as usize) {
        None => false,
        Some(ActorPlace::Free) => true,
        Some(ActorPlace::Busy(_)) => false,
    }
}

/// Whether this actor is busy.
pub fn is_busy(seats: &[ActorPlace], actor: u32) -> bool
    ensures { result ≡ is_some (pending_at (slice_get seats.now actor)) }
{
    match seats.get(actor as usize) {
        None => false,
        Some(ActorPlace::Free) => false,
        Some(ActorPlace::Busy(_)) => true,
    }
}

/// Takes the pending request of a seat, where an actor is busy.
pub fn pending_at(seats: &mut [ActorPlace], actor: u32) -> Option<Pending>
    ensures pending { result ≡ pending_at (slice_get seats.old actor) }
    ensures some { IsSome result → seats.new ≡ slice_set seats.old actor ActorPlace.Free }
    ensures none { result ≡ None → seats.new ≡ seats.old }
{
    if !is_busy(seats, actor) {
        return None;
    }
    match mem::replace(&mut seats[actor as usize], ActorPlace::Free) {
        ActorPlace::Free => unreachable!(),
        ActorPlace::Busy(pending) => Some(pending),
    }
}

/// Puts what an actor is busy with at its free seat.
fn put<C: Keeper>(cabinet: &mut C, seats: &mut [ActorPlace], actor: u32, seat: ActorPlace)
    requires { slice_get seats.old actor ≡ Some ActorPlace.Free }
    ensures seats { seats.new ≡ slice_set seats.old actor seat }
    ensures cabinet { C.state cabinet.new ≡ C.state cabinet.old }
    ensures faults { C.faults cabinet.new ≡ C.faults cabinet.old }
    ensures lasts { Lasting (C.outlasts cabinet.old cabinet.new) (C.state cabinet.old) (C.state cabinet.new) }
{
    laws_of_lasting::<C>();
    match mem::replace(&mut seats[actor as usize], seat) {
        ActorPlace::Free => {}
        ActorPlace::Busy(pending) => leave(cabinet, pending),
    }
}

/// Puts the free seat of an actor after events of a request that started in line `start`, and says what they answer.
pub fn settle<C: Keeper>(
    cabinet: &mut C,
    seats: &mut [ActorPlace],
    actor: u32,
    start: u64,
    spelling: Spelling,
    address: &Address,
    step: Step,
) -> ActionEnd
    requires free { slice_get seats.old actor ≡ Some ActorPlace.Free }
    requires goes_on { GoesOn step.actor step.outcome }
    ensures end { result ≡ action_end_of actor start spelling step.outcome }
    ensures seats { seats.new ≡ slice_set seats.old actor (next_seat start spelling address.now step.actor step.outcome) }
    ensures cabinet { C.state cabinet.new ≡ C.state cabinet.old }
    ensures faults { C.faults cabinet.new ≡ C.faults cabinet.old }
    ensures lasts { Lasting (C.outlasts cabinet.old cabinet.new) (C.state cabinet.old) (C.state cabinet.new) }
{
    laws_of_lasting::<C>();
    let Step {
        actor: state,
        outcome,
    } = step;
    match outcome {
        None => {
            let pending = Pending {
                start,
                spelling,
                address: *address,
                actor: state,
            };
            put(cabinet, seats, actor, ActorPlace::Busy(pending));
            ActionEnd::Silent
        }
        Some(outcome) => {
            give_up(cabinet, state);
            put(cabinet, seats, actor, ActorPlace::Free);
            ActionEnd::Answers(LineAnswer {
                actor,
                start,
                spelling,
                outcome: outcome_of(outcome),
            })
        }
    }
}

/// A pending request ends without an outcome.
fn leave<C: Keeper>(cabinet: &mut C, pending: Pending)
    ensures cabinet { C.state cabinet.new ≡ given_up (C.state cabinet.old) pending.actor }
    ensures faults { C.faults cabinet.new ≡ C.faults cabinet.old }
    ensures lasts { Lasting (C.outlasts cabinet.old cabinet.new) (C.state cabinet.old) (C.state cabinet.new) }
{
    let Pending {
        start: _,
        spelling: _,
        address: _,
        actor,
    } = pending;
    give_up(cabinet, actor);
}

/// Gives up all pending requests, in the order of their actors.
pub fn close<C: Keeper>(cabinet: &mut C, mut seats: Vec<ActorPlace>)
    ensures cabinet { C.state cabinet.new ≡ all_left (C.state cabinet.old) seats.items }
    ensures faults { C.faults cabinet.new ≡ C.faults cabinet.old }
    ensures lasts { Lasting (C.outlasts cabinet.old cabinet.new) (C.state cabinet.old) (C.state cabinet.new) }
{
    laws_of_lasting::<C>();
    seats.reverse();
    while !seats.is_empty() {
        match seats.take_last() {
            ActorPlace::Free => {}
            ActorPlace::Busy(pending) => leave(cabinet, pending),
        }
    }
    seats.destroy_empty();
}
