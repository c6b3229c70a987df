//! The action of a line is performed: its actor sends a message, or makes the next event of its pending request.
ghost use Rattle.std.specs.Prelude.{◌≡◌, ◌≤◌, List, None, Option, Some, slice_get};
ghost use Rattle.cache_core.specs.Lasting.{Lasting};
ghost use Rattle.catalog.specs.Valid.{IsValid};
ghost use Rattle.sessions.specs.Outside.{counts};
ghost use Rattle.tile_requests.specs.Immediate.{IsImmediate};
ghost use Rattle.tile_requests.specs.Requests.{IsOf, tile_of};
ghost use Rattle.tile_requests.specs.Shown.{shown_message};
ghost use Rattle.tile_service.specs.Lines.{Sends, Steps, action_in};
ghost use Rattle.tile_service.specs.OneLine.{Performs, IsSeated};
ghost use Rattle.tile_service.specs.Performing.{IsAsked};
ghost use Rattle.tile_service.specs.Run.{PendingRequest};

use crate::action_end::{ActionEnd, LineAnswer};
use crate::counter::Counter;
use crate::lines::{Action, action_in};
use crate::seats::{ActorPlace, Pending, is_free, pending_at, settle};
use cabinet::Keeper;
use cache_access::Alone;
use cache_core::{advance, laws_of_lasting};
use source_render::Source;
use std::alloc::Global;
use tile_requests::{
    MessageRef, Mode, Outcome, Plain, Request, Spelling, events, immediate, laws_of_lone_threads,
    read_request, spelling_at,
};

/// An answer in the line in which the request starts.
fn answer_in_line(actor: u32, line: u64, spelling: Spelling, outcome: Outcome) -> ActionEnd
    ensures { result ≡ ActionEnd.Answers (record { actor = actor; start = line; spelling = spelling; outcome = outcome }) }
{
    ActionEnd::Answers(LineAnswer {
        actor,
        start: line,
        spelling,
        outcome,
    })
}

/// Answers a request that isn't for a tile, of a thread that has the cabinet for itself.
fn answered_at_once<C: Keeper>(alloc: Global, cabinet: &mut C, request: Request) -> Outcome
    requires valid { IsValid (C.state cabinet.old).catalogue }
    requires of { IsOf (C.state cabinet.old).catalogue request }
    requires other { tile_of request ≡ None }
    ensures immediate { IsImmediate (C.faults cabinet.old) (C.faults cabinet.new) (C.state cabinet.old) request result (C.state cabinet.new) }
    ensures catalogue { (C.state cabinet.new).catalogue ≡ (C.state cabinet.old).catalogue }
    ensures later { C.faults cabinet.old ≤ C.faults cabinet.new }
    ensures lasts { Lasting (C.outlasts cabinet.old cabinet.new) (C.state cabinet.old) (C.state cabinet.new) }
{
    laws_of_lone_threads();
    let way = Alone::new();
    immediate(&way, alloc, cabinet, request)
}

/// Serves a request that an actor starts in line `n`, and in whose answer a tile is spelt so.
fn start_request<C: Keeper, S: Source>(
    alloc: Global,
    counter: &mut Counter<C>,
    seats: &mut [ActorPlace],
    source: &mut S,
    n: u64,
    mode: Mode,
    actor: u32,
    spelling: Spelling,
    request: Request,
) -> ActionEnd
    requires valid { IsValid (C.state counter.old.cabinet).catalogue }
    requires of { IsOf (C.state counter.old.cabinet).catalogue request }
    requires free { slice_get seats.old actor ≡ Some ActorPlace.Free }
    ensures asked { IsAsked (S.told source.old) (S.faults source.old) (S.faults source.new) (counts (C.faults counter.old.cabinet) (C.faults counter.new.cabinet)) (C.state counter.old.cabinet) seats.old n mode actor spelling request (C.state counter.new.cabinet) seats.new result }
    ensures catalogue { (C.state counter.new.cabinet).catalogue ≡ (C.state counter.old.cabinet).catalogue }
    ensures capabilities { counter.new.capabilities ≡ counter.old.capabilities }
    ensures told { S.told source.new ≡ S.told source.old }
    ensures lasts { Lasting (C.outlasts counter.old.cabinet counter.new.cabinet) (C.state counter.old.cabinet) (C.state counter.new.cabinet) }
{
    laws_of_lasting::<C>();
    match request {
        Request::Tile(address) => {
            let step = events(alloc, &mut counter.cabinet, source, &address, mode);
            settle(
                &mut counter.cabinet,
                seats,
                actor,
                n,
                spelling,
                &address,
                step,
            )
        }
        other => {
            let outcome = answered_at_once(alloc, &mut counter.cabinet, other);
            answer_in_line(actor, n, spelling, outcome)
        }
    }
}

/// An actor sends a message in line `n`.
fn send_message<C: Keeper, S: Source>(
    alloc: Global,
    counter: &mut Counter<C>,
    seats: &mut [ActorPlace],
    source: &mut S,
    n: u64,
    mode: Mode,
    actor: u32,
    message: &MessageRef<'_>,
) -> ActionEnd
    requires { IsValid (C.state counter.old.cabinet).catalogue }
    ensures performs { Performs (S.told source.old) (S.faults source.old) (S.faults source.new) (counts (C.faults counter.old.cabinet) (C.faults counter.new.cabinet)) (C.state counter.old.cabinet) counter.old.capabilities seats.old n (Some (Sends mode actor (shown_message message.now))) (C.state counter.new.cabinet) seats.new result }
    ensures catalogue { (C.state counter.new.cabinet).catalogue ≡ (C.state counter.old.cabinet).catalogue }
    ensures capabilities { counter.new.capabilities ≡ counter.old.capabilities }
    ensures told { S.told source.new ≡ S.told source.old }
    ensures lasts { Lasting (C.outlasts counter.old.cabinet counter.new.cabinet) (C.state counter.old.cabinet) (C.state counter.new.cabinet) }
{
    laws_of_lasting::<C>();
    if !is_free(seats, actor) {
        return ActionEnd::Refused;
    }
    let spelling = spelling_at(message.target);
    let catalogue = counter.cabinet.catalogue();
    let Ok(request) = read_request(alloc, catalogue, &counter.tables.rest, message) else {
        return answer_in_line(actor, n, spelling, Outcome::Plain(Plain::NoMemory));
    };
    start_request(
        alloc, counter, seats, source, n, mode, actor, spelling, request,
    )
}

/// An actor makes the next event of its pending request.
fn step_actor<C: Keeper, S: Source>(
    alloc: Global,
    counter: &mut Counter<C>,
    seats: &mut [ActorPlace],
    source: &mut S,
    n: u64,
    actor: u32,
) -> ActionEnd
    requires { (busy : List (Option PendingRequest)) × IsSeated (C.state counter.old.cabinet) counter.old.capabilities seats.old busy }
    ensures performs { Performs (S.told source.old) (S.faults source.old) (S.faults source.new) (counts (C.faults counter.old.cabinet) (C.faults counter.new.cabinet)) (C.state counter.old.cabinet) counter.old.capabilities seats.old n (Some (Steps actor)) (C.state counter.new.cabinet) seats.new result }
    ensures catalogue { (C.state counter.new.cabinet).catalogue ≡ (C.state counter.old.cabinet).catalogue }
    ensures capabilities { counter.new.capabilities ≡ counter.old.capabilities }
    ensures told { S.told source.new ≡ S.told source.old }
    ensures lasts { Lasting (C.outlasts counter.old.cabinet counter.new.cabinet) (C.state counter.old.cabinet) (C.state counter.new.cabinet) }
{
    laws_of_lasting::<C>();
    match pending_at(seats, actor) {
        None => ActionEnd::Refused,
        Some(
            Pending {
                start,
                spelling,
                address,
                actor: state,
            },
        ) => {
            let step = advance(alloc, &mut counter.cabinet, source, state);
            settle(
                &mut counter.cabinet,
                seats,
                actor,
                start,
                spelling,
                &address,
                step,
            )
        }
    }
}

/// Performs the action that line `n` says.
pub fn perform<C: Keeper, S: Source>(
    alloc: Global,
    counter: &mut Counter<C>,
    seats: &mut [ActorPlace],
    source: &mut S,
    n: u64,
    line: &[u8],
) -> ActionEnd
    requires valid { IsValid (C.state counter.old.cabinet).catalogue }
    requires seated { (busy : List (Option PendingRequest)) × IsSeated (C.state counter.old.cabinet) counter.old.capabilities seats.old busy }
    ensures performs { Performs (S.told source.old) (S.faults source.old) (S.faults source.new) (counts (C.faults counter.old.cabinet) (C.faults counter.new.cabinet)) (C.state counter.old.cabinet) counter.old.capabilities seats.old n (action_in line.now) (C.state counter.new.cabinet) seats.new result }
    ensures catalogue { (C.state counter.new.cabinet).catalogue ≡ (C.state counter.old.cabinet).catalogue }
    ensures capabilities { counter.new.capabilities ≡ counter.old.capabilities }
    ensures told { S.told source.new ≡ S.told source.old }
    ensures lasts { Lasting (C.outlasts counter.old.cabinet counter.new.cabinet) (C.state counter.old.cabinet) (C.state counter.new.cabinet) }
{
    laws_of_lasting::<C>();
    match action_in(line) {
        None => ActionEnd::Refused,
        Some(Action::Nothing) => ActionEnd::Silent,
        Some(Action::Sends(mode, actor, message)) => {
            send_message(alloc, counter, seats, source, n, mode, actor, &message)
        }
        Some(Action::Steps(actor)) => step_actor(alloc, counter, seats, source, n, actor),
    }
}
