//! A message of a session, served to its outcome, since no render runs beside it.
ghost use Rattle.std.specs.Prelude.{◌≡◌};
ghost use Rattle.cache_core.specs.Lasting.{Lasting};
ghost use Rattle.catalog.specs.Valid.{IsValid};
ghost use Rattle.sessions.specs.Outside.{counts};
ghost use Rattle.tile_requests.specs.Requests.{IsOf};
ghost use Rattle.tile_service.specs.Performing.{IsAnswered};
ghost use Rattle.tile_service.specs.Serving.{Serves};
ghost use Rattle.tile_service.specs.Session.{IsAtRest};

use crate::counter::Counter;
use cabinet::Keeper;
use cache_access::Alone;
use cache_core::laws_of_lasting;
use http_wire::Message;
use source_render::Source;
use std::alloc::Global;
use tile_requests::{
    MessageRef, Outcome, Plain, Request, answer, laws_of_lone_threads, read_request,
};

/// Answers a request in a cabinet in which no render runs: a tile is asked for, rendered and finished.
fn answer_request<C: Keeper, S: Source>(
    alloc: Global,
    cabinet: &mut C,
    source: &mut S,
    request: Request,
) -> Outcome
    requires valid { IsValid (C.state cabinet.old).catalogue }
    requires of { IsOf (C.state cabinet.old).catalogue request }
    requires rest { IsAtRest (C.state cabinet.old) }
    ensures answers { IsAnswered (S.told source.old) (S.faults source.old) (S.faults source.new) (counts (C.faults cabinet.old) (C.faults cabinet.new)) (C.state cabinet.old) request result (C.state cabinet.new) }
    ensures catalogue { (C.state cabinet.new).catalogue ≡ (C.state cabinet.old).catalogue }
    ensures told { S.told source.new ≡ S.told source.old }
    ensures lasts { Lasting (C.outlasts cabinet.old cabinet.new) (C.state cabinet.old) (C.state cabinet.new) }
{
    laws_of_lone_threads();
    let way = Alone::new();
    answer(&way, alloc, cabinet, source, request)
}

/// Serves a message of a session: a tile is asked for, rendered and finished. Where memory runs out, its outcome says so.
pub fn serve<C: Keeper, S: Source>(
    alloc: Global,
    counter: &mut Counter<C>,
    source: &mut S,
    message: &Message,
) -> Outcome
    requires valid { IsValid (C.state counter.old.cabinet).catalogue }
    requires rest { IsAtRest (C.state counter.old.cabinet) }
    ensures serves { Serves (S.told source.old) (S.faults source.old) (S.faults source.new) (counts (C.faults counter.old.cabinet) (C.faults counter.new.cabinet)) counter.old.capabilities (C.state counter.old.cabinet) message.now result (C.state counter.new.cabinet) }
    ensures catalogue { (C.state counter.new.cabinet).catalogue ≡ (C.state counter.old.cabinet).catalogue }
    ensures capabilities { counter.new.capabilities ≡ counter.old.capabilities }
    ensures told { S.told source.new ≡ S.told source.old }
    ensures lasts { Lasting (C.outlasts counter.old.cabinet counter.new.cabinet) (C.state counter.old.cabinet) (C.state counter.new.cabinet) }
{
    laws_of_lasting::<C>();
    let catalogue = counter.cabinet.catalogue();
    let parts = MessageRef::of(message);
    let Ok(request) = read_request(alloc, catalogue, &counter.tables.rest, &parts) else {
        return Outcome::Plain(Plain::NoMemory);
    };
    answer_request(alloc, &mut counter.cabinet, source, request)
}
