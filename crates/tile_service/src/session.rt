//! The messages of one connection, served in order by one cabinet.
ghost use Rattle.std.specs.Prelude.{◌≡◌};
ghost use Rattle.cache_core.specs.Lasting.{Lasting};
ghost use Rattle.catalog.specs.Valid.{IsValid};
ghost use Rattle.sessions.specs.Outside.{InputChange, Outside, counts};
ghost use Rattle.tile_service.specs.Passing.{LeadsThrough};
ghost use Rattle.tile_service.specs.Replays.{HasSession, HasSessionThrough};
ghost use Rattle.tile_service.specs.Session.{IsAtRest};

use crate::counter::Counter;
use crate::lone_server::LoneServer;
use cabinet::Keeper;
use cache_core::laws_of_lasting;
use http_wire::Link;
use sessions::{NoJobs, SessionEnd, hold_session};
use source_render::Source;
use std::alloc::Global;

/// Serves the messages of one connection (RFC 9112), in order, each before the next is looked for, at most 10,000 of them. No
/// render may run in the cabinet, and none runs afterwards. Each end comes as `SessionEnd` says.
pub fn replay_session<C: Keeper, S: Source, L: Link>(
    alloc: Global,
    counter: &mut Counter<C>,
    source: &mut S,
    link: &mut L,
) -> SessionEnd
    requires valid { IsValid (C.state counter.old.cabinet).catalogue }
    requires rest { IsAtRest (C.state counter.old.cabinet) }
    ensures session { HasSession
        (record { reads = record { before = L.ByteSource.faults link.old; after = L.ByteSource.faults link.new }; from = L.left link.old; to = L.left link.new })
        (record { told = S.told source.old; renders = record { before = S.faults source.old; after = S.faults source.new }; disk = counts (C.faults counter.old.cabinet) (C.faults counter.new.cabinet); writes = record { before = L.ByteSink.faults link.old; after = L.ByteSink.faults link.new }; from = L.taken link.old; to = L.taken link.new })
        counter.old.capabilities (C.state counter.old.cabinet) (C.state counter.new.cabinet) result }
    ensures leads { HasSessionThrough (LeadsThrough C C.state C.outlasts counter.old.cabinet counter.new.cabinet)
        (record { reads = record { before = L.ByteSource.faults link.old; after = L.ByteSource.faults link.new }; from = L.left link.old; to = L.left link.new })
        (record { told = S.told source.old; renders = record { before = S.faults source.old; after = S.faults source.new }; disk = counts (C.faults counter.old.cabinet) (C.faults counter.new.cabinet); writes = record { before = L.ByteSink.faults link.old; after = L.ByteSink.faults link.new }; from = L.taken link.old; to = L.taken link.new })
        counter.old.capabilities (C.state counter.old.cabinet) (C.state counter.new.cabinet) result }
    ensures rests { IsAtRest (C.state counter.new.cabinet) }
    ensures catalogue { (C.state counter.new.cabinet).catalogue ≡ (C.state counter.old.cabinet).catalogue }
    ensures capabilities { counter.new.capabilities ≡ counter.old.capabilities }
    ensures lasts { Lasting (C.outlasts counter.old.cabinet counter.new.cabinet) (C.state counter.old.cabinet) (C.state counter.new.cabinet) }
{
    laws_of_lasting::<C>();
    hold_session(
        alloc,
        &LoneServer::new(),
        counter,
        &mut NoJobs,
        source,
        link,
    )
}
