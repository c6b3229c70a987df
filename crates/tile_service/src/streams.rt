//! A session over an input and an output that are lent apart.
ghost use Rattle.std.specs.Prelude.{◌≡◌};
ghost use Rattle.cache_core.specs.Lasting.{Lasting};
ghost use Rattle.catalog.specs.Valid.{IsValid};
ghost use Rattle.sessions.specs.Outside.{InputChange, Outside, counts};
ghost use Rattle.tile_service.specs.Passing.{LeadsThrough};
ghost use Rattle.tile_service.specs.Replays.{HasSessionThrough};
ghost use Rattle.tile_service.specs.Session.{IsAtRest};

use crate::counter::Counter;
use crate::session::replay_session;
use cabinet::Keeper;
use http_wire::{ByteSink, ByteSource, Duplex, Ends, Loans};
use sessions::SessionEnd;
use source_render::Source;
use std::alloc::Global;
use std::marker::Brand;

/// Serves the bytes of the input as those of one connection, and writes the responses to the output. No render may run in the
/// cabinet. Each end comes as `SessionEnd` says.
pub fn replay_streams<C: Keeper, S: Source, I: ByteSource, O: ByteSink>(
    alloc: Global,
    counter: &mut Counter<C>,
    source: &mut S,
    input: &mut I,
    output: &mut O,
) -> SessionEnd
    requires valid { IsValid (C.state counter.old.cabinet).catalogue }
    requires rest { IsAtRest (C.state counter.old.cabinet) }
    ensures leads { HasSessionThrough (LeadsThrough C C.state C.outlasts counter.old.cabinet counter.new.cabinet)
        (record { reads = counts (I.faults input.old) (I.faults input.new); from = I.left input.old; to = I.left input.new })
        (record { told = S.told source.old; renders = counts (S.faults source.old) (S.faults source.new); disk = counts (C.faults counter.old.cabinet) (C.faults counter.new.cabinet); writes = counts (O.faults output.old) (O.faults output.new); from = O.taken output.old; to = O.taken output.new })
        counter.old.capabilities (C.state counter.old.cabinet) (C.state counter.new.cabinet) result }
    ensures lasts { Lasting (C.outlasts counter.old.cabinet counter.new.cabinet) (C.state counter.old.cabinet) (C.state counter.new.cabinet) }
{
    let ends = Ends { input, output };
    replay_over::<C, S, I, O, Brand>(alloc, counter, source, ends).1
}

/// The same over the link of these two, which are given back.
fn replay_over<'a, 'b, C: Keeper, S: Source, I: ByteSource, O: ByteSink, L: Loans>(
    alloc: Global,
    counter: &mut Counter<C>,
    source: &mut S,
    ends: Ends<'a, 'b, I, O>,
) -> (Ends<'a, 'b, I, O>, SessionEnd)
    requires valid { IsValid (C.state counter.old.cabinet).catalogue }
    requires rest { IsAtRest (C.state counter.old.cabinet) }
    requires input { ends.input.ghost_name ≡ L.input }
    requires output { ends.output.ghost_name ≡ L.output }
    ensures leads { HasSessionThrough (LeadsThrough C C.state C.outlasts counter.old.cabinet counter.new.cabinet)
        (record { reads = counts (I.faults ends.entry.input.now) (I.faults result.0.input.now); from = I.left ends.entry.input.now; to = I.left result.0.input.now })
        (record { told = S.told source.old; renders = counts (S.faults source.old) (S.faults source.new); disk = counts (C.faults counter.old.cabinet) (C.faults counter.new.cabinet); writes = counts (O.faults ends.entry.output.now) (O.faults result.0.output.now); from = O.taken ends.entry.output.now; to = O.taken result.0.output.now })
        counter.old.capabilities (C.state counter.old.cabinet) (C.state counter.new.cabinet) result.1 }
    ensures lasts { Lasting (C.outlasts counter.old.cabinet counter.new.cabinet) (C.state counter.old.cabinet) (C.state counter.new.cabinet) }
    ensures same_input { result.0.input.ghost_name ≡ ends.entry.input.ghost_name }
    ensures same_output { result.0.output.ghost_name ≡ ends.entry.output.ghost_name }
{
    let mut link = Duplex::<I, O, L>::new(ends);
    let end = replay_session(alloc, counter, source, &mut link);
    (link.into_ends(), end)
}
