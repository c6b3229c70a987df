//! A counter as a server of messages.
ghost use Rattle.std.specs.Prelude.{◌≡◌};
ghost use Rattle.catalog.specs.Valid.{IsValid};
ghost use Rattle.sessions.specs.Outside.{counts};
ghost use Rattle.tile_service.specs.Serving.{ServesAndLasts};
ghost use Rattle.tile_service.specs.Session.{IsAtRest};

use crate::counter::Counter;
use crate::serving::serve;
use cabinet::Keeper;
use http_wire::Message;
use png_text::CrcTables;
use sessions::{MessageServer, NoJobs};
use source_render::Source;
use std::alloc::Global;
use std::marker::PhantomData;
use tile_requests::Outcome;

/// Serves the messages of a connection from a counter, between which no render runs.
#[derive(Drop)]
pub struct LoneServer<C: Keeper> {
    keeper: PhantomData<C>,
}

impl<C: Keeper> LoneServer<C> {
    /// The server of counters whose cabinet is such a keeper.
    pub fn new() -> LoneServer<C> {
        LoneServer {
            keeper: PhantomData,
        }
    }
}

impl<C: Keeper> MessageServer for LoneServer<C> {
    type Cache = Counter<C>;

    type Jobs = NoJobs;

    ghost ready = { λ _ counter _ _. IsValid (C.state counter.cabinet).catalogue × IsAtRest (C.state counter.cabinet) };

    ghost document = { λ _ counter. counter.capabilities };

    ghost serves = { λ _ told m o before after. ServesAndLasts C.outlasts C.state C.faults (λ counter. counter.cabinet) (λ counter. counter.capabilities) told m o before after };

    fn serve<S: Source>(
        &self,
        alloc: Global,
        cache: &mut Counter<C>,
        _jobs: &mut NoJobs,
        source: &mut S,
        message: &Message,
    ) -> Outcome {
        serve(alloc, cache, source, message)
    }

    fn capabilities<'s>(&'s self, cache: &'s Counter<C>) -> &'s [u8] {
        cache.capabilities.bytes()
    }

    fn crc_tables<'s>(&'s self, cache: &'s Counter<C>) -> &'s CrcTables {
        &cache.tables.crc
    }

    fn begin_message(&self) {}

    fn end_message(&self) {}
}
