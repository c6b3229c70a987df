//! A tile is asked of the follower.
ghost use Rattle.std.specs.Prelude.{◌≡◌, ◌≤◌, IfOk, OnErr, Some};
ghost use Rattle.cabinet.specs.State.{IsSound};
ghost use Rattle.cache_core.specs.Fits.{IsTicketFor};
ghost use Rattle.cache_core.specs.Lasting.{Lasting};
ghost use Rattle.catalog.specs.LookUp.{IsTile};
ghost use Rattle.tile_service.specs.Session.{IsAtRest};
ghost use Rattle.twin_events.specs.Gets.{EndsRender, Gets, GetsIn, RunsOut, failures};
ghost use Rattle.twin_events.specs.Twins.{IsTwinReady, standing};

use crate::got::Got;
use crate::twin::Twin;
use cabinet::{Asked, Keeper};
use cache_core::{RenderFault, Sliced, Tile, laws_of_lasting, paint};
use disk_model::Disk;
use matrix_geometry::Address;
use metatile_locks::Ticket;
use raster_field::laws_of_metatiles;
use source_render::Source;
use std::alloc::{AllocError, Global};

/// Renders the metatile of a ticket, and ends the render: its blob is handed in, or the ticket given back.
fn end_render<K: Keeper, S: Source>(
    alloc: Global,
    cabinet: &mut K,
    source: &mut S,
    ticket: Ticket,
    address: &Address,
) -> Result<Got, AllocError>
    requires tile { IsTile (K.state cabinet.old).catalogue address.now }
    requires ticket { IsTicketFor (K.state cabinet.old).catalogue address.now ticket }
    ensures ends { EndsRender (S.told source.old) (K.state cabinet.old) (failures (S.faults source.old) (K.faults cabinet.old)) address.now ticket result (K.state cabinet.new) (failures (S.faults source.new) (K.faults cabinet.new)) }
    ensures told { S.told source.new ≡ S.told source.old }
    ensures later { S.faults source.old ≤ S.faults source.new }
    ensures cabinet_later { K.faults cabinet.old ≤ K.faults cabinet.new }
    ensures lasts { Lasting (K.outlasts cabinet.old cabinet.new) (K.state cabinet.old) (K.state cabinet.new) }
    ensures still_sound { S.told source.old ≡ Some (K.state cabinet.old).catalogue.source → IsSound (K.state cabinet.old) → IsSound (K.state cabinet.new) }
{
    laws_of_metatiles();
    cabinet.known();
    match paint(alloc, cabinet.catalogue(), source, &ticket, address) {
        Ok(Sliced { blob, bytes }) => {
            let number = ticket.number();
            let _ = cabinet.finish(ticket, blob);
            Ok(Got::Tile(Tile {
                hit: false,
                number,
                bytes,
            }))
        }
        Err(RenderFault::Source) => {
            cabinet.abandon(ticket);
            Ok(Got::SourceFault)
        }
        Err(RenderFault::Memory) => {
            cabinet.abandon(ticket);
            Err(AllocError)
        }
    }
}

/// Gets a tile in a cabinet in which no render runs.
fn get_tile<K: Keeper, S: Source>(
    alloc: Global,
    cabinet: &mut K,
    source: &mut S,
    address: &Address,
) -> Result<Got, AllocError>
    requires tile { IsTile (K.state cabinet.old).catalogue address.now }
    requires rests { IsAtRest (K.state cabinet.old) }
    ensures gets { GetsIn (S.told source.old) (K.state cabinet.old) (failures (S.faults source.old) (K.faults cabinet.old)) address.now result (K.state cabinet.new) (failures (S.faults source.new) (K.faults cabinet.new)) }
    ensures told { S.told source.new ≡ S.told source.old }
    ensures later { S.faults source.old ≤ S.faults source.new }
    ensures cabinet_later { K.faults cabinet.old ≤ K.faults cabinet.new }
    ensures lasts { Lasting (K.outlasts cabinet.old cabinet.new) (K.state cabinet.old) (K.state cabinet.new) }
    ensures still_sound { S.told source.old ≡ Some (K.state cabinet.old).catalogue.source → IsSound (K.state cabinet.old) → IsSound (K.state cabinet.new) }
{
    laws_of_lasting::<K>();
    cabinet.known();
    match cabinet.ask(alloc, address) {
        Err(fault) => Err(fault),
        Ok(Asked::Spent) => Ok(Got::Spent),
        Ok(Asked::Busy(_)) => unreachable!(),
        Ok(Asked::Hit(number, bytes)) => Ok(Got::Tile(Tile {
            hit: true,
            number,
            bytes,
        })),
        Ok(Asked::Ticket(ticket)) => end_render(alloc, cabinet, source, ticket, address),
    }
}

impl<K: Keeper, M: Disk, N: Disk> Twin<K, M, N> {
    /// Gets a tile of the catalogue from the follower: it is asked for, and where it isn't kept, rendered and finished. `SourceFault` only
    /// where the source's count of faults rose in this call; `Spent` where no number is left for a render.
    ///
    /// `AllocError` where memory runs out: nothing has then changed, or a render was begun and given back.
    pub fn ask<S: Source>(
        &mut self,
        alloc: Global,
        source: &mut S,
        address: &Address,
    ) -> Result<Got, AllocError>
        requires ready { IsTwinReady self.old.outbox.catalogue (standing self.old.outbox.out self.old.feed.stand (K.state self.old.cabinet) self.old.sent.items) }
        requires tile { IsTile self.old.outbox.catalogue address.now }
        ensures gets { IfOk result (λ reply. Gets (S.told source.old)
            (standing self.old.outbox.out self.old.feed.stand (K.state self.old.cabinet) self.old.sent.items) (failures (S.faults source.old) (K.faults self.old.cabinet))
            address.now reply
            (standing self.new.outbox.out self.new.feed.stand (K.state self.new.cabinet) self.new.sent.items) (failures (S.faults source.new) (K.faults self.new.cabinet))) }
        ensures err { OnErr result (RunsOut
            (standing self.old.outbox.out self.old.feed.stand (K.state self.old.cabinet) self.old.sent.items) (failures (S.faults source.old) (K.faults self.old.cabinet))
            address.now
            (standing self.new.outbox.out self.new.feed.stand (K.state self.new.cabinet) self.new.sent.items) (failures (S.faults source.new) (K.faults self.new.cabinet))) }
        ensures ready { IsTwinReady self.new.outbox.catalogue (standing self.new.outbox.out self.new.feed.stand (K.state self.new.cabinet) self.new.sent.items) }
        ensures outbox { self.new.outbox ≡ self.old.outbox }
        ensures feed { self.new.feed ≡ self.old.feed }
        ensures sent { self.new.sent ≡ self.old.sent }
        ensures told { S.told source.new ≡ S.told source.old }
        ensures later { S.faults source.old ≤ S.faults source.new }
        ensures cabinet_later { K.faults self.old.cabinet ≤ K.faults self.new.cabinet }
        ensures lasts { Lasting (K.outlasts self.old.cabinet self.new.cabinet) (K.state self.old.cabinet) (K.state self.new.cabinet) }
        ensures still_sound { S.told source.old ≡ Some self.old.outbox.catalogue.source → IsSound (K.state self.old.cabinet) → IsSound (K.state self.new.cabinet) }
    {
        self.cabinet.known();
        get_tile(alloc, &mut self.cabinet, source, address)
    }
}
