//! The render of a blob, and its tile.
ghost use Rattle.std.specs.Prelude.{ℕ, ◌≡◌, ◌≤◌, Contains, IfErr, IfOk, Some, length};
ghost use Rattle.base.specs.Causes.{Rose};
ghost use Rattle.cache_core.specs.Fits.{IsTicketFor};
ghost use Rattle.cache_core.specs.Given.{IsCutOf};
ghost use Rattle.catalog.specs.LookUp.{IsTile};
ghost use Rattle.catalog.specs.Valid.{IsValid};
ghost use Rattle.raster_field.specs.Blocks.{IsMeta, blob_size, block_text, tile_part};
ghost use Rattle.raster_field.specs.Rasters.{HasSize, picture_on, window_in};
ghost use Rattle.source_render.specs.Renders.{StaysGiven, given_image};

use base::SharedText;
use cabinet::tile_in;
use catalog::Catalogue;
use matrix_geometry::Address;
use metatile_locks::Ticket;
use raster_field::{Raster, laws_of_metatiles, window_at};
use source_render::Source;
use std::alloc::{AllocError, Global};

/// Why there is no blob.
#[derive(Clone, Copy, Debug, PartialEq, Eq)]
pub enum RenderFault {
    /// The source failed.
    Source,
    /// Memory ran out.
    Memory,
}

impl From<AllocError> for RenderFault {
    ghost use Rattle.std.specs.Prelude.{◌≡◌};
    ghost use Rattle.cache_core.specs.declared.render.RenderFault.TheVariants.{Memory};

    ghost from_gives = { λ _ e. e ≡ Memory };

    fn from(_: AllocError) -> Self {
        RenderFault::Memory
    }
}

/// What a source gives for a ticket on the window of its metatile: the picture of its number, where the source is modelled.
#[tactic(auto, using(source_render::proofs::Staying::stays_itself, source_render::proofs::Staying::stays_by))]
fn picture_of<S: Source>(
    alloc: Global,
    catalogue: &Catalogue,
    source: &mut S,
    ticket: &Ticket,
) -> Result<Raster, RenderFault>
    requires valid { IsValid catalogue.now }
    requires meta { IsMeta catalogue.now ticket.now.meta }
    ensures size { IfOk result (λ r. HasSize r (window_in catalogue.now ticket.now.meta)) }
    ensures given { IfOk result (λ r. Contains (S.gave source.new) (given_image ticket.now (window_in catalogue.now ticket.now.meta) r)) }
    ensures grows { StaysGiven (S.gave source.old) (S.gave source.new) }
    ensures picture { IfOk result (λ r. S.told source.old ≡ Some catalogue.now.source → r ≡ picture_on catalogue.now catalogue.now.source ticket.now.number (window_in catalogue.now ticket.now.meta)) }
    ensures later { S.faults source.old ≤ S.faults source.new }
    ensures cause { IfErr result (λ e. e ≡ RenderFault.Source → Rose (S.faults source.old) (S.faults source.new)) }
    ensures told { S.told source.new ≡ S.told source.old }
{
    let window = window_at(catalogue, &ticket.meta());
    let mut raster = Raster::new(alloc, &window)?;
    match source.render(catalogue, ticket, &window, &mut raster) {
        Ok(()) => Ok(raster),
        Err(_) => Err(RenderFault::Source),
    }
}

/// The blob of a ticket's metatile, cut out of an image that the source gives for the ticket: in the picture of its number where the source
/// is modelled.
pub fn blob_of<S: Source>(
    alloc: Global,
    catalogue: &Catalogue,
    source: &mut S,
    ticket: &Ticket,
) -> Result<SharedText, RenderFault>
    requires valid { IsValid catalogue.now }
    requires meta { IsMeta catalogue.now ticket.now.meta }
    ensures size { IfOk result (λ blob. length blob ≡ blob_size catalogue.now ticket.now.meta) }
    ensures given { IfOk result (λ blob. IsCutOf catalogue.now (S.gave source.new) ticket.now blob) }
    ensures grows { StaysGiven (S.gave source.old) (S.gave source.new) }
    ensures text { IfOk result (λ blob. S.told source.old ≡ Some catalogue.now.source → blob ≡ block_text catalogue.now ticket.now.number ticket.now.meta) }
    ensures later { S.faults source.old ≤ S.faults source.new }
    ensures cause { IfErr result (λ e. e ≡ RenderFault.Source → Rose (S.faults source.old) (S.faults source.new)) }
    ensures told { S.told source.new ≡ S.told source.old }
{
    let raster = picture_of(alloc, catalogue, source, ticket)?;
    let blob = ppm_slice::blob_of(alloc, catalogue, &ticket.meta(), &raster)?;
    Ok(SharedText::of(alloc, blob)?)
}

/// A blob that was rendered, and its tile, which shares the bytes of the blob.
#[derive(Drop)]
pub struct Sliced {
    pub blob: SharedText,
    pub bytes: SharedText,
}

/// Renders the blob of a ticket's metatile, out of an image that the source gives for the ticket, in the picture of its number where the
/// source is modelled, and cuts out its tile.
/// `Source` only where the source's count of faults rose; `Memory` where memory runs out.
pub fn paint<S: Source>(
    alloc: Global,
    catalogue: &Catalogue,
    source: &mut S,
    ticket: &Ticket,
    address: &Address,
) -> Result<Sliced, RenderFault>
    requires valid { IsValid catalogue.now }
    requires tile { IsTile catalogue.now address.now }
    requires ticket { IsTicketFor catalogue.now address.now ticket.now }
    ensures size { IfOk result (λ p. length p.blob ≡ blob_size catalogue.now ticket.now.meta) }
    ensures part { IfOk result (λ p. p.bytes ≡ tile_part catalogue.now address.now p.blob) }
    ensures given { IfOk result (λ p. IsCutOf catalogue.now (S.gave source.new) ticket.now p.blob) }
    ensures grows { StaysGiven (S.gave source.old) (S.gave source.new) }
    ensures text { IfOk result (λ p. S.told source.old ≡ Some catalogue.now.source → p.blob ≡ block_text catalogue.now ticket.now.number ticket.now.meta) }
    ensures later { S.faults source.old ≤ S.faults source.new }
    ensures cause { IfErr result (λ e. e ≡ RenderFault.Source → Rose (S.faults source.old) (S.faults source.new)) }
    ensures told { S.told source.new ≡ S.told source.old }
{
    laws_of_metatiles();
    let blob = blob_of(alloc, catalogue, source, ticket)?;
    let bytes = tile_in(catalogue, address, &blob)?;
    Ok(Sliced { blob, bytes })
}
