//! The records that commands write. The numbers of each fit its fields.
ghost use Rattle.std.specs.Int.{w64};
ghost use Rattle.std.specs.Prelude.{FitsSigned, IfSome, Some, length, ◌<◌, ◌^◌, ◌≡◌};
ghost use Rattle.cabinet.specs.History.{kept_of};
ghost use Rattle.cabinet.specs.State.{now};
ghost use Rattle.cabinet_records.specs.Recorded.{stored_record};
ghost use Rattle.catalog.specs.Valid.{IsValid};
ghost use Rattle.raster_field.specs.Blocks.{IsMeta};
ghost use Rattle.record_text.specs.Fits.{Fits, FitsBox};
ghost use Rattle.record_text.specs.declared.entries.Record.TheVariants as record_of;
ghost use Rattle.served_covers.specs.OfCatalogue.{IsCoverOf};

use cabinet::{Core, Kept};
use catalog::Catalogue;
use matrix_geometry::Box9;
use record_text::Record;
use truncation_list::Cover;

// What the type of a number says of it: a field of a struct has no range of its own.

fn wide(number: u64)
    ensures { number < 2 ^ 64 }
{}

fn narrow(number: u32)
    ensures { number < 2 ^ 32 }
{}

fn signed(number: i64)
    ensures { FitsSigned w64 number }
{}

fn four(values: [u32; 4])
    ensures { length values ≡ 4 }
{}

fn four_wanted(values: [Option<u32>; 4])
    ensures { length values ≡ 4 }
{}

fn edges(bounds: Option<Box9>)
    ensures { IfSome bounds FitsBox }
{
    match bounds {
        None => {}
        Some(edges) => {
            signed(edges.min_x);
            signed(edges.min_y);
            signed(edges.max_x);
            signed(edges.max_y);
        }
    }
}

/// That a kept metatile is dropped.
pub(crate) fn record_of_drop(core: &Core, kept: Kept) -> Record
    requires { kept_of kept.meta (now core.now.state) ≡ Some kept }
    ensures is { result ≡ record_of.Dropped kept.number kept.meta }
    ensures fits { Fits result }
{
    core.known();
    wide(kept.number);
    narrow(kept.meta.row);
    narrow(kept.meta.col);
    four(kept.meta.theme.dims);
    Record::Dropped(kept.number, kept.meta)
}

/// That a kept metatile was used so often.
pub(crate) fn record_of_uses(core: &Core, kept: Kept, uses: u64) -> Record
    requires { kept_of kept.meta (now core.now.state) ≡ Some kept }
    ensures is { result ≡ record_of.Uses kept.number kept.meta uses }
    ensures fits { Fits result }
{
    core.known();
    wide(kept.number);
    narrow(kept.meta.row);
    narrow(kept.meta.col);
    four(kept.meta.theme.dims);
    Record::Uses(kept.number, kept.meta, uses)
}

/// That a metatile is kept.
pub(crate) fn record_of_keep(catalogue: &Catalogue, kept: Kept) -> Record
    requires valid { IsValid catalogue.now }
    requires meta { IsMeta catalogue.now kept.meta }
    ensures is { result ≡ stored_record kept }
    ensures fits { Fits result }
{
    wide(kept.number);
    narrow(kept.meta.row);
    narrow(kept.meta.col);
    four(kept.meta.theme.dims);
    wide(kept.place);
    narrow(kept.length);
    wide(kept.moment);
    wide(kept.uses);
    Record::Stored(
        kept.number,
        kept.meta,
        kept.place,
        kept.length,
        kept.moment,
        kept.uses,
    )
}

/// A truncation.
pub(crate) fn record_of_cut(catalogue: &Catalogue, number: u64, cover: Cover) -> Record
    requires valid { IsValid catalogue.now }
    requires cover { IsCoverOf catalogue.now cover }
    ensures is { result ≡ record_of.Cut number cover }
    ensures fits { Fits result }
{
    edges(cover.bounds);
    four_wanted(cover.filter.dims);
    Record::Cut(number, cover)
}
