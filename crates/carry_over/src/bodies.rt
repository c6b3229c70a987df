//! The records of what is taken over, as a journal has them after a compaction.
ghost use Rattle.std.specs.Int.{w64};
ghost use Rattle.std.specs.List.{AllByRecursion};
ghost use Rattle.std.specs.Prelude.{FitsSigned, IfOk, IfSome, OnOk, length, map, ◌<◌, ◌^◌, ◌≡◌, ◌++◌};
ghost use Rattle.cabinet_records.specs.Recorded.{compacted, stored_record};
ghost use Rattle.catalog.specs.Valid.{IsValid};
ghost use Rattle.durable_cabinet.specs.Drafts.{cut_record};
ghost use Rattle.raster_field.specs.Blocks.{IsMeta};
ghost use Rattle.record_text.specs.Fits.{Fits, FitsBox};
ghost use Rattle.record_text.specs.Spelling.{spelling};
ghost use Rattle.record_text.specs.declared.entries.Record.TheVariants as record_of;
ghost use Rattle.served_covers.specs.OfCatalogue.{IsCoverOf};

use crate::choosing::kept_at;
use cabinet::Kept;
use catalog::Catalogue;
use matrix_geometry::Box9;
use record_text::{Record, encode};
use std::alloc::{AllocError, Global};
use truncation_list::{Cover, Cut};

// What the type of a number says of it: a field of a struct has no range of its own.

fn wide(number: u64)
    ensures { number < 2 ^ 64 }
{}

fn narrow(number: u32)
    ensures { number < 2 ^ 32 }
{}

fn signed(number: i64)
    ensures { FitsSigned w64 number }
{}

fn four(values: [u32; 4])
    ensures { length values ≡ 4 }
{}

fn four_wanted(values: [Option<u32>; 4])
    ensures { length values ≡ 4 }
{}

fn edges(bounds: Option<Box9>)
    ensures { IfSome bounds FitsBox }
{
    match bounds {
        None => {}
        Some(edges) => {
            signed(edges.min_x);
            signed(edges.min_y);
            signed(edges.max_x);
            signed(edges.max_y);
        }
    }
}

/// That a metatile is kept.
fn record_of_keep(catalogue: &Catalogue, kept: Kept) -> Record
    requires valid { IsValid catalogue.now }
    requires meta { IsMeta catalogue.now kept.meta }
    ensures is { result ≡ stored_record kept }
    ensures fits { Fits result }
{
    wide(kept.number);
    narrow(kept.meta.row);
    narrow(kept.meta.col);
    four(kept.meta.theme.dims);
    wide(kept.place);
    narrow(kept.length);
    wide(kept.moment);
    wide(kept.uses);
    Record::Stored(
        kept.number,
        kept.meta,
        kept.place,
        kept.length,
        kept.moment,
        kept.uses,
    )
}

/// A truncation.
fn record_of_cut(catalogue: &Catalogue, number: u64, cover: Cover) -> Record
    requires valid { IsValid catalogue.now }
    requires cover { IsCoverOf catalogue.now cover }
    ensures is { result ≡ record_of.Cut number cover }
    ensures fits { Fits result }
{
    edges(cover.bounds);
    four_wanted(cover.filter.dims);
    Record::Cut(number, cover)
}

/// Puts the bodies of cuts behind others, in their order. `AllocError` where memory runs out.
fn put_cuts(
    bodies: &mut Vec<[u8; 63]>,
    catalogue: &Catalogue,
    cuts: &[Cut],
) -> Result<(), AllocError>
    requires valid { IsValid catalogue.now }
    requires covers { AllByRecursion (λ k. IsCoverOf catalogue.now k.cover) cuts.now }
    ensures bodies { OnOk result (bodies.new.items ≡ bodies.old.items ++ map spelling (map cut_record cuts.now)) }
    ensures fits { OnOk result (AllByRecursion Fits (map cut_record cuts.now)) }
{
    'putting: for at in 0..cuts.len() {
        let cut = cut_at(cuts, at);
        let entry = record_of_cut(catalogue, cut.number, cut.cover);
        match bodies.push(encode(&entry)) {
            Err(_) => return Err(AllocError),
            Ok(()) => {}
        }
    }
    Ok(())
}

/// Puts the bodies of what is kept behind others, in its order. `AllocError` where memory runs out.
fn put_kept(
    bodies: &mut Vec<[u8; 63]>,
    catalogue: &Catalogue,
    kept: &[Kept],
) -> Result<(), AllocError>
    requires valid { IsValid catalogue.now }
    requires metas { AllByRecursion (λ t. IsMeta catalogue.now t.meta) kept.now }
    ensures bodies { OnOk result (bodies.new.items ≡ bodies.old.items ++ map spelling (map stored_record kept.now)) }
    ensures fits { OnOk result (AllByRecursion Fits (map stored_record kept.now)) }
{
    'putting: for at in 0..kept.len() {
        let entry = record_of_keep(catalogue, kept_at(kept, at));
        match bodies.push(encode(&entry)) {
            Err(_) => return Err(AllocError),
            Ok(()) => {}
        }
    }
    Ok(())
}

fn cut_at(cuts: &[Cut], at: usize) -> Cut
    requires { at < length cuts.now }
    ensures { Rattle.std.specs.Prelude.slice_get cuts.now at ≡ Rattle.std.specs.Prelude.Some result }
{
    cuts[at]
}

/// The bodies of a journal that holds an opening, these cuts and what is kept, in this order. `AllocError` where memory runs out.
pub fn bodies_of(
    alloc: Global,
    catalogue: &Catalogue,
    number: u32,
    floor: u64,
    cuts: &[Cut],
    kept: &[Kept],
) -> Result<Vec<[u8; 63]>, AllocError>
    requires valid { IsValid catalogue.now }
    requires covers { AllByRecursion (λ k. IsCoverOf catalogue.now k.cover) cuts.now }
    requires metas { AllByRecursion (λ t. IsMeta catalogue.now t.meta) kept.now }
    ensures bodies { IfOk result (λ bodies. bodies.items ≡ map spelling (compacted number (record { cuts = cuts.now; floor = floor }) kept.now)) }
    ensures fits { OnOk result (AllByRecursion Fits (compacted number (record { cuts = cuts.now; floor = floor }) kept.now)) }
{
    let mut bodies = Vec::new(alloc);
    match bodies.push(encode(&Record::Opened(number, floor))) {
        Err(_) => return Err(AllocError),
        Ok(()) => {}
    }
    match put_cuts(&mut bodies, catalogue, cuts) {
        Err(fault) => return Err(fault),
        Ok(()) => {}
    }
    match put_kept(&mut bodies, catalogue, kept) {
        Err(fault) => return Err(fault),
        Ok(()) => {}
    }
    Ok(bodies)
}
