//! The lines of what is kept, written one after the other.
ghost use Rattle.std.specs.List.{AllByRecursion};
ghost use Rattle.std.specs.Prelude.{◌≡◌};
ghost use Rattle.catalog.specs.Valid.{IsValid};
ghost use Rattle.kept_lines.specs.Lines.{line_of};
ghost use Rattle.look_words.specs.Listings.{IsListedSo};
ghost use Rattle.look_words.specs.Texts.{is_listed, list_text, listed_line};
ghost use Rattle.raster_field.specs.Blocks.{IsMeta};
ghost use Rattle.sessions.specs.Outside.{OutputChange, counts};

use arrayvec::ArrayVec;
use cabinet::Kept;
use catalog::Catalogue;
use http_wire::ByteSink;
use kept_lines::line_of;
use std::alloc::Global;
use tile_requests::send_behind;

/// How the writing of lines ended.
#[derive(Clone, Copy, PartialEq, Eq)]
pub enum ListingEnd {
    /// All of them went out.
    Done,
    /// A write failed; no later line was looked at.
    WriteFault,
    /// Memory ran out; no later line was looked at.
    OutOfMemory,
}

/// Whether what is kept is of this layer, where one is asked for.
fn is_listed(layer: Option<u32>, kept: &Kept) -> bool
    ensures { result ≡ is_listed layer kept.now }
{
    match layer {
        Some(layer) => kept.meta.theme.layer == layer,
        None => true,
    }
}

/// Writes the line of what is kept.
fn send_line<O: ByteSink>(
    alloc: Global,
    catalogue: &Catalogue,
    kept: &Kept,
    output: &mut O,
) -> ListingEnd
    requires valid { IsValid catalogue.now }
    requires meta { IsMeta catalogue.now kept.now.meta }
    ensures { IsListedSo (record { writes = counts (O.faults output.old) (O.faults output.new); from = O.taken output.old; to = O.taken output.new }) (line_of catalogue.now kept.now) result }
{
    let Ok(line) = line_of(alloc, catalogue, kept) else {
        return ListingEnd::OutOfMemory;
    };
    match send_behind(output, ArrayVec::new(), line.as_slice()) {
        Ok(()) => ListingEnd::Done,
        Err(_) => ListingEnd::WriteFault,
    }
}

/// Writes the line of what is kept, where it is asked for.
fn send_listed<O: ByteSink>(
    alloc: Global,
    catalogue: &Catalogue,
    layer: Option<u32>,
    kept: &Kept,
    output: &mut O,
) -> ListingEnd
    requires valid { IsValid catalogue.now }
    requires meta { IsMeta catalogue.now kept.now.meta }
    ensures { IsListedSo (record { writes = counts (O.faults output.old) (O.faults output.new); from = O.taken output.old; to = O.taken output.new }) (listed_line catalogue.now layer kept.now) result }
{
    if is_listed(layer, kept) {
        send_line(alloc, catalogue, kept, output)
    } else {
        ListingEnd::Done
    }
}

/// Writes the lines of what is kept, one at a time.
pub(crate) fn send_lines<O: ByteSink>(
    alloc: Global,
    catalogue: &Catalogue,
    layer: Option<u32>,
    kept: &[Kept],
    output: &mut O,
) -> ListingEnd
    requires valid { IsValid catalogue.now }
    requires metas { AllByRecursion (λ t. IsMeta catalogue.now t.meta) kept.now }
    ensures { IsListedSo (record { writes = counts (O.faults output.old) (O.faults output.new); from = O.taken output.old; to = O.taken output.new }) (list_text catalogue.now layer kept.now) result }
{
    for one in kept {
        match send_listed(alloc, catalogue, layer, one, output) {
            ListingEnd::Done => {}
            ListingEnd::WriteFault => return ListingEnd::WriteFault,
            ListingEnd::OutOfMemory => return ListingEnd::OutOfMemory,
        }
    }
    ListingEnd::Done
}
