//! The cover of an input, read to its end.
ghost use Rattle.std.specs.Prelude.{IfOk};
ghost use Rattle.catalog.specs.Valid.{IsValid};
ghost use Rattle.disk_words.specs.Covers.{ReadsCover};
ghost use Rattle.served_covers.specs.OfCatalogue.{IsCoverOf};
ghost use Rattle.sessions.specs.Outside.{InputChange};

use catalog::Catalogue;
use command_status::{Status, status_of_form};
use http_wire::ByteSource;
use job_forms::read_cover;
use opened_cache::text_in;
use std::alloc::Global;
use truncation_list::Cover;

/// The most bytes of a cover.
const COVER_LIMIT: usize = 65_536;

/// Reads the cover that an input has.
pub fn cover_in<I: ByteSource>(
    alloc: Global,
    catalogue: &Catalogue,
    input: &mut I,
) -> Result<Cover, Status>
    requires { IsValid catalogue.now }
    ensures reads { ReadsCover catalogue.now (record { reads = record { before = I.faults input.old; after = I.faults input.new }; from = I.left input.old; to = I.left input.new }) result }
    ensures of { IfOk result (λ cover. IsCoverOf catalogue.now cover) }
{
    match text_in(alloc, input, COVER_LIMIT) {
        Ok(text) => match read_cover(alloc, catalogue, text.as_slice()) {
            Ok(cover) => Ok(cover),
            Err(fault) => Err(status_of_form(fault)),
        },
        Err(status) => Err(status),
    }
}
