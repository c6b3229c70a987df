//! The picture that a renderer answers over a link.
ghost use Rattle.std.specs.Io.KnownBytes.{Appends};
ghost use Rattle.std.specs.Prelude.{OnOk};
ghost use Rattle.renderer_link.specs.Pictures.{HasPictureCause, Pictures};

use crate::exchange::{ExchangeFault, exchanged};
use http_source::paint;
use http_wire::Link;
use raster_field::Raster;
use std::alloc::Global;

/// Why an exchange left no picture.
#[derive(Drop)]
pub enum PictureFault {
    /// There is no body, for this cause.
    Exchange(ExchangeFault),
    /// The body, which is handed back, isn't a binary pixmap of the raster's size.
    NoPixmap(Vec<u8>),
}

/// Sends a request over a link, and leaves in a raster the pixels of the pixmap of its size that is answered, in at most so many bytes with the
/// head and the lines of chunks. In each other case the raster stays: where the link failed, what came is no answer that is taken, the
/// body is no such pixmap, or memory runs out.
pub fn request_picture<L: Link>(
    alloc: Global,
    link: &mut L,
    request: &[u8],
    limit: usize,
    into: &mut Raster,
) -> Result<(), PictureFault>
    ensures sent { OnOk result (Appends (L.taken link.old) (L.taken link.new) request.now) }
    ensures shown { Pictures limit (L.left link.old) (L.left link.new) into.old into.new result }
    ensures cause { HasPictureCause (L.ByteSource.faults link.old) (L.ByteSource.faults link.new) (L.ByteSink.faults link.old) (L.ByteSink.faults link.new) result }
{
    match exchanged(alloc, link, request, limit) {
        Ok(body) => match paint(body.as_slice(), into) {
            Some(()) => Ok(()),
            None => Err(PictureFault::NoPixmap(body)),
        },
        Err(fault) => Err(PictureFault::Exchange(fault)),
    }
}
