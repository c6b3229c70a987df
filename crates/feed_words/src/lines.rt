//! The lines of a feed, one after the other.
ghost use Rattle.std.specs.Prelude.{◌≡◌, ◌<◌, ◌^◌, length};
ghost use Rattle.cache_core.specs.Lasting.{Lasting};
ghost use Rattle.catalog.specs.Valid.{IsValid};
ghost use Rattle.feed_words.specs.Fed.{HasRunLines};
ghost use Rattle.gate_journal.specs.Sound.{digest_of};
ghost use Rattle.sessions.specs.Outside.{OutputChange, counts};

use crate::line::{FeedLineEnd, run_line};
use cabinet::Keeper;
use cache_core::laws_of_lasting;
use change_feed::Feed;
use disk_model::Disk;
use http_wire::ByteSink;
use std::alloc::Global;
use tile_service::split_line;

/// How the lines of a feed ended.
#[derive(Clone, Copy, PartialEq, Eq)]
pub enum FeedLinesEnd {
    /// Each line was answered.
    Done,
    /// This line orders no change, counted from 1; the lines before it were answered.
    Line(u64),
    /// A write of an answer failed; no later change was made.
    WriteFault,
    /// Memory ran out; no later change was made.
    OutOfMemory,
}

/// Makes the changes that the lines of a text order, one after the other, and tells what became of each.
pub(crate) fn run_lines<C: Keeper, D: Disk, O: ByteSink>(
    alloc: Global,
    feed: &mut Feed<D>,
    cabinet: &mut C,
    output: &mut O,
    text: &[u8],
) -> FeedLinesEnd
    requires valid { IsValid (C.state cabinet.old).catalogue }
    requires short { length text.now < 2 ^ 32 }
    ensures runs { HasRunLines (D.told feed.old.file.disk) (digest_of feed.old.file.journal) (D.state feed.old.file.disk) (D.state feed.new.file.disk)
        (record { writes = counts (O.faults output.old) (O.faults output.new); from = O.taken output.old; to = O.taken output.new }) text.now
        (record { stand = feed.old.stand; faults = D.faults feed.old.file.disk; cabinet = C.state cabinet.old; cabinet_faults = C.faults cabinet.old })
        (record { stand = feed.new.stand; faults = D.faults feed.new.file.disk; cabinet = C.state cabinet.new; cabinet_faults = C.faults cabinet.new }) result }
    ensures told { D.told feed.new.file.disk ≡ D.told feed.old.file.disk }
    ensures digest { digest_of feed.new.file.journal ≡ digest_of feed.old.file.journal }
    ensures lasts { Lasting (C.outlasts cabinet.old cabinet.new) (C.state cabinet.old) (C.state cabinet.new) }
{
    laws_of_lasting::<C>();
    let mut rest = text;
    let mut lines = 0;
    while !rest.is_empty() {
        let (line, next) = split_line(rest);
        lines += 1;
        match run_line(alloc, feed, cabinet, output, line) {
            FeedLineEnd::Told => {}
            FeedLineEnd::Refused => return FeedLinesEnd::Line(lines),
            FeedLineEnd::WriteFault => return FeedLinesEnd::WriteFault,
            FeedLineEnd::OutOfMemory => return FeedLinesEnd::OutOfMemory,
        }
        rest = next;
    }
    FeedLinesEnd::Done
}
