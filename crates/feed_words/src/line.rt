//! One line of a feed: its change is made, and answered.
ghost use Rattle.std.specs.Prelude.{◌≡◌, ◌≤◌};
ghost use Rattle.catalog.specs.Valid.{IsValid};
ghost use Rattle.feed_words.specs.OneLine.{GoesTo, IsToldAs, MakesChange, RunsLine};
ghost use Rattle.gate_journal.specs.Sound.{digest_of};
ghost use Rattle.served_covers.specs.OfCatalogue.{IsCoverOf};
ghost use Rattle.sessions.specs.Outside.{OutputChange, counts};

use crate::orders::{UnreadChange, read_change};
use crate::text::send_answer;
use cabinet::{Keeper, laws_of_rows};
use change_feed::{Applied, Change, Feed};
use disk_model::Disk;
use http_wire::ByteSink;
use std::alloc::Global;

/// How a line ended.
#[derive(Clone, Copy, PartialEq, Eq)]
pub enum FeedLineEnd {
    /// Its change was answered, and the answer went out.
    Told,
    /// It orders no change, and nothing happened.
    Refused,
    /// Its change was answered, and a write of the answer failed.
    WriteFault,
    /// Memory ran out, and no cut was made.
    OutOfMemory,
}

/// Tells what became of the change of a number.
fn tell<O: ByteSink>(output: &mut O, number: u64, reply: Applied) -> FeedLineEnd
    ensures tells { IsToldAs (record { writes = counts (O.faults output.old) (O.faults output.new); from = O.taken output.old; to = O.taken output.new }) number reply result }
    ensures later { O.faults output.old ≤ O.faults output.new }
{
    if send_answer(output, number, reply) {
        FeedLineEnd::Told
    } else {
        FeedLineEnd::WriteFault
    }
}

/// Makes a change, and tells what became of it.
fn make_change<C: Keeper, D: Disk, O: ByteSink>(
    alloc: Global,
    feed: &mut Feed<D>,
    cabinet: &mut C,
    output: &mut O,
    change: &Change,
) -> FeedLineEnd
    requires cover { IsCoverOf (C.state cabinet.old).catalogue change.now.cover }
    ensures makes { MakesChange change.now (record { writes = counts (O.faults output.old) (O.faults output.new); from = O.taken output.old; to = O.taken output.new }) (output.new ≡ output.old)
        (record { stand = feed.old.stand; faults = D.faults feed.old.file.disk; cabinet = C.state cabinet.old; cabinet_faults = C.faults cabinet.old })
        (record { stand = feed.new.stand; faults = D.faults feed.new.file.disk; cabinet = C.state cabinet.new; cabinet_faults = C.faults cabinet.new }) result }
    ensures goes { GoesTo (D.told feed.old.file.disk) (digest_of feed.old.file.journal) (D.state feed.old.file.disk) (D.state feed.new.file.disk)
        (record { stand = feed.old.stand; faults = D.faults feed.old.file.disk; cabinet = C.state cabinet.old; cabinet_faults = C.faults cabinet.old })
        (record { stand = feed.new.stand; faults = D.faults feed.new.file.disk; cabinet = C.state cabinet.new; cabinet_faults = C.faults cabinet.new }) }
    ensures told { D.told feed.new.file.disk ≡ D.told feed.old.file.disk }
    ensures digest { digest_of feed.new.file.journal ≡ digest_of feed.old.file.journal }
    ensures lasts { C.outlasts cabinet.old cabinet.new }
    ensures later { O.faults output.old ≤ O.faults output.new }
{
    cabinet.known();
    laws_of_rows();
    match feed.apply(alloc, cabinet, change) {
        Ok(reply) => tell(output, change.number, reply),
        Err(_) => FeedLineEnd::OutOfMemory,
    }
}

/// Makes the change that a line orders, and tells what became of it.
pub(crate) fn run_line<C: Keeper, D: Disk, O: ByteSink>(
    alloc: Global,
    feed: &mut Feed<D>,
    cabinet: &mut C,
    output: &mut O,
    line: &[u8],
) -> FeedLineEnd
    requires { IsValid (C.state cabinet.old).catalogue }
    ensures runs { RunsLine line.now (record { writes = counts (O.faults output.old) (O.faults output.new); from = O.taken output.old; to = O.taken output.new }) (output.new ≡ output.old)
        (record { stand = feed.old.stand; faults = D.faults feed.old.file.disk; cabinet = C.state cabinet.old; cabinet_faults = C.faults cabinet.old })
        (record { stand = feed.new.stand; faults = D.faults feed.new.file.disk; cabinet = C.state cabinet.new; cabinet_faults = C.faults cabinet.new }) result }
    ensures goes { GoesTo (D.told feed.old.file.disk) (digest_of feed.old.file.journal) (D.state feed.old.file.disk) (D.state feed.new.file.disk)
        (record { stand = feed.old.stand; faults = D.faults feed.old.file.disk; cabinet = C.state cabinet.old; cabinet_faults = C.faults cabinet.old })
        (record { stand = feed.new.stand; faults = D.faults feed.new.file.disk; cabinet = C.state cabinet.new; cabinet_faults = C.faults cabinet.new }) }
    ensures told { D.told feed.new.file.disk ≡ D.told feed.old.file.disk }
    ensures digest { digest_of feed.new.file.journal ≡ digest_of feed.old.file.journal }
    ensures lasts { C.outlasts cabinet.old cabinet.new }
    ensures later { O.faults output.old ≤ O.faults output.new }
{
    match read_change(alloc, cabinet.catalogue(), line) {
        Ok(change) => make_change(alloc, feed, cabinet, output, &change),
        Err(UnreadChange::Refused) => FeedLineEnd::Refused,
        Err(UnreadChange::OutOfMemory) => FeedLineEnd::OutOfMemory,
    }
}
