//! The word that makes the three empty files of a twin.
ghost use Rattle.std.specs.Prelude.{◌≡◌};
ghost use Rattle.catalog.specs.Valid.{IsValid};
ghost use Rattle.sessions.specs.Outside.{OutputChange, counts};
ghost use Rattle.twin_words.specs.Made.{MakesTwin, change_of};

use arrayvec::ArrayVec;
use catalog::Catalogue;
use change_feed::Feed;
use command_status::Status;
use disk_model::Disk;
use http_wire::ByteSink;
use opened_cache::write_text;
use outbox::Outbox;

/// Makes an empty cache, an empty file of marks and an empty outbox, in this order, whatever stood there, and writes that they are made.
/// Each end comes as `MakesTwin` says. It takes no memory.
pub(crate) fn make_twin<D: Disk, O: ByteSink>(
    catalogue: &Catalogue,
    disk: &mut D,
    marks: &mut D,
    outbox: &mut D,
    output: &mut O,
) -> Status
    requires { IsValid catalogue.now }
    ensures makes { MakesTwin catalogue.now (change_of D.told D.state D.faults disk.old disk.new) (change_of D.told D.state D.faults marks.old marks.new) (change_of D.told D.state D.faults outbox.old outbox.new)
        (record { writes = counts (O.faults output.old) (O.faults output.new); from = O.taken output.old; to = O.taken output.new })
        (marks.new ≡ marks.old) (outbox.new ≡ outbox.old) (output.new ≡ output.old) result }
    ensures told { D.told disk.new ≡ D.told disk.old }
    ensures marks_told { D.told marks.new ≡ D.told marks.old }
    ensures outbox_told { D.told outbox.new ≡ D.told outbox.old }
{
    if durable_cabinet::make(catalogue, disk).is_err() {
        return Status::DiskFault;
    }
    if Feed::make(catalogue, marks).is_err() {
        return Status::DiskFault;
    }
    if Outbox::make(catalogue, outbox).is_err() {
        return Status::DiskFault;
    }
    write_text(output, ArrayVec::new(), b"made\n")
}
