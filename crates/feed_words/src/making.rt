//! The word that makes an empty file of marks.
ghost use Rattle.std.specs.Prelude.{◌≡◌};
ghost use Rattle.feed_words.specs.Ends.{MakesMarks};
ghost use Rattle.opened_cache.specs.Change.{DiskChange};
ghost use Rattle.sessions.specs.Outside.{OutputChange, counts};

use arrayvec::ArrayVec;
use catalog::Catalogue;
use change_feed::Feed;
use command_status::Status;
use disk_model::Disk;
use http_wire::ByteSink;
use opened_cache::write_text;

/// Makes an empty file of marks, whatever stood there, and writes that it is made. Each end comes as `MakesMarks` says. It takes no
/// memory.
pub(crate) fn make_marks<D: Disk, O: ByteSink>(
    catalogue: &Catalogue,
    marks: &mut D,
    output: &mut O,
) -> Status
    ensures makes { MakesMarks catalogue.now
        (record { told = D.told marks.old; faults = counts (D.faults marks.old) (D.faults marks.new); from = D.state marks.old; to = D.state marks.new })
        (record { writes = counts (O.faults output.old) (O.faults output.new); from = O.taken output.old; to = O.taken output.new })
        (output.new ≡ output.old) result }
    ensures told { D.told marks.new ≡ D.told marks.old }
{
    match Feed::make(catalogue, marks) {
        Ok(()) => write_text(output, ArrayVec::new(), b"made\n"),
        Err(_) => Status::DiskFault,
    }
}
