//! The word that makes an empty cache.
ghost use Rattle.std.specs.Prelude.{◌≡◌};
ghost use Rattle.catalog.specs.Valid.{IsValid};
ghost use Rattle.disk_words.specs.Ends.{Makes};
ghost use Rattle.opened_cache.specs.Change.{DiskChange};
ghost use Rattle.sessions.specs.Outside.{OutputChange, counts};

use arrayvec::ArrayVec;
use catalog::Catalogue;
use command_status::Status;
use disk_model::Disk;
use http_wire::ByteSink;
use opened_cache::write_text;

/// Makes an empty cache on the disk, whatever stood there, and writes that it is made. Each end comes as `Makes` says. It takes no
/// memory.
pub fn make<D: Disk, O: ByteSink>(catalogue: &Catalogue, disk: &mut D, output: &mut O) -> Status
    requires { IsValid catalogue.now }
    ensures makes { Makes catalogue.now
        (record { told = D.told disk.old; faults = counts (D.faults disk.old) (D.faults disk.new); from = D.state disk.old; to = D.state disk.new })
        (record { writes = counts (O.faults output.old) (O.faults output.new); from = O.taken output.old; to = O.taken output.new })
        (output.new ≡ output.old) result }
    ensures told { D.told disk.new ≡ D.told disk.old }
{
    match durable_cabinet::make(catalogue, disk) {
        Ok(()) => write_text(output, ArrayVec::new(), b"made\n"),
        Err(_) => Status::DiskFault,
    }
}
