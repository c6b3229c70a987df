//! How a disk becomes a journal without records.
ghost use Rattle.std.specs.Prelude.{◌≡◌, ◌≤◌, ◌^◌, [], IsTrue, OnOk, length};
ghost use Rattle.base.specs.Causes.{HasCause};
ghost use Rattle.disk_model.specs.Images.{Every, Only};
ghost use Rattle.gate_journal.specs.Layout.{journal_length, new_layout};
ghost use Rattle.gate_journal.specs.Opened.{opened, records};
ghost use Rattle.gate_journal.specs.Sound.{IsLaidOut};

use crate::header::header_body;
use crate::writes::open_gate;
use disk_model::{Disk, Failed};

/// Makes a journal of version 2 with no records, in place of what the disk holds. A half has so many slots, 1 to 2^40. After `Ok` each
/// image opens to no records under the digest, of version 2, by the first half and generation 1, nothing is pending, and the disk ends
/// where the journal does. `Failed` only where the disk's count of faults rose; nothing is said of what the disk then
/// holds, and `make` is to be called again.
pub fn make<D: Disk>(disk: &mut D, digest: &[u8; 32], slots: u64) -> Result<(), Failed>
    requires some { 1 ≤ slots }
    requires limit { slots ≤ 2 ^ 40 }
    ensures told { D.told disk.new ≡ D.told disk.old }
    ensures made { IsTrue (D.told disk.old) → OnOk result
        (Every (D.state disk.new).may_leave (λ c. opened digest.now slots c ≡ records 2 [])) }
    ensures first { IsTrue (D.told disk.old) → OnOk result
        (Every (D.state disk.new).may_leave (IsLaidOut (new_layout digest.now slots))) }
    ensures durable { IsTrue (D.told disk.old) → OnOk result (Only (D.state disk.new).seen (D.state disk.new).may_leave) }
    ensures end { IsTrue (D.told disk.old) → OnOk result (length (D.state disk.new).seen ≡ journal_length slots) }
    ensures cause { HasCause (D.faults disk.old) (D.faults disk.new) result }
{
    disk.cut(0)?;
    disk.cut(128 + 128 * slots)?;
    disk.write_at(0, &header_body(1, digest))?;
    open_gate(disk, 63)?;
    Ok(())
}
