//! How the records of a half are read and visited, some slots at a time.
ghost use Rattle.std.specs.Prelude.{◌≡◌, ◌+◌, ◌*◌, ◌≤◌, ◌^◌, length, take};
ghost use Rattle.gate_journal.specs.Visiting.{ComesOfPart, ComesOfHalf, OnlyReads};

use crate::fault::OpenFault;
use crate::half::AT_ONCE;
use crate::visit::Visit;
use disk_model::Disk;
use std::alloc::Global;

/// The body of a slot.
fn body_of(slot: &[u8]) -> [u8; 63]
    requires { length slot.now ≡ 64 }
    ensures { result ≡ take 63 slot.now }
{
    let mut body = [0; 63];
    body.copy_from_slice(&slot[..63]);
    body
}

/// Visits the records in some slots, which stand after `before` others with `found` records, and gives how many there
/// are then. `NotACache` where an open gate stands after a closed one.
fn visit_part<V: Visit>(
    alloc: Global,
    slots: &[u8],
    count: u64,
    before: u64,
    found: u64,
    visit: &mut V,
) -> Result<u64, OpenFault>
    requires size { length slots.now ≡ 64 * count }
    requires few { found ≤ before }
    requires limit { before + count ≤ 2 ^ 40 }
    ensures { ComesOfPart V.visits V.leaves found before count slots.now visit.old visit.new result }
{
    let mut records = found;
    for k in 0..count {
        let at = 64 * k as usize;
        let slot = &slots[at..at + 64];
        if slot[63] == 1 {
            if records < before + k {
                return Err(OpenFault::NotACache);
            }
            match visit.body(alloc, records, &body_of(slot)) {
                Ok(()) => records += 1,
                Err(_) => return Err(OpenFault::OutOfMemory),
            }
        }
    }
    Ok(records)
}

/// Visits the records of a half in their order, and gives how many there are. `NotACache` where an open gate stands
/// after a closed one.
pub(crate) fn visit_records<D: Disk, V: Visit>(
    alloc: Global,
    disk: &mut D,
    start: u64,
    slots: u64,
    visit: &mut V,
) -> Result<u64, OpenFault>
    requires limit { slots ≤ 2 ^ 40 }
    requires end { start + 64 * slots ≤ 2 ^ 62 }
    ensures reads { OnlyReads (D.told disk.old) (D.told disk.new) (D.state disk.old) (D.state disk.new) (D.faults disk.old) (D.faults disk.new) result }
    ensures comes { ComesOfHalf V.visits V.leaves (D.told disk.old) (D.state disk.old).seen start slots visit.old visit.new result }
{
    let mut buffer = vec![in alloc; 0; 65536]?;
    let mut found = 0;
    let mut done = 0;
    while done < slots {
        let count = AT_ONCE.min(slots - done);
        let part = &mut buffer[..64 * count as usize];
        disk.read(start + 64 * done, part)?;
        match visit_part(alloc, part, count, done, found, visit) {
            Ok(records) => found = records,
            Err(fault) => return Err(fault),
        }
        done += count;
    }
    Ok(found)
}
