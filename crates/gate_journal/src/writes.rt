//! The three writes of a journal, each of which is on the disk once it succeeded.
ghost use Rattle.std.specs.Prelude.{◌≡◌, ◌≤◌, ◌+◌, ◌^◌, [], ◌∷◌, IsTrue, OnOk};
ghost use Rattle.base.specs.Causes.{HasCause};
ghost use Rattle.disk_model.specs.Content.{bytes_at, written, TornWrite};
ghost use Rattle.disk_model.specs.Images.{Only, ChangesBy};

use disk_model::{Disk, Failed, write_through};

/// Writes the body of a slot. At no moment may its gate, or another byte below the old end, be other than before.
#[tactic(auto, using(crate::proofs::Places::written_body))]
pub(crate) fn write_body<D: Disk>(disk: &mut D, at: u64, body: &[u8; 63]) -> Result<(), Failed>
    requires { at + 64 ≤ 2 ^ 62 }
    ensures told { D.told disk.new ≡ D.told disk.old }
    ensures body { IsTrue (D.told disk.old) → OnOk result (bytes_at (D.state disk.new).seen at 63 ≡ body.now) }
    ensures durable { IsTrue (D.told disk.old) → OnOk result (Only (D.state disk.new).seen (D.state disk.new).may_leave) }
    ensures changes { IsTrue (D.told disk.old) → ChangesBy (TornWrite at 63) (D.state disk.old) (D.state disk.new) }
    ensures cause { HasCause (D.faults disk.old) (D.faults disk.new) result }
{
    write_through(disk, at, body)
}

/// Opens a gate.
pub(crate) fn open_gate<D: Disk>(disk: &mut D, gate: u64) -> Result<(), Failed>
    requires { gate + 1 ≤ 2 ^ 62 }
    ensures told { D.told disk.new ≡ D.told disk.old }
    ensures written { IsTrue (D.told disk.old) → OnOk result ((D.state disk.new).seen ≡ written gate (1 ∷ []) (D.state disk.old).seen) }
    ensures durable { IsTrue (D.told disk.old) → OnOk result (Only (D.state disk.new).seen (D.state disk.new).may_leave) }
    ensures changes { IsTrue (D.told disk.old) → ChangesBy (TornWrite gate 1) (D.state disk.old) (D.state disk.new) }
    ensures cause { HasCause (D.faults disk.old) (D.faults disk.new) result }
{
    write_through(disk, gate, &[1])
}

/// Closes a gate.
pub(crate) fn close_gate<D: Disk>(disk: &mut D, gate: u64) -> Result<(), Failed>
    requires { gate + 1 ≤ 2 ^ 62 }
    ensures told { D.told disk.new ≡ D.told disk.old }
    ensures written { IsTrue (D.told disk.old) → OnOk result ((D.state disk.new).seen ≡ written gate (0 ∷ []) (D.state disk.old).seen) }
    ensures durable { IsTrue (D.told disk.old) → OnOk result (Only (D.state disk.new).seen (D.state disk.new).may_leave) }
    ensures changes { IsTrue (D.told disk.old) → ChangesBy (TornWrite gate 1) (D.state disk.old) (D.state disk.new) }
    ensures cause { HasCause (D.faults disk.old) (D.faults disk.new) result }
{
    write_through(disk, gate, &[0])
}
