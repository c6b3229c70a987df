//! How headers are read from a disk, and which half they put in force.
ghost use Rattle.std.specs.Prelude.{◌≡◌, ◌≤◌, ℕ, IfOk, IsTrue};
ghost use Rattle.base.specs.Causes.{HasCause};
ghost use Rattle.disk_model.specs.Content.{Content, bytes_at, Same};
ghost use Rattle.disk_model.specs.Images.{ChangesBy};
ghost use Rattle.gate_journal.specs.Opened.{half_in_force};
ghost use Rattle.gate_journal.specs.Reading.{NamesVersion, Says, SaysForce};

use crate::half::Half;
use crate::header::{Header, MAGIC_OF_1, MAGIC_OF_2};
use disk_model::{Disk, Failed};

/// The version whose magic these bytes are.
fn version_named(bytes: &[u8]) -> Option<u8>
    ensures { NamesVersion result bytes.now }
{
    let first = bytes == MAGIC_OF_1.as_slice();
    if first {
        return Some(1);
    }
    let second = bytes == MAGIC_OF_2.as_slice();
    if second {
        return Some(2);
    }
    None
}

/// The header in a slot, where it counts.
fn header_of(slot: &[u8; 64]) -> Option<Header>
    ensures { (c : Content) (at : ℕ) → slot.now ≡ bytes_at c at 64 → Says result c at }
{
    if slot[63] != 1 {
        return None;
    }
    let Some(version) = version_named(&slot[..8]) else {
        return None;
    };
    let ends = &slot[48..63] == [0; 15].as_slice();
    if !ends {
        return None;
    }
    let mut number = [0; 8];
    number.copy_from_slice(&slot[8..16]);
    let mut digest = [0; 32];
    digest.copy_from_slice(&slot[16..48]);
    Some(Header {
        version,
        generation: u64::from_be_bytes(number),
        digest,
    })
}

/// Reads the header of a half.
pub(crate) fn read_header<D: Disk>(disk: &mut D, at: u64) -> Result<Option<Header>, Failed>
    requires { at ≤ 64 }
    ensures told { D.told disk.new ≡ D.told disk.old }
    ensures header { IsTrue (D.told disk.old) → IfOk result (λ found. Says found (D.state disk.old).seen at) }
    ensures quiet { IsTrue (D.told disk.old) → ChangesBy Same (D.state disk.old) (D.state disk.new) }
    ensures cause { HasCause (D.faults disk.old) (D.faults disk.new) result }
{
    let mut slot = [0; 64];
    disk.read(at, &mut slot)?;
    Ok(header_of(&slot))
}

/// Which half is in force, by the headers of both.
pub(crate) fn half_of_headers(
    first: Option<Header>,
    second: Option<Header>,
) -> Option<(Half, Header)>
    ensures { (c : Content) → Says first c 0 → Says second c 64 → SaysForce result c }
{
    match (first, second) {
        (None, None) => None,
        (Some(one), None) => Some((Half::First, one)),
        (None, Some(two)) => Some((Half::Second, two)),
        (Some(one), Some(two)) => {
            if two.generation == one.generation.wrapping_add(1) {
                Some((Half::Second, two))
            } else {
                Some((Half::First, one))
            }
        }
    }
}
