//! The trait of a disk: what each of its calls gives, and what a crash may leave.
ghost use Rattle.std.specs.Prelude.{◌≡◌, ◌≤◌, ◌+◌, ◌^◌, Bool, IsTrue, length, OnOk, ℕ};
ghost use Rattle.base.specs.Causes.{HasCause};
ghost use Rattle.disk_model.specs.Content.{bytes_at, written, resized, TornWrite, TornCut, Same};
ghost use Rattle.disk_model.specs.Images.{DiskState, Only, Steps, IsLawful};

use crate::blob_part::BlobPart;

/// A call of a disk failed.
#[derive(Clone, Copy, Debug, PartialEq, Eq, Drop)]
pub struct Failed;

/// A disk that holds one file of bytes. Places and lengths are in bytes, and stay below 2^62.
///
/// Where it is modelled, each call says what a read gives afterwards and what a crash may leave, at the end of the
/// call and at each moment within it.
pub trait Disk: Drop {
    /// Whether it is modelled. A real file isn't.
    ghost told: { Self → Bool };

    /// What a read gives, and what a crash may leave. It means something where the disk is modelled.
    ghost state: { Self → DiskState };

    /// How often it has failed. The count stays at its last value.
    ghost faults: { Self → ℕ };

    /// Reads from a place on. Past the end the bytes are 0.
    fn read(&mut self, at: u64, into: &mut [u8]) -> Result<(), Failed>
        requires { at + length into.old ≤ 2 ^ 62 }
        ensures told { told self.new ≡ told self.old }
        ensures bytes { IsTrue (told self.old)
            → OnOk result (into.new ≡ bytes_at (state self.old).seen at (length into.old)) }
        ensures steps { IsTrue (told self.old) → Steps Same (state self.old) (state self.new) }
        ensures cause { HasCause (faults self.old) (faults self.new) result };

    /// Reads a part of a blob, as `read` does. A disk that keeps more of a blob than its bytes fails where they aren't those that were
    /// written as this part.
    fn read_of(&mut self, part: BlobPart, at: u64, into: &mut [u8]) -> Result<(), Failed>
        requires { at + length into.old ≤ 2 ^ 62 }
        ensures told { told self.new ≡ told self.old }
        ensures bytes { IsTrue (told self.old)
            → OnOk result (into.new ≡ bytes_at (state self.old).seen at (length into.old)) }
        ensures steps { IsTrue (told self.old) → Steps Same (state self.old) (state self.new) }
        ensures cause { HasCause (faults self.old) (faults self.new) result };

    /// Writes from a place on. Until a sync, and also where the call failed, a crash may leave any bytes in the range and
    /// past the old end.
    fn write_at(&mut self, at: u64, bytes: &[u8]) -> Result<(), Failed>
        requires { at + length bytes.now ≤ 2 ^ 62 }
        ensures told { told self.new ≡ told self.old }
        ensures written { IsTrue (told self.old)
            → OnOk result ((state self.new).seen ≡ written at bytes.now (state self.old).seen) }
        ensures steps { IsTrue (told self.old)
            → Steps (TornWrite at (length bytes.now)) (state self.old) (state self.new) }
        ensures cause { HasCause (faults self.old) (faults self.new) result };

    /// Writes a part of a blob, as `write_at` does. It will be read in pieces of this length, in bytes, the first of which begins where the
    /// part does.
    fn write_of(&mut self, part: BlobPart, piece: u32, at: u64, bytes: &[u8]) -> Result<(), Failed>
        requires { at + length bytes.now ≤ 2 ^ 62 }
        ensures told { told self.new ≡ told self.old }
        ensures written { IsTrue (told self.old)
            → OnOk result ((state self.new).seen ≡ written at bytes.now (state self.old).seen) }
        ensures steps { IsTrue (told self.old)
            → Steps (TornWrite at (length bytes.now)) (state self.old) (state self.new) }
        ensures cause { HasCause (faults self.old) (faults self.new) result };

    /// Cuts to a length, or grows to it by zeros. Until a sync, and also where the call failed, a crash may leave any end
    /// between the two and any bytes there.
    fn cut(&mut self, length: u64) -> Result<(), Failed>
        requires { length ≤ 2 ^ 62 }
        ensures told { told self.new ≡ told self.old }
        ensures resized { IsTrue (told self.old)
            → OnOk result ((state self.new).seen ≡ resized length (state self.old).seen) }
        ensures steps { IsTrue (told self.old) → Steps (TornCut length) (state self.old) (state self.new) }
        ensures cause { HasCause (faults self.old) (faults self.new) result };

    /// After it, a crash leaves what a read gives.
    fn sync(&mut self) -> Result<(), Failed>
        ensures told { told self.new ≡ told self.old }
        ensures durable { IsTrue (told self.old)
            → OnOk result (Only (state self.new).seen (state self.new).may_leave) }
        ensures steps { IsTrue (told self.old) → Steps Same (state self.old) (state self.new) }
        ensures cause { HasCause (faults self.old) (faults self.new) result };

    /// How often it has failed.
    fn fault_count(&self) -> u64
        ensures { result ≡ faults self.now };

    ghost lawful: { (disk : Self) → IsTrue (told disk) → IsLawful (state disk) };
}

// A call acts on the disk behind the reference.
impl<D: Disk> Disk for &mut D {
    ghost told = { λ d. D.told d.now };

    ghost state = { λ d. D.state d.now };

    ghost faults = { λ d. D.faults d.now };

    ghost lawful = { λ d told. D.lawful d.now told };

    fn read(&mut self, at: u64, into: &mut [u8]) -> Result<(), Failed> {
        (**self).read(at, into)
    }

    fn read_of(&mut self, part: BlobPart, at: u64, into: &mut [u8]) -> Result<(), Failed> {
        (**self).read_of(part, at, into)
    }

    fn write_at(&mut self, at: u64, bytes: &[u8]) -> Result<(), Failed> {
        (**self).write_at(at, bytes)
    }

    fn write_of(
        &mut self,
        part: BlobPart,
        piece: u32,
        at: u64,
        bytes: &[u8],
    ) -> Result<(), Failed> {
        (**self).write_of(part, piece, at, bytes)
    }

    fn cut(&mut self, length: u64) -> Result<(), Failed> {
        (**self).cut(length)
    }

    fn sync(&mut self) -> Result<(), Failed> {
        (**self).sync()
    }

    fn fault_count(&self) -> u64 {
        (**self).fault_count()
    }
}
