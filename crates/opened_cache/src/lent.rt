//! A disk that is lent. Its type names the loan, so that who lent it knows afterwards that this disk, and no other, was read and
//! written.
ghost use Rattle.std.specs.Prelude.{◌≡◌, ◌≤◌, ◌+◌, ◌^◌, IsTrue, OnOk, length};
ghost use Rattle.base.specs.Causes.{HasCause};
ghost use Rattle.disk_model.specs.Content.{bytes_at, resized, written, Same, TornCut, TornWrite};
ghost use Rattle.disk_model.specs.Images.{Only, Steps};

use disk_model::{BlobPart, Disk, Failed};
use std::marker::{Brand, PhantomData};

/// The loan of a disk, by name. A call that is generic over it picks it in its proof.
pub trait Loan {
    ghost use Rattle.std.specs.Borrow.{GName};

    /// The loan.
    ghost disk: { GName };
}

impl Loan for Brand {
    ghost disk = { 0 };
}

/// A disk that is lent. It is that of the loan `L` and never another.
#[derive(Drop)]
pub struct LentDisk<'a, D, L: Loan> {
    pub disk: &'a mut D,
    loan: PhantomData<L>,
    ghost same: { disk.ghost_name ≡ L.disk },
}

impl<'a, D, L: Loan> LentDisk<'a, D, L> {
    /// The disk of this loan.
    pub fn new(disk: &'a mut D) -> LentDisk<'a, D, L>
        requires { disk.ghost_name ≡ L.disk }
        ensures { result.disk ≡ disk.entry }
    {
        LentDisk {
            disk,
            loan: PhantomData,
        }
    }

    /// The disk itself.
    pub fn into_disk(self) -> &'a mut D
        ensures { result ≡ self.entry.disk }
    {
        let LentDisk { disk, .. } = self;
        disk
    }
}

impl<D: Disk, L: Loan> Disk for LentDisk<'_, D, L> {
    ghost told = { λ lent. D.told lent.disk.now };

    ghost state = { λ lent. D.state lent.disk.now };

    ghost faults = { λ lent. D.faults lent.disk.now };

    ghost lawful = { λ lent told. D.lawful lent.disk.now told };

    fn read(&mut self, at: u64, into: &mut [u8]) -> Result<(), Failed> {
        self.disk.read(at, into)
    }

    fn read_of(&mut self, part: BlobPart, at: u64, into: &mut [u8]) -> Result<(), Failed> {
        self.disk.read_of(part, at, into)
    }

    fn write_at(&mut self, at: u64, bytes: &[u8]) -> Result<(), Failed> {
        self.disk.write_at(at, bytes)
    }

    fn write_of(
        &mut self,
        part: BlobPart,
        piece: u32,
        at: u64,
        bytes: &[u8],
    ) -> Result<(), Failed> {
        self.disk.write_of(part, piece, at, bytes)
    }

    fn cut(&mut self, length: u64) -> Result<(), Failed> {
        self.disk.cut(length)
    }

    fn sync(&mut self) -> Result<(), Failed> {
        self.disk.sync()
    }

    fn fault_count(&self) -> u64 {
        self.disk.fault_count()
    }
}
