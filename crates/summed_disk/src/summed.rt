//! A disk with a sum for each tile that stands on it.
ghost use Rattle.std.specs.Prelude.{◌≡◌, ◌≢◌, ◌⊎◌, ◌≤◌, ◌<◌, ◌+◌, ◌^◌, IsTrue, OnErr, OnOk, is_ok, length, true, false};
ghost use Rattle.base.specs.Causes.{HasCause, Rose};
ghost use Rattle.disk_model.specs.Content.{bytes_at, written, Same, TornWrite};
ghost use Rattle.disk_model.specs.Images.{Only, Steps};
ghost use Rattle.summed_disk.specs.Entries.{AreSummed, sum_at};
ghost use Rattle.summed_disk.specs.Sum.{part_sum};

use crate::entries::{read_sum, write_sums};
use crate::sum::part_sum;
use base::one_more;
use disk_model::{BlobPart, Disk, Failed};

/// A disk, and a second one with the sums of the tiles on it.
#[derive(Drop)]
pub struct SummedDisk<D, S> {
    pub disk: D,
    pub sums: S,
    /// Whether there are sums. Without them each tile is given as it was read.
    pub checked: bool,
    /// Each tile of the disk has at least so many bytes, so that no two begin in one grain.
    pub grain: u32,
    pub faults: u64,
    /// How many tiles weren't given because they don't go with their sums.
    pub unfit: u64,
    ghost long: { 8 < grain },
}

impl<D: Disk, S: Disk> SummedDisk<D, S> {
    /// A disk with the file of its sums; `checked` says whether there is one. No tile of it has fewer bytes than a grain, which is more than
    /// the eight bytes of a sum.
    pub fn new(disk: D, sums: S, checked: bool, grain: u32) -> SummedDisk<D, S>
        requires { 8 < grain }
        ensures disk { result.disk ≡ disk }
        ensures sums { result.sums ≡ sums }
        ensures checked { result.checked ≡ checked }
        ensures grain { result.grain ≡ grain }
        ensures none { (result.faults ≡ 0) × (result.unfit ≡ 0) }
    {
        SummedDisk {
            disk,
            sums,
            checked,
            grain,
            faults: 0,
            unfit: 0,
        }
    }

    /// How many tiles weren't given because they don't go with their sums, or these couldn't be read.
    pub fn unfit(&self) -> u64
        ensures { result ≡ self.now.unfit }
    {
        self.unfit
    }

    /// Counts a fault where the disk told one.
    fn answer(&mut self, done: Result<(), Failed>) -> Result<(), Failed>
        ensures same { is_ok result ≡ is_ok done }
        ensures unfit { self.new.unfit ≡ self.old.unfit }
        ensures disk { self.new.disk ≡ self.old.disk }
        ensures sums { self.new.sums ≡ self.old.sums }
        ensures checked { self.new.checked ≡ self.old.checked }
        ensures grain { self.new.grain ≡ self.old.grain }
        ensures cause { HasCause self.old.faults self.new.faults result }
    {
        match done {
            Ok(()) => Ok(()),
            Err(_) => {
                self.faults = one_more(self.faults);
                Err(Failed)
            }
        }
    }

    /// Whether bytes that were read go with their sum, or there are no sums.
    fn fits(&mut self, part: BlobPart, at: u64, bytes: &[u8]) -> bool
        requires { at ≤ 2 ^ 62 }
        ensures disk { self.new.disk ≡ self.old.disk }
        ensures checked { self.new.checked ≡ self.old.checked }
        ensures grain { self.new.grain ≡ self.old.grain }
        ensures faults { self.new.faults ≡ self.old.faults }
        ensures counts { self.new.unfit ≡ self.old.unfit }
        ensures told { S.told self.new.sums ≡ S.told self.old.sums }
        ensures seen { IsTrue (S.told self.old.sums) → (S.state self.new.sums).seen ≡ (S.state self.old.sums).seen }
        ensures fits { IsTrue self.old.checked → IsTrue (S.told self.old.sums) → result ≡ true
            → part_sum part.number part.from bytes.now ≡ sum_at (S.state self.old.sums).seen self.old.grain at }
        ensures unfit { result ≡ false → Rose (S.faults self.old.sums) (S.faults self.new.sums) ⊎ (IsTrue self.old.checked × (IsTrue (S.told self.old.sums)
            → part_sum part.number part.from bytes.now ≢ sum_at (S.state self.old.sums).seen self.old.grain at)) }
    {
        if !self.checked {
            return true;
        }
        match read_sum(&mut self.sums, self.grain, at) {
            Ok(sum) => sum == part_sum(part, bytes),
            Err(_) => false,
        }
    }

    /// Writes the sums of what was written. Where that fails the tiles will not go with their sums, and be rendered anew.
    fn sum_up(&mut self, part: BlobPart, piece: u32, at: u64, bytes: &[u8])
        requires { at + length bytes.now ≤ 2 ^ 62 }
        ensures disk { self.new.disk ≡ self.old.disk }
        ensures checked { self.new.checked ≡ self.old.checked }
        ensures grain { self.new.grain ≡ self.old.grain }
        ensures faults { self.new.faults ≡ self.old.faults }
        ensures told { S.told self.new.sums ≡ S.told self.old.sums }
        ensures sums { IsTrue self.old.checked → IsTrue (S.told self.old.sums) → self.old.grain ≤ piece → part.from + length bytes.now < 2 ^ 32
            → Rose (S.faults self.old.sums) (S.faults self.new.sums)
            ⊎ AreSummed self.old.grain part.number part.from piece at bytes.now (S.state self.old.sums).seen (S.state self.new.sums).seen }
    {
        let most = u32::MAX as usize - part.from as usize;
        if self.checked && self.grain <= piece && bytes.len() <= most {
            let _ = write_sums(&mut self.sums, self.grain, part, piece, at, bytes);
        }
    }
}

impl<D: Disk, S: Disk> Disk for SummedDisk<D, S> {
    ghost told = { λ summed. D.told summed.disk };

    ghost state = { λ summed. D.state summed.disk };

    ghost faults = { λ summed. summed.faults };

    ghost lawful = { λ summed told. D.lawful summed.disk told };

    fn read(&mut self, at: u64, into: &mut [u8]) -> Result<(), Failed> {
        let done = self.disk.read(at, into);
        self.answer(done)
    }

    /// Reads a part of a blob, of which a whole tile is asked for: it fails where the bytes don't go with the sum of this part.
    fn read_of(&mut self, part: BlobPart, at: u64, into: &mut [u8]) -> Result<(), Failed>
        requires { at + length into.old ≤ 2 ^ 62 }
        ensures told { D.told self.new.disk ≡ D.told self.old.disk }
        ensures bytes { IsTrue (D.told self.old.disk)
            → OnOk result (into.new ≡ bytes_at (D.state self.old.disk).seen at (length into.old)) }
        ensures steps { IsTrue (D.told self.old.disk) → Steps Same (D.state self.old.disk) (D.state self.new.disk) }
        ensures cause { HasCause self.old.faults self.new.faults result }
        ensures fits { IsTrue self.old.checked → IsTrue (S.told self.old.sums)
            → OnOk result (part_sum part.number part.from into.new ≡ sum_at (S.state self.old.sums).seen self.old.grain at) }
        ensures refused { OnErr result (Rose (D.faults self.old.disk) (D.faults self.new.disk) ⊎ Rose (S.faults self.old.sums) (S.faults self.new.sums)
            ⊎ (IsTrue self.old.checked × (IsTrue (S.told self.old.sums)
            → part_sum part.number part.from into.new ≢ sum_at (S.state self.old.sums).seen self.old.grain at))) }
        ensures counted { OnErr result (Rose (D.faults self.old.disk) (D.faults self.new.disk) ⊎ Rose self.old.unfit self.new.unfit) }
        ensures spares { IsTrue (S.told self.old.sums) → (S.state self.new.sums).seen ≡ (S.state self.old.sums).seen }
        ensures stays { (S.told self.new.sums ≡ S.told self.old.sums) × (self.new.checked ≡ self.old.checked) × (self.new.grain ≡ self.old.grain) }
    {
        match self.disk.read_of(part, at, into) {
            Err(fault) => self.answer(Err(fault)),
            Ok(()) => {
                if self.fits(part, at, into) {
                    return Ok(());
                }
                self.unfit = one_more(self.unfit);
                self.answer(Err(Failed))
            }
        }
    }

    fn write_at(&mut self, at: u64, bytes: &[u8]) -> Result<(), Failed> {
        let done = self.disk.write_at(at, bytes);
        self.answer(done)
    }

    /// Writes a part of a blob, and the sum of each of its pieces. A sum that isn't written fails no call: its tile will be rendered anew.
    fn write_of(&mut self, part: BlobPart, piece: u32, at: u64, bytes: &[u8]) -> Result<(), Failed>
        requires { at + length bytes.now ≤ 2 ^ 62 }
        ensures told { D.told self.new.disk ≡ D.told self.old.disk }
        ensures written { IsTrue (D.told self.old.disk)
            → OnOk result ((D.state self.new.disk).seen ≡ written at bytes.now (D.state self.old.disk).seen) }
        ensures steps { IsTrue (D.told self.old.disk)
            → Steps (TornWrite at (length bytes.now)) (D.state self.old.disk) (D.state self.new.disk) }
        ensures cause { HasCause self.old.faults self.new.faults result }
        ensures sums { IsTrue self.old.checked → IsTrue (S.told self.old.sums) → self.old.grain ≤ piece → part.from + length bytes.now < 2 ^ 32
            → OnOk result (Rose (S.faults self.old.sums) (S.faults self.new.sums)
            ⊎ AreSummed self.old.grain part.number part.from piece at bytes.now (S.state self.old.sums).seen (S.state self.new.sums).seen) }
        ensures stays { (S.told self.new.sums ≡ S.told self.old.sums) × (self.new.checked ≡ self.old.checked) × (self.new.grain ≡ self.old.grain) }
    {
        match self.disk.write_of(part, piece, at, bytes) {
            Err(fault) => self.answer(Err(fault)),
            Ok(()) => {
                self.sum_up(part, piece, at, bytes);
                Ok(())
            }
        }
    }

    fn cut(&mut self, length: u64) -> Result<(), Failed> {
        let done = self.disk.cut(length);
        self.answer(done)
    }

    fn sync(&mut self) -> Result<(), Failed> {
        let done = self.disk.sync();
        self.answer(done)
    }

    fn fault_count(&self) -> u64 {
        self.faults
    }
}
