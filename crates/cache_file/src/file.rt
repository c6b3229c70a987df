//! The file of a cache: a journal, and blobs behind it, on one disk.
ghost use Rattle.std.specs.Prelude.{◌≡◌};
ghost use Rattle.gate_journal.specs.Layout.{journal_length};
ghost use Rattle.gate_journal.specs.Sound.{slots_of};

use disk_model::{Disk, Failed};
use gate_journal::{Journal, OpenFault, Visit};
use metatile_plan::Span;
use std::alloc::Global;

/// The file of a cache: a disk, with a journal from its start on, and blobs behind it.
#[derive(Drop)]
pub struct CacheFile<D> {
    pub disk: D,
    pub journal: Journal,
    /// Where the blobs begin, in bytes.
    pub start: u64,
    pub ghost behind: { start ≡ journal_length (slots_of journal) },
}

impl<D: Disk> CacheFile<D> {
    ghost use Rattle.base.specs.Causes.{HasCause};
    ghost use Rattle.cache_file.specs.File.{disk_of, Anywhere, HoldsBlob, IsApart, Stays, Brings, held, readied};
    ghost use Rattle.disk_model.specs.Content.{Same, Content};
    ghost use Rattle.disk_model.specs.Images.{ChangesBy, Only};
    ghost use Rattle.gate_journal.specs.Opened.{opened, records};
    ghost use Rattle.gate_journal.specs.Reading.{IsOpenCause};
    ghost use Rattle.gate_journal.specs.Sound.{IsSettled, IsSound, IsAlike, kept, room_of, slots_of, version_of};
    ghost use Rattle.gate_journal.specs.Visiting.{VisitsAll, VisitsSome};
    ghost use Rattle.std.specs.Prelude.{◌≡◌, ◌≤◌, ◌^◌, [], IfErr, IfOk, IsTrue, OnOk, length, ◌+◌, ◌<◌, ℕ, List, take, drop, ◌∷◌, ◌++◌, OnErr, ◌↔◌};

    /// Syncs a disk, opens its journal, whose halves have so many slots, 1 to 2^40, and shows each of its records to a
    /// visitor, once and in order. The file is settled, and agrees with its disk where this holds the journal whole, as `make`
    /// left it.
    ///
    /// A refusal hands the disk back. `NotACache` and `CatalogueDiffers` come exactly where the disk opens so, `DiskFault`
    /// only where its count of faults rose, and no other fault but `OutOfMemory`, which may be the visitor's. The visitor was
    /// then shown a prefix of the records up to the first closed gate. The disk is only read and synced.
    pub fn open<V: Visit>(
        alloc: Global,
        disk: D,
        digest: &[u8; 32],
        slots: u64,
        visit: &mut V,
    ) -> Result<CacheFile<D>, (OpenFault, D)>
        requires some { 1 ≤ slots }
        requires limit { slots ≤ 2 ^ 40 }
        ensures told { D.told (disk_of result) ≡ D.told disk }
        ensures opened { IfOk result (λ f. VisitsAll V.visits (D.told disk) digest.now slots
            (D.state disk) (D.state f.disk) visit.old visit.new f.journal) }
        ensures durable { IsTrue (D.told disk) → IfOk result (λ f. Only (D.state f.disk).seen (D.state f.disk).may_leave) }
        ensures refused { IfErr result (λ r. VisitsSome V.visits V.leaves (D.told disk) digest.now slots
            (D.state disk).seen visit.old visit.new r.0) }
        ensures quiet { IsTrue (D.told disk) → ChangesBy Same (D.state disk) (D.state (disk_of result)) }
        ensures later { D.faults disk ≤ D.faults (disk_of result) }
        ensures cause { IfErr result (λ r. IsOpenCause (D.faults disk) (D.faults r.1) r.0) }
    {
        let mut disk = disk;
        match disk.sync() {
            Ok(()) => match Journal::open_in_pieces(alloc, &mut disk, digest, slots, visit) {
                Ok(journal) => Ok(CacheFile {
                    disk,
                    journal,
                    start: 128 + 128 * slots,
                }),
                Err(fault) => Err((fault, disk)),
            },
            Err(_) => Err((OpenFault::DiskFault, disk)),
        }
    }

    /// Puts the blob of the render of this number at a place of the blobs, in place of what stood there. Its tiles are of `piece` bytes
    /// each, and its end on the disk is below 2^62. After `Ok` each image of the disk has it. The records stay, and so does each blob that
    /// the range doesn't meet. `Failed` only where the disk's count of faults rose; the range may then hold any bytes.
    pub fn put(&mut self, number: u64, piece: u32, place: u64, blob: &[u8]) -> Result<(), Failed>
        requires settled { IsSettled self.old.journal }
        requires end { self.old.start + place + length blob.now < 2 ^ 62 }
        requires sound { IsTrue (D.told self.old.disk) → IsSound self.old.journal (D.state self.old.disk) }
        ensures told { D.told self.new.disk ≡ D.told self.old.disk }
        ensures start { self.new.start ≡ self.old.start }
        ensures journal { self.new.journal ≡ self.old.journal }
        ensures stays { IsTrue (D.told self.old.disk) → Stays self.old.start (IsApart place (length blob.now))
            self.old.journal (D.state self.old.disk) (D.state self.new.disk) }
        ensures holds { IsTrue (D.told self.old.disk) → OnOk result (HoldsBlob self.old.start place blob.now (D.state self.new.disk)) }
        ensures cause { HasCause (D.faults self.old.disk) (D.faults self.new.disk) result }
    {
        blob_store::put(&mut self.disk, number, piece, self.start + place, blob)
    }

    /// Reads a part of the blob of the render of this number at a place, which is of the length of `into`; its end on the disk is below
    /// 2^62. The file may be unsettled. `Failed` only where the disk's count of faults rose. The disk is only read.
    pub fn read(
        &mut self,
        number: u64,
        place: u64,
        span: &Span,
        into: &mut [u8],
    ) -> Result<(), Failed>
        requires size { length into.old ≡ span.now.length }
        requires end { self.old.start + place + span.now.start + span.now.length < 2 ^ 62 }
        requires sound { IsTrue (D.told self.old.disk) → IsSound self.old.journal (D.state self.old.disk) }
        ensures told { D.told self.new.disk ≡ D.told self.old.disk }
        ensures start { self.new.start ≡ self.old.start }
        ensures journal { self.new.journal ≡ self.old.journal }
        ensures part { IsTrue (D.told self.old.disk) → (blob : List ℕ) → HoldsBlob self.old.start place blob (D.state self.old.disk)
            → span.now.start + span.now.length ≤ length blob → OnOk result (into.new ≡ take span.now.length (drop span.now.start blob)) }
        ensures stays { IsTrue (D.told self.old.disk) → Stays self.old.start Anywhere
            self.old.journal (D.state self.old.disk) (D.state self.new.disk) }
        ensures cause { HasCause (D.faults self.old.disk) (D.faults self.new.disk) result }
    {
        blob_store::read_tile(&mut self.disk, number, self.start + place, span, into)
    }

    /// Settles the journal, where it isn't settled. The records are as before.
    fn settle(&mut self) -> Result<(), Failed>
        requires sound { IsTrue (D.told self.old.disk) → IsSound self.old.journal (D.state self.old.disk) }
        ensures told { D.told self.new.disk ≡ D.told self.old.disk }
        ensures start { self.new.start ≡ self.old.start }
        ensures alike { IsAlike self.old.journal self.new.journal }
        ensures room { room_of self.new.journal ≡ room_of self.old.journal }
        ensures version { version_of self.new.journal ≡ version_of self.old.journal }
        ensures ok { OnOk result (IsSettled self.new.journal) }
        ensures err { OnErr result (¬ IsSettled self.new.journal) }
        ensures brings { IsTrue (D.told self.old.disk) → Brings result (held self.old.journal (D.state self.old.disk))
            self.old.start self.old.journal self.new.journal (D.state self.old.disk) (D.state self.new.disk) }
        ensures cause { HasCause (D.faults self.old.disk) (D.faults self.new.disk) result }
    {
        if self.journal.settled() {
            return Ok(());
        }
        self.journal.settle(&mut self.disk)
    }

    /// Replaces the records of a settled journal by these, where it has no room.
    fn make_room(&mut self, bodies: &[[u8; 63]]) -> Result<(), Failed>
        requires settled { IsSettled self.old.journal }
        requires fewer { length bodies.now < slots_of self.old.journal }
        requires sound { IsTrue (D.told self.old.disk) → IsSound self.old.journal (D.state self.old.disk) }
        ensures told { D.told self.new.disk ≡ D.told self.old.disk }
        ensures start { self.new.start ≡ self.old.start }
        ensures alike { IsAlike self.old.journal self.new.journal }
        ensures version { version_of self.old.journal ≡ 2 → version_of self.new.journal ≡ 2 }
        ensures ok { OnOk result (IsSettled self.new.journal × (0 < room_of self.new.journal)) }
        ensures err { OnErr result (¬ IsSettled self.new.journal) }
        ensures brings { IsTrue (D.told self.old.disk)
            → Brings result (readied (room_of self.old.journal) (held self.old.journal (D.state self.old.disk)) bodies.now)
            self.old.start self.old.journal self.new.journal (D.state self.old.disk) (D.state self.new.disk) }
        ensures cause { HasCause (D.faults self.old.disk) (D.faults self.new.disk) result }
    {
        if self.journal.room() > 0 {
            return Ok(());
        }
        self.journal.compact(&mut self.disk, bodies)
    }

    /// Makes the file ready for a record: settles its journal where a call has failed, and where there is no room then replaces
    /// the records by these, which are fewer than a half has slots. After `Ok` it is settled and has room, and the records are
    /// those from before where there was room, else these, of version 2. `Failed` only where the disk's count of faults rose;
    /// the records are then as before, and the file is unsettled.
    pub fn ready(&mut self, bodies: &[[u8; 63]]) -> Result<(), Failed>
        requires fewer { length bodies.now < slots_of self.old.journal }
        requires sound { IsTrue (D.told self.old.disk) → IsSound self.old.journal (D.state self.old.disk) }
        ensures told { D.told self.new.disk ≡ D.told self.old.disk }
        ensures start { self.new.start ≡ self.old.start }
        ensures alike { IsAlike self.old.journal self.new.journal }
        ensures version { version_of self.old.journal ≡ 2 → version_of self.new.journal ≡ 2 }
        ensures ok { OnOk result (IsSettled self.new.journal × (0 < room_of self.new.journal)) }
        ensures err { OnErr result (¬ IsSettled self.new.journal) }
        ensures brings { IsTrue (D.told self.old.disk)
            → Brings result (readied (room_of self.old.journal) (held self.old.journal (D.state self.old.disk)) bodies.now)
            self.old.start self.old.journal self.new.journal (D.state self.old.disk) (D.state self.new.disk) }
        ensures cause { HasCause (D.faults self.old.disk) (D.faults self.new.disk) result }
    {
        self.settle()?;
        self.make_room(bodies)
    }

    /// Adds a record. After `Ok` each image of the disk has it. `Failed` only where the disk's count of faults rose; the records
    /// are then as before, and the file is unsettled.
    pub fn record(&mut self, body: &[u8; 63]) -> Result<(), Failed>
        requires settled { IsSettled self.old.journal }
        requires room { 0 < room_of self.old.journal }
        requires sound { IsTrue (D.told self.old.disk) → IsSound self.old.journal (D.state self.old.disk) }
        ensures told { D.told self.new.disk ≡ D.told self.old.disk }
        ensures start { self.new.start ≡ self.old.start }
        ensures alike { IsAlike self.old.journal self.new.journal }
        ensures version { version_of self.new.journal ≡ version_of self.old.journal }
        ensures ok { OnOk result (IsSettled self.new.journal × (room_of self.new.journal + 1 ≡ room_of self.old.journal)) }
        ensures err { OnErr result (¬ IsSettled self.new.journal × (room_of self.new.journal ≡ room_of self.old.journal)) }
        ensures brings { IsTrue (D.told self.old.disk) → Brings result
            (records (version_of self.old.journal) (kept self.old.journal (D.state self.old.disk).seen ++ body.now ∷ []))
            self.old.start self.old.journal self.new.journal (D.state self.old.disk) (D.state self.new.disk) }
        ensures cause { HasCause (D.faults self.old.disk) (D.faults self.new.disk) result }
    {
        self.journal.append(&mut self.disk, body)
    }

    /// Replaces the records of a settled file by these, of version 2, whatever room it has. `Failed` only where the disk's count of
    /// faults rose; the records are then as before, and the file is unsettled.
    pub fn replace(&mut self, bodies: &[[u8; 63]]) -> Result<(), Failed>
        requires settled { IsSettled self.old.journal }
        requires fits { length bodies.now ≤ slots_of self.old.journal }
        requires sound { IsTrue (D.told self.old.disk) → IsSound self.old.journal (D.state self.old.disk) }
        ensures told { D.told self.new.disk ≡ D.told self.old.disk }
        ensures start { self.new.start ≡ self.old.start }
        ensures alike { IsAlike self.old.journal self.new.journal }
        ensures version { OnOk result (version_of self.new.journal ≡ 2) }
        ensures ok { OnOk result (IsSettled self.new.journal) }
        ensures err { OnErr result (¬ IsSettled self.new.journal) }
        ensures brings { IsTrue (D.told self.old.disk) → Brings result (records 2 bodies.now)
            self.old.start self.old.journal self.new.journal (D.state self.old.disk) (D.state self.new.disk) }
        ensures cause { HasCause (D.faults self.old.disk) (D.faults self.new.disk) result }
    {
        self.journal.compact(&mut self.disk, bodies)
    }

    /// Whether no call on the records has failed since it was opened, or since `ready` succeeded.
    pub fn settled(&self) -> bool
        ensures { IsTrue result ↔ IsSettled self.now.journal }
    {
        self.journal.settled()
    }

    /// How many records can be added before other ones have to replace them.
    pub fn room(&self) -> u64
        ensures room { result ≡ room_of self.now.journal }
        ensures fills { (c : Content) → result + length (kept self.now.journal c) ≡ slots_of self.now.journal }
    {
        self.journal.room()
    }

    /// The version of its records, 1 or 2.
    pub fn version(&self) -> u8
        ensures { result ≡ version_of self.now.journal }
    {
        self.journal.version()
    }

    /// How often its disk has failed.
    pub fn fault_count(&self) -> u64
        ensures { result ≡ D.faults self.now.disk }
    {
        self.disk.fault_count()
    }

    /// The disk alone.
    pub fn into_disk(self) -> D
        ensures { result ≡ self.disk }
    {
        self.disk
    }
}
