//! A journal: its type, how it is opened, and its calls.
ghost use Rattle.std.specs.Prelude.{◌+◌, ◌*◌, ◌<◌, ◌≤◌, ◌^◌};

use crate::fault::OpenFault;
use crate::half::{AT_ONCE, Half};
use crate::half_in_force::choose;
use crate::header::header_body;
use crate::opened::Opened;
use crate::pieces::fill_piece;
use crate::standing::Standing;
use crate::visit::Visit;
use crate::visiting::visit_records;
use crate::writes::{close_gate, open_gate, write_body};
use disk_model::{Disk, Failed};
use std::alloc::Global;

/// A journal of records, each of 63 bytes, on a disk that each call is handed. A record counts once its gate is open.
#[derive(Drop)]
pub struct Journal {
    /// How many slots a half has.
    pub(crate) slots: u64,
    /// The half in force.
    pub(crate) half: Half,
    /// How many records it has.
    pub(crate) count: u64,
    /// The version of its header and of its records: 1 or 2.
    pub(crate) version: u8,
    pub(crate) generation: u64,
    pub(crate) digest: [u8; 32],
    pub(crate) standing: Standing,
    /// The gate that a call wrote last, as a place on the disk. It means something where it is undecided.
    pub(crate) gate: u64,
    ghost within: { count ≤ slots },
    ghost limit: { slots ≤ 2 ^ 40 },
    ghost gate_within: { gate < 128 + 128 * slots },
}

impl Journal {
    ghost use Rattle.base.specs.Causes.{HasCause};
    ghost use Rattle.disk_model.specs.Content.{Same, byte_at, bytes_at, TornWrite, Content};
    ghost use Rattle.disk_model.specs.Images.{Only, ChangesBy, Every};
    ghost use Rattle.gate_journal.specs.Calls.{Moves, KeepsRecords, IsFilled};
    ghost use Rattle.gate_journal.specs.Layout.{journal_length, slot_at, half_at, header_gate, next_generation, other_half};
    ghost use Rattle.gate_journal.specs.Opened.{records};
    ghost use Rattle.gate_journal.specs.Reading.{HasOpenCause, OpensAs};
    ghost use Rattle.gate_journal.specs.Sound.{IsSettled, IsSound, digest_of, room_of, slots_of, version_of, IsAlike, generation_of, kept, IsSoundAs, layout_of, slot_of, other};
    ghost use Rattle.gate_journal.specs.Visiting.{OnlyReads, VisitsAll, VisitsSome};
    ghost use Rattle.gate_journal.specs.declared.standing.Standing.TheVariants.{Settled, Pending};
    ghost use Rattle.std.specs.Prelude.{◌≡◌, ◌+◌, ◌≤◌, ◌^◌, IfErr, IfOk, IsTrue, length, ◌<◌, [], ◌∷◌, ◌++◌, OnOk, OnErr, ◌≢◌, ◌*◌, ◌-◌, ℕ, ◌↔◌};

    /// Opens the journal of a disk on which nothing is pending, as after a sync, and shows each of its records to a visitor,
    /// once and in order. A half has so many slots, 1 to 2^40; at most 1,024 are read at once. The journal is settled.
    /// `NotACache` and `CatalogueDiffers` come exactly where the disk opens so, `DiskFault` only where its count of faults
    /// rose, and no other fault but `OutOfMemory`, which may be the visitor's. The visitor was then shown a prefix of the
    /// records up to the first closed gate. The disk is only read.
    pub fn open_in_pieces<D: Disk, V: Visit>(
        alloc: Global,
        disk: &mut D,
        digest: &[u8; 32],
        slots: u64,
        visit: &mut V,
    ) -> Result<Journal, OpenFault>
        requires some { 1 ≤ slots }
        requires limit { slots ≤ 2 ^ 40 }
        requires clean { IsTrue (D.told disk.old) → Only (D.state disk.old).seen (D.state disk.old).may_leave }
        ensures reads { OnlyReads (D.told disk.old) (D.told disk.new) (D.state disk.old) (D.state disk.new)
            (D.faults disk.old) (D.faults disk.new) result }
        ensures opened { IfOk result (VisitsAll V.visits (D.told disk.old) digest.now slots
            (D.state disk.old) (D.state disk.new) visit.old visit.new) }
        ensures refused { IfErr result (VisitsSome V.visits V.leaves (D.told disk.old) digest.now slots
            (D.state disk.old).seen visit.old visit.new) }
    {
        let (half, header) = match choose(disk, digest) {
            Ok(chosen) => chosen,
            Err(fault) => return Err(fault),
        };
        match visit_records(alloc, disk, half.start(slots), slots, visit) {
            Ok(count) => Ok(Journal {
                slots,
                half,
                count,
                version: header.version,
                generation: header.generation,
                digest: *digest,
                standing: Standing::Settled,
                gate: 0,
            }),
            Err(fault) => Err(fault),
        }
    }

    /// Opens a journal as `open_in_pieces` does, and gives its records with it.
    pub fn open<D: Disk>(
        alloc: Global,
        disk: &mut D,
        digest: &[u8; 32],
        slots: u64,
    ) -> Result<Opened, OpenFault>
        requires some { 1 ≤ slots }
        requires limit { slots ≤ 2 ^ 40 }
        requires clean { IsTrue (D.told disk.old) → Only (D.state disk.old).seen (D.state disk.old).may_leave }
        ensures told { D.told disk.new ≡ D.told disk.old }
        ensures journal { IfOk result (λ o. IsSettled o.journal × (slots_of o.journal ≡ slots) × (digest_of o.journal ≡ digest.now)
            × (version_of o.journal ≡ o.version) × (room_of o.journal + length o.bodies.items ≡ slots)) }
        ensures opens { IsTrue (D.told disk.old) → OpensAs digest.now slots (D.state disk.old).seen result }
        // On a disk that holds the journal whole, as `make` left it, the journal agrees with it.
        ensures sound { IsTrue (D.told disk.old) → journal_length slots ≤ length (D.state disk.old).seen
            → IfOk result (λ o. IsSound o.journal (D.state disk.new)) }
        ensures quiet { IsTrue (D.told disk.old) → ChangesBy Same (D.state disk.old) (D.state disk.new) }
        ensures cause { HasOpenCause (D.faults disk.old) (D.faults disk.new) result }
    {
        let mut bodies: Vec<[u8; 63]> = Vec::new(alloc);
        match Journal::open_in_pieces(alloc, disk, digest, slots, &mut bodies) {
            Ok(journal) => {
                let version = journal.version;
                Ok(Opened {
                    journal,
                    bodies,
                    version,
                })
            }
            Err(fault) => Err(fault),
        }
    }

    /// Where the next record goes.
    fn next_slot(&self) -> u64
        ensures { result ≡ slot_at self.now.slots self.now.half self.now.count }
    {
        self.half.start(self.slots) + 64 * self.count
    }

    /// Adds a record: its body first, and once that is on the disk its gate. After `Ok` each image of the disk has it; at
    /// each moment an image has the records from before, or that one too. `Failed` only where the disk's count of faults
    /// rose; the records are then as before, and the journal is unsettled.
    pub fn append<D: Disk>(&mut self, disk: &mut D, body: &[u8; 63]) -> Result<(), Failed>
        requires settled { IsSettled self.old }
        requires room { 0 < room_of self.old }
        requires sound { IsTrue (D.told disk.old) → IsSound self.old (D.state disk.old) }
        ensures told { D.told disk.new ≡ D.told disk.old }
        ensures alike { IsAlike self.old self.new }
        ensures generation { generation_of self.new ≡ generation_of self.old }
        ensures version { version_of self.new ≡ version_of self.old }
        ensures ok { OnOk result (IsSettled self.new × (room_of self.new + 1 ≡ room_of self.old)) }
        ensures err { OnErr result (¬ IsSettled self.new × (room_of self.new ≡ room_of self.old)) }
        ensures moves { IsTrue (D.told disk.old)
            → let after = kept self.old (D.state disk.old).seen ++ body.now ∷ [] in
            Moves result after (records (version_of self.old) after) self.old self.new (D.state disk.old) (D.state disk.new) }
        ensures cause { HasCause (D.faults disk.old) (D.faults disk.new) result }
    {
        let at = self.next_slot();
        self.standing = Standing::Pending;
        write_body(disk, at, body)?;
        self.gate = at + 63;
        self.standing = Standing::Undecided;
        open_gate(disk, at + 63)?;
        self.count += 1;
        self.standing = Standing::Settled;
        Ok(())
    }

    /// Closes the header of the other half, where its gate is open.
    fn close_other<D: Disk>(&self, disk: &mut D) -> Result<(), Failed>
        requires { IsTrue (D.told disk.old) → IsSoundAs Settled self.now.gate (layout_of self.now) (D.state disk.old) }
        ensures told { D.told disk.new ≡ D.told disk.old }
        ensures keeps { IsTrue (D.told disk.old) → KeepsRecords (layout_of self.now) (D.state disk.old) (D.state disk.new) }
        ensures shut { IsTrue (D.told disk.old) → OnOk result
            (Every (D.state disk.new).may_leave (λ c. byte_at c (header_gate (other_half self.now.half)) ≢ 1)) }
        ensures cause { HasCause (D.faults disk.old) (D.faults disk.new) result }
    {
        let gate = self.half.other().header() + 63;
        let mut byte = [0];
        disk.read(gate, &mut byte)?;
        if byte[0] == 1 {
            close_gate(disk, gate)?;
        }
        Ok(())
    }

    /// Writes these bodies to the other half, with their gates open and all others closed, at most 1,024 slots at a time, and syncs.
    #[tactic(auto, using(crate::proofs::Filling::torn_none, crate::proofs::Filling::torn_synced))]
    fn fill_other<D: Disk>(&self, disk: &mut D, bodies: &[[u8; 63]]) -> Result<(), Failed>
        ensures told { D.told disk.new ≡ D.told disk.old }
        ensures changes { IsTrue (D.told disk.old)
            → ChangesBy (TornWrite (half_at self.now.slots (other_half self.now.half)) (64 * self.now.slots)) (D.state disk.old) (D.state disk.new) }
        ensures durable { IsTrue (D.told disk.old) → OnOk result (Only (D.state disk.new).seen (D.state disk.new).may_leave) }
        ensures slots { IsTrue (D.told disk.old) → OnOk result ((k : ℕ) → k < self.now.slots
            → bytes_at (D.state disk.new).seen (half_at self.now.slots (other_half self.now.half) + 64 * k) 64 ≡ slot_of bodies.now k) }
        ensures cause { HasCause (D.faults disk.old) (D.faults disk.new) result }
    {
        let start = self.half.other().start(self.slots);
        let mut buffer = [0; 65536];
        let mut done = 0;
        while done < self.slots {
            let count = AT_ONCE.min(self.slots - done);
            let piece = &mut buffer[..64 * count as usize];
            fill_piece(bodies, done, count, piece);
            disk.write_at(start + 64 * done, piece)?;
            done += count;
        }
        // The half is safe before its header speaks of it.
        disk.sync()?;
        Ok(())
    }

    /// Puts the other half in force, which holds these bodies behind a header whose gate is closed.
    fn switch<D: Disk>(&mut self, disk: &mut D, bodies: &[[u8; 63]]) -> Result<(), Failed>
        requires fits { length bodies.now ≤ self.old.slots }
        requires filled { IsTrue (D.told disk.old) → IsFilled (layout_of self.old) bodies.now (D.state disk.old) }
        ensures told { D.told disk.new ≡ D.told disk.old }
        ensures alike { IsAlike self.old self.new }
        ensures version { OnOk result (version_of self.new ≡ 2) }
        ensures same_version { OnErr result (version_of self.new ≡ version_of self.old) }
        ensures next { OnOk result (generation_of self.new ≡ next_generation (generation_of self.old)) }
        ensures same { OnErr result (generation_of self.new ≡ generation_of self.old) }
        ensures ok { OnOk result (IsSettled self.new × (room_of self.new ≡ self.old.slots - length bodies.now)) }
        ensures err { OnErr result ((IsSettled self.new → ⊥) × (room_of self.new ≡ room_of self.old)) }
        ensures moves { IsTrue (D.told disk.old)
            → Moves result bodies.now (records 2 bodies.now) self.old self.new (D.state disk.old) (D.state disk.new) }
        ensures cause { HasCause (D.faults disk.old) (D.faults disk.new) result }
    {
        let half = self.half.other();
        let header = half.header();
        let generation = self.generation.wrapping_add(1);
        self.standing = Standing::Pending;
        write_body(disk, header, &header_body(generation, &self.digest))?;
        self.gate = header + 63;
        self.standing = Standing::Undecided;
        open_gate(disk, header + 63)?;
        self.half = half;
        self.count = bodies.len() as u64;
        self.version = 2;
        self.generation = generation;
        self.standing = Standing::Settled;
        Ok(())
    }

    /// Writes these records to the other half and puts it in force under version 2 and the next generation. After `Ok` they are the
    /// records; at each moment an image has the records from before, of their version, or these, of version 2. `Failed` only where the disk's count of
    /// faults rose; the records are then as before, and the journal is unsettled.
    pub fn compact<D: Disk>(&mut self, disk: &mut D, bodies: &[[u8; 63]]) -> Result<(), Failed>
        requires settled { IsSettled self.old }
        requires fits { length bodies.now ≤ self.old.slots }
        requires sound { IsTrue (D.told disk.old) → IsSound self.old (D.state disk.old) }
        ensures told { D.told disk.new ≡ D.told disk.old }
        ensures alike { IsAlike self.old self.new }
        ensures version { OnOk result (version_of self.new ≡ 2) }
        ensures same_version { OnErr result (version_of self.new ≡ version_of self.old) }
        ensures next { OnOk result (generation_of self.new ≡ next_generation (generation_of self.old)) }
        ensures same { OnErr result (generation_of self.new ≡ generation_of self.old) }
        ensures ok { OnOk result (IsSettled self.new × (room_of self.new ≡ self.old.slots - length bodies.now)) }
        ensures err { OnErr result ((IsSettled self.new → ⊥) × (room_of self.new ≡ room_of self.old)) }
        ensures moves { IsTrue (D.told disk.old)
            → Moves result bodies.now (records 2 bodies.now) self.old self.new (D.state disk.old) (D.state disk.new) }
        ensures cause { HasCause (D.faults disk.old) (D.faults disk.new) result }
    {
        self.standing = Standing::Pending;
        self.close_other(disk)?;
        self.fill_other(disk, bodies)?;
        self.switch(disk, bodies)
    }

    /// Closes durably the gate that a call left undecided, where there is one, and else syncs. The records are as before.
    /// `Failed` only where the disk's count of faults rose; the journal is then unsettled.
    pub fn settle<D: Disk>(&mut self, disk: &mut D) -> Result<(), Failed>
        requires { IsTrue (D.told disk.old) → IsSound self.old (D.state disk.old) }
        ensures told { D.told disk.new ≡ D.told disk.old }
        ensures alike { IsAlike self.old self.new }
        ensures generation { generation_of self.new ≡ generation_of self.old }
        ensures version { version_of self.new ≡ version_of self.old }
        ensures room { room_of self.new ≡ room_of self.old }
        ensures ok { OnOk result (IsSettled self.new) }
        ensures err { OnErr result (¬ IsSettled self.new) }
        ensures moves { IsTrue (D.told disk.old) → Moves result (kept self.old (D.state disk.old).seen)
            (other self.old (D.state disk.old).seen) self.old self.new (D.state disk.old) (D.state disk.new) }
        ensures cause { HasCause (D.faults disk.old) (D.faults disk.new) result }
    {
        match self.standing {
            Standing::Undecided => {
                close_gate(disk, self.gate)?;
                self.standing = Standing::Settled;
                Ok(())
            }
            Standing::Settled | Standing::Pending => {
                self.standing = Standing::Pending;
                disk.sync()?;
                self.standing = Standing::Settled;
                Ok(())
            }
        }
    }

    /// Whether no call has failed since it was opened, or since `settle` succeeded.
    pub fn settled(&self) -> bool
        ensures { IsTrue result ↔ IsSettled self.now }
    {
        self.standing == Standing::Settled
    }

    /// The version of its records, 1 or 2.
    pub fn version(&self) -> u8
        ensures { result ≡ version_of self.now }
    {
        self.version
    }

    /// How many slots of the half in force stand after its records.
    pub fn room(&self) -> u64
        ensures room { result ≡ room_of self.now }
        ensures fills { (c : Content) → result + length (kept self.now c) ≡ slots_of self.now }
    {
        self.slots - self.count
    }
}
