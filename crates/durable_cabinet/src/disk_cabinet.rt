//! A cabinet on a disk: its type, how it is made, opened and closed, and its commands.
ghost use Rattle.std.specs.Prelude.{◌≡◌, ◌⊎◌, ◌≤◌, IfErr, IfOk, IsTrue, OnOk, length, ℕ, ◌<◌, OnErr};
ghost use Rattle.base.specs.Causes.{HasCause};
ghost use Rattle.cabinet.specs.Commands.{Abandons, Asks, Cuts, Expires, Finishes, Forces, IsCountedCut, IsCountedExpired, IsCountedFinished, IsCountedSaved, Saves};
ghost use Rattle.cabinet.specs.State.{IsSound, IsKnown};
ghost use Rattle.cabinet.specs.declared.replies.CutReply.TheVariants as cut;
ghost use Rattle.cabinet.specs.declared.replies.Expired.TheVariants as expired;
ghost use Rattle.cabinet.specs.declared.replies.Finished.TheVariants as finished;
ghost use Rattle.cabinet.specs.declared.replies.Saved.TheVariants as saved;
ghost use Rattle.cabinet_records.specs.Replay.{Replayed, unplayed};
ghost use Rattle.catalog.specs.LookUp.{IsTile};
ghost use Rattle.catalog.specs.Valid.{IsValid};
ghost use Rattle.disk_model.specs.Images.{Every, Leaves};
ghost use Rattle.durable_cabinet.specs.Ends.{disk_of};
ghost use Rattle.durable_cabinet.specs.Filed.{IsRefusedAs, OpensLike, opened_as, ShownCabinet};
ghost use Rattle.durable_cabinet.specs.Images.{IsOurs, OpensTo, blobs_start, HasUndecided, IsLeft, IsSoundImage, Restores, Lasts};
ghost use Rattle.durable_cabinet.specs.Missed.{IsPicture};
ghost use Rattle.durable_cabinet.specs.Outlasting.{StaysSettled};
ghost use Rattle.gate_journal.specs.Sound.{IsSettled};
ghost use Rattle.metatile_plan.specs.declared.metatile.MetaKey.{MetaKey};
ghost use Rattle.raster_field.specs.Blocks.{IsMeta, blob_size};
ghost use Rattle.served_covers.specs.OfCatalogue.{IsCoverOf};

use crate::asking::ask_tile;
use crate::backing::{keep, write};
use crate::draft::CompactionDraft;
use crate::entering::begin;
use crate::entries::{record_of_cut, record_of_drop, record_of_uses};
use crate::hot::HotTier;
use crate::parts::Parts;
use crate::replaying::{replay, slots_for};
use crate::rooms::reserve_one_more;
use base::{Clock, SharedText};
use cabinet::{Admitted, Asked, Core, CutReply, Expired, Finished, Forced, Judged, Saved, Text};
use cache_file::CacheFile;
use catalog::Catalogue;
use disk_model::{Disk, Failed};
use gate_journal::OpenFault;
use matrix_geometry::Address;
use metatile_locks::Ticket;
use metatile_plan::MetaKey;
use std::alloc::{AllocError, Global};
use std::marker::Model;
use truncation_list::Cover;

/// A cabinet whose blobs and records lie on a disk. Contracts see its catalogue, its opening, its history and, where its disk is
/// modelled, its blobs; and its file.
#[derive(Drop)]
pub struct Cabinet<D: Disk> {
    pub(crate) core: Core,
    pub(crate) file: CacheFile<D>,
    /// The room for the records of a compaction.
    pub(crate) draft: CompactionDraft,
    /// The texts of the tiles that were read lately.
    pub(crate) hot: HotTier,
}

impl<D: Disk> Model for Cabinet<D> {
    ghost use Rattle.durable_cabinet.specs.Drafts.{HasRoom};
    ghost use Rattle.durable_cabinet.specs.Filed.{IsFiled, ShownCabinet, on_disk};
    ghost use Rattle.durable_cabinet.specs.Hot.{IsHot};

    ghost Value = { ShownCabinet D };

    ghost view = { λ a. record { state = on_disk (D.told a.file.disk) (D.state a.file.disk).seen a.core.state; file = a.file } };

    ghost invariant = { λ a. IsFiled a.core.state (D.told a.file.disk) a.file.start a.file.journal (D.state a.file.disk) × HasRoom a.core.state a.draft × IsHot (D.told a.file.disk) a.core.state (D.state a.file.disk).seen a.hot };
}

/// Makes the file of a cabinet in which nothing is kept, in place of what the disk holds. After `Ok` each image of the disk opens to
/// nothing kept, no cut and no opening. `Failed` only where the disk's count of faults rose; nothing is said of what the disk then
/// holds, and `make` is to be called again.
pub fn make<D: Disk>(catalogue: &Catalogue, disk: &mut D) -> Result<(), Failed>
    requires { IsValid catalogue.now }
    ensures told { D.told disk.new ≡ D.told disk.old }
    ensures made { IsTrue (D.told disk.old) → OnOk result (Every (D.state disk.new).may_leave (λ image. OpensTo catalogue.now image unplayed × IsOurs catalogue.now image)) }
    ensures end { IsTrue (D.told disk.old) → OnOk result (length (D.state disk.new).seen ≡ blobs_start catalogue.now) }
    ensures cause { HasCause (D.faults disk.old) (D.faults disk.new) result }
{
    cache_file::make(disk, &catalogue.digest, slots_for(catalogue))
}

impl<D: Disk> Cabinet<D> {
    /// Opens a cabinet from its file: syncs the disk, replays the records of its journal, moves a journal of version 1 to version 2,
    /// and makes the number of this opening durable. The disk holds what `make` and cabinets wrote there.
    ///
    /// A refusal hands the disk back: `NotACache`, `CatalogueDiffers` and `BadRecord`, with the slot of the first record that no cache
    /// has, exactly where the disk opens so; `Spent` where the number of an opening would not fit 24 bits; `DiskFault` only where the
    /// disk's count of faults rose; `OutOfMemory` where memory runs out. At every moment each image opens to the kept list and for the
    /// truncations of before.
    pub fn open(
        alloc: Global,
        catalogue: Catalogue,
        clock: Clock,
        disk: D,
    ) -> Result<Cabinet<D>, (OpenFault, D)>
        requires valid { IsValid catalogue }
        requires ours { IsTrue (D.told disk) → IsOurs catalogue (D.state disk).seen }
        ensures told { D.told (disk_of result) ≡ D.told disk }
        ensures opened { IfOk result (λ c. (r : Replayed) × (c.state ≡ opened_as (D.told disk) (D.state disk).seen catalogue clock r) × (IsTrue (D.told disk) → OpensTo catalogue (D.state disk).seen r)) }
        ensures settled { IfOk result (λ c. IsSettled c.file.journal) }
        ensures refused { IfErr result (λ r. IsRefusedAs (D.told disk) catalogue (D.state disk).seen (D.faults disk) (D.faults r.1) r.0) }
        ensures later { D.faults disk ≤ D.faults (disk_of result) }
        ensures images { IsTrue (D.told disk) → Leaves (D.state disk) (D.state (disk_of result)) (λ image. (D.state disk).may_leave image ⊎ ((r : Replayed) × OpensTo catalogue (D.state disk).seen r × OpensLike catalogue r (D.state disk).seen image × IsOurs catalogue image)) }
    {
        match replay(alloc, &catalogue, disk) {
            Err(refusal) => Err(refusal),
            Ok((file, restored)) => begin(alloc, catalogue, clock, file, restored),
        }
    }

    /// The disk and the clock, as they stand.
    pub fn take_apart(self) -> Parts<D>
        ensures disk { result.disk ≡ self.file.disk }
        ensures clock { result.clock ≡ self.state.clock }
    {
        Parts {
            clock: self.core.into_clock(),
            disk: self.file.into_disk(),
        }
    }

    /// What a crash now leaves, where the disk is modelled: each image opens to the cabinet, or to what the last command would have led
    /// to, which the disk failed at; where no command has failed since the journal was settled, to the cabinet alone. Where the cabinet is
    /// sound, each image holds for each metatile that it opens to the text of its block in the picture of its number, unless the command
    /// that failed was the end of a render whose blob was no picture.
    pub fn images(&self)
        ensures left { IsTrue (D.told self.now.file.disk) → Every (D.state self.now.file.disk).may_leave (IsLeft self.now.state self.now.file.journal (D.state self.now.file.disk)) }
        ensures ours { IsTrue (D.told self.now.file.disk) → Every (D.state self.now.file.disk).may_leave (IsOurs self.now.state.catalogue) }
        ensures settled { IsTrue (D.told self.now.file.disk) → IsSettled self.now.file.journal → Every (D.state self.now.file.disk).may_leave (Restores self.now.state) }
        ensures sound { IsTrue (D.told self.now.file.disk) → IsSound self.now.state → Every (D.state self.now.file.disk).may_leave (λ image. IsSoundImage self.now.state.catalogue image
            ⊎ ((u : HasUndecided self.now.state self.now.file.journal (D.state self.now.file.disk) image) × (IsPicture u.missed.from u.beside u.missed.missed u.missed.misses → IsSoundImage self.now.state.catalogue image))) }
        ensures all_sound { IsTrue (D.told self.now.file.disk) → IsSettled self.now.file.journal → IsSound self.now.state → Every (D.state self.now.file.disk).may_leave (IsSoundImage self.now.state.catalogue) }
    {
        self.core.known();
    }

    /// What holds of every cabinet: its history is one that commands can make, so that the laws of histories hold of it.
    pub fn known(&self)
        ensures { IsKnown self.now.state }
    {
        self.core.known();
    }

    /// Asks for a tile, at a moment of the clock. What is kept answers where it is within the age limit of its layer, and is read from
    /// the disk, unless its text was read lately and still is in memory. A ticket is given with all the room that `finish` needs.
    /// `AllocError` where memory runs out; all is then as before, and the clock was not read.
    pub fn ask(&mut self, alloc: Global, address: &Address) -> Result<Asked, AllocError>
        requires { IsTile self.old.state.catalogue address.now }
        ensures asked { IfOk result (λ asked. Asks (D.faults self.old.file.disk) (D.faults self.new.file.disk) self.old.state address.now asked self.new.state) }
        ensures err { OnErr result (self.new.state ≡ self.old.state) }
        ensures told { D.told self.new.file.disk ≡ D.told self.old.file.disk }
        ensures images { IsTrue (D.told self.old.file.disk) → Lasts self.old.state (λ u. ⊥) self.old.file.journal (D.state self.old.file.disk) (D.state self.new.file.disk) }
        ensures journal { self.new.file.journal ≡ self.old.file.journal }
        ensures later { D.faults self.old.file.disk ≤ D.faults self.new.file.disk }
    {
        self.core.known();
        match reserve_one_more(alloc, &self.core, &mut self.draft) {
            Err(fault) => Err(fault),
            Ok(()) => {
                ask_tile(
                    alloc,
                    &mut self.core,
                    &mut self.file,
                    &mut self.hot,
                    address,
                )
            }
        }
    }

    /// Asks for a render of a metatile, whether it is kept or not, at a moment of the clock. What is kept stays until the render
    /// is kept. `AllocError` where memory runs out; all is then as before, and the clock was not read.
    pub fn force(&mut self, alloc: Global, meta: &MetaKey) -> Result<Forced, AllocError>
        requires { IsMeta self.old.state.catalogue meta.now }
        ensures forced { IfOk result (λ forced. Forces self.old.state meta.now forced self.new.state) }
        ensures err { OnErr result (self.new.state ≡ self.old.state) }
        ensures file { self.new.file ≡ self.old.file }
    {
        match reserve_one_more(alloc, &self.core, &mut self.draft) {
            Err(fault) => Err(fault),
            Ok(()) => self.core.force(alloc, meta),
        }
    }

    /// Ends a render, and keeps its blob unless a truncation overtook it, as many others are kept as may be, no gap has room for it,
    /// or the disk failed. It takes no memory.
    pub fn finish(&mut self, ticket: Ticket, blob: SharedText) -> Finished
        requires meta { IsMeta self.old.state.catalogue ticket.meta }
        requires blob { length blob ≡ blob_size self.old.state.catalogue ticket.meta }
        ensures finished { Finishes self.old.state ticket blob result self.new.state }
        ensures counted { IsCountedFinished (D.faults self.old.file.disk) (D.faults self.new.file.disk) result }
        ensures told { D.told self.new.file.disk ≡ D.told self.old.file.disk }
        ensures images { IsTrue (D.told self.old.file.disk) → Lasts self.old.state (λ u. Finishes self.old.state ticket blob finished.Kept u) self.old.file.journal (D.state self.old.file.disk) (D.state self.new.file.disk) }
        ensures settled { result ≡ Finished.Kept → IsSettled self.new.file.journal }
        ensures still { StaysSettled (D.faults self.old.file.disk) (D.faults self.new.file.disk) self.old.file.journal self.new.file.journal }
        ensures later { D.faults self.old.file.disk ≤ D.faults self.new.file.disk }
    {
        self.core.known();
        let before = self.file.fault_count();
        match self.core.judge(&ticket) {
            Judged::Stranger => {
                self.core.abandon(ticket);
                Finished::Stranger
            }
            Judged::Overtaken(cut) => {
                self.core.abandon(ticket);
                Finished::Overtaken(cut)
            }
            Judged::Full => {
                self.core.abandon(ticket);
                Finished::Full
            }
            Judged::NoRoom => {
                self.core.abandon(ticket);
                Finished::NoRoom
            }
            Judged::Fits(kept) => {
                match keep(
                    &self.core,
                    &mut self.file,
                    &mut self.draft,
                    kept,
                    blob.bytes(),
                ) {
                    Err(_) => {
                        self.core.abandon(ticket);
                        Finished::DiskFault(before, self.file.fault_count())
                    }
                    Ok(()) => {
                        self.core.keep(ticket, kept, Text::away(kept.length));
                        Finished::Kept
                    }
                }
            }
        }
    }

    /// Ends a render, and keeps nothing of it; a stranger's ticket changes nothing. It takes no memory.
    pub fn abandon(&mut self, ticket: Ticket)
        ensures abandons { Abandons self.old.state ticket self.new.state }
        ensures file { self.new.file ≡ self.old.file }
    {
        self.core.abandon(ticket);
    }

    /// Truncates: drops each kept metatile, and overtakes each running render, of which the cover is for a tile. `AllocError`
    /// where memory runs out; all is then as before.
    pub fn cut(&mut self, alloc: Global, cover: &Cover) -> Result<CutReply, AllocError>
        requires { IsCoverOf self.old.state.catalogue cover.now }
        ensures cuts { IfOk result (λ reply. Cuts self.old.state cover.now reply self.new.state) }
        ensures err { OnErr result (self.new.state ≡ self.old.state) }
        ensures counted { IfOk result (IsCountedCut (D.faults self.old.file.disk) (D.faults self.new.file.disk)) }
        ensures told { D.told self.new.file.disk ≡ D.told self.old.file.disk }
        ensures images { IsTrue (D.told self.old.file.disk) → Lasts self.old.state (λ u. (t : ℕ) × Cuts self.old.state cover.now (cut.Done t) u) self.old.file.journal (D.state self.old.file.disk) (D.state self.new.file.disk) }
        ensures settled { IfOk result (λ reply. (t : ℕ) → reply ≡ CutReply.Done t → IsSettled self.new.file.journal) }
        ensures still { StaysSettled (D.faults self.old.file.disk) (D.faults self.new.file.disk) self.old.file.journal self.new.file.journal }
        ensures later { D.faults self.old.file.disk ≤ D.faults self.new.file.disk }
    {
        self.core.known();
        let before = self.file.fault_count();
        match reserve_one_more(alloc, &self.core, &mut self.draft) {
            Err(fault) => Err(fault),
            Ok(()) => match self.core.admit(alloc, cover) {
                Err(fault) => Err(fault),
                Ok(Admitted::Full) => Ok(CutReply::Full),
                Ok(Admitted::Spent) => Ok(CutReply::Spent),
                Ok(Admitted::Number(number)) => {
                    let entry = record_of_cut(self.core.catalogue(), number, *cover);
                    match write(&self.core, &mut self.file, &mut self.draft, &entry) {
                        Err(_) => {
                            self.core.miss(number);
                            Ok(CutReply::DiskFault(before, self.file.fault_count()))
                        }
                        Ok(()) => {
                            self.core.cut(number, cover);
                            Ok(CutReply::Done(number))
                        }
                    }
                }
            },
        }
    }

    /// Drops the first metatile to go of the scope whose quota is exceeded, if one is. It takes no memory.
    pub fn expire(&mut self) -> Expired
        ensures expires { Expires self.old.state result self.new.state }
        ensures counted { IsCountedExpired (D.faults self.old.file.disk) (D.faults self.new.file.disk) result }
        ensures told { D.told self.new.file.disk ≡ D.told self.old.file.disk }
        ensures images { IsTrue (D.told self.old.file.disk) → Lasts self.old.state (λ u. (m : MetaKey) × Expires self.old.state (expired.Dropped m) u) self.old.file.journal (D.state self.old.file.disk) (D.state self.new.file.disk) }
        ensures settled { (m : MetaKey) → result ≡ Expired.Dropped m → IsSettled self.new.file.journal }
        ensures still { StaysSettled (D.faults self.old.file.disk) (D.faults self.new.file.disk) self.old.file.journal self.new.file.journal }
        ensures later { D.faults self.old.file.disk ≤ D.faults self.new.file.disk }
    {
        self.core.known();
        let before = self.file.fault_count();
        match self.core.first_to_go() {
            None => Expired::Within,
            Some(kept) => {
                let entry = record_of_drop(&self.core, kept);
                match write(&self.core, &mut self.file, &mut self.draft, &entry) {
                    Err(_) => Expired::DiskFault(before, self.file.fault_count()),
                    Ok(()) => {
                        self.core.drop_kept(&kept.meta);
                        Expired::Dropped(kept.meta)
                    }
                }
            }
        }
    }

    /// Marks the uses of one metatile as saved, of the least key, field by field, of those with uses that aren't. It takes no
    /// memory.
    pub fn save_uses(&mut self) -> Saved
        ensures saves { Saves self.old.state result self.new.state }
        ensures counted { IsCountedSaved (D.faults self.old.file.disk) (D.faults self.new.file.disk) result }
        ensures told { D.told self.new.file.disk ≡ D.told self.old.file.disk }
        ensures images { IsTrue (D.told self.old.file.disk) → Lasts self.old.state (λ u. (m : MetaKey) × Saves self.old.state (saved.Done m) u) self.old.file.journal (D.state self.old.file.disk) (D.state self.new.file.disk) }
        ensures settled { (m : MetaKey) → result ≡ Saved.Done m → IsSettled self.new.file.journal }
        ensures still { StaysSettled (D.faults self.old.file.disk) (D.faults self.new.file.disk) self.old.file.journal self.new.file.journal }
        ensures later { D.faults self.old.file.disk ≤ D.faults self.new.file.disk }
    {
        self.core.known();
        let before = self.file.fault_count();
        match self.core.first_unsaved() {
            None => Saved::Within,
            Some(found) => {
                let kept = found.kept;
                let entry = record_of_uses(&self.core, kept, found.uses);
                match write(&self.core, &mut self.file, &mut self.draft, &entry) {
                    Err(_) => Saved::DiskFault(before, self.file.fault_count()),
                    Ok(()) => {
                        self.core.save(&kept.meta);
                        Saved::Done(kept.meta)
                    }
                }
            }
        }
    }
}
