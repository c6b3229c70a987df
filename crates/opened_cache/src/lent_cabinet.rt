//! The cabinet of a disk that is lent, as a keeper that says of each of its states what a crash at that moment leaves.
ghost use Rattle.opened_cache.specs.Passing.{LeavesNow};

use crate::lent::{LentDisk, Loan};
use base::SharedText;
use cabinet::{Asked, CutReply, Expired, Finished, Forced, Keeper, Saved};
use catalog::Catalogue;
use disk_model::Disk;
use durable_cabinet::Cabinet;
use matrix_geometry::Address;
use metatile_locks::Ticket;
use metatile_plan::MetaKey;
use std::alloc::{AllocError, Global};
use truncation_list::Cover;

/// The cabinet of a disk that is lent. As a keeper it says more than a cabinet on any disk: also that a crash at the end of each of its
/// commands leaves what the cabinet then is.
#[derive(Drop)]
pub struct LentCabinet<'a, D: Disk, L: Loan> {
    pub cabinet: Cabinet<LentDisk<'a, D, L>>,
}

/// What a crash at this moment leaves: what the cabinet is, up to the one command that the disk failed at.
pub fn leaves_now<D: Disk, L: Loan>(cabinet: &Cabinet<LentDisk<'_, D, L>>)
    ensures { LeavesNow (D.told cabinet.now.file.disk.disk.now) (D.state cabinet.now.file.disk.disk.now) cabinet.now.state }
{
    cabinet.known();
    cabinet.images();
}

impl<D: Disk, L: Loan> Keeper for LentCabinet<'_, D, L> {
    ghost use Rattle.opened_cache.specs.Passing.{OutlastsLeft, outlasts_left_itself, outlasts_left_on};

    ghost state = { λ c. c.cabinet.state };

    ghost faults = { λ c. D.faults c.cabinet.file.disk.disk.now };

    ghost outlasts = { λ a b. OutlastsLeft (D.told a.cabinet.file.disk.disk.now) (D.told b.cabinet.file.disk.disk.now) (D.faults a.cabinet.file.disk.disk.now) (D.faults b.cabinet.file.disk.disk.now) a.cabinet.state b.cabinet.state a.cabinet.file.journal b.cabinet.file.journal (D.state a.cabinet.file.disk.disk.now) (D.state b.cabinet.file.disk.disk.now) };

    ghost outlasts_itself = { λ a. outlasts_left_itself _ _ _ _ _ };

    ghost outlasts_on = { λ a b c answers first then. outlasts_left_on _ _ _ _ _ _ _ _ _ _ _ _ _ _ _ answers first then };

    fn catalogue(&self) -> &Catalogue {
        self.cabinet.catalogue()
    }

    fn known(&self) {
        self.cabinet.known()
    }

    fn ask(&mut self, alloc: Global, address: &Address) -> Result<Asked, AllocError> {
        let asked = Keeper::ask(&mut self.cabinet, alloc, address);
        leaves_now(&self.cabinet);
        asked
    }

    fn force(&mut self, alloc: Global, meta: &MetaKey) -> Result<Forced, AllocError> {
        let forced = Keeper::force(&mut self.cabinet, alloc, meta);
        leaves_now(&self.cabinet);
        forced
    }

    fn finish(&mut self, ticket: Ticket, blob: SharedText) -> Finished {
        let finished = Keeper::finish(&mut self.cabinet, ticket, blob);
        leaves_now(&self.cabinet);
        finished
    }

    fn abandon(&mut self, ticket: Ticket) {
        Keeper::abandon(&mut self.cabinet, ticket);
        leaves_now(&self.cabinet);
    }

    fn cut(&mut self, alloc: Global, cover: &Cover) -> Result<CutReply, AllocError> {
        let reply = Keeper::cut(&mut self.cabinet, alloc, cover);
        leaves_now(&self.cabinet);
        reply
    }

    fn expire(&mut self) -> Expired {
        let expired = Keeper::expire(&mut self.cabinet);
        leaves_now(&self.cabinet);
        expired
    }

    fn save_uses(&mut self) -> Saved {
        let saved = Keeper::save_uses(&mut self.cabinet);
        leaves_now(&self.cabinet);
        saved
    }

    fn used(&self, layer: u32) -> u64 {
        self.cabinet.used(layer)
    }

    fn used_all(&self) -> u64 {
        self.cabinet.used_all()
    }

    fn kept_in(&self, layer: u32) -> u32 {
        self.cabinet.kept_in(layer)
    }

    fn kept(&self) -> u32 {
        self.cabinet.kept()
    }

    fn cuts(&self) -> u32 {
        self.cabinet.cuts()
    }

    fn latest(&self) -> u64 {
        self.cabinet.latest()
    }
}
