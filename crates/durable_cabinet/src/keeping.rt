//! A cabinet on a disk as a keeper.
use crate::disk_cabinet::Cabinet;
use base::SharedText;
use cabinet::{Asked, CutReply, Expired, Finished, Forced, Keeper, Saved};
use catalog::Catalogue;
use disk_model::Disk;
use matrix_geometry::Address;
use metatile_locks::Ticket;
use metatile_plan::MetaKey;
use raster_field::laws_of_metatiles;
use std::alloc::{AllocError, Global};
use truncation_list::Cover;

impl<D: Disk> Keeper for Cabinet<D> {
    ghost use Rattle.durable_cabinet.specs.Outlasting.{Outlasts, outlasts_itself, outlasts_on};

    ghost state = { λ c. c.state };

    ghost faults = { λ c. D.faults c.file.disk };

    ghost outlasts = { λ a b. Outlasts (D.told a.file.disk) (D.told b.file.disk) (D.faults a.file.disk) (D.faults b.file.disk) a.state b.state a.file.journal b.file.journal (D.state a.file.disk) (D.state b.file.disk) };

    ghost outlasts_itself = { λ a. outlasts_itself _ _ _ _ _ };

    ghost outlasts_on = { λ a b c answers first then. outlasts_on _ _ _ _ _ _ _ _ _ _ _ _ _ _ _ answers first then };

    fn catalogue(&self) -> &Catalogue {
        self.core.catalogue()
    }

    fn known(&self) {
        Cabinet::known(self)
    }

    fn ask(&mut self, alloc: Global, address: &Address) -> Result<Asked, AllocError> {
        laws_of_metatiles();
        Cabinet::known(self);
        Cabinet::ask(self, alloc, address)
    }

    fn force(&mut self, alloc: Global, meta: &MetaKey) -> Result<Forced, AllocError> {
        Cabinet::force(self, alloc, meta)
    }

    #[tactic(auto, using(cabinet::proofs::Endings::kept_unless_failed))]
    fn finish(&mut self, ticket: Ticket, blob: SharedText) -> Finished {
        Cabinet::known(self);
        Cabinet::finish(self, ticket, blob)
    }

    fn abandon(&mut self, ticket: Ticket) {
        Cabinet::abandon(self, ticket)
    }

    fn cut(&mut self, alloc: Global, cover: &Cover) -> Result<CutReply, AllocError> {
        Cabinet::known(self);
        Cabinet::cut(self, alloc, cover)
    }

    fn expire(&mut self) -> Expired {
        Cabinet::known(self);
        Cabinet::expire(self)
    }

    fn save_uses(&mut self) -> Saved {
        Cabinet::known(self);
        Cabinet::save_uses(self)
    }

    fn used(&self, layer: u32) -> u64 {
        self.core.used(layer)
    }

    fn used_all(&self) -> u64 {
        self.core.used_all()
    }

    fn kept_in(&self, layer: u32) -> u32 {
        self.core.kept_in(layer)
    }

    fn kept(&self) -> u32 {
        self.core.kept()
    }

    fn cuts(&self) -> u32 {
        self.core.cuts().count()
    }

    fn latest(&self) -> u64 {
        self.core.cuts().seen()
    }
}
