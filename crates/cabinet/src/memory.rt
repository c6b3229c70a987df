//! The cabinet in memory, as one of those that the trait names: it has no disk, so that nothing of it fails or lasts.
ghost use Rattle.std.specs.Prelude.{⊤};

use crate::cabinet::Cabinet;
use crate::keeper::Keeper;
use crate::replies::{Asked, CutReply, Expired, Finished, Forced, Saved};
use base::SharedText;
use catalog::Catalogue;
use matrix_geometry::Address;
use metatile_locks::Ticket;
use metatile_plan::MetaKey;
use std::alloc::{AllocError, Global};
use truncation_list::Cover;

impl Keeper for Cabinet {
    ghost state = { λ c. c };

    ghost faults = { λ c. 0 };

    ghost outlasts = { λ a b. ⊤ };

    ghost outlasts_itself = { λ a. tt };

    ghost outlasts_on = { λ a b c answers first then. tt };

    fn catalogue(&self) -> &Catalogue {
        Cabinet::catalogue(self)
    }

    fn known(&self) {
        Cabinet::known(self)
    }

    #[tactic(auto, using(crate::proofs::Sounds::asks_sound))]
    fn ask(&mut self, alloc: Global, address: &Address) -> Result<Asked, AllocError> {
        Cabinet::ask(self, alloc, address)
    }

    #[tactic(auto, using(crate::proofs::Sounds::forces_sound))]
    fn force(&mut self, alloc: Global, meta: &MetaKey) -> Result<Forced, AllocError> {
        Cabinet::force(self, alloc, meta)
    }

    #[tactic(auto, using(crate::proofs::Endings::kept_unless_failed))]
    fn finish(&mut self, ticket: Ticket, blob: SharedText) -> Finished {
        Cabinet::finish(self, ticket, blob)
    }

    #[tactic(auto, using(crate::proofs::Sounds::abandons_sound))]
    fn abandon(&mut self, ticket: Ticket) {
        Cabinet::abandon(self, ticket)
    }

    fn cut(&mut self, alloc: Global, cover: &Cover) -> Result<CutReply, AllocError> {
        Cabinet::cut(self, alloc, cover)
    }

    fn expire(&mut self) -> Expired {
        Cabinet::expire(self)
    }

    fn save_uses(&mut self) -> Saved {
        Cabinet::save_uses(self)
    }

    fn used(&self, layer: u32) -> u64 {
        Cabinet::used(self, layer)
    }

    fn used_all(&self) -> u64 {
        Cabinet::used_all(self)
    }

    fn kept_in(&self, layer: u32) -> u32 {
        Cabinet::kept_in(self, layer)
    }

    fn kept(&self) -> u32 {
        Cabinet::kept(self)
    }

    fn cuts(&self) -> u32 {
        Cabinet::cuts(self)
    }

    fn latest(&self) -> u64 {
        Cabinet::latest(self)
    }
}
