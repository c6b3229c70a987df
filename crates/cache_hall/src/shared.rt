//! The way to a cache of one thread among many.
ghost use Rattle.std.specs.Prelude.{◌≡◌};
ghost use Rattle.cache_hall.specs.Turned.{IsPassOf};

use crate::hall::Hall;
use crate::waiting::{ask_until, force_until};
use base::SharedText;
use cabinet::{Asked, CutReply, Expired, Finished, Forced, Keeper, Saved};
use cabinet_chest::{CabinetChest, Command, Counts, Reply};
use cache_access::Access;
use catalog::Catalogue;
use matrix_geometry::Address;
use metatile_locks::Ticket;
use metatile_plan::MetaKey;
use std::alloc::{AllocError, Global};
use std::sync::Wait;
use truncation_list::Cover;
use turnstile::Pass;

/// A hall, to who has a pass of it. Each command is a turn; an ask or a force is repeated while another render of its metatile runs, and
/// the thread sleeps meanwhile. The end of a render and a truncation wake those that sleep.
#[derive(Drop)]
pub struct Shared<'a, R: Wait, K: Keeper> {
    pub rt: &'a R,
    pub hall: &'a Hall<K>,
}

impl<'a, R: Wait, K: Keeper> Access for Shared<'a, R, K> {
    ghost use Rattle.std.specs.Prelude.{◌≡◌, true, ⊤};
    ghost use Rattle.cache_hall.specs.Gained.{gained_turns, gains_more, gains_none};
    ghost use Rattle.cache_hall.specs.Turned.{GainsTurns, IsPassOf};

    type Cache = Pass<CabinetChest<K>>;

    ghost catalogue = { λ s p. s.hall.now.catalogue };

    ghost reaches = { λ s p. IsPassOf s.hall.now.turnstile.table s.hall.now.catalogue p };

    ghost rests = { λ s p. ⊤ };

    ghost holds = { λ s p t. ⊤ };

    ghost sound = { λ s p. p.told ≡ true };

    ghost owes = { λ s p. p.told ≡ true };

    ghost seen = { λ s p. p.book };

    ghost gains = { λ s p q gained. GainsTurns s.hall.now.catalogue p q gained };

    ghost lasts = { λ s p q. ⊤ };

    ghost gains_none = { λ s p. gains_none s.hall.now.catalogue p };

    ghost gains_on = { λ s p q r first then. gains_more s.hall.now.catalogue p q r first then };

    ghost are_turns = { λ s p q gained. gained_turns s.hall.now.catalogue p q gained };

    ghost lasts_itself = { λ s p. tt };

    ghost lasts_on = { λ s p q r first then. tt };

    fn catalogue<'c>(&'c self, cache: &'c Pass<CabinetChest<K>>) -> &'c Catalogue {
        &self.hall.catalogue
    }

    fn ask(
        &self,
        alloc: Global,
        cache: &mut Pass<CabinetChest<K>>,
        address: &Address,
    ) -> Result<Asked, AllocError> {
        ask_until(self.rt, alloc, self.hall, cache, address)
    }

    fn force(
        &self,
        alloc: Global,
        cache: &mut Pass<CabinetChest<K>>,
        meta: &MetaKey,
    ) -> Result<Forced, AllocError> {
        force_until(self.rt, alloc, self.hall, cache, meta)
    }

    fn finish(
        &self,
        cache: &mut Pass<CabinetChest<K>>,
        ticket: Ticket,
        blob: SharedText,
    ) -> Finished {
        let reply = self
            .hall
            .turnstile
            .turn_plain(self.rt, cache, Command::Finish(ticket, blob));
        self.hall.wake(self.rt);
        match reply {
            Reply::Finished(finished) => finished,
            _ => unreachable!(),
        }
    }

    fn abandon(&self, cache: &mut Pass<CabinetChest<K>>, ticket: Ticket) {
        let reply = self
            .hall
            .turnstile
            .turn_plain(self.rt, cache, Command::Abandon(ticket));
        self.hall.wake(self.rt);
        match reply {
            Reply::Abandoned => {}
            _ => unreachable!(),
        }
    }

    fn cut(
        &self,
        alloc: Global,
        cache: &mut Pass<CabinetChest<K>>,
        cover: &Cover,
    ) -> Result<CutReply, AllocError> {
        let reply = match self
            .hall
            .turnstile
            .turn(self.rt, alloc, cache, Command::Cut(*cover))
        {
            Err(fault) => return Err(fault),
            Ok(reply) => reply,
        };
        // a render that was overtaken is waited for no longer
        self.hall.wake(self.rt);
        match reply {
            Reply::Cut(done) => Ok(done),
            _ => unreachable!(),
        }
    }

    fn expire(&self, cache: &mut Pass<CabinetChest<K>>) -> Expired {
        match self
            .hall
            .turnstile
            .turn_plain(self.rt, cache, Command::Expire)
        {
            Reply::Expired(expired) => expired,
            _ => unreachable!(),
        }
    }

    fn save_uses(&self, cache: &mut Pass<CabinetChest<K>>) -> Saved {
        match self
            .hall
            .turnstile
            .turn_plain(self.rt, cache, Command::SaveUses)
        {
            Reply::Saved(saved) => saved,
            _ => unreachable!(),
        }
    }

    fn usage(&self, cache: &mut Pass<CabinetChest<K>>, layer: u32) -> Counts {
        match self
            .hall
            .turnstile
            .turn_plain(self.rt, cache, Command::Usage(layer))
        {
            Reply::Usage(counts) => counts,
            _ => unreachable!(),
        }
    }
}
