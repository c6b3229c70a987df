//! The way to a cache of a thread that has it for itself.
use crate::access::Access;
use base::SharedText;
use cabinet::{Asked, CutReply, Expired, Finished, Forced, Keeper, Saved};
use cabinet_chest::{Counts, counts_of};
use catalog::Catalogue;
use matrix_geometry::Address;
use metatile_locks::Ticket;
use metatile_plan::MetaKey;
use std::alloc::{AllocError, Global};
use std::marker::PhantomData;
use truncation_list::Cover;

/// The way to a cabinet of a thread that has it for itself: each call is one command of the cabinet, and each render of it ends before
/// the next ask or force.
#[derive(Drop)]
pub struct Alone<K: Keeper> {
    of: PhantomData<K>,
}

impl<K: Keeper> Alone<K> {
    /// The way to any cabinet of this type.
    pub fn new() -> Alone<K> {
        Alone { of: PhantomData }
    }
}

impl<K: Keeper> Access for Alone<K> {
    ghost use Rattle.std.specs.Prelude.{⊤};
    ghost use Rattle.cabinet.specs.State.{IsSound, fronted, now};
    ghost use Rattle.cabinet_chest.specs.Acts.{seen};
    ghost use Rattle.cache_access.specs.Alone.{AreSteps, IsAtRest, IsOnlyRender};
    ghost use Rattle.cache_core.specs.Lasting.{Lasting};
    ghost use Rattle.cache_access.specs.Stepping.{steps_none, steps_more, steps_turns};
    ghost use Rattle.cache_core.proofs.Lasting.{lasts_itself, lasts_on};

    type Cache = K;

    ghost catalogue = { λ self k. (K.state k).catalogue };

    ghost reaches = { λ self k. ⊤ };

    ghost rests = { λ self k. IsAtRest (K.state k) };

    ghost holds = { λ self k. IsOnlyRender (K.state k) };

    ghost sound = { λ self k. IsSound (K.state k) };

    ghost owes = { λ self k. ⊥ };

    ghost seen = { λ self k. fronted (now (K.state k)) };

    ghost gains = { λ self k l gained. AreSteps (K.state k).catalogue (seen (K.faults k) (K.state k)) gained (seen (K.faults l) (K.state l)) };

    ghost lasts = { λ self k l. Lasting (K.outlasts k l) (K.state k) (K.state l) };

    ghost gains_none = { λ self k. steps_none (K.state k).catalogue (seen (K.faults k) (K.state k)) };

    ghost gains_on = { λ self k l m first then lead go. steps_more (seen (K.faults k) (K.state k)) (seen (K.faults l) (K.state l)) (seen (K.faults m) (K.state m)) first then lead go };

    ghost are_turns = { λ self k l gained lead. steps_turns (seen (K.faults k) (K.state k)) (seen (K.faults l) (K.state l)) gained lead };

    ghost lasts_itself = { λ self k. lasts_itself K.state K.outlasts K.outlasts_itself k };

    ghost lasts_on = { λ self k l m first then. lasts_on K.state K.outlasts K.outlasts_on k l m first then };

    fn catalogue<'c>(&'c self, cache: &'c K) -> &'c Catalogue {
        cache.catalogue()
    }

    fn ask(&self, alloc: Global, cache: &mut K, address: &Address) -> Result<Asked, AllocError> {
        cache.known();
        match cache.ask(alloc, address) {
            Err(fault) => Err(fault),
            Ok(Asked::Hit(number, bytes)) => Ok(Asked::Hit(number, bytes)),
            Ok(Asked::Ticket(ticket)) => Ok(Asked::Ticket(ticket)),
            Ok(Asked::Busy(_)) => unreachable!(),
            Ok(Asked::Spent) => Ok(Asked::Spent),
        }
    }

    fn force(&self, alloc: Global, cache: &mut K, meta: &MetaKey) -> Result<Forced, AllocError> {
        cache.known();
        match cache.force(alloc, meta) {
            Err(fault) => Err(fault),
            Ok(Forced::Ticket(ticket)) => Ok(Forced::Ticket(ticket)),
            Ok(Forced::Busy(_)) => unreachable!(),
            Ok(Forced::Spent) => Ok(Forced::Spent),
        }
    }

    fn finish(&self, cache: &mut K, ticket: Ticket, blob: SharedText) -> Finished {
        cache.known();
        cache.finish(ticket, blob)
    }

    fn abandon(&self, cache: &mut K, ticket: Ticket) {
        cache.known();
        cache.abandon(ticket);
    }

    fn cut(&self, alloc: Global, cache: &mut K, cover: &Cover) -> Result<CutReply, AllocError> {
        cache.known();
        cache.cut(alloc, cover)
    }

    fn expire(&self, cache: &mut K) -> Expired {
        cache.known();
        cache.expire()
    }

    fn save_uses(&self, cache: &mut K) -> Saved {
        cache.known();
        cache.save_uses()
    }

    fn usage(&self, cache: &mut K, layer: u32) -> Counts {
        cache.known();
        counts_of(cache, layer)
    }
}
