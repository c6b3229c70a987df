//! What kept metatiles take up: their regions, the bytes of their layers, and their uses. What keeps or forgets a metatile
//! changes all three.
ghost use Rattle.std.specs.Prelude.{[], Contains, IfNone, IfOk, IfSome, IsSome, None, length, ◌+◌, ◌<◌, ◌^◌, ◌≡◌, ◌≤◌};
ghost use Rattle.cabinet.specs.Gaps.{region};
ghost use Rattle.cabinet.specs.Shelved.{IsCountedIn, IsShelved, LeavesUses, with_forgotten, with_kept, without};
ghost use Rattle.catalog.specs.Valid.{IsValid};
ghost use Rattle.expiry_policy.specs.Victims.{one_more, use_of};
ghost use Rattle.extent_map.specs.Spaces.{IsSound, IsTaken};
ghost use Rattle.metatile_plan.specs.declared.metatile.MetaKey.{MetaKey};
ghost use Rattle.quota_ledger.specs.Accounts.{added, removed};

use crate::kept::Kept;
use catalog::Catalogue;
use expiry_policy::Uses;
use extent_map::Extents;
use quota_ledger::Ledger;
use std::alloc::{AllocError, Global};

/// What is taken up by what is kept.
#[derive(Drop)]
pub struct KeptTally {
    /// The regions of the blobs.
    pub extents: Extents,
    /// The bytes of each layer.
    pub ledger: Ledger,
    /// How each metatile was used.
    pub uses: Uses,
}

/// The taken parts of every space lie in order: a law, called where the proof needs it.
pub fn law_of_extents(extents: &Extents)
    ensures { IsSound extents.now }
{
    let _ = extents.spare();
}

/// Gives back the region of what was kept, where anything was.
pub fn give_back(extents: &mut Extents, older: Option<Kept>)
    requires { IfSome older (λ t. Contains extents.old.parts (region t)) }
    ensures given { IfSome older (λ t. IsTaken extents.new (region t) extents.old) }
    ensures left { IfNone older (extents.new ≡ extents.old) }
    ensures sound { IsSound extents.new }
{
    match older {
        Some(kept) => extents.give(kept.place, kept.length),
        None => {}
    }
    law_of_extents(extents);
}

/// Counts the bytes of what was kept out, where anything was.
fn count_out(ledger: &mut Ledger, older: Option<Kept>)
    requires { IfSome older (IsCountedIn ledger.old) }
    ensures { ledger.new ≡ without older ledger.old }
{
    match older {
        Some(kept) => ledger.remove(kept.meta.theme.layer, kept.length),
        None => {}
    }
}

impl KeptTally {
    /// The tally of a shelf on which nothing is kept. `AllocError` where memory runs out.
    pub fn new(alloc: Global, catalogue: &Catalogue) -> Result<KeptTally, AllocError>
        requires { IsValid catalogue.now }
        ensures shelved { IfOk result (λ tally. IsShelved catalogue.now [] tally.extents tally.ledger tally.uses) }
        ensures uses { IfOk result (λ tally. (m : MetaKey) → use_of tally.uses m ≡ None) }
        ensures clock { IfOk result (λ tally. tally.uses.now ≡ 0) }
    {
        let layers = catalogue.layers.len() as u32;
        Ok(KeptTally {
            extents: Extents::new(alloc, catalogue.blob_bytes)?,
            ledger: Ledger::new(alloc, catalogue)?,
            uses: Uses::new(alloc, catalogue.policy, layers)?,
        })
    }

    /// Enters a metatile whose region is taken, in the place of its older render, if there is one. It takes no memory.
    pub fn keep(&mut self, older: Option<Kept>, kept: Kept)
        requires layer { kept.meta.theme.layer < length self.old.ledger.layers }
        requires key { kept.meta.theme.layer < self.old.uses.layers }
        requires room { 1 ≤ self.old.uses.spare }
        requires region { IfSome older (λ t. Contains self.old.extents.parts (region t)) }
        requires counted { IfSome older (IsCountedIn self.old.ledger) }
        requires fits { (without older self.old.ledger).whole.used + kept.length < 2 ^ 64 }
        ensures given { IfSome older (λ t. IsTaken self.new.extents (region t) self.old.extents) }
        ensures left { IfNone older (self.new.extents ≡ self.old.extents) }
        ensures sound { IsSound self.new.extents }
        ensures bytes { self.new.ledger ≡ added kept.meta.theme.layer kept.length (without older self.old.ledger) }
        ensures uses { LeavesUses self.old.uses (one_more self.old.uses.now) (with_kept kept.meta (one_more self.old.uses.now) (λ m. use_of self.old.uses m)) self.new.uses }
        ensures spare { self.old.uses.spare ≤ self.new.uses.spare + 1 }
    {
        give_back(&mut self.extents, older);
        count_out(&mut self.ledger, older);
        self.ledger.add(kept.meta.theme.layer, kept.length);
        self.uses.enter(&kept.meta, 0);
    }

    /// Forgets a kept metatile: its region, its bytes and its uses.
    pub fn forget(&mut self, kept: Kept)
        requires region { Contains self.old.extents.parts (region kept) }
        requires counted { IsCountedIn self.old.ledger kept }
        requires held { IsSome (use_of self.old.uses kept.meta) }
        ensures given { IsTaken self.new.extents (region kept) self.old.extents }
        ensures sound { IsSound self.new.extents }
        ensures bytes { self.new.ledger ≡ removed kept.meta.theme.layer kept.length self.old.ledger }
        ensures uses { LeavesUses self.old.uses self.old.uses.now (with_forgotten kept.meta (λ m. use_of self.old.uses m)) self.new.uses }
        ensures spare { self.old.uses.spare ≤ self.new.uses.spare }
    {
        self.extents.give(kept.place, kept.length);
        self.ledger.remove(kept.meta.theme.layer, kept.length);
        self.uses.forget(&kept.meta);
    }
}
