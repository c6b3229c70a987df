//! The trait of a cabinet, in memory or on a disk: its commands, by their rows, and the counts that it tells.
ghost use Rattle.std.specs.Prelude.{ℕ, ◌≡◌, ◌<◌, ◌≤◌, IfOk, OnErr, length};
ghost use Rattle.cabinet.specs.Commands.{Abandons, Asks, Cuts, Expires, Finishes, Forces, IsCountedCut, IsCountedExpired, IsCountedFinished, IsCountedSaved, IsFreshReply, IsTrueHit, Saves};
ghost use Rattle.cabinet.specs.Counted.{kept_in, used, used_all};
ghost use Rattle.cabinet.specs.Endings.{IsKeptUnlessFailed};
ghost use Rattle.cabinet.specs.State.{IsKnown, IsSound, State, now};
ghost use Rattle.catalog.specs.LookUp.{IsTile};
ghost use Rattle.raster_field.specs.Blocks.{IsMeta, blob_size, block_text};
ghost use Rattle.served_covers.specs.OfCatalogue.{IsCoverOf};
ghost use Rattle.truncation_list.specs.Books.{AnswersForBook, last_seen};

use crate::replies::{Asked, CutReply, Expired, Finished, Forced, Saved};
use base::SharedText;
use catalog::Catalogue;
use matrix_geometry::Address;
use metatile_locks::Ticket;
use metatile_plan::MetaKey;
use std::alloc::{AllocError, Global};
use truncation_list::Cover;

/// Keeps metatiles, gives the numbers of renders, and drops what truncations hit.
pub trait Keeper: Drop {
    /// Its catalogue, its opening number, its history, and the blobs that it keeps where they are modelled.
    ghost state: { Self → State };

    /// How often its disk has failed; 0 where it has none.
    ghost faults: { Self → ℕ };

    /// What a crash may leave between two of its states answers for each truncation that was in force at the first one.
    ghost outlasts: { Self → Self → Type 0 };

    ghost outlasts_itself: { (keeper : Self) → outlasts keeper keeper };

    ghost outlasts_on: { (first then last : Self) → AnswersForBook (now (state then)).book (now (state first)).book → outlasts first then → outlasts then last → outlasts first last };

    /// The catalogue that it was made with.
    fn catalogue(&self) -> &Catalogue
        ensures { result.now ≡ (state self.now).catalogue };

    /// What holds of every cabinet: its history is one that commands can make, so that the laws of histories hold of it.
    fn known(&self)
        ensures { IsKnown (state self.now) };

    /// Asks for a tile, at a moment of the clock. What is kept answers where it is within the age limit of its layer, and is read. A
    /// ticket is given with all the room that `finish` needs. `AllocError` where memory runs out; all is then as before, and the
    /// clock was not read.
    fn ask(&mut self, alloc: Global, address: &Address) -> Result<Asked, AllocError>
        requires { IsTile (state self.old).catalogue address.now }
        ensures asked { IfOk result (λ asked. Asks (faults self.old) (faults self.new) (state self.old) address.now asked (state self.new)) }
        ensures sound { IfOk result (λ asked. IsSound (state self.old) → IsTrueHit (state self.old).catalogue address.now asked) }
        ensures still_sound { IsSound (state self.old) → IsSound (state self.new) }
        ensures fresh { IfOk result (λ asked. IsFreshReply (state self.old) address.now asked (state self.new)) }
        ensures err { OnErr result (state self.new ≡ state self.old) }
        ensures later { faults self.old ≤ faults self.new }
        ensures lasts { outlasts self.old self.new };

    /// Asks for a render of a metatile, whether it is kept or not, at a moment of the clock. What is kept stays until the render
    /// is kept. `AllocError` where memory runs out; all is then as before, and the clock was not read.
    fn force(&mut self, alloc: Global, meta: &MetaKey) -> Result<Forced, AllocError>
        requires { IsMeta (state self.old).catalogue meta.now }
        ensures forced { IfOk result (λ forced. Forces (state self.old) meta.now forced (state self.new)) }
        ensures still_sound { IsSound (state self.old) → IsSound (state self.new) }
        ensures err { OnErr result (state self.new ≡ state self.old) }
        ensures later { faults self.old ≤ faults self.new }
        ensures lasts { outlasts self.old self.new };

    /// Ends a render, and keeps its blob unless a truncation overtook it, as many others are kept as may be, no gap has room for it,
    /// or the disk failed. It takes no memory.
    fn finish(&mut self, ticket: Ticket, blob: SharedText) -> Finished
        requires meta { IsMeta (state self.old).catalogue ticket.meta }
        requires blob { length blob ≡ blob_size (state self.old).catalogue ticket.meta }
        ensures finished { Finishes (state self.old) ticket blob result (state self.new) }
        ensures counted { IsCountedFinished (faults self.old) (faults self.new) result }
        ensures complete { IsKeptUnlessFailed (faults self.old) (faults self.new) (state self.old) ticket blob result }
        ensures sound { IsSound (state self.old) → blob ≡ block_text (state self.old).catalogue ticket.number ticket.meta → IsSound (state self.new) }
        ensures later { faults self.old ≤ faults self.new }
        ensures lasts { outlasts self.old self.new };

    /// Ends a render, and keeps nothing of it; a stranger's ticket changes nothing. It takes no memory.
    fn abandon(&mut self, ticket: Ticket)
        ensures abandons { Abandons (state self.old) ticket (state self.new) }
        ensures still_sound { IsSound (state self.old) → IsSound (state self.new) }
        ensures same { faults self.new ≡ faults self.old }
        ensures lasts { outlasts self.old self.new };

    /// Truncates: drops each kept metatile, and overtakes each running render, of which the cover is for a tile. `AllocError`
    /// where memory runs out; all is then as before.
    fn cut(&mut self, alloc: Global, cover: &Cover) -> Result<CutReply, AllocError>
        requires { IsCoverOf (state self.old).catalogue cover.now }
        ensures cuts { IfOk result (λ reply. Cuts (state self.old) cover.now reply (state self.new)) }
        ensures counted { IfOk result (IsCountedCut (faults self.old) (faults self.new)) }
        ensures still_sound { IsSound (state self.old) → IsSound (state self.new) }
        ensures err { OnErr result (state self.new ≡ state self.old) }
        ensures later { faults self.old ≤ faults self.new }
        ensures lasts { outlasts self.old self.new };

    /// Drops the first metatile to go of the scope whose quota is exceeded, if one is. It takes no memory.
    fn expire(&mut self) -> Expired
        ensures expires { Expires (state self.old) result (state self.new) }
        ensures counted { IsCountedExpired (faults self.old) (faults self.new) result }
        ensures still_sound { IsSound (state self.old) → IsSound (state self.new) }
        ensures later { faults self.old ≤ faults self.new }
        ensures lasts { outlasts self.old self.new };

    /// Marks the uses of one metatile as saved, of the least key, field by field, of those with uses that aren't. It takes no
    /// memory.
    fn save_uses(&mut self) -> Saved
        ensures saves { Saves (state self.old) result (state self.new) }
        ensures counted { IsCountedSaved (faults self.old) (faults self.new) result }
        ensures still_sound { IsSound (state self.old) → IsSound (state self.new) }
        ensures later { faults self.old ≤ faults self.new }
        ensures lasts { outlasts self.old self.new };

    /// The bytes that the kept metatiles of a layer take.
    fn used(&self, layer: u32) -> u64
        requires { layer < length (state self.now).catalogue.layers }
        ensures { result ≡ used (state self.now) layer };

    /// The bytes that all kept metatiles take.
    fn used_all(&self) -> u64
        ensures { result ≡ used_all (state self.now) };

    /// How many metatiles of a layer are kept.
    fn kept_in(&self, layer: u32) -> u32
        ensures { result ≡ kept_in (state self.now) layer };

    /// How many metatiles are kept.
    fn kept(&self) -> u32
        ensures { result ≡ length (now (state self.now)).kept };

    /// How many cuts are in force.
    fn cuts(&self) -> u32
        ensures { result ≡ length (now (state self.now)).book.cuts };

    /// The greatest cut that its book has seen: the greater of the floor and the greatest number of a cut in force.
    fn latest(&self) -> u64
        ensures { result ≡ last_seen (now (state self.now)).book };
}
