//! The cabinet in memory: its commands, and the counts that it tells. Each command is a composition of the core's steps.
ghost use Rattle.std.specs.Prelude.{IfOk, None, OnErr, Some, length, ◌<◌, ◌≡◌};
ghost use Rattle.catalog.specs.LookUp.{IsTile};
ghost use Rattle.catalog.specs.Valid.{IsValid};
ghost use Rattle.raster_field.specs.Blocks.{IsMeta, blob_size, block_text};

use crate::cabinet_core::Core;
use crate::judged::{Admitted, Judged};
use crate::replies::{Asked, CutReply, Expired, Finished, Forced, Saved};
use crate::shelving::FoundTile;
use crate::text::Text;
use crate::turns::as_asked;
use base::{Clock, SharedText};
use catalog::Catalogue;
use matrix_geometry::Address;
use metatile_locks::Ticket;
use metatile_plan::MetaKey;
use raster_field::block_of;
use std::alloc::{AllocError, Global};
use std::marker::Model;
use truncation_list::Cover;

/// Keeps metatiles, gives the numbers of renders, and drops what truncations hit. Contracts see its catalogue, its opening
/// number, its history and the blobs that it keeps, which are modelled in a cabinet in memory.
#[derive(Drop)]
pub struct Cabinet {
    core: Core,
}

impl Model for Cabinet {
    ghost use Rattle.cabinet.specs.State.{State};

    ghost Value = { State };

    ghost view = { λ c. c.core.state };
}

impl Cabinet {
    ghost use Rattle.cabinet.specs.State.{fresh_state, now, IsKnown, IsSound};
    ghost use Rattle.served_covers.specs.OfCatalogue.{IsCoverOf};
    ghost use Rattle.cabinet.specs.Commands.{Asks, Forces, Finishes, Abandons, Cuts, Expires, Saves, IsCountedCut, IsCountedExpired, IsCountedFinished, IsCountedSaved, IsTrueHit, IsFreshReply};
    ghost use Rattle.cabinet.specs.Counted.{kept_in, used, used_all};
    ghost use Rattle.cabinet.specs.Turns.{FindsIn};
    ghost use Rattle.truncation_list.specs.Books.{last_seen};

    /// A cabinet in memory, in which nothing has happened; its asks and forces take their moments from the clock. `AllocError` where
    /// memory runs out.
    pub fn memory(alloc: Global, catalogue: Catalogue, clock: Clock) -> Result<Cabinet, AllocError>
        requires { IsValid catalogue }
        ensures { IfOk result (λ c. c ≡ fresh_state catalogue clock) }
    {
        Ok(Cabinet {
            core: Core::new(alloc, catalogue, clock)?,
        })
    }

    /// The catalogue that it was made with.
    pub fn catalogue(&self) -> &Catalogue
        ensures { result.now ≡ self.now.catalogue }
    {
        self.core.catalogue()
    }

    /// What holds of every cabinet: its history is one that commands can make, so that the laws of histories hold of it.
    pub fn known(&self)
        ensures { IsKnown self.now }
    {
        self.core.known()
    }

    /// Asks for a tile, at a moment of the clock. What is kept answers where it is within the age limit of its layer. A ticket is
    /// given with all the room that `finish` needs. `AllocError` where memory runs out; all is then as before, and the clock
    /// was not read.
    pub fn ask(&mut self, alloc: Global, address: &Address) -> Result<Asked, AllocError>
        requires { IsTile self.old.catalogue address.now }
        ensures asked { IfOk result (λ asked. Asks 0 0 self.old address.now asked self.new) }
        ensures sound { IfOk result (λ asked. IsSound self.old → IsTrueHit self.old.catalogue address.now asked) }
        ensures fresh { IfOk result (λ asked. IsFreshReply self.old address.now asked self.new) }
        ensures err { OnErr result (self.new ≡ self.old) }
    {
        self.core.known();
        match self.core.read(alloc, address) {
            Err(fault) => Err(fault),
            Ok(None) => self.ask_unkept(alloc, address),
            Ok(Some(found)) => self.ask_kept(alloc, address, found),
        }
    }

    /// Asks for a tile of whose metatile nothing is kept.
    fn ask_unkept(&mut self, alloc: Global, address: &Address) -> Result<Asked, AllocError>
        requires tile { IsTile self.old.catalogue address.now }
        requires none { FindsIn self.old address.now None }
        ensures asked { IfOk result (λ asked. Asks 0 0 self.old address.now asked self.new) }
        ensures sound { IfOk result (λ asked. IsTrueHit self.old.catalogue address.now asked) }
        ensures err { OnErr result (self.new ≡ self.old) }
    {
        self.core.known();
        let meta = block_of(self.core.catalogue(), address);
        let forced = match self.core.force(alloc, &meta) {
            Err(fault) => return Err(fault),
            Ok(forced) => forced,
        };
        Ok(as_asked(forced))
    }

    /// Asks for a tile whose metatile is kept, with this part of it.
    fn ask_kept(
        &mut self,
        alloc: Global,
        address: &Address,
        found: FoundTile,
    ) -> Result<Asked, AllocError>
        requires tile { IsTile self.old.catalogue address.now }
        requires found { FindsIn self.old address.now (Some found) }
        ensures asked { IfOk result (λ asked. Asks 0 0 self.old address.now asked self.new) }
        ensures sound { IfOk result (λ asked. IsSound self.old → IsTrueHit self.old.catalogue address.now asked) }
        ensures err { OnErr result (self.new ≡ self.old) }
    {
        self.core.known();
        let forced = match self.core.ask_kept(alloc, address) {
            Err(fault) => return Err(fault),
            Ok(forced) => forced,
        };
        match forced {
            None => return Ok(Asked::Hit(found.number, found.text)),
            Some(forced) => return Ok(as_asked(forced)),
        }
    }

    /// Asks for a render of a metatile, whether it is kept or not, at a moment of the clock. What is kept stays until the render
    /// is kept. `AllocError` where memory runs out; all is then as before, and the clock was not read.
    pub fn force(&mut self, alloc: Global, meta: &MetaKey) -> Result<Forced, AllocError>
        requires { IsMeta self.old.catalogue meta.now }
        ensures forced { IfOk result (λ forced. Forces self.old meta.now forced self.new) }
        ensures err { OnErr result (self.new ≡ self.old) }
    {
        self.core.force(alloc, meta)
    }

    /// Ends a render, and keeps its blob unless a truncation overtook it, as many others are kept as may be, or no gap has
    /// room for it. It takes no memory.
    pub fn finish(&mut self, ticket: Ticket, blob: SharedText) -> Finished
        requires meta { IsMeta self.old.catalogue ticket.meta }
        requires blob { length blob ≡ blob_size self.old.catalogue ticket.meta }
        ensures finished { Finishes self.old ticket blob result self.new }
        ensures counted { IsCountedFinished 0 0 result }
        ensures sound { IsSound self.old → blob ≡ block_text self.old.catalogue ticket.number ticket.meta → IsSound self.new }
    {
        match self.core.judge(&ticket) {
            Judged::Stranger => {
                self.core.abandon(ticket);
                Finished::Stranger
            }
            Judged::Overtaken(cut) => {
                self.core.abandon(ticket);
                Finished::Overtaken(cut)
            }
            Judged::Full => {
                self.core.abandon(ticket);
                Finished::Full
            }
            Judged::NoRoom => {
                self.core.abandon(ticket);
                Finished::NoRoom
            }
            Judged::Fits(kept) => {
                self.core.keep(ticket, kept, Text::of(blob));
                Finished::Kept
            }
        }
    }

    /// Ends a render, and keeps nothing of it; a stranger's ticket changes nothing. It takes no memory.
    pub fn abandon(&mut self, ticket: Ticket)
        ensures { Abandons self.old ticket self.new }
    {
        self.core.abandon(ticket)
    }

    /// Truncates: drops each kept metatile, and overtakes each running render, of which the cover is for a tile.
    /// `AllocError` where memory runs out; all is then as before.
    pub fn cut(&mut self, alloc: Global, cover: &Cover) -> Result<CutReply, AllocError>
        requires { IsCoverOf self.old.catalogue cover.now }
        ensures cuts { IfOk result (λ reply. Cuts self.old cover.now reply self.new) }
        ensures counted { IfOk result (IsCountedCut 0 0) }
        ensures err { OnErr result (self.new ≡ self.old) }
    {
        match self.core.admit(alloc, cover) {
            Err(fault) => Err(fault),
            Ok(Admitted::Spent) => Ok(CutReply::Spent),
            Ok(Admitted::Full) => Ok(CutReply::Full),
            Ok(Admitted::Number(number)) => {
                self.core.cut(number, cover);
                Ok(CutReply::Done(number))
            }
        }
    }

    /// Drops the first metatile to go of the scope whose quota is exceeded, if one is. It takes no memory.
    pub fn expire(&mut self) -> Expired
        ensures expires { Expires self.old result self.new }
        ensures counted { IsCountedExpired 0 0 result }
        ensures sound { IsSound self.old → IsSound self.new }
    {
        match self.core.first_to_go() {
            None => Expired::Within,
            Some(kept) => {
                self.core.drop_kept(&kept.meta);
                Expired::Dropped(kept.meta)
            }
        }
    }

    /// Marks the uses of one metatile as saved, of the least key, field by field, of those with uses that aren't. It takes no
    /// memory.
    pub fn save_uses(&mut self) -> Saved
        ensures saves { Saves self.old result self.new }
        ensures counted { IsCountedSaved 0 0 result }
        ensures sound { IsSound self.old → IsSound self.new }
    {
        match self.core.first_unsaved() {
            None => Saved::Within,
            Some(unsaved) => {
                self.core.save(&unsaved.kept.meta);
                Saved::Done(unsaved.kept.meta)
            }
        }
    }

    /// The bytes that the kept metatiles of a layer take.
    pub fn used(&self, layer: u32) -> u64
        requires { layer < length self.now.catalogue.layers }
        ensures { result ≡ used self.now layer }
    {
        self.core.used(layer)
    }

    /// The bytes that all kept metatiles take.
    pub fn used_all(&self) -> u64
        ensures { result ≡ used_all self.now }
    {
        self.core.used_all()
    }

    /// How many metatiles of a layer are kept.
    pub fn kept_in(&self, layer: u32) -> u32
        ensures { result ≡ kept_in self.now layer }
    {
        self.core.kept_in(layer)
    }

    /// How many metatiles are kept.
    pub fn kept(&self) -> u32
        ensures { result ≡ length (now self.now).kept }
    {
        self.core.kept()
    }

    /// How many cuts are in force.
    pub fn cuts(&self) -> u32
        ensures { result ≡ length (now self.now).book.cuts }
    {
        self.core.cuts().count()
    }

    /// The greatest cut that its book has seen: the greater of the floor and the greatest number of a cut in force.
    pub fn latest(&self) -> u64
        ensures { result ≡ last_seen (now self.now).book }
    {
        self.core.cuts().seen()
    }
}
