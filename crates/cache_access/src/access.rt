//! The trait of a way to a cache.
ghost use Rattle.std.specs.Prelude.{Bool, IfOk, List, OnErr, [], false, length, ◌++◌, ◌≡◌, ◌≤◌};
ghost use Rattle.cabinet.specs.Commands.{IsTrueHit};
ghost use Rattle.cabinet_chest.specs.declared.command.Command.TheVariants as command;
ghost use Rattle.cabinet_chest.specs.declared.command.Reply.TheVariants as reply;
ghost use Rattle.cabinet_chest.specs.declared.shown.Note.{Note};
ghost use Rattle.cache_access.specs.Turned.{AreTurns, GainsOne, Goes, RunsAfterAsk, RunsAfterForce};
ghost use Rattle.cache_access.specs.Waits.{Waits, WaitsForced};
ghost use Rattle.catalog.specs.LookUp.{IsTile};
ghost use Rattle.catalog.specs.declared.catalogue.Catalogue as declared;
ghost use Rattle.metatile_locks.specs.Tickets.{Ticketed};
ghost use Rattle.raster_field.specs.Blocks.{IsMeta, blob_size, block_text};
ghost use Rattle.served_covers.specs.OfCatalogue.{IsCoverOf};
ghost use Rattle.truncation_list.specs.declared.book.FrontedBook.{FrontedBook};
ghost use Rattle.turnstile.specs.declared.view.Made.{Made};

use base::SharedText;
use cabinet::{Asked, CutReply, Expired, Finished, Forced, Saved};
use cabinet_chest::Counts;
use catalog::Catalogue;
use matrix_geometry::Address;
use metatile_locks::Ticket;
use metatile_plan::MetaKey;
use std::alloc::{AllocError, Global};
use truncation_list::Cover;

/// A way to a cache, by which tiles are asked for and all else is commanded: of a thread that has the cache for itself, or of one among many.
///
/// Each call tells which turns were made at the one cabinet, in order, by the notes that they leave.
pub trait Access {
    /// What is commanded: a cabinet, or a pass of a hall.
    type Cache;

    /// The catalogue of the cabinet that is reached.
    ghost catalogue: { Self → Self.Cache → declared.Catalogue };

    /// A cabinet is reached by this.
    ghost reaches: { Self → Self.Cache → Type 0 };

    /// The thread may ask: if it has the cache for itself, no render runs.
    ghost rests: { Self → Self.Cache → Type 0 };

    /// The thread may end the ticket's render: if it has the cache for itself, no other one runs.
    ghost holds: { Self → Self.Cache → Ticketed → Type 0 };

    /// The cabinet is known to be sound: what it keeps is the picture of its number.
    ghost sound: { Self → Self.Cache → Type 0 };

    /// Only true blobs may be handed in.
    ghost owes: { Self → Self.Cache → Type 0 };

    /// The book that was seen last.
    ghost seen: { Self → Self.Cache → FrontedBook };

    /// These turns lead from the one to the other.
    ghost gains: { Self → Self.Cache → Self.Cache → List (Made Note) → Type 0 };

    /// What a crash may leave between the two, if that is known.
    ghost lasts: { Self → Self.Cache → Self.Cache → Type 0 };

    ghost gains_none: { (self : Self) (x : Self.Cache) → gains self x x [] };

    ghost gains_on: { (self : Self) (x y z : Self.Cache) (first then : List (Made Note)) → gains self x y first → gains self y z then → gains self x z (first ++ then) };

    ghost are_turns: { (self : Self) (x y : Self.Cache) (gained : List (Made Note)) → gains self x y gained → AreTurns (catalogue self x) false (seen self x) gained (seen self y) };

    ghost lasts_itself: { (self : Self) (x : Self.Cache) → lasts self x x };

    ghost lasts_on: { (self : Self) (x y z : Self.Cache) → lasts self x y → lasts self y z → lasts self x z };

    /// The catalogue.
    fn catalogue<'c>(&'c self, cache: &'c Self::Cache) -> &'c Catalogue
        ensures { result.now ≡ catalogue self.now cache.now };

    /// Asks for a tile, again and again while another render of its metatile runs: it is never answered `Busy`. `AllocError` if memory
    /// runs out.
    fn ask(
        &self,
        alloc: Global,
        cache: &mut Self::Cache,
        address: &Address,
    ) -> Result<Asked, AllocError>
        requires reaches { reaches self.now cache.old }
        requires rests { rests self.now cache.old }
        requires tile { IsTile (catalogue self.now cache.old) address.now }
        ensures waits { Waits (gains self.now) address.now cache.old cache.new result }
        ensures truth { IfOk result (λ asked. sound self.now cache.old → IsTrueHit (catalogue self.now cache.old) address.now asked) }
        ensures goes { Goes (catalogue self.now) (reaches self.now) (owes self.now) (lasts self.now) cache.old cache.new }
        ensures still { sound self.now cache.old → sound self.now cache.new }
        ensures runs { RunsAfterAsk (rests self.now cache.new) (holds self.now cache.new) result };

    /// Asks for a render of a metatile, whether it is kept or not, again and again while another one runs: it is never answered `Busy`.
    /// `AllocError` if memory runs out.
    fn force(
        &self,
        alloc: Global,
        cache: &mut Self::Cache,
        meta: &MetaKey,
    ) -> Result<Forced, AllocError>
        requires reaches { reaches self.now cache.old }
        requires rests { rests self.now cache.old }
        requires meta { IsMeta (catalogue self.now cache.old) meta.now }
        ensures waits { WaitsForced (gains self.now) meta.now cache.old cache.new result }
        ensures goes { Goes (catalogue self.now) (reaches self.now) (owes self.now) (lasts self.now) cache.old cache.new }
        ensures still { sound self.now cache.old → sound self.now cache.new }
        ensures runs { RunsAfterForce (rests self.now cache.new) (holds self.now cache.new) result };

    /// Ends a render, and hands in its blob. It takes no memory.
    fn finish(&self, cache: &mut Self::Cache, ticket: Ticket, blob: SharedText) -> Finished
        requires reaches { reaches self.now cache.old }
        requires meta { IsMeta (catalogue self.now cache.old) ticket.meta }
        requires blob { length blob ≡ blob_size (catalogue self.now cache.old) ticket.meta }
        requires truth { owes self.now cache.old → blob ≡ block_text (catalogue self.now cache.old) ticket.number ticket.meta }
        ensures done { GainsOne (gains self.now) cache.old cache.new (command.Finish ticket blob) (reply.Finished result) }
        ensures goes { Goes (catalogue self.now) (reaches self.now) (owes self.now) (lasts self.now) cache.old cache.new }
        ensures still { sound self.now cache.old → blob ≡ block_text (catalogue self.now cache.old) ticket.number ticket.meta → sound self.now cache.new }
        ensures rests { holds self.now cache.old ticket → rests self.now cache.new };

    /// Ends a render, and keeps nothing of it. It takes no memory.
    fn abandon(&self, cache: &mut Self::Cache, ticket: Ticket)
        requires reaches { reaches self.now cache.old }
        ensures done { GainsOne (gains self.now) cache.old cache.new (command.Abandon ticket) reply.Abandoned }
        ensures goes { Goes (catalogue self.now) (reaches self.now) (owes self.now) (lasts self.now) cache.old cache.new }
        ensures still { sound self.now cache.old → sound self.now cache.new }
        ensures rests { holds self.now cache.old ticket → rests self.now cache.new };

    /// Truncates. `AllocError` if memory runs out; there is then no turn.
    fn cut(
        &self,
        alloc: Global,
        cache: &mut Self::Cache,
        cover: &Cover,
    ) -> Result<CutReply, AllocError>
        requires reaches { reaches self.now cache.old }
        requires cover { IsCoverOf (catalogue self.now cache.old) cover.now }
        ensures done { IfOk result (λ answer. GainsOne (gains self.now) cache.old cache.new (command.Cut cover.now) (reply.Cut answer)) }
        ensures refused { OnErr result (gains self.now cache.old cache.new []) }
        ensures goes { Goes (catalogue self.now) (reaches self.now) (owes self.now) (lasts self.now) cache.old cache.new }
        ensures still { sound self.now cache.old → sound self.now cache.new }
        ensures rests { rests self.now cache.old → rests self.now cache.new };

    /// Drops the first metatile to go of a scope whose quota is exceeded, if one is. It takes no memory.
    fn expire(&self, cache: &mut Self::Cache) -> Expired
        requires reaches { reaches self.now cache.old }
        ensures done { GainsOne (gains self.now) cache.old cache.new command.Expire (reply.Expired result) }
        ensures goes { Goes (catalogue self.now) (reaches self.now) (owes self.now) (lasts self.now) cache.old cache.new }
        ensures still { sound self.now cache.old → sound self.now cache.new }
        ensures rests { rests self.now cache.old → rests self.now cache.new };

    /// Saves the uses of one metatile, if any are not saved. It takes no memory.
    fn save_uses(&self, cache: &mut Self::Cache) -> Saved
        requires reaches { reaches self.now cache.old }
        ensures done { GainsOne (gains self.now) cache.old cache.new command.SaveUses (reply.Saved result) }
        ensures goes { Goes (catalogue self.now) (reaches self.now) (owes self.now) (lasts self.now) cache.old cache.new }
        ensures still { sound self.now cache.old → sound self.now cache.new }
        ensures rests { rests self.now cache.old → rests self.now cache.new };

    /// Counts what is kept of the layer with this number, or of all layers if the number is how many there are. It takes no memory.
    fn usage(&self, cache: &mut Self::Cache, layer: u32) -> Counts
        requires reaches { reaches self.now cache.old }
        requires layer { layer ≤ length (catalogue self.now cache.old).layers }
        ensures done { GainsOne (gains self.now) cache.old cache.new (command.Usage layer) (reply.Usage result) }
        ensures goes { Goes (catalogue self.now) (reaches self.now) (owes self.now) (lasts self.now) cache.old cache.new }
        ensures still { sound self.now cache.old → sound self.now cache.new }
        ensures rests { rests self.now cache.old → rests self.now cache.new };
}
