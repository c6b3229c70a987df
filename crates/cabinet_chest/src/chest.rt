//! A cabinet as a chest: what a turn does with it.
ghost use Rattle.std.specs.Prelude.{◌≡◌, ◌≤◌, IfOk, OnErr, length};
ghost use Rattle.cabinet_chest.specs.Acts.{Acts, seen};
ghost use Rattle.catalog.specs.LookUp.{IsTile};
ghost use Rattle.raster_field.specs.Blocks.{IsMeta, blob_size};
ghost use Rattle.served_covers.specs.OfCatalogue.{IsCoverOf};

use crate::command::{Command, Reply};
use crate::counting::counts_of;
use crate::shown::{Note, Shown};
use base::SharedText;
use cabinet::{Keeper, laws_of_histories, laws_of_rows};
use catalog::Catalogue;
use matrix_geometry::Address;
use metatile_locks::Ticket;
use metatile_plan::MetaKey;
use std::alloc::{AllocError, Global};
use truncation_list::Cover;
use turnstile::Chest;

/// A cabinet, in memory or on a disk, that threads take turns at.
#[derive(Drop)]
pub struct CabinetChest<K: Keeper> {
    pub keeper: K,
}

impl<K: Keeper> CabinetChest<K> {
    /// An ask. `AllocError` where memory runs out; the cabinet is then as before.
    pub(crate) fn ask(&mut self, alloc: Global, address: &Address) -> Result<Reply, AllocError>
        requires { IsTile (K.state self.old.keeper).catalogue address.now }
        ensures acts { IfOk result (λ r. Acts (seen (K.faults self.old.keeper) (K.state self.old.keeper)) (seen (K.faults self.new.keeper) (K.state self.new.keeper)) (Command.Ask address.now) r) }
        ensures err { OnErr result ((K.state self.new.keeper ≡ K.state self.old.keeper) × (K.faults self.old.keeper ≤ K.faults self.new.keeper)) }
    {
        laws_of_histories();
        laws_of_rows();
        self.keeper.known();
        match self.keeper.ask(alloc, address) {
            Err(fault) => Err(fault),
            Ok(asked) => Ok(Reply::Asked(asked)),
        }
    }

    /// A force. `AllocError` where memory runs out; the cabinet is then as before.
    pub(crate) fn force(&mut self, alloc: Global, meta: &MetaKey) -> Result<Reply, AllocError>
        requires { IsMeta (K.state self.old.keeper).catalogue meta.now }
        ensures acts { IfOk result (λ r. Acts (seen (K.faults self.old.keeper) (K.state self.old.keeper)) (seen (K.faults self.new.keeper) (K.state self.new.keeper)) (Command.Force meta.now) r) }
        ensures err { OnErr result ((K.state self.new.keeper ≡ K.state self.old.keeper) × (K.faults self.old.keeper ≤ K.faults self.new.keeper)) }
    {
        laws_of_histories();
        laws_of_rows();
        self.keeper.known();
        match self.keeper.force(alloc, meta) {
            Err(fault) => Err(fault),
            Ok(forced) => Ok(Reply::Forced(forced)),
        }
    }

    /// A truncation. `AllocError` where memory runs out; the cabinet is then as before.
    pub(crate) fn cut(&mut self, alloc: Global, cover: &Cover) -> Result<Reply, AllocError>
        requires { IsCoverOf (K.state self.old.keeper).catalogue cover.now }
        ensures acts { IfOk result (λ r. Acts (seen (K.faults self.old.keeper) (K.state self.old.keeper)) (seen (K.faults self.new.keeper) (K.state self.new.keeper)) (Command.Cut cover.now) r) }
        ensures err { OnErr result ((K.state self.new.keeper ≡ K.state self.old.keeper) × (K.faults self.old.keeper ≤ K.faults self.new.keeper)) }
    {
        laws_of_histories();
        laws_of_rows();
        self.keeper.known();
        match self.keeper.cut(alloc, cover) {
            Err(fault) => Err(fault),
            Ok(reply) => Ok(Reply::Cut(reply)),
        }
    }

    /// A finish. It takes no memory.
    pub(crate) fn finish(&mut self, ticket: Ticket, blob: SharedText) -> Reply
        requires meta { IsMeta (K.state self.old.keeper).catalogue ticket.meta }
        requires blob { length blob ≡ blob_size (K.state self.old.keeper).catalogue ticket.meta }
        ensures { Acts (seen (K.faults self.old.keeper) (K.state self.old.keeper)) (seen (K.faults self.new.keeper) (K.state self.new.keeper)) (Command.Finish ticket blob) result }
    {
        laws_of_rows();
        self.keeper.known();
        Reply::Finished(self.keeper.finish(ticket, blob))
    }

    /// An abandon. It takes no memory.
    pub(crate) fn abandon(&mut self, ticket: Ticket) -> Reply
        ensures { Acts (seen (K.faults self.old.keeper) (K.state self.old.keeper)) (seen (K.faults self.new.keeper) (K.state self.new.keeper)) (Command.Abandon ticket) result }
    {
        laws_of_rows();
        self.keeper.known();
        self.keeper.abandon(ticket);
        Reply::Abandoned
    }

    /// An expiry. It takes no memory.
    pub(crate) fn expire(&mut self) -> Reply
        ensures { Acts (seen (K.faults self.old.keeper) (K.state self.old.keeper)) (seen (K.faults self.new.keeper) (K.state self.new.keeper)) Command.Expire result }
    {
        laws_of_rows();
        self.keeper.known();
        Reply::Expired(self.keeper.expire())
    }

    /// A saving of uses. It takes no memory.
    pub(crate) fn save_uses(&mut self) -> Reply
        ensures { Acts (seen (K.faults self.old.keeper) (K.state self.old.keeper)) (seen (K.faults self.new.keeper) (K.state self.new.keeper)) Command.SaveUses result }
    {
        laws_of_rows();
        self.keeper.known();
        Reply::Saved(self.keeper.save_uses())
    }

    /// A count of what is kept. It takes no memory and changes nothing.
    pub(crate) fn usage(&self, layer: u32) -> Reply
        requires { layer ≤ length (K.state self.now.keeper).catalogue.layers }
        ensures { Acts (seen (K.faults self.now.keeper) (K.state self.now.keeper)) (seen (K.faults self.now.keeper) (K.state self.now.keeper)) (Command.Usage layer) result }
    {
        laws_of_rows();
        self.keeper.known();
        Reply::Usage(counts_of(&self.keeper, layer))
    }
}

impl<K: Keeper> Chest for CabinetChest<K> {
    ghost use Rattle.std.specs.Prelude.{◌≡◌, ◌≤◌};
    ghost use Rattle.cabinet.specs.State.{IsSound, fronted, now};
    ghost use Rattle.cabinet_chest.specs.Acts.{seen};
    ghost use Rattle.cabinet_chest.specs.Admitted.{Admits, KeepsSound, TakesNoMemory};
    ghost use Rattle.cabinet_chest.specs.Replies.{MayReply};

    type Command = Command;

    type Reply = Reply;

    type Charter = Catalogue;

    type Shown = Shown;

    type Note = Note;

    ghost charter = { λ c. (K.state c.keeper).catalogue };

    ghost admits = { Admits };

    ghost keeps_sound = { KeepsSound };

    ghost takes_no_memory = { TakesNoMemory };

    ghost sound = { λ c. IsSound (K.state c.keeper) };

    ghost book = { λ c. fronted (now (K.state c.keeper)) };

    ghost shown = { λ c. seen (K.faults c.keeper) (K.state c.keeper) };

    ghost as_before = { λ a b. (K.state b.keeper ≡ K.state a.keeper) × (K.faults a.keeper ≤ K.faults b.keeper) };

    ghost note = { λ command reply before after. record { command = command; reply = reply; before = before; after = after } };

    ghost may_reply = { MayReply };

    fn act(&mut self, alloc: Global, command: Command) -> Result<Reply, AllocError> {
        match command {
            Command::Ask(address) => self.ask(alloc, &address),
            Command::Force(meta) => self.force(alloc, &meta),
            Command::Cut(cover) => self.cut(alloc, &cover),
            Command::Finish(ticket, blob) => Ok(self.finish(ticket, blob)),
            Command::Abandon(ticket) => Ok(self.abandon(ticket)),
            Command::Expire => Ok(self.expire()),
            Command::SaveUses => Ok(self.save_uses()),
            Command::Usage(layer) => Ok(self.usage(layer)),
        }
    }

    fn act_plain(&mut self, command: Command) -> Reply {
        match command {
            Command::Ask(_) | Command::Force(_) | Command::Cut(_) => unreachable!(),
            Command::Finish(ticket, blob) => self.finish(ticket, blob),
            Command::Abandon(ticket) => self.abandon(ticket),
            Command::Expire => self.expire(),
            Command::SaveUses => self.save_uses(),
            Command::Usage(layer) => self.usage(layer),
        }
    }

    fn latest(&self) -> u64 {
        self.keeper.latest()
    }
}
