//! A hall and a board as a server of messages.
ghost use Rattle.std.specs.Prelude.{◌≡◌, Some, true};
ghost use Rattle.cache_hall.specs.Turned.{IsPassOf};
ghost use Rattle.catalog.specs.Valid.{IsValid};
ghost use Rattle.hall_sessions.specs.Served.{ServesLater};
ghost use Rattle.job_board.specs.Calls.{IsBoardPass};
ghost use Rattle.layer_recipes.specs.Books.{IsBookOf};

use crate::requests::serve;
use crate::world::World;
use cabinet::Keeper;
use cabinet_chest::CabinetChest;
use http_wire::Message;
use job_board::BoardPass;
use png_text::CrcTables;
use sessions::MessageServer;
use source_render::Source;
use std::alloc::Global;
use std::sync::Wait;
use tile_requests::Outcome;
use turnstile::Pass;

/// Serves the messages of a connection over a hall and a board, by a pass of each, and counts them as traffic.
#[derive(Drop)]
pub struct HallServer<'a, R, K: Keeper> {
    /// What a thread waits by.
    pub rt: &'a R,
    pub world: &'a World<K>,
}

impl<R: Wait, K: Keeper> MessageServer for HallServer<'_, R, K> {
    type Cache = Pass<CabinetChest<K>>;

    type Jobs = BoardPass;

    ghost ready = { λ server pass board told. IsPassOf server.world.now.hall.turnstile.table server.world.now.hall.catalogue pass × IsValid server.world.now.hall.catalogue × (pass.told ≡ true → told ≡ Some server.world.now.hall.catalogue.source) × IsBoardPass server.world.now.board.turnstile.table board × IsBookOf server.world.now.hall.catalogue server.world.now.recipes };

    ghost document = { λ server _. server.world.now.capabilities };

    ghost serves = { λ server _ m o before after. ServesLater server.world.now.hall.catalogue server.world.now.recipes m o before after };

    fn serve<S: Source>(
        &self,
        alloc: Global,
        cache: &mut Pass<CabinetChest<K>>,
        jobs: &mut BoardPass,
        source: &mut S,
        message: &Message,
    ) -> Outcome {
        serve(self.rt, alloc, self.world, cache, jobs, source, message)
    }

    fn capabilities<'s>(&'s self, _cache: &'s Pass<CabinetChest<K>>) -> &'s [u8] {
        self.world.capabilities.bytes()
    }

    fn crc_tables<'s>(&'s self, _cache: &'s Pass<CabinetChest<K>>) -> &'s CrcTables {
        &self.world.tables.crc
    }

    fn begin_message(&self) {
        self.world.traffic.begin();
    }

    fn end_message(&self) {
        self.world.traffic.end();
    }
}
