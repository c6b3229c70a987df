//! What the links of a listener are served with, made before the first of them.
ghost use Rattle.std.specs.Prelude.{All, Bool, IfOk, length, true, ◌≡◌};
ghost use Rattle.cabinet.specs.State.{IsSound};
ghost use Rattle.server_workers.specs.First.{AreFirstAtBoard, first_pass};

use base::Traffic;
use cabinet::Keeper;
use cabinet_chest::CabinetChest;
use cache_hall::{Hall, HallEntry};
use exact_ratio::Words;
use hall_sessions::World;
use job_board::{Board, BoardEntry, BoardPass};
use layer_recipes::RecipeBook;
use std::alloc::{AllocError, Global};
use tile_requests::Tables;
use turnstile::Pass;

/// How many sources a server takes: one for each worker, and one for each member of a job's crew.
pub const SOURCES: usize = 56;

/// How many passes of the hall a server has: one for each worker, one for the upkeep, and one for each member of a job's crew.
pub const PASSES: u32 = 57;

/// How many places at the board of jobs a server has: one for each worker, one for who runs jobs, and one for who cancels them at the end.
pub const BOARD_PASSES: u32 = 50;

/// What is served, the passes of its hall, and the places at its board.
#[derive(Drop)]
pub struct ReadyServer<K: Keeper> {
    pub world: World<K>,
    pub passes: Vec<Pass<CabinetChest<K>>>,
    pub boards: Vec<BoardPass>,
}

/// A world over a cabinet, with its capabilities document, its recipes and a board without jobs, and the passes of it. Where the caller sets the mark of
/// being told, the cabinet is sound. `AllocError` where memory runs out; the cabinet is dropped then.
pub fn stage_of<K: Keeper>(
    alloc: Global,
    tables: Tables,
    capabilities: Words,
    recipes: RecipeBook,
    keeper: K,
) -> Result<ReadyServer<K>, AllocError>
    ghost told: { Bool }
    requires sound { told ≡ true → IsSound (K.state keeper) }
    ensures catalogue { IfOk result (λ o. o.world.hall.catalogue ≡ (K.state keeper).catalogue) }
    ensures document { IfOk result (λ o. o.world.capabilities ≡ capabilities) }
    ensures recipes { IfOk result (λ o. o.world.recipes ≡ recipes) }
    ensures count { IfOk result (λ o. (length o.passes.items ≡ PASSES) × (o.world.hall.turnstile.passes ≡ PASSES)) }
    ensures boards { IfOk result (λ o. AreFirstAtBoard o.world.board.turnstile.table BOARD_PASSES o.boards.items) }
    ensures first { IfOk result (λ o. All (λ p. p ≡ first_pass o.world.hall.turnstile.table (K.state keeper).catalogue told (K.state keeper)) o.passes.items) }
{
    // What is large is dropped by a call, since the proof would else go through its parts at each end.
    let entry = match Board::make(alloc, BOARD_PASSES) {
        Ok(entry) => entry,
        Err(fault) => {
            drop(tables);
            drop(recipes);
            return Err(fault);
        }
    };
    match Hall::make(alloc, keeper, PASSES) {
        Err(fault) => {
            drop(tables);
            drop(recipes);
            drop(entry);
            Err(fault)
        }
        Ok(HallEntry { hall, passes }) => {
            let BoardEntry {
                board,
                passes: boards,
            } = entry;
            Ok(ReadyServer {
                world: World {
                    hall,
                    tables,
                    capabilities,
                    board,
                    traffic: Traffic::new(),
                    recipes,
                },
                passes: passes.into_vec(),
                boards: boards.into_vec(),
            })
        }
    }
}
