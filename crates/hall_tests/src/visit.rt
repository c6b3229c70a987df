//! A world over a cabinet, with two passes of its hall and one of its board of jobs, and sessions in it.
ghost use Rattle.std.specs.Prelude.{IfOk, IfSome, ◌≡◌, []};
ghost use Rattle.hall_tests.specs.Fit.{IsFit};
ghost use Rattle.job_board.specs.Calls.{IsBoardPass};

use crate::pair::Pair;
use base::Traffic;
use cabinet::Keeper;
use cabinet_chest::CabinetChest;
use exact_ratio::Words;
use hall_sessions::{World, serve_session};
use http_wire::MemoryLink;
use job_board::{Board, BoardEntry, BoardPass};
use layer_recipes::RecipeBook;
use sessions::SessionEnd;
use source_render::Scripted;
use std::alloc::{AllocError, Global};
use std::sync::Wait;
use tile_requests::Tables;
use turnstile::Pass;

/// A world, two passes of its hall, and one of its board.
#[derive(Drop)]
pub struct Visit<K: Keeper> {
    pub world: World<K>,
    pub a: Pass<CabinetChest<K>>,
    pub b: Pass<CabinetChest<K>>,
    pub board: BoardPass,
}

/// A board without jobs, and a pass of it.
fn new_board(alloc: Global) -> Result<Option<(Board, BoardPass)>, AllocError>
    ensures { IfOk result (λ o. IfSome o (λ t. IsBoardPass t.0.turnstile.table t.1)) }
{
    let BoardEntry { board, passes } = Board::make(alloc, 1)?;
    match passes.into_vec().pop() {
        None => Ok(None),
        Some(pass) => Ok(Some((board, pass))),
    }
}

/// What a world has beside its hall, and a pass of its board.
#[derive(Drop)]
struct Ground {
    tables: Tables,
    board: Board,
    pass: BoardPass,
}

/// A board without jobs, a pass of it, and the tables of requests.
fn new_ground(alloc: Global) -> Result<Option<Ground>, AllocError>
    ensures { IfOk result (λ o. IfSome o (λ g. IsBoardPass g.board.turnstile.table g.pass)) }
{
    let tables = Tables::new(alloc)?;
    match new_board(alloc)? {
        None => Ok(None),
        Some((board, pass)) => Ok(Some(Ground {
            tables,
            board,
            pass,
        })),
    }
}

/// A world over the hall of these passes, on that ground.
fn visit_on<K: Keeper>(alloc: Global, pair: Pair<K>, ground: Ground) -> Visit<K>
    requires a { IsFit pair.hall.turnstile pair.hall.catalogue pair.a }
    requires b { IsFit pair.hall.turnstile pair.hall.catalogue pair.b }
    requires board { IsBoardPass ground.board.turnstile.table ground.pass }
    ensures a { IsFit result.world.hall.turnstile result.world.hall.catalogue result.a }
    ensures b { IsFit result.world.hall.turnstile result.world.hall.catalogue result.b }
    ensures board { IsBoardPass result.world.board.turnstile.table result.board }
    ensures recipes { result.world.recipes.recipes.items ≡ [] }
{
    let Pair { hall, a, b } = pair;
    let Ground {
        tables,
        board,
        pass,
    } = ground;
    Visit {
        world: World {
            hall,
            tables,
            capabilities: Words::of(Vec::new(alloc)),
            board,
            traffic: Traffic::new(),
            recipes: RecipeBook {
                recipes: Vec::new(alloc),
            },
        },
        a,
        b,
        board: pass,
    }
}

/// A world over the hall of these passes, with a board without jobs and without recipes.
pub fn visit_of<K: Keeper>(alloc: Global, pair: Pair<K>) -> Result<Option<Visit<K>>, AllocError>
    requires a { IsFit pair.hall.turnstile pair.hall.catalogue pair.a }
    requires b { IsFit pair.hall.turnstile pair.hall.catalogue pair.b }
    ensures { IfOk result (λ o. IfSome o (λ v. IsFit v.world.hall.turnstile v.world.hall.catalogue v.a × IsFit v.world.hall.turnstile v.world.hall.catalogue v.b × IsBoardPass v.world.board.turnstile.table v.board × (v.world.recipes.recipes.items ≡ []))) }
{
    match new_ground(alloc) {
        Ok(Some(ground)) => Ok(Some(visit_on(alloc, pair, ground))),
        Ok(None) => {
            drop(pair);
            Ok(None)
        }
        Err(fault) => {
            drop(pair);
            Err(fault)
        }
    }
}

/// Holds a session over a link, and tells its end and what was written.
#[tactic(auto, using(crate::proofs::Fitting::no_recipes_fit))]
pub fn held<R: Wait, K: Keeper>(
    rt: &R,
    alloc: Global,
    world: &World<K>,
    pass: &mut Pass<CabinetChest<K>>,
    board: &mut BoardPass,
    source: &mut Scripted,
    link: MemoryLink,
) -> Result<(SessionEnd, Vec<u8>), AllocError>
    requires fit { IsFit world.now.hall.turnstile world.now.hall.catalogue pass.old }
    requires board { IsBoardPass world.now.board.turnstile.table board.old }
    requires no_recipes { world.now.recipes.recipes.items ≡ [] }
    ensures { IfOk result (λ _. IsBoardPass world.now.board.turnstile.table board.new) }
{
    let mut link = link;
    let end = serve_session(rt, alloc, world, pass, board, source, &mut link);
    Ok((end, Vec::from_slice(alloc, link.taken())?))
}
