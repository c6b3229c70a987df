//! Composites over one connection in memory, at a server that has recipes.
ghost use Rattle.std.specs.Prelude.{IfOk, IfSome};
ghost use Rattle.composite_tests.specs.Fit.{IsFit};
ghost use Rattle.job_board.specs.Calls.{IsBoardPass};
ghost use Rattle.layer_recipes.specs.Books.{IsBookOf};

use crate::rows::{MESSAGES, RECIPES, RESPONSES};
use crate::stand::{Pair, Stand, new_stand};
use base::Traffic;
use cabinet::Cabinet;
use cabinet_chest::CabinetChest;
use cache_hall::Hall;
use exact_ratio::Words;
use hall_sessions::{World, serve_session};
use http_wire::{MemoryLink, MemorySink, MemorySource};
use job_board::{Board, BoardEntry, BoardPass};
use layer_recipes::RecipeBook;
use sessions::SessionEnd;
use source_render::Numbered;
use std::alloc::{AllocError, Global};
use std::sync::Wait;
use std::test::Fail;
use tile_requests::Tables;
use turnstile::Pass;

/// What a world has beside its hall and its recipes, and a pass of its board.
#[derive(Drop)]
struct Ground {
    tables: Tables,
    board: Board,
    pass: BoardPass,
}

/// A board without jobs, a pass of it, and the tables of requests.
fn new_ground(alloc: Global) -> Result<Option<Ground>, AllocError>
    ensures { IfOk result (λ o. IfSome o (λ g. IsBoardPass g.board.turnstile.table g.pass)) }
{
    let tables = Tables::new(alloc)?;
    let BoardEntry { board, passes } = Board::make(alloc, 1)?;
    match passes.into_vec().pop() {
        None => Ok(None),
        Some(pass) => Ok(Some(Ground {
            tables,
            board,
            pass,
        })),
    }
}

/// Holds a session over the messages, and tells its end and what was written.
fn session<R: Wait>(
    rt: &R,
    alloc: Global,
    world: &World<Cabinet>,
    pass: &mut Pass<CabinetChest<Cabinet>>,
    board: &mut BoardPass,
) -> Result<(SessionEnd, Vec<u8>), AllocError>
    requires fit { IsFit world.now.hall.turnstile world.now.hall.catalogue pass.old }
    requires board { IsBoardPass world.now.board.turnstile.table board.old }
    requires recipes { IsBookOf world.now.hall.catalogue world.now.recipes }
{
    let mut link = MemoryLink::new(
        MemorySource::new(Vec::from_slice(alloc, MESSAGES)?, 4096, Vec::new(alloc)),
        MemorySink::new(alloc, Vec::new(alloc)),
    );
    let mut source = Numbered::new(0);
    let end = serve_session(rt, alloc, world, pass, board, &mut source, &mut link);
    Ok((end, Vec::from_slice(alloc, link.taken())?))
}

/// The same in a world over this hall, with these recipes, on that ground.
fn session_on<R: Wait>(
    rt: &R,
    alloc: Global,
    hall: Hall<Cabinet>,
    pass: Pass<CabinetChest<Cabinet>>,
    recipes: RecipeBook,
    ground: Ground,
) -> Result<(SessionEnd, Vec<u8>), AllocError>
    requires fit { IsFit hall.turnstile hall.catalogue pass }
    requires board { IsBoardPass ground.board.turnstile.table ground.pass }
    requires recipes { IsBookOf hall.catalogue recipes }
{
    let Ground {
        tables,
        board,
        pass: mut board_pass,
    } = ground;
    let mut pass = pass;
    let world = World {
        hall,
        tables,
        capabilities: Words::of(Vec::new(alloc)),
        board,
        traffic: Traffic::new(),
        recipes,
    };
    let came = session(rt, alloc, &world, &mut pass, &mut board_pass);
    drop((world, pass, board_pass));
    came
}

/// The same over the hall of a stand, with the recipes of their text; `None` where that is refused.
fn session_at<R: Wait>(
    rt: &R,
    alloc: Global,
    stand: Stand,
    ground: Ground,
) -> Result<Option<(SessionEnd, Vec<u8>)>, AllocError>
    requires a { IsFit stand.pair.hall.turnstile stand.pair.hall.catalogue stand.pair.a }
    requires board { IsBoardPass ground.board.turnstile.table ground.pass }
{
    let Stand { pair, recipe } = stand;
    let Pair { hall, a, b } = pair;
    drop((b, recipe));
    match RecipeBook::read(alloc, &hall.catalogue, RECIPES) {
        Ok(recipes) => Ok(Some(session_on(rt, alloc, hall, a, recipes, ground)?)),
        Err(_) => {
            drop((hall, a, ground));
            Ok(None)
        }
    }
}

#[test]
fn composites_are_served_beside_tiles(rt: HostRuntime) -> Result<(), Fail> {
    let alloc = rt.alloc();
    let Some(ground) = new_ground(alloc)? else {
        return Err(Fail::from("no board"));
    };
    let Some(stand) = new_stand(alloc)? else {
        drop(ground);
        return Err(Fail::from("a text is refused"));
    };
    let Some((end, output)) = session_at(&rt, alloc, stand, ground)? else {
        return Err(Fail::from("the recipes are refused"));
    };
    assert!(rt; end == SessionEnd::Closed);
    assert!(rt; output.as_slice() == RESPONSES);
    Ok(())
}
