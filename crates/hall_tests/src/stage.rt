//! A hall over an empty cabinet in memory, a board, and who runs its jobs.
ghost use Rattle.std.specs.Prelude.{All, IfOk, IfSome, false, length, ◌≡◌, ◌≤◌};
ghost use Rattle.atomic_table.specs.Seated.{TableId};
ghost use Rattle.cache_hall.specs.Turned.{IsPassOf};
ghost use Rattle.catalog.specs.Valid.{IsValid};
ghost use Rattle.catalog.specs.declared.catalogue.Catalogue.{Catalogue};
ghost use Rattle.job_board.specs.Calls.{IsBoardPass};
ghost use Rattle.seed_jobs.specs.Idles.{IsStandbyReady};

use base::Clock;
use cabinet::Cabinet;
use cabinet_chest::CabinetChest;
use cache_hall::{Hall, HallEntry};
use catalog::Catalogue;
use config_text::read_catalogue;
use job_board::{Board, BoardEntry, BoardPass, JobState, JobStatus};
use job_forms::{Job, JobKind};
use matrix_geometry::Filter;
use seed_jobs::{JobGate, Runner, idle_members, run_jobs};
use source_render::Numbered;
use std::alloc::{AllocError, Global};
use std::sync::Wait;
use std::sync::atomic::AtomicBool;
use std::thread::Threads;
use truncation_list::Cover;
use turnstile::Pass;

/// A catalogue with four matrices of the web's grid, and metatiles of 4 by 4 tiles.
const WEB: &[u8] = br#"{"keptLimit":4096,"cutLimit":256,"blobBytes":1000000000,
"grids":[{"id":"web","corner":["-20037508.3427892","20037508.3427892"],"matrices":[
{"id":"0","scale":"559082264.0287178","tile":[256,256],"size":[1,1]},
{"id":"1","scale":"279541132.0143589","tile":[256,256],"size":[2,2]},
{"id":"2","scale":"139770566.0071794","tile":[256,256],"size":[4,4]},
{"id":"3","scale":"69885283.00358972","tile":[256,256],"size":[8,8]}]}],
"layers":[{"id":"world","grids":["web"],"styles":[{"id":"grey","breaks":[]}],"meta":[4,4],"gutter":8,"cell":1000}]}"#;

/// How many metatiles a seed of all four matrices has: one at each of the zooms 0 to 2, and four at zoom 3.
pub const PLACES: u64 = 7;

/// A seed of all four matrices.
pub fn seed(threads: u32) -> Job
    ensures { result.threads ≡ threads }
{
    Job {
        kind: JobKind::Seed,
        cover: Cover {
            layer: 0,
            grid: 0,
            z_start: 0,
            z_stop: 3,
            bounds: None,
            filter: Filter {
                style: None,
                dims: [None; 4],
            },
        },
        threads,
    }
}

/// A hall over an empty cabinet of a catalogue, and eight passes.
fn hall_of(
    alloc: Global,
    catalogue: Catalogue,
) -> Result<(Hall<Cabinet>, Vec<Pass<CabinetChest<Cabinet>>>), AllocError>
    requires valid { IsValid catalogue }
    ensures valid { IfOk result (λ t. IsValid t.0.catalogue) }
    ensures count { IfOk result (λ t. length t.1.items ≡ 8) }
    ensures own { IfOk result (λ t. All (IsPassOf t.0.turnstile.table t.0.catalogue) t.1.items) }
    ensures untold { IfOk result (λ t. All (λ p. p.told ≡ false) t.1.items) }
{
    let cabinet = Cabinet::memory(alloc, catalogue, Clock::listed(Vec::new(alloc)))?;
    let HallEntry { hall, passes } = Hall::make(alloc, cabinet, 8)?;
    Ok((hall, passes.into_vec()))
}

/// A board without jobs, and two passes of it.
pub fn board_of(alloc: Global) -> Result<Option<(Board, BoardPass, BoardPass)>, AllocError>
    ensures { IfOk result (λ o. IfSome o (λ t. IsBoardPass t.0.turnstile.table t.1 × IsBoardPass t.0.turnstile.table t.2)) }
{
    let BoardEntry { board, passes } = Board::make(alloc, 2)?;
    let mut passes = passes.into_vec();
    let Some(a) = passes.pop() else {
        return Ok(None);
    };
    let Some(b) = passes.pop() else {
        return Ok(None);
    };
    Ok(Some((board, a, b)))
}

/// A runner of these passes, with sources of numbered pictures.
fn runner_of<G: JobGate>(
    alloc: Global,
    board: BoardPass,
    passes: Vec<Pass<CabinetChest<Cabinet>>>,
    gates: Vec<G>,
) -> Result<Runner<Cabinet, Numbered, G>, AllocError>
    requires passes { length passes.items ≡ 8 }
    requires gates { length gates.items ≡ 8 }
    ensures ready { (boards table : TableId) (c : Catalogue) → IsBoardPass boards board → All (IsPassOf table c) passes.items → All (λ p. p.told ≡ false) passes.items → IfOk result (λ r. IsStandbyReady boards table c r) }
{
    let sources = vec![in alloc;
        Numbered::new(0),
        Numbered::new(0),
        Numbered::new(0),
        Numbered::new(0),
        Numbered::new(0),
        Numbered::new(0),
        Numbered::new(0),
        Numbered::new(0),
    ]?;
    let idle = idle_members(alloc, passes, sources, gates)?;
    let runner = Runner::new(alloc, board, idle)?;
    Ok(runner)
}

/// A hall over an empty cabinet, a board without jobs with a pass, and who runs its jobs.
#[derive(Drop)]
pub struct Stage<G: JobGate> {
    hall: Hall<Cabinet>,
    board: Board,
    pass: BoardPass,
    runner: Runner<Cabinet, Numbered, G>,
}

/// A stage on the web's grid; none where its catalogue is refused.
pub fn new_stage<G: JobGate>(alloc: Global, gates: Vec<G>) -> Result<Option<Stage<G>>, AllocError>
    requires gates { length gates.items ≡ 8 }
    ensures valid { IfOk result (λ o. IfSome o (λ s. IsValid s.hall.catalogue)) }
    ensures ready { IfOk result (λ o. IfSome o (λ s. IsStandbyReady s.board.turnstile.table s.hall.turnstile.table s.hall.catalogue s.runner)) }
    ensures pass { IfOk result (λ o. IfSome o (λ s. IsBoardPass s.board.turnstile.table s.pass)) }
{
    let Ok(catalogue) = read_catalogue(alloc, WEB) else {
        return Ok(None);
    };
    let (hall, passes) = hall_of(alloc, catalogue)?;
    let Some((board, pass, other)) = board_of(alloc)? else {
        return Ok(None);
    };
    let runner = runner_of(alloc, other, passes, gates)?;
    Ok(Some(Stage {
        hall,
        board,
        pass,
        runner,
    }))
}

/// Whether a job that has ended tells the same numbers again, and also once it was stopped, when it is still told to be done.
fn stays_over<R: Wait>(
    rt: &R,
    board: &Board,
    pass: &mut BoardPass,
    number: u64,
    told: JobStatus,
) -> bool
    requires { IsBoardPass board.now.turnstile.table pass.old }
{
    let again = board.look(rt, pass, number);
    let is_stopped = board.stop(rt, pass, number);
    let Some(last) = board.look(rt, pass, number) else {
        return false;
    };
    let same = last.progress.done == told.progress.done
        && last.progress.failed == told.progress.failed;
    let is_done = last.state == JobState::Done && last.progress.cancelled;
    again == Some(told) && is_stopped && same && is_done
}

/// Submits a seed, and tells how far it is before it is run and after all jobs were; none where a later look tells other numbers.
pub fn run<R: Threads + Wait + Sync, G: JobGate + Send>(
    rt: &R,
    alloc: Global,
    stage: Stage<G>,
    threads: u32,
) -> Option<(JobStatus, JobStatus)>
    requires threads { (1 ≤ threads) × (threads ≤ 8) }
    requires valid { IsValid stage.hall.catalogue }
    requires ready { IsStandbyReady stage.board.turnstile.table stage.hall.turnstile.table stage.hall.catalogue stage.runner }
    requires pass { IsBoardPass stage.board.turnstile.table stage.pass }
{
    let Stage {
        hall,
        board,
        mut pass,
        mut runner,
    } = stage;
    let Ok(number) = board.submit(rt, alloc, &mut pass, seed(threads), PLACES) else {
        return None;
    };
    let before = board.look(rt, &mut pass, number)?;
    run_jobs(
        rt,
        alloc,
        &hall,
        &board,
        &AtomicBool::new(true),
        &mut runner,
    );
    let after = board.look(rt, &mut pass, number)?;
    if !stays_over(rt, &board, &mut pass, number, after) {
        return None;
    }
    Some((before, after))
}
