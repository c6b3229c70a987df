//! Who works for a server.
ghost use Rattle.std.specs.Prelude.{All, Bool, IfOk, Some, length, true, [], ◌+◌, ◌-◌, ◌≡◌, ◌≤◌};
ghost use Rattle.atomic_table.specs.Seated.{TableId};
ghost use Rattle.cache_hall.specs.Turned.{HallPass, IsPassOf};
ghost use Rattle.catalog.specs.declared.catalogue.Catalogue.{Catalogue};
ghost use Rattle.job_board.specs.Calls.{IsFirstBoardPass};
ghost use Rattle.link_queue.specs.Hands.{IsHand, all_parts, hand, table_of};
ghost use Rattle.seed_jobs.specs.Idles.{MayJoin};
ghost use Rattle.server_workers.specs.Crew.{AreSupplies};
ghost use Rattle.server_workers.specs.Runners.{IsNewRunner};
ghost use Rattle.server_workers.specs.Stints.{Service};
ghost use Rattle.server_workers.specs.Workers.{AreNewWorkers};

use cabinet::Keeper;
use cabinet_chest::CabinetChest;
use http_wire::Link;
use job_board::BoardPass;
use link_queue::{LinkHand, LinkQueue};
use seed_jobs::{JobGate, MEMBERS, Runner, idle_members};
use source_render::Source;
use std::alloc::{AllocError, Global};
use turnstile::Pass;

/// How many workers serve links at a time. One that waits for a render holds no other one up, so they are many more than processors; at the
/// most as many passes as a turnstile gives are left for them, beside the upkeep's and those of a job's crew.
pub(crate) const WORKERS: usize = 48;

/// A worker: its pass of the hall, its place at the board of jobs, its hand at the queue, and the source that it renders with.
#[derive(Drop)]
pub(crate) struct Worker<K: Keeper, S: Source, L: Link> {
    pub(crate) pass: Pass<CabinetChest<K>>,
    pub(crate) board: BoardPass,
    pub(crate) hand: LinkHand<L>,
    pub(crate) source: S,
}

/// The workers of a server, the pass for its upkeep, who runs its jobs, and the place at the board from which these are cancelled at the
/// end.
#[derive(Drop)]
pub(crate) struct Crew<K: Keeper, S: Source, L: Link, G: JobGate> {
    pub(crate) workers: Vec<Worker<K, S, L>>,
    pub(crate) upkeep: Pass<CabinetChest<K>>,
    pub(crate) runner: Runner<K, S, G>,
    pub(crate) canceller: BoardPass,
}

/// All that have a hand at the queue: a crew, and who accepts links.
#[derive(Drop)]
pub(crate) struct Staff<K: Keeper, S: Source, L: Link, G: JobGate> {
    pub(crate) crew: Crew<K, S, L, G>,
    pub(crate) acceptor: LinkHand<L>,
}

/// What a crew is made of: passes of the hall, places at the board of jobs, and sources, which nobody has yet.
#[derive(Drop)]
pub(crate) struct Supplies<K: Keeper, S: Source> {
    pub(crate) passes: Vec<Pass<CabinetChest<K>>>,
    pub(crate) boards: Vec<BoardPass>,
    pub(crate) sources: Vec<S>,
}

/// The workers of a crew, each with a hand at the queue. `AllocError` where memory runs out.
fn workers_of<K: Keeper, S: Source, L: Link>(
    alloc: Global,
    queue: &LinkQueue<L>,
    mine: &mut LinkHand<L>,
    supplies: &mut Supplies<K, S>,
) -> Result<Vec<Worker<K, S, L>>, AllocError>
    requires passes { WORKERS ≤ length supplies.old.passes.items }
    requires boards { WORKERS ≤ length supplies.old.boards.items }
    requires sources { WORKERS ≤ length supplies.old.sources.items }
    requires mine { IsHand (table_of queue.now.links) (hand all_parts [] []) mine.old }
    ensures mine { IfOk result (λ workers. IsHand (table_of queue.now.links) (hand (all_parts - WORKERS) [] []) mine.new) }
    ensures each { IfOk result (λ workers. length workers.items ≡ WORKERS) }
    ensures passes { IfOk result (λ workers. length supplies.new.passes.items + WORKERS ≡ length supplies.old.passes.items) }
    ensures boards { IfOk result (λ workers. length supplies.new.boards.items + WORKERS ≡ length supplies.old.boards.items) }
    ensures sources { IfOk result (λ workers. length supplies.new.sources.items + WORKERS ≡ length supplies.old.sources.items) }
    ensures new { (s : Service L S) → AreSupplies s S.told supplies.old.passes.items supplies.old.boards.items supplies.old.sources.items
        → IfOk result (λ workers. AreNewWorkers S.told (table_of queue.now.links) s workers.items
        × AreSupplies s S.told supplies.new.passes.items supplies.new.boards.items supplies.new.sources.items) }
{
    let mut workers = Vec::new(alloc);
    'hiring: for _ in 0..WORKERS {
        let Some(pass) = supplies.passes.pop() else {
            unreachable!()
        };
        let Some(board) = supplies.boards.pop() else {
            unreachable!()
        };
        let Some(source) = supplies.sources.pop() else {
            unreachable!()
        };
        let hand = queue.one_more(mine);
        workers.push(Worker {
            pass,
            board,
            hand,
            source,
        })?;
    }
    Ok(workers)
}

/// Who runs jobs, with a member for each pass. `AllocError` where memory runs out.
fn runner_of<K: Keeper, S: Source, G: JobGate>(
    alloc: Global,
    board: BoardPass,
    passes: Vec<Pass<CabinetChest<K>>>,
    sources: Vec<S>,
    gates: Vec<G>,
) -> Result<Runner<K, S, G>, AllocError>
    requires passes { length passes.items ≡ MEMBERS }
    requires sources { length sources.items ≡ MEMBERS }
    requires gates { length gates.items ≡ MEMBERS }
    ensures board { IfOk result (λ runner. runner.board ≡ board) }
    ensures first { (p : HallPass) → All (λ q. q ≡ p) passes.items → IfOk result (λ runner. All (λ i. i.pass ≡ p) runner.idle) }
    ensures join { (table : TableId) (c : Catalogue) (told : Bool) → All (IsPassOf table c) passes.items → All (λ p. p.told ≡ told) passes.items
        → All (λ s. told ≡ true → S.told s ≡ Some c.source) sources.items → IfOk result (λ runner. All (MayJoin table c) runner.idle) }
{
    let idle = idle_members(alloc, passes, sources, gates)?;
    Runner::new(alloc, board, idle)
}

/// A crew of workers, the upkeep, who cancels jobs, and who runs them with all that is left of the supplies. `AllocError` where memory runs
/// out.
pub(crate) fn crew_of<K: Keeper, S: Source, L: Link, G: JobGate>(
    alloc: Global,
    queue: &LinkQueue<L>,
    mine: &mut LinkHand<L>,
    supplies: Supplies<K, S>,
    gates: Vec<G>,
) -> Result<Crew<K, S, L, G>, AllocError>
    requires passes { length supplies.passes.items ≡ WORKERS + 1 + MEMBERS }
    requires boards { length supplies.boards.items ≡ WORKERS + 2 }
    requires sources { length supplies.sources.items ≡ WORKERS + MEMBERS }
    requires gates { length gates.items ≡ MEMBERS }
    requires mine { IsHand (table_of queue.now.links) (hand all_parts [] []) mine.old }
    ensures mine { IfOk result (λ crew. IsHand (table_of queue.now.links) (hand (all_parts - WORKERS) [] []) mine.new) }
    ensures each { IfOk result (λ crew. length crew.workers.items ≡ WORKERS) }
    ensures new { (s : Service L S) → s.first.charter ≡ Some s.catalogue → AreSupplies s S.told supplies.passes.items supplies.boards.items supplies.sources.items
        → IfOk result (λ crew. AreNewWorkers S.told (table_of queue.now.links) s crew.workers.items
        × (crew.upkeep ≡ s.first) × IsNewRunner s crew.runner × IsFirstBoardPass s.board crew.canceller) }
{
    let mut supplies = supplies;
    let workers = workers_of(alloc, queue, mine, &mut supplies)?;
    let Supplies {
        mut passes,
        mut boards,
        sources,
    } = supplies;
    let Some(upkeep) = passes.pop() else {
        unreachable!()
    };
    let Some(board) = boards.pop() else {
        unreachable!()
    };
    let Some(canceller) = boards.pop() else {
        unreachable!()
    };
    let runner = runner_of(alloc, board, passes, sources, gates)?;
    Ok(Crew {
        workers,
        upkeep,
        runner,
        canceller,
    })
}
