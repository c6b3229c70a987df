//! Who runs jobs.
ghost use Rattle.std.specs.Prelude.{length, reverse, vec_capacity, ◌+◌, ◌++◌, ◌≡◌, ◌≤◌};
ghost use Rattle.seed_jobs.specs.Idles.{all_idle, passes_of};

use crate::gates::JobGate;
use crate::member::Member;
use cabinet::Keeper;
use cabinet_chest::CabinetChest;
use job_board::{Board, BoardPass};
use source_render::Source;
use std::alloc::{AllocError, Global};
use std::marker::Model;
use turnstile::Pass;

/// How many members a runner has: as many as a job may have threads.
pub const MEMBERS: usize = 8;

/// A member of a crew while it has no job.
#[derive(Drop)]
pub struct IdleMember<K: Keeper, S: Source, G: JobGate> {
    pub pass: Pass<CabinetChest<K>>,
    pub source: S,
    pub gate: G,
}

/// Who runs the jobs of a board: a pass of the board, eight members, and the room that a crew of them takes. Contracts see the pass, and
/// the members, none of whom has a job.
#[derive(Drop)]
pub struct Runner<K: Keeper, S: Source, G: JobGate> {
    pub(crate) board: BoardPass,
    pub(crate) idle: Vec<IdleMember<K, S, G>>,
    pub(crate) crew: Vec<Member<K, S, G>>,
}

impl<K: Keeper, S: Source, G: JobGate> Model for Runner<K, S, G> {
    ghost use Rattle.std.specs.Prelude.{length, vec_capacity, [], ◌≡◌, ◌≤◌};
    ghost use Rattle.seed_jobs.specs.Idles.{Standby, all_idle};

    ghost Value = { Standby };

    ghost view = { λ r. record { board = r.board; idle = all_idle S.told S.faults S.gave r.idle.items } };

    ghost invariant = { λ r. (length r.idle.items ≡ 8) × (8 ≤ vec_capacity r.idle) × (r.crew.items ≡ []) × (vec_capacity r.crew ≡ 8) };
}

/// Puts the passes of members to others in a list that has room for them, that of the last member first.
fn put_passes<K: Keeper, S: Source, G: JobGate>(
    idle: Vec<IdleMember<K, S, G>>,
    passes: Vec<Pass<CabinetChest<K>>>,
) -> Vec<Pass<CabinetChest<K>>>
    requires room { length passes.items + length idle.items ≤ vec_capacity passes }
    ensures items { result.items ≡ passes.items ++ reverse (passes_of (all_idle S.told S.faults S.gave idle.items)) }
    ensures count { length result.items ≡ length passes.items + length idle.items }
    ensures room { vec_capacity result ≡ vec_capacity passes }
{
    let mut idle = idle;
    let mut passes = passes;
    'putting: while let Some(member) = idle.pop() {
        passes.push_reserved(member.pass);
    }
    passes
}

impl<K: Keeper, S: Source, G: JobGate> Runner<K, S, G> {
    ghost use Rattle.std.specs.Prelude.{IfOk, length, reverse, vec_capacity, [], ◌+◌, ◌++◌, ◌∷◌, ◌≡◌, ◌≤◌};
    ghost use Rattle.job_board.specs.Calls.{IsBoardPass};
    ghost use Rattle.seed_jobs.specs.Idles.{AreOfSources, HasHeard, all_idle, passes_of};
    ghost use Rattle.truncation_list.specs.Books.{AnswersForFronted};
    ghost use Rattle.turnstile.specs.Passes.{seen_by};

    /// A runner with these members. All room that it needs is taken here. `AllocError` where memory runs out.
    pub fn new(
        alloc: Global,
        board: BoardPass,
        idle: Vec<IdleMember<K, S, G>>,
    ) -> Result<Runner<K, S, G>, AllocError>
        requires members { length idle.items ≡ MEMBERS }
        ensures board { IfOk result (λ r. r.board ≡ board) }
        ensures idle { IfOk result (λ r. r.idle ≡ all_idle S.told S.faults S.gave idle.items) }
    {
        let crew = Vec::with_capacity(alloc, MEMBERS)?;
        Ok(Runner { board, idle, crew })
    }

    /// Tells the runner of all jobs of which another pass of its board knows: its next look finds a board with all of them. The other pass is
    /// told of all of which the runner knew. Nobody waits.
    pub fn hear(&mut self, board: &Board, other: &mut BoardPass)
        requires mine { IsBoardPass board.now.turnstile.table self.old.board }
        requires theirs { IsBoardPass board.now.turnstile.table other.old }
        ensures heard { HasHeard self.old self.new (other.old ∷ []) }
        ensures theirs { IsBoardPass board.now.turnstile.table other.new }
        ensures told { (other.new ≡ seen_by other.old other.new.book []) × AnswersForFronted other.new.book self.old.board.book }
    {
        board.turnstile.meet(&mut self.board, other);
    }

    /// Puts the passes of its members to others in a list that has room for them, that of the last member first, and ends with that. What
    /// contracts saw its members' sources do is what their sources have done.
    #[tactic(auto, using(crate::proofs::Sources::all_of_sources))]
    pub fn into_passes(self, passes: Vec<Pass<CabinetChest<K>>>) -> Vec<Pass<CabinetChest<K>>>
        requires room { length passes.items + MEMBERS ≤ vec_capacity passes }
        ensures items { result.items ≡ passes.items ++ reverse (passes_of self.idle) }
        ensures sources { AreOfSources S.faults S.gave self.idle }
        ensures count { length result.items ≡ length passes.items + MEMBERS }
        ensures room { vec_capacity result ≡ vec_capacity passes }
    {
        let Runner {
            board: _,
            idle,
            crew: _,
        } = self;
        put_passes(idle, passes)
    }
}
