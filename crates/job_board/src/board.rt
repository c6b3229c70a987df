//! The board, behind its turnstile.
ghost use Rattle.std.specs.Prelude.{All, IfOk, false, length, ◌<◌, ◌≡◌, ◌≤◌};
ghost use Rattle.job_board.specs.Calls.{IsFirstBoardPass};
ghost use Rattle.turnstile.specs.Passes.{fresh_pass};

use crate::posts::Posts;
use base::Bell;
use exact_ratio::Items;
use std::alloc::{AllocError, Global};
use std::sync::Wait;
use turnstile::{Chest, Entry, Pass, Turnstile};

/// A place at a board: who has it may submit jobs, run them, look at them and stop them.
pub type BoardPass = Pass<Posts>;

/// The jobs of a server behind a turnstile.
#[derive(Drop)]
pub struct Board {
    pub turnstile: Turnstile<Posts>,
    /// Rung where a job was submitted, for who runs jobs.
    pub(crate) came: Bell,
}

/// A board, and passes of it.
#[derive(Drop)]
pub struct BoardEntry {
    pub board: Board,
    pub passes: Items<Pass<Posts>>,
}

/// A turnstile over a chest that isn't told to be sound, and its passes.
fn turnstile_over<C: Chest + Drop>(
    alloc: Global,
    chest: C,
    passes: u32,
) -> Result<Entry<C>, AllocError>
    requires passes { (0 < passes) × (passes ≤ 64) }
    ensures count { IfOk result (λ e. length e.passes ≡ passes) }
    ensures each { IfOk result (λ e. All (λ p. p ≡ fresh_pass C.charter C.book e.turnstile.table chest false) e.passes) }
{
    Turnstile::make(alloc, chest, passes)
}

impl Board {
    /// A board without jobs, with 1 to 64 passes. `AllocError` where memory runs out.
    pub fn make(alloc: Global, passes: u32) -> Result<BoardEntry, AllocError>
        requires passes { (0 < passes) × (passes ≤ 64) }
        ensures count { IfOk result (λ e. length e.passes ≡ passes) }
        ensures each { IfOk result (λ e. All (IsFirstBoardPass e.board.turnstile.table) e.passes) }
    {
        let Entry { turnstile, passes } = turnstile_over(alloc, Posts::new(alloc), passes)?;
        Ok(BoardEntry {
            board: Board {
                turnstile,
                came: Bell::new(),
            },
            passes,
        })
    }

    /// How often a job was submitted, or who waits for one was woken. To be read before the `next` after which the caller may rest.
    pub fn changes(&self) -> u64 {
        self.came.rings()
    }

    /// Sleeps until a job is submitted, unless one was since `heard` was read.
    pub fn rest<R: Wait>(&self, rt: &R, heard: u64) {
        self.came.sleep(rt, heard);
    }

    /// Wakes all that rest.
    pub fn wake<R: Wait>(&self, rt: &R) {
        self.came.ring_all(rt);
    }
}
