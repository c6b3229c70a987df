//! The calls of a board, one turn each.
ghost use Rattle.std.specs.Prelude.{◌≡◌};
ghost use Rattle.job_board.specs.Boards.{MaySubmit};
ghost use Rattle.job_board.specs.Calls.{IsBoardPass, MakesOne, SubmitsJob};
ghost use Rattle.job_board.specs.SheetCalls.{IsSettled};

use crate::board::Board;
use crate::fault::BoardFault;
use crate::posted::{Posted, WatchedJob};
use crate::posts::Posts;
use crate::shown::{BoardCommand, BoardReply};
use crate::status::JobStatus;
use job_forms::Job;
use std::alloc::Global;
use std::sync::Wait;
use turnstile::Pass;

impl Board {
    /// Submits a job of so many places, and answers its number, from 1. `Full` exactly where the turn found 64 jobs waiting or 1,024
    /// submitted; `OutOfMemory` where memory runs out, and then there is no turn. Who waits for a job is woken.
    #[tactic(auto, using(crate::proofs::Over::keeps_over))]
    pub fn submit<R: Wait>(
        &self,
        rt: &R,
        alloc: Global,
        pass: &mut Pass<Posts>,
        job: Job,
        places: u64,
    ) -> Result<u64, BoardFault>
        requires of { IsBoardPass self.now.turnstile.table pass.old }
        requires job { MaySubmit job places }
        ensures submits { SubmitsJob pass.old pass.new job places result }
        ensures of { IsBoardPass self.now.turnstile.table pass.new }
    {
        match self
            .turnstile
            .turn(rt, alloc, pass, BoardCommand::Submit(job, places))
        {
            Err(_) => Err(BoardFault::OutOfMemory),
            Ok(BoardReply::Submit(None)) => Err(BoardFault::Full),
            Ok(BoardReply::Submit(Some(number))) => {
                self.wake(rt);
                Ok(number)
            }
            Ok(_) => unreachable!(),
        }
    }

    /// The job that has waited longest; none exactly where the turn found none waiting. It takes no memory.
    #[tactic(auto, using(crate::proofs::Over::keeps_over))]
    pub fn next<R: Wait>(&self, rt: &R, pass: &mut Pass<Posts>) -> Option<Posted>
        requires of { IsBoardPass self.now.turnstile.table pass.old }
        ensures next { MakesOne pass.old pass.new BoardCommand.Next (BoardReply.Next result) }
        ensures of { IsBoardPass self.now.turnstile.table pass.new }
    {
        match self.turnstile.turn_plain(rt, pass, BoardCommand::Next) {
            BoardReply::Next(posted) => posted,
            _ => unreachable!(),
        }
    }

    /// Where the job of a number stands, and how far it is; none exactly where the number is 0 or above the number of jobs that the turn found. It takes no
    /// memory.
    #[tactic(auto, using(crate::proofs::Over::keeps_over))]
    pub fn look<R: Wait>(&self, rt: &R, pass: &mut Pass<Posts>, number: u64) -> Option<JobStatus>
        requires of { IsBoardPass self.now.turnstile.table pass.old }
        ensures look { MakesOne pass.old pass.new (BoardCommand.Look number) (BoardReply.Look result) }
        ensures of { IsBoardPass self.now.turnstile.table pass.new }
    {
        match self
            .turnstile
            .turn_plain(rt, pass, BoardCommand::Look(number))
        {
            BoardReply::Look(status) => status,
            _ => unreachable!(),
        }
    }

    /// Cancels the job of a number; false exactly where the number is 0 or above the number of jobs that the turn found. It takes no
    /// memory.
    #[tactic(auto, using(crate::proofs::Over::keeps_over))]
    pub fn stop<R: Wait>(&self, rt: &R, pass: &mut Pass<Posts>, number: u64) -> bool
        requires of { IsBoardPass self.now.turnstile.table pass.old }
        ensures stop { MakesOne pass.old pass.new (BoardCommand.Stop number) (BoardReply.Stop result) }
        ensures of { IsBoardPass self.now.turnstile.table pass.new }
    {
        match self
            .turnstile
            .turn_plain(rt, pass, BoardCommand::Stop(number))
        {
            BoardReply::Stop(is_stopped) => is_stopped,
            _ => unreachable!(),
        }
    }

    /// Tells the board that the job of a number has ended, by a watch of its sheet that has seen all that its hands did: each later look at
    /// the job tells these numbers of places done, failed and not kept. False exactly where the number is 0 or above the number of jobs that the turn
    /// found. It takes no memory.
    #[tactic(auto, using(crate::proofs::Over::keeps_over))]
    pub fn finish<R: Wait>(
        &self,
        rt: &R,
        pass: &mut Pass<Posts>,
        number: u64,
        ended: WatchedJob,
    ) -> bool
        requires of { IsBoardPass self.now.turnstile.table pass.old }
        requires ended { IsSettled ended.watch.sheet.hands ended.watch.seen }
        ensures finish { MakesOne pass.old pass.new (BoardCommand.Finish number ended) (BoardReply.Finish result) }
        ensures of { IsBoardPass self.now.turnstile.table pass.new }
    {
        match self
            .turnstile
            .turn_plain(rt, pass, BoardCommand::Finish(number, ended))
        {
            BoardReply::Finish(is_finished) => is_finished,
            _ => unreachable!(),
        }
    }
}
