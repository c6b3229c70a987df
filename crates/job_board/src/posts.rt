//! The board as a chest: a turn does one of its commands.
use crate::posted::{Posted, WatchedJob};
use crate::shown::{BoardCommand, BoardNote, BoardReply, BoardShown};
use job_forms::JobKind;
use std::alloc::{AllocError, Global};
use std::marker::Model;
use turnstile::Chest;

/// The jobs of a server. Contracts see which wait, and of all the watches, what they do, and which have ended.
#[derive(Drop)]
pub struct Posts {
    pub(crate) waiting: Vec<Posted>,
    pub(crate) jobs: Vec<WatchedJob>,
    pub(crate) kinds: Vec<JobKind>,
    pub(crate) ends: Vec<bool>,
}

impl Model for Posts {
    ghost use Rattle.std.specs.Prelude.{All, ◌≡◌, ◌≤◌, length, map};
    ghost use Rattle.job_board.specs.Boards.{HasNumber};
    ghost use Rattle.job_board.specs.declared.shown.BoardShown.{BoardShown};

    ghost Value = { BoardShown };

    ghost view = { λ p. record { waiting = p.waiting.items; watches = map (λ j. j.watch) p.jobs.items; kinds = p.kinds.items; ends = p.ends.items } };

    ghost invariant = { λ p. (length p.jobs.items ≤ 1024) × All (HasNumber (length p.jobs.items)) p.waiting.items × (length p.kinds.items ≡ length p.jobs.items) × (length p.ends.items ≡ length p.jobs.items) };
}

impl Chest for Posts {
    ghost use Rattle.std.specs.Prelude.{◌≡◌, ⊤};
    ghost use Rattle.job_board.specs.Boards.{Admits, BoardMayReply, TakesNoMemory, book_of};

    type Command = BoardCommand;

    type Reply = BoardReply;

    type Charter = u64;

    type Shown = BoardShown;

    type Note = BoardNote;

    ghost charter = { λ _. 0 };

    ghost admits = { λ _. Admits };

    ghost keeps_sound = { λ _ _. ⊤ };

    ghost takes_no_memory = { TakesNoMemory };

    ghost sound = { λ _. ⊤ };

    ghost book = { book_of };

    ghost shown = { λ posts. posts };

    ghost as_before = { λ a b. b ≡ a };

    ghost note = { λ command reply before after. record { command = command; reply = reply; before = before; after = after } };

    ghost may_reply = { λ _ _ before after command reply. BoardMayReply before command reply after };

    fn act(&mut self, alloc: Global, command: BoardCommand) -> Result<BoardReply, AllocError> {
        match command {
            BoardCommand::Submit(job, places) => match self.submit(alloc, job, places) {
                Err(fault) => Err(fault),
                Ok(number) => Ok(BoardReply::Submit(number)),
            },
            BoardCommand::Next => Ok(BoardReply::Next(self.next())),
            BoardCommand::Look(number) => Ok(BoardReply::Look(self.look(number))),
            BoardCommand::Stop(number) => Ok(BoardReply::Stop(self.stop(number))),
            BoardCommand::Finish(number, ended) => Ok(BoardReply::Finish(self.finish(
                number, ended,
            ))),
        }
    }

    fn act_plain(&mut self, command: BoardCommand) -> BoardReply {
        match command {
            BoardCommand::Submit(_, _) => unreachable!(),
            BoardCommand::Next => BoardReply::Next(self.next()),
            BoardCommand::Look(number) => BoardReply::Look(self.look(number)),
            BoardCommand::Stop(number) => BoardReply::Stop(self.stop(number)),
            BoardCommand::Finish(number, ended) => BoardReply::Finish(self.finish(number, ended)),
        }
    }

    fn latest(&self) -> u64 {
        self.jobs.len() as u64
    }
}
