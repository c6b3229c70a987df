//! What a cabinet shows between two turns, and the note of a turn, for contracts alone.
ghost use Rattle.std.specs.Borrow.{ftrue};
ghost use Rattle.cabinet.specs.State.{State};

use crate::command::{Command, Reply};
use std::marker::Model;

/// How often the disk of a cabinet has failed, and the state of the cabinet, which proofs alone read. No value of it is made.
pub struct Shown {
    pub faults: u64,
    pub ghost state: { State },
}

impl Model for Shown {
    ghost also_owns = { λ _. ftrue };
}

// It owns nothing beside a number.
unsafe impl Send for Shown {}

/// A command, its reply, and what the cabinet showed before and after. No value of it is made.
pub struct Note {
    pub command: Command,
    pub reply: Reply,
    pub before: Shown,
    pub after: Shown,
}
