//! The table of a turnstile: what lies in its one slot, what each seat knows, and the rule that ties them.
//!
//! The table has one word, which is 0 while the chest is home and 1 while a pass has it out.
use crate::chest::Chest;
use crate::start::Start;
use atomic_table::TableRule;
use base::Trace;
use std::collections::LinkedList;
use std::marker::PhantomData;
use truncation_list::FrontedBook;

/// The chest as it lies in the slot. A step on the table cannot know which command was done, so contracts find it here,
/// with its reply, which is absent where there was no memory for the command.
#[derive(Drop)]
pub struct Lodged<C, M, R> {
    pub chest: C,
    pub asked: Trace<M>,
    pub answered: Trace<R>,
}

/// What is known of the chest: its charter, whether it was told to be sound, and the book that was seen. No value of it
/// is made.
pub struct Known<H> {
    pub charter: Option<H>,
    pub told: bool,
    pub book: FrontedBook,
}

/// What a pass keeps of one turn: the note, and the books that the turn found and left. No value of it is made.
pub struct Made<N> {
    pub note: N,
    pub found: FrontedBook,
    pub left: FrontedBook,
}

/// Whether a seat has the turn, and then the chest that it found. No value of it is made.
pub enum TurnStage<C> {
    Idle,
    Out(C),
}

/// What a seat knows. No value of it is made.
///
/// A seat is `live` until it is joined into another one. Its `parts` count the passes that it stands for: 1 for each
/// pass, and 0 for a copy that is made to be told to another pass. What it `heard` is taken in by a later load. It `made` turns
/// itself, and `gathered` those of seats that were joined into it.
pub struct View<C, H, N> {
    pub live: bool,
    pub parts: u64,
    pub own: Known<H>,
    pub heard: Known<H>,
    pub made: LinkedList<Made<N>>,
    pub gathered: LinkedList<Made<N>>,
    pub stage: TurnStage<C>,
}

/// What a table is made with: its start, and how many passes there will be.
#[derive(Drop)]
pub struct Opening<C> {
    pub start: Start<C>,
    pub passes: u64,
}

/// The rule of the table: one chest, of which all seats know.
pub struct OneChest<C> {
    of: PhantomData<C>,
}

impl<C: Chest> TableRule<
    Option<Lodged<C, C::Command, C::Reply>>,
    View<C, C::Charter, C::Note>,
    Opening<C>,
> for OneChest<C> {
    ghost use Rattle.turnstile.specs.Rule.{Kept};
    ghost use Rattle.turnstile.specs.Views.{first_view};

    ghost holds = { λ key. Kept C.charter C.book C.sound key.passes };

    ghost first = { λ key. first_view C.charter C.book key };
}
