//! The hands at the queue of links: what each has put into it and taken from it.
use crossbeam_queue::protocol::{Join, Lesson, Outcome, Protocol, Split};
use std::collections::LinkedList;

/// What a hand has put and taken, and its parts of the right to know what the queue holds. No value of it is made.
pub struct QueueHand<L> {
    pub parts: u64,
    pub put: LinkedList<L>,
    pub taken: LinkedList<L>,
}

/// The rule of the queue: what was put is what was taken and what it holds, however the links are weighed.
pub struct Fair;

impl<L> Protocol<L, QueueHand<L>> for Fair {
    ghost use Rattle.std.specs.Prelude.{[]};
    ghost use Rattle.link_queue.specs.Hands.{IsBalanced, all_parts, hand};

    ghost holds = { IsBalanced };

    ghost first = { hand all_parts [] [] };
}

/// A further hand: it gets one part, and has put and taken nothing.
pub(crate) struct OneMore;

impl<L> Split<QueueHand<L>> for OneMore {
    ghost use Rattle.std.specs.Prelude.{[], ◌-◌};
    ghost use Rattle.link_queue.specs.Hands.{hand};

    ghost left = { λ v. hand (v.parts - 1) v.put v.taken };

    ghost right = { λ v. hand 1 [] [] };
}

/// One hand takes over what another one has put and taken, and its parts.
pub(crate) struct TakesOver;

impl<L> Join<QueueHand<L>> for TakesOver {
    ghost use Rattle.std.specs.Prelude.{[]};
    ghost use Rattle.link_queue.specs.Hands.{hand, with_other};

    ghost both = { with_other };

    ghost spent = { hand 0 [] [] };
}

/// A link is put.
pub(crate) struct Puts;

impl<L> Outcome<L, QueueHand<L>> for Puts {
    ghost use Rattle.std.specs.Prelude.{◌≡◌};
    ghost use Rattle.link_queue.specs.Hands.{with_put};

    ghost then = { λ v link w. w ≡ with_put v link };
}

impl<L> Lesson<L, QueueHand<L>> for Puts {
    ghost use Rattle.std.specs.Prelude.{⊤};

    ghost fact = { λ v links. ⊤ };
}

/// A link is taken. A hand that is alone at the queue knows what it holds.
pub(crate) struct Takes;

impl<L> Outcome<L, QueueHand<L>> for Takes {
    ghost use Rattle.std.specs.Prelude.{◌≡◌};
    ghost use Rattle.link_queue.specs.Hands.{with_taken};

    ghost then = { λ v link w. w ≡ with_taken v link };
}

impl<L> Lesson<L, QueueHand<L>> for Takes {
    ghost use Rattle.link_queue.specs.Hands.{KnowsHeld};

    ghost fact = { KnowsHeld };
}
