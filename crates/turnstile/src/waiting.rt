//! How passes wait for their turn: none of it is promised, and no clause speaks of it.
//!
//! A pass looks for its turn for a while, then sleeps until a turn ends, and looks for as long again. One that has slept so often in vain
//! has the next turn left to it: a pass that has not slept does not try for it then. So who makes turn after turn, as for a disk that is
//! slow, keeps no other one out. Where nobody sleeps this costs one load a turn.
use base::Bell;
use std::sync::Wait;
use std::sync::atomic::{AtomicU64, Ordering};

/// How often a pass looks for its turn before it sleeps. A turn without a disk takes less than a microsecond.
pub const LOOKS: u32 = 100;

/// After how many sleeps the turn is left to a pass.
const SLEEPS: u32 = 2;

/// Those that wait for their turn.
#[derive(Drop)]
pub struct WaitingRoom {
    /// Rung at the end of each turn.
    ended: Bell,
    /// To how many the turn is left.
    favoured: AtomicU64,
}

/// How long one has waited.
#[derive(Clone, Copy, PartialEq, Eq)]
pub struct Patience {
    /// How often it has looked since it slept.
    pub looks: u32,
    sleeps: u32,
}

impl Patience {
    /// That of one who comes.
    pub fn new() -> Patience {
        Patience {
            looks: 0,
            sleeps: 0,
        }
    }
}

impl WaitingRoom {
    /// A room in which nobody waits.
    pub fn new() -> WaitingRoom {
        WaitingRoom {
            ended: Bell::new(),
            favoured: AtomicU64::new(0),
        }
    }

    /// How many turns have ended. To be read before the try after which the caller may sleep.
    pub fn ended_turns(&self) -> u64 {
        self.ended.rings()
    }

    /// Whether one who has waited so long may try for the turn: the turn is left to nobody else, or it has slept itself.
    pub fn may_try(&self, patience: &Patience) -> bool {
        patience.sleeps > 0 || self.favoured.load(Ordering::SeqCst) == 0
    }

    /// Sleeps until a turn ends, unless one has since `heard` was read.
    pub fn sleep<R: Wait>(&self, rt: &R, patience: &mut Patience, heard: u64) {
        self.ended.sleep(rt, heard);
        patience.looks = 0;
        if patience.sleeps < SLEEPS {
            patience.sleeps += 1;
            if patience.sleeps == SLEEPS {
                self.favoured.fetch_add(1, Ordering::SeqCst);
            }
        }
    }

    /// Notes that one who has waited so long has its turn.
    pub fn leave(&self, patience: &Patience) {
        if patience.sleeps >= SLEEPS {
            self.favoured.fetch_sub(1, Ordering::SeqCst);
        }
    }

    /// Wakes one that sleeps, at the end of a turn.
    pub fn wake_one<R: Wait>(&self, rt: &R) {
        self.ended.ring_one(rt);
    }
}
