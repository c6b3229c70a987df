//! How far a job is.
ghost use Rattle.std.specs.Prelude.{◌≡◌};
ghost use Rattle.job_board.specs.SheetCalls.{AddsUp, IsFinal, IsSettled, StaysEnded, Tells};

use crate::counts::{CANCELLED, UNKEPT};
use crate::hand::Hand;
use crate::sheet::JobSheet;

/// How many places a job has, how many of these are claimed, how many are reported done and failed, how many of those done could not be
/// kept, and whether the job is cancelled.
#[derive(Clone, Copy, PartialEq, Eq)]
pub struct Progress {
    pub places: u64,
    pub claimed: u64,
    pub done: u64,
    pub failed: u64,
    pub unkept: u64,
    pub cancelled: bool,
}

impl JobSheet {
    /// How far the job is: first how many places are done and not kept, then how many failed, then how many are claimed and whether it
    /// is cancelled, each as it stood at a step of its own. After a cancel `claimed` may count one vain claim for each hand.
    pub fn progress(&self, hand: &mut Hand) -> Progress
        requires own { hand.old.sheet ≡ self.now }
        ensures tells { Tells hand.old hand.new result }
        ensures adds_up { AddsUp hand.old hand.new result }
        ensures settled { IsSettled self.now.hands hand.old.seen → IsFinal hand.old.seen result }
        ensures stays { StaysEnded self.now.hands hand.old.seen hand.new.seen }
    {
        let reported = self.counts.read_done(&mut hand.seat);
        let failed = self.counts.read_failed(&mut hand.seat);
        let word = self.counts.read_claims(&mut hand.seat);
        Progress {
            places: self.counts.places,
            claimed: (word % CANCELLED).min(self.counts.places),
            done: reported % UNKEPT,
            failed,
            unkept: reported / UNKEPT,
            cancelled: word >= CANCELLED,
        }
    }
}
