//! A hand.
ghost use Rattle.std.specs.Prelude.{◌≡◌, ◌<◌, ◌≤◌, ℕ, [], Some, length};
ghost use Rattle.job_board.specs.Hands.{AreReports, fresh_holding, fresh_standing, own};
ghost use Rattle.job_board.specs.Seats.{IsHand, sheet_of};
ghost use Rattle.job_board.specs.Standings.{IsSound};

use crate::view::SeatView;
use atomic_table::Seat;
use base::Trace;
use std::marker::Model;

/// Who has it may claim places of its sheet and report them. The watch is a hand without a number, which claims none.
///
/// Contracts see it as the record of its sheet, its number, how the sheet stood at its last step, and the places that it
/// reported done and failed.
#[derive(Drop)]
pub struct Hand {
    pub(crate) seat: Seat<(), SeatView>,
    pub(crate) done: Trace<u64>,
    pub(crate) failed: Trace<u64>,
}

impl Model for Hand {
    ghost use Rattle.job_board.specs.Hands.{SheetHolding};
    ghost use Rattle.job_board.specs.Seats.{IsHand, holding_of};

    ghost Value = { SheetHolding };

    ghost view = { λ h. holding_of h.seat h.done.entries h.failed.entries };

    ghost invariant = { λ h. IsHand h.seat.me h.done.entries h.failed.entries };
}

impl Hand {
    /// What is true of every hand. It does nothing.
    pub fn laws(&self)
        ensures number { (number : ℕ) → self.now.number ≡ Some number → number < self.now.sheet.hands }
        ensures sound { IsSound self.now.sheet.places self.now.sheet.hands self.now.seen }
        ensures within { length (own self.now).claimed ≤ self.now.sheet.places }
        ensures reports { AreReports (own self.now) self.now.done self.now.failed }
    {
        let _seat = &self.seat;
    }

    /// The hand of a new seat.
    pub(crate) fn of(seat: Seat<(), SeatView>) -> Hand
        requires hand { IsHand seat.me [] [] }
        requires fresh { seat.me.0.seen ≡ fresh_standing seat.me.0.hands }
        ensures { result ≡ fresh_holding (sheet_of seat) seat.me.0.number }
    {
        Hand {
            seat,
            done: Trace::new(),
            failed: Trace::new(),
        }
    }
}
