//! What each kind of step on the table tells the seat that takes it.
use crate::view::SeatView;
use atomic_table::{Join, Play, Split};

/// A claim: a place is gained, or None is met.
pub struct Claim;

impl Play<(), SeatView> for Claim {
    ghost use Rattle.job_board.specs.Steps.{ClaimedBy};

    ghost then = { λ _. ClaimedBy };
}

/// One more place is reported done.
pub struct ReportDone;

impl Play<(), SeatView> for ReportDone {
    ghost use Rattle.job_board.specs.SheetCalls.{one_done};
    ghost use Rattle.job_board.specs.Steps.{ReportedBy};

    ghost then = { λ _ me _ after. ReportedBy one_done me after };
}

/// One more place is reported done that was not kept.
pub struct ReportUnkept;

impl Play<(), SeatView> for ReportUnkept {
    ghost use Rattle.job_board.specs.SheetCalls.{one_unkept};
    ghost use Rattle.job_board.specs.Steps.{ReportedBy};

    ghost then = { λ _ me _ after. ReportedBy one_unkept me after };
}

/// One more place is reported failed.
pub struct ReportFailed;

impl Play<(), SeatView> for ReportFailed {
    ghost use Rattle.job_board.specs.SheetCalls.{one_failed};
    ghost use Rattle.job_board.specs.Steps.{ReportedBy};

    ghost then = { λ _ me _ after. ReportedBy one_failed me after };
}

/// The job is cancelled.
pub struct Cancel;

impl Play<(), SeatView> for Cancel {
    ghost use Rattle.job_board.specs.Steps.{CancelledBy};

    ghost then = { λ _ me _ after. CancelledBy me after };
}

/// A load of the claim word.
pub struct ReadClaims;

impl Play<(), SeatView> for ReadClaims {
    ghost use Rattle.job_board.specs.Views.{claim_word};
    ghost use Rattle.job_board.specs.Steps.{ReadBy};

    ghost then = { λ _. ReadBy claim_word };
}

/// A load of the numbers of places reported done, and not kept.
pub struct ReadDone;

impl Play<(), SeatView> for ReadDone {
    ghost use Rattle.job_board.specs.Views.{done_word};
    ghost use Rattle.job_board.specs.Steps.{ReadBy};

    ghost then = { λ _. ReadBy done_word };
}

/// A load of the number of places reported failed.
pub struct ReadFailed;

impl Play<(), SeatView> for ReadFailed {
    ghost use Rattle.job_board.specs.Standings.{failed_count};
    ghost use Rattle.job_board.specs.Steps.{ReadBy};

    ghost then = { λ _. ReadBy failed_count };
}

/// A split that deals out one more hand.
pub struct DealHand;

impl Split<SeatView> for DealHand {
    ghost use Rattle.job_board.specs.Views.{dealt_to, one_less};

    ghost left = { one_less };

    ghost right = { dealt_to };
}

/// A split into a hand and a note of what it knows.
pub struct TakeNote;

impl Split<SeatView> for TakeNote {
    ghost use Rattle.job_board.specs.Views.{note_of};

    ghost left = { λ v. v };

    ghost right = { note_of };
}

/// A join, by which a hand hears a note.
pub struct HearNote;

impl Join<SeatView> for HearNote {
    ghost use Rattle.job_board.specs.Views.{hearing, spent};

    ghost both = { hearing };

    ghost spent = { spent };
}
