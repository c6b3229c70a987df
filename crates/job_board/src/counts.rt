//! The three words of a sheet, and the steps on them.
ghost use Rattle.std.specs.Prelude.{◌≡◌, ◌≢◌, ◌<◌, ◌≤◌, true, [], None, IfOk};
ghost use Rattle.job_board.specs.Hands.{own_of};
ghost use Rattle.job_board.specs.SheetCalls.{one_done, one_failed, one_unkept};
ghost use Rattle.job_board.specs.Standings.{failed_count};
ghost use Rattle.job_board.specs.Steps.{CancelledBy, ClaimedBy, HasSeatNumber, HasUnreported, HeardBy, ReadBy, ReportedBy};
ghost use Rattle.job_board.specs.Views.{claim_word, dealer, dealt_to, done_word, note_of, one_less};
ghost use Rattle.job_board.specs.declared.standing.HandEnd.TheVariants.{Open};

use crate::plays::{
    Cancel, Claim, DealHand, HearNote, ReadClaims, ReadDone, ReadFailed, ReportDone, ReportFailed,
    ReportUnkept, TakeNote,
};
use crate::view::{OneStanding, SeatView, SheetSize};
use atomic_table::{Seat, Table};
use std::alloc::{AllocError, Global};

/// The mark of a cancelled job in the claim word. Every count is below it.
pub const CANCELLED: u64 = 0x8000_0000_0000_0000;

/// What counts one place that was not kept, in the word of the places done, which is above the number of those.
pub const UNKEPT: u64 = 0x1_0000_0000;

/// The table with the three words, and its size.
#[derive(Drop)]
pub struct SheetCounts {
    pub table: Table<(), SeatView, SheetSize, OneStanding, Global>,
    pub places: u64,
    pub hands: u64,
    ghost sized: { (table.shared.table_id.words ≡ 3) × (table.shared.table_id.slots ≡ 0) },
    ghost keyed: { (table.shared.key.places ≡ places) × (table.shared.key.hands ≡ hands) },
    ghost bounded: { (places ≤ 10000000) × (hands ≤ 63) },
}

impl SheetCounts {
    /// The table of a new sheet with its first seat, which has dealt out no hand.
    pub fn of(
        alloc: Global,
        places: u64,
        hands: u64,
    ) -> Result<(SheetCounts, Seat<(), SeatView>), AllocError>
        requires places { places ≤ 10000000 }
        requires hands { hands ≤ 63 }
        ensures size { IfOk result (λ t. (t.0.places ≡ places) × (t.0.hands ≡ hands)) }
        ensures seat { IfOk result (λ t. (t.1.table_id ≡ t.0.table.shared.table_id) × (t.1.me ≡ (dealer (record { places = places; hands = hands }) 0, []))) }
    {
        let size = SheetSize { places, hands };
        let (table, seat) = Table::of_words(alloc, &[0, 0, 0], &size)?;
        Ok((
            SheetCounts {
                table,
                places,
                hands,
            },
            seat,
        ))
    }

    /// Deals out the seat of the next hand.
    pub fn deal(&self, seat: &mut Seat<(), SeatView>) -> Seat<(), SeatView>
        requires own { seat.old.table_id ≡ self.now.table.shared.table_id }
        requires some { (seat.old.me.0.number ≡ None) × (seat.old.me.0.dealt < seat.old.me.0.hands) }
        ensures own { (seat.new.table_id ≡ seat.old.table_id) × (result.table_id ≡ seat.old.table_id) }
        ensures left { seat.new.me ≡ (one_less seat.old.me.0, seat.old.me.1) }
        ensures dealt { result.me ≡ (dealt_to seat.old.me.0, []) }
    {
        self.table.shared.split_seat::<DealHand>(seat)
    }

    /// Claims the next place, and answers the claim word that it found.
    pub fn claim(&self, seat: &mut Seat<(), SeatView>) -> u64
        requires own { seat.old.table_id ≡ self.now.table.shared.table_id }
        requires live { seat.old.me.0.live ≡ true }
        requires hand { HasSeatNumber seat.old.me.0 }
        requires open { (own_of seat.old.me.0.number seat.old.me.0.seen).end ≡ Open }
        ensures own { seat.new.table_id ≡ seat.old.table_id }
        ensures claimed { ClaimedBy seat.old.me result seat.new.me }
    {
        self.table.shared.fetch_add::<Claim>(seat, 0, 1)
    }

    /// Reports one more place done.
    pub fn report_done(&self, seat: &mut Seat<(), SeatView>)
        requires own { seat.old.table_id ≡ self.now.table.shared.table_id }
        requires live { seat.old.me.0.live ≡ true }
        requires hand { HasSeatNumber seat.old.me.0 }
        requires unreported { HasUnreported seat.old.me.0 }
        ensures own { seat.new.table_id ≡ seat.old.table_id }
        ensures reported { ReportedBy one_done seat.old.me seat.new.me }
    {
        self.table.shared.fetch_add::<ReportDone>(seat, 1, 1);
    }

    /// Reports one more place done, which was not kept.
    pub fn report_unkept(&self, seat: &mut Seat<(), SeatView>)
        requires own { seat.old.table_id ≡ self.now.table.shared.table_id }
        requires live { seat.old.me.0.live ≡ true }
        requires hand { HasSeatNumber seat.old.me.0 }
        requires unreported { HasUnreported seat.old.me.0 }
        ensures own { seat.new.table_id ≡ seat.old.table_id }
        ensures reported { ReportedBy one_unkept seat.old.me seat.new.me }
    {
        self.table
            .shared
            .fetch_add::<ReportUnkept>(seat, 1, 0x1_0000_0001);
    }

    /// Reports one more place failed.
    pub fn report_failed(&self, seat: &mut Seat<(), SeatView>)
        requires own { seat.old.table_id ≡ self.now.table.shared.table_id }
        requires live { seat.old.me.0.live ≡ true }
        requires hand { HasSeatNumber seat.old.me.0 }
        requires unreported { HasUnreported seat.old.me.0 }
        ensures own { seat.new.table_id ≡ seat.old.table_id }
        ensures reported { ReportedBy one_failed seat.old.me seat.new.me }
    {
        self.table.shared.fetch_add::<ReportFailed>(seat, 2, 1);
    }

    /// Cancels the job.
    pub fn cancel(&self, seat: &mut Seat<(), SeatView>)
        requires own { seat.old.table_id ≡ self.now.table.shared.table_id }
        requires live { seat.old.me.0.live ≡ true }
        ensures own { seat.new.table_id ≡ seat.old.table_id }
        ensures cancelled { CancelledBy seat.old.me seat.new.me }
    {
        self.table.shared.fetch_or::<Cancel>(seat, 0, CANCELLED);
    }

    /// Reads the claim word.
    pub fn read_claims(&self, seat: &mut Seat<(), SeatView>) -> u64
        requires own { seat.old.table_id ≡ self.now.table.shared.table_id }
        requires live { seat.old.me.0.live ≡ true }
        ensures own { seat.new.table_id ≡ seat.old.table_id }
        ensures read { ReadBy claim_word seat.old.me result seat.new.me }
    {
        self.table.shared.load::<ReadClaims>(seat, 0)
    }

    /// Reads how many places are reported done, and how many of these were not kept.
    pub fn read_done(&self, seat: &mut Seat<(), SeatView>) -> u64
        requires own { seat.old.table_id ≡ self.now.table.shared.table_id }
        requires live { seat.old.me.0.live ≡ true }
        ensures own { seat.new.table_id ≡ seat.old.table_id }
        ensures read { ReadBy done_word seat.old.me result seat.new.me }
    {
        self.table.shared.load::<ReadDone>(seat, 1)
    }

    /// Reads how many places are reported failed.
    pub fn read_failed(&self, seat: &mut Seat<(), SeatView>) -> u64
        requires own { seat.old.table_id ≡ self.now.table.shared.table_id }
        requires live { seat.old.me.0.live ≡ true }
        ensures own { seat.new.table_id ≡ seat.old.table_id }
        ensures read { ReadBy failed_count seat.old.me result seat.new.me }
    {
        self.table.shared.load::<ReadFailed>(seat, 2)
    }

    /// A note of what a seat knows, for another one to hear.
    pub fn note(&self, seat: &mut Seat<(), SeatView>) -> Seat<(), SeatView>
        requires own { seat.old.table_id ≡ self.now.table.shared.table_id }
        ensures own { (seat.new.table_id ≡ seat.old.table_id) × (result.table_id ≡ seat.old.table_id) }
        ensures same { seat.new.me ≡ seat.old.me }
        ensures noted { result.me ≡ (note_of seat.old.me.0, []) }
    {
        self.table.shared.split_seat::<TakeNote>(seat)
    }

    /// Takes in what a note says.
    pub fn hear(&self, seat: &mut Seat<(), SeatView>, note: Seat<(), SeatView>)
        requires own { (seat.old.table_id ≡ self.now.table.shared.table_id) × (note.table_id ≡ self.now.table.shared.table_id) × (note.me.1 ≡ []) }
        requires live { seat.old.me.0.live ≡ true }
        ensures own { seat.new.table_id ≡ seat.old.table_id }
        ensures heard { HeardBy seat.old.me note.me seat.new.me }
    {
        self.table.shared.join_seat::<HearNote>(seat, note);
        self.table.shared.load::<ReadClaims>(seat, 0);
    }
}
