//! A sheet: how it is dealt out, claimed from, reported to and gathered.
ghost use Rattle.std.specs.Prelude.{◌≡◌, ◌≤◌, ◌<◌, IfOk, None, IfNone, IfSome, Contains, List};
ghost use Rattle.job_board.specs.Hands.{AreFresh, fresh_holding, MayClaim, MayReport, AreApart, HasGathered, SheetHolding, own, watching};
ghost use Rattle.job_board.specs.Seats.{IsDealer};
ghost use Rattle.job_board.specs.SheetCalls.{Cancels, Claims, MeetsNone, ReportsDone, ReportsFailed, ReportsUnkept, StaysEnded, Gathers, ShareOut, claimed_by};
ghost use Rattle.job_board.specs.declared.standing.HandEnd.TheVariants.{AllClaimed};

use crate::counts::SheetCounts;
use crate::hand::Hand;
use crate::view::SeatView;
use atomic_table::Seat;
use base::Trace;
use std::alloc::{AllocError, Global};
use std::marker::Model;

/// The places of one job, which hands claim from any threads.
///
/// Contracts see it as the record of its table, its number of places and its number of hands.
#[derive(Drop)]
pub struct JobSheet {
    pub(crate) counts: SheetCounts,
}

impl Model for JobSheet {
    ghost use Rattle.job_board.specs.Hands.{Sheet};

    ghost Value = { Sheet };

    ghost view = { λ s. record { table = s.counts.table.shared.table_id; places = s.counts.places; hands = s.counts.hands } };
}

impl JobSheet {
    /// How many places the job has: at most 10,000,000.
    pub fn places(&self) -> u64
        ensures value { result ≡ self.now.places }
        ensures bound { result ≤ 10000000 }
    {
        self.counts.places
    }
}

/// A new sheet with all its hands, in the order of their numbers, and its watch.
#[derive(Drop)]
pub struct Desk {
    pub sheet: JobSheet,
    pub hands: Vec<Hand>,
    pub watch: Hand,
}

/// All hands of a new sheet, from its first seat.
fn deal_out(
    alloc: Global,
    sheet: &JobSheet,
    seat: &mut Seat<(), SeatView>,
) -> Result<Vec<Hand>, AllocError>
    requires dealer { IsDealer sheet.now 0 seat.old }
    ensures dealer { IfOk result (λ _. IsDealer sheet.now sheet.now.hands seat.new) }
    ensures fresh { IfOk result (λ hands. AreFresh sheet.now hands.items) }
{
    let count = sheet.counts.hands;
    let mut hands = Vec::with_capacity(alloc, count as usize)?;
    let mut dealt = 0;
    'dealing: while dealt < count {
        hands.push(Hand::of(sheet.counts.deal(seat)))?;
        dealt += 1;
    }
    Ok(hands)
}

impl JobSheet {
    /// A sheet of so many places, at most 10,000,000, with 1 to 63 hands and a watch. Nothing is claimed.
    pub fn make(alloc: Global, places: u64, hands: u32) -> Result<Desk, AllocError>
        requires places { places ≤ 10000000 }
        requires hands { (0 < hands) × (hands ≤ 63) }
        ensures size { IfOk result (λ d. (d.sheet.places ≡ places) × (d.sheet.hands ≡ hands)) }
        ensures hands { IfOk result (λ d. AreFresh d.sheet d.hands.items) }
        ensures watch { IfOk result (λ d. d.watch ≡ fresh_holding d.sheet None) }
    {
        let (counts, seat) = SheetCounts::of(alloc, places, u64::from(hands))?;
        let mut seat = seat;
        let sheet = JobSheet { counts };
        let hands = deal_out(alloc, &sheet, &mut seat)?;
        Ok(Desk {
            sheet,
            hands,
            watch: Hand::of(seat),
        })
    }

    /// Claims the next place for a hand that has not met None. None comes exactly where all places were claimed or the job
    /// was cancelled, and the hand has then met it.
    pub fn claim(&self, hand: &mut Hand) -> Option<u64>
        requires own { hand.old.sheet ≡ self.now }
        requires open { MayClaim hand.old }
        ensures some { IfSome result (λ place. Claims hand.old hand.new place) }
        ensures none { IfNone result (MeetsNone hand.old hand.new) }
    {
        let word = self.counts.claim(&mut hand.seat);
        if word < self.counts.places {
            Some(word)
        } else {
            None
        }
    }

    /// Reports a place done that the hand has claimed and not reported.
    pub fn done(&self, hand: &mut Hand, place: u64)
        requires own { hand.old.sheet ≡ self.now }
        requires unreported { MayReport hand.old place }
        ensures { ReportsDone hand.old hand.new place }
    {
        self.counts.report_done(&mut hand.seat);
        hand.done = hand.done.and(&place);
    }

    /// Reports a place done that the hand has claimed and not reported, of which nothing could be kept.
    pub fn unkept(&self, hand: &mut Hand, place: u64)
        requires own { hand.old.sheet ≡ self.now }
        requires unreported { MayReport hand.old place }
        ensures { ReportsUnkept hand.old hand.new place }
    {
        self.counts.report_unkept(&mut hand.seat);
        hand.done = hand.done.and(&place);
    }

    /// Reports a place failed that the hand has claimed and not reported.
    pub fn failed(&self, hand: &mut Hand, place: u64)
        requires own { hand.old.sheet ≡ self.now }
        requires unreported { MayReport hand.old place }
        ensures { ReportsFailed hand.old hand.new place }
    {
        self.counts.report_failed(&mut hand.seat);
        hand.failed = hand.failed.and(&place);
    }

    /// Cancels the job: no place is claimed any more. Only the watch may do so, and no hand that claims places.
    pub fn cancel(&self, hand: &mut Hand)
        requires own { hand.old.sheet ≡ self.now }
        requires watch { hand.old.number ≡ None }
        ensures cancels { Cancels hand.old hand.new }
        ensures stays { StaysEnded self.now.hands hand.old.seen hand.new.seen }
    {
        self.counts.cancel(&mut hand.seat);
    }

    /// A further watch of the sheet, which has seen all that a hand has: what the hand claimed and reported, among this, and that of each
    /// hand which it has gathered.
    pub fn watch_from(&self, hand: &mut Hand) -> Hand
        requires own { hand.old.sheet ≡ self.now }
        ensures watch { result ≡ watching self.now hand.old.seen }
        ensures same { hand.new ≡ hand.old }
    {
        let seat = self.counts.note(&mut hand.seat);
        Hand {
            seat,
            done: Trace::new(),
            failed: Trace::new(),
        }
    }

    /// One hand is told all that another one has seen: what that one has claimed, and whether it has met None, among this.
    pub fn gather(&self, into: &mut Hand, of: &mut Hand)
        requires own { (into.old.sheet ≡ self.now) × (of.old.sheet ≡ self.now) }
        ensures gathered { Gathers into.old of.old into.new }
        ensures apart { AreApart into.old of.old }
        ensures same { of.new ≡ of.old }
    {
        let note = self.counts.note(&mut of.seat);
        self.counts.hear(&mut into.seat, note);
    }

    /// What a hand knows that gathered all hands of its sheet after each had met None: their places are those below how
    /// many they are, each claimed by one of them, once. Where one of them met None since all places were claimed, they are
    /// all places. It does nothing.
    pub fn all_claimed(&self, hand: &Hand)
        requires own { hand.now.sheet ≡ self.now }
        ensures shared { (hands : List SheetHolding) → HasGathered hand.now hands → ShareOut self.now.places hands }
        ensures all { (hands : List SheetHolding) (h : SheetHolding) → HasGathered hand.now hands → Contains hands h → (own h).end ≡ AllClaimed → claimed_by hands ≡ self.now.places }
    {
        let _seat = &hand.seat;
    }
}
