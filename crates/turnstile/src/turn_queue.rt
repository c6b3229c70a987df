//! The moves on the table of a turnstile: take the chest, give it back, hear of another seat, and close.
ghost use Rattle.std.specs.Prelude.{◌≡◌, ◌+◌, ◌<◌, true, [], ◌∷◌, IfOk, None};
ghost use Rattle.turnstile.specs.Line.{IsLine};
ghost use Rattle.turnstile.specs.Passes.{IsReady, MayReturn, knows};
ghost use Rattle.turnstile.specs.Steps.{Found, HeardBy};
ghost use Rattle.turnstile.specs.Views.{after_turn, first_view, newcomer, notes, one_less, turns_in};
ghost use Rattle.turnstile.specs.declared.view.TurnStage.TheVariants.{Idle, Out};

use crate::chest::Chest;
use crate::steps::{Deal, Give, Hear, Learn, Take, Tell};
use crate::view::{Lodged, OneChest, Opening, View};
use crate::waiting::{LOOKS, Patience, WaitingRoom};
use atomic_table::{Seat, Table};
use base::Trace;
use std::alloc::{AllocError, Global};
use std::hint;
use std::sync::Wait;

/// The table with the chest, and those that wait for their turn.
#[derive(Drop)]
pub struct TurnQueue<C: Chest> {
    pub table: Table<
        Option<Lodged<C, C::Command, C::Reply>>,
        View<C, C::Charter, C::Note>,
        Opening<C>,
        OneChest<C>,
        Global,
    >,
    pub passes: u64,
    pub waiting: WaitingRoom,
    ghost sized: { (table.shared.table_id.words ≡ 1) × (table.shared.table_id.slots ≡ 1) },
    ghost counted: { (table.shared.key.passes ≡ passes) × (0 < passes) },
}

impl<C: Chest + Drop> TurnQueue<C> {
    /// The table with its first seat, which has the parts of all passes.
    pub fn open(
        alloc: Global,
        chest: C,
        opening: &Opening<C>,
    ) -> Result<
        (
            TurnQueue<C>,
            Seat<Option<Lodged<C, C::Command, C::Reply>>, View<C, C::Charter, C::Note>>,
        ),
        AllocError,
    >
        requires passes { 0 < opening.now.passes }
        requires chest { opening.now.start.chest ≡ chest }
        requires sound { opening.now.start.told ≡ true → C.sound chest }
        ensures { IfOk result (λ t. (t.0.passes ≡ opening.now.passes) × (t.1.table_id ≡ t.0.table.shared.table_id) × (t.1.me ≡ (first_view C.charter C.book opening.now, []))) }
    {
        let mut slots = Vec::with_capacity(alloc, 1)?;
        slots.push(Some(Lodged {
            chest,
            asked: Trace::new(),
            answered: Trace::new(),
        }))?;
        match Table::new(alloc, &[0], slots, opening) {
            Ok((table, seat)) => Ok((
                TurnQueue {
                    table,
                    passes: opening.passes,
                    waiting: WaitingRoom::new(),
                },
                seat,
            )),
            Err(_) => Err(AllocError),
        }
    }
}

impl<C: Chest> TurnQueue<C> {
    /// Deals out a seat for one pass.
    pub fn deal(
        &self,
        seat: &mut Seat<Option<Lodged<C, C::Command, C::Reply>>, View<C, C::Charter, C::Note>>,
    ) -> Seat<Option<Lodged<C, C::Command, C::Reply>>, View<C, C::Charter, C::Note>>
        requires own { seat.old.table_id ≡ self.now.table.shared.table_id }
        requires ready { ((knows seat.old).stage ≡ Idle) × (0 < (knows seat.old).parts) }
        ensures own { (seat.new.table_id ≡ seat.old.table_id) × (result.table_id ≡ seat.old.table_id) }
        ensures left { seat.new.me ≡ (one_less (knows seat.old), seat.old.me.1) }
        ensures dealt { result.me ≡ (newcomer 1 (knows seat.old), []) }
    {
        self.table.shared.split_seat::<Deal>(seat)
    }

    /// A copy of what a seat knows, for another seat to hear.
    pub fn tell(
        &self,
        seat: &mut Seat<Option<Lodged<C, C::Command, C::Reply>>, View<C, C::Charter, C::Note>>,
    ) -> Seat<Option<Lodged<C, C::Command, C::Reply>>, View<C, C::Charter, C::Note>>
        requires own { seat.old.table_id ≡ self.now.table.shared.table_id }
        requires idle { (knows seat.old).stage ≡ Idle }
        ensures own { (seat.new.table_id ≡ seat.old.table_id) × (result.table_id ≡ seat.old.table_id) }
        ensures same { seat.new.me ≡ seat.old.me }
        ensures told { result.me ≡ (newcomer 0 (knows seat.old), []) }
    {
        self.table.shared.split_seat::<Tell>(seat)
    }

    /// Takes in what another seat knows, with its parts.
    pub fn hear(
        &self,
        seat: &mut Seat<Option<Lodged<C, C::Command, C::Reply>>, View<C, C::Charter, C::Note>>,
        other: Seat<Option<Lodged<C, C::Command, C::Reply>>, View<C, C::Charter, C::Note>>,
    )
        requires own { (seat.old.table_id ≡ self.now.table.shared.table_id) × (other.table_id ≡ self.now.table.shared.table_id) × (other.me.1 ≡ []) }
        requires mine { ((knows seat.old).live ≡ true) × ((knows seat.old).stage ≡ Idle) }
        requires theirs { ((knows other).live ≡ true) × ((knows other).stage ≡ Idle) }
        ensures own { (seat.new.table_id ≡ seat.old.table_id) × (seat.new.me.1 ≡ seat.old.me.1) }
        ensures heard { HeardBy (knows seat.old) (knows other) (knows seat.new) }
    {
        self.table.shared.join_seat::<Hear>(seat, other);
        self.table.shared.load::<Learn>(seat, 0);
    }

    /// Waits for the turn, and takes the chest.
    pub fn take<R: Wait>(
        &self,
        rt: &R,
        seat: &mut Seat<Option<Lodged<C, C::Command, C::Reply>>, View<C, C::Charter, C::Note>>,
    ) -> C
        requires own { seat.old.table_id ≡ self.now.table.shared.table_id }
        requires ready { ((knows seat.old).live ≡ true) × (0 < (knows seat.old).parts) × (seat.old.me.1 ≡ []) }
        ensures own { seat.new.table_id ≡ seat.old.table_id }
        ensures turn { seat.new.me ≡ (record (knows seat.old) { stage = Out result }, (0, None) ∷ []) }
        ensures found { Found C.charter C.sound C.book (knows seat.old).own result }
    {
        let mut patience = Patience::new();
        for _ in rt.forever() {
            let heard = self.waiting.ended_turns();
            if !self.waiting.may_try(&patience) {
                self.wait(rt, &mut patience, heard);
                continue;
            }
            if self.table.shared.compare_exchange::<Take<C>>(seat, 0, 0, 1) == 0 {
                self.waiting.leave(&patience);
                let lodged = self.table.shared.exchange(seat, 0, None).unwrap();
                let Lodged { chest, .. } = lodged;
                return chest;
            }
            self.wait(rt, &mut patience, heard);
        }
        unreachable!()
    }

    /// Looks until the chest is there, or sleeps until a turn ends where it was looked for long enough. A look only reads the word, so
    /// that those who look don't take it from one another's processors.
    fn wait<R: Wait>(&self, rt: &R, patience: &mut Patience, heard: u64) {
        for look in patience.looks..LOOKS {
            patience.looks = look + 1;
            if self.table.shared.peek(0) == 0 {
                return;
            }
            hint::spin_loop();
        }
        self.waiting.sleep(rt, patience, heard);
    }

    /// Puts a chest in, gives the turn up, and wakes one that waits for it.
    pub fn give<R: Wait>(
        &self,
        rt: &R,
        seat: &mut Seat<Option<Lodged<C, C::Command, C::Reply>>, View<C, C::Charter, C::Note>>,
        lodged: Lodged<C, C::Command, C::Reply>,
    )
        requires own { seat.old.table_id ≡ self.now.table.shared.table_id }
        requires turn { (seat.old.me.1 ≡ (0, None) ∷ []) × ((knows seat.old).live ≡ true) }
        requires leaves { MayReturn C.charter C.sound C.book (knows seat.old) lodged.chest }
        ensures own { seat.new.table_id ≡ seat.old.table_id }
        ensures done { (found : C) → (knows seat.old).stage ≡ Out found → seat.new.me ≡ (after_turn (knows seat.old) (C.book lodged.chest) (notes C.book C.shown C.note found lodged.chest lodged.asked.entries lodged.answered.entries), []) }
    {
        let nothing = self.table.shared.exchange(seat, 0, Some(lodged));
        let None = nothing else { unreachable!() };
        self.table.shared.store::<Give<C>>(seat, 0, 0);
        self.waiting.wake_one(rt);
    }

    /// Takes the chest out for good, by a seat that has the parts of all passes.
    pub fn close(
        self,
        seat: Seat<Option<Lodged<C, C::Command, C::Reply>>, View<C, C::Charter, C::Note>>,
    ) -> C
        requires own { seat.table_id ≡ self.table.shared.table_id }
        requires all { IsReady self.passes seat }
        ensures found { Found C.charter C.sound C.book (knows seat).own result }
        ensures line { IsLine (turns_in (knows seat)) }
    {
        let TurnQueue { table, .. } = self;
        let mut closed = table.close_with(seat);
        let slot = closed.take(0);
        closed.free();
        let Some(Lodged { chest, .. }) = slot else {
            unreachable!()
        };
        chest
    }
}
