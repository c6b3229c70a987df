//! The turnstile, the passes that it is made with, and its turns.
ghost use Rattle.std.specs.Prelude.{◌≡◌, true, IfErr, IfOk, IfSome, ◌≢◌, ◌<◌, ◌≤◌, Bool, All, length};
ghost use Rattle.truncation_list.specs.Books.{last_seen};
ghost use Rattle.turnstile.specs.Line.{AreInLine};
ghost use Rattle.turnstile.specs.Passes.{Met, Stays, Turned, Unturned, fresh_pass, known_by};
ghost use Rattle.turnstile.specs.Steps.{Found};

use crate::chest::Chest;
use crate::deal::{deal_out, gather};
use crate::pass::Pass;
use crate::start::Start;
use crate::turn_queue::TurnQueue;
use crate::view::{Lodged, Opening};
use base::Trace;
use exact_ratio::Items;
use std::alloc::{AllocError, Global};
use std::marker::Model;
use std::sync::Wait;

/// One chest behind a turnstile, which passes take in turn from any thread.
///
/// Contracts see it as the record of its table and of the number of passes that it was made with.
#[derive(Drop)]
pub struct Turnstile<C: Chest> {
    pub(crate) queue: TurnQueue<C>,
}

impl<C: Chest> Model for Turnstile<C> {
    ghost use Rattle.turnstile.specs.Passes.{Identity};

    ghost Value = { Identity };

    ghost view = { λ t. record { table = t.queue.table.shared.table_id; passes = t.queue.passes } };
}

impl<C: Chest> Turnstile<C> {
    /// Does a command in one turn, for which it waits. The pass has then seen what the turn left, and gained a note of it.
    ///
    /// `AllocError` comes only for a command that takes memory. The chest is then as before, and the pass has gained no
    /// note.
    pub fn turn<R: Wait>(
        &self,
        rt: &R,
        alloc: Global,
        pass: &mut Pass<C>,
        command: C::Command,
    ) -> Result<C::Reply, AllocError>
        requires own { pass.old.table ≡ self.now.table }
        requires admitted { IfSome pass.old.charter (λ h. C.admits h command) }
        requires sound { pass.old.told ≡ true → IfSome pass.old.charter (λ h. C.keeps_sound h command) }
        ensures stays { Stays pass.old pass.new }
        ensures done { IfOk result (λ r. Turned C.charter C.sound C.book C.shown C.note C.may_reply pass.old pass.new command r) }
        ensures refused { IfErr result (λ _. Unturned C.charter C.sound C.book C.as_before pass.old pass.new) }
        ensures memory { IfErr result (λ _. ¬ (C.takes_no_memory command)) }
    {
        let mut chest = self.queue.take(rt, &mut pass.seat);
        let asked = Trace::new().and(&command);
        match chest.act(alloc, command) {
            Ok(reply) => {
                let answered = Trace::new().and(&reply);
                let latest = chest.latest();
                self.queue.give(
                    rt,
                    &mut pass.seat,
                    Lodged {
                        chest,
                        asked,
                        answered,
                    },
                );
                pass.latest = latest;
                Ok(reply)
            }
            Err(refused) => {
                let latest = chest.latest();
                self.queue.give(
                    rt,
                    &mut pass.seat,
                    Lodged {
                        chest,
                        asked,
                        answered: Trace::new(),
                    },
                );
                pass.latest = latest;
                Err(refused)
            }
        }
    }

    /// Does a command that takes no memory in one turn, for which it waits. The pass has then seen what the turn left, and
    /// gained a note of it.
    pub fn turn_plain<R: Wait>(&self, rt: &R, pass: &mut Pass<C>, command: C::Command) -> C::Reply
        requires own { pass.old.table ≡ self.now.table }
        requires admitted { IfSome pass.old.charter (λ h. C.admits h command) }
        requires plain { C.takes_no_memory command }
        requires sound { pass.old.told ≡ true → IfSome pass.old.charter (λ h. C.keeps_sound h command) }
        ensures stays { Stays pass.old pass.new }
        ensures done { Turned C.charter C.sound C.book C.shown C.note C.may_reply pass.old pass.new command result }
    {
        let mut chest = self.queue.take(rt, &mut pass.seat);
        let asked = Trace::new().and(&command);
        let reply = chest.act_plain(command);
        let answered = Trace::new().and(&reply);
        let latest = chest.latest();
        self.queue.give(
            rt,
            &mut pass.seat,
            Lodged {
                chest,
                asked,
                answered,
            },
        );
        pass.latest = latest;
        reply
    }

    /// The greatest cut that the pass has seen: the greater of its book's floor and the greatest number listed there.
    pub fn seen(&self, pass: &Pass<C>) -> u64
        ensures { result ≡ last_seen pass.now.book.book }
    {
        pass.latest
    }

    /// Two passes tell each other what they have seen: each has then a book that answers for both. Nobody waits.
    pub fn meet(&self, a: &mut Pass<C>, b: &mut Pass<C>)
        requires own { (a.old.table ≡ self.now.table) × (b.old.table ≡ self.now.table) }
        ensures stays { Stays a.old a.new × Stays b.old b.new }
        ensures a { Met a.old b.old a.new }
        ensures b { Met b.old a.old b.new }
    {
        let from_a = self.queue.tell(&mut a.seat);
        let from_b = self.queue.tell(&mut b.seat);
        self.queue.hear(&mut a.seat, from_b);
        self.queue.hear(&mut b.seat, from_a);
        let latest = a.latest.max(b.latest);
        a.latest = latest;
        b.latest = latest;
    }
}

/// A turnstile, and passes of it.
#[derive(Drop)]
pub struct Entry<C: Chest> {
    pub turnstile: Turnstile<C>,
    pub passes: Items<Pass<C>>,
}

impl<C: Chest + Drop> Turnstile<C> {
    /// A turnstile over a chest, with 1 to 64 passes. Each pass has seen the chest's book, and made nothing.
    ///
    /// The caller picks the mark of being told, which says that the chest is sound, and which never changes.
    /// Where there is no memory, the chest is dropped.
    pub fn make(alloc: Global, chest: C, passes: u32) -> Result<Entry<C>, AllocError>
        ghost told: { Bool }
        requires passes { (0 < passes) × (passes ≤ 64) }
        requires sound { told ≡ true → C.sound chest }
        ensures count { IfOk result (λ e. (length e.passes ≡ passes) × (e.turnstile.passes ≡ passes)) }
        ensures own { IfOk result (λ e. All (λ p. p.table ≡ e.turnstile.table) e.passes) }
        ensures each { IfOk result (λ e. All (λ p. p ≡ fresh_pass C.charter C.book e.turnstile.table chest told) e.passes) }
    {
        let latest = chest.latest();
        let opening = Opening {
            start: Start::of(&chest),
            passes: u64::from(passes),
        };
        let (queue, seat) = TurnQueue::open(alloc, chest, &opening)?;
        let passes = deal_out(alloc, &queue, &opening, seat, passes, latest)?;
        Ok(Entry {
            turnstile: Turnstile { queue },
            passes: Items::of(passes),
        })
    }
}

impl<C: Chest> Turnstile<C> {
    /// The chest, where all passes are given. It is one of which each of them may know: its book answers for all that
    /// any of them has seen. All turns that they made stand in one line: of any two the one found all that the other left.
    ///
    /// Where passes are missing, all is handed back.
    pub fn close(self, passes: Vec<Pass<C>>) -> Result<C, Entry<C>>
        requires own { All (λ p. p.table ≡ self.table) passes.items }
        ensures closed { IfOk result (λ chest. (length passes.items ≡ self.passes) × All (λ p. Found C.charter C.sound C.book (known_by p) chest) passes.items × AreInLine passes.items) }
        ensures refused { IfErr result (λ e. (length passes.items ≢ self.passes) × (e.turnstile ≡ self) × (e.passes ≡ passes.items)) }
    {
        if passes.len() as u64 != self.queue.passes {
            return Err(Entry {
                turnstile: self,
                passes: Items::of(passes),
            });
        }
        let Turnstile { queue } = self;
        let all = gather(&queue, passes);
        Ok(queue.close(all))
    }
}
