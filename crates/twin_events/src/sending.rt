//! The leader sends.
ghost use Rattle.std.specs.Prelude.{◌≡◌, ◌+◌, ◌∷◌, [], length, IfOk, OnErr};
ghost use Rattle.cut_follower.specs.Lossy.{next_sent};
ghost use Rattle.outbox.specs.Posts.{next_of};
ghost use Rattle.twin_events.specs.Twins.{IsTwinReady, LeadsBy, IsSentTo, standing};

use crate::twin::Twin;
use cabinet::Keeper;
use disk_model::Disk;
use std::alloc::{AllocError, Global};

impl<K: Keeper, M: Disk, N: Disk> Twin<K, M, N> {
    /// The leader sends the first post that it hasn't heard as seen: the place of its packet in the list of what was sent, from 1; `None`
    /// exactly where there is none. `AllocError` where memory runs out; nothing has then changed.
    pub fn send(&mut self, _: Global) -> Result<Option<u64>, AllocError>
        requires ready { IsTwinReady self.old.outbox.catalogue (standing self.old.outbox.out self.old.feed.stand (K.state self.old.cabinet) self.old.sent.items) }
        ensures sends { IfOk result (λ place. IsSentTo self.old.outbox.out self.old.sent.items place self.new.sent.items) }
        ensures leads { IfOk result (λ place. LeadsBy (next_sent ∷ [])
            (standing self.old.outbox.out self.old.feed.stand (K.state self.old.cabinet) self.old.sent.items)
            (standing self.new.outbox.out self.new.feed.stand (K.state self.new.cabinet) self.new.sent.items)) }
        ensures err { OnErr result (self.new.sent.items ≡ self.old.sent.items) }
        ensures ready { IsTwinReady self.new.outbox.catalogue (standing self.new.outbox.out self.new.feed.stand (K.state self.new.cabinet) self.new.sent.items) }
        ensures outbox { self.new.outbox ≡ self.old.outbox }
        ensures cabinet { self.new.cabinet ≡ self.old.cabinet }
        ensures feed { self.new.feed ≡ self.old.feed }
    {
        match self.sent.reserve(1) {
            Err(fault) => return Err(fault),
            Ok(()) => {}
        }
        match self.outbox.next() {
            None => Ok(None),
            Some(packet) => {
                self.sent.push_reserved(packet);
                Ok(Some(self.sent.len() as u64))
            }
        }
    }
}
