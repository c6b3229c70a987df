//! A packet is carried.
ghost use Rattle.std.specs.Prelude.{◌≡◌, ◌⊎◌, ◌≤◌, IfOk, IsTrue, OnErr};
ghost use Rattle.cabinet.specs.State.{IsSound};
ghost use Rattle.cache_core.specs.Lasting.{Lasting};
ghost use Rattle.change_feed.specs.Files.{MayEndIn};
ghost use Rattle.cut_follower.specs.Steps.{GoesTo};
ghost use Rattle.disk_model.specs.Images.{Leaves};
ghost use Rattle.gate_journal.specs.Sound.{digest_of};
ghost use Rattle.served_covers.specs.OfCatalogue.{IsCoverOf};
ghost use Rattle.twin_events.specs.Carries.{Carries, FindsAt, HearsAs, RunsOut, TakesAs, counts};
ghost use Rattle.twin_events.specs.Twins.{IsTwinReady, standing};

use crate::carried::CarriedPacket;
use crate::twin::Twin;
use cabinet::Keeper;
use cache_core::laws_of_lasting;
use change_feed::Feed;
use cut_follower::{Taken, take};
use disk_model::Disk;
use outbox::{Outbox, Packet};
use std::alloc::{AllocError, Global};
use truncation_list::Cover;

/// The packet that has a place, from 1.
fn packet_at(sent: &[Packet], place: u64) -> Option<Packet>
    ensures { FindsAt sent.now place result }
{
    if place == 0 {
        return None;
    }
    match sent.get((place - 1) as usize) {
        Some(packet) => Some(*packet),
        None => None,
    }
}

/// The leader hears that all changes up to this number are seen.
fn hear<N: Disk>(outbox: &mut Outbox<N>, number: u64) -> CarriedPacket
    ensures hears { HearsAs outbox.old.out number result outbox.new.out }
    ensures catalogue { outbox.new.catalogue ≡ outbox.old.catalogue }
    ensures file { outbox.new.file ≡ outbox.old.file }
{
    if outbox.heard(&Packet::Seen(number)) {
        CarriedPacket::Heard(number)
    } else {
        CarriedPacket::Ignored
    }
}

/// The follower takes a change, and what is seen then is sent. Room for it is made before anything else happens.
fn take_change<K: Keeper, M: Disk>(
    alloc: Global,
    feed: &mut Feed<M>,
    cabinet: &mut K,
    sent: &mut Vec<Packet>,
    number: u64,
    cover: &Cover,
) -> Result<CarriedPacket, AllocError>
    requires cover { IsCoverOf (K.state cabinet.old).catalogue cover.now }
    ensures takes { TakesAs
        (record { stand = feed.old.stand; faults = M.faults feed.old.file.disk; cabinet = K.state cabinet.old; cabinet_faults = K.faults cabinet.old })
        (record { number = number; cover = cover.now }) sent.old.items result
        (record { stand = feed.new.stand; faults = M.faults feed.new.file.disk; cabinet = K.state cabinet.new; cabinet_faults = K.faults cabinet.new })
        sent.new.items }
    ensures goes { GoesTo (M.told feed.old.file.disk) (digest_of feed.old.file.journal) (M.state feed.old.file.disk) (M.state feed.new.file.disk)
        (record { stand = feed.old.stand; faults = M.faults feed.old.file.disk; cabinet = K.state cabinet.old; cabinet_faults = K.faults cabinet.old })
        (record { stand = feed.new.stand; faults = M.faults feed.new.file.disk; cabinet = K.state cabinet.new; cabinet_faults = K.faults cabinet.new }) }
    ensures told { M.told feed.new.file.disk ≡ M.told feed.old.file.disk }
    ensures digest { digest_of feed.new.file.journal ≡ digest_of feed.old.file.journal }
    ensures outlasts { K.outlasts cabinet.old cabinet.new }
{
    cabinet.known();
    match sent.reserve(1) {
        Err(fault) => return Err(fault),
        Ok(()) => {}
    }
    match take(alloc, feed, cabinet, &Packet::Change(number, *cover)) {
        Err(fault) => Err(fault),
        Ok(Taken::NotAChange) => unreachable!(),
        Ok(Taken::Answer(reply, seen)) => {
            sent.push_reserved(seen);
            Ok(CarriedPacket::Taken(number, reply, sent.len() as u64))
        }
    }
}

impl<K: Keeper, M: Disk, N: Disk> Twin<K, M, N> {
    /// Carries the packet that has this place in the list of what was sent, from 1; `None` exactly where none has it, and nothing has then
    /// changed. A change comes to the follower, which takes it and sends what is seen then, to the end of the list. A `Seen` comes to the
    /// leader. The packet stays in the list, and may be carried again.
    ///
    /// At every moment each image of the marks ends in a mark of the feed before the call or after it. `AllocError` where memory runs out:
    /// nothing has then changed, or memory ran out in the follower's call for the change.
    pub fn carry(&mut self, alloc: Global, place: u64) -> Result<Option<CarriedPacket>, AllocError>
        requires ready { IsTwinReady self.old.outbox.catalogue (standing self.old.outbox.out self.old.feed.stand (K.state self.old.cabinet) self.old.sent.items) }
        ensures carries { IfOk result (λ found. Carries
            (standing self.old.outbox.out self.old.feed.stand (K.state self.old.cabinet) self.old.sent.items) (counts (M.faults self.old.feed.file.disk) (K.faults self.old.cabinet))
            place found
            (standing self.new.outbox.out self.new.feed.stand (K.state self.new.cabinet) self.new.sent.items) (counts (M.faults self.new.feed.file.disk) (K.faults self.new.cabinet))) }
        ensures err { OnErr result (RunsOut (standing self.old.outbox.out self.old.feed.stand (K.state self.old.cabinet) self.old.sent.items) place (standing self.new.outbox.out self.new.feed.stand (K.state self.new.cabinet) self.new.sent.items)) }
        ensures ready { IsTwinReady self.new.outbox.catalogue (standing self.new.outbox.out self.new.feed.stand (K.state self.new.cabinet) self.new.sent.items) }
        ensures catalogue { self.new.outbox.catalogue ≡ self.old.outbox.catalogue }
        ensures file { self.new.outbox.file ≡ self.old.outbox.file }
        ensures told { M.told self.new.feed.file.disk ≡ M.told self.old.feed.file.disk }
        ensures digest { digest_of self.new.feed.file.journal ≡ digest_of self.old.feed.file.journal }
        ensures later { M.faults self.old.feed.file.disk ≤ M.faults self.new.feed.file.disk }
        ensures cabinet_later { K.faults self.old.cabinet ≤ K.faults self.new.cabinet }
        ensures lasts { Lasting (K.outlasts self.old.cabinet self.new.cabinet) (K.state self.old.cabinet) (K.state self.new.cabinet) }
        ensures still_sound { IsSound (K.state self.old.cabinet) → IsSound (K.state self.new.cabinet) }
        ensures marks { IsTrue (M.told self.old.feed.file.disk) → Leaves (M.state self.old.feed.file.disk) (M.state self.new.feed.file.disk)
            (λ image. MayEndIn (digest_of self.old.feed.file.journal) self.old.feed.stand image ⊎ MayEndIn (digest_of self.old.feed.file.journal) self.new.feed.stand image) }
    {
        laws_of_lasting::<K>();
        match packet_at(&self.sent, place) {
            None => Ok(None),
            Some(Packet::Seen(number)) => Ok(Some(hear(&mut self.outbox, number))),
            Some(Packet::Change(number, cover)) => {
                match take_change(
                    alloc,
                    &mut self.feed,
                    &mut self.cabinet,
                    &mut self.sent,
                    number,
                    &cover,
                ) {
                    Ok(carried) => Ok(Some(carried)),
                    Err(fault) => Err(fault),
                }
            }
        }
    }
}
