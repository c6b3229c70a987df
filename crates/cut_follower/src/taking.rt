//! How a follower takes a packet.
ghost use Rattle.std.specs.Prelude.{◌≡◌, ◌≤◌, ℕ, IfOk, IsTrue, Ok, OnErr, Some};
ghost use Rattle.cabinet.specs.State.{IsSound};
ghost use Rattle.change_feed.specs.Applies.{decided};
ghost use Rattle.change_feed.specs.Files.{EndsIn, MayEndIn};
ghost use Rattle.change_feed.specs.declared.applied.Applied.TheVariants as applied;
ghost use Rattle.cut_follower.specs.Takes.{IsOfCatalogue, MayEndTaken, Takes, WhereSeen};
ghost use Rattle.cut_follower.specs.declared.taken.Taken.TheVariants as taken;
ghost use Rattle.disk_model.specs.Images.{Every, Leaves};
ghost use Rattle.gate_journal.specs.Sound.{digest_of};
ghost use Rattle.outbox.specs.declared.packet.Packet.TheVariants as packets;
ghost use Rattle.outbox.specs.declared.packet.Packet.{Packet};
ghost use Rattle.truncation_list.specs.declared.cover.Cover.{Cover};

use crate::taken::Taken;
use cabinet::Keeper;
use change_feed::{Change, Feed};
use disk_model::Disk;
use outbox::Packet;
use std::alloc::{AllocError, Global};

/// Takes a packet that came to a follower: a change, whose cover is of the catalogue of the cabinet, is made by the feed on the cabinet,
/// once and in the order of the numbers, and answered with `Seen` of the last change that is marked then. So no change is told as seen
/// before its cut is in force and its mark is durable, and none behind a gap. A `Seen` is `NotAChange`, takes no memory and changes
/// nothing.
///
/// At every moment each image of the marks ends in the mark from before the call, in the one that a call may have left that failed, or,
/// where the cut was done, in the mark of the change. After `Done` each image ends in its mark. `AllocError` where memory runs out; the
/// cabinet and the last change are then as before.
pub fn take<D: Disk, C: Keeper>(
    alloc: Global,
    feed: &mut Feed<D>,
    cabinet: &mut C,
    packet: &Packet,
) -> Result<Taken, AllocError>
    requires cover { IsOfCatalogue (C.state cabinet.old).catalogue packet.now }
    ensures told { D.told feed.new.file.disk ≡ D.told feed.old.file.disk }
    ensures digest { digest_of feed.new.file.journal ≡ digest_of feed.old.file.journal }
    ensures takes { IfOk result (λ reply. Takes
        (record { stand = feed.old.stand; faults = D.faults feed.old.file.disk; cabinet = C.state cabinet.old; cabinet_faults = C.faults cabinet.old })
        packet.now reply
        (record { stand = feed.new.stand; faults = D.faults feed.new.file.disk; cabinet = C.state cabinet.new; cabinet_faults = C.faults cabinet.new })) }
    ensures err { OnErr result ((C.state cabinet.new ≡ C.state cabinet.old) × (feed.new.stand ≡ decided feed.old.stand)) }
    ensures seen { WhereSeen packet.now ((result ≡ Ok taken.NotAChange) × (feed.new ≡ feed.old) × (cabinet.new ≡ cabinet.old)) }
    ensures images { IsTrue (D.told feed.old.file.disk) → IfOk result (λ reply. Leaves (D.state feed.old.file.disk) (D.state feed.new.file.disk) (MayEndTaken (digest_of feed.old.file.journal) feed.old.stand packet.now reply)) }
    ensures err_images { IsTrue (D.told feed.old.file.disk) → OnErr result (Leaves (D.state feed.old.file.disk) (D.state feed.new.file.disk) (MayEndIn (digest_of feed.old.file.journal) feed.old.stand)) }
    ensures done { IsTrue (D.told feed.old.file.disk) → IfOk result (λ reply. (n k : ℕ) (cover : Cover) (answer : Packet) → packet.now ≡ packets.Change n cover → reply ≡ taken.Answer (applied.Done k) answer
        → Every (D.state feed.new.file.disk).may_leave (EndsIn (digest_of feed.old.file.journal) (Some (record { number = n; cut = k })))) }
    ensures later { D.faults feed.old.file.disk ≤ D.faults feed.new.file.disk }
    ensures cabinet_later { C.faults cabinet.old ≤ C.faults cabinet.new }
    ensures still_sound { IsSound (C.state cabinet.old) → IsSound (C.state cabinet.new) }
    ensures lasts { C.outlasts cabinet.old cabinet.new }
{
    match packet {
        Packet::Seen(_) => Ok(Taken::NotAChange),
        Packet::Change(number, cover) => {
            let change = Change {
                number: *number,
                cover: *cover,
            };
            match feed.apply(alloc, cabinet, &change) {
                Err(fault) => Err(fault),
                Ok(applied) => Ok(Taken::Answer(applied, Packet::Seen(feed.last()))),
            }
        }
    }
}
