//! The follower's side of a link: it takes each change that comes, and tells what is in force.
ghost use Rattle.std.specs.Prelude.{◌≡◌, ◌⊎◌, ◌↔◌, ◌≤◌, true};
ghost use Rattle.cabinet.specs.State.{State};
ghost use Rattle.cache_core.specs.Lasting.{Lasting};
ghost use Rattle.change_feed.specs.Applies.{Pair};
ghost use Rattle.cut_follower.specs.Following.{FollowsOn, IsMade};
ghost use Rattle.cut_follower.specs.Links.{LinkAt};
ghost use Rattle.cut_follower.specs.Steps.{ArrivesOne, ComesAs, GoesTo, MakesOne, TellsOf};
ghost use Rattle.cut_follower.specs.Takes.{IsOfCatalogue};
ghost use Rattle.gate_journal.specs.Sound.{digest_of};
ghost use Rattle.outbox.specs.Packets.{FitsPacket};

use crate::ends::LinkEnd;
use crate::packets::{Missed, send_packet, take_packet};
use crate::taken::Taken;
use crate::taking::take;
use cabinet::Keeper;
use cache_core::laws_of_lasting;
use catalog::Catalogue;
use change_feed::{Applied, Feed};
use disk_model::Disk;
use http_wire::Link;
use outbox::{Packet, read_packet};
use served_covers::is_cover_of;
use std::alloc::Global;

/// How many packets a link may bring.
const MOST_PACKETS: u32 = 1_000_000;

/// What one packet came to.
#[derive(Clone, Copy)]
pub enum Arrived {
    /// It was a change that was made, or had been made before, and its `Seen` went out.
    Told,
    /// The stream ended before it.
    AtEnd,
    /// The stream ended within it.
    Truncated,
    /// It was no change of the catalogue.
    BadPacket,
    /// A read failed.
    ReadFault,
    /// It was a change that was made, or had been made before, and a write of its `Seen` failed.
    WriteFault,
    /// It was a change that was not made, for this.
    Stopped(Applied),
    /// Memory ran out.
    OutOfMemory,
}

/// Whether a change was made, or had been made before.
fn is_made(applied: &Applied) -> bool
    ensures { (result ≡ true) ↔ IsMade applied.now }
{
    match applied {
        Applied::Done(_) => true,
        Applied::Repeated => true,
        _ => false,
    }
}

/// Whether a packet is of the catalogue, where it is a change.
fn is_of_catalogue(catalogue: &Catalogue, packet: &Packet) -> bool
    ensures { (result ≡ true) ↔ IsOfCatalogue catalogue.now packet.now }
{
    match packet {
        Packet::Seen(_) => true,
        Packet::Change(_, cover) => is_cover_of(catalogue, cover),
    }
}

/// Tells what is seen, where a change was made or had been made before.
fn tell<L: Link>(link: &mut L, applied: &Applied, seen: &Packet) -> Arrived
    requires { FitsPacket seen.now }
    ensures tells { TellsOf
        (record { left = L.left link.old; read_faults = L.ByteSource.faults link.old; taken = L.taken link.old; write_faults = L.ByteSink.faults link.old })
        (record { left = L.left link.new; read_faults = L.ByteSource.faults link.new; taken = L.taken link.new; write_faults = L.ByteSink.faults link.new })
        applied.now seen.now result }
    ensures same_left { L.left link.new ≡ L.left link.old }
    ensures same_faults { L.ByteSource.faults link.new ≡ L.ByteSource.faults link.old }
    ensures later { L.ByteSink.faults link.old ≤ L.ByteSink.faults link.new }
{
    if !is_made(applied) {
        return Arrived::Stopped(*applied);
    }
    if send_packet(link, seen) {
        Arrived::Told
    } else {
        Arrived::WriteFault
    }
}

/// Takes the bytes of one packet off a link, and reads a packet of the catalogue in them.
fn read_next<L: Link>(catalogue: &Catalogue, link: &mut L) -> Result<Packet, Arrived>
    ensures comes { ComesAs catalogue.now
        (record { left = L.left link.old; read_faults = L.ByteSource.faults link.old; taken = L.taken link.old; write_faults = L.ByteSink.faults link.old })
        (record { left = L.left link.new; read_faults = L.ByteSource.faults link.new; taken = L.taken link.new; write_faults = L.ByteSink.faults link.new }) result }
    ensures same_taken { L.taken link.new ≡ L.taken link.old }
    ensures same_faults { L.ByteSink.faults link.new ≡ L.ByteSink.faults link.old }
    ensures later { L.ByteSource.faults link.old ≤ L.ByteSource.faults link.new }
{
    let bytes = match take_packet(link) {
        Ok(bytes) => bytes,
        Err(Missed::AtEnd) => return Err(Arrived::AtEnd),
        Err(Missed::Within) => return Err(Arrived::Truncated),
        Err(Missed::Failed) => return Err(Arrived::ReadFault),
    };
    let Some(packet) = read_packet(&bytes) else {
        return Err(Arrived::BadPacket);
    };
    if !is_of_catalogue(catalogue, &packet) {
        return Err(Arrived::BadPacket);
    }
    Ok(packet)
}

/// Makes the change of a packet, and tells what is seen.
fn make_and_tell<M: Disk, K: Keeper, L: Link>(
    alloc: Global,
    feed: &mut Feed<M>,
    cabinet: &mut K,
    link: &mut L,
    packet: &Packet,
) -> Arrived
    requires cover { IsOfCatalogue (K.state cabinet.old).catalogue packet.now }
    ensures makes { MakesOne
        (record { left = L.left link.old; read_faults = L.ByteSource.faults link.old; taken = L.taken link.old; write_faults = L.ByteSink.faults link.old })
        (record { left = L.left link.new; read_faults = L.ByteSource.faults link.new; taken = L.taken link.new; write_faults = L.ByteSink.faults link.new })
        (record { stand = feed.old.stand; faults = M.faults feed.old.file.disk; cabinet = K.state cabinet.old; cabinet_faults = K.faults cabinet.old }) packet.now result
        (record { stand = feed.new.stand; faults = M.faults feed.new.file.disk; cabinet = K.state cabinet.new; cabinet_faults = K.faults cabinet.new }) }
    ensures goes { GoesTo (M.told feed.old.file.disk) (digest_of feed.old.file.journal) (M.state feed.old.file.disk) (M.state feed.new.file.disk)
        (record { stand = feed.old.stand; faults = M.faults feed.old.file.disk; cabinet = K.state cabinet.old; cabinet_faults = K.faults cabinet.old })
        (record { stand = feed.new.stand; faults = M.faults feed.new.file.disk; cabinet = K.state cabinet.new; cabinet_faults = K.faults cabinet.new }) }
    ensures told { M.told feed.new.file.disk ≡ M.told feed.old.file.disk }
    ensures digest { digest_of feed.new.file.journal ≡ digest_of feed.old.file.journal }
    ensures outlasts { K.outlasts cabinet.old cabinet.new }
    ensures same_left { L.left link.new ≡ L.left link.old }
    ensures same_faults { L.ByteSource.faults link.new ≡ L.ByteSource.faults link.old }
    ensures later { L.ByteSink.faults link.old ≤ L.ByteSink.faults link.new }
{
    cabinet.known();
    match take(alloc, feed, cabinet, packet) {
        Err(_) => Arrived::OutOfMemory,
        Ok(Taken::NotAChange) => Arrived::BadPacket,
        Ok(Taken::Answer(applied, seen)) => tell(link, &applied, &seen),
    }
}

/// Takes one packet off a link, makes its change, and tells what is seen.
fn arrive<M: Disk, K: Keeper, L: Link>(
    alloc: Global,
    catalogue: &Catalogue,
    feed: &mut Feed<M>,
    cabinet: &mut K,
    link: &mut L,
) -> Arrived
    requires same { catalogue.now ≡ (K.state cabinet.old).catalogue }
    ensures arrives { ArrivesOne
        (record { left = L.left link.old; read_faults = L.ByteSource.faults link.old; taken = L.taken link.old; write_faults = L.ByteSink.faults link.old })
        (record { left = L.left link.new; read_faults = L.ByteSource.faults link.new; taken = L.taken link.new; write_faults = L.ByteSink.faults link.new })
        (record { stand = feed.old.stand; faults = M.faults feed.old.file.disk; cabinet = K.state cabinet.old; cabinet_faults = K.faults cabinet.old }) result
        (record { stand = feed.new.stand; faults = M.faults feed.new.file.disk; cabinet = K.state cabinet.new; cabinet_faults = K.faults cabinet.new }) }
    ensures goes { GoesTo (M.told feed.old.file.disk) (digest_of feed.old.file.journal) (M.state feed.old.file.disk) (M.state feed.new.file.disk)
        (record { stand = feed.old.stand; faults = M.faults feed.old.file.disk; cabinet = K.state cabinet.old; cabinet_faults = K.faults cabinet.old })
        (record { stand = feed.new.stand; faults = M.faults feed.new.file.disk; cabinet = K.state cabinet.new; cabinet_faults = K.faults cabinet.new }) }
    ensures told { M.told feed.new.file.disk ≡ M.told feed.old.file.disk }
    ensures digest { digest_of feed.new.file.journal ≡ digest_of feed.old.file.journal }
    ensures lasts { Lasting (K.outlasts cabinet.old cabinet.new) (K.state cabinet.old) (K.state cabinet.new) }
    ensures read_later { L.ByteSource.faults link.old ≤ L.ByteSource.faults link.new }
    ensures write_later { L.ByteSink.faults link.old ≤ L.ByteSink.faults link.new }
{
    laws_of_lasting::<K>();
    match read_next(catalogue, link) {
        Ok(packet) => make_and_tell(alloc, feed, cabinet, link, &packet),
        Err(arrived) => arrived,
    }
}

/// Takes each packet that comes off a link, and sends the `Seen` of the last change that is in force and marked then, to the stream's end.
///
/// It needs the catalogue of the cabinet. Each change is made as `take` makes it. Where one is neither done nor repeated the call ends, and
/// its `Seen` isn't sent. Each end comes as `LinkEnd` says: `Finished` and `Truncated` where the stream ended, between two packets or
/// within one; `BadPacket` where 64 bytes are no change, or one whose cover isn't of the catalogue; `Stopped` where a change was neither
/// done nor repeated; `TooMany` where 1,000,000 packets were made and told; `ReadFault` and `WriteFault` only where that count of the link
/// rose; `OutOfMemory` where memory runs out, and then that change wasn't made.
pub fn follow_link<M: Disk, K: Keeper, L: Link>(
    alloc: Global,
    catalogue: &Catalogue,
    feed: &mut Feed<M>,
    cabinet: &mut K,
    link: &mut L,
) -> LinkEnd
    requires same { catalogue.now ≡ (K.state cabinet.old).catalogue }
    ensures follows { FollowsOn (M.told feed.old.file.disk) (digest_of feed.old.file.journal) (M.state feed.old.file.disk) (M.state feed.new.file.disk)
        (record { left = L.left link.old; read_faults = L.ByteSource.faults link.old; taken = L.taken link.old; write_faults = L.ByteSink.faults link.old })
        (record { left = L.left link.new; read_faults = L.ByteSource.faults link.new; taken = L.taken link.new; write_faults = L.ByteSink.faults link.new })
        (record { stand = feed.old.stand; faults = M.faults feed.old.file.disk; cabinet = K.state cabinet.old; cabinet_faults = K.faults cabinet.old })
        (record { stand = feed.new.stand; faults = M.faults feed.new.file.disk; cabinet = K.state cabinet.new; cabinet_faults = K.faults cabinet.new }) result }
    ensures told { M.told feed.new.file.disk ≡ M.told feed.old.file.disk }
    ensures digest { digest_of feed.new.file.journal ≡ digest_of feed.old.file.journal }
    ensures lasts { Lasting (K.outlasts cabinet.old cabinet.new) (K.state cabinet.old) (K.state cabinet.new) }
    ensures later { M.faults feed.old.file.disk ≤ M.faults feed.new.file.disk }
    ensures cabinet_later { K.faults cabinet.old ≤ K.faults cabinet.new }
    ensures read_later { L.ByteSource.faults link.old ≤ L.ByteSource.faults link.new }
    ensures write_later { L.ByteSink.faults link.old ≤ L.ByteSink.faults link.new }
{
    laws_of_lasting::<K>();
    feed.images();
    cabinet.known();
    'following: for told in 0..MOST_PACKETS {
        match arrive(alloc, catalogue, feed, cabinet, link) {
            Arrived::Told => {}
            Arrived::AtEnd => return LinkEnd::Finished,
            Arrived::Truncated => return LinkEnd::Truncated,
            Arrived::BadPacket => return LinkEnd::BadPacket,
            Arrived::ReadFault => return LinkEnd::ReadFault,
            Arrived::WriteFault => return LinkEnd::WriteFault,
            Arrived::Stopped(applied) => return LinkEnd::Stopped(applied),
            Arrived::OutOfMemory => return LinkEnd::OutOfMemory,
        }
    }
    LinkEnd::TooMany
}
