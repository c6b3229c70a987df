//! The leader's side of a link: it sends what it has posted, one change after the other, and hears what was seen.
ghost use Rattle.std.specs.Prelude.{◌≡◌, ◌↔◌, ◌≤◌, None, Some};
ghost use Rattle.cut_follower.specs.Leading.{LeadsLink};
ghost use Rattle.cut_follower.specs.Links.{LinkAt};
ghost use Rattle.cut_follower.specs.Steps.{ExchangesOne, HearsBytes};
ghost use Rattle.cut_follower.specs.declared.ends.LinkEnd.TheVariants as link_end;
ghost use Rattle.outbox.specs.Packets.{IsRanged};
ghost use Rattle.outbox.specs.Posts.{next_of};

use crate::ends::LinkEnd;
use crate::packets::{Missed, send_packet, take_packet};
use disk_model::Disk;
use http_wire::Link;
use outbox::{Outbox, Packet, laws_of_packets, read_packet};

/// What one exchange came to.
#[derive(Clone, Copy, PartialEq, Eq)]
pub enum Exchanged {
    /// The post was sent, and a packet was heard that is news.
    Heard,
    /// The stream ended before a whole packet came.
    Truncated,
    /// The packet that came was no answer.
    BadPacket,
    /// A read failed.
    ReadFault,
    /// A write failed.
    WriteFault,
}

/// Hears the bytes of a packet; whether they are news.
fn hear<D: Disk>(outbox: &mut Outbox<D>, bytes: &[u8; 64]) -> bool
    ensures hears { HearsBytes outbox.old.out bytes.now result outbox.new.out }
    ensures catalogue { outbox.new.catalogue ≡ outbox.old.catalogue }
    ensures file { outbox.new.file ≡ outbox.old.file }
{
    match read_packet(bytes) {
        Some(packet) => outbox.heard(&packet),
        None => false,
    }
}

/// Sends a post, and hears the packet that comes for it.
fn exchange<D: Disk, L: Link>(outbox: &mut Outbox<D>, link: &mut L, post: &Packet) -> Exchanged
    requires ranged { IsRanged post.now }
    ensures exchanges { ExchangesOne
        (record { left = L.left link.old; read_faults = L.ByteSource.faults link.old; taken = L.taken link.old; write_faults = L.ByteSink.faults link.old })
        (record { left = L.left link.new; read_faults = L.ByteSource.faults link.new; taken = L.taken link.new; write_faults = L.ByteSink.faults link.new })
        post.now outbox.old.out result outbox.new.out }
    ensures catalogue { outbox.new.catalogue ≡ outbox.old.catalogue }
    ensures file { outbox.new.file ≡ outbox.old.file }
    ensures read_later { L.ByteSource.faults link.old ≤ L.ByteSource.faults link.new }
    ensures write_later { L.ByteSink.faults link.old ≤ L.ByteSink.faults link.new }
{
    laws_of_packets();
    if !send_packet(link, post) {
        return Exchanged::WriteFault;
    }
    match take_packet(link) {
        Ok(bytes) => {
            if hear(outbox, &bytes) {
                Exchanged::Heard
            } else {
                Exchanged::BadPacket
            }
        }
        Err(Missed::Failed) => Exchanged::ReadFault,
        Err(_) => Exchanged::Truncated,
    }
}

/// Sends the first post that wasn't heard as seen, hears the packet that comes for it, and goes on so until each post was heard as seen.
/// It takes no memory.
///
/// It hears nothing but packets that it took off the link, one for each that it sent. The file and the posts stay. Each end comes as
/// `LinkEnd` says: `Finished` exactly where no post is left to be seen; `Truncated` where the stream ended within a packet or before the
/// one that it waited for; `BadPacket` where 64 bytes are no `Seen`, or one below the post that was just sent or above the posts;
/// `ReadFault` and `WriteFault` only where that count of the link rose.
pub fn lead_link<D: Disk, L: Link>(outbox: &mut Outbox<D>, link: &mut L) -> LinkEnd
    ensures leads { LeadsLink
        (record { left = L.left link.old; read_faults = L.ByteSource.faults link.old; taken = L.taken link.old; write_faults = L.ByteSink.faults link.old })
        (record { left = L.left link.new; read_faults = L.ByteSource.faults link.new; taken = L.taken link.new; write_faults = L.ByteSink.faults link.new })
        outbox.old.out outbox.new.out result }
    ensures finished { (result ≡ link_end.Finished) ↔ (next_of outbox.new.out ≡ None) }
    ensures posts { outbox.new.out.posts ≡ outbox.old.out.posts }
    ensures undecided { outbox.new.out.undecided ≡ outbox.old.out.undecided }
    ensures catalogue { outbox.new.catalogue ≡ outbox.old.catalogue }
    ensures file { outbox.new.file ≡ outbox.old.file }
    ensures read_later { L.ByteSource.faults link.old ≤ L.ByteSource.faults link.new }
    ensures write_later { L.ByteSink.faults link.old ≤ L.ByteSink.faults link.new }
{
    'leading: while let Some(post) = outbox.next() {
        match exchange(outbox, link, &post) {
            Exchanged::Heard => {}
            Exchanged::Truncated => return LinkEnd::Truncated,
            Exchanged::BadPacket => return LinkEnd::BadPacket,
            Exchanged::ReadFault => return LinkEnd::ReadFault,
            Exchanged::WriteFault => return LinkEnd::WriteFault,
        }
    }
    LinkEnd::Finished
}
