//! How a packet is read from 64 bytes, which have to be the one spelling of it.
ghost use Rattle.std.specs.Prelude.{◌≡◌, ◌↔◌, ◌<◌, ◌∷◌, Some, slice_index};
ghost use Rattle.outbox.specs.Packets.{IsReadAs, IsRanged, cut_in, packet_text};
ghost use Rattle.outbox.specs.declared.packet.Packet.{Packet};

use crate::packet::Packet;
use crate::ranges::is_ranged;
use crate::writing::write_packet;
use byteorder::{BigEndian, ByteOrder};
use record_text::{Record, decode};
use truncation_list::Cover;

/// The number and the cover of a record that is a cut's.
pub(crate) fn cut_in(entry: Option<Record>) -> Option<(u64, Cover)>
    ensures { result ≡ cut_in entry }
{
    match entry {
        Some(Record::Cut(number, cover)) => Some((number, cover)),
        Some(Record::Opened(_, _)) => None,
        Some(Record::Stored(_, _, _, _, _, _)) => None,
        Some(Record::Dropped(_, _)) => None,
        Some(Record::Uses(_, _, _)) => None,
        None => None,
    }
}

/// The change that the bytes behind its kind spell.
fn change_of(body: &[u8; 63]) -> Option<Packet>
    ensures { IsReadAs (1 ∷ body.now) result }
{
    let entry = decode(body);
    match cut_in(entry) {
        None => None,
        Some((number, cover)) => {
            if is_ranged(number, &cover) {
                Some(Packet::Change(number, cover))
            } else {
                None
            }
        }
    }
}

/// The bytes behind the first one.
fn body_of(bytes: &[u8; 64]) -> [u8; 63]
    ensures { bytes.now ≡ slice_index bytes.now 0 ∷ result }
{
    let mut body = [0; 63];
    body.copy_from_slice(&bytes[1..]);
    body
}

/// What says how much is seen, as it would be spelled with the number that stands there.
fn seen_of(bytes: &[u8; 64]) -> Option<Packet>
    requires { slice_index bytes.now 0 ≡ 2 }
    ensures { IsReadAs bytes.now result }
{
    let seen = Packet::Seen(BigEndian::read_u64(&bytes[1..9]));
    if write_packet(&seen) == *bytes {
        Some(seen)
    } else {
        None
    }
}

/// The packet that bytes spell; `None` exactly where they are no spelling, or that of a change whose numbers no catalogue may have or whose
/// number is 0.
pub fn read_packet(bytes: &[u8; 64]) -> Option<Packet>
    ensures { (packet : Packet) → (result ≡ Some packet) ↔ ((packet_text packet ≡ bytes.now) × IsRanged packet) }
{
    match bytes[0] {
        1 => change_of(&body_of(bytes)),
        2 => seen_of(bytes),
        _ => None,
    }
}
