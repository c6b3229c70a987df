//! How a packet is written.
ghost use Rattle.std.specs.Prelude.{◌≡◌, ◌∷◌, ◌++◌, replicate};
ghost use Rattle.byteorder.specs.Endian.{big_bytes};
ghost use Rattle.outbox.specs.Packets.{FitsPacket, packet_text};
ghost use Rattle.record_text.specs.Fits.{FitsCover};
ghost use Rattle.record_text.specs.Spelling.{spelling};
ghost use Rattle.record_text.specs.declared.entries.Record.TheVariants as record_of;

use crate::packet::Packet;
use byteorder::{BigEndian, ByteOrder};
use record_text::{Record, encode};
use truncation_list::Cover;

/// The kind of a packet, and the body of a record.
fn change_text(number: u64, cover: &Cover) -> [u8; 64]
    requires { FitsCover cover.now }
    ensures { result ≡ 1 ∷ spelling (record_of.Cut number cover.now) }
{
    let mut bytes = [1; 64];
    bytes[1..].copy_from_slice(&encode(&Record::Cut(number, *cover)));
    bytes
}

/// The kind of a packet, a number, and zeros.
fn seen_text(number: u64) -> [u8; 64]
    ensures { result ≡ 2 ∷ (big_bytes 8 number ++ replicate 55 0) }
{
    let mut bytes = [0; 64];
    bytes[0] = 2;
    BigEndian::write_u64(&mut bytes[1..9], number);
    bytes
}

/// The one spelling of a packet whose numbers fit their fields.
pub fn write_packet(packet: &Packet) -> [u8; 64]
    requires { FitsPacket packet.now }
    ensures { result ≡ packet_text packet.now }
{
    match packet {
        Packet::Change(number, cover) => change_text(*number, cover),
        Packet::Seen(number) => seen_text(*number),
    }
}
