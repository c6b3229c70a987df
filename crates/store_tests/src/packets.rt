//! Tests of the packets of outbox.
ghost use Rattle.outbox.specs.Packets.{FitsPacket};

use crate::records::{ANY, body_of};
use outbox::{Packet, read_packet, write_packet};

/// The bytes of a change: 1, and the body of a cut.
fn change_bytes() -> [u8; 64] {
    let front = [4, 0, 0, 0, 0, 0, 0, 2, 0, 0, 1, 2, 3, 4];
    let mut bytes = [1; 64];
    bytes[1..].copy_from_slice(&body_of(&front, [0, 0, 0, 0, 1, 0, 0, 1, 3]));
    bytes
}

/// The bytes of what says how much is seen: 2, the number, and zeros.
fn seen_bytes() -> [u8; 64] {
    let mut bytes = [0; 64];
    bytes[..9].copy_from_slice(&[2, 0, 0, 0, 0, 0, 0, 2, 1]);
    bytes
}

/// Whether a packet is written in these bytes, and read from them.
fn is_spelt(packet: &Packet, bytes: &[u8; 64]) -> bool
    requires { FitsPacket packet.now }
{
    write_packet(packet) == *bytes && read_packet(bytes) == Some(*packet)
}

#[test]
fn a_packet_has_its_bytes(rt: HostRuntime) {
    assert!(rt; is_spelt(&Packet::Change(512, ANY), &change_bytes()));
    assert!(rt; is_spelt(&Packet::Seen(513), &seen_bytes()));
}

/// Whether bytes with this one at a place are none of a packet.
fn is_none_with(mut bytes: [u8; 64], place: usize, byte: u8) -> bool {
    if place < 64 {
        bytes[place] = byte;
    }
    read_packet(&bytes).is_none()
}

// Of a change: another kind, another record, the number 0, the layer 257, the zooms 30 and 30, a byte 2 for the box, an edge without a
// box, the style 32, the value 1,026, and a byte after the fields. Of what is seen: another kind, and a byte after the number.
#[test]
fn one_wrong_byte_makes_it_no_packet(rt: HostRuntime) {
    for (place, byte) in [
        (0, 0),
        (0, 2),
        (0, 3),
        (1, 1),
        (8, 0),
        (10, 1),
        (13, 30),
        (14, 30),
        (15, 2),
        (47, 1),
        (48, 33),
        (55, 4),
        (63, 1),
    ] {
        assert!(rt;
            is_none_with(change_bytes(), place, byte),
            "{byte} at {place}"
        );
    }
    for (place, byte) in [(0, 0), (0, 1), (0, 3), (9, 1), (63, 1)] {
        assert!(rt;
            is_none_with(seen_bytes(), place, byte),
            "{byte} at {place}"
        );
    }
}
