//! One packet off a link, and one onto it.
ghost use Rattle.std.specs.Prelude.{◌≡◌, ◌<◌, ◌≤◌};
ghost use Rattle.cut_follower.specs.Links.{LinkAt, IsMissedAt, PutsOnto, TakesOff};
ghost use Rattle.outbox.specs.Packets.{FitsPacket, packet_text};

use http_wire::{Link, send};
use outbox::{PACKET_SIZE, Packet, write_packet};

/// Why no packet came off a link.
#[derive(Clone, Copy, PartialEq, Eq)]
pub enum Missed {
    /// The stream ended before it.
    AtEnd,
    /// The stream ended within it.
    Within,
    /// A read failed.
    Failed,
}

/// Why no packet came off a link that ended behind so many of its bytes.
fn missed_at(at: usize) -> Missed
    ensures { IsMissedAt at result }
{
    if at == 0 {
        Missed::AtEnd
    } else {
        Missed::Within
    }
}

/// Takes the bytes of one packet off a link, and none behind them.
pub(crate) fn take_packet<L: Link>(link: &mut L) -> Result<[u8; 64], Missed>
    ensures takes { TakesOff
        (record { left = L.left link.old; read_faults = L.ByteSource.faults link.old; taken = L.taken link.old; write_faults = L.ByteSink.faults link.old })
        (record { left = L.left link.new; read_faults = L.ByteSource.faults link.new; taken = L.taken link.new; write_faults = L.ByteSink.faults link.new }) result }
{
    let mut bytes = [0; PACKET_SIZE];
    let mut at = 0;
    'taking: while at < PACKET_SIZE {
        let Ok(count) = link.take(&mut bytes[at..]) else {
            return Err(Missed::Failed);
        };
        if count == 0 {
            return Err(missed_at(at));
        }
        at += count;
    }
    Ok(bytes)
}

/// Sends one packet; whether all of it went out, or a write failed.
pub(crate) fn send_packet<L: Link>(link: &mut L, packet: &Packet) -> bool
    requires { FitsPacket packet.now }
    ensures puts { PutsOnto
        (record { left = L.left link.old; read_faults = L.ByteSource.faults link.old; taken = L.taken link.old; write_faults = L.ByteSink.faults link.old })
        (record { left = L.left link.new; read_faults = L.ByteSource.faults link.new; taken = L.taken link.new; write_faults = L.ByteSink.faults link.new }) (packet_text packet.now) result }
{
    match send(link, &write_packet(packet)) {
        Ok(()) => true,
        Err(_) => false,
    }
}
