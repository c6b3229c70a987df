//! The trait of a connection: a source and a sink in one, of which neither changes with the other.
ghost use Rattle.std.specs.Prelude.{◌≡◌};
ghost use Rattle.http_wire.specs.Side.{side};

use crate::streams::{ByteSink, ByteSource};

/// A source and a sink in one, as a connection is. Neither side changes with the other.
pub trait Link: ByteSource + ByteSink {
    /// What a take leaves as it is are the bytes that were taken by puts, and that count of faults.
    ghost take_keeps: { (link : Self) → Self.ByteSource.apart link ≡ side (Self.taken link) (Self.ByteSink.faults link) };

    /// What a put leaves as it is are the bytes that are left to take, and that count of faults.
    ghost put_keeps: { (link : Self) → Self.ByteSink.apart link ≡ side (Self.left link) (Self.ByteSource.faults link) };
}

impl<L: Link> Link for &mut L {
    ghost take_keeps = { λ link. L.take_keeps link.now };

    ghost put_keeps = { λ link. L.put_keeps link.now };
}
