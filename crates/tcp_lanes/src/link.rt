//! A lane as a link.
ghost use Rattle.std.specs.Prelude.{None, refl};
ghost use Rattle.http_wire.specs.Side.{side};

use crate::lane::Lane;
use http_wire::{ByteSink, ByteSource, Failed, Link};
use std::sync::Wait;
use std::time::Clock;

/// A lane: a stream of whole messages, whoever sent them, each answered to who sent it. What comes and goes isn't modelled.
pub struct TcpLink<R: Wait + Clock + Drop> {
    rt: R,
    lane: Lane,
    faults: u64,
}

impl<R: Wait + Clock + Drop> TcpLink<R> {
    /// The link of that lane.
    pub(crate) fn new(rt: R, lane: Lane) -> TcpLink<R> {
        TcpLink {
            rt,
            lane,
            faults: 0,
        }
    }
}

impl<R: Wait + Clock + Drop> Drop for TcpLink<R> {
    fn drop(self) {
        let TcpLink {
            rt,
            lane,
            faults: _,
        } = self;
        lane.end(&rt);
    }
}

impl<R: Wait + Clock + Drop> ByteSource for TcpLink<R> {
    ghost left = { λ _. None };

    ghost faults = { λ _. 0 };

    ghost apart = { λ link. side None link.faults };

    fn take(&mut self, into: &mut [u8]) -> Result<usize, Failed> {
        Ok(self.lane.take(&self.rt, into))
    }
}

impl<R: Wait + Clock + Drop> ByteSink for TcpLink<R> {
    ghost taken = { λ _. None };

    ghost faults = { λ link. link.faults };

    ghost apart = { λ _. side None 0 };

    fn put(&mut self, bytes: &[u8]) -> Result<usize, Failed> {
        if self.lane.put(&self.rt, bytes) {
            return Ok(bytes.len());
        }
        self.faults = base::one_more(self.faults);
        Err(Failed)
    }
}

impl<R: Wait + Clock + Drop> Link for TcpLink<R> {
    ghost take_keeps = { λ link. refl };

    ghost put_keeps = { λ link. refl };
}
