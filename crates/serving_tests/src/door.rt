//! Connections in memory whose outputs others may read, and a listener that gives them.
ghost use Rattle.std.specs.Prelude.{None, refl};
ghost use Rattle.http_wire.specs.Side.{side};

use base::Trace;
use http_wire::{ByteSink, ByteSource, Failed, Link, Listener, MemorySource};
use std::sync::{Mutex, Wait};

/// A connection in memory that puts what it takes in where others read it. Neither side is modelled.
#[derive(Drop)]
pub struct HeardLink<'a, R: Wait> {
    pub rt: &'a R,
    pub source: MemorySource,
    pub heard: &'a Mutex<Vec<u8>>,
}

impl<'a, R: Wait> ByteSource for HeardLink<'a, R> {
    ghost left = { λ _. None };

    ghost faults = { λ link. link.source.faults };

    ghost apart = { λ _. side None 0 };

    fn take(&mut self, into: &mut [u8]) -> Result<usize, Failed> {
        self.source.take(into)
    }
}

impl<'a, R: Wait> ByteSink for HeardLink<'a, R> {
    ghost taken = { λ _. None };

    ghost faults = { λ _. 0 };

    ghost apart = { λ link. side None link.source.faults };

    fn put(&mut self, bytes: &[u8]) -> Result<usize, Failed> {
        let mut heard = self.heard.lock(self.rt);
        let _ = heard.extend_from_slice(bytes);
        Ok(bytes.len())
    }
}

impl<'a, R: Wait> Link for HeardLink<'a, R> {
    ghost take_keeps = { λ link. refl };

    ghost put_keeps = { λ link. refl };
}

/// A listener that gives these connections, the last one first.
#[derive(Drop)]
pub struct Door<'a, R: Wait> {
    pub links: Vec<HeardLink<'a, R>>,
    pub given: Trace<HeardLink<'a, R>>,
    pub faults: u64,
    pub closed: bool,
}

impl<'a, R: Wait> Listener for Door<'a, R> {
    type L = HeardLink<'a, R>;

    ghost given = { λ door. door.given.entries };

    ghost faults = { λ door. door.faults };

    ghost closed = { λ door. door.closed };

    fn accept(&mut self) -> Result<HeardLink<'a, R>, Failed> {
        match self.links.pop() {
            Some(link) => {
                self.given = self.given.and(&link);
                Ok(link)
            }
            None => {
                self.faults = base::one_more(self.faults);
                Err(Failed)
            }
        }
    }

    fn close(&mut self) {
        self.closed = true;
    }
}
